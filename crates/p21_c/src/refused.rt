//! The fault of a schema's text in words.

use crate::codes::{CFault, MEMORY, NONE, OK, schema_kind, told_schema_fault};
use crate::schema_calls::hand_text;
use p21_explain::{Format, Lines, RefusedSchema, explain_schema_fault, place_of};
use std::alloc::Global;
use std::str::from_utf8;

/// Why the text of a schema is refused, in words: in lines, or where `json` is not 0, as an object of JSON in a line.
///
/// It hands on the result of `explain_schema_fault`: the text has no control characters but line ends.
#[unsafe(no_mangle)]
pub extern "C" fn p21_schema_explain(
    alloc: Global,
    text: &[u8],
    path: &[u8],
    fault: &CFault,
    json: u32,
    room: &mut [u8],
    length: &mut u64,
) -> i32 {
    let Some(error) = told_schema_fault(fault) else {
        return NONE;
    };
    let format = if json == 0 {
        Format::Text
    } else {
        Format::Json
    };
    let path = from_utf8(path).unwrap_or("schema");
    let kind = schema_kind(&error).as_bytes();
    // What mends a schema is a call here, and no option.
    let refused = RefusedSchema { path, changes: &[] };
    match explain_schema_fault(alloc, refused, &mut Lines::new(text), &error, kind, format) {
        Ok(said) => hand_text(said.as_bytes(), room, length),
        Err(_) => MEMORY,
    }
}

/// The line and the column of a place in a text.
///
/// It hands on the result of `place_of`.
#[unsafe(no_mangle)]
pub extern "C" fn p21_place(text: &[u8], at: u64, line: &mut u64, column: &mut u64) -> i32 {
    let Ok(at) = usize::try_from(at) else {
        return NONE;
    };
    if at > text.len() {
        return NONE;
    }
    let place = place_of(text, at);
    *line = place.line as u64;
    *column = place.column as u64;
    OK
}
