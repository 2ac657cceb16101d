//! Faults in words.

use crate::codes::{CFault, HANDLE, MEMORY, NONE, told_fault};
use crate::handle::Handle;
use crate::held::{Held, HeldSchema};
use crate::schema_calls::hand_text;
use p21_explain::{Format, Lines, NamedInstances, Subject, explain_fault};
use p21_tree::Fault;
use std::alloc::{AllocError, Global};
use std::slice;
use std::str::from_utf8;

/// A fault of a file that was read against a schema, in words.
///
/// It hands on the result of `explain_fault`: the text has no control characters but line ends.
#[unsafe(no_mangle)]
pub extern "C" fn p21_explain(
    alloc: Global,
    schema: Handle,
    file: &[u8],
    path: &[u8],
    fault: &CFault,
    room: &mut [u8],
    length: &mut u64,
) -> i32 {
    let Some(Held::Schema(held)) = schema.get() else {
        return HANDLE;
    };
    let Some(found) = told_fault(*fault) else {
        return NONE;
    };
    match explained(alloc, held, file, path, &found) {
        Ok(said) => hand_text(said.as_bytes(), room, length),
        Err(_) => MEMORY,
    }
}

/// The words for a fault.
fn explained(
    alloc: Global,
    held: &HeldSchema,
    file: &[u8],
    path: &[u8],
    found: &Fault,
) -> Result<String, AllocError> {
    let named = NamedInstances::of_faults(alloc, file, slice::from_ref(found))?;
    let subject = Subject {
        schema: &held.schema,
        spellings: &held.spellings,
        path: from_utf8(path).unwrap_or("file"),
        file,
        named: &named,
    };
    explain_fault(
        alloc,
        subject,
        &mut Lines::new(file),
        found,
        b"",
        Format::Text,
    )
}
