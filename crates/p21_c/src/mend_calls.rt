//! The text of a schema, mended.

use crate::codes::{HANDLE, MEMORY, NONE, OK};
use crate::handle::Handle;
use crate::held::Held;
use crate::models::mended_in;
use crate::reading::hand_out;
use crate::schema_calls::hand_text;
use p21_mend::{Change, mended};
use std::alloc::Global;

/// Writes the forms of a schema's text that are not supported another way with the same meaning.
///
/// It hands on the result of `mended`.
#[unsafe(no_mangle)]
pub extern "C" fn p21_mend(alloc: Global, text: &[u8], out: &mut *mut u8) -> i32 {
    match mended(alloc, text) {
        Ok(mended) => hand_out(alloc, Held::Mended(mended), out),
        Err(_) => MEMORY,
    }
}

/// The text after all changes.
///
/// It hands on `text` of the result of `mended`.
#[unsafe(no_mangle)]
pub extern "C" fn p21_mended_text(mended: Handle, room: &mut [u8], length: &mut u64) -> i32 {
    let Some(held) = mended_in(mended) else {
        return HANDLE;
    };
    hand_text(&held.text, room, length)
}

/// How many changes there are.
///
/// It counts `changes` of the result of `mended`.
#[unsafe(no_mangle)]
pub extern "C" fn p21_change_count(mended: Handle, count: &mut u64) -> i32 {
    let Some(held) = mended_in(mended) else {
        return HANDLE;
    };
    *count = held.changes.len() as u64;
    OK
}

/// The place of a change in the text that was mended, and what was changed, in a sentence.
///
/// It hands on the sentence of a change.
#[unsafe(no_mangle)]
pub extern "C" fn p21_change(
    mended: Handle,
    number: u64,
    at: &mut u64,
    room: &mut [u8],
    length: &mut u64,
) -> i32 {
    let Some(held) = mended_in(mended) else {
        return HANDLE;
    };
    let Some(change) = change_at(&held.changes, number) else {
        return NONE;
    };
    *at = change.at as u64;
    hand_text(change.form.sentence().as_bytes(), room, length)
}

/// The change of a number.
fn change_at(changes: &[Change], number: u64) -> Option<Change> {
    changes.get(usize::try_from(number).ok()?).copied()
}
