//! The header of the file of a model.

use crate::codes::{HANDLE, MEMORY, NONE};
use crate::handle::Handle;
use crate::held::HeldModel;
use crate::models::model_in;
use crate::schema_calls::hand_text;
use p21_json::write_header;
use p21_tree::{TreeError, read_preface};
use std::alloc::{AllocError, Global};

/// The header of the file of a model, as a line of JSON.
///
/// It hands on the result of `write_header`.
#[unsafe(no_mangle)]
pub extern "C" fn p21_header(
    alloc: Global,
    model: Handle,
    room: &mut [u8],
    length: &mut u64,
) -> i32 {
    let Some(held) = model_in(model) else {
        return HANDLE;
    };
    match header_of(alloc, held) {
        Ok(Some(text)) => hand_text(&text, room, length),
        Ok(None) => NONE,
        Err(_) => MEMORY,
    }
}

/// The line of the header of a model's file; `None` where the file has none.
fn header_of(alloc: Global, held: &HeldModel) -> Result<Option<Vec<u8>>, AllocError> {
    match read_preface(alloc, held.file) {
        Ok(preface) if preface.entities.len() >= 3 => {
            Ok(Some(write_header(alloc, &held.terms, &preface)?))
        }
        Ok(_) | Err(TreeError::Grammar(_)) => Ok(None),
        Err(TreeError::Memory) => Err(AllocError),
    }
}
