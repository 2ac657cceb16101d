//! What is asked of the types of a schema, without a model.

use crate::codes::{HANDLE, MEMORY, NONE, OK};
use crate::entity_calls::name_at;
use crate::handle::Handle;
use crate::held::HeldSchema;
use crate::models::schema_in;
use crate::schema_calls::hand_text;
use crate::type_text::push_under;
use p21_express::Under;
use std::alloc::{AllocError, Global};

/// How many types the schema has.
///
/// It counts the types of `Schema::declared`.
#[unsafe(no_mangle)]
pub extern "C" fn p21_schema_type_count(schema: Handle, count: &mut u64) -> i32 {
    let Some(held) = schema_in(schema) else {
        return HANDLE;
    };
    *count = held.schema.declared().types.len() as u64;
    OK
}

/// The name of a type, as the text of the schema spells it.
///
/// Tested.
#[unsafe(no_mangle)]
pub extern "C" fn p21_schema_type_name(
    schema: Handle,
    number: u64,
    room: &mut [u8],
    length: &mut u64,
) -> i32 {
    let Some(held) = schema_in(schema) else {
        return HANDLE;
    };
    match name_at(&held.spellings.types, number) {
        Some(name) => hand_text(name, room, length),
        None => NONE,
    }
}

/// What stands under a type, as EXPRESS writes it.
///
/// Tested.
#[unsafe(no_mangle)]
pub extern "C" fn p21_schema_type_text(
    alloc: Global,
    schema: Handle,
    number: u64,
    room: &mut [u8],
    length: &mut u64,
) -> i32 {
    let Some(held) = schema_in(schema) else {
        return HANDLE;
    };
    let Some(under) = under_at(held, number) else {
        return NONE;
    };
    match text_of(alloc, held, under) {
        Ok(text) => hand_text(&text, room, length),
        Err(_) => MEMORY,
    }
}

/// What stands under the type of a number.
fn under_at(held: &HeldSchema, number: u64) -> Option<&Under> {
    match held
        .schema
        .declared()
        .types
        .get(usize::try_from(number).ok()?)
    {
        Some(declared) => Some(&declared.under),
        None => None,
    }
}

/// The text of what stands under a type.
fn text_of(alloc: Global, held: &HeldSchema, under: &Under) -> Result<Vec<u8>, AllocError> {
    let mut text = Vec::new(alloc);
    push_under(&mut text, held, under)?;
    Ok(text)
}
