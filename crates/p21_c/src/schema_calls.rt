//! What is asked of the schema of a model.

ghost use Rattle.std.specs.Prelude.{IfSome};
ghost use Rattle.p21_schema.specs.Place.{IsEntityOf};

use crate::codes::{HANDLE, MEMORY, NONE, OK};
use crate::handle::Handle;
use crate::models::model_in;
use p21_json::attribute_count;
use p21_query::{attribute_named, copy_front};
use p21_schema::{EntityId, Schema};
use std::alloc::Global;

/// The entity of a number.
pub(crate) fn entity_at(schema: &Schema, number: u64) -> Option<EntityId>
    ensures { IfSome result (IsEntityOf schema.now) }
{
    schema.entity_at(usize::try_from(number).ok()?)
}

/// The name of the schema.
///
/// It hands on the result of `Schema::name`.
#[unsafe(no_mangle)]
pub extern "C" fn p21_schema_name(model: Handle, room: &mut [u8], length: &mut u64) -> i32 {
    let Some(held) = model_in(model) else {
        return HANDLE;
    };
    hand_text(held.terms.schema().name(), room, length)
}

/// The number of the entity of a name.
///
/// It hands on the result of `Schema::entity`.
#[unsafe(no_mangle)]
pub extern "C" fn p21_entity(model: Handle, name: &[u8], entity: &mut u64) -> i32 {
    let Some(held) = model_in(model) else {
        return HANDLE;
    };
    let Some(found) = held.terms.schema().entity(name) else {
        return NONE;
    };
    *entity = found.place() as u64;
    OK
}

/// How many entities the schema has.
///
/// It counts the entities of `Schema::declared`.
#[unsafe(no_mangle)]
pub extern "C" fn p21_entity_count(model: Handle, count: &mut u64) -> i32 {
    let Some(held) = model_in(model) else {
        return HANDLE;
    };
    *count = held.terms.schema().declared().entities.len() as u64;
    OK
}

/// The name of an entity.
///
/// It hands on the result of `Terms::entity`.
#[unsafe(no_mangle)]
pub extern "C" fn p21_entity_name(
    model: Handle,
    entity: u64,
    room: &mut [u8],
    length: &mut u64,
) -> i32 {
    let Some(held) = model_in(model) else {
        return HANDLE;
    };
    let Some(entity) = entity_at(held.terms.schema(), entity) else {
        return NONE;
    };
    hand_text(held.terms.entity(entity).as_bytes(), room, length)
}

/// Whether an entity is another, or has it as an ancestor.
///
/// It hands on the result of `Schema::is_a`.
#[unsafe(no_mangle)]
pub extern "C" fn p21_is_a(model: Handle, entity: u64, other: u64, answer: &mut u32) -> i32 {
    let Some(held) = model_in(model) else {
        return HANDLE;
    };
    let schema = held.terms.schema();
    let (Some(entity), Some(other)) = (entity_at(schema, entity), entity_at(schema, other)) else {
        return NONE;
    };
    *answer = u32::from(schema.is_a(entity, other));
    OK
}

/// How many attributes a record of an entity has.
///
/// It hands on the result of `attribute_count`.
#[unsafe(no_mangle)]
pub extern "C" fn p21_attribute_count(
    model: Handle,
    entity: u64,
    own: u32,
    count: &mut u64,
) -> i32 {
    let Some(held) = model_in(model) else {
        return HANDLE;
    };
    let schema = held.terms.schema();
    let Some(entity) = entity_at(schema, entity) else {
        return NONE;
    };
    *count = attribute_count(schema, own != 0, entity) as u64;
    OK
}

/// The key of one of them: its name, or where one before it has this name, that of the entity that declares it in front.
///
/// It hands on the result of `Terms::write_key`.
#[unsafe(no_mangle)]
pub extern "C" fn p21_attribute_name(
    alloc: Global,
    model: Handle,
    entity: u64,
    own: u32,
    position: u64,
    room: &mut [u8],
    length: &mut u64,
) -> i32 {
    let Some(held) = model_in(model) else {
        return HANDLE;
    };
    let schema = held.terms.schema();
    let (Some(entity), Ok(position)) = (entity_at(schema, entity), usize::try_from(position)) else {
        return NONE;
    };
    if position >= attribute_count(schema, own != 0, entity) {
        return NONE;
    }
    let mut key = String::new(alloc);
    match held.terms.write_key(&mut key, own != 0, entity, position) {
        Ok(()) => hand_text(key.as_bytes(), room, length),
        Err(_) => MEMORY,
    }
}

/// The place of the one that has a key.
///
/// It hands on the result of `attribute_named`.
#[unsafe(no_mangle)]
pub extern "C" fn p21_attribute(
    model: Handle,
    entity: u64,
    own: u32,
    name: &[u8],
    position: &mut u64,
) -> i32 {
    let Some(held) = model_in(model) else {
        return HANDLE;
    };
    let Some(entity) = entity_at(held.terms.schema(), entity) else {
        return NONE;
    };
    let Some(found) = attribute_named(&held.terms, own != 0, entity, name) else {
        return NONE;
    };
    *position = found as u64;
    OK
}

/// Hands out as much of a text as there is room for, and how long it is.
pub(crate) fn hand_text(text: &[u8], room: &mut [u8], length: &mut u64) -> i32 {
    copy_front(text, room);
    *length = text.len() as u64;
    OK
}
