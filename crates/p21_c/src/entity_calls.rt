//! What is asked of the entities of a schema, without a model.

ghost use Rattle.p21_schema.specs.Place.{IsEntityOf};
ghost use Rattle.p21_schema.specs.Row.{IsAttributeOf};

use crate::bound::{attribute_at, bound_of, declaring};
use crate::codes::{HANDLE, MEMORY, NONE, OK};
use crate::handle::Handle;
use crate::held::HeldSchema;
use crate::model_calls::number_of;
use crate::models::schema_in;
use crate::schema_calls::{entity_at, hand_text};
use crate::type_text::push_resolved;
use p21_express::upper_case;
use p21_schema::{AttrId, EntityId};
use p21_spelling::Spellings;
use std::alloc::{AllocError, Global};

/// An entity.
#[repr(C)]
#[derive(Clone, Copy)]
pub struct CEntity {
    /// 1 where it is an abstract supertype, else 0.
    pub is_abstract: u32,
    /// How many supertypes it names.
    pub supertypes: u64,
    /// How many attributes its instances have, with the inherited ones.
    pub attributes: u64,
}

/// An attribute of the instances of an entity.
#[repr(C)]
#[derive(Clone, Copy)]
pub struct CAttribute {
    /// The entity that newly declares it.
    pub entity: u64,
    /// 1 where its value may be left out, else 0.
    pub optional: u32,
    /// 1 where it is derived, else 0.
    pub derived: u32,
}

/// The name of the schema.
///
/// It hands on the result of `Schema::name`.
#[unsafe(no_mangle)]
pub extern "C" fn p21_schema_title(schema: Handle, room: &mut [u8], length: &mut u64) -> i32 {
    let Some(held) = schema_in(schema) else {
        return HANDLE;
    };
    hand_text(held.schema.name(), room, length)
}

/// How many entities the schema has.
///
/// It counts the entities of `Schema::declared`.
#[unsafe(no_mangle)]
pub extern "C" fn p21_schema_entity_count(schema: Handle, count: &mut u64) -> i32 {
    let Some(held) = schema_in(schema) else {
        return HANDLE;
    };
    *count = held.schema.declared().entities.len() as u64;
    OK
}

/// The number of the entity of a name, in any case of letters.
///
/// It hands on the result of `Schema::entity`.
#[unsafe(no_mangle)]
pub extern "C" fn p21_schema_entity(
    alloc: Global,
    schema: Handle,
    name: &[u8],
    entity: &mut u64,
) -> i32 {
    let Some(held) = schema_in(schema) else {
        return HANDLE;
    };
    let Ok(upper) = upper_case(alloc, name) else {
        return MEMORY;
    };
    let Some(found) = held.schema.entity(&upper) else {
        return NONE;
    };
    *entity = found.place() as u64;
    OK
}

/// The name of an entity, as the text of the schema spells it.
///
/// Tested.
#[unsafe(no_mangle)]
pub extern "C" fn p21_schema_entity_name(
    schema: Handle,
    entity: u64,
    room: &mut [u8],
    length: &mut u64,
) -> i32 {
    let Some(held) = schema_in(schema) else {
        return HANDLE;
    };
    match name_at(&held.spellings.entities, entity) {
        Some(name) => hand_text(name, room, length),
        None => NONE,
    }
}

/// The name of a number.
pub(crate) fn name_at(names: &[Vec<u8>], number: u64) -> Option<&[u8]> {
    match names.get(usize::try_from(number).ok()?) {
        Some(name) => Some(name),
        None => None,
    }
}

/// Whether an entity is abstract, and how many supertypes and attributes it has.
///
/// It hands on the results of `Schema::is_abstract`, `Schema::supertypes` and `Schema::row_count`.
#[unsafe(no_mangle)]
pub extern "C" fn p21_schema_entity_view(schema: Handle, entity: u64, out: &mut CEntity) -> i32 {
    let Some(held) = schema_in(schema) else {
        return HANDLE;
    };
    let Some(entity) = entity_at(&held.schema, entity) else {
        return NONE;
    };
    *out = CEntity {
        is_abstract: u32::from(held.schema.is_abstract(entity)),
        supertypes: held.schema.supertypes(entity).len() as u64,
        attributes: held.schema.row_count(entity) as u64,
    };
    OK
}

/// A supertype that an entity names, by its place in the order of the text.
///
/// It hands on the result of `Schema::supertypes`.
#[unsafe(no_mangle)]
pub extern "C" fn p21_schema_supertype(
    schema: Handle,
    entity: u64,
    place: u64,
    supertype: &mut u64,
) -> i32 {
    let Some(held) = schema_in(schema) else {
        return HANDLE;
    };
    let (Some(entity), Ok(place)) = (entity_at(&held.schema, entity), usize::try_from(place)) else {
        return NONE;
    };
    let Some(found) = held.schema.supertypes(entity).get(place) else {
        return NONE;
    };
    *supertype = found.place() as u64;
    OK
}

/// Whether an entity is another, or has it as an ancestor.
///
/// It hands on the result of `Schema::is_a`.
#[unsafe(no_mangle)]
pub extern "C" fn p21_schema_is_a(
    schema: Handle,
    entity: u64,
    other: u64,
    answer: &mut u32,
) -> i32 {
    let Some(held) = schema_in(schema) else {
        return HANDLE;
    };
    let schema = &held.schema;
    let (Some(entity), Some(other)) = (entity_at(schema, entity), entity_at(schema, other)) else {
        return NONE;
    };
    *answer = u32::from(schema.is_a(entity, other));
    OK
}

/// An attribute of the instances of an entity, by its place in their record: which entity declares it, and whether it may be left out or is derived.
///
/// Tested.
#[unsafe(no_mangle)]
pub extern "C" fn p21_schema_attribute(
    schema: Handle,
    entity: u64,
    position: u64,
    out: &mut CAttribute,
) -> i32 {
    let Some(held) = schema_in(schema) else {
        return HANDLE;
    };
    let schema = &held.schema;
    let Some(entity) = entity_at(schema, entity) else {
        return NONE;
    };
    let Some(attribute) = attribute_at(schema, entity, position) else {
        return NONE;
    };
    let bound = bound_of(schema, entity, attribute);
    *out = CAttribute {
        entity: number_of(declaring(schema, attribute)),
        optional: u32::from(bound.optional),
        derived: u32::from(bound.derived),
    };
    OK
}

/// The key of an attribute of the instances of an entity: its name, or where one before it has this name, that of the entity that declares it in front.
///
/// Tested.
#[unsafe(no_mangle)]
pub extern "C" fn p21_schema_attribute_name(
    alloc: Global,
    schema: Handle,
    entity: u64,
    position: u64,
    room: &mut [u8],
    length: &mut u64,
) -> i32 {
    let Some(held) = schema_in(schema) else {
        return HANDLE;
    };
    let Some(entity) = entity_at(&held.schema, entity) else {
        return NONE;
    };
    let Some(attribute) = attribute_at(&held.schema, entity, position) else {
        return NONE;
    };
    let Some(name) = spelled(&held.spellings, attribute) else {
        return NONE;
    };
    if !is_repeated(held, entity, position, name) {
        return hand_text(name, room, length);
    }
    match full_name(alloc, held, attribute, name) {
        Ok(full) => hand_text(&full, room, length),
        Err(_) => MEMORY,
    }
}

/// The name of an attribute, as the text of the schema spells it.
fn spelled(spellings: &Spellings, attribute: AttrId) -> Option<&[u8]> {
    match spellings.attributes.get(attribute.place()) {
        Some(name) => Some(name),
        None => None,
    }
}

/// Whether an attribute before a position in the records of an entity has this name.
fn is_repeated(held: &HeldSchema, entity: EntityId, position: u64, name: &[u8]) -> bool
    requires { IsEntityOf held.now.schema entity }
{
    for before in 0..position {
        if is_named(held, entity, before, name) {
            return true;
        }
    }
    false
}

/// Whether the attribute at a position in the records of an entity has this name.
fn is_named(held: &HeldSchema, entity: EntityId, position: u64, name: &[u8]) -> bool
    requires { IsEntityOf held.now.schema entity }
{
    match attribute_at(&held.schema, entity, position) {
        Some(attribute) => match spelled(&held.spellings, attribute) {
            Some(other) => other.eq_ignore_ascii_case(name),
            None => false,
        },
        None => false,
    }
}

/// The name of an attribute behind that of the entity that declares it.
fn full_name(
    alloc: Global,
    held: &HeldSchema,
    attribute: AttrId,
    name: &[u8],
) -> Result<Vec<u8>, AllocError> {
    let mut full = Vec::new(alloc);
    if let Some(entity) = declaring(&held.schema, attribute) {
        if let Some(front) = held.spellings.entities.get(entity.place()) {
            full.extend_from_slice(front)?;
        }
    }
    full.extend_from_slice(b".")?;
    full.extend_from_slice(name)?;
    Ok(full)
}

/// The type of an attribute of the instances of an entity, as EXPRESS writes it.
///
/// Tested.
#[unsafe(no_mangle)]
pub extern "C" fn p21_schema_attribute_type(
    alloc: Global,
    schema: Handle,
    entity: u64,
    position: u64,
    room: &mut [u8],
    length: &mut u64,
) -> i32 {
    let Some(held) = schema_in(schema) else {
        return HANDLE;
    };
    let Some(entity) = entity_at(&held.schema, entity) else {
        return NONE;
    };
    let Some(attribute) = attribute_at(&held.schema, entity, position) else {
        return NONE;
    };
    match type_of(alloc, held, entity, attribute) {
        Ok(text) => hand_text(&text, room, length),
        Err(_) => MEMORY,
    }
}

/// The type of an attribute in the instances of an entity.
fn type_of(
    alloc: Global,
    held: &HeldSchema,
    entity: EntityId,
    attribute: AttrId,
) -> Result<Vec<u8>, AllocError>
    requires { IsAttributeOf held.now.schema attribute }
{
    let mut text = Vec::new(alloc);
    if let Some(texpr) = bound_of(&held.schema, entity, attribute).texpr {
        push_resolved(&mut text, &held.spellings, texpr)?;
    }
    Ok(text)
}
