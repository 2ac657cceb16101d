//! The values of the parameters of a model.

use crate::codes::{HANDLE, MEMORY, NONE, OK};
use crate::handle::Handle;
use crate::held::HeldModel;
use crate::model_calls::{instance_at, record_at};
use crate::models::model_in;
use crate::values::{CValue, value_of};
use p21_json::{attribute, attribute_count, is_logical};
use p21_query::{copy_front, parameter_at, write_text};
use p21_tree::{Param, RawInstance, Record};
use std::alloc::Global;

/// The value at a path of a record of an instance, and as much of its text as there is room for.
///
/// It hands on the results of `parameter_at`, `write_text`, and `is_logical` of p21_json. That it says rightly
/// whether enumerations are of BOOLEAN or LOGICAL is known by review.
#[unsafe(no_mangle)]
pub extern "C" fn p21_value(
    alloc: Global,
    model: Handle,
    place: u64,
    record: u64,
    path: &[u64],
    room: &mut [u8],
    out: &mut CValue,
) -> i32 {
    let Some(held) = model_in(model) else {
        return HANDLE;
    };
    let Some(instance) = instance_at(held, place) else {
        return NONE;
    };
    let Some(record) = record_at(instance, record) else {
        return NONE;
    };
    let logical = may_be_enumeration(record, path) && is_logical_at(held, instance, record, path);
    let Some(found) = parameter_at(&held.terms, record.params.as_slice(), logical, path) else {
        return NONE;
    };
    let mut text = String::new(alloc);
    if write_text(&held.terms, &mut text, found.param).is_err() {
        return MEMORY;
    }
    copy_front(text.as_bytes(), room);
    *out = CValue {
        length: text.len() as u64,
        ..value_of(found)
    };
    OK
}

/// Whether enumerations in the parameter that a path begins with are values of BOOLEAN or LOGICAL.
fn is_logical_at(
    held: &HeldModel,
    instance: &RawInstance<'_>,
    record: &Record<'_>,
    path: &[u64],
) -> bool {
    let schema = held.terms.schema();
    let (Some(entity), Some(first)) = (schema.entity(record.keyword), path.first()) else {
        return false;
    };
    let position = *first as usize;
    if position >= attribute_count(schema, instance.complex, entity) {
        return false;
    }
    let found = attribute(schema, instance.complex, entity, position);
    is_logical(&held.terms, instance, found)
}

/// Whether an enumeration can be what a path finds in the parameter that it begins with, but for one with a type of its own.
fn may_be_enumeration(record: &Record<'_>, path: &[u64]) -> bool {
    let Some(first) = path.first() else {
        return false;
    };
    match record.params.as_slice().get(*first as usize) {
        Some(Param::Enumeration(_)) | Some(Param::Items(_)) => true,
        _ => false,
    }
}
