//! The text of a schema under the name that a file has for it.

use crate::found::{front_of, named_schema, words_of_schema};
use crate::mending::schema_text;
use crate::words::Wanted;
use std::alloc::{AllocError, Global};
use std::fs::Files;

/// The text of a schema under another name.
#[derive(Drop)]
pub(crate) struct Renamed {
    pub(crate) text: Vec<u8>,
    /// The name that it has there.
    pub(crate) name: Vec<u8>,
}

/// The text of the schema under the name that the file has for it; none where that is its name, or one of both cannot be read or has no such name.
pub(crate) fn renamed_for<R: Files>(rt: &R, alloc: Global, wanted: &Wanted<'_>) -> Option<Renamed> {
    let front = front_of(rt, alloc, wanted.file).ok()?;
    if let Some(text) = wanted.text {
        return renamed_by(alloc, text, &front);
    }
    let text = schema_text(rt, alloc, wanted.schema).ok()?;
    renamed_by(alloc, &text, &front)
}

/// The text of a schema under the name that the front of a file has for it.
fn renamed_by(alloc: Global, text: &[u8], front: &[u8]) -> Option<Renamed> {
    let name = named_schema(front)?;
    let (own, rest) = words_of_schema(text)?;
    if !is_name(name) || own.eq_ignore_ascii_case(name) {
        return None;
    }
    let end = text.len().saturating_sub(rest.len());
    let before = text.get(..end.saturating_sub(own.len()))?;
    joined(alloc, before, name, rest).ok()
}

/// Whether EXPRESS takes some bytes for a name.
fn is_name(name: &[u8]) -> bool {
    name.first().is_some_and(|it| it.is_ascii_alphabetic())
        && name
            .iter()
            .all(|it| it.is_ascii_alphanumeric() || *it == b'_')
}

/// A text of three parts, of which the second is the name.
fn joined(alloc: Global, before: &[u8], name: &[u8], behind: &[u8]) -> Result<Renamed, AllocError> {
    let mut text = Vec::new(alloc);
    text.extend_from_slice(before)?;
    text.extend_from_slice(name)?;
    text.extend_from_slice(behind)?;
    let mut given = Vec::new(alloc);
    given.extend_from_slice(name)?;
    Ok(Renamed { text, name: given })
}
