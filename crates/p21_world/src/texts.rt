//! The names of entities and types as TYPEOF has them.

use p21_schema::Schema;
use std::alloc::{AllocError, Global};

/// The names of the entities and types of a schema after its own name and a point.
#[derive(Drop)]
pub(crate) struct Texts {
    pub(crate) entities: Vec<Vec<u8>>,
    pub(crate) types: Vec<Vec<u8>>,
}

pub(crate) fn texts_of(alloc: Global, schema: &Schema) -> Result<Texts, AllocError> {
    let mut entities = Vec::new(alloc);
    for entity in &schema.declared().entities {
        entities.push(qualified(alloc, schema.name(), &entity.name)?)?;
    }
    let mut types = Vec::new(alloc);
    for declared in &schema.declared().types {
        types.push(qualified(alloc, schema.name(), &declared.name)?)?;
    }
    Ok(Texts { entities, types })
}

/// A name after another and a point.
fn qualified(alloc: Global, first: &[u8], name: &[u8]) -> Result<Vec<u8>, AllocError> {
    let mut text = Vec::from_slice(alloc, first)?;
    text.push(b'.')?;
    text.extend_from_slice(name)?;
    Ok(text)
}
