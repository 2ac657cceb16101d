//! Which entities a model has records of.

use p21_schema::Schema;
use p21_tree::{RawInstance, Record};
use std::alloc::{AllocError, Global};

/// How an entity is used.
#[derive(Clone, Copy, Debug, PartialEq, Eq)]
pub struct Use {
    /// Simple instances are of it.
    pub simple: bool,
    /// Complex instances have records of it.
    pub complex: bool,
}

impl Use {
    /// Whether the entity has a table: there are records of it.
    pub fn has_table(self) -> bool {
        self.simple || self.complex
    }
}

/// No instance is of it.
const UNUSED: Use = Use {
    simple: false,
    complex: false,
};

/// How each entity of a schema is used, in the order of the text.
pub(crate) fn uses_of(
    alloc: Global,
    schema: &Schema,
    instances: &[RawInstance<'_>],
) -> Result<Vec<Use>, AllocError> {
    let mut uses = vec![in alloc; UNUSED; schema.declared().entities.len()]?;
    for instance in instances {
        note_records(
            schema,
            &mut uses,
            instance.complex,
            instance.records.as_slice(),
        );
    }
    Ok(uses)
}

/// Notes the entities of records.
fn note_records(schema: &Schema, uses: &mut [Use], complex: bool, records: &[Record<'_>]) {
    for record in records {
        note(schema, uses, complex, record.keyword);
    }
}

/// Notes the entity of a name.
fn note(schema: &Schema, uses: &mut [Use], complex: bool, name: &[u8]) {
    let Some(entity) = schema.entity(name) else {
        return;
    };
    let Some(found) = uses.get_mut(entity.place()) else {
        return;
    };
    if complex {
        found.complex = true;
    } else {
        found.simple = true;
    }
}
