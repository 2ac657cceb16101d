//! The entities that a complex instance is of, as bits.

ghost use Rattle.std.specs.Prelude.{◌≡◌, ◌↔◌, IsTrue};
ghost use Rattle.p21_express.specs.WellFormed.{IsIn, IsAncestor};
ghost use Rattle.p21_schema.specs.Place.{IsEntityOf, entity_name};
ghost use Rattle.p21_check.specs.Sets.{keywords_of, AreMarksOfRecords, HasEntity, IsSetOf};

use p21_schema::{EntityId, Schema};
use p21_tree::Record;

/// The entities that an instance is of.
#[derive(Clone, Copy)]
pub(crate) enum EntitySet<'a, 'b> {
    /// Of a simple instance: its entity, and the ancestors.
    Simple(EntityId),
    /// Of a complex instance: the entities of its records, with a table of marks of these.
    Complex {
        records: &'a [Record<'b>],
        marks: &'a [bool],
    },
}

/// Whether the entity is in the set.
pub(crate) fn is_in_set(schema: &Schema, set: &EntitySet<'_, '_>, entity: EntityId) -> bool
    requires set { IsSetOf schema.now set.now }
    requires entity { IsEntityOf schema.now entity }
    ensures { IsTrue result ↔ HasEntity schema.now set.now (entity_name schema.now entity) }
{
    match *set {
        EntitySet::Simple(own) => schema.is_a(own, entity),
        EntitySet::Complex { records, marks } => is_named(schema, marks, records, entity),
    }
}

/// Whether a record names the entity: by its mark, or, where it has none, by a search of the records.
pub(crate) fn is_named(
    schema: &Schema,
    marks: &[bool],
    records: &[Record<'_>],
    entity: EntityId,
) -> bool
    requires marked { AreMarksOfRecords schema.now marks.now records.now }
    requires entity { IsEntityOf schema.now entity }
    ensures { IsTrue result ↔ IsIn (keywords_of records.now) (entity_name schema.now entity) }
{
    let place = entity.place();
    if place < marks.len() {
        marks[place]
    } else {
        is_keyword(schema, records, entity)
    }
}

/// Whether the keyword of a record is the name of the entity.
fn is_keyword(schema: &Schema, records: &[Record<'_>], entity: EntityId) -> bool
    requires { IsEntityOf schema.now entity }
    ensures { IsTrue result ↔ IsIn (keywords_of records.now) (entity_name schema.now entity) }
{
    for record in records {
        if has_name(schema, entity, record.keyword) {
            return true;
        }
    }
    false
}

/// Whether the entity has this name.
pub(crate) fn has_name(schema: &Schema, entity: EntityId, name: &[u8]) -> bool
    requires { IsEntityOf schema.now entity }
    ensures { IsTrue result ↔ (name.now ≡ entity_name schema.now entity) }
{
    schema.name_of(entity) == name
}

/// Whether the other entity is an ancestor of this one.
pub(crate) fn is_below(schema: &Schema, entity: EntityId, other: EntityId) -> bool
    requires entity { IsEntityOf schema.now entity }
    requires other { IsEntityOf schema.now other }
    ensures { IsTrue result ↔ IsAncestor schema.now (entity_name schema.now entity) (entity_name schema.now other) }
{
    schema.fits();
    schema.one_id();
    entity != other && schema.is_a(entity, other)
}
