//! The records of a complex instance, and the entities that they name.

ghost use Rattle.std.specs.Prelude.{◌≡◌, ◌↔◌, ℕ, false, IsTrue};
ghost use Rattle.p21_express.specs.WellFormed.{IsEntity};
ghost use Rattle.p21_schema.specs.Place.{IsEntityOf, entity_name};
ghost use Rattle.p21_check.specs.Instances.{IsNamedBefore, IsUnknown, NamesEntity};
ghost use Rattle.p21_check.specs.Sets.{AnyIn, AreMarksOfRecords, EachIn, keywords_of};

use crate::entity_set::is_named;
use crate::marks::put;
use p21_schema::{EntityId, Schema};
use p21_tree::Record;

/// Whether the keyword of a record is no entity.
pub(crate) fn has_unknown(schema: &Schema, records: &[Record<'_>]) -> bool
    ensures some { IsTrue result → AnyIn records.now (IsUnknown schema.now) }
    ensures none { result ≡ false → EachIn records.now (NamesEntity schema.now) }
{
    for record in records {
        if !is_entity(schema, record.keyword) {
            return true;
        }
    }
    false
}

fn is_entity(schema: &Schema, name: &[u8]) -> bool
    ensures { IsTrue result ↔ IsEntity schema.now name.now }
{
    match schema.entity(name) {
        Some(_) => true,
        None => false,
    }
}

/// The entity of a name that is one.
pub(crate) fn known(schema: &Schema, name: &[u8]) -> EntityId
    requires { IsEntity schema.now name.now }
    ensures { IsEntityOf schema.now result × (entity_name schema.now result ≡ name.now) }
{
    schema.entity(name).unwrap()
}

/// Whether two records have one keyword. If not, just the entities that they name are marked then.
pub(crate) fn marks_twice(schema: &Schema, marks: &mut [bool], records: &[Record<'_>]) -> bool
    requires { EachIn records.now (NamesEntity schema.now) }
    ensures twice { IsTrue result ↔ ((k : ℕ) × IsNamedBefore (keywords_of records.now) k) }
    ensures marked { result ≡ false → AreMarksOfRecords schema.now marks.new records.now }
{
    schema.one_id();
    marks.fill(false);
    for k in 0..records.len() {
        let entity = known(schema, records[k].keyword);
        if is_named(schema, marks, &records[..k], entity) {
            return true;
        }
        put(marks, entity);
    }
    false
}
