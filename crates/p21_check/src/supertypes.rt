//! Whether a complex instance has the supertypes of its entities, and a subtype of each abstract one.

ghost use Rattle.std.specs.Prelude.{◌≡◌, ◌↔◌, ◌⊎◌, ℕ, List, IsTrue};
ghost use Rattle.p21_express.specs.WellFormed.{IsSupertype};
ghost use Rattle.p21_schema.specs.Place.{IsEntityOf, entity_name};
ghost use Rattle.p21_check.specs.LocalFault.{IsAbstract, LacksSupertype, LacksSubtype};
ghost use Rattle.p21_check.specs.Instances.{complex_instance, NamesEntity, LacksAbove, IsSubtypeRecord, LacksBelow, AreMarksAbove};
ghost use Rattle.p21_check.specs.Sets.{HasEntity, IsSetOf, IsSetOfRecords, AnyIn, EachIn};

use crate::entity_set::{EntitySet, is_in_set};
use crate::marks::put_all;
use crate::records::known;
use p21_schema::{EntityId, Schema};
use p21_tree::Record;

/// Whether an entity stands without one of its supertypes, or an abstract one without a subtype. The table is for marks.
pub(crate) fn lacks_entity(
    schema: &Schema,
    set: &EntitySet<'_, '_>,
    above: &mut [bool],
    records: &[Record<'_>],
) -> bool
    requires known { EachIn records.now (NamesEntity schema.now) }
    requires set { IsSetOf schema.now set.now }
    requires of { IsSetOfRecords schema.now set.now records.now }
    ensures { (name : ℕ) → (at : ℕ) → (IsTrue result ↔ (LacksSupertype schema.now (complex_instance name at records.now) ⊎ LacksSubtype schema.now (complex_instance name at records.now))) }
{
    mark_supertypes(schema, above, records);
    lacks_supertype(schema, set, records) || lacks_subtype(schema, above, records)
}

/// Marks the entities that those of the records name in SUBTYPE OF, and no others.
fn mark_supertypes(schema: &Schema, above: &mut [bool], records: &[Record<'_>])
    requires { EachIn records.now (NamesEntity schema.now) }
    ensures { AreMarksAbove schema.now above.new records.now }
{
    schema.fits();
    schema.one_id();
    above.fill(false);
    for record in records {
        let entity = known(schema, record.keyword);
        put_all(above, schema.supertypes(entity));
    }
}

/// Whether an entity stands without one of its supertypes.
fn lacks_supertype(schema: &Schema, set: &EntitySet<'_, '_>, records: &[Record<'_>]) -> bool
    requires known { EachIn records.now (NamesEntity schema.now) }
    requires set { IsSetOf schema.now set.now }
    ensures { IsTrue result ↔ AnyIn records.now (LacksAbove schema.now (HasEntity schema.now set.now)) }
{
    for record in records {
        if lacks_above(schema, set, known(schema, record.keyword)) {
            return true;
        }
    }
    false
}

/// Whether this entity does.
fn lacks_above(schema: &Schema, set: &EntitySet<'_, '_>, entity: EntityId) -> bool
    requires set { IsSetOf schema.now set.now }
    requires entity { IsEntityOf schema.now entity }
    ensures { IsTrue result ↔ ((m : List ℕ) × (IsSupertype schema.now (entity_name schema.now entity) m × ¬ (HasEntity schema.now set.now m))) }
{
    schema.fits();
    let supertypes = schema.supertypes(entity);
    for supertype in supertypes {
        if !is_in_set(schema, set, *supertype) {
            return true;
        }
    }
    false
}

/// Whether an abstract entity stands without a subtype, by the marks of the entities above.
fn lacks_subtype(schema: &Schema, above: &[bool], records: &[Record<'_>]) -> bool
    requires known { EachIn records.now (NamesEntity schema.now) }
    requires marked { AreMarksAbove schema.now above.now records.now }
    ensures { IsTrue result ↔ AnyIn records.now (LacksBelow schema.now records.now) }
{
    for record in records {
        if lacks_below(schema, above, records, known(schema, record.keyword)) {
            return true;
        }
    }
    false
}

/// Whether this entity does.
fn lacks_below(schema: &Schema, above: &[bool], records: &[Record<'_>], entity: EntityId) -> bool
    requires entity { IsEntityOf schema.now entity }
    requires known { EachIn records.now (NamesEntity schema.now) }
    requires marked { AreMarksAbove schema.now above.now records.now }
    ensures { IsTrue result ↔ (IsAbstract schema.now (entity_name schema.now entity) × ¬ (AnyIn records.now (IsSubtypeRecord schema.now (entity_name schema.now entity)))) }
{
    schema.fits();
    schema.is_abstract(entity) && !has_subtype_by(schema, above, records, entity)
}

/// Whether a record is of a subtype, by its mark, or, where it has none, by a search of the records.
fn has_subtype_by(schema: &Schema, above: &[bool], records: &[Record<'_>], entity: EntityId) -> bool
    requires entity { IsEntityOf schema.now entity }
    requires known { EachIn records.now (NamesEntity schema.now) }
    requires marked { AreMarksAbove schema.now above.now records.now }
    ensures { IsTrue result ↔ AnyIn records.now (IsSubtypeRecord schema.now (entity_name schema.now entity)) }
{
    let place = entity.place();
    if place < above.len() {
        above[place]
    } else {
        has_subtype(schema, records, entity)
    }
}

/// Whether a record is of a subtype.
fn has_subtype(schema: &Schema, records: &[Record<'_>], entity: EntityId) -> bool
    requires entity { IsEntityOf schema.now entity }
    requires known { EachIn records.now (NamesEntity schema.now) }
    ensures { IsTrue result ↔ AnyIn records.now (IsSubtypeRecord schema.now (entity_name schema.now entity)) }
{
    for record in records {
        if is_subtype(schema, known(schema, record.keyword), entity) {
            return true;
        }
    }
    false
}

/// Whether an entity names the other in SUBTYPE OF.
fn is_subtype(schema: &Schema, entity: EntityId, other: EntityId) -> bool
    requires entity { IsEntityOf schema.now entity }
    requires other { IsEntityOf schema.now other }
    ensures { IsTrue result ↔ IsSupertype schema.now (entity_name schema.now entity) (entity_name schema.now other) }
{
    schema.fits();
    schema.one_id();
    let supertypes = schema.supertypes(entity);
    for supertype in supertypes {
        if *supertype == other {
            return true;
        }
    }
    false
}
