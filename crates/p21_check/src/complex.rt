//! The fault that a complex instance has by itself.

ghost use Rattle.std.specs.Prelude.{ℕ, MatchOption};
ghost use Rattle.p21_check.specs.LocalFault.{IsBadComplex};
ghost use Rattle.p21_check.specs.Instances.{IsAnswer, complex_instance, IsFirstWrong, IsFirstBadAttribute, NamesEntity, HasRightCount};
ghost use Rattle.p21_check.specs.Sets.{IsSetOf, IsSetOfRecords, EachIn};

use crate::attributes::{attribute_count, first_unfit};
use crate::distinct::check_complex_distinct;
use crate::entity_set::EntitySet;
use crate::marks::{FEW, MARKS};
use crate::records::{has_unknown, known, marks_twice};
use crate::supertypes::lacks_entity;
use p21_schema::Schema;
use p21_tree::{FaultKind, Record};

/// Checks a complex instance, by its records.
pub(crate) fn check_complex(schema: &Schema, records: &[Record<'_>]) -> Result<(), FaultKind>
    ensures { (name : ℕ) → (at : ℕ) → IsAnswer schema.now (complex_instance name at records.now) result }
{
    if has_unknown(schema, records) {
        return Err(FaultKind::UnknownEntity);
    }
    if records.len() <= FEW {
        check_known(schema, &mut [], &mut [], records)
    } else {
        check_many(schema, records)
    }
}

// A function pays at its beginning for all its tables, so they stand in one of its own, which stays one.
#[inline(never)]
fn check_many(schema: &Schema, records: &[Record<'_>]) -> Result<(), FaultKind>
    requires { EachIn records.now (NamesEntity schema.now) }
    ensures { (name : ℕ) → (at : ℕ) → IsAnswer schema.now (complex_instance name at records.now) result }
{
    let mut marks = [false; MARKS];
    let mut above = [false; MARKS];
    check_known(schema, &mut marks, &mut above, records)
}

/// Checks a complex instance whose keywords are entities, with a table for the marks of these, and one for those of the entities
/// that they name in SUBTYPE OF.
fn check_known(
    schema: &Schema,
    marks: &mut [bool],
    above: &mut [bool],
    records: &[Record<'_>],
) -> Result<(), FaultKind>
    requires { EachIn records.now (NamesEntity schema.now) }
    ensures { (name : ℕ) → (at : ℕ) → IsAnswer schema.now (complex_instance name at records.now) result }
{
    if marks_twice(schema, marks, records) {
        return Err(FaultKind::BadComplex);
    }
    let set = EntitySet::Complex { records, marks };
    if lacks_entity(schema, &set, above, records) {
        return Err(FaultKind::BadComplex);
    }
    check_whole(schema, &set, records)
}

/// Checks a complex instance that has no fault as a whole.
fn check_whole(
    schema: &Schema,
    set: &EntitySet<'_, '_>,
    records: &[Record<'_>],
) -> Result<(), FaultKind>
    requires known { EachIn records.now (NamesEntity schema.now) }
    requires whole { (name : ℕ) → (at : ℕ) → ¬ (IsBadComplex schema.now (complex_instance name at records.now)) }
    requires set { IsSetOf schema.now set.now }
    requires of { IsSetOfRecords schema.now set.now records.now }
    ensures { (name : ℕ) → (at : ℕ) → IsAnswer schema.now (complex_instance name at records.now) result }
{
    if let Some(rec) = first_wrong_count(schema, records) {
        return Err(FaultKind::WrongCount { rec: rec as u64 });
    }
    match first_bad_attribute(schema, set, records) {
        Some((rec, attr)) => Err(FaultKind::BadAttribute {
            rec: rec as u64,
            attr: attr as u64,
        }),
        None => check_complex_distinct(schema, set, records),
    }
}

/// The place of the first record with a wrong number of parameters.
fn first_wrong_count(schema: &Schema, records: &[Record<'_>]) -> Option<usize>
    requires { EachIn records.now (NamesEntity schema.now) }
    ensures wrong { (name : ℕ) → (at : ℕ) → IsFirstWrong schema.now (complex_instance name at records.now) result }
    ensures right { MatchOption result (EachIn records.now (HasRightCount schema.now)) (λ _. Unit {0}) }
{
    schema.fits();
    for k in 0..records.len() {
        let record = &records[k];
        let entity = known(schema, record.keyword);
        if attribute_count(schema, true, entity) != record.params.len() {
            return Some(k);
        }
    }
    None
}

/// The place of the first record with a parameter that does not fit, and of that parameter.
fn first_bad_attribute(
    schema: &Schema,
    set: &EntitySet<'_, '_>,
    records: &[Record<'_>],
) -> Option<(usize, usize)>
    requires known { EachIn records.now (NamesEntity schema.now) }
    requires right { EachIn records.now (HasRightCount schema.now) }
    requires set { IsSetOf schema.now set.now }
    requires of { IsSetOfRecords schema.now set.now records.now }
    ensures { (name : ℕ) → (at : ℕ) → IsFirstBadAttribute schema.now (complex_instance name at records.now) result }
{
    schema.fits();
    for k in 0..records.len() {
        let record = &records[k];
        let entity = known(schema, record.keyword);
        if let Some(attr) = first_unfit(schema, set, true, entity, record.params.as_slice()) {
            return Some((k, attr));
        }
    }
    None
}
