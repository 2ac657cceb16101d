//! The references of an instance.

ghost use Rattle.std.specs.Prelude.{◌≡◌, ℕ, List, Option, Some, None, length, option_map, MatchResult, OnErr};
ghost use Rattle.p21_tree.specs.Sentence.{Instance};
ghost use Rattle.p21_tree.specs.Views.{plain_instance, plain_record};
ghost use Rattle.p21_express.specs.WellFormed.{Origin};
ghost use Rattle.p21_check.specs.Attributes.{AreAttributes};
ghost use Rattle.p21_tree.specs.Plain.{plain_all};
ghost use Rattle.p21_schema.specs.Place.{IsEntityOf, entity_name};
ghost use Rattle.p21_check.specs.Sets.{HasEntity, IsSetOfRecords, IsSetOf};
ghost use Rattle.p21_check.specs.Asked.{FindsInRecord, IsReferenceAnswer};
ghost use Rattle.p21_check.specs.Instances.{simple_instance, complex_instance};
ghost use Rattle.p21_check.specs.EntityOf.{IsSimpleEntity};
ghost use Rattle.p21_check.specs.LocalFault.{IsLocalFault};
ghost use Rattle.p21_check.specs.References.{IsReferenceFault};

use crate::asked::parameter;
use crate::attributes::{attribute, attribute_count};
use crate::entity_of::{EntityOf, simple_entity};
use crate::entity_set::EntitySet;
use crate::marks::{FEW, MARKS};
use crate::name_judge::{Entities, Keywords};
use crate::records::{has_unknown, marks_twice};
use crate::walk::NameJudge;
use p21_schema::{EntityId, Schema};
use p21_tree::{FaultKind, RawInstance, Record};
use std::marker::PhantomData;

/// Instances by their names.
///
/// Its ghost `named` says which instance has a name.
pub trait TypeOf<'a> {
    /// The instance that has a name.
    ghost named: { Self → ℕ → Option Instance };

    /// The instance of this name, or `None` where there is none.
    fn find(&self, name: u64) -> Option<&RawInstance<'a>>
        ensures { option_map (λ i. plain_instance i.now) result ≡ named self.now name };
}

/// The first reference of an instance, by record, attribute and place in the parameter, that is at fault: it is
/// `MissingReference` where no instance has the name, and `WrongReference` where the one that has it is of no entity that is
/// wanted there. The instance has no fault by itself.
///
/// Cost: O(1) for each reference to an entity, O(w) for one to a SELECT.
pub fn check_references<'m, 'a: 'm, M: TypeOf<'a>>(
    schema: &Schema,
    instance: &RawInstance<'a>,
    model: &'m M,
) -> Result<(), FaultKind>
    requires { IsLocalFault schema.now (plain_instance instance.now) None }
    ensures { MatchResult result (λ _. IsReferenceFault schema.now (M.named model.now) (plain_instance instance.now) None) (λ kind. IsReferenceFault schema.now (M.named model.now) (plain_instance instance.now) (Some kind)) }
{
    let keywords = Keywords {
        schema,
        model,
        texts: PhantomData,
    };
    let own = simple_entity(schema, instance);
    references(schema, own, instance, &keywords)
}

/// The first reference of an instance that is at fault, as `check_references` finds it, where its own entity (`None` of a complex
/// instance) and those of the instances that it may name are known by this very schema. The instance has no fault by itself.
pub fn check_references_among<'m, 'a: 'm, M: EntityOf<'a>>(
    schema: &Schema,
    own: Option<EntityId>,
    instance: &RawInstance<'_>,
    among: &'m M,
) -> Result<(), FaultKind>
    requires same { M.table among.now ≡ schema.now }
    requires own { IsSimpleEntity schema.now (plain_instance instance.now) own }
    requires local { IsLocalFault schema.now (plain_instance instance.now) None }
    ensures { MatchResult result (λ _. IsReferenceFault schema.now (M.named among.now) (plain_instance instance.now) None) (λ kind. IsReferenceFault schema.now (M.named among.now) (plain_instance instance.now) (Some kind)) }
{
    let entities = Entities {
        among,
        texts: PhantomData,
    };
    references(schema, own, instance, &entities)
}

/// The first reference of an instance that is at fault, by its own entity and by what judges instance names.
fn references<J: NameJudge>(
    schema: &Schema,
    own: Option<EntityId>,
    instance: &RawInstance<'_>,
    judge: &J,
) -> Result<(), FaultKind>
    requires same { J.table judge.now ≡ schema.now }
    requires own { IsSimpleEntity schema.now (plain_instance instance.now) own }
    requires local { IsLocalFault schema.now (plain_instance instance.now) None }
    ensures { IsReferenceAnswer schema.now (J.named judge.now) (plain_instance instance.now) result }
{
    let records = instance.records.as_slice();
    match own {
        Some(entity) => simple_references(schema, entity, &records[0], judge),
        None => complex_references(schema, records, judge),
    }
}

/// The first reference at fault of a simple instance, by its record, which is of this entity.
fn simple_references<J: NameJudge>(
    schema: &Schema,
    own: EntityId,
    one: &Record<'_>,
    judge: &J,
) -> Result<(), FaultKind>
    requires same { J.table judge.now ≡ schema.now }
    requires entity { IsEntityOf schema.now own }
    requires named { entity_name schema.now own ≡ one.now.keyword.now }
    requires local { (name : ℕ) × (at : ℕ) × IsLocalFault schema.now (simple_instance name at (plain_record one.now)) None }
    ensures { (name : ℕ) → (at : ℕ) → IsReferenceAnswer schema.now (J.named judge.now) (simple_instance name at (plain_record one.now)) result }
{
    schema.fits();
    entry(schema, &EntitySet::Simple(own), false, own, 0, one, judge)
}

/// The first reference at fault of a complex instance, by its records.
fn complex_references<J: NameJudge>(
    schema: &Schema,
    records: &[Record<'_>],
    judge: &J,
) -> Result<(), FaultKind>
    requires same { J.table judge.now ≡ schema.now }
    requires local { (name : ℕ) × (at : ℕ) × IsLocalFault schema.now (complex_instance name at records.now) None }
    ensures { (name : ℕ) → (at : ℕ) → IsReferenceAnswer schema.now (J.named judge.now) (complex_instance name at records.now) result }
{
    if records.len() <= FEW {
        let set = EntitySet::Complex {
            records,
            marks: &[],
        };
        return records_references(schema, &set, records, judge);
    }
    many_references(schema, records, judge)
}

// A function pays at its beginning for its table, so it stands in one of its own, which stays one.
#[inline(never)]
fn many_references<J: NameJudge>(
    schema: &Schema,
    records: &[Record<'_>],
    judge: &J,
) -> Result<(), FaultKind>
    requires same { J.table judge.now ≡ schema.now }
    requires local { (name : ℕ) × (at : ℕ) × IsLocalFault schema.now (complex_instance name at records.now) None }
    ensures { (name : ℕ) → (at : ℕ) → IsReferenceAnswer schema.now (J.named judge.now) (complex_instance name at records.now) result }
{
    let mut marks = [false; MARKS];
    marked_references(schema, &mut marks, records, judge)
}

/// The first reference at fault of a complex instance, with a table for the marks of the entities that its records name.
fn marked_references<J: NameJudge>(
    schema: &Schema,
    marks: &mut [bool],
    records: &[Record<'_>],
    judge: &J,
) -> Result<(), FaultKind>
    requires same { J.table judge.now ≡ schema.now }
    requires local { (name : ℕ) × (at : ℕ) × IsLocalFault schema.now (complex_instance name at records.now) None }
    ensures { (name : ℕ) → (at : ℕ) → IsReferenceAnswer schema.now (J.named judge.now) (complex_instance name at records.now) result }
{
    // Neither is so, since the instance has no fault by itself.
    if has_unknown(schema, records) {
        return Ok(());
    }
    if marks_twice(schema, marks, records) {
        return Ok(());
    }
    let set = EntitySet::Complex { records, marks };
    records_references(schema, &set, records, judge)
}

/// The first reference at fault of a complex instance, by its records and the set of what they name.
fn records_references<J: NameJudge>(
    schema: &Schema,
    set: &EntitySet<'_, '_>,
    records: &[Record<'_>],
    judge: &J,
) -> Result<(), FaultKind>
    requires same { J.table judge.now ≡ schema.now }
    requires local { (name : ℕ) × (at : ℕ) × IsLocalFault schema.now (complex_instance name at records.now) None }
    requires set { IsSetOf schema.now set.now }
    requires of { IsSetOfRecords schema.now set.now records.now }
    ensures { (name : ℕ) → (at : ℕ) → IsReferenceAnswer schema.now (J.named judge.now) (complex_instance name at records.now) result }
{
    schema.fits();
    for (rec, record) in records.iter().enumerate() {
        let Some(own) = schema.entity(record.keyword) else {
            return Ok(());
        };
        if let Err(kind) = entry(schema, set, true, own, rec as u64, record, judge) {
            return Err(kind);
        }
    }
    Ok(())
}

/// Looks for the first reference at fault in a record, which is of this entity and has this place.
fn entry<J: NameJudge>(
    schema: &Schema,
    set: &EntitySet<'_, '_>,
    complex: bool,
    entity: EntityId,
    rec: u64,
    one: &Record<'_>,
    judge: &J,
) -> Result<(), FaultKind>
    requires same { J.table judge.now ≡ schema.now }
    requires set { IsSetOf schema.now set.now }
    requires entity { IsEntityOf schema.now entity }
    requires named { entity_name schema.now entity ≡ one.now.keyword.now }
    requires count { (os : List Origin) → AreAttributes schema.now complex one.now.keyword.now os → length one.now.params ≡ length os }
    ensures attributes { OnErr result ((os : List Origin) × AreAttributes schema.now complex one.now.keyword.now os) }
    ensures found { (os : List Origin) → AreAttributes schema.now complex one.now.keyword.now os → FindsInRecord schema.now (J.named judge.now) (HasEntity schema.now set.now) os (plain_all one.now.params) rec result }
{
    // There are attributes, as many as parameters.
    let _count = attribute_count(schema, complex, entity);
    for (attr, param) in one.params.as_slice().iter().enumerate() {
        let attribute = attribute(schema, complex, entity, attr);
        if let Err(bad) = parameter(schema, set, attribute, param, judge) {
            return Err(bad.at(rec, attr as u64));
        }
    }
    Ok(())
}
