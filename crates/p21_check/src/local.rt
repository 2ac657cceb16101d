//! The fault that an instance has without regard to other instances: entity, parameters, types.

ghost use Rattle.std.specs.Prelude.{◌≡◌, ℕ, Some, None, MatchResult, IfOk};
ghost use Rattle.p21_tree.specs.Views.{plain_instance, plain_record};
ghost use Rattle.p21_schema.specs.Place.{IsEntityOf, entity_name};
ghost use Rattle.p21_check.specs.EntityOf.{IsSimpleEntity};
ghost use Rattle.p21_check.specs.LocalFault.{IsLocalFault};
ghost use Rattle.p21_check.specs.Instances.{IsAnswer, simple_instance};

use crate::attributes::{attribute_count, first_unfit};
use crate::complex::check_complex;
use crate::distinct::check_simple_distinct;
use crate::entity_of::simple_entity;
use crate::entity_set::EntitySet;
use p21_schema::{EntityId, Schema};
use p21_tree::{FaultKind, RawInstance, Record};

/// Checks one instance by itself, without what its references name. Its fault is the first that it has of these kinds, each
/// looked for over the whole instance from the left: `UnknownEntity` where a record's keyword is no entity; `AbstractEntity`
/// where it is a simple instance of an abstract entity; `BadComplex` where a complex instance names an entity twice, or
/// without one of its supertypes, or an abstract one without a subtype; `WrongCount` where a record has a wrong number of
/// parameters; `BadAttribute` where a parameter does not conform to its attribute; and, where the schema's rules say so
/// (`Schema::distinct`), `RepeatedReference` where a list in a parameter names one instance twice and stands for a SET or a
/// LIST OF UNIQUE, by a declaration of the attribute that counts.
///
/// This takes no memory but for the names of such a list that do not rise, where there are more than 16 elements and there is some.
///
/// Cost: O(1) for each parameter, element and character that is looked at, and the items of an enumeration. A
/// redeclared attribute takes one look at each of its declarations, and where two are of entities neither of which is
/// above the other, at each pair. A complex instance takes O(1) for each record and each supertype of its entity,
/// where the schema has at most 16,384 entities (32 KB of stack). A list of n names that do not rise takes n log n
/// and 8 n bytes for `distinct`; without that memory, n * n / 2 comparisons.
pub fn check_local(schema: &Schema, instance: &RawInstance<'_>) -> Result<(), FaultKind>
    ensures { MatchResult result (λ _. IsLocalFault schema.now (plain_instance instance.now) None) (λ kind. IsLocalFault schema.now (plain_instance instance.now) (Some kind)) }
{
    check_local_entity(schema, instance)?;
    Ok(())
}

/// Checks one instance by itself as `check_local` does, and answers its entity where it is a simple one without a fault, so
/// that its keyword is looked up once.
pub fn check_local_entity(
    schema: &Schema,
    instance: &RawInstance<'_>,
) -> Result<Option<EntityId>, FaultKind>
    ensures fault { MatchResult result (λ _. IsLocalFault schema.now (plain_instance instance.now) None) (λ kind. IsLocalFault schema.now (plain_instance instance.now) (Some kind)) }
    ensures entity { IfOk result (λ own. IsSimpleEntity schema.now (plain_instance instance.now) own) }
{
    let own = simple_entity(schema, instance);
    check_instance(schema, own, instance)?;
    Ok(own)
}

/// Checks an instance by itself, whose entity is known.
fn check_instance(
    schema: &Schema,
    own: Option<EntityId>,
    instance: &RawInstance<'_>,
) -> Result<(), FaultKind>
    requires { IsSimpleEntity schema.now (plain_instance instance.now) own }
    ensures { IsAnswer schema.now (plain_instance instance.now) result }
{
    let records = instance.records.as_slice();
    match own {
        Some(entity) => check_simple(schema, entity, &records[0]),
        None if instance.complex => check_complex(schema, records),
        None => Err(FaultKind::UnknownEntity),
    }
}

/// Checks a simple instance, by its record, which is of this entity.
fn check_simple(schema: &Schema, entity: EntityId, entry: &Record<'_>) -> Result<(), FaultKind>
    requires entity { IsEntityOf schema.now entity }
    requires named { entity_name schema.now entity ≡ entry.now.keyword.now }
    ensures { (name : ℕ) → (at : ℕ) → IsAnswer schema.now (simple_instance name at (plain_record entry.now)) result }
{
    schema.fits();
    if schema.is_abstract(entity) {
        return Err(FaultKind::AbstractEntity);
    }
    if attribute_count(schema, false, entity) != entry.params.len() {
        return Err(FaultKind::WrongCount { rec: 0 });
    }
    match first_unfit(
        schema,
        &EntitySet::Simple(entity),
        false,
        entity,
        entry.params.as_slice(),
    ) {
        Some(attr) => Err(FaultKind::BadAttribute {
            rec: 0,
            attr: attr as u64,
        }),
        None => check_simple_distinct(schema, entity, entry),
    }
}
