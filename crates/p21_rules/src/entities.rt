//! The entities that the records of an instance name.

ghost use Rattle.std.specs.Prelude.{◌≡◌, ◌↔◌, ℕ, List, IsTrue, OnOk, Some};
ghost use Rattle.p21_check.specs.Sets.{AnyIn, keywords_of};
ghost use Rattle.p21_schema.specs.Place.{IsEntityOf, entity_name};
ghost use Rattle.p21_rules.specs.Named.{AreNamed, IsBelow, IsNamed};

use p21_schema::{EntityId, Schema};
use p21_tree::Record;
use std::alloc::AllocError;

/// The entity that each record names, or `None` where it names none. Memory alone can fail.
pub(crate) fn name_entities(
    schema: &Schema,
    records: &[Record<'_>],
    named: &mut Vec<Option<EntityId>>,
) -> Result<(), AllocError>
    ensures { OnOk result (AreNamed schema.now (keywords_of records.now) named.new.items) }
{
    named.clear();
    for record in records {
        named.push(schema.entity(record.keyword))?;
    }
    Ok(())
}

/// Whether one of the entities is this one, or has it as an ancestor.
pub(crate) fn is_of(schema: &Schema, named: &[Option<EntityId>], entity: EntityId) -> bool
    requires named { (ks : List (List ℕ)) × AreNamed schema.now ks named.now }
    requires entity { IsEntityOf schema.now entity }
    ensures { (ks : List (List ℕ)) → AreNamed schema.now ks named.now → (IsTrue result ↔ AnyIn ks (IsBelow schema.now (entity_name schema.now entity))) }
{
    for place in 0..named.len() {
        if is_below(schema, named[place], entity) {
            return true;
        }
    }
    false
}

/// Whether one of the entities is this one.
pub(crate) fn is_named(schema: &Schema, named: &[Option<EntityId>], entity: EntityId) -> bool
    requires named { (ks : List (List ℕ)) × AreNamed schema.now ks named.now }
    requires entity { IsEntityOf schema.now entity }
    ensures { (ks : List (List ℕ)) → AreNamed schema.now ks named.now → (IsTrue result ↔ AnyIn ks (λ k. entity_name schema.now entity ≡ k)) }
{
    schema.one_id();
    for place in 0..named.len() {
        if is_this(named[place], entity) {
            return true;
        }
    }
    false
}

/// Whether there is an entity, and it is this one.
fn is_this(named: Option<EntityId>, entity: EntityId) -> bool
    ensures { IsTrue result ↔ (named ≡ Some entity) }
{
    match named {
        Some(own) => own == entity,
        None => false,
    }
}

/// Whether there is an entity, and it is this one or has it as an ancestor.
fn is_below(schema: &Schema, named: Option<EntityId>, entity: EntityId) -> bool
    requires named { (k : List ℕ) × IsNamed schema.now k named }
    requires entity { IsEntityOf schema.now entity }
    ensures { (k : List ℕ) → IsNamed schema.now k named → (IsTrue result ↔ IsBelow schema.now (entity_name schema.now entity) k) }
{
    match named {
        Some(own) => schema.is_a(own, entity),
        None => false,
    }
}
