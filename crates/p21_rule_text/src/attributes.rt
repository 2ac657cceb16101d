//! What an entity declares by a name.

ghost use Rattle.std.specs.Prelude.{◌≡◌, ◌⊎◌, None, Some, MatchOption, length, map, slice_get};
ghost use Rattle.std.specs.Bool.{MatchBool};
ghost use Rattle.p21_express.specs.Plain.{plain_derived, plain_entity};
ghost use Rattle.p21_express.specs.Schema.{Derived};
ghost use Rattle.p21_express.specs.WellFormed.{IsIn, new_explicit};
ghost use Rattle.p21_schema.specs.Place.{IsEntityOf, entity_at};
ghost use Rattle.p21_rule_text.specs.Clauses.{InverseClause, plain_inverse};
ghost use Rattle.p21_rule_text.specs.Entities.{plain_clauses};
ghost use Rattle.p21_rule_text.specs.Resolve.{DeclaresDerived, DeclaresExplicit, DeclaresInverse, DeclaresNew, HasDerived, HasInverse, HasOther, IsOwn};

use crate::clauses::InverseClause as Inverse;
use crate::entities::EntityClauses;
use p21_express::{DeriveDecl, EntityDecl};
use p21_schema::{AttrId, EntityId, Schema};

/// The number of entities.
pub(crate) fn count(schema: &Schema) -> usize
    ensures { result ≡ length schema.now.entities }
{
    schema.declared().entities.len()
}

/// What is declared of an entity.
fn declared(schema: &Schema, entity: EntityId) -> &EntityDecl
    requires { IsEntityOf schema.now entity }
    ensures { plain_entity result.now ≡ entity_at schema.now entity }
{
    &schema.declared().entities[entity.place()]
}

/// Whether an entity newly declares an attribute of this name.
pub(crate) fn declares_new(
    schema: &Schema,
    clauses: &[EntityClauses],
    entity: EntityId,
    name: &[u8],
) -> bool
    requires { IsEntityOf schema.now entity }
    ensures { let is = DeclaresNew schema.now (map plain_clauses clauses.now) entity name.now in MatchBool result is (¬ is) }
{
    match own_position(declared(schema, entity), name) {
        Some(_) => true,
        None => declares_other(schema, clauses, entity, name),
    }
}

/// Whether it newly declares one in DERIVE or INVERSE.
pub(crate) fn declares_other(
    schema: &Schema,
    clauses: &[EntityClauses],
    entity: EntityId,
    name: &[u8],
) -> bool
    requires { IsEntityOf schema.now entity }
    ensures { let is = DeclaresDerived schema.now entity name.now ⊎ DeclaresInverse (map plain_clauses clauses.now) entity name.now in MatchBool result is (¬ is) }
{
    newly_derives(schema, entity, name) || newly_inverse(clauses, entity, name)
}

/// Whether it declares one in DERIVE or INVERSE, newly or again.
pub(crate) fn has_other(
    schema: &Schema,
    clauses: &[EntityClauses],
    entity: EntityId,
    name: &[u8],
) -> bool
    requires { IsEntityOf schema.now entity }
    ensures { let is = HasOther schema.now (map plain_clauses clauses.now) entity name.now in MatchBool result is (¬ is) }
{
    derives(schema, entity, name) || has_inverse(clauses, entity, name)
}

/// The explicit attribute of this name that an entity newly declares.
pub(crate) fn own(schema: &Schema, entity: EntityId, name: &[u8]) -> Option<AttrId>
    requires { IsEntityOf schema.now entity }
    ensures { MatchOption result (¬ (DeclaresExplicit schema.now entity name.now)) (IsOwn schema.now entity name.now) }
{
    let position = own_position(declared(schema, entity), name)?;
    Some(schema.own(entity, position))
}

/// The place of a name among the explicit attributes that an entity newly declares.
fn own_position(declared: &EntityDecl, name: &[u8]) -> Option<usize>
    ensures { let names = new_explicit (plain_entity declared.now).attributes in MatchOption result (¬ (IsIn names name.now)) (λ k. slice_get names k ≡ Some name.now) }
{
    let mut position = 0;
    for attribute in &declared.attributes {
        if attribute.of.is_none() {
            if attribute.name.as_slice() == name {
                return Some(position);
            }
            position += 1;
        }
    }
    None
}

/// Whether an entity newly declares an attribute of this name in DERIVE.
fn newly_derives(schema: &Schema, entity: EntityId, name: &[u8]) -> bool
    requires { IsEntityOf schema.now entity }
    ensures { let is = DeclaresDerived schema.now entity name.now in MatchBool result is (¬ is) }
{
    newly_derives_in(declared(schema, entity), name)
}

/// The same of what is declared of it.
fn newly_derives_in(declared: &EntityDecl, name: &[u8]) -> bool
    ensures { let is = (d : Derived) × (IsIn (plain_entity declared.now).derived d × ((d.of ≡ None) × (d.name ≡ name.now))) in MatchBool result is (¬ is) }
{
    for attribute in &declared.derived {
        if is_new(attribute, name) {
            return true;
        }
    }
    false
}

/// Whether an attribute of DERIVE is new, and has this name.
fn is_new(attribute: &DeriveDecl, name: &[u8]) -> bool
    ensures { let d = plain_derived attribute.now in let is = (d.of ≡ None) × (d.name ≡ name.now) in MatchBool result is (¬ is) }
{
    match attribute.of {
        Some(_) => false,
        None => attribute.name.as_slice() == name,
    }
}

/// Whether an entity declares an attribute of this name in DERIVE, newly or again.
fn derives(schema: &Schema, entity: EntityId, name: &[u8]) -> bool
    requires { IsEntityOf schema.now entity }
    ensures { let is = HasDerived schema.now entity name.now in MatchBool result is (¬ is) }
{
    derives_in(declared(schema, entity), name)
}

/// The same of what is declared of it.
fn derives_in(declared: &EntityDecl, name: &[u8]) -> bool
    ensures { let is = (d : Derived) × (IsIn (plain_entity declared.now).derived d × (d.name ≡ name.now)) in MatchBool result is (¬ is) }
{
    for attribute in &declared.derived {
        if attribute.name.as_slice() == name {
            return true;
        }
    }
    false
}

/// Whether the clauses of an entity newly declare an INVERSE attribute of this name.
fn newly_inverse(clauses: &[EntityClauses], entity: EntityId, name: &[u8]) -> bool
    ensures { let is = DeclaresInverse (map plain_clauses clauses.now) entity name.now in MatchBool result is (¬ is) }
{
    let place = entity.place();
    if place < clauses.len() {
        newly_inverse_in(&clauses[place], name)
    } else {
        false
    }
}

/// Whether these do.
fn newly_inverse_in(clauses: &EntityClauses, name: &[u8]) -> bool
    ensures { let is = (i : InverseClause) × (IsIn (plain_clauses clauses.now).inverse i × ((i.name.of ≡ None) × (i.name.name ≡ name.now))) in MatchBool result is (¬ is) }
{
    for inverse in &clauses.inverse {
        if is_new_inverse(inverse, name) {
            return true;
        }
    }
    false
}

/// Whether an INVERSE attribute is new, and has this name.
fn is_new_inverse(inverse: &Inverse, name: &[u8]) -> bool
    ensures { let i = plain_inverse inverse.now in let is = (i.name.of ≡ None) × (i.name.name ≡ name.now) in MatchBool result is (¬ is) }
{
    match inverse.name.of {
        Some(_) => false,
        None => inverse.name.name == name,
    }
}

/// Whether the clauses of an entity declare an INVERSE attribute of this name, newly or again.
pub(crate) fn has_inverse(clauses: &[EntityClauses], entity: EntityId, name: &[u8]) -> bool
    ensures { let is = HasInverse (map plain_clauses clauses.now) entity name.now in MatchBool result is (¬ is) }
{
    let place = entity.place();
    if place < clauses.len() {
        has_inverse_in(&clauses[place], name)
    } else {
        false
    }
}

/// Whether these do.
fn has_inverse_in(clauses: &EntityClauses, name: &[u8]) -> bool
    ensures { let is = (i : InverseClause) × (IsIn (plain_clauses clauses.now).inverse i × (i.name.name ≡ name.now)) in MatchBool result is (¬ is) }
{
    for inverse in &clauses.inverse {
        if inverse.name.name == name {
            return true;
        }
    }
    false
}
