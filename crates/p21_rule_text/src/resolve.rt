//! What the names of attributes in the clauses of an entity are.

ghost use Rattle.std.specs.Prelude.{◌≡◌, ℕ, List, MatchOption, map};
ghost use Rattle.std.specs.Bool.{MatchBool};
ghost use Rattle.p21_express.specs.Naming.{plain_naming};
ghost use Rattle.p21_express.specs.Grammar.{Naming};
ghost use Rattle.p21_schema.specs.Place.{IsEntityOf};
ghost use Rattle.p21_schema.specs.Row.{IsAttributeOf};
ghost use Rattle.p21_schema.specs.declared.ids.EntityId.{EntityId};
ghost use Rattle.p21_rule_text.specs.Entities.{EntityClauses as PlainClauses, plain_clauses};
ghost use Rattle.p21_rule_text.specs.declared.resolve.Found.{Found};
ghost use Rattle.p21_rule_text.specs.Resolve.{DeclaresNew, IsAmong, IsDeclarer, IsInverseOfAncestor, IsAttribute, IsFirstLowest, IsLower, IsLowest, IsMeant, IsOwner, IsOwnerNamed};

use crate::attributes::{count, declares_new, declares_other, has_inverse, has_other, own};
use crate::entities::EntityClauses;
use crate::redeclared::{again, is_below, is_derived_above, is_owner};
use p21_express::AttrName;
use p21_schema::{AttrId, EntityId, Schema};

/// What a name is.
#[derive(Clone, Copy, PartialEq, Eq)]
pub(crate) enum Found {
    /// An explicit attribute of the entity or of an ancestor, which neither declares again in DERIVE.
    Explicit(AttrId),
    /// A derived or inverse attribute.
    Other,
    Nothing,
}

/// What a name is in the clauses of an entity.
pub(crate) fn resolve(
    schema: &Schema,
    clauses: &[EntityClauses],
    entity: EntityId,
    name: AttrName,
) -> Found
    requires { IsEntityOf schema.now entity }
    ensures { IsMeant schema.now (map plain_clauses clauses.now) entity (plain_naming name.entry) result }
{
    match declarer(schema, clauses, entity, name) {
        Some(owner) => among(schema, clauses, entity, owner, name.name),
        None => Found::Nothing,
    }
}

/// The entity whose attribute a name is.
fn declarer(
    schema: &Schema,
    clauses: &[EntityClauses],
    entity: EntityId,
    name: AttrName,
) -> Option<EntityId>
    requires { IsEntityOf schema.now entity }
    ensures { let x = plain_naming name.entry in let is = IsDeclarer schema.now (map plain_clauses clauses.now) entity x.of x.name in MatchOption result ((o : EntityId) → ¬ (is o)) is }
{
    match name.of {
        Some(of) => owner_named(schema, entity, of),
        None => first_lowest(schema, clauses, entity, name.name),
    }
}

/// What a name is among the attributes that an entity declares, which is this one or an ancestor of it.
fn among(
    schema: &Schema,
    clauses: &[EntityClauses],
    entity: EntityId,
    owner: EntityId,
    name: &[u8],
) -> Found
    requires entity { IsEntityOf schema.now entity }
    requires owner { IsEntityOf schema.now owner }
    ensures { IsAmong schema.now (map plain_clauses clauses.now) entity owner name.now result }
{
    if let Some(attribute) = own(schema, owner, name) {
        return explicit(schema, entity, attribute);
    }
    if declares_other(schema, clauses, owner, name) {
        return Found::Other;
    }
    if let Some(attribute) = again(schema, owner, name) {
        return explicit(schema, entity, attribute);
    }
    if has_other(schema, clauses, owner, name) {
        Found::Other
    } else {
        Found::Nothing
    }
}

/// What an explicit attribute is in the clauses of an entity.
fn explicit(schema: &Schema, entity: EntityId, attribute: AttrId) -> Found
    requires entity { IsEntityOf schema.now entity }
    requires attribute { IsAttributeOf schema.now attribute }
    ensures { IsAttribute schema.now entity attribute result }
{
    if is_derived_above(schema, entity, attribute) {
        Found::Other
    } else {
        Found::Explicit(attribute)
    }
}

/// The entity of this name, where it is this one or an ancestor.
fn owner_named(schema: &Schema, entity: EntityId, of: &[u8]) -> Option<EntityId>
    requires { IsEntityOf schema.now entity }
    ensures { MatchOption result ((o : EntityId) → ¬ (IsOwnerNamed schema.now entity of.now o)) (IsOwnerNamed schema.now entity of.now) }
{
    let owner = schema.entity(of)?;
    if is_owner(schema, entity, owner) {
        Some(owner)
    } else {
        None
    }
}

/// The first in the text of the lowest entities that newly declare an attribute of this name, of this one and its ancestors.
fn first_lowest(
    schema: &Schema,
    clauses: &[EntityClauses],
    entity: EntityId,
    name: &[u8],
) -> Option<EntityId>
    requires { IsEntityOf schema.now entity }
    ensures { let es = map plain_clauses clauses.now in MatchOption result ((o : EntityId) → ¬ (IsFirstLowest schema.now es entity name.now o)) (IsFirstLowest schema.now es entity name.now) }
{
    for place in 0..count(schema) {
        if let Some(owner) = lowest_at(schema, clauses, entity, name, place) {
            return Some(owner);
        }
    }
    None
}

/// The entity at a place, where it is one of the lowest.
fn lowest_at(
    schema: &Schema,
    clauses: &[EntityClauses],
    entity: EntityId,
    name: &[u8],
    place: usize,
) -> Option<EntityId>
    requires { IsEntityOf schema.now entity }
    ensures { let es = map plain_clauses clauses.now in MatchOption result ((o : EntityId) → IsLowest schema.now es entity name.now o → ¬ (o.index ≡ place)) (λ o. IsLowest schema.now es entity name.now o × (o.index ≡ place)) }
{
    let owner = schema.entity_at(place)?;
    if is_declarer(schema, clauses, entity, name, owner)
        && is_lowest(schema, clauses, entity, name, owner)
    {
        Some(owner)
    } else {
        None
    }
}

/// Whether an entity is this one or an ancestor, and newly declares an attribute of this name.
fn is_declarer(
    schema: &Schema,
    clauses: &[EntityClauses],
    entity: EntityId,
    name: &[u8],
    owner: EntityId,
) -> bool
    requires entity { IsEntityOf schema.now entity }
    requires owner { IsEntityOf schema.now owner }
    ensures { let is = IsOwner schema.now entity owner × DeclaresNew schema.now (map plain_clauses clauses.now) owner name.now in MatchBool result is (¬ is) }
{
    is_owner(schema, entity, owner) && declares_new(schema, clauses, owner, name)
}

/// Whether no entity below the owner does, which is this one or an ancestor of it.
fn is_lowest(
    schema: &Schema,
    clauses: &[EntityClauses],
    entity: EntityId,
    name: &[u8],
    owner: EntityId,
) -> bool
    requires entity { IsEntityOf schema.now entity }
    requires owner { IsEntityOf schema.now owner }
    ensures { let is = (o : EntityId) → ¬ (IsLower schema.now (map plain_clauses clauses.now) entity name.now owner o) in MatchBool result is (¬ is) }
{
    for place in 0..count(schema) {
        if is_lower_at(schema, clauses, entity, name, owner, place) {
            return false;
        }
    }
    true
}

/// Whether the entity at a place does, and is below the owner.
fn is_lower_at(
    schema: &Schema,
    clauses: &[EntityClauses],
    entity: EntityId,
    name: &[u8],
    owner: EntityId,
    place: usize,
) -> bool
    requires entity { IsEntityOf schema.now entity }
    requires owner { IsEntityOf schema.now owner }
    ensures { let is = (o : EntityId) × (IsLower schema.now (map plain_clauses clauses.now) entity name.now owner o × (o.index ≡ place)) in MatchBool result is (¬ is) }
{
    match schema.entity_at(place) {
        Some(other) => {
            is_below(schema, other, owner) && is_declarer(schema, clauses, entity, name, other)
        }
        None => false,
    }
}

/// Whether the entity of this name is an ancestor, and declares an INVERSE attribute of that name.
pub(crate) fn is_inverse_of_ancestor(
    schema: &Schema,
    clauses: &[EntityClauses],
    entity: EntityId,
    of: &[u8],
    name: &[u8],
) -> bool
    requires { IsEntityOf schema.now entity }
    ensures { let is = IsInverseOfAncestor schema.now (map plain_clauses clauses.now) entity of.now name.now in MatchBool result is (¬ is) }
{
    schema.one_id();
    match schema.entity(of) {
        Some(owner) => is_below(schema, entity, owner) && has_inverse(clauses, owner, name),
        None => false,
    }
}

/// A name is one thing at most.
pub(crate) fn one_meaning(schema: &Schema)
    ensures { (es : List PlainClauses) (e : EntityId) (x : Naming) (f g : Found) → IsMeant schema.now es e x f → IsMeant schema.now es e x g → f ≡ g }
{
    schema.one_id();
}
