//! Explicit attributes that are declared again.

ghost use Rattle.std.specs.Prelude.{◌≡◌, ◌↔◌, IfOk, IsTrue, MatchOption, true};
ghost use Rattle.std.specs.Bool.{MatchBool};
ghost use Rattle.p21_express.specs.WellFormed.{IsAncestor};
ghost use Rattle.p21_schema.specs.Declaration.{Declaration as Written, IsResolvedDeclaration, is_explicit};
ghost use Rattle.p21_schema.specs.Place.{IsEntityOf, entity_name};
ghost use Rattle.p21_schema.specs.Row.{IsAttributeOf, attribute_at};
ghost use Rattle.p21_schema.specs.declared.ids.AttrId.{AttrId as PlainAttr};
ghost use Rattle.p21_schema.specs.declared.ids.EntityId.{EntityId as PlainEntity};
ghost use Rattle.p21_rule_text.specs.Resolve.{AreDerivers, DerivesAbove, DerivesElsewhere, IsAgain, IsDeclaredIn, IsDerivedAbove, IsOwn, IsOwner};

use crate::attributes::{count, own};
use p21_schema::{AttrId, Declaration, EntityId, Form, Schema};
use std::alloc::{AllocError, Global};

/// The explicit attribute of this name that an entity declares again.
pub(crate) fn again(schema: &Schema, entity: EntityId, name: &[u8]) -> Option<AttrId>
    requires { IsEntityOf schema.now entity }
    ensures { MatchOption result ((a : PlainAttr) → ¬ (IsAgain schema.now entity name.now a)) (IsAgain schema.now entity name.now) }
{
    for place in 0..count(schema) {
        if let Some(attribute) = again_at(schema, entity, name, place) {
            return Some(attribute);
        }
    }
    None
}

/// That which the entity at this place newly declares, where that one is an ancestor.
fn again_at(schema: &Schema, entity: EntityId, name: &[u8], place: usize) -> Option<AttrId>
    requires { IsEntityOf schema.now entity }
    ensures { MatchOption result ((o : PlainEntity) (a : PlainAttr) → IsOwner schema.now entity o → o.index ≡ place → IsOwn schema.now o name.now a → ¬ (IsDeclaredIn schema.now entity (attribute_at schema.now a))) (λ a. (o : PlainEntity) × IsOwner schema.now entity o × (o.index ≡ place) × IsOwn schema.now o name.now a × IsDeclaredIn schema.now entity (attribute_at schema.now a)) }
{
    schema.one_id();
    let owner = owner_at(schema, entity, place)?;
    let attribute = own(schema, owner, name)?;
    if is_declared_in(schema, entity, attribute) {
        Some(attribute)
    } else {
        None
    }
}

/// The entity at this place, where it is this one or an ancestor.
fn owner_at(schema: &Schema, entity: EntityId, place: usize) -> Option<EntityId>
    requires { IsEntityOf schema.now entity }
    ensures { MatchOption result ((o : PlainEntity) → IsOwner schema.now entity o → ¬ (o.index ≡ place)) (λ o. IsOwner schema.now entity o × (o.index ≡ place)) }
{
    let owner = schema.entity_at(place)?;
    if is_owner(schema, entity, owner) {
        Some(owner)
    } else {
        None
    }
}

/// Whether an entity is this one or an ancestor.
pub(crate) fn is_owner(schema: &Schema, entity: EntityId, other: EntityId) -> bool
    requires entity { IsEntityOf schema.now entity }
    requires other { IsEntityOf schema.now other }
    ensures { let is = IsOwner schema.now entity other in MatchBool result is (¬ is) }
{
    schema.is_a(entity, other)
}

/// Whether an entity has an explicit declaration of an attribute.
fn is_declared_in(schema: &Schema, entity: EntityId, attribute: AttrId) -> bool
    requires entity { IsEntityOf schema.now entity }
    requires attribute { IsAttributeOf schema.now attribute }
    ensures { let is = IsDeclaredIn schema.now entity (attribute_at schema.now attribute) in MatchBool result is (¬ is) }
{
    for declaration in schema.declarations(attribute) {
        if is_explicit_by(schema, declaration, entity) {
            return true;
        }
    }
    false
}

/// Whether a declaration is explicit, and by this entity.
fn is_explicit_by(schema: &Schema, declaration: &Declaration, entity: EntityId) -> bool
    requires declaration { (d : Written) × IsResolvedDeclaration schema.now declaration.now d }
    requires entity { IsEntityOf schema.now entity }
    ensures { (d : Written) → IsResolvedDeclaration schema.now declaration.now d → (IsTrue result ↔ ((d.entity ≡ entity_name schema.now entity) × (is_explicit d.form ≡ true))) }
{
    schema.one_id();
    match declaration.form {
        Form::Explicit { .. } => declaration.entity == entity,
        Form::Derived => false,
    }
}

/// Whether an entity or an ancestor has a declaration of an attribute in DERIVE.
pub(crate) fn is_derived_above(schema: &Schema, entity: EntityId, attribute: AttrId) -> bool
    requires entity { IsEntityOf schema.now entity }
    requires attribute { IsAttributeOf schema.now attribute }
    ensures { let is = IsDerivedAbove schema.now entity (attribute_at schema.now attribute) in MatchBool result is (¬ is) }
{
    for declaration in schema.declarations(attribute) {
        if derives_above(schema, declaration, entity) {
            return true;
        }
    }
    false
}

/// Whether a declaration stands in DERIVE, in this entity or an ancestor.
fn derives_above(schema: &Schema, declaration: &Declaration, entity: EntityId) -> bool
    requires declaration { (d : Written) × IsResolvedDeclaration schema.now declaration.now d }
    requires entity { IsEntityOf schema.now entity }
    ensures { (d : Written) → IsResolvedDeclaration schema.now declaration.now d → (IsTrue result ↔ DerivesAbove schema.now entity d) }
{
    match declaration.form {
        Form::Derived => schema.is_a(entity, declaration.entity),
        Form::Explicit { .. } => false,
    }
}

/// The entities that have a declaration of an attribute in DERIVE, other than this one and its ancestors, in the order of the text: subtypes, and entities beside
/// this one in complex instances. Memory alone can fail.
pub(crate) fn derivers(
    alloc: Global,
    schema: &Schema,
    entity: EntityId,
    attribute: AttrId,
) -> Result<Vec<EntityId>, AllocError>
    requires entity { IsEntityOf schema.now entity }
    requires attribute { IsAttributeOf schema.now attribute }
    ensures { IfOk result (λ found. AreDerivers schema.now entity (attribute_at schema.now attribute) found.items) }
{
    let mut found = Vec::new(alloc);
    for declaration in schema.declarations(attribute) {
        if derives_elsewhere(schema, declaration, entity) {
            found.push(declaration.entity)?;
        }
    }
    Ok(found)
}

/// Whether a declaration stands in DERIVE, in an entity that is neither this one nor an ancestor.
fn derives_elsewhere(schema: &Schema, declaration: &Declaration, entity: EntityId) -> bool
    requires declaration { (d : Written) × IsResolvedDeclaration schema.now declaration.now d }
    requires entity { IsEntityOf schema.now entity }
    ensures { (d : Written) → IsResolvedDeclaration schema.now declaration.now d → (IsTrue result ↔ DerivesElsewhere schema.now entity d) }
{
    match declaration.form {
        Form::Derived => !schema.is_a(entity, declaration.entity),
        Form::Explicit { .. } => false,
    }
}

/// Whether the other entity is an ancestor of this one.
pub(crate) fn is_below(schema: &Schema, entity: EntityId, other: EntityId) -> bool
    requires entity { IsEntityOf schema.now entity }
    requires other { IsEntityOf schema.now other }
    ensures { IsTrue result ↔ IsAncestor schema.now (entity_name schema.now entity) (entity_name schema.now other) }
{
    schema.fits();
    schema.one_id();
    entity != other && schema.is_a(entity, other)
}
