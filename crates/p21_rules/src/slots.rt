//! The declarations of an attribute that count in an instance, and its value by them.

ghost use Rattle.std.specs.Prelude.{◌≡◌, ◌↔◌, ◌<◌, List, IfOk, IsTrue, MatchOption, get_or, length};
ghost use Rattle.std.specs.Bool.{MatchBool};
ghost use Rattle.p21_check.specs.Sets.{AnyIn, CountsAmong, Derives, EachIn, IsAgainBelow};
ghost use Rattle.p21_express.specs.WellFormed.{IsAncestor};
ghost use Rattle.p21_schema.specs.Declaration.{AreResolvedIn, Declaration as Written, Form as WrittenForm, IsResolvedDeclaration, IsResolvedForm};
ghost use Rattle.p21_schema.specs.Place.{IsEntityOf, entity_name};
ghost use Rattle.p21_schema.specs.Row.{IsAttributeOf, attribute_at};
ghost use Rattle.p21_tree.specs.Bodies.{HasBodies};
ghost use Rattle.p21_tree.specs.Plain.{plain};
ghost use Rattle.p21_tree.specs.Views.{plain_instance};
ghost use Rattle.p21_check.specs.EntitySet.{keywords};
ghost use Rattle.p21_rules.specs.Code.{value_code};
ghost use Rattle.p21_rules.specs.Named.{AreNamed};
ghost use Rattle.p21_rules.specs.Parameter.{MeansBy};
ghost use Rattle.p21_rules.specs.Slots.{CountsAt, IsPushedBy, IsPushedOf, IsSlot, MeansCounting, no_declaration, set_of};
ghost use Rattle.p21_rules.specs.Value.{Value};

use crate::elements::elements_of;
use crate::entities::{is_named, is_of};
use crate::value::push_value;
use p21_schema::{AttrId, Declaration, EntityId, Form, Schema};
use p21_text::items_are_unique;
use p21_tree::{Param, RawInstance};
use std::alloc::{AllocError, Global};

/// An attribute in an instance.
#[derive(Clone, Copy)]
struct Slot<'t, 'a> {
    schema: &'t Schema,
    /// The entity that each record of the instance names.
    named: &'t [Option<EntityId>],
    instance: &'t RawInstance<'a>,
    /// All declarations of the attribute.
    declarations: &'t [Declaration],
}

/// Whether the instance is of an entity: a record names it, or, of a simple instance, one that has it as an ancestor.
fn is_in_set(slot: Slot, entity: EntityId) -> bool
    requires slot { IsSlot slot }
    requires entity { IsEntityOf slot.schema.now entity }
    ensures { IsTrue result ↔ set_of slot.entry (entity_name slot.entry.schema.now entity) }
{
    if slot.instance.complex {
        is_named(slot.schema, slot.named, entity)
    } else {
        is_of(slot.schema, slot.named, entity)
    }
}

/// Whether an entity of the instance has this declaration, and it stands in DERIVE.
fn is_derived_by(slot: Slot, declaration: &Declaration) -> bool
    requires slot { IsSlot slot }
    requires declaration { (d : Written) × IsResolvedDeclaration slot.schema.now declaration.now d }
    ensures { (d : Written) → IsResolvedDeclaration slot.entry.schema.now declaration.now d → (IsTrue result ↔ Derives (set_of slot.entry) d) }
{
    match declaration.form {
        Form::Derived => is_in_set(slot, declaration.entity),
        Form::Explicit { .. } => false,
    }
}

/// Whether an entity of the instance has one of the declarations in DERIVE.
fn is_derived(slot: Slot) -> bool
    requires { IsSlot slot }
    ensures { (ds : List Written) → AreResolvedIn slot.entry.schema.now slot.entry.declarations.now ds → (IsTrue result ↔ AnyIn ds (Derives (set_of slot.entry))) }
{
    for declaration in slot.declarations {
        if is_derived_by(slot, declaration) {
            return true;
        }
    }
    false
}

/// Whether the other entity is an ancestor of this one.
fn is_below(schema: &Schema, entity: EntityId, other: EntityId) -> bool
    requires entity { IsEntityOf schema.now entity }
    requires other { IsEntityOf schema.now other }
    ensures { IsTrue result ↔ IsAncestor schema.now (entity_name schema.now entity) (entity_name schema.now other) }
{
    schema.fits();
    schema.one_id();
    entity != other && schema.is_a(entity, other)
}

/// Whether an entity is one of the instance's, and below the other.
fn is_in_below(slot: Slot, entity: EntityId, other: EntityId) -> bool
    requires slot { IsSlot slot }
    requires entity { IsEntityOf slot.schema.now entity }
    requires other { IsEntityOf slot.schema.now other }
    ensures { let s = slot.entry.schema.now in IsTrue result ↔ (set_of slot.entry (entity_name s entity) × IsAncestor s (entity_name s entity) (entity_name s other)) }
{
    is_below(slot.schema, entity, other) && is_in_set(slot, entity)
}

/// Whether an entity of the instance that is below this one has one of the declarations.
fn is_again_below(slot: Slot, entity: EntityId) -> bool
    requires slot { IsSlot slot }
    requires entity { IsEntityOf slot.schema.now entity }
    ensures { let s = slot.entry.schema.now in (ds : List Written) → AreResolvedIn s slot.entry.declarations.now ds → (IsTrue result ↔ AnyIn ds (IsAgainBelow s (set_of slot.entry) (entity_name s entity))) }
{
    for declaration in slot.declarations {
        if is_in_below(slot, declaration.entity, entity) {
            return true;
        }
    }
    false
}

/// Whether the declaration by this entity counts in the instance.
fn counts(slot: Slot, entity: EntityId) -> bool
    requires slot { IsSlot slot }
    requires entity { IsEntityOf slot.schema.now entity }
    ensures { let s = slot.entry.schema.now in (ds : List Written) → (d : Written) → AreResolvedIn s slot.entry.declarations.now ds → entity_name s entity ≡ d.entity → (IsTrue result ↔ CountsAmong s (set_of slot.entry) ds d) }
{
    if !is_in_set(slot, entity) {
        return false;
    }
    if is_derived(slot) {
        return false;
    }
    if is_again_below(slot, entity) {
        return false;
    }
    true
}

/// The place of a declaration that counts in the instance.
fn place_counting(slot: Slot) -> Option<usize>
    requires { IsSlot slot }
    ensures { let s = slot.entry.schema.now in (ds : List Written) → AreResolvedIn s slot.entry.declarations.now ds → MatchOption result (¬ (AnyIn ds (CountsAmong s (set_of slot.entry) ds))) (CountsAt s (set_of slot.entry) ds) }
{
    for place in 0..slot.declarations.len() {
        if counts(slot, slot.declarations[place].entity) {
            return Some(place);
        }
    }
    None
}

/// Adds the value of a parameter by a declaration of this form, and answers whether it has one. If not, what was added means nothing.
fn push_by(
    schema: &Schema,
    form: &Form,
    code: &mut Vec<u8>,
    param: &Param<'_>,
) -> Result<bool, AllocError>
    requires form { (f : WrittenForm) × IsResolvedForm schema.now form.now f }
    requires bodies { HasBodies (plain param.now) }
    ensures { (f : WrittenForm) → IsResolvedForm schema.now form.now f → IfOk result (IsPushedBy schema.now f (plain param.now) code.old.items code.new.items) }
{
    match form {
        Form::Derived => Ok(false),
        Form::Explicit { texpr, .. } => {
            push_value(schema, elements_of(schema, texpr), code, param)
        }
    }
}

/// Whether a parameter is by a declaration of this form the value whose code this is.
fn is_value_by(
    alloc: Global,
    schema: &Schema,
    form: &Form,
    own: &[u8],
    param: &Param<'_>,
) -> Result<bool, AllocError>
    requires form { (f : WrittenForm) × IsResolvedForm schema.now form.now f }
    requires bodies { HasBodies (plain param.now) }
    ensures { (f : WrittenForm) → (v : Value) → IsResolvedForm schema.now form.now f → own.now ≡ value_code v → IfOk result (λ is. let means = MeansBy schema.now f (plain param.now) v in MatchBool is means (¬ means)) }
{
    items_are_unique();
    schema.fits();
    let mut code = Vec::new(alloc);
    if !push_by(schema, form, &mut code, param)? {
        return Ok(false);
    }
    Ok(code.as_slice() == own)
}

/// Whether a parameter is the value whose code this is by a declaration, where that counts.
fn agrees(
    alloc: Global,
    slot: Slot,
    declaration: &Declaration,
    own: &[u8],
    param: &Param<'_>,
) -> Result<bool, AllocError>
    requires slot { IsSlot slot }
    requires declaration { (d : Written) × IsResolvedDeclaration slot.schema.now declaration.now d }
    requires bodies { HasBodies (plain param.now) }
    ensures { let s = slot.entry.schema.now in (ds : List Written) → (d : Written) → (v : Value) → AreResolvedIn s slot.entry.declarations.now ds → IsResolvedDeclaration s declaration.now d → own.now ≡ value_code v → IfOk result (λ is. let means = MeansCounting s (set_of slot.entry) ds (plain param.now) v d in MatchBool is means (¬ means)) }
{
    if !counts(slot, declaration.entity) {
        return Ok(true);
    }
    is_value_by(alloc, slot.schema, &declaration.form, own, param)
}

/// The same of the declaration at a place, where it is known of one at another.
fn agrees_at(
    alloc: Global,
    slot: Slot,
    known: usize,
    place: usize,
    own: &[u8],
    param: &Param<'_>,
) -> Result<bool, AllocError>
    requires slot { IsSlot slot }
    requires place { place < length slot.declarations.now }
    requires bodies { HasBodies (plain param.now) }
    ensures { let s = slot.entry.schema.now in (ds : List Written) → (v : Value) → AreResolvedIn s slot.entry.declarations.now ds → own.now ≡ value_code v → MeansCounting s (set_of slot.entry) ds (plain param.now) v (get_or ds known no_declaration) → IfOk result (λ is. let means = MeansCounting s (set_of slot.entry) ds (plain param.now) v (get_or ds place no_declaration) in MatchBool is means (¬ means)) }
{
    if place == known {
        return Ok(true);
    }
    agrees(alloc, slot, &slot.declarations[place], own, param)
}

/// Whether a parameter is the value whose code this is by each declaration that counts, where it is by the one at a place.
fn agree(
    alloc: Global,
    slot: Slot,
    known: usize,
    own: &[u8],
    param: &Param<'_>,
) -> Result<bool, AllocError>
    requires slot { IsSlot slot }
    requires bodies { HasBodies (plain param.now) }
    ensures { let s = slot.entry.schema.now in (ds : List Written) → (v : Value) → AreResolvedIn s slot.entry.declarations.now ds → own.now ≡ value_code v → MeansCounting s (set_of slot.entry) ds (plain param.now) v (get_or ds known no_declaration) → IfOk result (λ all. let agree = EachIn ds (MeansCounting s (set_of slot.entry) ds (plain param.now) v) in MatchBool all agree (¬ agree)) }
{
    for place in 0..slot.declarations.len() {
        if !agrees_at(alloc, slot, known, place, own, param)? {
            return Ok(false);
        }
    }
    Ok(true)
}

/// Adds the value of the parameter of an attribute in an instance, and answers whether it has one that is compared. If not, what was added means
/// nothing.
pub(crate) fn push_attribute(
    schema: &Schema,
    named: &[Option<EntityId>],
    instance: &RawInstance<'_>,
    attribute: AttrId,
    code: &mut Vec<u8>,
    param: &Param<'_>,
) -> Result<bool, AllocError>
    requires named { AreNamed schema.now (keywords (plain_instance instance.now)) named.now }
    requires attribute { IsAttributeOf schema.now attribute }
    requires bodies { HasBodies (plain param.now) }
    ensures { IfOk result (IsPushedOf schema.now (plain_instance instance.now) (attribute_at schema.now attribute) (plain param.now) code.old.items code.new.items) }
{
    items_are_unique();
    schema.fits();
    let slot = Slot {
        schema,
        named,
        instance,
        declarations: schema.declarations(attribute),
    };
    let Some(place) = place_counting(slot) else {
        return Ok(false);
    };
    let alloc = *code.allocator();
    let from = code.len();
    if !push_by(schema, &slot.declarations[place].form, code, param)? {
        return Ok(false);
    }
    agree(alloc, slot, place, &code[from..], param)
}
