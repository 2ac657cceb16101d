//! Whether a parameter may stand for an attribute: `$` for OPTIONAL, `*` for DERIVE, a value that fits.

ghost use Rattle.std.specs.Prelude.{◌≡◌, ◌↔◌, List, IsTrue};
ghost use Rattle.p21_express.specs.WellFormed.{IsAncestor};
ghost use Rattle.p21_tree.specs.Plain.{plain};
ghost use Rattle.p21_tree.specs.Bodies.{HasBodies};
ghost use Rattle.p21_schema.specs.Declaration.{Declaration as Declared, Form as DeclaredForm, AreResolvedIn, IsResolvedDeclaration, IsResolvedForm};
ghost use Rattle.p21_schema.specs.Place.{IsEntityOf, entity_name};
ghost use Rattle.p21_schema.specs.Row.{IsAttributeOf, attribute_at};
ghost use Rattle.p21_check.specs.Slot.{FitsSlot};
ghost use Rattle.p21_check.specs.Sets.{HasEntity, IsSetOf, AnyIn, IsNotDerived, IsAgainBelow, FitsForm, CountsAmong, FitsCounting, EachIn};

use crate::binding::{Binding, binding_of};
use crate::conform::is_element;
use crate::entity_set::{EntitySet, is_below, is_in_set};
use crate::simple;
use p21_schema::{AttrId, Declaration, EntityId, Form, Schema};
use p21_tree::Param;

/// Whether a parameter may be given for an attribute of an instance with this entity set: `*` alone for a derived one; for
/// another what fits each declaration that counts.
pub(crate) fn fits_slot(
    schema: &Schema,
    set: &EntitySet<'_, '_>,
    attribute: AttrId,
    param: &Param<'_>,
) -> bool
    requires set { IsSetOf schema.now set.now }
    requires attribute { IsAttributeOf schema.now attribute }
    requires bodies { HasBodies (plain param.now) }
    ensures { IsTrue result ↔ FitsSlot schema.now (HasEntity schema.now set.now) (attribute_at schema.now attribute) (plain param.now) }
{
    schema.fits();
    let declarations = schema.declarations(attribute);
    match binding_of(schema, set, declarations) {
        Binding::Derived => simple::is_derived(param),
        Binding::By(lowest) => fits_form(schema, &lowest.form, param),
        Binding::Free => true,
        Binding::Unsaid => fits_each(schema, set, declarations, param),
    }
}

/// Whether the parameter fits each declaration that counts, of an attribute that is not derived.
fn fits_each(
    schema: &Schema,
    set: &EntitySet<'_, '_>,
    declarations: &[Declaration],
    param: &Param<'_>,
) -> bool
    requires set { IsSetOf schema.now set.now }
    requires declarations { (ds : List Declared) × AreResolvedIn schema.now declarations.now ds }
    requires not_derived { IsNotDerived schema.now set.now declarations.now }
    requires bodies { HasBodies (plain param.now) }
    ensures { (ds : List Declared) → AreResolvedIn schema.now declarations.now ds → (IsTrue result ↔ EachIn ds (FitsCounting schema.now (HasEntity schema.now set.now) ds (plain param.now))) }
{
    for declaration in declarations {
        if !fits_counting(schema, set, declarations, declaration, param) {
            return false;
        }
    }
    true
}

/// Whether the parameter fits this declaration, where it counts, of an attribute that is not derived.
fn fits_counting(
    schema: &Schema,
    set: &EntitySet<'_, '_>,
    declarations: &[Declaration],
    declaration: &Declaration,
    param: &Param<'_>,
) -> bool
    requires set { IsSetOf schema.now set.now }
    requires declarations { (ds : List Declared) × AreResolvedIn schema.now declarations.now ds }
    requires not_derived { IsNotDerived schema.now set.now declarations.now }
    requires declaration { (d : Declared) × IsResolvedDeclaration schema.now declaration.now d }
    requires bodies { HasBodies (plain param.now) }
    ensures { (ds : List Declared) → (d : Declared) → AreResolvedIn schema.now declarations.now ds → IsResolvedDeclaration schema.now declaration.now d → (IsTrue result ↔ FitsCounting schema.now (HasEntity schema.now set.now) ds (plain param.now) d) }
{
    !counts(schema, set, declarations, declaration.entity)
        || fits_form(schema, &declaration.form, param)
}

/// Whether a declaration by this entity counts, of an attribute that is not derived: it is in the set, and no entity of the set
/// below it declares the attribute again.
pub(crate) fn counts(
    schema: &Schema,
    set: &EntitySet<'_, '_>,
    declarations: &[Declaration],
    entity: EntityId,
) -> bool
    requires set { IsSetOf schema.now set.now }
    requires declarations { (ds : List Declared) × AreResolvedIn schema.now declarations.now ds }
    requires not_derived { IsNotDerived schema.now set.now declarations.now }
    requires entity { IsEntityOf schema.now entity }
    ensures { (ds : List Declared) → (d : Declared) → AreResolvedIn schema.now declarations.now ds → entity_name schema.now entity ≡ d.entity → (IsTrue result ↔ CountsAmong schema.now (HasEntity schema.now set.now) ds d) }
{
    is_in_set(schema, set, entity) && !is_again_below(schema, set, declarations, entity)
}

/// Whether an entity of the set below this one declares the attribute again.
fn is_again_below(
    schema: &Schema,
    set: &EntitySet<'_, '_>,
    declarations: &[Declaration],
    entity: EntityId,
) -> bool
    requires set { IsSetOf schema.now set.now }
    requires declarations { (ds : List Declared) × AreResolvedIn schema.now declarations.now ds }
    requires entity { IsEntityOf schema.now entity }
    ensures { (ds : List Declared) → AreResolvedIn schema.now declarations.now ds → (IsTrue result ↔ AnyIn ds (IsAgainBelow schema.now (HasEntity schema.now set.now) (entity_name schema.now entity))) }
{
    for declaration in declarations {
        if is_in_below(schema, set, declaration.entity, entity) {
            return true;
        }
    }
    false
}

/// Whether an entity is in the set, and below the other.
fn is_in_below(schema: &Schema, set: &EntitySet<'_, '_>, entity: EntityId, other: EntityId) -> bool
    requires set { IsSetOf schema.now set.now }
    requires entity { IsEntityOf schema.now entity }
    requires other { IsEntityOf schema.now other }
    ensures { IsTrue result ↔ (HasEntity schema.now set.now (entity_name schema.now entity) × IsAncestor schema.now (entity_name schema.now entity) (entity_name schema.now other)) }
{
    is_below(schema, entity, other) && is_in_set(schema, set, entity)
}

/// Whether a parameter fits one declaration.
fn fits_form(schema: &Schema, form: &Form, param: &Param<'_>) -> bool
    requires form { (f : DeclaredForm) × IsResolvedForm schema.now form.now f }
    requires bodies { HasBodies (plain param.now) }
    ensures { (f : DeclaredForm) → IsResolvedForm schema.now form.now f → (IsTrue result ↔ FitsForm schema.now (plain param.now) f) }
{
    match form {
        Form::Derived => false,
        Form::Explicit { optional, texpr } => is_element(schema, texpr, *optional, param),
    }
}
