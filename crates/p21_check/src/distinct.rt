//! Whether a SET, or a list that is UNIQUE, names the same instance twice.

ghost use Rattle.std.specs.Prelude.{◌≡◌, ◌↔◌, ◌<◌, ℕ, List, true, false, IsTrue, MatchOption, length};
ghost use Rattle.p21_express.specs.WellFormed.{Origin};
ghost use Rattle.p21_tree.specs.Plain.{plain, plain_all};
ghost use Rattle.p21_tree.specs.Views.{plain_record};
ghost use Rattle.p21_schema.specs.Declaration.{Declaration as Declared, Form as DeclaredForm, AreResolvedIn, IsResolvedDeclaration, IsResolvedForm};
ghost use Rattle.p21_schema.specs.Place.{IsEntityOf, entity_name};
ghost use Rattle.p21_schema.specs.Row.{IsAttributeOf, attribute_at};
ghost use Rattle.p21_check.specs.Attributes.{AreAttributes};
ghost use Rattle.p21_check.specs.Instances.{complex_instance, simple_instance, HasRightCount, IsDistinctAnswer, IsFirstRepeating, NamesEntity};
ghost use Rattle.p21_check.specs.Repeats.{RepeatsByForm, RepeatsInSlot};
ghost use Rattle.p21_check.specs.Sets.{AnyIn, CountsAmong, EachIn, HasEntity, IsNotDerived, IsSetOf, IsSetOfRecords, RepeatsCounting};

use crate::attributes::attribute;
use crate::binding::{Binding, binding_of};
use crate::entity_set::EntitySet;
use crate::lists::lists_of;
use crate::records::known;
use crate::repeats::{may_have_list, repeats};
use crate::slot::counts;
use p21_schema::{AttrId, Declaration, EntityId, Form, Schema};
use p21_tree::{FaultKind, Param, Record};

/// The first repeated reference of a simple instance, by its record, which is of this entity.
pub(crate) fn check_simple_distinct(
    schema: &Schema,
    entity: EntityId,
    entry: &Record<'_>,
) -> Result<(), FaultKind>
    requires entity { IsEntityOf schema.now entity }
    requires named { entity_name schema.now entity ≡ entry.now.keyword.now }
    requires count { (os : List Origin) × (AreAttributes schema.now false (entity_name schema.now entity) os × (length entry.now.params ≡ length os)) }
    ensures { (name : ℕ) → (at : ℕ) → IsDistinctAnswer schema.now (simple_instance name at (plain_record entry.now)) result }
{
    schema.fits();
    if !schema.distinct() {
        return Ok(());
    }
    let set = EntitySet::Simple(entity);
    match first_repeating(schema, &set, false, entity, entry.params.as_slice()) {
        Some(attr) => Err(FaultKind::RepeatedReference {
            rec: 0,
            attr: attr as u64,
        }),
        None => Ok(()),
    }
}

/// The first repeated reference of a complex instance, by its records and the set of what they name.
pub(crate) fn check_complex_distinct(
    schema: &Schema,
    set: &EntitySet<'_, '_>,
    records: &[Record<'_>],
) -> Result<(), FaultKind>
    requires known { EachIn records.now (NamesEntity schema.now) }
    requires right { EachIn records.now (HasRightCount schema.now) }
    requires set { IsSetOf schema.now set.now }
    requires of { IsSetOfRecords schema.now set.now records.now }
    ensures { (name : ℕ) → (at : ℕ) → IsDistinctAnswer schema.now (complex_instance name at records.now) result }
{
    schema.fits();
    if !schema.distinct() {
        return Ok(());
    }
    for rec in 0..records.len() {
        let record = &records[rec];
        let entity = known(schema, record.keyword);
        if let Some(attr) = first_repeating(schema, set, true, entity, record.params.as_slice()) {
            return Err(FaultKind::RepeatedReference {
                rec: rec as u64,
                attr: attr as u64,
            });
        }
    }
    Ok(())
}

/// The place of the first parameter that repeats a name in a list.
fn first_repeating(
    schema: &Schema,
    set: &EntitySet<'_, '_>,
    complex: bool,
    entity: EntityId,
    params: &[Param<'_>],
) -> Option<usize>
    requires set { IsSetOf schema.now set.now }
    requires entity { IsEntityOf schema.now entity }
    requires count { (os : List Origin) × (AreAttributes schema.now complex (entity_name schema.now entity) os × (length params.now ≡ length os)) }
    ensures { (os : List Origin) → AreAttributes schema.now complex (entity_name schema.now entity) os → IsFirstRepeating schema.now (HasEntity schema.now set.now) os (plain_all params.now) result }
{
    for position in 0..params.len() {
        let attribute = attribute(schema, complex, entity, position);
        if repeats_in_slot(schema, set, attribute, &params[position]) {
            return Some(position);
        }
    }
    None
}

/// Whether a list in the parameter repeats a name, by a declaration of its attribute that counts.
fn repeats_in_slot(
    schema: &Schema,
    set: &EntitySet<'_, '_>,
    attribute: AttrId,
    param: &Param<'_>,
) -> bool
    requires set { IsSetOf schema.now set.now }
    requires attribute { IsAttributeOf schema.now attribute }
    ensures { IsTrue result ↔ RepeatsInSlot schema.now (HasEntity schema.now set.now) (attribute_at schema.now attribute) (plain param.now) }
{
    // Most parameters are no lists.
    if !may_have_list(param) {
        return false;
    }
    schema.fits();
    let declarations = schema.declarations(attribute);
    match binding_of(schema, set, declarations) {
        Binding::Derived => false,
        Binding::Free => false,
        Binding::By(lowest) => repeats_by_form(schema, &lowest.form, param),
        Binding::Unsaid => repeats_by_any(schema, set, declarations, param),
    }
}

/// Whether it does by one of these declarations that counts, of an attribute that is not derived.
fn repeats_by_any(
    schema: &Schema,
    set: &EntitySet<'_, '_>,
    declarations: &[Declaration],
    param: &Param<'_>,
) -> bool
    requires set { IsSetOf schema.now set.now }
    requires declarations { (ds : List Declared) × AreResolvedIn schema.now declarations.now ds }
    requires not_derived { IsNotDerived schema.now set.now declarations.now }
    ensures { (ds : List Declared) → AreResolvedIn schema.now declarations.now ds → (IsTrue result ↔ AnyIn ds (RepeatsCounting schema.now (HasEntity schema.now set.now) ds (plain param.now))) }
{
    for declaration in declarations {
        if repeats_counting(schema, set, declarations, declaration, param) {
            return true;
        }
    }
    false
}

/// Whether this declaration counts, of an attribute that is not derived, and it does by it.
fn repeats_counting(
    schema: &Schema,
    set: &EntitySet<'_, '_>,
    declarations: &[Declaration],
    declaration: &Declaration,
    param: &Param<'_>,
) -> bool
    requires set { IsSetOf schema.now set.now }
    requires declarations { (ds : List Declared) × AreResolvedIn schema.now declarations.now ds }
    requires not_derived { IsNotDerived schema.now set.now declarations.now }
    requires declaration { (d : Declared) × IsResolvedDeclaration schema.now declaration.now d }
    ensures { (ds : List Declared) → (d : Declared) → AreResolvedIn schema.now declarations.now ds → IsResolvedDeclaration schema.now declaration.now d → (IsTrue result ↔ RepeatsCounting schema.now (HasEntity schema.now set.now) ds (plain param.now) d) }
{
    counts(schema, set, declarations, declaration.entity)
        && repeats_by_form(schema, &declaration.form, param)
}

fn repeats_by_form(schema: &Schema, form: &Form, param: &Param<'_>) -> bool
    requires form { (f : DeclaredForm) × IsResolvedForm schema.now form.now f }
    ensures { (f : DeclaredForm) → IsResolvedForm schema.now form.now f → (IsTrue result ↔ RepeatsByForm schema.now (plain param.now) f) }
{
    match form {
        Form::Derived => false,
        Form::Explicit { texpr, .. } => repeats(schema, lists_of(schema, texpr), param),
    }
}
