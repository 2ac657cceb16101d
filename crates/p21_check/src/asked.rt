//! Which entity or SELECT a reference in a parameter must lead to, by the declarations of its attribute.

ghost use Rattle.std.specs.Prelude.{◌≡◌, List};
ghost use Rattle.p21_express.specs.WellFormed.{Origin};
ghost use Rattle.p21_tree.specs.Plain.{plain};
ghost use Rattle.p21_schema.specs.Declaration.{Declaration as Declared, Form as DeclaredForm, AreDeclarations, AreResolvedIn, IsResolvedDeclaration, IsResolvedForm};
ghost use Rattle.p21_schema.specs.Row.{IsAttributeOf, attribute_at};
ghost use Rattle.p21_check.specs.Sets.{HasEntity, IsNotDerived, IsSetOf};
ghost use Rattle.p21_check.specs.Asked.{AsksAsCounted, AsksByForm, AskedBy, FindsFirst};
ghost use Rattle.p21_check.specs.Wanted.{Asks, IsAsked};

use crate::binding::{Binding, binding_of};
use crate::entity_set::EntitySet;
use crate::slot::counts;
use crate::walk::{Bad, NameJudge, may_refer, walk};
use crate::wanted::{Wanted, wanted_by};
use p21_schema::{AttrId, Declaration, Form, Schema};
use p21_tree::Param;

/// Looks for the first reference at fault in a parameter for an attribute.
pub(crate) fn parameter<J: NameJudge>(
    schema: &Schema,
    set: &EntitySet<'_, '_>,
    attribute: AttrId,
    param: &Param<'_>,
    judge: &J,
) -> Result<(), Bad>
    requires same { J.table judge.now ≡ schema.now }
    requires set { IsSetOf schema.now set.now }
    requires attribute { IsAttributeOf schema.now attribute }
    ensures { FindsFirst schema.now (J.named judge.now) (AskedBy schema.now (HasEntity schema.now set.now) (attribute_at schema.now attribute) (plain param.now)) result }
{
    if !may_refer(param) {
        return Ok(());
    }
    schema.fits();
    let declarations = schema.declarations(attribute);
    match binding_of(schema, set, declarations) {
        Binding::Derived => Ok(()),
        Binding::Free => Ok(()),
        Binding::By(lowest) => {
            let wanted = asked_by_form(schema, &lowest.form);
            against(schema, wanted, param, judge)
        }
        Binding::Unsaid => against_each(schema, set, declarations, param, judge),
    }
}

/// Looks for the first reference at fault in a parameter, of those that are asked for.
fn against<'s, J: NameJudge>(
    schema: &'s Schema,
    wanted: Wanted<'s>,
    param: &Param<'_>,
    judge: &J,
) -> Result<(), Bad>
    requires same { J.table judge.now ≡ schema.now }
    requires wanted { IsAsked schema.now wanted }
    ensures { FindsFirst schema.entry.now (J.named judge.now) (Asks schema.entry.now wanted.entry (plain param.now)) result }
{
    match walk(schema, judge, Wanted::Nothing, wanted, param) {
        Ok(()) => Ok(()),
        Err(found) => Err(found.bad),
    }
}

/// Looks for the first reference at fault in a parameter for an attribute that is not derived, against each declaration that
/// counts.
fn against_each<J: NameJudge>(
    schema: &Schema,
    set: &EntitySet<'_, '_>,
    declarations: &[Declaration],
    param: &Param<'_>,
    judge: &J,
) -> Result<(), Bad>
    requires same { J.table judge.now ≡ schema.now }
    requires set { IsSetOf schema.now set.now }
    requires declarations { (ds : List Declared) × AreResolvedIn schema.now declarations.now ds }
    requires not_derived { IsNotDerived schema.now set.now declarations.now }
    ensures { (o : Origin) → (ds : List Declared) → AreDeclarations schema.now o ds → AreResolvedIn schema.now declarations.now ds → FindsFirst schema.now (J.named judge.now) (AskedBy schema.now (HasEntity schema.now set.now) o (plain param.now)) result }
{
    let mut first = Ok(());
    let mut wanted = Wanted::Nothing;
    for declaration in declarations {
        let other = asked_by(schema, set, declarations, declaration);
        if let Err(found) = walk(schema, judge, wanted, other, param) {
            if found.second {
                wanted = other;
            }
            first = Err(found.bad);
        }
    }
    first
}

/// What a declaration asks of references, where it counts, of an attribute that is not derived.
pub(crate) fn asked_by<'s>(
    schema: &'s Schema,
    set: &EntitySet<'_, '_>,
    declarations: &[Declaration],
    declaration: &'s Declaration,
) -> Wanted<'s>
    requires set { IsSetOf schema.now set.now }
    requires declarations { (ds : List Declared) × AreResolvedIn schema.now declarations.now ds }
    requires not_derived { IsNotDerived schema.now set.now declarations.now }
    requires declaration { (d : Declared) × IsResolvedDeclaration schema.now declaration.now d }
    ensures { (ds : List Declared) → (d : Declared) → AreResolvedIn schema.entry.now declarations.now ds → IsResolvedDeclaration schema.entry.now declaration.entry.now d → AsksAsCounted schema.entry.now (HasEntity schema.entry.now set.now) ds d result }
{
    if counts(schema, set, declarations, declaration.entity) {
        asked_by_form(schema, &declaration.form)
    } else {
        Wanted::Nothing
    }
}

/// What a declaration of this form asks of references: nothing in DERIVE.
pub(crate) fn asked_by_form<'s>(schema: &'s Schema, form: &'s Form) -> Wanted<'s>
    requires form { (f : DeclaredForm) × IsResolvedForm schema.now form.now f }
    ensures { (f : DeclaredForm) → IsResolvedForm schema.entry.now form.entry.now f → AsksByForm schema.entry.now f result }
{
    match form {
        Form::Derived => Wanted::Nothing,
        Form::Explicit { texpr, .. } => wanted_by(schema, texpr),
    }
}
