//! The attributes of a record, and which of them are of BOOLEAN or LOGICAL.

ghost use Rattle.std.specs.Prelude.{◌≡◌, ◌<◌, ◌↔◌, IsTrue, List, Some, length, slice_get};
ghost use Rattle.p21_express.specs.WellFormed.{IsAncestor, Origin};
ghost use Rattle.p21_tree.specs.Views.{plain_instance};
ghost use Rattle.p21_schema.specs.Declaration.{Declaration as Declared, Form as DeclaredForm, AreResolvedIn, IsResolvedDeclaration, IsResolvedForm};
ghost use Rattle.p21_schema.specs.Place.{IsEntityOf, entity_name};
ghost use Rattle.p21_schema.specs.Row.{IsAttributeOf, attribute_at};
ghost use Rattle.p21_check.specs.Sets.{AnyIn};
ghost use Rattle.p21_json.specs.Rows.{AreAttributesOf};
ghost use Rattle.p21_json.specs.Where.{DeclaresLogical, FormTakesLogical, IsBelow, IsDeclaredBelow, IsLogicalAttribute, IsOf};

use crate::terms::Terms;
use p21_schema::{AttrId, Declaration, EntityId, Form, Schema};
use p21_tree::RawInstance;

/// How many attributes a record of the entity has.
pub fn attribute_count(schema: &Schema, complex: bool, entity: EntityId) -> usize
    requires { IsEntityOf schema.now entity }
    // Those of its row, or of a record of a complex instance the own ones of the entity.
    ensures { (os : List Origin) × (AreAttributesOf schema.now complex entity os × (result ≡ length os)) }
{
    if complex {
        schema.own_count(entity)
    } else {
        schema.row_count(entity)
    }
}

/// One of them.
pub fn attribute(schema: &Schema, complex: bool, entity: EntityId, position: usize) -> AttrId
    requires entity { IsEntityOf schema.now entity }
    requires position { (os : List Origin) × (AreAttributesOf schema.now complex entity os × (position < length os)) }
    // It is an attribute of the schema.
    ensures known { IsAttributeOf schema.now result }
    // The attribute at this place.
    ensures there { (os : List Origin) → AreAttributesOf schema.now complex entity os → slice_get os position ≡ Some (attribute_at schema.now result) }
{
    schema.fits();
    if complex {
        schema.own(entity, position)
    } else {
        schema.row(entity, position)
    }
}

/// Whether items of enumerations in the attribute of an instance are values of BOOLEAN or LOGICAL.
pub fn is_logical(terms: &Terms<'_>, instance: &RawInstance<'_>, attribute: AttrId) -> bool
    requires { IsAttributeOf terms.now attribute }
    ensures { IsTrue result ↔ IsLogicalAttribute terms.now (plain_instance instance.now) (attribute_at terms.now attribute) }
{
    declare_logical(terms, instance, terms.schema().declarations(attribute))
}

/// Whether one of some declarations, by an entity that the instance is of and that none below it declares again, is of BOOLEAN or LOGICAL,
/// or of aggregates of such.
fn declare_logical(
    terms: &Terms<'_>,
    instance: &RawInstance<'_>,
    declarations: &[Declaration],
) -> bool
    requires { (ds : List Declared) × AreResolvedIn terms.now declarations.now ds }
    ensures { (ds : List Declared) → AreResolvedIn terms.now declarations.now ds → (IsTrue result ↔ AnyIn ds (DeclaresLogical terms.now (plain_instance instance.now) ds)) }
{
    for declaration in declarations {
        if declares_logical(terms, instance, declarations, declaration) {
            return true;
        }
    }
    false
}

/// Whether this one of them is so, and none by an entity below that the instance is of.
fn declares_logical(
    terms: &Terms<'_>,
    instance: &RawInstance<'_>,
    declarations: &[Declaration],
    declaration: &Declaration,
) -> bool
    requires all { (ds : List Declared) × AreResolvedIn terms.now declarations.now ds }
    requires declaration { (d : Declared) × IsResolvedDeclaration terms.now declaration.now d }
    ensures { (ds : List Declared) → (d : Declared) → AreResolvedIn terms.now declarations.now ds → IsResolvedDeclaration terms.now declaration.now d → (IsTrue result ↔ DeclaresLogical terms.now (plain_instance instance.now) ds d) }
{
    form_is_logical(terms, &declaration.form)
        && is_of(terms.schema(), instance, declaration.entity)
        && !is_declared_below(terms.schema(), instance, declarations, declaration.entity)
}

/// Whether one of some declarations is by an entity below this one that the instance is of.
fn is_declared_below(
    schema: &Schema,
    instance: &RawInstance<'_>,
    declarations: &[Declaration],
    entity: EntityId,
) -> bool
    requires declarations { (ds : List Declared) × AreResolvedIn schema.now declarations.now ds }
    requires entity { IsEntityOf schema.now entity }
    ensures { (ds : List Declared) → AreResolvedIn schema.now declarations.now ds → (IsTrue result ↔ IsDeclaredBelow schema.now (plain_instance instance.now) ds (entity_name schema.now entity)) }
{
    for declaration in declarations {
        if is_of_below(schema, instance, declaration.entity, entity) {
            return true;
        }
    }
    false
}

/// Whether the instance is of an entity, and this is below the other.
fn is_of_below(
    schema: &Schema,
    instance: &RawInstance<'_>,
    entity: EntityId,
    other: EntityId,
) -> bool
    requires entity { IsEntityOf schema.now entity }
    requires other { IsEntityOf schema.now other }
    ensures { IsTrue result ↔ (IsOf schema.now (plain_instance instance.now) (entity_name schema.now entity) × IsAncestor schema.now (entity_name schema.now entity) (entity_name schema.now other)) }
{
    is_below(schema, entity, other) && is_of(schema, instance, entity)
}

/// Whether an entity is below the other.
fn is_below(schema: &Schema, entity: EntityId, other: EntityId) -> bool
    requires entity { IsEntityOf schema.now entity }
    requires other { IsEntityOf schema.now other }
    ensures { IsTrue result ↔ IsAncestor schema.now (entity_name schema.now entity) (entity_name schema.now other) }
{
    schema.fits();
    schema.one_id();
    entity != other && schema.is_a(entity, other)
}

/// Whether a declaration is of BOOLEAN or LOGICAL, or of aggregates of such.
fn form_is_logical(terms: &Terms<'_>, form: &Form) -> bool
    requires { (f : DeclaredForm) × IsResolvedForm terms.now form.now f }
    ensures { (f : DeclaredForm) → IsResolvedForm terms.now form.now f → (IsTrue result ↔ FormTakesLogical terms.now f) }
{
    match form {
        Form::Derived => false,
        Form::Explicit { texpr, .. } => terms.takes_logical(texpr),
    }
}

/// Whether a record of the instance names the entity, or one below it.
fn is_of(schema: &Schema, instance: &RawInstance<'_>, entity: EntityId) -> bool
    requires { IsEntityOf schema.now entity }
    ensures { IsTrue result ↔ IsOf schema.now (plain_instance instance.now) (entity_name schema.now entity) }
{
    for record in instance.records.as_slice() {
        if is_named_below(schema, record.keyword, entity) {
            return true;
        }
    }
    false
}

/// Whether a name is the entity's, or that of one below it.
fn is_named_below(schema: &Schema, name: &[u8], entity: EntityId) -> bool
    requires { IsEntityOf schema.now entity }
    ensures { IsTrue result ↔ IsBelow schema.now name.now (entity_name schema.now entity) }
{
    match schema.entity(name) {
        Some(named) => schema.is_a(named, entity),
        None => false,
    }
}
