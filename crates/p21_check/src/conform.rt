//! Whether a parameter fits the type of its attribute.

ghost use Rattle.std.specs.Prelude.{◌≡◌, ◌↔◌, ℕ, List, Bool, true, IsTrue};
ghost use Rattle.p21_tree.specs.Tree.{absent, enumeration};
ghost use Rattle.p21_express.specs.Schema.{Expr, Aggregate, array, aggregate, named};
ghost use Rattle.p21_express.specs.WellFormed.{IsSelect};
ghost use Rattle.p21_tree.specs.Plain.{plain, plain_all};
ghost use Rattle.p21_tree.specs.Bodies.{HasBodies, AllHaveBodies};
ghost use Rattle.p21_schema.specs.Place.{IsTypeOf, type_name};
ghost use Rattle.p21_schema.specs.Items.{HasItem};
ghost use Rattle.p21_check.specs.Conforms.{Conforms, AreElements};
ghost use Rattle.p21_check.specs.Known.{IsExpr, IsKnownExpr, IsTarget, IsKnownTarget, IsCollection, IsElement};

use crate::bounds::{is_span, is_within};
use crate::simple::{
    is_absent, is_binary, is_boolean, is_integer, is_logical, is_number, is_real, is_reference,
    is_string,
};
use p21_schema::{Bounds, Resolved, ResolvedExpr, Schema, Target, TypeId};
use p21_tree::Param;

/// Whether a parameter conforms to a type.
#[cycle(conform)]
pub(crate) fn conforms(schema: &Schema, texpr: &ResolvedExpr, param: &Param<'_>) -> bool
    requires known { IsKnownExpr schema.now texpr.now }
    requires bodies { HasBodies (plain param.now) }
    ensures { (e : Expr) → IsExpr schema.now texpr.now e → (IsTrue result ↔ Conforms schema.now e (plain param.now)) }
{
    match texpr {
        ResolvedExpr::Integer => is_integer(param),
        ResolvedExpr::Number => is_number(param),
        ResolvedExpr::Boolean => is_boolean(param),
        ResolvedExpr::Logical => is_logical(param),
        ResolvedExpr::Real => is_real(param),
        ResolvedExpr::Text(width) => is_string(*width, param),
        ResolvedExpr::Binary(width) => is_binary(*width, param),
        ResolvedExpr::Array {
            bounds,
            optional,
            item,
        } => is_array(schema, *bounds, *optional, item, param),
        ResolvedExpr::List { bounds, item, .. } => is_collection(schema, *bounds, item, param),
        ResolvedExpr::Set { bounds, item } => is_collection(schema, *bounds, item, param),
        ResolvedExpr::Bag { bounds, item } => is_collection(schema, *bounds, item, param),
        ResolvedExpr::Named(target) => is_named(schema, *target, param),
    }
}

/// Whether a parameter conforms to what a name stands for: for an entity any instance name does.
#[cycle(conform)]
fn is_named(schema: &Schema, target: Target, param: &Param<'_>) -> bool
    requires known { IsKnownTarget schema.now target }
    requires bodies { HasBodies (plain param.now) }
    ensures { (n : List ℕ) → IsTarget schema.now target n → (IsTrue result ↔ Conforms schema.now (named n) (plain param.now)) }
{
    schema.fits();
    match target {
        Target::Entity(_) => is_reference(param),
        Target::Defined(id) => is_defined(schema, id, param),
    }
}

/// Whether a parameter is an array of such elements.
#[cycle(conform)]
fn is_array(
    schema: &Schema,
    bounds: Bounds,
    optional: bool,
    item: &ResolvedExpr,
    param: &Param<'_>,
) -> bool
    requires known { IsKnownExpr schema.now item.now }
    requires bodies { HasBodies (plain param.now) }
    ensures { (e : Expr) → IsExpr schema.now item.now e → (IsTrue result ↔ Conforms schema.now (aggregate (array bounds optional) e) (plain param.now)) }
{
    match param {
        Param::Items(elements) => {
            is_span(bounds, elements.len()) && are_elements(schema, item, optional, elements)
        }
        _ => false,
    }
}

/// Whether a parameter is a list, a set or a bag of such elements.
#[cycle(conform)]
fn is_collection(schema: &Schema, bounds: Bounds, item: &ResolvedExpr, param: &Param<'_>) -> bool
    requires known { IsKnownExpr schema.now item.now }
    requires bodies { HasBodies (plain param.now) }
    ensures { (a : Aggregate) → (e : Expr) → IsCollection a bounds → IsExpr schema.now item.now e → (IsTrue result ↔ Conforms schema.now (aggregate a e) (plain param.now)) }
{
    match param {
        Param::Items(elements) => {
            is_within(bounds, elements.len()) && are_elements(schema, item, false, elements)
        }
        _ => false,
    }
}

/// Whether each element conforms, or is `$` where it may be left out.
#[cycle(conform)]
fn are_elements(
    schema: &Schema,
    item: &ResolvedExpr,
    optional: bool,
    elements: &[Param<'_>],
) -> bool
    requires known { IsKnownExpr schema.now item.now }
    requires bodies { AllHaveBodies elements.now }
    ensures { (e : Expr) → IsExpr schema.now item.now e → (IsTrue result ↔ AreElements schema.now optional e (plain_all elements.now)) }
{
    for element in elements {
        if !is_element(schema, item, optional, element) {
            return false;
        }
    }
    true
}

/// Whether an element conforms, or is `$` where it may be left out.
#[cycle(conform)]
pub(crate) fn is_element(
    schema: &Schema,
    item: &ResolvedExpr,
    optional: bool,
    element: &Param<'_>,
) -> bool
    requires known { IsKnownExpr schema.now item.now }
    requires bodies { HasBodies (plain element.now) }
    ensures { (e : Expr) → IsExpr schema.now item.now e → (IsTrue result ↔ IsElement schema.now optional e (plain element.now)) }
{
    is_left_out(optional, element) || conforms(schema, item, element)
}

fn is_left_out(optional: bool, element: &Param<'_>) -> bool
    ensures { IsTrue result ↔ ((optional ≡ true) × (plain element.now ≡ absent)) }
{
    optional && is_absent(element)
}

/// Whether a parameter conforms to a type of the schema.
#[cycle(conform)]
pub(crate) fn is_defined(schema: &Schema, id: TypeId, param: &Param<'_>) -> bool
    requires known { IsTypeOf schema.now id }
    requires bodies { HasBodies (plain param.now) }
    ensures { IsTrue result ↔ Conforms schema.now (named (type_name schema.now id)) (plain param.now) }
{
    schema.fits();
    match schema.under(id) {
        Resolved::Items(_) => is_item(schema, id, param),
        Resolved::Select(_) => is_selected(schema, id, param),
        Resolved::Plain(texpr) => conforms(schema, texpr, param),
    }
}

/// Whether a parameter conforms to a SELECT.
#[cycle(conform)]
fn is_selected(schema: &Schema, select: TypeId, param: &Param<'_>) -> bool
    requires known { IsTypeOf schema.now select }
    requires select { IsSelect schema.now (type_name schema.now select) }
    requires bodies { HasBodies (plain param.now) }
    ensures { IsTrue result ↔ Conforms schema.now (named (type_name schema.now select)) (plain param.now) }
{
    schema.fits();
    match param {
        Param::Ref(_) => schema.select_has_entity(select),
        Param::Typed(keyword, inner) => match schema.select_has(select, keyword) {
            Some(id) => is_defined(schema, id, inner),
            None => false,
        },
        _ => false,
    }
}

/// Whether a parameter is an enumeration by an item of the type.
fn is_item(schema: &Schema, id: TypeId, param: &Param<'_>) -> bool
    requires { IsTypeOf schema.now id }
    ensures { IsTrue result ↔ ((v : List ℕ) × (plain param.now ≡ enumeration v) × HasItem schema.now (type_name schema.now id) v) }
{
    match param {
        Param::Enumeration(name) => schema.has_item(id, name),
        _ => false,
    }
}
