//! What a type takes that is more than one token.

ghost use Rattle.std.specs.Prelude.{◌≡◌, ℕ, List, IfSome, IsTrue};
ghost use Rattle.p21_express.specs.Schema.{Schema as Declared, Expr};
ghost use Rattle.p21_schema.specs.Place.{IsTypeOf};
ghost use Rattle.p21_check.specs.Known.{IsExpr, IsKnownExpr};
ghost use Rattle.p21_check.specs.Shape.{IsCountBy, TakesElements, TakesTyped};

use crate::bounds::{is_span, is_within};
use p21_schema::{Bounds, Resolved, ResolvedExpr, Schema, Target, TypeId};

/// The elements of the lists that a type takes.
#[derive(Clone, Copy)]
pub(crate) struct Elements<'s> {
    /// Whether the type is an ARRAY.
    pub(crate) array: bool,
    pub(crate) bounds: Bounds,
    /// Whether `$` may stand for an element.
    pub(crate) optional: bool,
    /// The type of each.
    pub(crate) item: &'s ResolvedExpr,
}

/// Whether an ARRAY, or another aggregate, with these bounds may have so many elements.
pub(crate) fn is_count(array: bool, bounds: Bounds, count: usize) -> bool
    ensures { IsTrue result → IsCountBy array bounds count }
{
    if array {
        is_span(bounds, count)
    } else {
        is_within(bounds, count)
    }
}

/// The elements of the lists that a type takes. It is `None` where it takes none.
pub(crate) fn elements_of<'s>(schema: &'s Schema, texpr: &'s ResolvedExpr) -> Option<Elements<'s>>
    requires { IsKnownExpr schema.now texpr.now }
    ensures { (e : Expr) → IsExpr schema.entry.now texpr.entry.now e → IfSome result (TakesElements schema.entry.now e) }
{
    schema.fits();
    match texpr {
        ResolvedExpr::Named(target) => match *target {
            Target::Defined(id) => match schema.under(id) {
                Resolved::Plain(under) => listed(under),
                _ => None,
            },
            Target::Entity(_) => None,
        },
        _ => listed(texpr),
    }
}

/// The elements of an aggregate.
fn listed(texpr: &ResolvedExpr) -> Option<Elements<'_>>
    ensures { (s : Declared) (e : Expr) → IsExpr s texpr.entry.now e → IfSome result (TakesElements s e) }
{
    match texpr {
        ResolvedExpr::Array {
            bounds,
            optional,
            item,
        } => Some(Elements {
            array: true,
            bounds: *bounds,
            optional: *optional,
            item,
        }),
        ResolvedExpr::List { bounds, item, .. } => Some(Elements {
            array: false,
            bounds: *bounds,
            optional: false,
            item,
        }),
        ResolvedExpr::Set { bounds, item } => Some(Elements {
            array: false,
            bounds: *bounds,
            optional: false,
            item,
        }),
        ResolvedExpr::Bag { bounds, item } => Some(Elements {
            array: false,
            bounds: *bounds,
            optional: false,
            item,
        }),
        _ => None,
    }
}

/// The type by which a SELECT takes a parameter with this keyword. It is `None` where it takes none, and of a type that is no SELECT.
pub(crate) fn selected(schema: &Schema, texpr: &ResolvedExpr, keyword: &[u8]) -> Option<TypeId>
    requires { IsKnownExpr schema.now texpr.now }
    ensures known { IfSome result (IsTypeOf schema.now) }
    ensures takes { (e : Expr) → IsExpr schema.now texpr.now e → IfSome result (TakesTyped schema.now e keyword.now) }
{
    schema.fits();
    match texpr {
        ResolvedExpr::Named(target) => match *target {
            Target::Defined(select) => match schema.under(select) {
                Resolved::Select(_) => schema.select_has(select, keyword),
                _ => None,
            },
            Target::Entity(_) => None,
        },
        _ => None,
    }
}
