//! The lists that stand for a type.

ghost use Rattle.std.specs.Prelude.{◌≡◌, List, ℕ, Some};
ghost use Rattle.p21_express.specs.Schema.{Schema as Declared, Expr, named};
ghost use Rattle.p21_schema.specs.Place.{IsTypeOf, type_name};
ghost use Rattle.p21_check.specs.Wanted.{by_names};
ghost use Rattle.p21_rules.specs.Elements.{AreElements};

use p21_schema::{Resolved, ResolvedExpr, Schema, Target, TypeId};

/// The elements of the lists that stand for a type.
#[derive(Clone, Copy)]
pub(crate) struct Elements<'s> {
    /// Whether their order counts.
    pub(crate) ordered: bool,
    /// Their type.
    pub(crate) item: &'s ResolvedExpr,
}

/// Those of a type; `None` where no list stands for it.
pub(crate) fn elements_of<'s>(schema: &'s Schema, texpr: &'s ResolvedExpr) -> Option<Elements<'s>>
    requires { (x : Expr) × (by_names schema.now texpr.now ≡ Some x) }
    ensures { (x : Expr) → by_names schema.entry.now texpr.entry.now ≡ Some x → AreElements schema.entry.now x result }
{
    schema.fits();
    match texpr {
        ResolvedExpr::Named(target) => match *target {
            Target::Entity(_) => None,
            Target::Defined(defined) => elements_under(schema, defined),
        },
        _ => plain_elements(texpr),
    }
}

/// Those of the type that is a keyword.
pub(crate) fn elements_typed<'s>(schema: &'s Schema, keyword: &[u8]) -> Option<Elements<'s>>
    ensures { AreElements schema.entry.now (named keyword.now) result }
{
    match schema.type_named(keyword) {
        Some(defined) => elements_under(schema, defined),
        None => None,
    }
}

/// Those of what stands under a type.
fn elements_under(schema: &Schema, defined: TypeId) -> Option<Elements<'_>>
    requires { IsTypeOf schema.now defined }
    ensures { AreElements schema.entry.now (named (type_name schema.entry.now defined)) result }
{
    schema.fits();
    match schema.under(defined) {
        Resolved::Items(_) => None,
        Resolved::Select(_) => None,
        Resolved::Plain(texpr) => plain_elements(texpr),
    }
}

/// Those of a type that is no name.
fn plain_elements(texpr: &ResolvedExpr) -> Option<Elements<'_>>
    ensures { (s : Declared) (x : Expr) → by_names s texpr.entry.now ≡ Some x → ((n : List ℕ) → ¬ (x ≡ named n)) → AreElements s x result }
{
    match texpr {
        ResolvedExpr::Array { item, .. } | ResolvedExpr::List { item, .. } => Some(Elements {
            ordered: true,
            item,
        }),
        ResolvedExpr::Set { item, .. } | ResolvedExpr::Bag { item, .. } => Some(Elements {
            ordered: false,
            item,
        }),
        _ => None,
    }
}
