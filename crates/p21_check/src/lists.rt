//! Where a type has lists in which no two elements may be equal.

ghost use Rattle.std.specs.Prelude.{◌≡◌, ◌↔◌, List, ℕ, Some, IsTrue};
ghost use Rattle.p21_express.specs.Schema.{Schema, Expr, named};
ghost use Rattle.p21_schema.specs.Place.{IsTypeOf, type_name};
ghost use Rattle.p21_check.specs.Lists.{AreKnownLists, AreListsOf, AreListsOfElements, AreListsInside, is_unique};
ghost use Rattle.p21_check.specs.Wanted.{by_names};

use p21_schema::{Resolved, ResolvedExpr, Schema, Target, TypeId};

/// Where a type has lists.
#[derive(Clone, Copy)]
pub(crate) enum Lists<'s> {
    /// Nowhere in its parameters.
    Nowhere,
    /// In what is typed, by a type that the SELECT reaches.
    InTyped(TypeId),
    /// The parameter is one.
    Here {
        /// Whether no two elements may be equal.
        unique: bool,
        /// The type of its elements.
        item: &'s ResolvedExpr,
    },
}

/// The lists of a type.
pub(crate) fn lists_of<'s>(schema: &'s Schema, texpr: &'s ResolvedExpr) -> Lists<'s>
    requires { (x : Expr) × (by_names schema.now texpr.now ≡ Some x) }
    ensures { (x : Expr) → by_names schema.entry.now texpr.entry.now ≡ Some x → AreListsOf schema.entry.now x result }
{
    schema.fits();
    match texpr {
        ResolvedExpr::Named(target) => match *target {
            Target::Entity(_) => Lists::Nowhere,
            Target::Defined(defined) => lists_under(schema, defined),
        },
        _ => plain_lists(texpr),
    }
}

/// The lists of what stands under a type.
pub(crate) fn lists_under(schema: &Schema, defined: TypeId) -> Lists<'_>
    requires { IsTypeOf schema.now defined }
    ensures { AreListsOf schema.entry.now (named (type_name schema.entry.now defined)) result }
{
    schema.fits();
    match schema.under(defined) {
        Resolved::Items(_) => Lists::Nowhere,
        Resolved::Select(_) => Lists::InTyped(defined),
        Resolved::Plain(texpr) => plain_lists(texpr),
    }
}

/// The lists of a type that is no name.
fn plain_lists(texpr: &ResolvedExpr) -> Lists<'_>
    ensures { (s : Schema) (x : Expr) → by_names s texpr.entry.now ≡ Some x → ((n : List ℕ) → ¬ (x ≡ named n)) → AreListsOf s x result }
{
    match texpr {
        ResolvedExpr::Array { item, .. } | ResolvedExpr::Bag { item, .. } => Lists::Here {
            unique: false,
            item,
        },
        ResolvedExpr::List { unique, item, .. } => Lists::Here {
            unique: *unique,
            item,
        },
        ResolvedExpr::Set { item, .. } => Lists::Here { unique: true, item },
        _ => Lists::Nowhere,
    }
}

impl<'s> Lists<'s> {
    ghost use Rattle.p21_check.specs.declared.lists.Lists.TheVariants as lists;

    /// Whether the parameter is a list in which no two elements may be equal.
    pub(crate) fn is_unique(self) -> bool
        ensures { result ≡ is_unique self.entry }
    {
        match self {
            Lists::Here { unique, .. } => unique,
            _ => false,
        }
    }

    /// The lists of the elements of a list.
    pub(crate) fn of_elements(self, schema: &'s Schema) -> Lists<'s>
        requires { AreKnownLists schema.now self }
        ensures { AreListsOfElements schema.entry.now self.entry result }
    {
        match self {
            Lists::Here { item, .. } => lists_of(schema, item),
            _ => Lists::Nowhere,
        }
    }

    /// The lists of the parameter in a typed one.
    pub(crate) fn inside(self, schema: &'s Schema, keyword: &[u8]) -> Lists<'s>
        requires { AreKnownLists schema.now self }
        ensures { AreListsInside schema.entry.now self.entry result keyword.now }
    {
        match self {
            Lists::InTyped(select) => match schema.select_has(select, keyword) {
                Some(defined) => lists_under(schema, defined),
                None => Lists::Nowhere,
            },
            _ => Lists::Nowhere,
        }
    }

    pub(crate) fn is_nowhere(self) -> bool
        ensures { IsTrue result ↔ (self.entry ≡ lists.Nowhere) }
    {
        matches!(self, Lists::Nowhere)
    }
}
