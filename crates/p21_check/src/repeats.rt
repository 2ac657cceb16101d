//! Where in a parameter a SET, or a list that is UNIQUE, names the same instance twice.

ghost use Rattle.std.specs.Prelude.{◌≡◌, ◌↔◌, true, false, IsTrue};
ghost use Rattle.p21_express.specs.Schema.{Schema as Declared, Expr};
ghost use Rattle.p21_tree.specs.Plain.{plain};
ghost use Rattle.p21_check.specs.Lists.{AreKnownLists, RepeatsBy, is_unique};
ghost use Rattle.p21_check.specs.RepeatedNames.{names_of};
ghost use Rattle.p21_check.specs.Repeats.{HasTwice, Repeats};

use crate::lists::Lists;
use crate::repeated_names::repeats_name;
use p21_schema::Schema;
use p21_tree::Param;
use std::alloc::Global;

/// Whether a list in the parameter does, at any depth.
pub(crate) fn repeats<'s>(schema: &'s Schema, lists: Lists<'s>, param: &Param<'_>) -> bool
    requires { AreKnownLists schema.now lists }
    ensures { IsTrue result ↔ RepeatsBy schema.entry.now lists.entry (plain param.now) }
{
    match param {
        Param::Items(elements) => {
            let inner = lists.of_elements(schema);
            if repeats_here(lists, *elements.allocator(), elements) {
                return true;
            }
            // Lists of numbers and of instance names are many and long.
            if inner.is_nowhere() {
                return false;
            }
            for element in elements {
                if repeats(schema, inner, element) {
                    return true;
                }
            }
            false
        }
        Param::Typed(keyword, inner) => repeats(schema, lists.inside(schema, keyword), inner),
        _ => false,
    }
}

/// Whether these elements of a list do, where no two of them may be equal.
fn repeats_here(lists: Lists<'_>, alloc: Global, elements: &[Param<'_>]) -> bool
    ensures { IsTrue result ↔ ((is_unique lists.entry ≡ true) × HasTwice (names_of elements.now)) }
{
    lists.is_unique() && repeats_name(alloc, elements)
}

/// Whether a list may stand in the parameter.
pub(crate) fn may_have_list(param: &Param<'_>) -> bool
    ensures { result ≡ false → (s : Declared) (x : Expr) → ¬ (Repeats s x (plain param.now)) }
{
    matches!(param, Param::Items(_) | Param::Typed(_, _))
}
