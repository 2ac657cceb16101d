//! Parameters by their places.

ghost use Rattle.std.specs.Prelude.{◌≡◌, ◌↔◌, None, Some, IfSome, IsTrue, MatchOption};
ghost use Rattle.p21_tree.specs.Bodies.{AllHaveBodies, HasBodies};
ghost use Rattle.p21_tree.specs.Plain.{plain, plain_all};
ghost use Rattle.p21_json.specs.Where.{Where, IsLogicalAt};
ghost use Rattle.p21_query.specs.Path.{at_path, behind, IsFoundAt, IsFoundBehind};

use p21_json::Terms;
use p21_tree::Param;
use std::slice::from_ref;

/// A parameter that was found by its place.
#[derive(Clone, Copy, Debug)]
pub struct Found<'p, 'a> {
    /// The parameter.
    pub param: &'p Param<'a>,
    /// Whether an enumeration there is a value of BOOLEAN or LOGICAL.
    pub logical: bool,
}

/// The parameter at a path: the first number is a place in the list, and each further one a place in the list that stands there, or 0 in the
/// typed parameter that stands there. `None` where nothing stands there. `logical` says whether enumerations in the list are values of BOOLEAN
/// or LOGICAL.
#[cycle(path)]
pub fn parameter_at<'p, 'a>(
    terms: &Terms<'_>,
    params: &'p [Param<'a>],
    logical: bool,
    path: &[u64],
) -> Option<Found<'p, 'a>>
    requires { AllHaveBodies params.now }
    // Strings and binaries in it are the bodies of such.
    ensures bodies { IfSome result (λ found. HasBodies (plain found.param.now)) }
    // If the caller says rightly of the list whether enumerations in it are values of BOOLEAN or LOGICAL: the
    // parameter at the path, and whether it is such a value; none exactly where nothing is there.
    ensures found { (w : Where) → (IsTrue logical ↔ IsLogicalAt terms.now w) → MatchOption result (at_path w (plain_all params.entry.now) path.now ≡ None) (λ found. IsFoundAt terms.now w (plain_all params.entry.now) path.now (plain found.param.now) found.logical) }
{
    let (first, rest) = path.split_first()?;
    let place = *first as usize;
    if place >= params.len() {
        return None;
    }
    behind(terms, &params[place], logical, rest)
}

/// What stands at the rest of a path, where this parameter stands at its beginning.
#[cycle(path)]
fn behind<'p, 'a>(
    terms: &Terms<'_>,
    param: &'p Param<'a>,
    logical: bool,
    path: &[u64],
) -> Option<Found<'p, 'a>>
    requires { HasBodies (plain param.now) }
    ensures bodies { IfSome result (λ found. HasBodies (plain found.param.now)) }
    ensures found { (w : Where) → (IsTrue logical ↔ IsLogicalAt terms.now w) → MatchOption result (behind w (Some (plain param.entry.now)) path.now ≡ None) (λ found. IsFoundBehind terms.now w (plain param.entry.now) path.now (plain found.param.now) found.logical) }
{
    if path.is_empty() {
        return Some(Found { param, logical });
    }
    match param {
        Param::Items(items) => parameter_at(terms, items, logical, path),
        Param::Typed(keyword, inner) => {
            parameter_at(terms, from_ref(inner), terms.is_logical(keyword), path)
        }
        Param::Absent => None,
        Param::Derived => None,
        Param::Int(_) => None,
        Param::Real(_) => None,
        Param::Str(_) => None,
        Param::Enumeration(_) => None,
        Param::Binary(_) => None,
        Param::Ref(_) => None,
    }
}
