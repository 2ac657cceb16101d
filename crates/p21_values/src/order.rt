//! The order of values.

ghost use Rattle.std.specs.Prelude.{◌≡◌, MatchResult, option_map};
ghost use Rattle.std.specs.Ordering.{float_partial_cmp, nat_cmp, ordering_reverse};
ghost use Rattle.p21_values.specs.Ends.{ClaimsNothing};
ghost use Rattle.p21_values.specs.Numbers.{exact};
ghost use Rattle.p21_values.specs.Order.{order_of, place_order, rank_of};
ghost use Rattle.p21_values.specs.Plain.{bare, plain};

use crate::kind::ItemPlace;
use crate::numbers::integer_order;
use crate::stop::Stop;
use crate::truth::Truth;
use crate::value::Value;
use std::cmp::Ordering;

impl<'a> Value<'a> {
    /// The order of two values, their defined types aside: numbers by value, texts and binaries character by character, truths, and items
    /// of one enumeration by their places. Other values have none. An error claims nothing.
    pub fn order(&self, other: &Value) -> Result<Option<Ordering>, Stop>
        ensures { MatchResult result (λ o. o ≡ order_of (bare (plain self.now)) (bare (plain other.now))) ClaimsNothing }
    {
        bare_order(self.bare(), other.bare())
    }
}

/// The same, for values without defined types.
pub(crate) fn bare_order(a: &Value, b: &Value) -> Result<Option<Ordering>, Stop>
    ensures { MatchResult result (λ o. o ≡ order_of (plain a.now) (plain b.now)) ClaimsNothing }
{
    match (a, b) {
        (Value::Logical(v), Value::Logical(w)) => Ok(Some(truth_order(*v, *w))),
        (Value::Integer(v), Value::Integer(w)) => Ok(Some(v.cmp(w))),
        (Value::Integer(v), Value::Real(w)) => integer_order(*v, *w),
        (Value::Real(v), Value::Integer(w)) => reversed_integer_order(*v, *w),
        (Value::Real(v), Value::Real(w)) => Ok(v.partial_cmp(w)),
        (Value::Text(v), Value::Text(w)) => Ok(Some(v.order(w))),
        (Value::Binary(v), Value::Binary(w)) => Ok(Some(v.order(w))),
        (Value::Enumerated(v), Value::Enumerated(w)) => Ok(place_order(v.place, w.place)),
        _ => Ok(None),
    }
}

fn truth_order(v: Truth, w: Truth) -> Ordering
    ensures { result ≡ nat_cmp (rank_of v) (rank_of w) }
{
    v.rank().cmp(&w.rank())
}

fn reversed_integer_order(x: f64, n: i64) -> Result<Option<Ordering>, Stop>
    ensures { MatchResult result (λ o. o ≡ option_map ordering_reverse (float_partial_cmp (exact n) x)) ClaimsNothing }
{
    match integer_order(n, x)? {
        None => Ok(None),
        Some(order) => Ok(Some(order.reverse())),
    }
}

fn place_order(p: Option<ItemPlace>, q: Option<ItemPlace>) -> Option<Ordering>
    ensures { result ≡ place_order p q }
{
    match (p, q) {
        (Some(p), Some(q)) if p.enumeration == q.enumeration => Some(p.item.cmp(&q.item)),
        _ => None,
    }
}
