//! When two values are the same.

ghost use Rattle.std.specs.Prelude.{◌≡◌, ◌<◌, IfOk, IfSome, MatchResult, Some, None, length, map};
ghost use Rattle.std.specs.List.{position_from};
ghost use Rattle.std.specs.Float.Ieee;
ghost use Rattle.p21_values.specs.Ends.{ClaimsNothing};
ghost use Rattle.p21_values.specs.Logic.{truth_eq, truth_of};
ghost use Rattle.p21_values.specs.Numbers.{exact};
ghost use Rattle.p21_values.specs.Plain.{codes, plain, plain_all};
ghost use Rattle.p21_values.specs.Same.{AreBelow, at_places, chosen, compared, counted_same, first_of, ordered_same, partner, same_of, same_text};

use crate::characters::Characters;
use crate::instances::Instances;
use crate::kind::Comparison;
use crate::numbers::is_integer;
use crate::stop::{Budget, Stop};
use crate::truth::Truth;
use crate::value::Value;
use std::alloc::{AllocError, Global};
use std::cmp::Ordering;

/// How deep aggregates and values of defined types may be nested where values are compared.
pub(crate) const DEEPEST: usize = 64;

impl<'a> Value<'a> {
    /// Whether two values are the same, their defined types aside: the comparison `=` by the given comparison of instances, and `:=:` by
    /// place. It is UNKNOWN where one is `?`. An error claims nothing.
    ///
    /// Sets and bags take a step for each pair of their elements.
    pub fn same<I: Instances>(
        &self,
        other: &Value,
        instances: &I,
        budget: &mut Budget,
    ) -> Result<Truth, Stop>
        ensures { I.known instances.now → MatchResult result (λ t. t ≡ same_of (I.same instances.now) (plain self.now) (plain other.now)) ClaimsNothing }
    {
        same(self, other, instances, DEEPEST, budget)
    }
}

/// The same, for values in which at most `depth` are nested.
#[cycle(same)]
#[tactic(auto, using(crate::proofs::SameLemmas::same_typed, crate::proofs::SameLemmas::same_nothing))]
fn same<I: Instances>(
    a: &Value,
    b: &Value,
    instances: &I,
    depth: usize,
    budget: &mut Budget,
) -> Result<Truth, Stop>
    ensures { I.known instances.now → MatchResult result (λ t. t ≡ same_of (I.same instances.now) (plain a.now) (plain b.now)) ClaimsNothing }
{
    budget.take()?;
    if depth == 0 {
        return Err(Stop::Limit);
    }
    match (a, b) {
        (Value::Typed(_, v), _) => same(v, b, instances, depth - 1, budget),
        (_, Value::Typed(_, w)) => same(a, w, instances, depth - 1, budget),
        (Value::Indeterminate, _) | (_, Value::Indeterminate) => Ok(Truth::Unknown),
        (Value::Logical(v), Value::Logical(w)) => Ok(same_truth(*v, *w)),
        (Value::Integer(v), Value::Integer(w)) => Ok(Truth::of(*v == *w)),
        (Value::Integer(v), Value::Real(w)) => same_numbers(*v, *w),
        (Value::Real(v), Value::Integer(w)) => same_numbers(*w, *v),
        (Value::Real(v), Value::Real(w)) => Ok(Truth::of(*v == *w)),
        (Value::Text(v), Value::Text(w)) => same_characters(v, w, budget),
        (Value::Binary(v), Value::Binary(w)) => same_characters(v, w, budget),
        (Value::Enumerated(v), Value::Enumerated(w)) => Ok(Truth::of(v.is_same(*w))),
        (Value::Instance(v), Value::Instance(w)) => instances.same(*v, *w, budget),
        (Value::Aggregate(k, vs), Value::Aggregate(l, ws)) => same_elements(
            k.comparison(*l),
            vs,
            ws,
            instances,
            depth - 1,
            budget,
        ),
        (Value::Made(f, vs), Value::Made(g, ws)) => same_elements(
            Comparison::of_entities(*f, *g),
            vs,
            ws,
            instances,
            depth - 1,
            budget,
        ),
        (Value::Made(_, _), Value::Instance(_)) => instances.made_with_placed(),
        (Value::Instance(_), Value::Made(_, _)) => instances.made_with_placed(),
        _ => Ok(Truth::False),
    }
}

fn same_truth(v: Truth, w: Truth) -> Truth
    ensures { result ≡ truth_of (truth_eq v w) }
{
    Truth::of(v == w)
}

fn same_numbers(n: i64, x: f64) -> Result<Truth, Stop>
    ensures { MatchResult result (λ t. t ≡ truth_of (Ieee.eq (exact n) x)) ClaimsNothing }
{
    Ok(Truth::of(is_integer(n, x)?))
}

fn same_characters(v: &Characters, w: &Characters, budget: &mut Budget) -> Result<Truth, Stop>
    ensures { MatchResult result (λ t. t ≡ truth_of (same_text (codes v.now) (codes w.now))) ClaimsNothing }
{
    budget.take_many(v.len().min(w.len()) / 64)?;
    Ok(Truth::of(v.order(w) == Ordering::Equal))
}

/// Whether two aggregates that are compared in a given way are the same.
#[cycle(same)]
fn same_elements<I: Instances>(
    how: Comparison,
    vs: &[Value],
    ws: &[Value],
    instances: &I,
    depth: usize,
    budget: &mut Budget,
) -> Result<Truth, Stop>
    ensures { I.known instances.now → MatchResult result (λ t. t ≡ compared how (length vs.now) (map plain ws.now) (ordered_same (I.same instances.now) (plain_all vs.now)) (counted_same (I.same instances.now) (plain_all vs.now))) ClaimsNothing }
{
    if vs.len() != ws.len() {
        return Ok(Truth::False);
    }
    match how {
        Comparison::Never => Ok(Truth::False),
        Comparison::InOrder => ordered_same(vs, ws, instances, depth, budget),
        Comparison::Counted => counted_same(vs, ws, instances, depth, budget),
    }
}

/// Whether each of the one is the same as the other's in its place.
#[cycle(same)]
fn ordered_same<I: Instances>(
    vs: &[Value],
    ws: &[Value],
    instances: &I,
    depth: usize,
    budget: &mut Budget,
) -> Result<Truth, Stop>
    requires { length vs.now ≡ length ws.now }
    ensures { I.known instances.now → MatchResult result (λ t. t ≡ ordered_same (I.same instances.now) (plain_all vs.now) (map plain ws.now)) ClaimsNothing }
{
    let mut all = Truth::True;
    for i in 0..vs.len() {
        all = all.and(same(&vs[i], &ws[i], instances, depth, budget)?);
    }
    Ok(all)
}

/// Whether each of the one has a partner of its own among the others.
#[cycle(same)]
fn counted_same<I: Instances>(
    vs: &[Value],
    ws: &[Value],
    instances: &I,
    depth: usize,
    budget: &mut Budget,
) -> Result<Truth, Stop>
    ensures { I.known instances.now → MatchResult result (λ t. t ≡ counted_same (I.same instances.now) (plain_all vs.now) (map plain ws.now)) ClaimsNothing }
{
    budget.take_copies(ws.len())?;
    let mut left = all_places(budget.alloc(), ws)?;
    let mut all = Truth::True;
    for v in vs {
        let Some(found) = partner(v, ws, &left, instances, depth, budget)? else {
            return Ok(Truth::False);
        };
        left.remove(found.0);
        all = all.and(found.1);
    }
    Ok(all)
}

/// Of the places that are left, the place of the first value that is the same, and else of the first that may be, with what is known of it.
///
/// It takes steps for the places too, since a caller takes one away.
#[cycle(same)]
pub(crate) fn partner<I: Instances>(
    v: &Value,
    ws: &[Value],
    left: &[usize],
    instances: &I,
    depth: usize,
    budget: &mut Budget,
) -> Result<Option<(usize, Truth)>, Stop>
    requires { AreBelow (length ws.now) left.now }
    ensures partner { I.known instances.now → MatchResult result (λ o. o ≡ partner (same_of (I.same instances.now) (plain v.now)) (at_places (map plain ws.now) left.now)) ClaimsNothing }
    ensures within { IfOk result (λ o. IfSome o (λ found. found.0 < length left.now)) }
{
    budget.take_many(left.len() / 64)?;
    let mut possible = None;
    for i in 0..left.len() {
        match same(v, &ws[left[i]], instances, depth, budget)? {
            Truth::True => return Ok(Some((i, Truth::True))),
            Truth::Unknown => possible = first_of(possible, i),
            Truth::False => {}
        }
    }
    Ok(possible_partner(possible))
}

/// The first of two places, of which the other is known.
fn first_of(found: Option<usize>, next: usize) -> Option<usize>
    ensures { result ≡ first_of found (Some next) }
{
    match found {
        Some(at) => Some(at),
        None => Some(next),
    }
}

fn possible_partner(found: Option<usize>) -> Option<(usize, Truth)>
    ensures { result ≡ chosen None found }
{
    match found {
        Some(at) => Some((at, Truth::Unknown)),
        None => None,
    }
}

/// The places of values, all of them.
pub(crate) fn all_places(alloc: Global, values: &[Value]) -> Result<Vec<usize>, AllocError>
    ensures { IfOk result (λ v. (at_places (map plain values.now) v.items ≡ map plain values.now) × AreBelow (length values.now) v.items) }
{
    let mut places = Vec::new(alloc);
    for at in 0..values.len() {
        places.push(at)?;
    }
    Ok(places)
}
