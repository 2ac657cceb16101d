//! Operators of aggregates.

ghost use Rattle.std.specs.Prelude.{◌≡◌, ◌++◌, ◌∷◌, [], IfOk, MatchResult, length, map};
ghost use Rattle.p21_values.specs.Ends.{ClaimsNothing};
ghost use Rattle.p21_values.specs.Plain.{plain, several};
ghost use Rattle.p21_values.specs.Same.{AreBelow, at_places};
ghost use Rattle.p21_values.specs.Sets.{added, collected_of, counted_kind, difference_of, elements_of, intersection_of, kind_of, same_at, subset_of, sum_of, sure, union_of, vals};

use crate::aggregates::{any_same, not_known};
use crate::arithmetic::Arithmetic;
use crate::instances::ByPlace;
use crate::kind::Kind;
use crate::same::{DEEPEST, all_places, partner};
use crate::stop::{Budget, Stop};
use crate::truth::Truth;
use crate::value::Value;
use std::alloc::AllocError;
use std::rc::Rc;
use std::slice::from_ref;

/// Adds values to others.
pub(crate) fn add_all<'a>(
    found: &mut Vec<Value<'a>>,
    values: &[Value<'a>],
) -> Result<(), AllocError>
    ensures { IfOk result (λ _. map plain found.new.items ≡ map plain found.old.items ++ map plain values.now) }
{
    for value in values {
        found.push(value.share()?)?;
    }
    Ok(())
}

/// The union: the elements of the one, and those of the other that are not there yet.
pub(crate) fn union<'a>(
    xs: &[Value<'a>],
    ys: &[Value<'a>],
    budget: &mut Budget,
) -> Result<Vec<Value<'a>>, Stop>
    ensures { MatchResult result (λ v. map plain v.items ≡ union_of (map plain xs.now) (map plain ys.now)) ClaimsNothing }
{
    budget.take_copies(xs.len())?;
    let mut found = Vec::new(budget.alloc());
    add_all(&mut found, xs)?;
    for y in ys {
        add_new(&mut found, y, budget)?;
    }
    Ok(found)
}

/// Adds a value to a set that has it not.
fn add_new<'a>(
    found: &mut Vec<Value<'a>>,
    value: &Value<'a>,
    budget: &mut Budget,
) -> Result<(), Stop>
    ensures { MatchResult result (λ _. map plain found.new.items ≡ added (map plain found.old.items) (plain value.now)) ClaimsNothing }
{
    if any_same(value, &found[..], &ByPlace, budget)?.is_true() {
        return Ok(());
    }
    push_shared(found, value)?;
    Ok(())
}

fn push_shared<'a>(found: &mut Vec<Value<'a>>, value: &Value<'a>) -> Result<(), AllocError>
    ensures { IfOk result (λ _. map plain found.new.items ≡ map plain found.old.items ++ plain value.now ∷ []) }
{
    found.push(value.share()?)?;
    Ok(())
}

/// Of the places that are left, the place of one that is surely the same.
fn same_at(
    value: &Value,
    values: &[Value],
    left: &[usize],
    budget: &mut Budget,
) -> Result<Option<usize>, Stop>
    requires { AreBelow (length values.now) left.now }
    ensures { MatchResult result (λ o. o ≡ same_at (plain value.now) (at_places (map plain values.now) left.now)) ClaimsNothing }
{
    Ok(sure(partner(value, values, left, &ByPlace, DEEPEST, budget)?))
}

fn sure(found: Option<(usize, Truth)>) -> Option<usize>
    ensures { result ≡ sure found }
{
    match found {
        Some(found) if found.1.is_true() => Some(found.0),
        _ => None,
    }
}

/// The values at places.
fn gathered<'a>(
    values: &[Value<'a>],
    places: &[usize],
    budget: &Budget,
) -> Result<Vec<Value<'a>>, AllocError>
    requires { AreBelow (length values.now) places.now }
    ensures { IfOk result (λ v. map plain v.items ≡ at_places (map plain values.now) places.now) }
{
    let mut found = Vec::new(budget.alloc());
    for place in places {
        push_shared(&mut found, &values[*place])?;
    }
    Ok(found)
}

/// The difference: each element of the other takes one of the same away.
pub(crate) fn difference<'a>(
    xs: &[Value<'a>],
    ys: &[Value<'a>],
    budget: &mut Budget,
) -> Result<Vec<Value<'a>>, Stop>
    ensures { MatchResult result (λ v. map plain v.items ≡ difference_of (map plain xs.now) (map plain ys.now)) ClaimsNothing }
{
    budget.take_copies(xs.len())?;
    let mut left = all_places(budget.alloc(), xs)?;
    for y in ys {
        if let Some(at) = same_at(y, xs, &left, budget)? {
            left.remove(at);
        }
    }
    Ok(gathered(xs, &left, budget)?)
}

/// The intersection: each element of the one that has one of its own in the other.
pub(crate) fn intersection<'a>(
    xs: &[Value<'a>],
    ys: &[Value<'a>],
    budget: &mut Budget,
) -> Result<Vec<Value<'a>>, Stop>
    ensures { MatchResult result (λ v. map plain v.items ≡ intersection_of (map plain xs.now) (map plain ys.now)) ClaimsNothing }
{
    budget.take_copies(ys.len())?;
    let mut left = all_places(budget.alloc(), ys)?;
    let mut found = Vec::new(budget.alloc());
    for x in xs {
        if let Some(at) = same_at(x, ys, &left, budget)? {
            left.remove(at);
            push_shared(&mut found, x)?;
        }
    }
    Ok(found)
}

/// Whether each element of the one has one of its own in the other.
pub(crate) fn subset(xs: &[Value], ys: &[Value], budget: &mut Budget) -> Result<Truth, Stop>
    ensures { MatchResult result (λ t. t ≡ subset_of (map plain xs.now) (map plain ys.now)) ClaimsNothing }
{
    budget.take_copies(ys.len())?;
    let mut left = all_places(budget.alloc(), ys)?;
    let mut all = Truth::True;
    for x in xs {
        match partner(x, ys, &left, &ByPlace, DEEPEST, budget)? {
            Some(found) if found.1.is_true() => {
                left.remove(found.0);
            }
            Some(_) => all = all.and(Truth::Unknown),
            None => all = all.and(not_known(x)),
        }
    }
    Ok(all)
}

/// The kind of the first of two values that is an aggregate, where none of the two is `?`.
pub(crate) fn kind_of(v: &Value, w: &Value) -> Option<Kind>
    ensures { result ≡ kind_of (plain v.now) (plain w.now) }
{
    match (v, w) {
        (Value::Indeterminate, _) | (_, Value::Indeterminate) => None,
        (Value::Aggregate(kind, _), _) | (_, Value::Aggregate(kind, _)) => Some(*kind),
        _ => None,
    }
}

/// The elements of an aggregate; another value is an element itself.
pub(crate) fn elements<'b, 'a>(value: &'b Value<'a>) -> &'b [Value<'a>]
    ensures { map plain result.now ≡ elements_of (plain value.entry.now) }
{
    match value {
        Value::Aggregate(_, values) => values,
        _ => from_ref(value),
    }
}

/// An operator of aggregates, of which the first has a kind.
pub(crate) fn collected<'a>(
    op: Arithmetic,
    kind: Kind,
    xs: &[Value<'a>],
    ys: &[Value<'a>],
    budget: &mut Budget,
) -> Result<Value<'a>, Stop>
    ensures { MatchResult result (λ v. plain v ≡ collected_of op kind (map plain xs.now) (map plain ys.now)) ClaimsNothing }
{
    match op {
        Arithmetic::Add => sum(kind, xs, ys, budget),
        Arithmetic::Subtract => made(counted(kind), difference(xs, ys, budget)?, budget),
        Arithmetic::Multiply => made(counted(kind), intersection(xs, ys, budget)?, budget),
        Arithmetic::Divide => Ok(Value::Indeterminate),
    }
}

/// `+` of aggregates: the union of sets; bags and lists are put one after the other.
fn sum<'a>(
    kind: Kind,
    xs: &[Value<'a>],
    ys: &[Value<'a>],
    budget: &mut Budget,
) -> Result<Value<'a>, Stop>
    ensures { MatchResult result (λ v. plain v ≡ sum_of kind (map plain xs.now) (map plain ys.now)) ClaimsNothing }
{
    match kind {
        Kind::Set => made(Kind::Set, union(xs, ys, budget)?, budget),
        Kind::Bag => made(Kind::Bag, joined(xs, ys, budget)?, budget),
        _ => made(Kind::List, joined(xs, ys, budget)?, budget),
    }
}

/// The values of both, one after the other.
fn joined<'a>(
    xs: &[Value<'a>],
    ys: &[Value<'a>],
    budget: &mut Budget,
) -> Result<Vec<Value<'a>>, Stop>
    ensures { MatchResult result (λ v. map plain v.items ≡ map plain xs.now ++ map plain ys.now) ClaimsNothing }
{
    budget.take_copies(xs.len())?;
    budget.take_copies(ys.len())?;
    let mut found = Vec::new(budget.alloc());
    add_all(&mut found, xs)?;
    add_all(&mut found, ys)?;
    Ok(found)
}

fn counted(kind: Kind) -> Kind
    ensures { result ≡ counted_kind kind }
{
    match kind {
        Kind::Bag => Kind::Bag,
        _ => Kind::Set,
    }
}

/// An aggregate of values.
fn made<'a>(kind: Kind, values: Vec<Value<'a>>, budget: &Budget) -> Result<Value<'a>, Stop>
    ensures { MatchResult result (λ v. plain v ≡ several kind (vals (map plain values.entry.items))) ClaimsNothing }
{
    match Rc::new(budget.alloc(), values) {
        Ok(values) => Ok(Value::Aggregate(kind, values)),
        Err(_) => Err(Stop::Memory),
    }
}
