//! Aggregates with another element.

ghost use Rattle.std.specs.Prelude.{◌≡◌, IfOk, MatchResult, map};
ghost use Rattle.p21_values.specs.Elements.{grows, with_at, with_element, with_element_of, with_index, with_place};
ghost use Rattle.p21_values.specs.Ends.{ClaimsNothing};
ghost use Rattle.p21_values.specs.Plain.{plain, several};
ghost use Rattle.p21_values.specs.Sets.{vals};

use crate::kind::Kind;
use crate::nested::take_value;
use crate::same::DEEPEST;
use crate::sets::{add_all, elements};
use crate::stop::{Budget, Stop};
use crate::value::Value;
use std::alloc::{AllocError, Global};
use std::rc::Rc;

/// An aggregate with another element at an index, as an assignment to an element leaves it. It is `?` where it was no aggregate. An error
/// claims nothing: memory or the steps ran out, or the element is nested too deeply.
pub fn with_element<'a>(
    aggregate: &Value<'a>,
    at: &Value,
    element: &Value<'a>,
    budget: &mut Budget,
) -> Result<Value<'a>, Stop>
    ensures { MatchResult result (λ v. plain v ≡ with_element_of (plain aggregate.now) (plain at.now) (plain element.now)) ClaimsNothing }
{
    let aggregate = aggregate.bare();
    budget.take_copies(elements(aggregate).len())?;
    take_value(element, DEEPEST, budget)?;
    Ok(with_bare(budget.alloc(), aggregate, at.bare(), element)?)
}

fn with_bare<'a>(
    alloc: Global,
    aggregate: &Value<'a>,
    at: &Value,
    element: &Value<'a>,
) -> Result<Value<'a>, AllocError>
    ensures { IfOk result (λ v. plain v ≡ with_element (plain aggregate.now) (plain at.now) (plain element.now)) }
{
    match aggregate {
        Value::Aggregate(kind, values) => with_index(alloc, *kind, values, at, element),
        _ => Ok(Value::Indeterminate),
    }
}

fn with_index<'a>(
    alloc: Global,
    kind: Kind,
    values: &[Value<'a>],
    at: &Value,
    element: &Value<'a>,
) -> Result<Value<'a>, AllocError>
    ensures { IfOk result (λ v. plain v ≡ several kind (vals (with_index kind (map plain values.now) (plain at.now) (plain element.now)))) }
{
    let mut found = Vec::new(alloc);
    add_all(&mut found, values)?;
    put(&mut found, kind, at, element)?;
    aggregate(alloc, kind, found)
}

fn aggregate<'a>(alloc: Global, kind: Kind, values: Vec<Value<'a>>) -> Result<Value<'a>, AllocError>
    ensures { IfOk result (λ v. plain v ≡ several kind (vals (map plain values.entry.items))) }
{
    match Rc::new(alloc, values) {
        Ok(values) => Ok(Value::Aggregate(kind, values)),
        Err(full) => Err(full.into()),
    }
}

fn put<'a>(
    found: &mut Vec<Value<'a>>,
    kind: Kind,
    at: &Value,
    element: &Value<'a>,
) -> Result<(), AllocError>
    ensures { IfOk result (λ _. map plain found.new.items ≡ with_index kind (map plain found.old.items) (plain at.now) (plain element.now)) }
{
    match at {
        Value::Integer(at) => put_at(found, kind, *at, element),
        _ => Ok(()),
    }
}

fn put_at<'a>(
    found: &mut Vec<Value<'a>>,
    kind: Kind,
    at: i64,
    element: &Value<'a>,
) -> Result<(), AllocError>
    ensures { IfOk result (λ _. map plain found.new.items ≡ with_at kind (map plain found.old.items) at (plain element.now)) }
{
    let first = kind.first_index();
    if at < first {
        return Ok(());
    }
    put_place(found, kind.grows(), at.abs_diff(first) as usize, element)
}

fn put_place<'a>(
    found: &mut Vec<Value<'a>>,
    grows: bool,
    place: usize,
    element: &Value<'a>,
) -> Result<(), AllocError>
    ensures { IfOk result (λ _. map plain found.new.items ≡ with_place grows (map plain found.old.items) place (plain element.now)) }
{
    let element = element.share()?;
    if place < found.len() {
        found[place] = element;
        return Ok(());
    }
    if grows && place == found.len() {
        found.push(element)?;
    }
    Ok(())
}

impl Kind {
    /// Whether an assignment behind the last element adds one.
    fn grows(self) -> bool
        ensures { result ≡ grows self }
    {
        match self {
            Kind::Array(_) => false,
            _ => true,
        }
    }
}
