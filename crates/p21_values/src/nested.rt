//! How deep values are nested. Whatever makes a value of others sees to it that few are, since a value is dropped by a recursion.

ghost use Rattle.std.specs.Prelude.{◌≡◌, MatchResult, map};
ghost use Rattle.p21_values.specs.Ends.{ClaimsNothing};
ghost use Rattle.p21_values.specs.Plain.{made, plain, several, typed};
ghost use Rattle.p21_values.specs.Sets.{vals};

use crate::kind::Kind;
use crate::same::DEEPEST;
use crate::stop::{Budget, Stop};
use crate::value::Value;
use std::rc::Rc;

/// An aggregate of values. An error claims nothing: memory or the steps ran out, or the values are nested too deeply.
pub fn aggregate<'a>(
    kind: Kind,
    values: Vec<Value<'a>>,
    budget: &mut Budget,
) -> Result<Value<'a>, Stop>
    ensures { MatchResult result (λ v. plain v ≡ several kind (vals (map plain values.entry.items))) ClaimsNothing }
{
    take_each(&values, DEEPEST, budget)?;
    match Rc::new(budget.alloc(), values) {
        Ok(values) => Ok(Value::Aggregate(kind, values)),
        Err(_) => Err(Stop::Memory),
    }
}

/// An instance of an entity with these values of its explicit attributes. An error claims nothing, as with an aggregate.
pub fn made<'a>(entity: u32, values: Vec<Value<'a>>, budget: &mut Budget) -> Result<Value<'a>, Stop>
    ensures { MatchResult result (λ v. plain v ≡ made entity (vals (map plain values.entry.items))) ClaimsNothing }
{
    take_each(&values, DEEPEST, budget)?;
    match Rc::new(budget.alloc(), values) {
        Ok(values) => Ok(Value::Made(entity, values)),
        Err(_) => Err(Stop::Memory),
    }
}

/// A value of a defined type. An error claims nothing, as with an aggregate.
pub fn typed<'a>(defined: u32, value: Value<'a>, budget: &mut Budget) -> Result<Value<'a>, Stop>
    ensures { MatchResult result (λ v. plain v ≡ typed defined (plain value.entry)) ClaimsNothing }
{
    take_value(&value, DEEPEST, budget)?;
    match Rc::new(budget.alloc(), value) {
        Ok(value) => Ok(Value::Typed(defined, value)),
        Err(_) => Err(Stop::Memory),
    }
}

/// Takes steps for values and for those in them, and ends where more than `depth` are nested.
#[cycle(take)]
fn take_each(values: &[Value], depth: usize, budget: &mut Budget) -> Result<(), Stop>
    ensures { MatchResult result (λ _. Unit {0}) ClaimsNothing }
{
    budget.take_copies(values.len())?;
    for value in values {
        take_value(value, depth, budget)?;
    }
    Ok(())
}

/// Takes steps for the values in a value, and ends where more than `depth` are nested.
#[cycle(take)]
pub(crate) fn take_value(value: &Value, depth: usize, budget: &mut Budget) -> Result<(), Stop>
    ensures { MatchResult result (λ _. Unit {0}) ClaimsNothing }
{
    if depth == 0 {
        return Err(Stop::Limit);
    }
    match value {
        Value::Typed(_, inner) => {
            budget.take()?;
            take_value(inner, depth - 1, budget)
        }
        Value::Aggregate(_, values) | Value::Made(_, values) => {
            budget.take()?;
            take_each(values, depth - 1, budget)
        }
        _ => Ok(()),
    }
}
