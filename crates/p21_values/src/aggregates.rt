//! What is asked of an aggregate.

ghost use Rattle.std.specs.Prelude.{◌≡◌, ◌<◌, ◌^◌, ◌+ℤ◌, ◌-ℤ◌, MatchResult, map, pos};
ghost use Rattle.p21_values.specs.Aggregates.{any_of, first_index, high_index_of, in_of, low_index_of, not_known, size_of};
ghost use Rattle.p21_values.specs.Arithmetic.{integer_of};
ghost use Rattle.p21_values.specs.Ends.{ClaimsNothing, Gives};
ghost use Rattle.p21_values.specs.Plain.{plain};
ghost use Rattle.p21_values.specs.Same.{same_of};

use crate::instances::Instances;
use crate::kind::Kind;
use crate::stop::{Budget, Stop};
use crate::truth::Truth;
use crate::value::Value;

/// IN, for values without defined types: whether one of the elements is the same.
pub(crate) fn contains<I: Instances>(
    aggregate: &Value,
    value: &Value,
    instances: &I,
    budget: &mut Budget,
) -> Result<Truth, Stop>
    ensures { I.known instances.now → MatchResult result (λ t. t ≡ in_of (I.same instances.now) (plain value.now) (plain aggregate.now)) ClaimsNothing }
{
    match aggregate {
        Value::Aggregate(_, values) => Ok(not_known(value).or(any_same(
            value, values, instances, budget,
        )?)),
        _ => Ok(Truth::Unknown),
    }
}

pub(crate) fn not_known(value: &Value) -> Truth
    ensures { result ≡ not_known (plain value.now) }
{
    match value {
        Value::Indeterminate => Truth::Unknown,
        _ => Truth::False,
    }
}

/// Whether one of the values is the same. The search ends at the first.
pub(crate) fn any_same<I: Instances>(
    value: &Value,
    values: &[Value],
    instances: &I,
    budget: &mut Budget,
) -> Result<Truth, Stop>
    ensures { I.known instances.now → MatchResult result (λ t. t ≡ any_of (same_of (I.same instances.now) (plain value.now)) (map plain values.now)) ClaimsNothing }
{
    let mut any = Truth::False;
    for other in values {
        any = any.or(value.same(other, instances, budget)?);
        if any.is_true() {
            return Ok(any);
        }
    }
    Ok(any)
}

/// SIZEOF, for a value without defined types.
pub(crate) fn size<'a>(value: &Value) -> Value<'a>
    ensures { plain result ≡ size_of (plain value.now) }
{
    match value {
        Value::Aggregate(_, values) => Value::Integer(values.len() as i64),
        _ => Value::Indeterminate,
    }
}

impl Kind {
    /// The index of the first element: an array has its own, and others begin at 1.
    pub fn first_index(self) -> i64
        ensures { result ≡ first_index self }
    {
        match self {
            Kind::Array(index) => index,
            _ => 1,
        }
    }
}

/// LOINDEX, for a value without defined types.
pub(crate) fn low_index<'a>(value: &Value) -> Value<'a>
    ensures { plain result ≡ low_index_of (plain value.now) }
{
    match value {
        Value::Aggregate(kind, _) => Value::Integer(kind.first_index()),
        _ => Value::Indeterminate,
    }
}

/// HIINDEX, for a value without defined types.
pub(crate) fn high_index<'a>(value: &Value) -> Result<Value<'a>, Stop>
    ensures { Gives result (high_index_of (plain value.now)) }
{
    match value {
        Value::Aggregate(kind, values) => last_index(kind.first_index(), values.len()),
        _ => Ok(Value::Indeterminate),
    }
}

/// The last of so many indices.
fn last_index<'a>(first: i64, count: usize) -> Result<Value<'a>, Stop>
    requires { count < 2 ^ 63 }
    ensures { Gives result (integer_of (first +ℤ (pos count -ℤ pos 1))) }
{
    match first.checked_add(count as i64 - 1) {
        Some(index) => Ok(Value::Integer(index)),
        None => Err(Stop::NotComputed),
    }
}
