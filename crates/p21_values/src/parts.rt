//! Parts of values: elements, characters and bits.

ghost use Rattle.std.specs.Prelude.{◌≡◌, IfOk, MatchResult, length, map, slice_index_or};
ghost use Rattle.p21_values.specs.Ends.{ClaimsNothing};
ghost use Rattle.p21_values.specs.Parts.{at_index, bits_part, element_at, index_bare, index_of, is_outside, part_between, range_bare, range_of, range_to, text_part};
ghost use Rattle.p21_values.specs.Plain.{codes, nothing, plain};

use crate::characters::Characters;
use crate::stop::{Budget, Stop};
use crate::value::Value;
use std::alloc::{AllocError, Global};

/// The index `[i]` of an aggregate, a text or a binary. It is `?` where there is no such element. An error says that memory ran out.
pub fn index<'a>(alloc: Global, value: &Value<'a>, at: &Value) -> Result<Value<'a>, AllocError>
    ensures { IfOk result (λ v. plain v ≡ index_of (plain value.now) (plain at.now)) }
{
    index_bare(alloc, value.bare(), at.bare())
}

fn index_bare<'a>(alloc: Global, value: &Value<'a>, at: &Value) -> Result<Value<'a>, AllocError>
    ensures { IfOk result (λ v. plain v ≡ index_bare (plain value.now) (plain at.now)) }
{
    match at {
        Value::Integer(at) => at_index(alloc, value, *at),
        _ => Ok(Value::Indeterminate),
    }
}

fn at_index<'a>(alloc: Global, value: &Value<'a>, at: i64) -> Result<Value<'a>, AllocError>
    ensures { IfOk result (λ v. plain v ≡ at_index (plain value.now) at) }
{
    match value {
        Value::Aggregate(kind, values) => element_at(values, kind.first_index(), at),
        _ => part_between(alloc, value, at, at),
    }
}

/// The element at an index, where the first has a given index.
fn element_at<'a>(values: &[Value<'a>], first: i64, at: i64) -> Result<Value<'a>, AllocError>
    ensures { IfOk result (λ v. plain v ≡ element_at (map plain values.now) first at) }
{
    if at < first {
        return Ok(Value::Indeterminate);
    }
    element(values, at.abs_diff(first) as usize)
}

fn element<'a>(values: &[Value<'a>], place: usize) -> Result<Value<'a>, AllocError>
    ensures { IfOk result (λ v. plain v ≡ slice_index_or (map plain values.now) place nothing) }
{
    if place < values.len() {
        values[place].share()
    } else {
        Ok(Value::Indeterminate)
    }
}

/// The part `[i:j]` of a text or a binary, whose characters count from 1. It is `?` where there are none such. An error claims nothing.
pub fn range<'a>(
    value: &Value,
    from: &Value,
    to: &Value,
    budget: &mut Budget,
) -> Result<Value<'a>, Stop>
    ensures { MatchResult result (λ v. plain v ≡ range_of (plain value.now) (plain from.now) (plain to.now)) ClaimsNothing }
{
    let value = value.bare();
    budget.take_copies(value.characters())?;
    Ok(range_bare(budget.alloc(), value, from.bare(), to.bare())?)
}

fn range_bare<'a>(
    alloc: Global,
    value: &Value,
    from: &Value,
    to: &Value,
) -> Result<Value<'a>, AllocError>
    ensures { IfOk result (λ v. plain v ≡ range_bare (plain value.now) (plain from.now) (plain to.now)) }
{
    match (from, to) {
        (Value::Integer(from), Value::Integer(to)) => part_between(alloc, value, *from, *to),
        _ => Ok(Value::Indeterminate),
    }
}

fn part_between<'a>(
    alloc: Global,
    value: &Value,
    from: i64,
    to: i64,
) -> Result<Value<'a>, AllocError>
    ensures { IfOk result (λ v. plain v ≡ part_between (plain value.now) from to) }
{
    match value {
        Value::Text(text) => text_part(alloc, text, from, to),
        Value::Binary(bits) => bits_part(alloc, bits, from, to),
        _ => Ok(Value::Indeterminate),
    }
}

fn text_part<'a>(
    alloc: Global,
    text: &Characters,
    from: i64,
    to: i64,
) -> Result<Value<'a>, AllocError>
    ensures { IfOk result (λ v. plain v ≡ text_part (codes text.now) from to) }
{
    if is_outside(text.len(), from, to) {
        return Ok(Value::Indeterminate);
    }
    Ok(Value::Text(text.part(
        alloc,
        from.unsigned_abs() as usize - 1,
        to.unsigned_abs() as usize,
    )?))
}

fn bits_part<'a>(
    alloc: Global,
    bits: &Characters,
    from: i64,
    to: i64,
) -> Result<Value<'a>, AllocError>
    ensures { IfOk result (λ v. plain v ≡ bits_part (codes bits.now) from to) }
{
    if is_outside(bits.len(), from, to) {
        return Ok(Value::Indeterminate);
    }
    Ok(Value::Binary(bits.part(
        alloc,
        from.unsigned_abs() as usize - 1,
        to.unsigned_abs() as usize,
    )?))
}

/// Whether a part is none: the first place is below 1, the last is before the first, or beyond the end.
fn is_outside(length: usize, from: i64, to: i64) -> bool
    ensures { result ≡ is_outside length from to }
{
    from < 1 || to < from || length < to.unsigned_abs() as usize
}
