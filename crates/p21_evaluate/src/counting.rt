//! The turns of a loop.

ghost use Rattle.std.specs.Prelude.{◌≡◌, MatchResult};
ghost use Rattle.p21_values.specs.Ends.{ClaimsNothing};
ghost use Rattle.p21_values.specs.Plain.{plain};
ghost use Rattle.p21_evaluate.specs.Ends.{GivesPlace};
ghost use Rattle.p21_evaluate.specs.Meaning.{count_of, span_bare, stepped_bare, stepped_of};

use p21_values::{Stop, Value};

/// How many turns a loop has from a value to another by steps. Limit says that they are too many to be run through.
pub(crate) fn count(first: &Value, last: &Value, step: &Value) -> Result<usize, Stop>
    ensures { GivesPlace result (count_of (plain first.now) (plain last.now) (plain step.now)) }
{
    span(first.bare(), last.bare(), step.bare())
}

fn span(first: &Value, last: &Value, step: &Value) -> Result<usize, Stop>
    ensures { GivesPlace result (span_bare (plain first.now) (plain last.now) (plain step.now)) }
{
    match (first, last, step) {
        (Value::Integer(_), Value::Integer(_), Value::Integer(0)) => Err(Stop::NotComputed),
        (Value::Integer(first), Value::Integer(last), Value::Integer(step)) => {
            let leads_away = if *step > 0 {
                last < first
            } else {
                first < last
            };
            if leads_away {
                return Ok(0);
            }
            match (last.abs_diff(*first) / step.unsigned_abs()).checked_add(1) {
                Some(count) => Ok(count as usize),
                None => Err(Stop::Limit),
            }
        }
        _ => Ok(0),
    }
}

/// The integer of a turn, where so many are done. An error says that it is out of the range of 64 bits.
pub(crate) fn stepped<'w>(first: &Value, step: &Value, done: usize) -> Result<Value<'w>, Stop>
    ensures { MatchResult result (λ v. plain v ≡ stepped_of (plain first.now) (plain step.now) done) ClaimsNothing }
{
    stepped_bare(first.bare(), step.bare(), done)
}

fn stepped_bare<'w>(first: &Value, step: &Value, done: usize) -> Result<Value<'w>, Stop>
    ensures { MatchResult result (λ v. plain v ≡ stepped_bare (plain first.now) (plain step.now) done) ClaimsNothing }
{
    match (first, step) {
        (Value::Integer(first), Value::Integer(step)) => {
            let Ok(done) = i64::try_from(done) else {
                return Err(Stop::Limit);
            };
            let Some(further) = done.checked_mul(*step) else {
                return Err(Stop::Limit);
            };
            match first.checked_add(further) {
                Some(at) => Ok(Value::Integer(at)),
                None => Err(Stop::Limit),
            }
        }
        _ => Ok(Value::Indeterminate),
    }
}
