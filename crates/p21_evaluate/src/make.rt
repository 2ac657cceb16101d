//! What is made of several values.

ghost use Rattle.std.specs.Prelude.{◌≡◌, map, MatchResult};
ghost use Rattle.p21_values.specs.Ends.{ClaimsNothing, Gives};
ghost use Rattle.p21_values.specs.Plain.{plain};
ghost use Rattle.p21_evaluate.specs.Make.{interval_of, made_of, part_of, with_part_of};

use crate::term::Making;
use crate::world::World;
use p21_values::{
    BinaryOperator, Budget, Instances, Kind, Stop, Value, aggregate, binary, range, with_element,
};

/// What is made of several values.
#[tactic(auto, using(crate::proofs::Steps::ends_any))]
pub(crate) fn make<'w, W: World>(
    world: &'w W,
    budget: &mut Budget,
    making: Making,
    values: Vec<Value<'w>>,
) -> Result<Value<'w>, Stop>
    ensures { W.known world.now → Gives result (made_of (W.same world.now) (W.made world.now) making (map plain values.entry.items)) }
{
    match making {
        Making::Initializer => Ok(aggregate(Kind::Initializer, values, budget)?),
        Making::Part => Ok(part(&values, budget)?),
        Making::WithElement => Ok(with_part(&values, budget)?),
        Making::Interval(first, second) => interval(world, budget, first, second, &values),
        Making::Construction(construction) => world.make(budget, construction, values),
    }
}

/// The part of the first value from the second to the third.
fn part<'w>(values: &[Value<'w>], budget: &mut Budget) -> Result<Value<'w>, Stop>
    ensures { MatchResult result (λ v. plain v ≡ part_of (map plain values.now)) ClaimsNothing }
{
    match values {
        [value, from, to] => range(value, from, to, budget),
        _ => Ok(Value::Indeterminate),
    }
}

/// The first value, with the third as its element at the index that the second is.
fn with_part<'w>(values: &[Value<'w>], budget: &mut Budget) -> Result<Value<'w>, Stop>
    ensures { MatchResult result (λ v. plain v ≡ with_part_of (map plain values.now)) ClaimsNothing }
{
    match values {
        [value, at, element] => with_element(value, at, element, budget),
        _ => Ok(Value::Indeterminate),
    }
}

/// Whether both comparisons of an interval hold.
#[tactic(auto, using(crate::proofs::Steps::ends_then))]
fn interval<'w, I: Instances>(
    instances: &I,
    budget: &mut Budget,
    first: BinaryOperator,
    second: BinaryOperator,
    values: &[Value<'w>],
) -> Result<Value<'w>, Stop>
    ensures { I.known instances.now → Gives result (interval_of (I.same instances.now) first second (map plain values.now)) }
{
    match values {
        [low, value, high] => {
            let above = binary(first, low, value, instances, budget)?;
            let below = binary(second, value, high, instances, budget)?;
            binary(BinaryOperator::And, &above, &below, instances, budget)
        }
        _ => Ok(Value::Indeterminate),
    }
}
