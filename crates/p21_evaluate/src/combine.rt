//! What is made of two values.

ghost use Rattle.p21_values.specs.Ends.{Gives};
ghost use Rattle.p21_values.specs.Plain.{plain};
ghost use Rattle.p21_evaluate.specs.Combine.{combined_of};

use crate::term::Combination;
use p21_values::{Budget, Instances, Stop, Value, binary, index, like, nvl};

/// What is made of two values, where `=` has the given comparison of instances.
#[tactic(auto, using(crate::proofs::Steps::ends_any))]
pub(crate) fn combine<'w, I: Instances>(
    instances: &I,
    budget: &mut Budget,
    combination: Combination,
    left: &Value<'w>,
    right: &Value<'w>,
) -> Result<Value<'w>, Stop>
    ensures { I.known instances.now → Gives result (combined_of (I.same instances.now) combination (plain left.now) (plain right.now)) }
{
    match combination {
        Combination::Operator(operator) => binary(operator, left, right, instances, budget),
        Combination::OrElse => Ok(nvl(left, right)?),
        Combination::Element => Ok(index(budget.alloc(), left, right)?),
        Combination::Like => Ok(like(left, right, budget)?),
    }
}
