//! Numbers.

ghost use Rattle.std.specs.Prelude.{◌≡◌, MatchResult};
ghost use Rattle.std.specs.Float.Ieee;
ghost use Rattle.std.specs.Ordering.{float_partial_cmp};
ghost use Rattle.p21_values.specs.Ends.{ClaimsNothing};
ghost use Rattle.p21_values.specs.Numbers.{exact};

use crate::stop::Stop;
use std::cmp::Ordering;
use std::num::nearest_i64_to_f64;

/// Up to here, either way, each integer is a value of `f64`.
const LARGEST_EXACT: i64 = 9_007_199_254_740_992;

/// The order of an integer and a real, by value. There is none where the real is not a number.
///
/// An integer beyond 2 to the power 53 is not compared with a real: the error claims nothing.
pub(crate) fn integer_order(a: i64, y: f64) -> Result<Option<Ordering>, Stop>
    ensures { MatchResult result (λ o. o ≡ float_partial_cmp (exact a) y) ClaimsNothing }
{
    if -LARGEST_EXACT <= a && a <= LARGEST_EXACT {
        Ok(nearest_i64_to_f64(a).partial_cmp(&y))
    } else {
        Err(Stop::NotCompared)
    }
}

/// Whether an integer and a real have the same value, with the same bound.
pub(crate) fn is_integer(a: i64, y: f64) -> Result<bool, Stop>
    ensures { MatchResult result (λ b. b ≡ Ieee.eq (exact a) y) ClaimsNothing }
{
    if -LARGEST_EXACT <= a && a <= LARGEST_EXACT {
        Ok(nearest_i64_to_f64(a) == y)
    } else {
        Err(Stop::NotCompared)
    }
}
