//! How instances are compared.

ghost use Rattle.std.specs.Prelude.{◌≡◌, ℕ, MatchResult, nat_eq};
ghost use Rattle.p21_values.specs.Ends.{ClaimsNothing};
ghost use Rattle.p21_values.specs.Logic.{truth_of};
ghost use Rattle.p21_values.specs.declared.truth.Truth.{Truth};
ghost use Rattle.p21_values.specs.declared.truth.Truth.TheVariants.{False};

use crate::stop::{Budget, Stop};
use crate::truth::Truth;

/// A comparison of instances. That by their attributes needs a model, so the caller has it.
pub trait Instances {
    /// Whether `same` is known to be what the comparison gives. Of any other nothing is claimed.
    ghost known: { Self → Type 0 };
    /// What the comparison of two instances gives, by their places.
    ghost same: { Self → ℕ → ℕ → Truth };

    /// Compares two instances. An error claims nothing.
    fn same(&self, first: u32, second: u32, budget: &mut Budget) -> Result<Truth, Stop>
        ensures { known self.now → MatchResult result (λ t. t ≡ same self.now first second) ClaimsNothing };

    /// Compares an instance that an expression makes with one of the file. They are two, so `:=:` gives FALSE. `=` would compare their
    /// attributes, which is not done: it ends with an error, which claims nothing.
    fn made_with_placed(&self) -> Result<Truth, Stop>
        ensures { MatchResult result (λ t. t ≡ False) ClaimsNothing }
    {
        Err(Stop::NotCompared)
    }
}

/// Instances are the same only if they have the same place, as `:=:` has it.
#[derive(Clone, Copy, Drop)]
pub struct ByPlace;

impl Instances for ByPlace {
    ghost known = { λ _. Unit {0} };

    ghost same = { λ _ a b. truth_of (nat_eq a b) };

    fn same(&self, first: u32, second: u32, _budget: &mut Budget) -> Result<Truth, Stop> {
        Ok(Truth::of(first == second))
    }

    fn made_with_placed(&self) -> Result<Truth, Stop> {
        Ok(Truth::False)
    }
}
