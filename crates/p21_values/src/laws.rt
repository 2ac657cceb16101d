//! Laws of the logic with three values: what each function ensures holds of all truths. A caller calls one to learn its law.

ghost use Rattle.std.specs.Prelude.{◌≡◌};
ghost use Rattle.p21_values.specs.Logic.{and_of, not_of, or_of, xor_of};
ghost use Rattle.p21_values.specs.declared.truth.Truth.{Truth};

/// The order of the operands plays no part.
pub fn order_plays_no_part()
    ensures and { (a b : Truth) → and_of a b ≡ and_of b a }
    ensures or { (a b : Truth) → or_of a b ≡ or_of b a }
    ensures xor { (a b : Truth) → xor_of a b ≡ xor_of b a }
{}

/// NOT of NOT is the truth itself.
pub fn not_twice_is_nothing()
    ensures { (a : Truth) → not_of (not_of a) ≡ a }
{}

/// NOT of AND is OR of the two NOTs, and the other way round.
pub fn not_turns_and_into_or()
    ensures and { (a b : Truth) → not_of (and_of a b) ≡ or_of (not_of a) (not_of b) }
    ensures or { (a b : Truth) → not_of (or_of a b) ≡ and_of (not_of a) (not_of b) }
{}
