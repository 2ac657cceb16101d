//! Truth with three values.

ghost use Rattle.std.specs.Prelude.{◌≡◌};
ghost use Rattle.p21_values.specs.Logic.{and_of, is_true, not_of, or_of, truth_of, xor_of};
ghost use Rattle.p21_values.specs.Order.{rank_of};

/// A value of LOGICAL. FALSE is less than UNKNOWN, and UNKNOWN is less than TRUE.
#[derive(Clone, Copy, PartialEq, Eq, Debug, Drop)]
pub enum Truth {
    False,
    Unknown,
    True,
}

impl Truth {
    /// TRUE where the test holds, else FALSE.
    pub fn of(test: bool) -> Truth
        ensures { result ≡ truth_of test }
    {
        if test { Truth::True } else { Truth::False }
    }

    /// 0 for FALSE, 1 for UNKNOWN, and 2 for TRUE.
    pub fn rank(self) -> u8
        ensures { result ≡ rank_of self }
    {
        match self {
            Truth::False => 0,
            Truth::Unknown => 1,
            Truth::True => 2,
        }
    }

    /// Whether it is TRUE.
    pub fn is_true(self) -> bool
        ensures { result ≡ is_true self }
    {
        match self {
            Truth::True => true,
            _ => false,
        }
    }

    /// AND: FALSE where one is FALSE.
    pub fn and(self, other: Truth) -> Truth
        ensures { result ≡ and_of self other }
    {
        match (self, other) {
            (Truth::False, _) | (_, Truth::False) => Truth::False,
            (Truth::True, Truth::True) => Truth::True,
            _ => Truth::Unknown,
        }
    }

    /// OR: TRUE where one is TRUE.
    pub fn or(self, other: Truth) -> Truth
        ensures { result ≡ or_of self other }
    {
        match (self, other) {
            (Truth::True, _) | (_, Truth::True) => Truth::True,
            (Truth::False, Truth::False) => Truth::False,
            _ => Truth::Unknown,
        }
    }

    /// XOR: UNKNOWN where one is UNKNOWN.
    pub fn xor(self, other: Truth) -> Truth
        ensures { result ≡ xor_of self other }
    {
        match (self, other) {
            (Truth::Unknown, _) | (_, Truth::Unknown) => Truth::Unknown,
            (Truth::True, Truth::False) | (Truth::False, Truth::True) => Truth::True,
            _ => Truth::False,
        }
    }

    /// NOT.
    pub fn not(self) -> Truth
        ensures { result ≡ not_of self }
    {
        match self {
            Truth::False => Truth::True,
            Truth::Unknown => Truth::Unknown,
            Truth::True => Truth::False,
        }
    }
}
