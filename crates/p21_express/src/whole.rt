//! Whole numbers of few digits.

ghost use Rattle.std.specs.Prelude.{◌<◌, ◌^◌};

/// The value of at most 18 digits.
#[derive(Clone, Copy)]
pub struct Whole {
    /// It is less than 10 to the 18th.
    pub value: u64,
    ghost small: { value < 10 ^ 18 },
}
