//! How many lanes there are.
ghost use Rattle.std.specs.Prelude.{◌≡◌, ◌<◌, ◌≤◌};
ghost use Rattle.std.specs.Option.{SomeIff};

use std::marker::Model;

/// The number of lanes, 1 to 64.
#[derive(Debug, Clone, Copy, PartialEq, Eq)]
pub struct LaneCount {
    count: u32,
}

impl Model for LaneCount {
    ghost use Rattle.std.specs.Prelude.{ℕ, ◌<◌, ◌≤◌};

    ghost Value = { ℕ };

    ghost view = { λ c. c.count };

    ghost invariant = { λ c. (0 < c.count) × (c.count ≤ 64) };

    ghost inverse = { λ n. record { count = n } };
}

impl LaneCount {
    /// The greatest number of lanes.
    pub const MAX: u32 = 64;

    /// The number of `n` lanes, or `None` where `n` is 0 or above `MAX`.
    pub fn new(n: u32) -> Option<LaneCount>
        // A number of lanes is a number from 1 to 64, and each such number is one.
        ensures { SomeIff result ((0 < n) × (n ≤ 64)) n }
    {
        if 0 < n && n <= LaneCount::MAX {
            Some(LaneCount { count: n })
        } else {
            None
        }
    }

    /// How many lanes it is.
    pub fn get(self) -> u32
        ensures value { result ≡ self }
        ensures in_range { (0 < result) × (result ≤ 64) }
    {
        self.count
    }
}
