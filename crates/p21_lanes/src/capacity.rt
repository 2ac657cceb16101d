//! How many places a lane has.
ghost use Rattle.std.specs.Prelude.{◌≡◌, ◌<◌, ◌≤◌};
ghost use Rattle.std.specs.Option.{SomeIff};

use std::marker::Model;

/// The number of places of a lane, 1 to 4096. Each holds an item, items that were offered together, or the end.
#[derive(Debug, Clone, Copy, PartialEq, Eq)]
pub struct Capacity {
    count: u32,
}

impl Model for Capacity {
    ghost use Rattle.std.specs.Prelude.{ℕ, ◌<◌, ◌≤◌};

    ghost Value = { ℕ };

    ghost view = { λ c. c.count };

    ghost invariant = { λ c. (0 < c.count) × (c.count ≤ 4096) };

    ghost inverse = { λ n. record { count = n } };
}

impl Capacity {
    /// The greatest capacity.
    pub const MAX: u32 = 4096;

    /// The capacity of `n` places, or `None` where `n` is 0 or above `MAX`.
    pub fn new(n: u32) -> Option<Capacity>
        // A capacity is a number from 1 to 4096, and each such number is one.
        ensures { SomeIff result ((0 < n) × (n ≤ 4096)) n }
    {
        if 0 < n && n <= Capacity::MAX {
            Some(Capacity { count: n })
        } else {
            None
        }
    }

    /// How many places it is.
    pub fn get(self) -> u32
        ensures value { result ≡ self }
        ensures in_range { (0 < result) × (result ≤ 4096) }
    {
        self.count
    }
}
