//! Why an operation gives no value.

ghost use Rattle.std.specs.Prelude.{◌≡◌, MatchResult};
ghost use Rattle.p21_values.specs.Ends.{ClaimsNothing, memory};

use std::alloc::{AllocError, Global};

/// Why an operation gives no value.
#[derive(Clone, Copy, PartialEq, Eq, Debug, Drop)]
pub enum Stop {
    /// Memory ran out.
    Memory,
    /// The steps are used up, or values are nested too deeply to be compared.
    Limit,
    /// Values are not compared: an integer beyond 2 to the power 53 with a real, or an instance of the file with one that an expression makes.
    NotCompared,
    /// A number is out of the range of 64 bits.
    NotComputed,
    /// Expressions are nested more deeply than an evaluation may go.
    TooDeep,
}

impl From<AllocError> for Stop {
    ghost from_gives = { λ _ s. s ≡ memory };

    fn from(_error: AllocError) -> Stop
        ensures { result ≡ memory }
    {
        Stop::Memory
    }
}

/// What an evaluation may use: memory, and so many steps. Each comparison of two values takes a step, and so do eight values or characters that
/// are copied.
#[derive(Drop)]
pub struct Budget {
    alloc: Global,
    left: u64,
}

impl Budget {
    /// A budget of so many steps.
    pub fn new(alloc: Global, steps: u64) -> Budget {
        Budget { alloc, left: steps }
    }

    /// The allocator.
    pub fn alloc(&self) -> Global {
        self.alloc
    }

    /// How many steps are left.
    pub fn left(&self) -> u64 {
        self.left
    }

    /// Takes one step, or ends where none is left.
    pub fn take(&mut self) -> Result<(), Stop>
        ensures { MatchResult result (λ _. Unit {0}) ClaimsNothing }
    {
        if self.left == 0 {
            return Err(Stop::Limit);
        }
        self.left -= 1;
        Ok(())
    }

    /// Takes so many steps, or ends where fewer are left.
    pub fn take_many(&mut self, steps: usize) -> Result<(), Stop>
        ensures { MatchResult result (λ _. Unit {0}) ClaimsNothing }
    {
        match self.left.checked_sub(steps as u64) {
            Some(left) => {
                self.left = left;
                Ok(())
            }
            None => Err(Stop::Limit),
        }
    }

    /// Takes the steps for so many values or characters that are copied.
    pub fn take_copies(&mut self, count: usize) -> Result<(), Stop>
        ensures { MatchResult result (λ _. Unit {0}) ClaimsNothing }
    {
        self.take_many(count / 8)
    }
}
