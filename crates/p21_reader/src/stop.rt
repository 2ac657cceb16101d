//! Why a reading ends early.

use p21_tree::{Fault, TreeError};
use std::alloc::{AllocError, AllocFailed};

/// Why a file, or its beginning, was not read to its end.
#[derive(Debug, Drop)]
pub enum Stop {
    /// Its first fault.
    Fault(Fault),
    /// There was no memory left.
    Memory,
}

impl From<AllocError> for Stop {
    ghost use Rattle.p21_reader.specs.declared.stop.Stop.TheVariants.{Memory as MemoryVariant};
    ghost use Rattle.std.specs.Prelude.{◌≡◌};

    ghost from_gives = { λ _ e. e ≡ MemoryVariant };

    fn from(_: AllocError) -> Stop {
        Stop::Memory
    }
}

impl<T: Drop> From<AllocFailed<T>> for Stop {
    ghost use Rattle.p21_reader.specs.declared.stop.Stop.TheVariants.{Memory as MemoryVariant};
    ghost use Rattle.std.specs.Prelude.{◌≡◌};

    ghost from_gives = { λ f e. e ≡ MemoryVariant };

    fn from(_: AllocFailed<T>) -> Stop {
        Stop::Memory
    }
}

impl From<Fault> for Stop {
    ghost use Rattle.p21_reader.specs.declared.stop.Stop.TheVariants.{Fault as FaultVariant};
    ghost use Rattle.std.specs.Prelude.{◌≡◌};

    ghost from_gives = { λ f e. e ≡ FaultVariant f };

    fn from(fault: Fault) -> Stop {
        Stop::Fault(fault)
    }
}

impl From<TreeError> for Stop {
    ghost use Rattle.p21_reader.specs.Steps.{IsStopOf};

    ghost from_gives = { λ t e. IsStopOf t e };

    fn from(error: TreeError) -> Stop {
        match error {
            TreeError::Grammar(fault) => Stop::Fault(fault),
            TreeError::Memory => Stop::Memory,
        }
    }
}
