//! Names that declarations give twice, use without a declaration, or use in a cycle.

ghost use Rattle.std.specs.Prelude.{◌≡◌};
ghost use Rattle.p21_express.specs.declared.misfit.Unfit.TheVariants.{Memory};

use std::alloc::{AllocError, AllocFailed};

/// What is wrong with declarations, in the order in which it is looked for.
#[derive(Clone, Copy)]
pub(crate) enum Misfit {
    Repeated,
    UnknownName,
    /// A SELECT is all that stands under a TYPE.
    LoneSelect,
    Cycle,
    BadRedeclaration,
}

/// Why declarations are refused.
#[derive(Clone, Copy)]
pub(crate) enum Unfit {
    /// What is wrong, and how many words stand from there on.
    Found(Misfit, usize),
    Memory,
}

impl From<AllocError> for Unfit {
    ghost from_gives = { λ _ e. e ≡ Memory };

    fn from(_e: AllocError) -> Unfit {
        Unfit::Memory
    }
}

impl<T: Drop> From<AllocFailed<T>> for Unfit {
    ghost from_gives = { λ _ e. e ≡ Memory };

    fn from(_e: AllocFailed<T>) -> Unfit {
        Unfit::Memory
    }
}
