//! Why words are no schema.

ghost use Rattle.std.specs.Prelude.{◌≡◌};
ghost use Rattle.p21_express.specs.declared.refusal.Refusal.TheVariants.{Memory};

use std::alloc::{AllocError, AllocFailed};

/// What is wrong with the form of words.
#[derive(Clone, Copy)]
pub enum Kind {
    /// A word that does not fit, or the end of the words.
    Syntax,
    /// A word of a form that is not supported.
    NotSupported,
}

/// Why words are refused, while they are read.
#[derive(Clone, Copy)]
pub enum Refusal {
    /// What is wrong, and how many words stand from there on.
    Refused(Kind, usize),
    /// There was no memory left.
    Memory,
}

impl Refusal {
    /// That the first of so many last words does not fit, or, where it is none, that the words end.
    pub fn syntax(words_left: usize) -> Refusal
        ensures { result ≡ Refusal.Refused Kind.Syntax words_left }
    {
        Refusal::Refused(Kind::Syntax, words_left)
    }

    pub(crate) fn not_supported(words_left: usize) -> Refusal
        ensures { result ≡ Refusal.Refused Kind.NotSupported words_left }
    {
        Refusal::Refused(Kind::NotSupported, words_left)
    }
}

impl From<AllocError> for Refusal {
    ghost from_gives = { λ _ e. e ≡ Memory };

    fn from(_e: AllocError) -> Refusal {
        Refusal::Memory
    }
}

impl<T: Drop> From<AllocFailed<T>> for Refusal {
    ghost from_gives = { λ _ e. e ≡ Memory };

    fn from(_e: AllocFailed<T>) -> Refusal {
        Refusal::Memory
    }
}
