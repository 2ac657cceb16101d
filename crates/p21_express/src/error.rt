//! Why a schema's text is refused.

ghost use Rattle.std.specs.Prelude.{◌≡◌};
ghost use Rattle.p21_express.specs.declared.error.SchemaError.TheVariants.{Memory};

use std::alloc::{AllocError, AllocFailed};

/// Why a schema's text is refused. Each place is a byte offset from the first byte of the text.
#[derive(Clone, Copy, Debug, PartialEq, Eq)]
pub enum SchemaError {
    /// The first word that does not fit; the byte where no word begins; or the text's length at its end.
    Syntax(u64),
    /// A word of a form that is not supported.
    NotSupported(u64),
    /// The second of two names that must differ.
    Repeated(u64),
    /// A name that is not declared as what it is used for.
    UnknownName(u64),
    /// The name of a declaration that leads back to itself.
    Cycle(u64),
    /// The word SELF of an attribute that is declared again and may not be.
    BadRedeclaration(u64),
    /// There was no memory left.
    Memory,
}

impl From<AllocError> for SchemaError {
    ghost from_gives = { λ _ e. e ≡ Memory };

    fn from(_e: AllocError) -> SchemaError {
        SchemaError::Memory
    }
}

impl<T: Drop> From<AllocFailed<T>> for SchemaError {
    ghost from_gives = { λ _ e. e ≡ Memory };

    fn from(_e: AllocFailed<T>) -> SchemaError {
        SchemaError::Memory
    }
}
