//! What can be wrong with a file.

use std::alloc::{AllocError, AllocFailed};

/// A fault of a file and its place.
#[derive(Clone, Copy, Debug, PartialEq, Eq)]
pub struct Fault {
    /// What is wrong.
    pub kind: FaultKind,
    /// Where, in bytes from the file's first byte.
    pub at: u64,
}

/// The kinds of fault. Records and attributes are counted from 0; a simple instance has record 0.
#[derive(Clone, Copy, Debug, PartialEq, Eq)]
pub enum FaultKind {
    /// No token begins there.
    BadToken,
    /// The first token with which no sentence goes on.
    Unexpected,
    /// The file ends where a token is wanted; at the file's length.
    Truncated,
    /// An opening parenthesis that the grammar allows but for the limit of 64 open ones.
    TooDeep,
    /// The header entities are not those that the standard asks for; at the `HEADER` token.
    HeaderEntities,
    /// The file names another schema; at the `HEADER` token.
    WrongSchema,
    /// An earlier instance has this name.
    DuplicateName,
    /// A record's keyword is no entity of the schema.
    UnknownEntity,
    /// A simple instance of an abstract entity.
    AbstractEntity,
    /// A complex instance names an entity twice, or without one of its supertypes, or an abstract one without
    /// a subtype there.
    BadComplex,
    /// A record has a wrong number of parameters.
    WrongCount { rec: u64 },
    /// A parameter does not conform to its attribute.
    BadAttribute { rec: u64, attr: u64 },
    /// No instance has this name.
    MissingReference { rec: u64, attr: u64, name: u64 },
    /// The named instance is of none of the entities that are wanted there.
    WrongReference { rec: u64, attr: u64, name: u64 },
    /// A list in a parameter that stands for a SET or a LIST OF UNIQUE has one instance name twice.
    RepeatedReference { rec: u64, attr: u64 },
}

/// Why a text gave no tree.
#[derive(Clone, Copy, Debug, PartialEq, Eq)]
pub enum TreeError {
    /// The first grammar fault.
    Grammar(Fault),
    /// There was no memory left.
    Memory,
}

impl From<AllocError> for TreeError {
    ghost use Rattle.p21_tree.specs.declared.faults.TreeError.TheVariants.{Memory};
    ghost use Rattle.std.specs.Prelude.{◌≡◌};

    ghost from_gives = { λ _ e. e ≡ Memory };

    fn from(_error: AllocError) -> TreeError {
        TreeError::Memory
    }
}

impl<T: Drop> From<AllocFailed<T>> for TreeError {
    ghost use Rattle.p21_tree.specs.declared.faults.TreeError.TheVariants.{Memory};
    ghost use Rattle.std.specs.Prelude.{◌≡◌};

    ghost from_gives = { λ _ e. e ≡ Memory };

    fn from(_error: AllocFailed<T>) -> TreeError {
        TreeError::Memory
    }
}

impl From<Fault> for TreeError {
    ghost use Rattle.p21_tree.specs.declared.faults.TreeError.TheVariants.{Grammar};
    ghost use Rattle.std.specs.Prelude.{◌≡◌};

    ghost from_gives = { λ f e. e ≡ Grammar f };

    fn from(fault: Fault) -> TreeError {
        TreeError::Grammar(fault)
    }
}
