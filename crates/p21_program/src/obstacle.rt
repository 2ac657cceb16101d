//! Why something of a schema's text is not evaluated.

use std::alloc::AllocError;

/// Why something of a schema's text is not evaluated.
#[derive(Clone, Copy, Debug, PartialEq, Eq)]
pub enum Reason {
    /// It has no reading by the grammar.
    NoReading,
    /// More than 256 things of one kind stand within one another, or more than 500 terms do.
    TooDeep,
    /// It costs too much to resolve.
    TooLarge,
    /// Nothing has this name there.
    UnknownName,
    /// A string names an entity or a type of another schema.
    AnotherSchema,
    /// A form or a function that is not computed.
    NotComputed,
    /// A function has another number of parameters.
    WrongCount,
    /// It calls the function at this place among the functions, which is not evaluated.
    Calls(usize),
}

/// What is in the way of evaluating something, and where: the number of words of the text that stand from there on.
#[derive(Clone, Copy, Debug, PartialEq, Eq)]
pub struct Obstacle {
    pub reason: Reason,
    pub place: usize,
}

/// Why resolving ends without a term.
#[derive(Clone, Copy, Debug)]
pub(crate) enum Halt {
    Memory,
    Told(Obstacle),
}

impl Halt {
    pub(crate) fn told(reason: Reason, place: usize) -> Halt {
        Halt::Told(Obstacle { reason, place })
    }
}

impl From<AllocError> for Halt {
    fn from(_full: AllocError) -> Halt {
        Halt::Memory
    }
}

/// What was resolved, or what is in its way.
pub(crate) fn settled<T: Drop>(
    resolved: Result<T, Halt>,
) -> Result<Result<T, Obstacle>, AllocError> {
    match resolved {
        Ok(value) => Ok(Ok(value)),
        Err(Halt::Told(obstacle)) => Ok(Err(obstacle)),
        Err(Halt::Memory) => Err(AllocError),
    }
}
