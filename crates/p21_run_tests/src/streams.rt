//! Readers and writers over memory. They tell their bytes.

ghost use Rattle.std.specs.Prelude.{Some};

use p21_run::{IoFault, Sink, Source};
use std::alloc::Global;

/// What a call does.
#[derive(Clone, Copy, Debug, PartialEq, Eq)]
pub(crate) enum Turn {
    Moves,
    IsInterrupted,
    Fails,
}

/// What calls do, one after the other: so many do the first, and all after them the other.
#[derive(Clone, Copy, Debug)]
pub(crate) struct Turns {
    first: Turn,
    calls: u64,
    then: Turn,
}

impl Turns {
    /// Each call moves bytes.
    pub(crate) const MOVING: Turns = Turns {
        first: Turn::Moves,
        calls: 0,
        then: Turn::Moves,
    };

    /// So many calls move bytes, and after them each does this.
    pub(crate) fn until(calls: u64, then: Turn) -> Turns {
        Turns {
            first: Turn::Moves,
            calls,
            then,
        }
    }

    /// So many calls are interrupted, and after them each moves bytes.
    pub(crate) fn behind(calls: u64) -> Turns {
        Turns {
            first: Turn::IsInterrupted,
            calls,
            then: Turn::Moves,
        }
    }

    /// Whether the next call moves bytes.
    fn next(&mut self) -> Result<(), IoFault> {
        let turn = if self.calls > 0 {
            self.calls -= 1;
            self.first
        } else {
            self.then
        };
        match turn {
            Turn::Moves => Ok(()),
            Turn::IsInterrupted => Err(IoFault::Interrupted),
            Turn::Fails => Err(IoFault::Failed),
        }
    }
}

/// A source of some bytes.
#[derive(Drop)]
pub(crate) struct Bytes<'a> {
    left: &'a [u8],
    /// The most bytes of a call, but at least one.
    most: usize,
    turns: Turns,
    marked: bool,
    failed: bool,
}

impl<'a> Bytes<'a> {
    /// As many bytes a call as there is room for.
    pub(crate) fn new(bytes: &'a [u8]) -> Bytes<'a> {
        Bytes::in_steps(bytes, usize::MAX, Turns::MOVING)
    }

    /// At most so many bytes a call, by these turns.
    pub(crate) fn in_steps(bytes: &'a [u8], most: usize, turns: Turns) -> Bytes<'a> {
        Bytes {
            left: bytes,
            most,
            turns,
            marked: false,
            failed: false,
        }
    }
}

impl Source for Bytes<'_> {
    ghost marked = { λ s. s.marked };

    ghost failed = { λ s. s.failed };

    ghost remaining = { λ s. Some s.left.now };

    fn read(&mut self, into: &mut [u8]) -> Result<usize, IoFault> {
        if let Err(fault) = self.turns.next() {
            self.marked = true;
            self.failed |= fault == IoFault::Failed;
            return Err(fault);
        }
        let count = into.len().min(self.left.len()).min(self.most.max(1));
        into[..count].copy_from_slice(&self.left[..count]);
        self.left = &self.left[count..];
        Ok(count)
    }
}

/// A sink that keeps what it takes.
#[derive(Drop)]
pub(crate) struct Text {
    bytes: Vec<u8>,
    /// The most bytes of a call.
    most: usize,
    turns: Turns,
    marked: bool,
    failed: bool,
}

impl Text {
    /// All bytes of each call.
    pub(crate) fn new(alloc: Global) -> Text {
        Text::in_steps(alloc, usize::MAX, Turns::MOVING)
    }

    /// At most so many bytes a call, by these turns.
    pub(crate) fn in_steps(alloc: Global, most: usize, turns: Turns) -> Text {
        Text {
            bytes: Vec::new(alloc),
            most,
            turns,
            marked: false,
            failed: false,
        }
    }

    pub(crate) fn as_slice(&self) -> &[u8] {
        self.bytes.as_slice()
    }
}

impl Sink for Text {
    ghost marked = { λ s. s.marked };

    ghost failed = { λ s. s.failed };

    ghost taken = { λ s. Some s.bytes.items };

    fn write(&mut self, from: &[u8]) -> Result<usize, IoFault> {
        if let Err(fault) = self.turns.next() {
            self.marked = true;
            self.failed |= fault == IoFault::Failed;
            return Err(fault);
        }
        let count = from.len().min(self.most);
        if self.bytes.extend_from_slice(&from[..count]).is_err() {
            self.marked = true;
            self.failed = true;
            return Err(IoFault::Failed);
        }
        self.marked |= count == 0 && !from.is_empty();
        Ok(count)
    }
}
