//! What gives bytes and what takes them, and what each says of itself.

ghost use Rattle.std.specs.Prelude.{◌≡◌, ◌||◌, Bool, false, ℕ, List, Option, None};
ghost use Rattle.std.specs.Io.{ReadsAtMost, WritesAtMost};
ghost use Rattle.std.specs.Io.KnownBytes.{ReadConsumes, WriteAppends};
ghost use Rattle.p21_run.specs.Marks.{is_failure, is_fault, is_fault_or_nothing};

use std::io::{self, ErrorKind, Read, Write};

/// Why a call moved no byte.
#[derive(Clone, Copy, Debug, PartialEq, Eq)]
pub enum IoFault {
    /// It was interrupted, and may be made again.
    Interrupted,
    /// The device failed.
    Failed,
}

/// What gives bytes.
///
/// Its ghosts say whether it ever returned an error (`marked`), whether it ever failed (`failed`), and which bytes
/// are left, if it tells them (`remaining`).
pub trait Source {
    // Whether it ever answered a fault.
    ghost marked: { Self → Bool };

    // Whether it ever failed: whether one of those faults was more than an interruption.
    ghost failed: { Self → Bool };

    // The bytes that are left, where it tells them.
    ghost remaining: { Self → Option (List ℕ) } = { λ _. None };

    /// Gives the next bytes, at most as many as there is room for, and says how many: 0 into some room is the end. A fault
    /// leaves the bytes as they were.
    fn read(&mut self, into: &mut [u8]) -> Result<usize, IoFault>
        // At most as many bytes as there is room for.
        ensures bound { ReadsAtMost result into.new }
        // They are the first of those that were left.
        ensures bytes { ReadConsumes (remaining self.old) (remaining self.new) result into.new }
        // `marked` says whether it ever returned an error.
        ensures mark { marked self.new ≡ (marked self.old || is_fault result) }
        // `failed` says whether one of these errors was more than an interruption.
        ensures failure { failed self.new ≡ (failed self.old || is_failure result) };
}

/// What takes bytes.
///
/// Its ghosts say whether it ever returned an error or took no byte (`marked`), whether it ever failed (`failed`),
/// and which bytes it took, if it tells them (`taken`).
pub trait Sink {
    // Whether it ever answered a fault, or took no byte of some.
    ghost marked: { Self → Bool };

    // Whether it ever failed: whether one of those faults was more than an interruption.
    ghost failed: { Self → Bool };

    // The bytes that it has taken, where it tells them.
    ghost taken: { Self → Option (List ℕ) } = { λ _. None };

    /// Takes the first of some bytes, and says how many. A fault leaves what was taken as it was.
    fn write(&mut self, from: &[u8]) -> Result<usize, IoFault>
        // At most as many bytes as were given.
        ensures bound { WritesAtMost result from.now }
        // They follow those that were taken.
        ensures bytes { WriteAppends (taken self.old) (taken self.new) result from.now }
        // `marked` says whether it ever returned an error, or took no byte of some.
        ensures mark { marked self.new ≡ (marked self.old || is_fault_or_nothing result from.now) }
        // `failed` says whether one of these errors was more than an interruption.
        ensures failure { failed self.new ≡ (failed self.old || is_failure result) };
}

/// A reader or a writer of the standard library as a `Source` or a `Sink`. It tells the bytes that the reader or the writer
/// tells.
#[derive(Debug, Drop)]
pub struct Stream<T> {
    inner: T,
    marked: bool,
    failed: bool,
    error: Option<io::Error>,
}

impl<T> Stream<T> {
    ghost use Rattle.p21_run.specs.Stream.{failure_of, inner_of, mark_of};

    /// Neither a fault nor a write of no byte has happened yet.
    pub fn new(inner: T) -> Stream<T>
        ensures inner { inner_of result ≡ inner }
        ensures unmarked { mark_of result ≡ false }
        ensures unfailed { failure_of result ≡ false }
    {
        Stream {
            inner,
            marked: false,
            failed: false,
            error: None,
        }
    }

    /// The last error by which the reader or the writer failed.
    ///
    /// Which error it is is tested.
    pub fn error(&self) -> Option<io::Error> {
        self.error
    }
}

impl<R: Read> Source for Stream<R> {
    ghost use Rattle.p21_run.specs.Stream.{failure_of, inner_of, mark_of};

    ghost marked = { mark_of };

    ghost failed = { failure_of };

    ghost remaining = { λ s. R.remaining (inner_of s) };

    fn read(&mut self, into: &mut [u8]) -> Result<usize, IoFault> {
        let answer = self.inner.read(into);
        if let Err(error) = &answer
            && fault_of(error) == IoFault::Failed
        {
            self.error = Some(*error);
        }
        let result = answer.map_err(|error| fault_of(&error));
        self.marked |= result.is_err();
        self.failed |= matches!(result, Err(IoFault::Failed));
        result
    }
}

impl<W: Write> Sink for Stream<W> {
    ghost use Rattle.p21_run.specs.Stream.{failure_of, inner_of, mark_of};

    ghost marked = { mark_of };

    ghost failed = { failure_of };

    ghost taken = { λ s. W.contents (inner_of s) };

    fn write(&mut self, from: &[u8]) -> Result<usize, IoFault> {
        let answer = self.inner.write(from);
        if let Err(error) = &answer
            && fault_of(error) == IoFault::Failed
        {
            self.error = Some(*error);
        }
        let result = answer.map_err(|error| fault_of(&error));
        self.marked |= match result {
            Ok(count) => count == 0 && !from.is_empty(),
            Err(_) => true,
        };
        if let Err(IoFault::Failed) = result {
            self.failed = true;
        }
        result
    }
}

/// What an error of the standard library says.
fn fault_of(error: &io::Error) -> IoFault {
    if error.kind() == ErrorKind::Interrupted {
        IoFault::Interrupted
    } else {
        IoFault::Failed
    }
}
