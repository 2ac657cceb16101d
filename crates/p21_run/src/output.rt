//! Writing a whole text within a bound.

ghost use Rattle.std.specs.Prelude.{◌≡◌, ◌≤◌, ℕ, false, length, take, OnOk, OnErr};
ghost use Rattle.std.specs.Io.KnownBytes.{Appends};

use crate::source::{IoFault, Sink};

/// The most calls of `write` for a report; one that was interrupted or took no byte counts and is made again.
pub const WRITE_CALLS: u64 = 16_777_216;

/// The sink failed, or the bound on calls was passed.
#[derive(Clone, Copy, Debug, PartialEq, Eq)]
pub struct OutputError;

/// Writes a text in so many calls at most. Where that fails, a front of it is written.
pub fn write_bounded<S: Sink>(sink: &mut S, text: &[u8], calls: u64) -> Result<(), OutputError>
    // The text is written, to a sink that tells its bytes.
    ensures whole { OnOk result (Appends (S.taken sink.old) (S.taken sink.new) text.now) }
    // Otherwise a prefix of it is.
    ensures front { OnErr result ((n : ℕ) × Appends (S.taken sink.old) (S.taken sink.new) (take n text.now)) }
    // It fails only where the sink failed, was interrupted or took no byte, or the text has at least as many bytes as
    // there may be calls.
    ensures cause { OnErr result (S.marked sink.new ≡ false → calls ≤ length text.now) }
    // After a success, a sink that had not failed before has not failed.
    ensures unfailed { OnOk result (S.failed sink.new ≡ S.failed sink.old) }
{
    let mut rest = text;
    for _ in 0..calls {
        if rest.is_empty() {
            return Ok(());
        }
        match sink.write(rest) {
            Ok(count) => rest = &rest[count..],
            Err(IoFault::Interrupted) => {}
            Err(IoFault::Failed) => return Err(OutputError),
        }
    }
    if rest.is_empty() {
        Ok(())
    } else {
        Err(OutputError)
    }
}
