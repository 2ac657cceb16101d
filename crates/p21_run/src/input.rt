//! Reading a whole input within bounds.

ghost use Rattle.std.specs.Prelude.{◌≡◌, ◌+◌, ◌<◌, ◌≤◌, ◌++◌, false, true, length, vec_len, min, Err, IfOk, IfSome, OnOk};
ghost use Rattle.std.specs.Io.KnownBytes.{IsAtEnd};
ghost use Rattle.p21_run.specs.Run.{outcome_without};
ghost use Rattle.p21_run.specs.declared.input.InputError.TheVariants.{Device, Memory};

use crate::outcome::Outcome;
use crate::source::{IoFault, Source};
use std::alloc::{AllocError, Global};

/// How many bytes are asked for at a time.
const CHUNK: usize = 65536;

/// What one input may take.
#[derive(Clone, Copy, Debug)]
pub struct Bounds {
    /// The most bytes.
    pub bytes: usize,
    /// The most calls of `read`; an interrupted one counts and is made again.
    pub calls: u64,
}

/// The bounds of a schema.
pub const SCHEMA_BOUNDS: Bounds = Bounds {
    bytes: 16_777_216,
    calls: 16_777_216,
};

/// The bounds of an exchange structure.
pub const FILE_BOUNDS: Bounds = Bounds {
    bytes: 4_294_967_296,
    calls: 16_777_216,
};

/// Why an input was not read.
#[derive(Clone, Copy, Debug, PartialEq, Eq)]
pub enum InputError {
    /// The source failed, or a bound was passed.
    Device,
    /// There was no memory left.
    Memory,
}

impl From<AllocError> for InputError {
    ghost from_gives = { λ _ e. e ≡ Memory };

    fn from(_error: AllocError) -> InputError {
        InputError::Memory
    }
}

impl InputError {
    /// The outcome of a run that has no answer for it.
    pub fn outcome(self) -> Outcome
        // The outcome of the same name.
        ensures { result ≡ outcome_without self }
    {
        match self {
            InputError::Device => Outcome::Device,
            InputError::Memory => Outcome::Memory,
        }
    }
}

/// Reads a source to its end. `Device` where a call fails or a bound is passed.
pub fn read_bounded<S: Source>(
    alloc: Global,
    source: &mut S,
    bounds: Bounds,
) -> Result<Vec<u8>, InputError>
    // Of a source that tells its bytes, those that it had left.
    ensures whole { IfOk result (λ bytes. IfSome (S.remaining source.old) (λ all. bytes.items ≡ all)) }
    // At most as many as the limit.
    ensures bounded { IfOk result (λ bytes. vec_len bytes ≤ bounds.bytes) }
    // None is left.
    ensures at_end { IfOk result (λ _. IsAtEnd (S.remaining source.new)) }
    // A source that tells its bytes and never failed gives Device only where it was interrupted, or has at least as
    // many bytes as a limit.
    ensures cause { result ≡ Err Device → S.marked source.new ≡ false → IfSome (S.remaining source.old) (λ all. min bounds.bytes bounds.calls ≤ length all) }
    // If a source fails that had not failed before, the result is Device.
    ensures failed { S.failed source.old ≡ false → S.failed source.new ≡ true → result ≡ Err Device }
{
    let mut chunk = vec![in alloc; 0u8; CHUNK]?;
    let mut bytes = Vec::new(alloc);
    for _ in 0..bounds.calls {
        match source.read(chunk.as_mut_slice()) {
            Ok(0) => return Ok(bytes),
            Ok(count) => append(&mut bytes, &chunk.as_slice()[..count], bounds)?,
            Err(IoFault::Interrupted) => {}
            Err(IoFault::Failed) => return Err(InputError::Device),
        }
    }
    Err(InputError::Device)
}

/// Adds what one call gave.
fn append(bytes: &mut Vec<u8>, more: &[u8], bounds: Bounds) -> Result<(), InputError>
    ensures added { OnOk result (bytes.new.items ≡ bytes.old.items ++ more.now) }
    ensures bounded { OnOk result (vec_len bytes.old + length more.now ≤ bounds.bytes) }
    ensures cause { result ≡ Err Device → bounds.bytes < vec_len bytes.old + length more.now }
{
    if bytes.len() > bounds.bytes || more.len() > bounds.bytes - bytes.len() {
        return Err(InputError::Device);
    }
    bytes.extend_from_slice(more)?;
    Ok(())
}
