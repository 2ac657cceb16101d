//! Why the program gave no report, and the status that says so.

ghost use Rattle.std.specs.Prelude.{◌≡◌, ◌↔◌, IsTrue};
ghost use Rattle.p21_report.specs.declared.program_error.ProgramError.TheVariants.{Device, Memory, Words};

use std::alloc::AllocError;
use thiserror::Error;

/// Why the program gave no report.
#[derive(Debug, Drop, Error)]
pub(crate) enum ProgramError {
    /// The words were refused, or ask for the help.
    #[error(transparent)]
    Words(clap::Error),
    /// A file, a reader or a writer failed, or a bound was passed.
    #[error("p21check: input or output failed")]
    Device,
    /// Memory was refused, or a thread for a lane.
    #[error("p21check: out of memory")]
    Memory(#[from(alloc)] AllocError),
}

impl From<clap::Error> for ProgramError {
    fn from(error: clap::Error) -> ProgramError {
        if error.kind() == clap::error::ErrorKind::OutOfMemory {
            return ProgramError::Memory(AllocError);
        }
        ProgramError::Words(error)
    }
}

impl ProgramError {
    /// Whether the error is the help that was asked for.
    pub(crate) fn is_help(&self) -> bool {
        matches!(self, ProgramError::Words(error) if !error.use_stderr())
    }

    /// The status that the program ends with: 2 where the words were refused, 4 and 5 as the messages say.
    pub(crate) fn status(&self) -> u8
        ensures words { (error : _) → self.now ≡ ProgramError.Words error → result ≡ 2 }
        ensures device { self.now ≡ ProgramError.Device → result ≡ 4 }
        ensures memory { (error : _) → self.now ≡ ProgramError.Memory error → result ≡ 5 }
    {
        match self {
            ProgramError::Words(_) => 2,
            ProgramError::Device => 4,
            ProgramError::Memory(_) => 5,
        }
    }
}
