//! Why a database could not be written.

use sqlite::{Error, ErrorCode};
use std::io;

/// The numbers of errors of Linux.
const IO_ERROR: i32 = 5;

const FILE_TOO_LARGE: i32 = 27;

const NO_SPACE: i32 = 28;

/// What the system says of a failure.
pub fn io_error(error: Error) -> io::Error {
    match error {
        Error::SqliteFailure(ErrorCode::DiskFull) => io::Error::from_raw_os_error(NO_SPACE),
        Error::SqliteFailure(ErrorCode::TooBig) => io::Error::from_raw_os_error(FILE_TOO_LARGE),
        Error::SqliteFailure(ErrorCode::OutOfMemory) => io::Error::from(io::ErrorKind::OutOfMemory),
        _ => io::Error::from_raw_os_error(IO_ERROR),
    }
}
