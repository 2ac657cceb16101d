//! The text of a schema, mended before it is read.

use p21_explain::{Format, Lines, explain_change, explain_device};
use p21_mend::{Change, mended};
use p21_run::{Outcome, SCHEMA_BOUNDS};
use std::alloc::{AllocError, Global};
use std::fs::{File, Files};
use std::io::{self, Read, Write};
use std::os::unix::fs::MetadataExt;

/// How many bytes of a schema are read at once, and how often at most.
const PART: usize = 4096;

const READS: u32 = 1 << 25;

/// How a schema is mended.
#[derive(Clone, Copy, Debug)]
pub struct Mending<'a> {
    pub is_wanted: bool,
    /// Whether the changes are told.
    pub is_told: bool,
    /// The path of the schema.
    pub schema: &'a str,
    /// The path that its text is written to.
    pub onto: Option<&'a str>,
    pub format: Format,
}

/// The text of the schema of a path; of one that is too long, so much that this is seen.
pub(crate) fn schema_text<R: Files>(rt: &R, alloc: Global, path: &str) -> io::Result<Vec<u8>> {
    let mut file = File::open(rt, path)?;
    let mut text = Vec::new(alloc);
    let mut part = [0; PART];
    for _ in 0..READS {
        let count = file.read(&mut part)?;
        if count == 0 || is_too_long(&text) {
            break;
        }
        text.extend_from_slice(part.get(..count).unwrap_or(b"".as_slice()))?;
    }
    Ok(text)
}

/// Whether a text is longer than a schema may be.
fn is_too_long(text: &[u8]) -> bool {
    text.len() > SCHEMA_BOUNDS.bytes
}

/// The text of a schema, mended, if that is wanted; none where it is not, or the schema cannot be read or is too long. The changes are added to what is to be said, a line
/// each, and so is why the text cannot be written. An error is what the run ends with.
///
/// What is mended, told and written is tested.
pub fn mend_schema<R: Files>(
    rt: &R,
    alloc: Global,
    mending: Mending<'_>,
    said: &mut String,
) -> Result<Option<Vec<u8>>, Outcome> {
    if !mending.is_wanted {
        return Ok(None);
    }
    let text = match schema_text(rt, alloc, mending.schema) {
        Ok(text) if is_too_long(&text) => return Ok(None),
        Ok(text) => text,
        Err(error) => return none_unless_memory(error),
    };
    let Ok(text) = told_and_mended(alloc, mending, &text, said) else {
        return Err(Outcome::Memory);
    };
    if let Some(path) = mending.onto {
        if let Err(error) = write_text(rt, path, &text) {
            let told = tell_not_written(alloc, path, error, mending.format, said);
            return Err(if told.is_ok() {
                Outcome::Device
            } else {
                Outcome::Memory
            });
        }
    }
    Ok(Some(text))
}

/// What is mended of a schema that cannot be read: the run tells of it.
fn none_unless_memory(error: io::Error) -> Result<Option<Vec<u8>>, Outcome> {
    if error.kind() == io::ErrorKind::OutOfMemory {
        Err(Outcome::Memory)
    } else {
        Ok(None)
    }
}

/// A text, mended, whose changes are added to what is to be said.
fn told_and_mended(
    alloc: Global,
    mending: Mending<'_>,
    text: &[u8],
    said: &mut String,
) -> Result<Vec<u8>, AllocError> {
    let found = mended(alloc, text)?;
    if mending.is_told {
        let told = told_changes(alloc, mending.schema, text, &found.changes, mending.format)?;
        said.push_str(told.as_str())?;
    }
    Ok(found.text)
}

/// Adds why a text could not be written.
fn tell_not_written(
    alloc: Global,
    path: &str,
    error: io::Error,
    format: Format,
    said: &mut String,
) -> Result<(), AllocError> {
    let words = format!(in alloc; "{error}")?;
    let told = explain_device(alloc, path, words.as_str(), format)?;
    said.push_str(told.as_str())
}

/// A line for each change.
fn told_changes(
    alloc: Global,
    path: &str,
    text: &[u8],
    changes: &[Change],
    format: Format,
) -> Result<String, AllocError> {
    let mut told = String::new(alloc);
    let mut lines = Lines::new(text);
    for change in changes {
        let line = explain_change(alloc, path, &mut lines, change, format)?;
        told.push_str(line.as_str())?;
    }
    Ok(told)
}

/// Writes a text to a path. What stood there before is lost.
fn write_text<R: Files>(rt: &R, path: &str, text: &[u8]) -> io::Result<()> {
    let mut file = File::create(rt, path)?;
    file.write_all(text)?;
    file.flush()
}

/// The input that is the file of a path too, through whatever links and under whatever names, if it is one. A file `-` is the standard input.
///
/// So is which input it is.
pub fn input_at<R: Files>(rt: &R, path: &str, schema: &str, file: &str) -> Option<&'static str> {
    let file = if file == "-" { "/dev/stdin" } else { file };
    if is_one_file(rt, path, schema) {
        Some("SCHEMA")
    } else if is_one_file(rt, path, file) {
        Some("FILE")
    } else {
        None
    }
}

/// Whether two paths name one regular file.
///
/// That it is told by its device and its number there is tested.
pub fn is_one_file<R: Files>(rt: &R, path: &str, other: &str) -> bool {
    match (rt.metadata(path), rt.metadata(other)) {
        (Ok(found), Ok(of_other)) => {
            found.is_file() && found.dev() == of_other.dev() && found.ino() == of_other.ino()
        }
        _ => false,
    }
}
