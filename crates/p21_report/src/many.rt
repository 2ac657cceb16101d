//! Many files in one run, each against the schema that it names.

use crate::command_line::run_told;
use crate::found::{
    NamedSchema, files_in, front_of, is_no_file, named_schema, path_of, schemas_in,
};
use crate::program_error::ProgramError;
use crate::progress::Progress;
use crate::words::{Many, Wanted};
use p21_explain::{Format, explain_device};
use p21_run::Outcome;
use p21_where_findings::WhereChecker;
use std::alloc::{AllocError, Global};
use std::collections::BTreeSet;
use std::fs::Files;
use std::io::{self, Write};
use std::str;
use std::sync::Wait;
use std::thread::Threads;
use std::time::Clock;

/// The status of a schema that is refused or is not there, and of a file that cannot be read.
const NO_SCHEMA: u8 = 3;

const UNREADABLE: u8 = 4;

/// Runs over each file, in turn: each line of a report begins with the file's name, and so does what is told of one that is not checked. The
/// answer is the greatest status of a file. Where the output takes nothing more, the run ends.
pub(crate) fn run_many<R, W, O, E, C, P>(
    rt: &R,
    alloc: Global,
    where_checker: &W,
    many: &Many<'_>,
    progress: &Progress<C, P>,
    output: &mut O,
    errors: &mut E,
) -> Result<u8, ProgramError>
where
    R: Files + Threads + Wait + Sync,
    W: WhereChecker,
    O: Write,
    E: Write,
    C: Clock + Sync + Drop,
    P: Write + Send + Drop,
{
    let schemas = match schemas_in(rt, alloc, many.folder) {
        Ok(schemas) => schemas,
        Err(error) => {
            tell_error(alloc, errors, many.folder, error);
            return Ok(UNREADABLE);
        }
    };
    let mut worst = 0;
    let mut told = BTreeSet::new(alloc);
    for path in &many.paths {
        let files = files_in(rt, alloc, path)?;
        let status = run_files(
            rt,
            alloc,
            where_checker,
            many,
            &schemas,
            &files,
            &mut told,
            progress,
            output,
            errors,
        )?;
        worst = status.max(worst);
    }
    Ok(worst)
}

/// The greatest status of some files. Of a schema that is not among those that were told of, it is told how it is mended.
fn run_files<'s, R, W, O, E, C, P>(
    rt: &R,
    alloc: Global,
    where_checker: &W,
    many: &Many<'_>,
    schemas: &'s [NamedSchema],
    files: &[String],
    told: &mut BTreeSet<&'s str>,
    progress: &Progress<C, P>,
    output: &mut O,
    errors: &mut E,
) -> Result<u8, ProgramError>
where
    R: Files + Threads + Wait + Sync,
    W: WhereChecker,
    O: Write,
    E: Write,
    C: Clock + Sync + Drop,
    P: Write + Send + Drop,
{
    let mut worst = 0;
    for file in files {
        let file = file.as_str();
        let status = match schema_of(rt, alloc, many, schemas, file, errors) {
            Ok(schema) => {
                let wanted = Wanted {
                    schema,
                    file,
                    tells_changes: told.insert(schema)?,
                    ..many.each
                };
                run_file(rt, alloc, where_checker, &wanted, progress, output, errors)?
            }
            Err(status) => status,
        };
        worst = status.max(worst);
    }
    Ok(worst)
}

/// The path of the schema that a file names; where that is not there, the status, and it is told.
fn schema_of<'a, R: Files, E: Write>(
    rt: &R,
    alloc: Global,
    many: &Many<'_>,
    schemas: &'a [NamedSchema],
    file: &str,
    errors: &mut E,
) -> Result<&'a str, u8> {
    if is_no_file(rt, file) {
        tell(alloc, errors, file, "it is not a regular file");
        return Err(UNREADABLE);
    }
    let front = match front_of(rt, alloc, file) {
        Ok(front) => front,
        Err(error) => {
            tell_error(alloc, errors, file, error);
            return Err(UNREADABLE);
        }
    };
    let Some(name) = named_schema(&front) else {
        tell(alloc, errors, file, "it names no schema in FILE_SCHEMA");
        return Err(NO_SCHEMA);
    };
    match path_of(schemas, name) {
        Some(path) => Ok(path),
        None => {
            tell_missing(alloc, errors, file, name, many.folder);
            Err(NO_SCHEMA)
        }
    }
}

/// Runs over a file; answers the status.
fn run_file<R, W, O, E, C, P>(
    rt: &R,
    alloc: Global,
    where_checker: &W,
    wanted: &Wanted<'_>,
    progress: &Progress<C, P>,
    output: &mut O,
    errors: &mut E,
) -> Result<u8, ProgramError>
where
    R: Files + Threads + Wait + Sync,
    W: WhereChecker,
    O: Write,
    E: Write,
    C: Clock + Sync + Drop,
    P: Write + Send + Drop,
{
    let mut report = Vec::new(alloc);
    let mut said = String::new(alloc);
    let outcome = run_told(
        rt,
        alloc,
        where_checker,
        wanted,
        progress,
        &mut io::empty(),
        &mut report,
        &mut said,
    );
    if write_report(alloc, output, wanted.file, &report).is_err() {
        return Err(ProgramError::Device);
    }
    // As of any other word on `errors`, whether it could be written changes no status.
    let _ = errors.write_all(said.as_bytes());
    Ok(match outcome {
        Outcome::Complete => 0,
        Outcome::Faulty => 1,
        Outcome::SchemaRefused => NO_SCHEMA,
        Outcome::Device => UNREADABLE,
        Outcome::Memory => {
            tell(alloc, errors, wanted.file, "out of memory");
            5
        }
    })
}

/// Writes the lines of a report, each after the name of its file.
fn write_report<O: Write>(
    alloc: Global,
    output: &mut O,
    file: &str,
    report: &[u8],
) -> io::Result<()> {
    for line in report.split(|byte| *byte == b'\n') {
        if !line.is_empty() {
            let named = named_line(alloc, file, line)?;
            output.write_all(named.as_bytes())?;
        }
    }
    output.flush()
}

/// A line of a report, after the name of its file.
fn named_line(alloc: Global, file: &str, line: &[u8]) -> Result<String, AllocError> {
    match str::from_utf8(line) {
        Ok(words) => explain_device(alloc, file, words, Format::Text),
        Err(_) => explain_device(alloc, file, "", Format::Text),
    }
}

/// Tells why a path is not read.
fn tell_error<E: Write>(alloc: Global, errors: &mut E, path: &str, error: io::Error) {
    if let Ok(words) = format!(in alloc; "{error}") {
        tell(alloc, errors, path, words.as_str());
    }
}

/// Tells which schema is not there.
fn tell_missing<E: Write>(alloc: Global, errors: &mut E, file: &str, name: &[u8], folder: &str) {
    let name = str::from_utf8(name).unwrap_or("of its name");
    if let Ok(words) = format!(in alloc; "no schema {name} in {folder}") {
        tell(alloc, errors, file, words.as_str());
    }
}

/// Tells of a path. Where there is no memory for it, or it cannot be written, it is not told.
fn tell<E: Write>(alloc: Global, errors: &mut E, path: &str, words: &str) {
    if let Ok(told) = explain_device(alloc, path, words, Format::Text) {
        let _ = errors.write_all(told.as_bytes());
    }
}
