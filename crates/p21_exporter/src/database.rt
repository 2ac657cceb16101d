//! An export into a database.

use crate::beside::{Beside, log_beside, log_name};
use crate::command_line::refused;
use crate::place::{Place, is_no_file};
use crate::words::{PROGRAM, Wanted};
use p21_database::{Database, io_error};
use p21_export::{Options, Outcome, Source, Stream};
use p21_report::{Explainer, LastError, Opened, Progress, Watched, drawn_key};
use p21_rows::{About, export_rows};
use sqlite::{Connection, File, FileStore};
use std::alloc::Global;
use std::fs::{self, Files};
use std::io::{self, Write};
use std::os::unix::fs::FileExt;
use std::sync::Wait;
use std::thread::Threads;
use std::time::Clock;

/// What is said of a log that stands where one of the new database would.
const LOG: &str =
    "the log of an earlier database stands here, which would damage the new one: close that database, or remove the log";

/// What is said where an entity has more attributes than a table has room for.
const TOO_WIDE: &str =
    "a limit was exceeded: SQLite takes 2000 columns, and an entity has more than 1998 attributes";

/// Where the header of a database says how it is written to and read, in bytes from its first byte, and what it says for a rollback journal.
const MODES: (u64, [u8; 2]) = (18, [1, 1]);

/// Exports into a new file beside the path, which takes its name when it is whole. What is no regular file is left as it is, and so is a database
/// whose log stands beside it.
pub(crate) fn export_database<R, F, P>(
    rt: &R,
    host: &HostRuntime,
    alloc: Global,
    wanted: &Wanted<'_>,
    path: &str,
    progress: &Progress<&R, P>,
    file: F,
    fault: &mut Vec<u8>,
    explainer: &mut Explainer<'_, &R, P>,
) -> Outcome
where
    R: Files + Threads + Wait + Clock + Sync,
    F: Source + LastError + Drop,
    P: Write + Send + Drop,
{
    if is_no_file(host, path) {
        return refused(explainer, io::Error::from(io::ErrorKind::InvalidInput));
    }
    let place = match Place::of(host, alloc, path) {
        Ok(place) => place,
        Err(error) => return refused(explainer, error),
    };
    if let Some(outcome) = refused_for_log(host, alloc, &place, explainer) {
        return outcome;
    }
    match Beside::create(host, alloc, &place) {
        Ok(beside) => export_beside(
            rt, host, alloc, wanted, &place, progress, file, beside, fault, explainer,
        ),
        Err(error) => refused(explainer, error),
    }
}

/// What a run ends with where the log of an earlier database stands beside the place.
fn refused_for_log<C: Clock, P: Write>(
    host: &HostRuntime,
    alloc: Global,
    place: &Place,
    explainer: &mut Explainer<'_, C, P>,
) -> Option<Outcome> {
    match log_beside(host, alloc, place.path()) {
        Ok(Some(log)) => {
            explainer.hear_refusal(log.as_str(), LOG);
            Some(Outcome::Device)
        }
        Ok(None) => None,
        Err(_) => Some(Outcome::Memory),
    }
}

/// Exports into a new file, which takes the place where no log came to stand beside it meanwhile.
fn export_beside<R, F, P>(
    rt: &R,
    host: &HostRuntime,
    alloc: Global,
    wanted: &Wanted<'_>,
    place: &Place,
    progress: &Progress<&R, P>,
    file: F,
    beside: Beside<'_>,
    fault: &mut Vec<u8>,
    explainer: &mut Explainer<'_, &R, P>,
) -> Outcome
where
    R: Files + Threads + Wait + Clock + Sync,
    F: Source + LastError + Drop,
    P: Write + Send + Drop,
{
    let mut beside = beside;
    let mut outcome = match opened(host, alloc, &beside) {
        Ok(conn) => export_into(rt, alloc, wanted, progress, file, conn, fault, explainer),
        Err(error) => refused(explainer, error),
    };
    if outcome == Outcome::Complete {
        let (at, modes) = MODES;
        outcome = match beside.file().write_all_at(&modes, at) {
            Ok(()) => outcome,
            Err(error) => refused(explainer, error),
        };
    }
    if outcome == Outcome::Complete {
        outcome = refused_for_log(host, alloc, place, explainer).unwrap_or(outcome);
    }
    if outcome != Outcome::Complete {
        beside.remove();
        return outcome;
    }
    match beside.take_place(place) {
        Ok(()) => Outcome::Complete,
        Err(error) => refused(explainer, error),
    }
}

/// The database in a new file. Its log, which is open, has no name: whatever ends the run, one file is left at most.
fn opened(
    host: &HostRuntime,
    alloc: Global,
    beside: &Beside<'_>,
) -> io::Result<Connection<FileStore<File>>> {
    if let Ok(conn) = opened_once(host, alloc, beside.path())? {
        return Ok(conn);
    }
    // A file system of the network may take the lock of the run for one of another database.
    beside.unlock();
    opened_once(host, alloc, beside.path())?.map_err(io_error)
}

/// The database in a file, if it can be opened now.
fn opened_once(
    host: &HostRuntime,
    alloc: Global,
    path: &str,
) -> io::Result<Result<Connection<FileStore<File>>, sqlite::Error>> {
    let log = log_name(alloc, path)?;
    let opened = Connection::open(host, path);
    let _ = fs::remove_file(host, log.as_str());
    Ok(opened)
}

/// Exports into a database, and closes it.
fn export_into<R, F, P>(
    rt: &R,
    alloc: Global,
    wanted: &Wanted<'_>,
    progress: &Progress<&R, P>,
    file: F,
    conn: Connection<FileStore<File>>,
    fault: &mut Vec<u8>,
    explainer: &mut Explainer<'_, &R, P>,
) -> Outcome
where
    R: Files + Threads + Wait + Clock + Sync,
    F: Source + LastError + Drop,
    P: Write + Send + Drop,
{
    let mut database = Database::new(alloc, conn, wanted.all_entities);
    let outcome = export_rows_to(
        rt,
        alloc,
        wanted,
        progress,
        file,
        &mut database,
        fault,
        explainer,
    );
    if outcome != Outcome::Complete {
        return outcome;
    }
    match database.into_connection().close() {
        Ok(()) => Outcome::Complete,
        Err(error) => refused(explainer, io_error(error)),
    }
}

/// Gives the rows to a database, and has the explainer hear the end.
fn export_rows_to<R, F, P>(
    rt: &R,
    alloc: Global,
    wanted: &Wanted<'_>,
    progress: &Progress<&R, P>,
    file: F,
    database: &mut Database<FileStore<File>>,
    fault: &mut Vec<u8>,
    explainer: &mut Explainer<'_, &R, P>,
) -> Outcome
where
    R: Files + Threads + Wait + Clock + Sync,
    F: Source + LastError + Drop,
    P: Write + Send + Drop,
{
    let options = Options {
        gate: progress,
        lanes: wanted.options.lanes,
        capacity: wanted.options.capacity,
        all: false,
        rules: wanted.options.rules,
        key: drawn_key(rt),
    };
    let about = About {
        program: PROGRAM,
        file: wanted.file,
    };
    let mut schema = Opened::schema(rt, wanted.schema).with_text(wanted.text);
    let mut file = Watched::new(file, progress);
    let mut told = Stream::new(fault);
    let outcome = export_rows(
        rt,
        alloc,
        &options,
        &about,
        &mut schema,
        &mut file,
        database,
        &mut told,
        explainer,
    );
    progress.remove();
    if database.is_too_wide() {
        explainer.hear_refusal(wanted.out_name(), TOO_WIDE);
        return outcome;
    }
    explainer.hear_end(
        outcome,
        [schema.error(), file.source().error(), database.error()],
    );
    outcome
}
