//! The program, over its arguments.

use crate::beside::Beside;
use crate::database::export_database;
use crate::place::{Place, input_at_place, is_no_file, is_schema_misplaced};
use crate::words::{Onto, Refusal, Wanted, what_is_wanted};
use p21_export::{Options, Outcome, Source, Stream, export};
use p21_report::{
    Explainer, LastError, Names, Opened, Program, Progress, REPLACED_WORDS, Screen, Stage, Watched,
    drawn_key, mend_schema,
};
use std::alloc::Global;
use std::fs::{File, Files};
use std::io::{self, Read, Write};
use std::sync::Wait;
use std::thread::Threads;
use std::time::Clock;

/// What the system gives a run besides files, threads and the clock.
pub struct Around<'a, I, O, E> {
    pub input: &'a mut I,
    pub output: &'a mut O,
    pub errors: &'a mut E,
    /// What the errors are.
    pub screen: Screen,
}

/// Does what the words ask for, and answers the status to end with. How far it is is told on a line of `progress`. `host` is `rt` for
/// the writer of databases, which takes no other.
///
/// Options, messages, exit statuses and what is written are tested.
pub fn program<R, I, O, E, P>(
    rt: &R,
    host: &HostRuntime,
    alloc: Global,
    words: &[String],
    around: Around<'_, I, O, E>,
    progress: P,
) -> u8
where
    R: Files + Threads + Wait + Clock + Sync,
    I: Read,
    O: Write,
    E: Write,
    P: Write + Send + Drop,
{
    let Around {
        input,
        output,
        errors,
        screen,
    } = around;
    match what_is_wanted(alloc, words, screen) {
        Ok(wanted) => {
            if let Some(input) = input_at_place(host, &wanted) {
                return refused_input(input, errors);
            }
            if is_schema_misplaced(host, &wanted) {
                return refused_schema(errors);
            }
            let is_shown = screen.is_terminal || wanted.options.progress;
            let progress = Progress::new(rt, progress, Program::Export, is_shown);
            let mut said = String::new(alloc);
            let mut is_closed = false;
            let outcome = mend_and_export(
                rt,
                host,
                alloc,
                &wanted,
                &progress,
                input,
                output,
                &mut said,
                &mut is_closed,
            );
            if is_closed {
                return DEVICE_STATUS;
            }
            let status = status_of(outcome, errors);
            let _ = errors.write_all(said.as_bytes());
            status
        }
        Err(Refusal::Memory) => status_of(Outcome::Memory, errors),
        Err(Refusal::Words(error)) if error.use_stderr() => {
            let _ = write!(errors, "{error}");
            2
        }
        Err(Refusal::Words(error)) => match write!(output, "{error}") {
            Ok(()) => 0,
            Err(_) => status_of(Outcome::Device, errors),
        },
    }
}

/// What the program ends with where its words could not be read.
pub fn unreadable_words<E: Write>(errors: &mut E) -> u8 {
    let _ = writeln!(
        errors,
        "p21export: invalid UTF-8 was detected in one or more arguments"
    );
    2
}

/// What the program ends with where OUT is one of its inputs.
fn refused_input<E: Write>(input: &str, errors: &mut E) -> u8 {
    let _ = writeln!(
        errors,
        "p21export: OUT is the same file as {input}, which an export does not replace"
    );
    2
}

/// What the program ends with where the schema is to be written over an input or an output.
fn refused_schema<E: Write>(errors: &mut E) -> u8 {
    let _ = writeln!(errors, "p21export: {REPLACED_WORDS}");
    2
}

/// The status of a run of which a device failed.
const DEVICE_STATUS: u8 = 4;

/// The status of a run, which is told where it wrote no report.
fn status_of<E: Write>(outcome: Outcome, errors: &mut E) -> u8 {
    match outcome {
        Outcome::Complete => 0,
        Outcome::Faulty => 1,
        Outcome::SchemaRefused => 3,
        Outcome::Device => {
            let _ = writeln!(errors, "p21export: input or output failed");
            DEVICE_STATUS
        }
        Outcome::Memory => {
            let _ = writeln!(errors, "p21export: out of memory");
            5
        }
    }
}

/// Mends the schema if that is wanted, and then does as `export_wanted`.
fn mend_and_export<R, I, O, P>(
    rt: &R,
    host: &HostRuntime,
    alloc: Global,
    wanted: &Wanted<'_>,
    progress: &Progress<&R, P>,
    input: &mut I,
    output: &mut O,
    said: &mut String,
    is_closed: &mut bool,
) -> Outcome
where
    R: Files + Threads + Wait + Clock + Sync,
    I: Read,
    O: Write,
    P: Write + Send + Drop,
{
    let text = match mend_schema(rt, alloc, wanted.mending(), said) {
        Ok(text) => text,
        Err(outcome) => return outcome,
    };
    let wanted = Wanted {
        text: text.as_deref(),
        ..*wanted
    };
    export_wanted(
        rt, host, alloc, &wanted, progress, input, output, said, is_closed,
    )
}

/// Exports from the paths that are wanted, tells how far it is, and keeps what is to be said of faults, and of devices that failed, and
/// whether the standard output was closed.
fn export_wanted<R, I, O, P>(
    rt: &R,
    host: &HostRuntime,
    alloc: Global,
    wanted: &Wanted<'_>,
    progress: &Progress<&R, P>,
    input: &mut I,
    output: &mut O,
    said: &mut String,
    is_closed: &mut bool,
) -> Outcome
where
    R: Files + Threads + Wait + Clock + Sync,
    I: Read,
    O: Write,
    P: Write + Send + Drop,
{
    progress.tell(Stage::Schema);
    let names = Names {
        program: Program::Export.name(),
        schema: wanted.schema,
        file: wanted.file,
        output: wanted.out_name(),
    };
    let mut explainer = Explainer::new(alloc, progress, names, &wanted.options).with_devices();
    let outcome = if wanted.file == "-" {
        let file = Stream::new(input);
        export_from(
            rt,
            host,
            alloc,
            wanted,
            progress,
            file,
            output,
            &mut explainer,
        )
    } else {
        let file = Opened::file(rt, wanted.file);
        export_from(
            rt,
            host,
            alloc,
            wanted,
            progress,
            file,
            output,
            &mut explainer,
        )
    };
    *is_closed = explainer.is_closed();
    // Where there is no memory for it, less is said.
    let _ = said.push_str(explainer.into_said().as_str());
    outcome
}

/// Exports to where it is wanted.
fn export_from<R, F, O, P>(
    rt: &R,
    host: &HostRuntime,
    alloc: Global,
    wanted: &Wanted<'_>,
    progress: &Progress<&R, P>,
    file: F,
    output: &mut O,
    explainer: &mut Explainer<'_, &R, P>,
) -> Outcome
where
    R: Files + Threads + Wait + Clock + Sync,
    F: Source + LastError + Drop,
    O: Write,
    P: Write + Send + Drop,
{
    let mut fault = Vec::new(alloc);
    let outcome = match wanted.onto {
        Onto::Json("-") => {
            export_to(
                rt,
                alloc,
                wanted,
                progress,
                file,
                &mut *output,
                &mut fault,
                explainer,
            )
        }
        Onto::Json(path) => export_json(
            rt, host, alloc, wanted, path, progress, file, &mut fault, explainer,
        ),
        Onto::Sqlite(path) => export_database(
            rt, host, alloc, wanted, path, progress, file, &mut fault, explainer,
        ),
    };
    match output.write_all(fault.as_slice()) {
        Ok(()) => outcome,
        Err(_) => Outcome::Device,
    }
}

/// Exports JSON to a path.
fn export_json<R, F, P>(
    rt: &R,
    host: &HostRuntime,
    alloc: Global,
    wanted: &Wanted<'_>,
    path: &str,
    progress: &Progress<&R, P>,
    file: F,
    fault: &mut Vec<u8>,
    explainer: &mut Explainer<'_, &R, P>,
) -> Outcome
where
    R: Files + Threads + Wait + Clock + Sync,
    F: Source + LastError + Drop,
    P: Write + Send + Drop,
{
    if is_no_file(host, path) {
        return match File::create(host, path) {
            Ok(onto) => export_to(rt, alloc, wanted, progress, file, onto, fault, explainer),
            Err(error) => refused(explainer, error),
        };
    }
    let place = match Place::of(host, alloc, path) {
        Ok(place) => place,
        Err(error) => return refused(explainer, error),
    };
    match Beside::create(host, alloc, &place) {
        Ok(beside) => export_beside(
            rt, alloc, wanted, &place, progress, file, beside, fault, explainer,
        ),
        Err(error) => refused(explainer, error),
    }
}

/// What a run ends with that cannot write where it is wanted.
pub(crate) fn refused<R: Clock, P: Write>(
    explainer: &mut Explainer<'_, &R, P>,
    error: io::Error,
) -> Outcome {
    let outcome = if error.kind() == io::ErrorKind::OutOfMemory {
        Outcome::Memory
    } else {
        Outcome::Device
    };
    explainer.hear_end(outcome, [None, None, Some(error)]);
    outcome
}

/// Exports into a new file beside the place, which takes it when it is whole.
fn export_beside<R, F, P>(
    rt: &R,
    alloc: Global,
    wanted: &Wanted<'_>,
    place: &Place,
    progress: &Progress<&R, P>,
    file: F,
    beside: Beside<'_>,
    fault: &mut Vec<u8>,
    explainer: &mut Explainer<'_, &R, P>,
) -> Outcome
where
    R: Files + Threads + Wait + Clock + Sync,
    F: Source + LastError + Drop,
    P: Write + Send + Drop,
{
    let mut beside = beside;
    let onto = beside.file();
    let outcome = export_to(rt, alloc, wanted, progress, file, onto, fault, explainer);
    if outcome != Outcome::Complete {
        beside.remove();
        return outcome;
    }
    match beside.take_place(place) {
        Ok(()) => Outcome::Complete,
        Err(error) => refused(explainer, error),
    }
}

/// Exports onto what takes the bytes, and has the explainer hear the end.
fn export_to<R, F, W, P>(
    rt: &R,
    alloc: Global,
    wanted: &Wanted<'_>,
    progress: &Progress<&R, P>,
    file: F,
    onto: W,
    fault: &mut Vec<u8>,
    explainer: &mut Explainer<'_, &R, P>,
) -> Outcome
where
    R: Files + Threads + Wait + Clock + Sync,
    F: Source + LastError + Drop,
    W: Write + Drop,
    P: Write + Send + Drop,
{
    let options = Options {
        gate: progress,
        lanes: wanted.options.lanes,
        capacity: wanted.options.capacity,
        all: false,
        rules: wanted.options.rules,
        key: drawn_key(rt),
    };
    let mut schema = Opened::schema(rt, wanted.schema).with_text(wanted.text);
    let mut file = Watched::new(file, progress);
    let mut out = Stream::new(onto);
    let mut told = Stream::new(fault);
    let outcome = export(
        rt,
        alloc,
        &options,
        &mut schema,
        &mut file,
        &mut out,
        &mut told,
        explainer,
    );
    progress.remove();
    explainer.hear_end(
        outcome,
        [schema.error(), file.source().error(), out.error()],
    );
    outcome
}
