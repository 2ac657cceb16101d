//! The program, over its arguments and any readers and writers.

ghost use Rattle.std.specs.Prelude.{◌≡◌, Ok, Err};
ghost use Rattle.p21_run.specs.declared.outcome.Outcome.TheVariants.{Complete, Faulty, SchemaRefused, Device as Failed, Memory as NoMemory};
ghost use Rattle.p21_report.specs.declared.program_error.ProgramError.TheVariants.{Device, Memory};

use crate::explainer::{Explainer, LookedAt, Names, STANDARD_OUTPUT};
use crate::key::drawn_key;
use crate::many::run_many;
use crate::mending::{Mending, input_at, mend_schema};
use crate::opened::{LastError, Opened};
use crate::program_error::ProgramError;
use crate::progress::{NoClock, Program, Progress, Stage};
use crate::renamed::renamed_for;
use crate::screen::Screen;
use crate::watched::Watched;
use crate::words::{Asked, Wanted, not_text, replaces_input, what_is_wanted};
use p21_rule_run::run_rules;
use p21_run::{Options, Outcome, Source, Stream, run_heard};
use p21_where_findings::WhereChecker;
use std::alloc::{AllocError, Global};
use std::fs::Files;
use std::io::{self, Read, Write};
use std::sync::Wait;
use std::thread::Threads;
use std::time::Clock;

/// The program `p21check [OPTIONS] SCHEMA FILE`: reads the schema, checks the file against it by `--lanes` worker threads (4) of this
/// `--capacity` (256, or 4096 for a file above 16 MiB), and writes the report to `output`; with `--all` that of every fault. With `--distinct` a SET or a LIST OF UNIQUE
/// that names one instance twice is a fault; with `--rules` so is an instance that breaks a rule UNIQUE or
/// an INVERSE attribute of the schema. With `--mend` the text of the schema is mended before it is read, each change is told on `errors`, and with
/// `--write-schema OUT` the text is written. With `--explain` at most so many faults (20) are then explained on `errors`, and a device
/// that failed, where there is memory; with `--format json` as objects.
///
/// `words` are the arguments of the command line, the program's own name first; FILE `-` is `input`, and `rt` opens the others,
/// FILE only where the schema was read. The answer is the exit status: 0 where the file has no fault, 1 where it has one, 2 for a usage
/// error (clap's text goes to `errors`), 3 where the schema was refused, 4 where a file could not be opened, read or written, or a limit
/// on bytes or calls was exceeded, 5 without memory or a thread. The help and the version go to `output`, with status 0. A failed write
/// to `errors` changes no status. No progress is shown.
///
/// Options, messages and exit statuses are tested.
pub fn program<R, W, I, O, E>(
    rt: &R,
    alloc: Global,
    where_checker: &W,
    words: &[String],
    input: &mut I,
    output: &mut O,
    errors: &mut E,
) -> u8
where
    R: Files + Threads + Wait + Sync,
    W: WhereChecker,
    I: Read,
    O: Write,
    E: Write,
{
    let told = Told {
        clock: NoClock,
        out: io::sink(),
        screen: Screen::none(),
    };
    run_words(rt, alloc, where_checker, words, input, output, errors, told)
}

/// The same as `program`, which shows its progress on a line of `progress`, where that is a terminal or `--progress` is given: what it is
/// at and how much of the file it has read, at most ten times a second. The line is removed before the report is written. Where
/// `progress` is a terminal, as `screen` says, faults are explained unless `--explain=0` is given, and in colours where it has some.
///
/// So is the progress line.
pub fn program_with_progress<R, W, I, O, E, P>(
    rt: &R,
    alloc: Global,
    where_checker: &W,
    words: &[String],
    input: &mut I,
    output: &mut O,
    errors: &mut E,
    progress: P,
    screen: Screen,
) -> u8
where
    R: Files + Threads + Wait + Clock + Sync,
    W: WhereChecker,
    I: Read,
    O: Write,
    E: Write,
    P: Write + Send + Drop,
{
    let told = Told {
        clock: rt,
        out: progress,
        screen,
    };
    run_words(rt, alloc, where_checker, words, input, output, errors, told)
}

/// By what it is told how far a run is.
#[derive(Drop)]
struct Told<C, P> {
    clock: C,
    out: P,
    screen: Screen,
}

/// The status of what the words ask for; what is wrong, and what is to be said of it, is told on `errors`.
fn run_words<R, W, I, O, E, C, P>(
    rt: &R,
    alloc: Global,
    where_checker: &W,
    words: &[String],
    input: &mut I,
    output: &mut O,
    errors: &mut E,
    told: Told<C, P>,
) -> u8
where
    R: Files + Threads + Wait + Sync,
    W: WhereChecker,
    I: Read,
    O: Write,
    E: Write,
    C: Clock + Sync + Drop,
    P: Write + Send + Drop,
{
    let mut said = String::new(alloc);
    let status = match report(
        rt,
        alloc,
        where_checker,
        words,
        input,
        output,
        errors,
        told,
        &mut said,
    ) {
        Ok(status) => status,
        Err(error) => tell(&error, output, errors),
    };
    // As of any other word on `errors`, whether it could be written changes no status.
    let _ = errors.write_all(said.as_bytes());
    status
}

/// What the program ends with where its words could not be read, as where one is no text: their error is told on
/// `errors`, and the answer is the status.
pub fn unreadable_words<E: Write>(alloc: Global, error: &io::Error, errors: &mut E) -> u8 {
    let error = if error.kind() == io::ErrorKind::OutOfMemory {
        ProgramError::Memory(AllocError)
    } else {
        not_text(alloc)
    };
    tell_on(&error, errors)
}

/// Runs over the schema and the file that the words name, and keeps what is to be said of faults, and of devices that failed.
fn report<R, W, I, O, E, C, P>(
    rt: &R,
    alloc: Global,
    where_checker: &W,
    words: &[String],
    input: &mut I,
    output: &mut O,
    errors: &mut E,
    told: Told<C, P>,
    said: &mut String,
) -> Result<u8, ProgramError>
where
    R: Files + Threads + Wait + Sync,
    W: WhereChecker,
    I: Read,
    O: Write,
    E: Write,
    C: Clock + Sync + Drop,
    P: Write + Send + Drop,
{
    let asked = what_is_wanted(alloc, words, told.screen)?;
    let is_shown = told.screen.is_terminal || asked.options().progress;
    let progress = Progress::new(told.clock, told.out, Program::Check, is_shown);
    match &asked {
        Asked::One(wanted) => {
            if is_input(rt, wanted) {
                return Err(replaces_input(alloc));
            }
            status_of(run_told(
                rt,
                alloc,
                where_checker,
                wanted,
                &progress,
                input,
                output,
                said,
            ))
        }
        Asked::Many(many) => run_many(rt, alloc, where_checker, many, &progress, output, errors),
    }
}

/// Whether the text of the schema would be written over the schema or the file.
fn is_input<R: Files>(rt: &R, wanted: &Wanted<'_>) -> bool {
    match wanted.write_schema {
        Some(path) => input_at(rt, path, wanted.schema, wanted.file).is_some(),
        None => false,
    }
}

/// Mends the schema if that is wanted, runs over it and the file, tells how far it is, and keeps what is to be said.
pub(crate) fn run_told<R, W, I, O, C, P>(
    rt: &R,
    alloc: Global,
    where_checker: &W,
    wanted: &Wanted<'_>,
    progress: &Progress<C, P>,
    input: &mut I,
    output: &mut O,
    said: &mut String,
) -> Outcome
where
    R: Files + Threads + Wait + Sync,
    W: WhereChecker,
    I: Read,
    O: Write,
    C: Clock + Sync + Drop,
    P: Write + Send + Drop,
{
    let text = match mend_schema(rt, alloc, mending_of(wanted), said) {
        Ok(text) => text,
        Err(outcome) => return outcome,
    };
    progress.tell(Stage::Schema);
    let options = wanted.options;
    let mut explainer = Explainer::new(alloc, progress, names_of(wanted), &options)
        .with_all(wanted.all)
        .with_summary(wanted.summary);
    if wanted.is_of_many {
        explainer = explainer.with_devices();
    }
    let wanted = Wanted {
        text: text.as_deref(),
        ..*wanted
    };
    let outcome = if wanted.summary {
        run_summed(
            rt,
            alloc,
            where_checker,
            &wanted,
            progress,
            input,
            output,
            &mut explainer,
        )
    } else {
        run_from(
            rt,
            alloc,
            where_checker,
            &wanted,
            progress,
            input,
            output,
            &mut explainer,
        )
    };
    if wanted.is_terminal && outcome == Outcome::Complete {
        explainer.hear_clean(LookedAt {
            rules: wanted.ruled,
            distinct: options.rules.distinct,
        });
    }
    // Where there is no memory for it, less is said.
    let _ = said.push_str(explainer.into_said().as_str());
    outcome
}

/// How the schema is mended.
fn mending_of<'a>(wanted: &Wanted<'a>) -> Mending<'a> {
    Mending {
        is_wanted: wanted.options.mends,
        is_told: wanted.tells_changes,
        schema: wanted.schema,
        onto: wanted.write_schema,
        format: wanted.options.format,
    }
}

/// Runs over the schema and the file, and writes the summary of the faults in the place of a line for each, or the report where there is none.
fn run_summed<R, W, I, O, C, P>(
    rt: &R,
    alloc: Global,
    where_checker: &W,
    wanted: &Wanted<'_>,
    progress: &Progress<C, P>,
    input: &mut I,
    output: &mut O,
    explainer: &mut Explainer<'_, C, P>,
) -> Outcome
where
    R: Files + Threads + Wait + Sync,
    W: WhereChecker,
    I: Read,
    O: Write,
    C: Clock + Sync + Drop,
    P: Write + Send + Drop,
{
    let mut report = Vec::new(alloc);
    let outcome = run_from(
        rt,
        alloc,
        where_checker,
        wanted,
        progress,
        input,
        &mut report,
        explainer,
    );
    match write_either(output, explainer.summary().as_bytes(), &report) {
        Ok(()) => outcome,
        Err(error) => {
            explainer.hear_end(Outcome::Device, [None, None, Some(error)]);
            Outcome::Device
        }
    }
}

/// Writes a summary, or where there is none a report.
fn write_either<O: Write>(output: &mut O, summary: &[u8], report: &[u8]) -> io::Result<()> {
    output.write_all(if summary.is_empty() { report } else { summary })?;
    output.flush()
}

/// Runs over the schema and the file, which is the standard input where its path is `-`.
fn run_from<R, W, I, O, C, P>(
    rt: &R,
    alloc: Global,
    where_checker: &W,
    wanted: &Wanted<'_>,
    progress: &Progress<C, P>,
    input: &mut I,
    output: &mut O,
    explainer: &mut Explainer<'_, C, P>,
) -> Outcome
where
    R: Files + Threads + Wait + Sync,
    W: WhereChecker,
    I: Read,
    O: Write,
    C: Clock + Sync + Drop,
    P: Write + Send + Drop,
{
    let schema = Opened::schema(rt, wanted.schema).with_text(wanted.text);
    if wanted.file == "-" {
        let file = Stream::new(input);
        return run_over(
            rt,
            alloc,
            where_checker,
            wanted,
            progress,
            schema,
            file,
            output,
            explainer,
        );
    }
    let file = Opened::file(rt, wanted.file);
    if wanted.any_name {
        if let Some(renamed) = renamed_for(rt, alloc, wanted) {
            explainer.hear_renamed(&renamed.name);
            let schema = Opened::schema(rt, wanted.schema).with_text(Some(&renamed.text));
            return run_over(
                rt,
                alloc,
                where_checker,
                wanted,
                progress,
                schema,
                file,
                output,
                explainer,
            );
        }
    }
    run_over(
        rt,
        alloc,
        where_checker,
        wanted,
        progress,
        schema,
        file,
        output,
        explainer,
    )
}

/// By what names the run is told of.
fn names_of<'a>(wanted: &Wanted<'a>) -> Names<'a> {
    Names {
        program: Program::Check.name(),
        schema: wanted.schema,
        file: wanted.file,
        output: STANDARD_OUTPUT,
    }
}

/// Runs over the schema and the file as it is wanted, and has the explainer hear the end.
fn run_over<R, W, S, F, O, C, P>(
    rt: &R,
    alloc: Global,
    where_checker: &W,
    wanted: &Wanted<'_>,
    progress: &Progress<C, P>,
    schema: S,
    file: F,
    output: &mut O,
    explainer: &mut Explainer<'_, C, P>,
) -> Outcome
where
    R: Files + Threads + Wait + Sync,
    W: WhereChecker,
    S: Source + LastError + Drop,
    F: Source + LastError + Drop,
    O: Write,
    C: Clock + Sync + Drop,
    P: Write + Send + Drop,
{
    let mut schema = schema;
    let mut file = Watched::new(file, progress);
    let mut out = Stream::new(output);
    let options = Options {
        gate: progress,
        lanes: wanted.options.lanes,
        capacity: wanted.options.capacity,
        all: wanted.all,
        rules: wanted.options.rules,
        key: drawn_key(rt),
    };
    let outcome = if wanted.ruled {
        run_rules(
            rt,
            alloc,
            &options,
            where_checker,
            wanted.steps,
            &mut schema,
            &mut file,
            &mut out,
            explainer,
        )
    } else {
        run_heard(
            rt,
            alloc,
            &options,
            &mut schema,
            &mut file,
            &mut out,
            explainer,
        )
    };
    progress.remove();
    explainer.hear_end(
        outcome,
        [schema.error(), file.source().error(), out.error()],
    );
    outcome
}

/// The status of a run that wrote its report.
fn status_of(outcome: Outcome) -> Result<u8, ProgramError>
    ensures complete { outcome ≡ Complete → result ≡ Ok 0 }
    ensures faulty { outcome ≡ Faulty → result ≡ Ok 1 }
    ensures refused { outcome ≡ SchemaRefused → result ≡ Ok 3 }
    ensures device { outcome ≡ Failed → result ≡ Err Device }
    ensures memory { outcome ≡ NoMemory → (error : _) × (result ≡ Err (Memory error)) }
{
    match outcome {
        Outcome::Complete => Ok(0),
        Outcome::Faulty => Ok(1),
        Outcome::SchemaRefused => Ok(3),
        Outcome::Device => Err(ProgramError::Device),
        Outcome::Memory => Err(ProgramError::Memory(AllocError)),
    }
}

/// Tells an error: the help on `output`, any other on `errors`.
fn tell<O: Write, E: Write>(error: &ProgramError, output: &mut O, errors: &mut E) -> u8 {
    if !error.is_help() {
        return tell_on(error, errors);
    }
    match write!(output, "{error}") {
        Ok(()) => 0,
        Err(_) => tell_on(&ProgramError::Device, errors),
    }
}

/// Tells an error that is no help on `errors`.
fn tell_on<E: Write>(error: &ProgramError, errors: &mut E) -> u8 {
    if matches!(error, ProgramError::Words(_)) {
        let _ = write!(errors, "{error}");
    } else {
        let _ = writeln!(errors, "{error}");
    }
    error.status()
}
