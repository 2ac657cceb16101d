//! The words of the command line.

use clap::error::ErrorKind;
use clap::{Arg, ArgAction, ArgMatches, Command};
use p21_report::{
    EXPLAIN_WORDS, Mending, Options, SCHEMA_WORDS, STANDARD_OUTPUT, Screen, WRITE_WORDS,
    has_bare_number, may_write, options_of, with_lanes, with_mending, with_rules, with_telling,
};
use std::alloc::{AllocError, Global};

/// What a model is written as, and the path that it is written to.
#[derive(Clone, Copy, Debug)]
pub(crate) enum Onto<'a> {
    /// JSON; `-` is the standard output.
    Json(&'a str),
    /// A SQLite database.
    Sqlite(&'a str),
}

/// What the words ask for.
#[derive(Clone, Copy, Debug)]
pub(crate) struct Wanted<'a> {
    /// The path of the schema.
    pub(crate) schema: &'a str,
    /// The text that is read in its place.
    pub(crate) text: Option<&'a [u8]>,
    /// The path that the text of the schema is written to when it is mended.
    pub(crate) write_schema: Option<&'a str>,
    /// The path of the file; `-` is the standard input.
    pub(crate) file: &'a str,
    /// What is written, and where.
    pub(crate) onto: Onto<'a>,
    /// Whether a database has a view for each entity of the schema.
    pub(crate) all_entities: bool,
    pub(crate) options: Options,
}

impl<'a> Wanted<'a> {
    /// How the schema is mended.
    pub(crate) fn mending(&self) -> Mending<'a> {
        Mending {
            is_wanted: self.options.mends,
            is_told: true,
            schema: self.schema,
            onto: self.write_schema,
            format: self.options.format,
        }
    }

    /// How what is written to is told of.
    pub(crate) fn out_name(&self) -> &str {
        match self.onto {
            Onto::Json("-") => STANDARD_OUTPUT,
            Onto::Json(path) => path,
            Onto::Sqlite(path) => path,
        }
    }
}

/// The version of the program.
const VERSION: &str = "0.2.0";

/// The program and its version.
pub(crate) const PROGRAM: &str = "p21export 0.2.0";

/// What the help says of statuses.
const STATUSES: &str = "\
Exit status:
  0  the file was read, and its model written
  1  the file has a fault
  2  usage error
  3  the schema was refused
  4  a file could not be opened, read or written, or a limit was exceeded
  5  out of memory, or a thread could not be started";

/// Why nothing is asked for.
#[derive(Debug, Drop)]
pub(crate) enum Refusal {
    /// The words were refused, or ask for the help.
    Words(clap::Error),
    /// There was no memory left.
    Memory,
}

impl From<AllocError> for Refusal {
    fn from(_error: AllocError) -> Refusal {
        Refusal::Memory
    }
}

impl From<clap::Error> for Refusal {
    fn from(error: clap::Error) -> Refusal {
        if error.kind() == ErrorKind::OutOfMemory {
            return Refusal::Memory;
        }
        Refusal::Words(error)
    }
}

/// What the words ask for; the first word is the program's own name. Where standard error is a terminal, faults are explained unless the
/// words say otherwise.
pub(crate) fn what_is_wanted<'a>(
    alloc: Global,
    words: &'a [String],
    screen: Screen,
) -> Result<Wanted<'a>, Refusal> {
    if has_bare_number(words) {
        return Err(invalid(alloc, EXPLAIN_WORDS)?);
    }
    let matches = command(alloc)?.try_get_matches_from(words)?;
    match wanted_by(&matches, screen) {
        Some(wanted) if wanted.schema == "-" => Err(invalid(alloc, SCHEMA_WORDS)?),
        Some(wanted) if !may_write(wanted.write_schema, &wanted.options) => {
            Err(invalid(alloc, WRITE_WORDS)?)
        }
        Some(wanted) => Ok(wanted),
        None => Err(missing(alloc)?),
    }
}

/// What is told of a word that cannot be.
fn invalid(alloc: Global, cause: &str) -> Result<Refusal, AllocError> {
    let error = command(alloc)?.error(ErrorKind::InvalidValue, cause)?;
    Ok(Refusal::Words(error))
}

/// What is told where a word is missing.
fn missing(alloc: Global) -> Result<Refusal, AllocError> {
    let error = command(alloc)?.error(
        ErrorKind::MissingRequiredArgument,
        "SCHEMA, FILE, and one of --json OUT and --sqlite OUT are wanted; a database is written to a file alone, and --all-entities goes with --sqlite",
    )?;
    Ok(Refusal::Words(error))
}

/// What is asked for, if the paths and the numbers are there.
fn wanted_by<'a>(matches: &ArgMatches<'a>, screen: Screen) -> Option<Wanted<'a>> {
    let onto = onto_by(matches)?;
    let all_entities = matches.get_flag("all-entities");
    if all_entities && !matches!(onto, Onto::Sqlite(_)) {
        return None;
    }
    Some(Wanted {
        schema: matches.get_str("SCHEMA")?,
        text: None,
        write_schema: matches.get_str("write-schema"),
        file: matches.get_str("FILE")?,
        onto,
        all_entities,
        options: options_of(matches, screen)?,
    })
}

/// What is written, if it is one thing; a database is not written to the standard output.
fn onto_by<'a>(matches: &ArgMatches<'a>) -> Option<Onto<'a>> {
    match (matches.get_str("json"), matches.get_str("sqlite")) {
        (Some(path), None) => Some(Onto::Json(path)),
        (None, Some(path)) if path != "-" => Some(Onto::Sqlite(path)),
        _ => None,
    }
}

/// The words that the program takes.
fn command<'a>(alloc: Global) -> Result<Command<'a>, AllocError> {
    let command = Command::new(alloc, "p21export")
        .version(VERSION)
        .about(
            "Checks a STEP file (ISO 10303-21) against an EXPRESS schema, and writes its model as JSON or as a SQLite database",
        )
        .after_help(STATUSES)
        .arg(schema(alloc))?
        .arg(file(alloc))?
        .arg(json(alloc))?
        .arg(sqlite(alloc))?
        .arg(all_entities(alloc))?;
    let command = with_rules(alloc, with_lanes(alloc, command)?)?;
    with_telling(alloc, with_mending(alloc, command)?)
}

fn schema<'a>(alloc: Global) -> Arg<'a> {
    Arg::new(alloc, "SCHEMA")
        .required(true)
        .help("the EXPRESS schema to check against")
}

fn file<'a>(alloc: Global) -> Arg<'a> {
    Arg::new(alloc, "FILE")
        .required(true)
        .help("the exchange structure to read; - is standard input")
}

fn json<'a>(alloc: Global) -> Arg<'a> {
    Arg::new(alloc, "json").long("json").value_name("OUT").help(
        "write the model as JSON: a line for the header and one for each instance; - is standard output",
    )
}

fn sqlite<'a>(alloc: Global) -> Arg<'a> {
    Arg::new(alloc, "sqlite")
        .long("sqlite")
        .value_name("OUT")
        .help(
            "write the model as a SQLite database: a view for each entity that has instances, subtypes included",
        )
}

fn all_entities<'a>(alloc: Global) -> Arg<'a> {
    Arg::new(alloc, "all-entities")
        .long("all-entities")
        .action(ArgAction::SetTrue)
        .help(
            "with --sqlite, a view for each entity of the schema, also for those without instances",
        )
}
