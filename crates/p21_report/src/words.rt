//! The arguments of the command line.

use crate::program_error::ProgramError;
use crate::screen::Screen;
use clap::error::ErrorKind;
use clap::{Arg, ArgAction, ArgMatches, Command, value_parser};
use p21_desk::LaneCount;
use p21_explain::Format;
use p21_lanes::Capacity;
use p21_schema::Rules;
use p21_where_findings::STEPS;
use std::alloc::{AllocError, Global};

/// What the arguments ask for.
#[derive(Clone, Copy, Debug)]
pub(crate) struct Wanted<'a> {
    /// The path of the schema.
    pub(crate) schema: &'a str,
    /// The text that is read in the place of the schema.
    pub(crate) text: Option<&'a [u8]>,
    /// The path of the file; `-` is the standard input.
    pub(crate) file: &'a str,
    /// Whether every fault is reported, or only the first.
    pub(crate) all: bool,
    /// Whether the rules of the schema are checked too: UNIQUE, INVERSE attributes and WHERE.
    pub(crate) ruled: bool,
    /// How many steps the evaluation of a rule of WHERE may take.
    pub(crate) steps: u64,
    /// Whether a summary of the faults is written in the place of a line for each.
    pub(crate) summary: bool,
    /// Whether standard error is a terminal.
    pub(crate) is_terminal: bool,
    /// Whether the schema is taken to have the name that the file gives.
    pub(crate) any_name: bool,
    /// Whether the file is one of many.
    pub(crate) is_of_many: bool,
    /// The path that the text of the schema is written to when it is mended.
    pub(crate) write_schema: Option<&'a str>,
    /// Whether it is told how the schema is mended.
    pub(crate) tells_changes: bool,
    pub(crate) options: Options,
}

/// What the arguments ask for of many files.
#[derive(Drop)]
pub(crate) struct Many<'a> {
    /// The path of the folder with the schemas.
    pub(crate) folder: &'a str,
    /// The paths of files, and of folders with files.
    pub(crate) paths: Vec<&'a str>,
    /// What is asked for of each, whose paths stand for none.
    pub(crate) each: Wanted<'a>,
}

/// What the arguments ask for: one file, or many.
#[derive(Drop)]
pub(crate) enum Asked<'a> {
    One(Wanted<'a>),
    Many(Many<'a>),
}

impl Asked<'_> {
    /// The options that each program takes.
    pub(crate) fn options(&self) -> &Options {
        match self {
            Asked::One(wanted) => &wanted.options,
            Asked::Many(many) => &many.each.options,
        }
    }
}

/// What the options ask for that each program takes.
#[derive(Clone, Copy, Debug)]
pub struct Options {
    pub lanes: LaneCount,
    pub capacity: Option<Capacity>,
    pub rules: Rules,
    /// How many faults are explained at most.
    pub explained: usize,
    /// How they are explained.
    pub format: Format,
    /// Whether explanations have colours.
    pub is_colored: bool,
    /// Whether the schema is mended before it is read.
    pub mends: bool,
    /// Whether progress is shown, terminal or not.
    pub progress: bool,
}

/// The version of the program.
const VERSION: &str = "0.2.0";

/// How many faults are explained where no number is given.
const MOST_EXPLAINED: usize = 20;

/// What the help says of the exit status.
const STATUSES: &str = "\
Exit status:
  0  the file has no fault
  1  the file has a fault
  2  usage error
  3  the schema was refused
  4  a file could not be opened, read or written, or a limit was exceeded
  5  out of memory, or a thread could not be started";

/// What the arguments ask for; the first is the program's own name. Where standard error is a terminal, faults are explained unless
/// the arguments say otherwise.
pub(crate) fn what_is_wanted<'a>(
    alloc: Global,
    words: &'a [String],
    screen: Screen,
) -> Result<Asked<'a>, ProgramError> {
    if has_bare_number(words) {
        return Err(refused(alloc, ErrorKind::InvalidValue, EXPLAIN_WORDS));
    }
    if has_schemas(words) {
        let matches = command_of_many(alloc)?.try_get_matches_from(words)?;
        return match many_by(alloc, &matches, screen)? {
            Some(many) => Ok(Asked::Many(many)),
            None => Err(missing(alloc)),
        };
    }
    let matches = match command(alloc)?.try_get_matches_from(words) {
        Ok(matches) => matches,
        Err(error) if error.kind() == ErrorKind::MissingRequiredArgument => {
            return Err(missing(alloc));
        }
        Err(error) => return Err(ProgramError::from(error)),
    };
    match wanted_by(&matches, screen) {
        Some(wanted) if wanted.schema == "-" => {
            Err(refused(alloc, ErrorKind::InvalidValue, SCHEMA_WORDS))
        }
        Some(wanted) if wanted.any_name && wanted.file == "-" => {
            Err(refused(alloc, ErrorKind::ArgumentConflict, ANY_NAME_WORDS))
        }
        Some(wanted) if !may_write(wanted.write_schema, &wanted.options) => {
            Err(refused(alloc, ErrorKind::ArgumentConflict, WRITE_WORDS))
        }
        Some(wanted) => Ok(Asked::One(wanted)),
        None => Err(missing(alloc)),
    }
}

/// The usage error of arguments that are too few.
fn missing(alloc: Global) -> ProgramError {
    refused(
        alloc,
        ErrorKind::MissingRequiredArgument,
        "SCHEMA and FILE are required; for several files, each of which names its schema: p21check --schemas FOLDER FILE..",
    )
}

/// Whether the schemas of many files are in a folder.
fn has_schemas(words: &[String]) -> bool {
    for word in words {
        let bytes = word.as_bytes();
        if bytes == b"--".as_slice() {
            return false;
        }
        if bytes == b"--schemas".as_slice() || bytes.starts_with(b"--schemas=") {
            return true;
        }
    }
    false
}

/// What is asked for of many files, if the paths and the numbers are there.
fn many_by<'a>(
    alloc: Global,
    matches: &ArgMatches<'a>,
    screen: Screen,
) -> Result<Option<Many<'a>>, AllocError> {
    let (Some(folder), Some(given), Some(options)) = (
        matches.get_str("schemas"),
        matches.get_strs("FILE"),
        options_of(matches, screen),
    ) else {
        return Ok(None);
    };
    let mut paths = Vec::new(alloc);
    paths.extend_from_slice(given)?;
    let each = wanted_of(matches, options, screen, folder, folder);
    Ok(Some(Many {
        folder,
        paths,
        each: Wanted {
            is_of_many: true,
            ..each
        },
    }))
}

/// What is said of a number after `--explain`.
pub const EXPLAIN_WORDS: &str = "--explain takes its number after '=', as in --explain=5";

/// What is said of a schema that is `-`.
pub const SCHEMA_WORDS: &str =
    "SCHEMA cannot be standard input; give its path, and - for FILE alone";

/// What is said of a file that is read twice.
const ANY_NAME_WORDS: &str = "--any-schema-name reads FILE twice; give its path in the place of -";

/// What is said of a schema that is to be written and is not mended, or to the standard output.
pub const WRITE_WORDS: &str =
    "--write-schema OUT goes with --mend, and writes to a file alone, which may not be -";

/// The usage error where the schema is to be written over an input.
pub(crate) fn replaces_input(alloc: Global) -> ProgramError {
    refused(alloc, ErrorKind::InvalidValue, REPLACED_WORDS)
}

/// What is said where the schema is to be written over an input.
pub const REPLACED_WORDS: &str =
    "--write-schema OUT is the same file as an input or another output, which it does not replace";

/// Whether the text of a schema may be written to a path, if one is given.
pub fn may_write(path: Option<&str>, options: &Options) -> bool {
    match path {
        Some(path) => options.mends && path != "-",
        None => true,
    }
}

/// Whether a word after `--explain` is a number.
pub fn has_bare_number(words: &[String]) -> bool {
    let mut is_behind = false;
    for word in words {
        let bytes = word.as_bytes();
        if bytes == b"--".as_slice() {
            return false;
        }
        if is_behind && !bytes.is_empty() && bytes.iter().all(|it| it.is_ascii_digit()) {
            return true;
        }
        is_behind = bytes == b"--explain".as_slice();
    }
    false
}

/// What is asked for, if both paths and the numbers are there.
fn wanted_by<'a>(matches: &ArgMatches<'a>, screen: Screen) -> Option<Wanted<'a>> {
    let (schema, file) = (matches.get_str("SCHEMA")?, matches.get_str("FILE")?);
    let options = options_of(matches, screen)?;
    Some(Wanted {
        any_name: matches.get_flag("any-schema-name"),
        write_schema: matches.get_str("write-schema"),
        ..wanted_of(matches, options, screen, schema, file)
    })
}

/// What is asked for of a file.
fn wanted_of<'a>(
    matches: &ArgMatches<'_>,
    options: Options,
    screen: Screen,
    schema: &'a str,
    file: &'a str,
) -> Wanted<'a> {
    Wanted {
        schema,
        text: None,
        file,
        all: matches.get_flag("all") || matches.get_flag("summary"),
        ruled: matches.get_flag("rules"),
        steps: matches.get_one::<u32>("steps").map_or(STEPS, u64::from),
        summary: matches.get_flag("summary"),
        is_terminal: screen.is_terminal,
        any_name: false,
        is_of_many: false,
        write_schema: None,
        tells_changes: true,
        options,
    }
}

/// What the options ask for that `with_lanes`, `with_rules`, `with_mending` and `with_telling` add, if the numbers are there. Where standard
/// error is a terminal, faults are explained, and in colours where it has some, unless the arguments say otherwise.
pub fn options_of(matches: &ArgMatches<'_>, screen: Screen) -> Option<Options> {
    let format = format_of(matches.get_str("format"));
    let is_explained = screen.is_terminal || format == Format::Json;
    let most = if is_explained { MOST_EXPLAINED } else { 0 };
    Some(Options {
        lanes: matches.get_one("lanes").and_then(LaneCount::new)?,
        capacity: matches.get_one("capacity").and_then(Capacity::new),
        rules: Rules {
            distinct: matches.get_flag("distinct"),
        },
        explained: match matches.get_one::<u32>("explain") {
            Some(most) => most as usize,
            None => most,
        },
        format,
        is_colored: match matches.get_str("color") {
            Some("always") => true,
            Some("never") => false,
            _ => screen.is_colored,
        },
        mends: matches.get_flag("mend"),
        progress: matches.get_flag("progress"),
    })
}

fn format_of(name: Option<&str>) -> Format {
    match name {
        Some("json") => Format::Json,
        _ => Format::Text,
    }
}

/// The usage error of arguments that are not text.
pub(crate) fn not_text(alloc: Global) -> ProgramError {
    refused(
        alloc,
        ErrorKind::InvalidValue,
        "invalid UTF-8 was detected in one or more arguments",
    )
}

/// The usage error of a kind.
fn refused(alloc: Global, kind: ErrorKind, cause: &str) -> ProgramError {
    match words_error(alloc, kind, cause) {
        Ok(error) => ProgramError::from(error),
        Err(error) => ProgramError::from(error),
    }
}

fn words_error(alloc: Global, kind: ErrorKind, cause: &str) -> Result<clap::Error, AllocError> {
    command(alloc)?.error(kind, cause)
}

/// The arguments that the program takes.
fn command<'a>(alloc: Global) -> Result<Command<'a>, AllocError> {
    let command = Command::new(alloc, "p21check")
        .version(VERSION)
        .about("Reads a STEP file (ISO 10303-21) and checks it against an EXPRESS schema")
        .after_help(STATUSES)
        .arg(schema(alloc))?
        .arg(file(alloc))?
        .arg(schemas(alloc))?
        .arg(any_schema_name(alloc))?;
    let command = with_mending(alloc, command)?;
    with_options(alloc, command)
}

/// The arguments that the program takes for many files.
fn command_of_many<'a>(alloc: Global) -> Result<Command<'a>, AllocError> {
    let command = Command::new(alloc, "p21check")
        .version(VERSION)
        .about(
            "Reads STEP files (ISO 10303-21) and checks each against the EXPRESS schema that it names",
        )
        .after_help(STATUSES)
        .arg(schemas(alloc).required(true))?
        .arg(files(alloc))?
        .arg(mend(alloc))?;
    with_options(alloc, command)
}

/// Adds the options.
fn with_options<'a>(alloc: Global, command: Command<'a>) -> Result<Command<'a>, AllocError> {
    let command = with_lanes(alloc, command)?
        .arg(all(alloc))?
        .arg(summary(alloc))?;
    let command = with_rules(alloc, command)?
        .arg(rules(alloc))?
        .arg(steps(alloc))?;
    with_telling(alloc, command)
}

/// Adds the options of the worker threads.
pub fn with_lanes<'a>(alloc: Global, command: Command<'a>) -> Result<Command<'a>, AllocError> {
    command.arg(lanes(alloc))?.arg(capacity(alloc))
}

/// Adds the options of the rules of a check.
pub fn with_rules<'a>(alloc: Global, command: Command<'a>) -> Result<Command<'a>, AllocError> {
    command.arg(distinct(alloc))
}

/// Adds the options that mend a schema.
pub fn with_mending<'a>(alloc: Global, command: Command<'a>) -> Result<Command<'a>, AllocError> {
    command.arg(mend(alloc))?.arg(write_schema(alloc))
}

/// Adds the options that say what is told on standard error.
pub fn with_telling<'a>(alloc: Global, command: Command<'a>) -> Result<Command<'a>, AllocError> {
    command
        .arg(explain(alloc))?
        .arg(format(alloc))?
        .arg(color(alloc))?
        .arg(progress(alloc))
}

fn schema<'a>(alloc: Global) -> Arg<'a> {
    Arg::new(alloc, "SCHEMA")
        .required(true)
        .help("EXPRESS schema to check against")
}

fn file<'a>(alloc: Global) -> Arg<'a> {
    Arg::new(alloc, "FILE")
        .required(true)
        .help("STEP file to check; - is standard input")
}

fn schemas<'a>(alloc: Global) -> Arg<'a> {
    Arg::new(alloc, "schemas")
        .long("schemas")
        .value_name("FOLDER")
        .help(
            "instead of SCHEMA, folder with schemas: check each FILE, and the files in each folder, against the schema that it names",
        )
}

fn any_schema_name<'a>(alloc: Global) -> Arg<'a> {
    flag(alloc, "any-schema-name").help("do not compare the schema's name with the one in the file")
}

fn mend<'a>(alloc: Global) -> Arg<'a> {
    flag(alloc, "mend").help(
        "write forms of the schema that are not supported another way with the same meaning, and list each change on standard error",
    )
}

fn write_schema<'a>(alloc: Global) -> Arg<'a> {
    Arg::new(alloc, "write-schema")
        .long("write-schema")
        .value_name("OUT")
        .help("with --mend, write the text of the schema after the changes to OUT")
}

fn files<'a>(alloc: Global) -> Arg<'a> {
    Arg::new(alloc, "FILE")
        .required(true)
        .num_args(1..)
        .action(ArgAction::Append)
        .help("STEP files to check, and folders with such files")
}

fn lanes<'a>(alloc: Global) -> Arg<'a> {
    number(alloc, "lanes")
        .default_value("4")
        .value_parser(value_parser!(u32).range(1..=64))
        .help("number of worker threads, 1 to 64")
}

fn capacity<'a>(alloc: Global) -> Arg<'a> {
    number(alloc, "capacity")
        .value_parser(value_parser!(u32).range(1..=4096))
        .help(
            "maximum number of instances that wait for a worker thread, 1 to 4096 [default: 256, or 4096 for a file above 16 MiB]",
        )
}

fn all<'a>(alloc: Global) -> Arg<'a> {
    flag(alloc, "all").help("report every fault, one per line, instead of only the first")
}

fn summary<'a>(alloc: Global) -> Arg<'a> {
    flag(alloc, "summary").help(
        "report how many faults there are of each kind, entity and attribute, instead of only the first",
    )
}

fn rules<'a>(alloc: Global) -> Arg<'a> {
    flag(alloc, "rules").help(
        "also report instances that break a rule of the schema: UNIQUE, the bounds of an INVERSE attribute, or WHERE",
    )
}

fn steps<'a>(alloc: Global) -> Arg<'a> {
    number(alloc, "steps")
        .value_parser(value_parser!(u32).range(1..=1000000000))
        .help(
            "with --rules, the most steps that a rule WHERE takes for an instance [default: 100000]",
        )
}

fn distinct<'a>(alloc: Global) -> Arg<'a> {
    flag(alloc, "distinct").help("also report a SET or LIST OF UNIQUE that names an instance twice")
}

fn explain<'a>(alloc: Global) -> Arg<'a> {
    number(alloc, "explain")
        .num_args(0..=1)
        .require_equals(true)
        .default_missing_value("20")
        .value_parser(value_parser!(u32).range(0..=4294967295))
        .help(
            "explain the first N faults, or 20, on standard error; on a terminal this is the default, and 0 turns it off",
        )
}

fn format<'a>(alloc: Global) -> Arg<'a> {
    Arg::new(alloc, "format")
        .long("format")
        .value_name("FORMAT")
        .default_value("text")
        .value_parser(["text", "json"].as_slice())
        .help("format of the explanations; json writes one object per fault, each on its own line")
}

fn color<'a>(alloc: Global) -> Arg<'a> {
    Arg::new(alloc, "color")
        .long("color")
        .value_name("WHEN")
        .default_value("auto")
        .value_parser(["auto", "always", "never"].as_slice())
        .help(
            "color the explanations: auto does on a terminal, unless NO_COLOR is set or TERM is dumb",
        )
}

fn progress<'a>(alloc: Global) -> Arg<'a> {
    flag(alloc, "progress").help("show progress on standard error even if it is not a terminal")
}

/// An option without a value.
fn flag<'a>(alloc: Global, name: &'a str) -> Arg<'a> {
    Arg::new(alloc, name).long(name).action(ArgAction::SetTrue)
}

/// An option whose value is a number.
fn number<'a>(alloc: Global, name: &'a str) -> Arg<'a> {
    Arg::new(alloc, name).long(name).value_name("N")
}
