//! The program that prints the report of a reading.
#![tactic(auto)]

mod command_line;
mod explainer;
mod found;
mod key;
mod many;
mod mending;
mod opened;
mod program_error;
mod progress;
mod renamed;
mod rules;
mod screen;
mod watched;
mod words;

pub use command_line::{program, program_with_progress, unreadable_words};
pub use explainer::{Explainer, Names, STANDARD_OUTPUT};
pub use key::drawn_key;
pub use mending::{Mending, input_at, is_one_file, mend_schema};
pub use opened::{LastError, Opened};
pub use p21_explain::Format;
pub use p21_render::{counts, fault_line, render};
pub use p21_run::{IoFault, Outcome, Sink, Source, Stream, run};
pub use progress::{Program, Progress, Stage};
pub use screen::Screen;
pub use watched::Watched;
pub use words::{
    EXPLAIN_WORDS, Options, REPLACED_WORDS, SCHEMA_WORDS, WRITE_WORDS, has_bare_number, may_write,
    options_of, with_lanes, with_mending, with_rules, with_telling,
};
