//! A run over any readers and writers: a schema and a file are read, and the report is written.
#![tactic(auto)]

mod accepts;
mod both_inputs;
mod capacity;
mod check;
mod check_text;
mod input;
mod listener;
mod options;
mod outcome;
mod output;
mod runner;
mod source;

pub use accepts::{Accepted, Accepts, AsDeclared};
pub use both_inputs::{Begun, begin, tell};
pub use capacity::capacity_for;
pub use check::Answer;
pub use input::{Bounds, FILE_BOUNDS, InputError, SCHEMA_BOUNDS, read_bounded};
pub use listener::{Listener, Silent};
pub use options::Options;
pub use outcome::Outcome;
pub use output::{OutputError, WRITE_CALLS, write_bounded};
pub use runner::{run, run_heard};
pub use source::{IoFault, Sink, Source, Stream};
