//! The program that exports a model.
#![tactic(auto)]

mod beside;
mod command_line;
mod database;
mod place;
mod words;

pub use command_line::{Around, program, unreadable_words};
pub use p21_report::Screen;
