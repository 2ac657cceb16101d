//! The rows of a model: a table for each entity, and in it a row for each record of an instance.
#![tactic(auto)]

mod cell;
mod instances;
mod layout;
mod metadata;
mod records;
mod references;
mod rows;
mod runner;
mod uses;

pub use cell::Cell;
pub use layout::{Layout, TableColumns, columns_of};
pub use metadata::About;
pub use p21_run::{InputError, Listener, Options, Outcome, Sink, Source};
pub use rows::{Rows, Table};
pub use runner::export_rows;
pub use uses::Use;
