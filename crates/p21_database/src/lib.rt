//! The rows of a model in a SQLite database.
#![tactic(auto)]

mod affinity;
mod database;
mod failure;
mod statements;
mod views;

pub use database::Database;
pub use failure::io_error;
