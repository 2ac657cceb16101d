//! The reader of statements, functions, procedures and rules of a schema's text.
#![tactic(auto)]

mod control;
mod declarations;
mod front;
mod names;
mod reading;
mod routines;
mod statements;
mod types;

pub use front::pieces;
pub use reading::rules_of;
