//! The text of a schema with forms that are not supported, written another way with the same meaning.
#![tactic(auto)]

mod change;
mod edit;
mod heads;
mod lone;
mod mending;
mod met;
#[cfg(test)]
mod tests;
mod walk;

pub use change::{Change, Form};
pub use mending::{MendedText, mended};
