//! The rules of WHERE of a schema's text, over the instances of a file.
#![tactic(auto)]

mod run;
mod told;

pub use told::{TextChecker, where_findings, where_rules_of};
