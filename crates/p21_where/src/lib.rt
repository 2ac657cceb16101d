//! The rules of WHERE of a schema over the instances of a file.
#![tactic(auto)]

mod asked;
mod concerns;
mod findings;
mod globals;
mod instances;
mod rules;
mod types;
mod whole;

pub use findings::{Findings, Found, Undecided};
pub use instances::{Limits, Run};
pub use rules::{RuleOwner, RunRule, RunRules};
pub use whole::{ByThreads, Division, Undivided, broken_rules};
