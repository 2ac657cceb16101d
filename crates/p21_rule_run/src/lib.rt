//! A run that checks a file against its schema, and then by the rules of the schema.
#![tactic(auto)]

mod broken_text;
mod fault_text;
mod listener;
mod rule_fault;
mod runner;

pub use broken_text::push_broken_rules;
pub use fault_text::render_rule_faults;
pub use listener::{RuleListener, Ruled};
pub use p21_run::Options;
pub use rule_fault::RuleFault;
pub use runner::run_rules;
