//! The rules UNIQUE and the INVERSE attributes of a schema's text.
#![tactic(auto)]

mod attributes;
mod bounds;
mod clauses;
mod entities;
mod entity_names;
mod inverse;
mod labels;
mod redeclared;
mod resolve;
mod rules;
mod statements;
mod unique;

pub use rules::{Rules, read_rules};
pub use statements::{PassedOver, RuleKind};
