//! Faults in the words of the file and of the schema, for a person who has to mend them.
#![tactic(auto)]

mod attributes;
mod complex;
mod explained;
mod faults;
mod grammar;
mod groups;
mod header;
mod instance;
mod instances;
mod mistakes;
mod names;
mod parts;
mod redeclared;
mod references;
mod refused;
mod rule;
mod rule_counts;
mod rules;
mod spoiled;
mod types;
mod values;
mod walk;

pub use explained::{Subject, explain_fault};
pub use groups::summary;
pub use instances::NamedInstances;
pub use p21_printed::{Format, Lines, Place, explain_device, painted, place_of};
pub use p21_spelling::{Spellings, spell_names};
pub use refused::{RefusedSchema, explain_change, explain_schema_fault, unsupported_forms};
pub use rule::{BrokenInverse, BrokenUnique, Reason, Rule, RuleCount, RuleForm, UncheckedRule};
pub use rule_counts::rule_summary;
pub use rules::{explain_inverse_count, explain_not_unique, explain_passed_over};
