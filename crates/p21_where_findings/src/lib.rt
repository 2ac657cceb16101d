//! What the rules of WHERE of a schema find in a model, as it is told, and who finds it.
#![tactic(auto)]

mod checker;
mod explained;
mod findings;

pub use checker::WhereChecker;
pub use explained::{
    CheckedFile, Stated, broken_summary, explain_broken, explain_undecided, explain_unevaluated,
    spelled_name,
};
pub use findings::{
    BrokenRule, InTheWay, RuleOwner, STEPS, UndecidedRule, WhereFindings, WhereRule, WhyUnchecked,
    WhyUndecided,
};
