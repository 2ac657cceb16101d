//! Who hears what a run finds by the rules.

use crate::rule_fault::RuleFault;
use p21_rule_text::Rules;
use p21_run::Listener;
use p21_schema::Schema;
use p21_where_findings::{BrokenRule, WhereFindings};

/// What a run found by the rules.
#[derive(Clone, Copy)]
pub struct Ruled<'r> {
    /// The rules UNIQUE and the INVERSE attributes.
    pub rules: &'r Rules,
    /// The rules of WHERE, and what was found by them.
    pub by_where: &'r WhereFindings,
    /// The faults by UNIQUE and INVERSE that the report tells, in its order.
    pub faults: &'r [RuleFault],
    /// The broken rules of WHERE that it tells after them.
    pub broken: &'r [BrokenRule],
}

/// Who hears how far a run is and what it finds, also by the rules. As of any listener, no contract of a run hangs on what it does.
pub trait RuleListener: Listener {
    /// Hears that a file without other faults was looked at by the rules.
    fn hear_ruled(&mut self, schema: &Schema, file: &[u8], ruled: Ruled<'_>);
}
