//! The report of rules of WHERE that are broken.

ghost use Rattle.std.specs.Prelude.{◌≡◌, ◌++◌, [], OnOk, get_or, map};
ghost use Rattle.p21_rule_run.specs.BrokenLine.{rule_broken_lines, rule_broken_text};

use crate::fault_text::push_number;
use p21_where_findings::{BrokenRule, WhereRule};
use std::alloc::AllocError;

/// Adds the lines of broken rules of WHERE, in their order. Memory alone can fail.
pub fn push_broken_rules(
    text: &mut Vec<u8>,
    rules: &[WhereRule],
    broken: &[BrokenRule],
) -> Result<(), AllocError>
    // Each line has the name of the rule of its number.
    ensures { OnOk result (text.new.items ≡ text.old.items ++ rule_broken_lines rules.now broken.now) }
{
    for fault in broken {
        push_broken_rule(text, rules, fault)?;
    }
    Ok(())
}

/// Adds the line of a broken rule.
fn push_broken_rule(
    text: &mut Vec<u8>,
    rules: &[WhereRule],
    broken: &BrokenRule,
) -> Result<(), AllocError>
    ensures { OnOk result (text.new.items ≡ text.old.items ++ rule_broken_text rules.now broken.now) }
{
    text.extend_from_slice(b"fault 18 RuleBroken at ")?;
    push_number(text, broken.at)?;
    text.extend_from_slice(b" rule ")?;
    text.extend_from_slice(name_of(rules, broken.rule))?;
    text.push(b'\n')?;
    Ok(())
}

/// The name of the rule of this number.
fn name_of(rules: &[WhereRule], number: usize) -> &[u8]
    ensures { result.now ≡ get_or (map (λ rule. rule.name.items) rules.now) number [] }
{
    match rules.get(number) {
        Some(rule) => &rule.name,
        None => &[],
    }
}
