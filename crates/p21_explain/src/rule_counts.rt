//! Faults by the rules that they break.

ghost use Rattle.std.specs.Prelude.{OnOk, IfOk};
ghost use Rattle.std.specs.String.{string_bytes};
ghost use Rattle.p21_printed.specs.Printed.{IsPrinted};

use crate::groups::say_count;
use crate::rule::{Rule, RuleCount, RuleForm};
use crate::rules::{spelled, spelling};
use p21_printed::{Said, new_text, push_line};
use p21_spelling::Spellings;
use std::alloc::{AllocError, Global};

/// Faults by rules in a few lines: how many there are by each rule that one breaks, the largest number first. The text and the spellings are
/// those of the schema.
pub fn rule_summary(
    alloc: Global,
    text: &[u8],
    spellings: &Spellings,
    counts: Vec<RuleCount<'_>>,
) -> Result<String, AllocError>
    // As for `explain_fault`.
    ensures { IfOk result (λ printed. IsPrinted (string_bytes printed)) }
{
    let mut counts = counts;
    counts.sort_by_key(|counted: &RuleCount<'_>| u64::MAX - counted.count)?;
    let mut printed = new_text(alloc);
    for counted in &counts {
        if counted.count > 0 {
            push_rule(alloc, &mut printed, text, spellings, counted)?;
        }
    }
    Ok(printed)
}

/// Adds the line of a rule: how many faults break it, what is wrong, and the rule.
fn push_rule(
    alloc: Global,
    printed: &mut String,
    text: &[u8],
    spellings: &Spellings,
    counted: &RuleCount<'_>,
) -> Result<(), AllocError>
    requires { IsPrinted (string_bytes printed.old) }
    ensures { OnOk result (IsPrinted (string_bytes printed.new)) }
{
    let mut line = Said::new(alloc);
    say_count(&mut line, counted.count)?;
    say_broken(&mut line, text, spellings, &counted.rule)?;
    push_line(printed, line.bytes())
}

/// Adds what is wrong by a rule, and the rule.
fn say_broken(
    line: &mut Said,
    text: &[u8],
    spellings: &Spellings,
    rule: &Rule<'_>,
) -> Result<(), AllocError> {
    let entity = spelling(&spellings.entities, rule.entity.place());
    match rule.form {
        RuleForm::Unique => {
            line.say((
                "values that are not unique: rule ",
                rule.label,
                " of ",
                entity,
            ))
        }
        RuleForm::Inverse => {
            let name = spelled(text, rule.label);
            line.say(("wrong number of references: ", entity, ".", name))
        }
    }
}
