//! Rules and their faults, as they are explained.

use crate::codes::{CFault, INVERSE_COUNT, NOT_UNIQUE, RULE_BROKEN};
use crate::held::HeldRules;
use p21_explain::{
    BrokenInverse, BrokenUnique, Format, Lines, NamedInstances, Rule, RuleForm, Subject,
    explain_inverse_count, explain_not_unique,
};
use p21_rule_text::Rules;
use p21_where_findings::{BrokenRule, CheckedFile, Stated, WhereRule, explain_broken};
use std::alloc::{AllocError, Global};
use std::str::from_utf8;

/// The rule that a fault breaks; `None` where it breaks none of these.
pub(crate) fn rule_of<'a>(rules: &'a Rules, fault: &CFault) -> Option<Rule<'a>> {
    let place = usize::try_from(fault.record).ok()?;
    match fault.kind {
        NOT_UNIQUE => Some(Rule {
            form: RuleForm::Unique,
            label: rules.labels.get(place)?,
            entity: rules.unique.get(place)?.entity,
        }),
        INVERSE_COUNT => Some(Rule {
            form: RuleForm::Inverse,
            label: rules.inverse_names.get(place)?,
            entity: rules.inverse.get(place)?.entity,
        }),
        _ => None,
    }
}

/// The rule WHERE that a fault breaks; `None` where it breaks none of these.
pub(crate) fn where_rule_of<'a>(held: &'a HeldRules, fault: &CFault) -> Option<&'a WhereRule> {
    if fault.kind != RULE_BROKEN {
        return None;
    }
    held.by_where.get(usize::try_from(fault.record).ok()?)
}

/// The schema, as its rules of WHERE are told of.
pub(crate) fn stated<'a>(held: &'a HeldRules) -> Stated<'a> {
    Stated {
        path: "schema",
        text: held.text,
        schema: &held.schema.schema,
        spellings: &held.schema.spellings,
    }
}

/// A fault by a rule, explained as `p21check` explains it; `None` where it breaks none of the rules.
pub(crate) fn explained(
    alloc: Global,
    held: &HeldRules,
    file: &[u8],
    path: &[u8],
    fault: &CFault,
) -> Result<Option<String>, AllocError> {
    if let Some(rule) = where_rule_of(held, fault) {
        return where_explained(alloc, held, file, path, rule, fault);
    }
    let Some(rule) = rule_of(&held.rules, fault) else {
        return Ok(None);
    };
    let named = NamedInstances::of_names(alloc, file, earlier_names(alloc, fault)?)?;
    let subject = Subject {
        schema: &held.schema.schema,
        spellings: &held.schema.spellings,
        path: from_utf8(path).unwrap_or("file"),
        file,
        named: &named,
    };
    match rule.form {
        RuleForm::Unique => unique_explained(alloc, held, subject, rule, fault),
        RuleForm::Inverse => inverse_explained(alloc, held, subject, rule, fault),
    }
}

/// The name of the earlier instance of which a fault tells.
fn earlier_names(alloc: Global, fault: &CFault) -> Result<Vec<u64>, AllocError> {
    let mut names = Vec::new(alloc);
    if fault.kind == NOT_UNIQUE {
        names.push(fault.name)?;
    }
    Ok(names)
}

/// A fault by a rule UNIQUE.
fn unique_explained(
    alloc: Global,
    held: &HeldRules,
    subject: Subject<'_>,
    rule: Rule<'_>,
    fault: &CFault,
) -> Result<Option<String>, AllocError> {
    let Some(stated) = held.rules.unique.get(fault.record as usize) else {
        return Ok(None);
    };
    let broken = BrokenUnique {
        rule,
        at: fault.at,
        attributes: &stated.attributes,
        earlier: fault.name,
    };
    let mut lines = Lines::new(subject.file);
    let said = explain_not_unique(alloc, subject, &mut lines, &broken, Format::Text)?;
    Ok(Some(said))
}

/// A fault by a rule WHERE.
fn where_explained(
    alloc: Global,
    held: &HeldRules,
    file: &[u8],
    path: &[u8],
    rule: &WhereRule,
    fault: &CFault,
) -> Result<Option<String>, AllocError> {
    let checked = CheckedFile {
        path: from_utf8(path).unwrap_or("file"),
        bytes: file,
    };
    let broken = BrokenRule {
        at: fault.at,
        rule: fault.record as usize,
    };
    let mut lines = Lines::new(file);
    let said = explain_broken(
        alloc,
        checked,
        stated(held),
        &mut lines,
        rule,
        broken,
        Format::Text,
    )?;
    Ok(Some(said))
}

/// A fault by an INVERSE attribute.
fn inverse_explained(
    alloc: Global,
    held: &HeldRules,
    subject: Subject<'_>,
    rule: Rule<'_>,
    fault: &CFault,
) -> Result<Option<String>, AllocError> {
    let Some(stated) = held.rules.inverse.get(fault.record as usize) else {
        return Ok(None);
    };
    let broken = BrokenInverse {
        rule,
        at: fault.at,
        source: stated.source,
        attribute: stated.attribute,
        is_bag: stated.is_bag,
        count: fault.name,
        low: stated.low,
        high: stated.high,
    };
    let mut lines = Lines::new(subject.file);
    let text = held.text;
    let said = explain_inverse_count(alloc, subject, &mut lines, text, &broken, Format::Text)?;
    Ok(Some(said))
}
