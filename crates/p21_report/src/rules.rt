//! Rules and their faults, as they are explained.

use p21_explain::{BrokenInverse, BrokenUnique, Reason, Rule, RuleCount, RuleForm, UncheckedRule};
use p21_rule_run::{RuleFault, Ruled};
use p21_rule_text::{PassedOver, RuleKind, Rules};
use p21_rules::{InverseCount, NotUnique};
use std::alloc::{AllocError, Global};

/// A rule UNIQUE, by its place among those.
fn unique_rule(rules: &Rules, place: usize) -> Option<Rule<'_>> {
    Some(Rule {
        form: RuleForm::Unique,
        label: rules.labels.get(place)?,
        entity: rules.unique.get(place)?.entity,
    })
}

/// An INVERSE attribute, by its place among those.
fn inverse_rule(rules: &Rules, place: usize) -> Option<Rule<'_>> {
    Some(Rule {
        form: RuleForm::Inverse,
        label: rules.inverse_names.get(place)?,
        entity: rules.inverse.get(place)?.entity,
    })
}

/// An instance that breaks one of the rules UNIQUE; none of another schema's rules.
pub(crate) fn broken_unique<'a>(rules: &'a Rules, fault: &NotUnique) -> Option<BrokenUnique<'a>> {
    Some(BrokenUnique {
        rule: unique_rule(rules, fault.rule)?,
        at: fault.at,
        attributes: &rules.unique.get(fault.rule)?.attributes,
        earlier: fault.earlier,
    })
}

/// An instance that breaks the bounds of one of the INVERSE attributes; none of another schema's rules.
pub(crate) fn broken_inverse<'a>(
    rules: &'a Rules,
    fault: &InverseCount,
) -> Option<BrokenInverse<'a>> {
    let rule = rules.inverse.get(fault.rule)?;
    Some(BrokenInverse {
        rule: inverse_rule(rules, fault.rule)?,
        at: fault.at,
        source: rule.source,
        attribute: rule.attribute,
        is_bag: rule.is_bag,
        count: fault.count,
        low: rule.low,
        high: rule.high,
    })
}

/// The names of the earlier instances of which faults tell.
pub(crate) fn earlier_names(alloc: Global, faults: &[RuleFault]) -> Result<Vec<u64>, AllocError> {
    let mut names = Vec::new(alloc);
    for fault in faults {
        if let RuleFault::NotUnique(fault) = fault {
            names.push(fault.earlier)?;
        }
    }
    Ok(names)
}

/// How many rules were checked in no instance.
pub(crate) fn unchecked_count(rules: &Rules) -> u64 {
    let mut count: u64 = 0;
    for rule in &rules.passed_over {
        // A rule UNIQUE over what another entity derives is checked in all other instances.
        if matches!(rule.kind, RuleKind::Inverse) || rule.subtype.is_empty() {
            count = count.saturating_add(1);
        }
    }
    count
}

/// How many rules were checked.
pub(crate) fn checked_count(ruled: Ruled<'_>) -> u64 {
    let unique = ruled.rules.unique.len() as u64;
    let placed = unique.saturating_add(ruled.rules.inverse.len() as u64);
    let stated = ruled.by_where.rules.len() as u64;
    placed.saturating_add(stated.saturating_sub(unevaluated_count(ruled)))
}

/// How many rules of WHERE are not evaluated.
pub(crate) fn unevaluated_count(ruled: Ruled<'_>) -> u64 {
    let mut count: u64 = 0;
    for rule in &ruled.by_where.rules {
        if rule.in_the_way.is_some() {
            count = count.saturating_add(1);
        }
    }
    count
}

/// A rule that was not checked, and why.
pub(crate) fn unchecked(rule: &PassedOver) -> UncheckedRule<'_> {
    let form = match rule.kind {
        RuleKind::Unique => RuleForm::Unique,
        RuleKind::Inverse => RuleForm::Inverse,
    };
    let attribute = rule.attribute.as_slice();
    let reason = match (rule.attribute.is_empty(), rule.subtype.is_empty()) {
        (true, _) => Reason::NoNumbers,
        (false, true) => Reason::NotExplicit { attribute },
        (false, false) => Reason::DerivedBy {
            attribute,
            subtype: &rule.subtype,
        },
    };
    UncheckedRule {
        rule: Rule {
            form,
            label: &rule.label,
            entity: rule.entity,
        },
        at: rule.at,
        reason,
    }
}

/// How many faults break each rule: those of UNIQUE, and after them those of INVERSE.
pub(crate) fn counts_of<'a>(
    alloc: Global,
    rules: &'a Rules,
    faults: &[RuleFault],
) -> Result<Vec<RuleCount<'a>>, AllocError> {
    let mut counts = Vec::new(alloc);
    for place in 0..rules.unique.len() {
        push_uncounted(&mut counts, unique_rule(rules, place))?;
    }
    let uniques = counts.len();
    for place in 0..rules.inverse.len() {
        push_uncounted(&mut counts, inverse_rule(rules, place))?;
    }
    for fault in faults {
        let place = match fault {
            RuleFault::NotUnique(fault) => fault.rule,
            RuleFault::InverseCount(fault) => uniques.saturating_add(fault.rule),
        };
        if let Some(counted) = counts.get_mut(place) {
            counted.count = counted.count.saturating_add(1);
        }
    }
    Ok(counts)
}

/// Adds a rule that no fault breaks so far.
fn push_uncounted<'a>(
    counts: &mut Vec<RuleCount<'a>>,
    rule: Option<Rule<'a>>,
) -> Result<(), AllocError> {
    if let Some(rule) = rule {
        counts.push(RuleCount { rule, count: 0 })?;
    }
    Ok(())
}
