//! The labels of rules UNIQUE.

ghost use Rattle.std.specs.Prelude.{◌≡◌, ℕ, List, Some, MatchOption, map};
ghost use Rattle.std.specs.Bool.{MatchBool};
ghost use Rattle.std.specs.List.{AllByRecursion};
ghost use Rattle.p21_rule_text.specs.Clauses.{plain_unique};
ghost use Rattle.p21_rule_text.specs.Entities.{plain_clauses};
ghost use Rattle.p21_rule_text.specs.Rules.{HasLabel, HaveDistinctLabels};

use crate::clauses::UniqueClause;
use crate::entities::EntityClauses;

/// The first label that an earlier rule of its entity has: how many words stand from it on.
pub(crate) fn repeated_label(clauses: &[EntityClauses]) -> Option<usize>
    ensures { let distinct = AllByRecursion (λ e. HaveDistinctLabels e.unique) (map plain_clauses clauses.now) in MatchOption result distinct (λ place. ¬ distinct) }
{
    for entity in clauses {
        if let Some(place) = repeated_in(&entity.unique) {
            return Some(place);
        }
    }
    None
}

/// The same of the rules of one entity.
fn repeated_in(rules: &[UniqueClause]) -> Option<usize>
    ensures { let distinct = HaveDistinctLabels (map plain_unique rules.now) in MatchOption result distinct (λ place. ¬ distinct) }
{
    for index in 0..rules.len() {
        let rule = &rules[index];
        if repeats(&rules[..index], rule) {
            return Some(rule.place);
        }
    }
    None
}

/// Whether one of these rules has the label of another one.
fn repeats(earlier: &[UniqueClause], rule: &UniqueClause) -> bool
    ensures { let repeats = (n : List ℕ) × ((plain_unique rule.now).label ≡ Some n) × HasLabel (map plain_unique earlier.now) n in MatchBool result repeats (¬ repeats) }
{
    match rule.label {
        Some(label) => has_label(earlier, label),
        None => false,
    }
}

/// Whether one of these rules has this label.
fn has_label(rules: &[UniqueClause], label: &[u8]) -> bool
    ensures { let has = HasLabel (map plain_unique rules.now) label.now in MatchBool result has (¬ has) }
{
    for rule in rules {
        if is_labelled(rule, label) {
            return true;
        }
    }
    false
}

/// Whether a rule has this label.
fn is_labelled(rule: &UniqueClause, label: &[u8]) -> bool
    ensures { let is = (plain_unique rule.now).label ≡ Some label.now in MatchBool result is (¬ is) }
{
    match rule.label {
        Some(own) => own == label,
        None => false,
    }
}
