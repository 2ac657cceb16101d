//! What the rules find.

ghost use Rattle.std.specs.Prelude.{◌≤◌, length};

use crate::rules::RunRule;
use p21_values::Stop;
use std::alloc::{AllocError, Global};

/// A rule that an instance breaks.
#[derive(Clone, Copy, Debug, PartialEq, Eq)]
pub struct Found {
    /// The place of the instance in the model.
    pub place: usize,
    /// The number of the rule.
    pub rule: usize,
}

/// A rule of which it is not decided whether an instance breaks it.
#[derive(Clone, Copy, Debug, PartialEq, Eq)]
pub struct Undecided {
    /// The place of the instance in the model.
    pub place: usize,
    /// The number of the rule.
    pub rule: usize,
    pub why: Stop,
}

/// What the rules find, in the order of the instances, and of one instance in the order of the rules.
#[derive(Debug, Drop)]
pub struct Findings {
    pub broken: Vec<Found>,
    pub undecided: Vec<Undecided>,
    /// The rules of RULEs that are broken, and those that are not decided. Their places are 0.
    pub broken_globals: Vec<Found>,
    pub undecided_globals: Vec<Undecided>,
    /// How many evaluations there were, without those of RULEs.
    pub evaluations: u64,
}

/// Findings of nothing.
pub(crate) fn no_findings(alloc: Global) -> Findings {
    Findings {
        broken: Vec::new(alloc),
        undecided: Vec::new(alloc),
        broken_globals: Vec::new(alloc),
        undecided_globals: Vec::new(alloc),
        evaluations: 0,
    }
}

impl Findings {
    /// Adds those of further instances.
    pub(crate) fn append(&mut self, more: &Findings) -> Result<(), AllocError> {
        self.broken.extend_from_slice(&more.broken)?;
        self.undecided.extend_from_slice(&more.undecided)?;
        self.evaluations = self.evaluations.saturating_add(more.evaluations);
        Ok(())
    }
}

/// What an evaluation says of a rule.
#[derive(Clone, Copy, Debug, PartialEq, Eq)]
pub(crate) enum Outcome {
    /// It is FALSE.
    Broken,
    /// It is something else.
    Kept,
    NotDecided(Stop),
}

/// The rules that one instance breaks, and those that are not decided, each once and in their order.
#[derive(Drop)]
pub(crate) struct OfInstance {
    broken: Vec<usize>,
    undecided: Vec<(usize, Stop)>,
}

impl OfInstance {
    pub(crate) fn new(alloc: Global) -> OfInstance {
        OfInstance {
            broken: Vec::new(alloc),
            undecided: Vec::new(alloc),
        }
    }

    /// Notes the outcome of a rule.
    pub(crate) fn note(&mut self, rule: usize, outcome: Outcome) -> Result<(), AllocError> {
        match outcome {
            Outcome::Kept => Ok(()),
            Outcome::Broken => {
                let place = behind_less(&self.broken, rule);
                if self.broken.get(place) != Some(&rule) {
                    self.broken.insert(place, rule)?;
                }
                Ok(())
            }
            Outcome::NotDecided(why) => {
                if !self.undecided.iter().any(|told| told.0 == rule) {
                    self.undecided.push((rule, why))?;
                }
                Ok(())
            }
        }
    }

    /// Moves them to the findings of the instance at a place, by the numbers of the rules.
    pub(crate) fn tell(
        &mut self,
        rules: &[RunRule<'_, '_>],
        findings: &mut Findings,
        place: usize,
    ) -> Result<(), AllocError> {
        for rule in &self.broken {
            let rule = number_of(rules, *rule);
            findings.broken.push(Found { place, rule })?;
        }
        for told in &self.undecided {
            let rule = number_of(rules, told.0);
            let why = told.1;
            findings.undecided.push(Undecided { place, rule, why })?;
        }
        self.broken.clear();
        self.undecided.clear();
        Ok(())
    }
}

/// The number by which the rule at a place is told.
pub(crate) fn number_of(rules: &[RunRule<'_, '_>], place: usize) -> usize {
    match rules.get(place) {
        Some(rule) => rule.number,
        None => place,
    }
}

/// The place behind those of numbers in order that are less.
fn behind_less(numbers: &[usize], number: usize) -> usize
    ensures { result ≤ length numbers.now }
{
    let mut place = numbers.len();
    while place > 0 && numbers[place - 1] >= number {
        place -= 1;
    }
    place
}
