//! The rules of RULEs over all instances.

use crate::findings::{Findings, Found, Outcome, Undecided};
use crate::instances::{Run, outcome_of};
use crate::rules::RuleOwner;
use p21_evaluate::Term;
use p21_values::{Budget, Stop, Value};
use std::alloc::AllocError;

/// How many steps each rule may take.
const STEPS: u64 = 1_000_000;

/// How many more for each instance of its populations.
const STEPS_FOR_AN_INSTANCE: u64 = 10_000;

impl<'r, 'p: 'r, 'a> Run<'r, 'p, 'a> {
    /// Adds what the rules of RULEs find.
    pub(crate) fn add_globals(&self, findings: &mut Findings) -> Result<(), AllocError> {
        for rule in self.rules.rules {
            if let RuleOwner::Global(global) = rule.owner {
                let outcome = self.outcome_of_global(global as usize, rule.condition)?;
                add_outcome(findings, rule.number, outcome)?;
            }
        }
        Ok(())
    }

    /// The outcome of a rule over the populations of a RULE.
    fn outcome_of_global(&self, global: usize, term: &Term<'p>) -> Result<Outcome, AllocError> {
        let Some(entities) = self.rules.populations.get(global) else {
            return Ok(Outcome::Kept);
        };
        let mut budget = Budget::new(self.alloc, u64::MAX);
        let mut slots = Vec::new(self.alloc);
        let mut count: u64 = 0;
        for entity in entities {
            match self.world.population(&mut budget, *entity) {
                Ok(population) => {
                    count = count.saturating_add(size(&population));
                    slots.push(population)?;
                }
                Err(Stop::Memory) => return Err(AllocError),
                Err(why) => return Ok(Outcome::NotDecided(why)),
            }
        }
        let more = STEPS_FOR_AN_INSTANCE.saturating_mul(count);
        outcome_of(self, term, STEPS.saturating_add(more), &mut slots)
    }
}

/// How many elements an aggregate has.
fn size(value: &Value<'_>) -> u64 {
    match value {
        Value::Aggregate(_, values) => values.len() as u64,
        _ => 0,
    }
}

/// Adds the outcome of the rule of a RULE.
fn add_outcome(findings: &mut Findings, rule: usize, outcome: Outcome) -> Result<(), AllocError> {
    match outcome {
        Outcome::Kept => {}
        Outcome::Broken => findings.broken_globals.push(Found { place: 0, rule })?,
        Outcome::NotDecided(why) => {
            findings.undecided_globals.push(Undecided {
                place: 0,
                rule,
                why,
            })?
        }
    }
    Ok(())
}
