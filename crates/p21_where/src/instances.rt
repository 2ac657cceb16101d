//! The rules over one instance.

use crate::asked::Asked;
use crate::concerns::{Concerns, is_of};
use crate::findings::{Findings, OfInstance, Outcome};
use crate::rules::RunRules;
use p21_evaluate::{Term, evaluate};
use p21_schema::Schema;
use p21_values::{Budget, Stop, Truth, Value};
use p21_world::FileWorld;
use std::alloc::{AllocError, Global};

/// How far an evaluation may go.
#[derive(Clone, Copy, Debug, PartialEq, Eq)]
pub struct Limits {
    /// How many steps a rule of an entity or a type may take.
    pub steps: u64,
    /// How deep expressions and statements may be nested.
    pub depth: usize,
}

/// What the rules are evaluated over.
#[derive(Clone, Copy)]
pub struct Run<'r, 'p, 'a> {
    pub(crate) alloc: Global,
    pub(crate) schema: &'r Schema,
    pub(crate) rules: RunRules<'r, 'p>,
    pub(crate) concerns: &'r Concerns,
    pub(crate) world: &'r FileWorld<'r, 'a>,
    /// The same, as evaluations ask it.
    pub(crate) asked: &'r Asked<'r, 'a>,
    pub(crate) limits: Limits,
}

impl<'r, 'p: 'r, 'a> Run<'r, 'p, 'a> {
    /// What the rules are evaluated over, all of which is lent alike.
    pub(crate) fn new(
        alloc: Global,
        schema: &'r Schema,
        rules: RunRules<'r, 'p>,
        concerns: &'r Concerns,
        asked: &'r Asked<'r, 'a>,
        limits: Limits,
    ) -> Run<'r, 'p, 'a> {
        Run {
            alloc,
            schema,
            rules,
            concerns,
            world: asked.world,
            asked,
            limits,
        }
    }
}

/// The outcome of a condition over variables.
pub(crate) fn outcome_of<'r, 'p: 'r, 'a>(
    run: &Run<'r, 'p, 'a>,
    term: &Term<'p>,
    steps: u64,
    slots: &mut Vec<Value<'r>>,
) -> Result<Outcome, AllocError> {
    let mut budget = Budget::new(run.alloc, steps);
    let found = evaluate(
        run.asked,
        run.rules.functions,
        run.limits.depth,
        &mut budget,
        term,
        slots,
    );
    match found {
        Ok(value) => Ok(match value.bare() {
            Value::Logical(Truth::False) => Outcome::Broken,
            _ => Outcome::Kept,
        }),
        Err(Stop::Memory) => Err(AllocError),
        Err(why) => Ok(Outcome::NotDecided(why)),
    }
}

/// The outcome of the rule at a place over a value.
pub(crate) fn outcome_over<'r, 'p: 'r, 'a>(
    run: &Run<'r, 'p, 'a>,
    rule: usize,
    value: Value<'r>,
) -> Result<Outcome, AllocError> {
    let Some(rule) = run.rules.rules.get(rule) else {
        return Ok(Outcome::Kept);
    };
    let mut slots = Vec::new(run.alloc);
    slots.push(value)?;
    outcome_of(run, rule.condition, run.limits.steps, &mut slots)
}

impl<'r, 'p: 'r, 'a> Run<'r, 'p, 'a> {
    /// Adds what the rules find of the instance at a place.
    pub(crate) fn add_instance(
        &self,
        place: usize,
        own: &mut OfInstance,
        findings: &mut Findings,
    ) -> Result<(), AllocError> {
        let Ok(number) = u32::try_from(place) else {
            return Ok(());
        };
        let entities = self.world.entities_of(number);
        if entities.len() == 1 {
            self.add_simple(number, entities[0], own, findings)?;
        } else {
            self.add_complex(number, entities, own, findings)?;
        }
        self.add_types(number, entities, own, findings)?;
        own.tell(self.rules.rules, findings, place)
    }

    /// Notes what the rules of entities find of an instance of one entity.
    fn add_simple(
        &self,
        number: u32,
        entity: u32,
        own: &mut OfInstance,
        findings: &mut Findings,
    ) -> Result<(), AllocError> {
        if let Some(rules) = self.concerns.by_entity.get(entity as usize) {
            for rule in rules {
                self.run_rule(number, *rule, own, findings)?;
            }
        }
        Ok(())
    }

    /// Notes what the rules of entities find of an instance whose records name these.
    fn add_complex(
        &self,
        number: u32,
        entities: &[u32],
        own: &mut OfInstance,
        findings: &mut Findings,
    ) -> Result<(), AllocError> {
        for rule in &self.concerns.of_entities {
            if is_of(self.schema, entities, rule.1 as usize) {
                self.run_rule(number, rule.0, own, findings)?;
            }
        }
        Ok(())
    }

    /// Notes what a rule of an entity finds.
    fn run_rule(
        &self,
        number: u32,
        rule: usize,
        own: &mut OfInstance,
        findings: &mut Findings,
    ) -> Result<(), AllocError> {
        findings.evaluations = findings.evaluations.saturating_add(1);
        own.note(rule, outcome_over(self, rule, Value::Instance(number))?)
    }
}
