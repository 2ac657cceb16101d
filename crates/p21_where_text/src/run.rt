//! The rules of a program over the instances of a model.

use p21_join::Model;
use p21_program::{Condition, Owner, Program};
use p21_schema::{EntityId, Schema};
use p21_where::{Division, Findings, Limits, RuleOwner, RunRule, RunRules, broken_rules};
use p21_world::Said;
use std::alloc::{AllocError, Global};

/// What the rules of a program find, by the entity of each simple instance.
pub(crate) fn findings_of<'l, 'p: 'l, D: Division>(
    division: &D,
    alloc: Global,
    schema: &'l Schema,
    program: &'l Program<'p>,
    model: &'l Model<'_>,
    entities: &[Option<EntityId>],
    limits: Limits,
) -> Result<Findings, AllocError>
    requires { D.ready division.now }
{
    let is_evaluated = evaluated(alloc, program)?;
    over_evaluated(
        division,
        alloc,
        schema,
        program,
        &is_evaluated,
        model,
        entities,
        limits,
    )
}

/// The same, where it is known which functions are evaluated.
fn over_evaluated<'l, 'p: 'l, D: Division>(
    division: &D,
    alloc: Global,
    schema: &'l Schema,
    program: &'l Program<'p>,
    is_evaluated: &'l [bool],
    model: &'l Model<'_>,
    entities: &[Option<EntityId>],
    limits: Limits,
) -> Result<Findings, AllocError>
    requires { D.ready division.now }
{
    let populations = populations(alloc, program)?;
    over_populations(
        division,
        alloc,
        schema,
        program,
        is_evaluated,
        &populations,
        model,
        entities,
        limits,
    )
}

/// The same, by the places of the entities of each RULE.
fn over_populations<'l, 'p: 'l, D: Division>(
    division: &D,
    alloc: Global,
    schema: &'l Schema,
    program: &'l Program<'p>,
    is_evaluated: &'l [bool],
    populations: &'l [Vec<u32>],
    model: &'l Model<'_>,
    entities: &[Option<EntityId>],
    limits: Limits,
) -> Result<Findings, AllocError>
    requires { D.ready division.now }
{
    let rules = run_rules(alloc, program)?;
    let run = rules_to_run(program, &rules, populations, is_evaluated);
    broken_rules(division, alloc, schema, run, model, entities, limits)
}

/// The rules of a program that are run, and what they call, by these parts of it.
fn rules_to_run<'l, 'p: 'l>(
    program: &'l Program<'p>,
    rules: &'l [RunRule<'l, 'p>],
    populations: &'l [Vec<u32>],
    is_evaluated: &'l [bool],
) -> RunRules<'l, 'p> {
    RunRules {
        rules,
        populations,
        functions: &program.functions,
        said: Said {
            names: &program.names,
            derivations: &program.derivations,
            inverses: &program.inverses,
            is_evaluated,
        },
        asks_users: program.asks_users,
    }
}

/// Of each function of a program whether it is evaluated.
fn evaluated(alloc: Global, program: &Program<'_>) -> Result<Vec<bool>, AllocError> {
    let mut all = Vec::new(alloc);
    for obstacle in &program.obstacles {
        all.push(obstacle.is_none())?;
    }
    Ok(all)
}

/// Of each RULE the places of its entities.
fn populations(alloc: Global, program: &Program<'_>) -> Result<Vec<Vec<u32>>, AllocError> {
    let mut all = Vec::new(alloc);
    for global in &program.globals {
        all.push(Vec::from_slice(alloc, &global.entities)?)?;
    }
    Ok(all)
}

/// The rules of a program that are run.
fn run_rules<'l, 'p: 'l>(
    alloc: Global,
    program: &'l Program<'p>,
) -> Result<Vec<RunRule<'l, 'p>>, AllocError> {
    let mut rules = Vec::new(alloc);
    for (number, rule) in program.rules.iter().enumerate() {
        if let (Some(owner), Condition::Term(condition)) = (
            run_owner(rule.owner),
            &rule.condition,
        ) {
            rules.push(RunRule {
                number,
                owner,
                condition,
            })?;
        }
    }
    Ok(rules)
}

/// What a rule is of, where the schema has it.
fn run_owner(owner: Owner) -> Option<RuleOwner> {
    match owner {
        Owner::Entity(place) => Some(RuleOwner::Entity(place)),
        Owner::Type(place) => Some(RuleOwner::Type(place)),
        Owner::Global(place) => Some(RuleOwner::Global(place)),
        Owner::Nothing => None,
    }
}
