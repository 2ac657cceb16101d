//! The rules over all instances.

ghost use Rattle.std.specs.Prelude.{⊤};
ghost use Rattle.std.specs.Thread.{IsSync};

use crate::asked::Asked;
use crate::concerns::concerns_of;
use crate::findings::{Findings, OfInstance, no_findings};
use crate::instances::{Limits, Run};
use crate::rules::RunRules;
use p21_join::Model;
use p21_schema::{EntityId, Schema};
use p21_world::{Dictionary, FileWorld, dictionary_of};
use rayon::current_num_threads;
use std::alloc::{AllocError, Global};
use std::thread::{Threads, map_indices};

/// The fewest instances that are worth a thread of their own.
const FEWEST: usize = 4096;

/// How the instances are divided between threads.
pub trait Division {
    /// What has to hold for it.
    ghost ready: { Self → Type 0 };

    /// What the rules find of so many instances, in their order. An error says that memory ran out.
    fn find<'r, 'p: 'r, 'a>(
        &self,
        alloc: Global,
        run: Run<'r, 'p, 'a>,
        count: usize,
    ) -> Result<Findings, AllocError>
        requires { ready self.now };
}

/// The calling thread takes all instances.
#[derive(Clone, Copy, Debug)]
pub struct Undivided;

/// Each thread of a runtime takes a part, where there are many instances.
#[derive(Clone, Copy)]
pub struct ByThreads<'t, R> {
    pub rt: &'t R,
}

impl Division for Undivided {
    ghost ready = { λ _. ⊤ };

    fn find<'r, 'p: 'r, 'a>(
        &self,
        alloc: Global,
        run: Run<'r, 'p, 'a>,
        count: usize,
    ) -> Result<Findings, AllocError> {
        of_part(alloc, &run, 0, count)
    }
}

impl<R: Threads + Sync> Division for ByThreads<'_, R> {
    ghost ready = { λ _. IsSync R.row };

    fn find<'r, 'p: 'r, 'a>(
        &self,
        alloc: Global,
        run: Run<'r, 'p, 'a>,
        count: usize,
    ) -> Result<Findings, AllocError> {
        by_threads(self.rt, alloc, run, count)
    }
}

/// The rules of WHERE that the instances of a model break, by the entity of each simple instance. An error says that memory ran out.
pub fn broken_rules<'r, 'p: 'r, D: Division>(
    division: &D,
    alloc: Global,
    schema: &'r Schema,
    rules: RunRules<'r, 'p>,
    model: &'r Model<'_>,
    entities: &[Option<EntityId>],
    limits: Limits,
) -> Result<Findings, AllocError>
    requires { D.ready division.now }
{
    let dictionary = dictionary_of(alloc, schema, rules.said)?;
    over_dictionary(
        division,
        alloc,
        schema,
        &dictionary,
        rules,
        model,
        entities,
        limits,
    )
}

/// The same with what the schema says of attributes and types.
fn over_dictionary<'r, 'p: 'r, D: Division>(
    division: &D,
    alloc: Global,
    schema: &'r Schema,
    dictionary: &'r Dictionary<'r>,
    rules: RunRules<'r, 'p>,
    model: &'r Model<'_>,
    entities: &[Option<EntityId>],
    limits: Limits,
) -> Result<Findings, AllocError>
    requires { D.ready division.now }
{
    let world = FileWorld::new(alloc, dictionary, model, entities, rules.asks_users)?;
    over_world(division, alloc, schema, &world, rules, model.len(), limits)
}

/// The same with the instances as a world, of which there are so many.
fn over_world<'r, 'p: 'r, 'a, D: Division>(
    division: &D,
    alloc: Global,
    schema: &'r Schema,
    world: &'r FileWorld<'r, 'a>,
    rules: RunRules<'r, 'p>,
    count: usize,
    limits: Limits,
) -> Result<Findings, AllocError>
    requires { D.ready division.now }
{
    let concerns = concerns_of(alloc, schema, rules.rules)?;
    let asked = Asked { world };
    let run = Run::new(alloc, schema, rules, &concerns, &asked, limits);
    let mut findings = division.find(alloc, run, count)?;
    run.add_globals(&mut findings)?;
    Ok(findings)
}

/// What the rules find of so many instances, by several threads where there are many. Each takes a part, and the findings are in the order of the parts.
fn by_threads<'r, 'p: 'r, 'a, R: Threads + Sync>(
    rt: &R,
    alloc: Global,
    run: Run<'r, 'p, 'a>,
    count: usize,
) -> Result<Findings, AllocError> {
    let size = FEWEST.max(count.div_ceil(current_num_threads(rt)));
    let part = move |number: usize| -> Result<Findings, AllocError> {
        let from = number.saturating_mul(size);
        of_part(alloc, &run, from, from.saturating_add(size).min(count))
    };
    let parts = map_indices(rt, alloc, count.div_ceil(size), &part)?;
    let mut findings = no_findings(alloc);
    for part in parts.as_slice() {
        match part {
            Ok(part) => findings.append(part)?,
            Err(_) => return Err(AllocError),
        }
    }
    Ok(findings)
}

/// What the rules find of the instances from a place up to another.
fn of_part<'r, 'p: 'r, 'a>(
    alloc: Global,
    run: &Run<'r, 'p, 'a>,
    from: usize,
    to: usize,
) -> Result<Findings, AllocError> {
    let mut findings = no_findings(alloc);
    let mut own = OfInstance::new(alloc);
    for place in from..to {
        run.add_instance(place, &mut own, &mut findings)?;
    }
    Ok(findings)
}
