//! The answer of a check: the counts of a file's instances, or its faults.

ghost use Rattle.std.specs.Prelude.{◌≡◌, IfOk};
ghost use Rattle.p21_run.specs.Due.{IsFullReportOf, IsOutcomeOf, IsReport, IsReportOf};
ghost use Rattle.p21_run.specs.Run.{IsOfFile};

use crate::check_text::{render_check, render_check_all};
use crate::listener::Listener;
use crate::options::Options;
use crate::outcome::Outcome;
use p21_checker::{check_all_faults, check_lanes};
use p21_crew::Gate;
use p21_schema::Schema;
use std::alloc::{AllocError, Global};
use std::slice;
use std::sync::Wait;
use std::thread::Threads;

/// The report of a file that is due with an outcome.
#[derive(Debug, Drop)]
pub struct Answer {
    pub outcome: Outcome,
    pub text: Vec<u8>,
}

/// The report of a file: with all its faults where they are wanted, and else with the first alone. Memory alone, or a thread, can be refused.
pub(crate) fn report<R: Threads + Wait + Sync, G: Gate + Sync, L: Listener>(
    rt: &R,
    alloc: Global,
    options: &Options<'_, G>,
    schema: &Schema,
    file: &[u8],
    listener: &mut L,
) -> Result<Answer, AllocError>
    ensures due { IfOk result (λ answer. IsReport options.now.all schema.now file.now answer.outcome answer.text.items) }
    ensures of_file { IfOk result (λ answer. IsOfFile answer.outcome) }
{
    if options.all {
        full_report(rt, alloc, options, schema, file, listener)
    } else {
        first_report(rt, alloc, options, schema, file, listener)
    }
}

/// The report of a file with all its faults.
fn full_report<R: Threads + Wait + Sync, G: Gate + Sync, L: Listener>(
    rt: &R,
    alloc: Global,
    options: &Options<'_, G>,
    schema: &Schema,
    file: &[u8],
    listener: &mut L,
) -> Result<Answer, AllocError>
    ensures due { IfOk result (λ answer. IsFullReportOf schema.now file.now answer.outcome answer.text.items) }
    ensures of_file { IfOk result (λ answer. IsOfFile answer.outcome) }
{
    let capacity = options.capacity_of(file);
    let Ok(mut check) = check_all_faults(
        rt,
        alloc,
        schema,
        options.gate,
        file,
        options.lanes,
        capacity,
    ) else {
        return Err(AllocError);
    };
    listener.hear_checked();
    if let Err(faults) = &check.answer {
        listener.hear(schema, file, faults.as_slice());
    }
    let outcome = outcome(&check.answer);
    let text = render_check_all(alloc, schema, &mut check.answer)?;
    listener.let_go(check);
    Ok(Answer { outcome, text })
}

/// The report of a file with its first fault alone.
fn first_report<R: Threads + Wait + Sync, G: Gate + Sync, L: Listener>(
    rt: &R,
    alloc: Global,
    options: &Options<'_, G>,
    schema: &Schema,
    file: &[u8],
    listener: &mut L,
) -> Result<Answer, AllocError>
    ensures due { IfOk result (λ answer. IsReportOf schema.now file.now answer.outcome answer.text.items) }
    ensures of_file { IfOk result (λ answer. IsOfFile answer.outcome) }
{
    let capacity = options.capacity_of(file);
    let Ok(mut check) = check_lanes(
        rt,
        alloc,
        schema,
        options.gate,
        file,
        options.lanes,
        capacity,
    ) else {
        return Err(AllocError);
    };
    listener.hear_checked();
    if let Err(fault) = &check.answer {
        listener.hear(schema, file, slice::from_ref(fault));
    }
    let outcome = outcome(&check.answer);
    let text = render_check(alloc, schema, &mut check.answer)?;
    listener.let_go(check);
    Ok(Answer { outcome, text })
}

/// How a run ends over a file of which a check gave this answer.
fn outcome<C, F>(answer: &Result<C, F>) -> Outcome
    ensures due { IsOutcomeOf answer.now result }
    ensures of_file { IsOfFile result }
{
    match answer {
        Ok(_) => Outcome::Complete,
        Err(_) => Outcome::Faulty,
    }
}
