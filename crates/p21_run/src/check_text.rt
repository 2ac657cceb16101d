//! The report of a check.

ghost use Rattle.std.specs.Prelude.{List, Result, IfOk};
ghost use Rattle.p21_tree.specs.Sentence.{Instance};
ghost use Rattle.p21_tree.specs.declared.faults.Fault.{Fault as Told};
ghost use Rattle.p21_checker.specs.Counts.{AreCountsOf, Tells, TellsAll};
ghost use Rattle.p21_render.specs.ReadingText.{IsAllText, IsModelText, IsReadingText};

use p21_checker::Counts;
use p21_counts::tally_text;
use p21_render::{fault_line, model_text, render_faults};
use p21_schema::Schema;
use p21_tree::Fault;
use std::alloc::{AllocError, Global};

/// The report of a check: the schema's name and the counts of the instances, or the line of the fault. Memory alone can fail.
pub(crate) fn render_check(
    alloc: Global,
    schema: &Schema,
    answer: &mut Result<Counts<'_>, Fault>,
) -> Result<Vec<u8>, AllocError>
    ensures { (full : Result (List Instance) Told) → Tells answer.old full → IfOk result (λ text. IsReadingText schema.now full text.items) }
{
    match answer {
        Ok(counts) => counts_text(alloc, schema, counts),
        Err(fault) => fault_line(alloc, fault),
    }
}

/// The report of a check that tells all faults: the schema's name and the counts of the instances, or the lines of the faults. Memory
/// alone can fail.
pub(crate) fn render_check_all(
    alloc: Global,
    schema: &Schema,
    answer: &mut Result<Counts<'_>, Vec<Fault>>,
) -> Result<Vec<u8>, AllocError>
    ensures { (full : Result (List Instance) (List Told)) → TellsAll answer.old full → IfOk result (λ text. IsAllText schema.now full text.items) }
{
    match answer {
        Ok(counts) => counts_text(alloc, schema, counts),
        Err(faults) => render_faults(alloc, faults.as_slice()),
    }
}

/// The report of what is counted. The keywords are put in order.
fn counts_text(
    alloc: Global,
    schema: &Schema,
    counts: &mut Counts<'_>,
) -> Result<Vec<u8>, AllocError>
    ensures { (is : List Instance) → AreCountsOf counts.old is → IfOk result (λ text. IsModelText schema.now is text.items) }
{
    let lines = tally_text(alloc, counts.instances, &mut counts.tally)?;
    model_text(alloc, schema, lines.as_slice())
}
