//! Reading a file by lanes with all its faults.

ghost use Rattle.std.specs.Prelude.{◌≡◌, ◌≤◌, ◌∷◌, [], IfOk, List, length};
ghost use Rattle.std.specs.List.{AllZip};
ghost use Rattle.p21_tree.specs.declared.pieces.Piece.{Piece};
ghost use Rattle.p21_check.specs.EntityOf.{AreSimpleEntities};
ghost use Rattle.p21_join.specs.Model.{instances_of, plain_instances};
ghost use Rattle.p21_refs.specs.AllReferenceFaults.{AreReferenceFaults};
ghost use Rattle.p21_refs.specs.FirstReferenceFault.{AreSound};
ghost use Rattle.p21_reader.specs.AllAnswer.{AllAnswerReturned, plain_all};
ghost use Rattle.p21_reader.specs.AllByValues.{IsAllAnswerTo};
ghost use Rattle.p21_reader.specs.AllFaults.{IsReadingWithAll};
ghost use Rattle.p21_reader.specs.EveryFault.{AreFaultsGathered};
ghost use Rattle.p21_reader.specs.Judged.{value_of, values_of};
ghost use Rattle.p21_reader.specs.Lanes.{IsStated, PiecesAreDealt};
ghost use Rattle.p21_reader.specs.Values.{IsJudged};
ghost use Rattle.p21_reader.specs.declared.judged.Judgement.{Judgement};

use crate::all_laws::values_give_all_faults;
use crate::every_fault::FaultGathering;
use crate::judged::{Judgement, Locally};
use crate::judging::{Judging, judge_pieces};
use crate::pieces::Pieces;
use crate::preface::checked_preface;
use crate::reading::ReadError;
use crate::stop::Stop;
use p21_crew::{Gate, Returned};
use p21_desk::LaneCount;
use p21_join::{Model, ModelEntities};
use p21_lanes::{Capacity, Receipt};
use p21_refs::all_bad_among;
use p21_schema::{EntityId, Schema};
use p21_tree::{Fault, Piece};
use std::alloc::{AllocError, Global};
use std::sync::Wait;
use std::thread::Threads;

/// What reading a file gave, with all its faults.
#[derive(Drop)]
pub struct AllFaults<'a> {
    /// The instances of the file in their order; or all its faults, at least one.
    pub answer: Result<Model<'a>, Vec<Fault>>,
    /// What each lane received, by its number; none of a file that has a fault before its instances.
    pub receipts: Vec<Receipt<Piece<'a>>>,
    /// What each lane returned, by its number: its history, and no values. None where there are no receipts.
    pub returned: Vec<Receipt<Returned<Judgement<'a>>>>,
    /// The lane that each piece of the file was dealt to; none where there are no receipts.
    pub dealt: Vec<u32>,
}

/// Reads a whole file against a schema, by so many lanes, and tells all its faults.
///
/// A fault before the instances stands alone: one of the grammar up to and including `DATA;`, of the header entities, or of the
/// schema's name. Else the faults are, in the order of the file, those of the instances that stand whole before the first
/// grammar fault, one of each at most, and then that fault. A name is repeated where any earlier instance has it, with a fault or
/// without. Where there is none of these, they are the reference faults, the first of each instance that has one.
///
/// Pieces are dealt and read as `read_lanes` does it. The answer hangs neither on the lanes nor on their capacity. An error is
/// lack of memory, or of a thread.
pub fn read_all_faults<'a, G: Gate + Sync, R: Threads + Wait + Sync>(
    rt: &R,
    alloc: Global,
    schema: &Schema,
    gate: &G,
    file: &'a [u8],
    lanes: LaneCount,
    capacity: Capacity,
) -> Result<AllFaults<'a>, ReadError>
    // As for `read_lanes`.
    ensures pieces { IfOk result (λ all. PiecesAreDealt schema.now file.now lanes all.dealt.items all.receipts.items) }
    // The answer is that to the results that the lanes returned.
    ensures returned { IfOk result (AllAnswerReturned schema.now file.now lanes) }
    // All faults of the file, at least one, or its instances where it has none. The faults are that before the
    // instances alone; otherwise the fault of each instance that is whole before the first grammar fault and has one,
    // in file order, and then that grammar fault; otherwise the reference faults.
    ensures answer { IfOk result (λ all. IsReadingWithAll schema.now file.now (plain_all all.answer)) }
{
    values_give_all_faults();
    let preface = match checked_preface(alloc, schema, file) {
        Ok(preface) => preface,
        Err(stop) => return AllFaults::stopped(alloc, stop),
    };
    let pieces = Pieces::new(file, preface.data_at as usize);
    let work = Judging {
        judge: &Locally,
        schema,
    };
    let gathering = FaultGathering::new(alloc, schema);
    let Ok(run) = judge_pieces(rt, alloc, &work, gate, pieces, gathering, lanes, capacity) else {
        return Err(ReadError::Memory);
    };
    gate.close();
    let Ok(answer) = conclude(rt, alloc, schema, file, run.tail as usize, run.gatherer) else {
        return Err(ReadError::Memory);
    };
    Ok(AllFaults {
        answer,
        receipts: run.receipts,
        returned: run.returned,
        dealt: run.dealt,
    })
}

impl<'a> AllFaults<'a> {
    ghost use Rattle.p21_reader.specs.AllAnswer.{IsStoppedWithAll};

    /// What a file gives that was not read further: its one fault, or lack of memory.
    fn stopped(alloc: Global, stop: Stop) -> Result<AllFaults<'a>, ReadError>
        ensures { IfOk result (IsStoppedWithAll stop) }
    {
        let fault = match stop {
            Stop::Fault(fault) => fault,
            Stop::Memory => return Err(ReadError::Memory),
        };
        let Ok(faults) = vec![in alloc; fault] else {
            return Err(ReadError::Memory);
        };
        Ok(AllFaults {
            answer: Err(faults),
            receipts: Vec::new(alloc),
            returned: Vec::new(alloc),
            dealt: Vec::new(alloc),
        })
    }
}

/// The answer to what was gathered of the pieces of a file.
fn conclude<'a, R: Threads + Sync>(
    rt: &R,
    alloc: Global,
    schema: &Schema,
    file: &[u8],
    tail: usize,
    gathering: FaultGathering<'a>,
) -> Result<Result<Model<'a>, Vec<Fault>>, AllocError>
    requires within { tail ≤ length file.now }
    requires gathered { (pieces : List Piece) × (js : List Judgement) × AreFaultsGathered gathering js × AllZip (IsStated (λ p j. IsJudged schema.now p (value_of j)) schema.now) pieces js }
    ensures { (pieces : List Piece) (js : List Judgement) → AreFaultsGathered gathering.entry js → AllZip (IsStated (λ p j. IsJudged schema.now p (value_of j)) schema.now) pieces js
        → IfOk result (λ answer. IsAllAnswerTo schema.now file.now tail (values_of js) (plain_all answer)) }
{
    let (model, entities) = match gathering.conclude(file, tail)? {
        Ok(gathered) => gathered,
        Err(faults) => return Ok(Err(faults)),
    };
    let faults = reference_faults(rt, alloc, schema, &model, entities)?;
    if faults.is_empty() {
        Ok(Ok(model))
    } else {
        Ok(Err(faults))
    }
}

/// The reference faults of a model, by the entity of each instance.
fn reference_faults<R: Threads + Sync>(
    rt: &R,
    alloc: Global,
    schema: &Schema,
    model: &Model<'_>,
    entities: Vec<Option<EntityId>>,
) -> Result<Vec<Fault>, AllocError>
    requires sound { AreSound schema.now (plain_instances (instances_of model.now)) }
    requires entities { AreSimpleEntities schema.now (plain_instances (instances_of model.now)) entities.items }
    ensures { IfOk result (λ faults. AreReferenceFaults schema.now (plain_instances (instances_of model.now)) (plain_instances (instances_of model.now)) faults.items) }
{
    let entities = ModelEntities::of(schema, model, entities);
    all_bad_among(rt, alloc, &entities)
}
