//! Reading a file by lanes: each piece by one worker of several, the answer by one dealer.

ghost use Rattle.std.specs.Prelude.{◌≤◌, IfOk, List, length, MatchOption};
ghost use Rattle.std.specs.List.{AllZip};
ghost use Rattle.p21_tree.specs.declared.pieces.Piece.{Piece};
ghost use Rattle.p21_check.specs.EntityOf.{AreSimpleEntities};
ghost use Rattle.p21_join.specs.Model.{instances_of, plain_instances};
ghost use Rattle.p21_refs.specs.FirstReferenceFault.{AreAnswered, AreSound, IsFirstReferenceFault};
ghost use Rattle.p21_reader.specs.Answer.{plain_answer};
ghost use Rattle.p21_reader.specs.FirstFault.{IsGathered};
ghost use Rattle.p21_reader.specs.Judged.{values_of};
ghost use Rattle.p21_reader.specs.Lanes.{AnswersReturned, AreGathered, IsStated, FindsEachFault, IsReadBy, JudgesLocally, PiecesAreDealt, SaysLocally};
ghost use Rattle.p21_reader.specs.Reading.{IsReading};
ghost use Rattle.p21_reader.specs.Values.{IsAnswerTo};
ghost use Rattle.p21_reader.specs.declared.judged.Judgement.{Judgement};

use crate::first_fault::Gathering;
use crate::judged::{ByJudge, EntityJudge, Judge, Locally};
use crate::judging::Judging;
use crate::laws::values_give_reading;
use crate::pieces::Pieces;
use crate::preface::checked_preface;
use crate::reading::{ReadError, Reading};
use p21_crew::{Gate, run_crew};
use p21_desk::LaneCount;
use p21_join::{Model, ModelEntities};
use p21_lanes::Capacity;
use p21_refs::first_bad_among;
use p21_schema::{EntityId, Schema};
use p21_tree::Fault;
use std::alloc::Global;
use std::sync::Wait;
use std::thread::Threads;

/// Reads a whole file against a schema, by so many lanes.
///
/// Each piece of the data section is dealt to one lane, and read and checked there by a worker in a thread of its own, while on
/// no lane more pieces are out than the capacity. Behind a fault too all pieces are dealt. `dealt` has the lane of each piece,
/// `receipts` what each lane received and `returned` what it returned; all are empty where a fault stands before the data section. The
/// answer is made of what the lanes returned, and is that of `read_serial`, whatever the lanes. An error is lack of memory, or of a
/// thread.
pub fn read_lanes<'a, G: Gate + Sync, R: Threads + Wait + Sync>(
    rt: &R,
    alloc: Global,
    schema: &Schema,
    gate: &G,
    file: &'a [u8],
    lanes: LaneCount,
    capacity: Capacity,
) -> Result<Reading<'a>, ReadError>
    // Each piece of the file was dealt to exactly one lane, and each lane received exactly its pieces, once, in file
    // order, and then its end, with a receipt. If there is a fault before the instances, no piece is dealt and there
    // is no receipt.
    ensures pieces { IfOk result (λ reading. PiecesAreDealt schema.now file.now lanes reading.dealt.items reading.receipts.items) }
    // Each lane returned its share of results that may be stated of the pieces, one by one, with a receipt. The
    // answer is that to these results.
    ensures returned { IfOk result (AnswersReturned (JudgesLocally schema.now) schema.now file.now lanes) }
    // It is the reading of the whole file against the schema: its instances in file order, or its first fault.
    ensures answer { IfOk result (λ reading. IsReading schema.now file.now (plain_answer reading.answer)) }
{
    read_pieces(rt, alloc, schema, &Locally, gate, file, lanes, capacity)
}

/// Reads a whole file against a schema, by so many lanes whose workers ask a judge.
///
/// The answer is the first fault of what the judge says of the pieces: a grammar fault, a name that an earlier instance has, or
/// the fault that an instance is said to have by itself; else the fault of the tail; else the first reference fault; else the
/// instances. All else is as `read_lanes` does it.
pub fn read_lanes_by<'a, J: Judge + Sync, G: Gate + Sync, R: Threads + Wait + Sync>(
    rt: &R,
    alloc: Global,
    schema: &Schema,
    judge: &J,
    gate: &G,
    file: &'a [u8],
    lanes: LaneCount,
    capacity: Capacity,
) -> Result<Reading<'a>, ReadError>
    requires { FindsEachFault (J.judges judge.now) schema.now }
    // The pieces were dealt as for `read_lanes`. The answer is the fault before the instances; otherwise, by what the
    // judge says of each piece and by the names before it, the first fault, else that of the tail, else the first
    // reference fault, else the instances.
    ensures reading { IfOk result (IsReadBy (J.judges judge.now) schema.now file.now lanes) }
    // What the lanes returned is what the judge may say of the pieces, and the answer is that to it.
    ensures returned { IfOk result (AnswersReturned (J.judges judge.now) schema.now file.now lanes) }
{
    read_pieces(
        rt,
        alloc,
        schema,
        &ByJudge { judge },
        gate,
        file,
        lanes,
        capacity,
    )
}

/// Reads a whole file against a schema, by so many lanes whose workers judge pieces and find the entities of their instances.
fn read_pieces<'a, E: EntityJudge + Sync, G: Gate + Sync, R: Threads + Wait + Sync>(
    rt: &R,
    alloc: Global,
    schema: &Schema,
    judge: &E,
    gate: &G,
    file: &'a [u8],
    lanes: LaneCount,
    capacity: Capacity,
) -> Result<Reading<'a>, ReadError>
    requires { FindsEachFault (E.judges judge.now schema.now) schema.now }
    ensures reading { IfOk result (IsReadBy (E.judges judge.now schema.now) schema.now file.now lanes) }
    ensures pieces { IfOk result (λ reading. PiecesAreDealt schema.now file.now lanes reading.dealt.items reading.receipts.items) }
    ensures returned { IfOk result (AnswersReturned (E.judges judge.now schema.now) schema.now file.now lanes) }
    ensures answer { SaysLocally (E.judges judge.now schema.now) schema.now → IfOk result (λ reading. IsReading schema.now file.now (plain_answer reading.answer)) }
{
    values_give_reading();
    let preface = match checked_preface(alloc, schema, file) {
        Ok(preface) => preface,
        Err(stop) => return Reading::stopped(alloc, stop),
    };
    let pieces = Pieces::new(file, preface.data_at as usize);
    let work = Judging { judge, schema };
    let gathering = Gathering::new(alloc, schema);
    let Ok(run) = run_crew(rt, alloc, &work, gate, pieces, gathering, lanes, capacity) else {
        return Err(ReadError::Memory);
    };
    gate.close();
    let answer = conclude::<E, R>(rt, schema, judge, file, run.tail as usize, run.gatherer);
    Ok(Reading {
        answer,
        receipts: run.receipts,
        returned: run.returned,
        dealt: run.dealt,
    })
}

/// The answer to what was gathered of the pieces of a file.
fn conclude<'a, E: EntityJudge, R: Threads + Sync>(
    rt: &R,
    schema: &Schema,
    judge: &E,
    file: &[u8],
    tail: usize,
    gathering: Gathering<'a>,
) -> Result<Model<'a>, Fault>
    requires finds { FindsEachFault (E.judges judge.now schema.now) schema.now }
    requires within { tail ≤ length file.now }
    requires gathered { AreGathered (E.judges judge.now schema.now) schema.now gathering }
    ensures { (pieces : List Piece) (js : List Judgement) → IsGathered gathering.entry js → AllZip (IsStated (E.judges judge.now schema.now) schema.now) pieces js
        → IsAnswerTo schema.now file.now tail (values_of js) (plain_answer result) }
{
    let (model, entities) = gathering.conclude(file, tail)?;
    match first_reference_fault(rt, schema, &model, entities) {
        None => Ok(model),
        Some(fault) => Err(fault),
    }
}

/// The first reference fault of a model, by the entity of each instance; none where each reference is answered as it is wanted.
fn first_reference_fault<R: Threads + Sync>(
    rt: &R,
    schema: &Schema,
    model: &Model<'_>,
    entities: Vec<Option<EntityId>>,
) -> Option<Fault>
    requires sound { AreSound schema.now (plain_instances (instances_of model.now)) }
    requires entities { AreSimpleEntities schema.now (plain_instances (instances_of model.now)) entities.items }
    ensures { MatchOption result
        (AreAnswered schema.now (plain_instances (instances_of model.now)) (plain_instances (instances_of model.now)))
        (IsFirstReferenceFault schema.now (plain_instances (instances_of model.now))) }
{
    let entities = ModelEntities::of(schema, model, entities);
    first_bad_among(rt, &entities)
}
