//! The check of a file by several threads, which keeps outlines of simple instances and no trees.

ghost use Rattle.std.specs.Prelude.{◌≤◌, length, map, List, IfOk};
ghost use Rattle.std.specs.List.{AllZip};
ghost use Rattle.p21_cut.specs.Cutter.{plain_piece};
ghost use Rattle.p21_cut.specs.Pieces.{PiecesAre};
ghost use Rattle.p21_checker.specs.Lists.{PiecesAreDealt, pieces_in};
ghost use Rattle.p21_checker.specs.Answers.{AllReturned, AnswersTo, FirstReturned, TellsReading, TellsReadingWithAll};
ghost use Rattle.p21_checker.specs.Checked.{IsOfTexts, IsStated, StatesLocally, StatesTexts};
ghost use Rattle.p21_checker.specs.Counts.{HasFaults, IsFirstOf, TellsAll};
ghost use Rattle.p21_checker.specs.Gathering.{IsGathered};
ghost use Rattle.p21_checker.specs.declared.checked_list.CheckedList.{CheckedList};
ghost use Rattle.p21_checker.specs.declared.lists.PieceList.{PieceList};

use crate::again::reference_faults;
use crate::checked_list::CheckedList;
use crate::checking::{ListJudge, Locally, check_pieces};
use crate::counts::Counts;
use crate::gathering::Gathering;
use crate::lists::PieceList;
use crossbeam_utils::CachePadded;
use p21_crew::{Gate, Returned};
use p21_desk::LaneCount;
use p21_lanes::{Capacity, Receipt};
use p21_reader::{Pieces, Stop, all_begin_with_reading, checked_preface, values_give_all_faults};
use p21_schema::Schema;
use p21_tree::Fault;
use std::alloc::{AllocError, Global};
use std::sync::Wait;
use std::thread::Threads;

/// What a check of a file gave: its first fault, or none.
#[derive(Drop)]
pub struct FileCheck<'a> {
    /// What is counted of the instances of the file; or its first fault.
    pub answer: Result<Counts<'a>, Fault>,
    /// The lists of pieces that each lane received, by its number; none of a file that has a fault before its instances.
    pub receipts: Vec<Receipt<PieceList<'a>>>,
    /// What each lane returned, by its number: its history, and no values. None where there are no receipts.
    pub returned: Vec<Receipt<Returned<CheckedList<'a>>>>,
    /// The lane that each list of pieces of the file was dealt to; none where there are no receipts.
    pub dealt: Vec<u32>,
}

/// What a check of a file gave, with all its faults.
#[derive(Drop)]
pub struct FaultCheck<'a> {
    /// What is counted of the instances of the file; or all its faults, at least one.
    pub answer: Result<Counts<'a>, Vec<Fault>>,
    /// As in `FileCheck`.
    pub receipts: Vec<Receipt<PieceList<'a>>>,
    /// As in `FileCheck`.
    pub returned: Vec<Receipt<Returned<CheckedList<'a>>>>,
    /// As in `FileCheck`.
    pub dealt: Vec<u32>,
}

/// Why a check gave no answer.
#[derive(Clone, Copy, Debug, PartialEq, Eq)]
pub enum CheckError {
    /// Memory was refused, or a thread for a lane.
    Memory,
}

impl From<AllocError> for CheckError {
    ghost use Rattle.std.specs.Prelude.{◌≡◌};
    ghost use Rattle.p21_checker.specs.declared.check.CheckError.TheVariants.{Memory};

    ghost from_gives = { λ _ e. e ≡ Memory };

    fn from(_: AllocError) -> CheckError {
        CheckError::Memory
    }
}

/// Checks a whole file against a schema, by so many lanes: what is counted of its instances, or its first fault, as `read_lanes` finds
/// them.
///
/// Pieces are dealt in lists of a quarter of the capacity, and of a lane no more are dealt and not yet gathered than the capacity. Of most
/// simple instances a worker builds no tree, as `walk_piece` says, and of the others it lets it go when it has checked it; a complex one is
/// kept whole. It returns the outlines of a list, and passes the gate with the number of the first piece of each. The answer hangs neither on
/// the lanes nor on their capacity. An error is lack of memory, or of a thread.
///
/// That no tree of a simple instance is kept, and how many lists are out on a lane, are known by review.
pub fn check_lanes<'a, G: Gate + Sync, R: Threads + Wait + Sync>(
    rt: &R,
    alloc: Global,
    schema: &'a Schema,
    gate: &G,
    file: &'a [u8],
    lanes: LaneCount,
    capacity: Capacity,
) -> Result<FileCheck<'a>, CheckError>
    // Each piece of the file was dealt to exactly one lane, and each lane received exactly its pieces, once, in file
    // order, and then its end, with a receipt. As many lists as may be out on a lane have together no more pieces
    // than the capacity. If there is a fault before the instances, no piece is dealt and there is no receipt.
    ensures pieces { IfOk result (λ check. PiecesAreDealt schema.now file.now lanes capacity check.dealt.items check.receipts.items) }
    // Each lane returned its share of results that may be stated of the lists of pieces, one by one, with a receipt.
    // The answer tells the counts of an answer to these results, or the first of its faults.
    ensures returned { IfOk result (FirstReturned schema.now file.now lanes) }
    // The file has a reading against the schema, of whose instances these are the counts, or whose fault this is.
    ensures answer { IfOk result (TellsReading schema.now file.now) }
{
    all_begin_with_reading();
    let all = check_all_faults(rt, alloc, schema, gate, file, lanes, capacity)?;
    let FaultCheck {
        answer,
        receipts,
        returned,
        dealt,
    } = all;
    Ok(FileCheck {
        answer: first_of(answer),
        receipts,
        returned,
        dealt,
    })
}

/// The counts, or the first of the faults, of which there is one.
fn first_of(answer: Result<Counts<'_>, Vec<Fault>>) -> Result<Counts<'_>, Fault>
    requires { HasFaults answer }
    ensures { IsFirstOf answer.entry result }
{
    match answer {
        Ok(counts) => Ok(counts),
        Err(faults) => Err(faults[0]),
    }
}

/// The same, with all faults of the file, as `read_all_faults` finds them.
pub fn check_all_faults<'a, G: Gate + Sync, R: Threads + Wait + Sync>(
    rt: &R,
    alloc: Global,
    schema: &'a Schema,
    gate: &G,
    file: &'a [u8],
    lanes: LaneCount,
    capacity: Capacity,
) -> Result<FaultCheck<'a>, CheckError>
    // As for `check_lanes`.
    ensures pieces { IfOk result (λ check. PiecesAreDealt schema.now file.now lanes capacity check.dealt.items check.receipts.items) }
    // The answer tells the counts of an answer with all faults to the results that the lanes returned, or its faults.
    ensures returned { IfOk result (AllReturned (IsStated schema.now) schema.now file.now lanes) }
    // The same of all faults of the file, at least one, or of its instances where it has none.
    ensures answer { IfOk result (TellsReadingWithAll schema.now file.now) }
{
    // The workers read it for each list, while this thread writes what stands beside it.
    let judge = CachePadded::new(Locally { schema });
    check_by(rt, alloc, schema, &*judge, gate, file, lanes, capacity)
}

/// Checks a whole file by a judge of lists of pieces. What the judge says of a list is known from what a lane returned alone, so the answer
/// is made of that.
fn check_by<'a, J: ListJudge + Sync, G: Gate + Sync, R: Threads + Wait + Sync>(
    rt: &R,
    alloc: Global,
    schema: &'a Schema,
    judge: &J,
    gate: &G,
    file: &'a [u8],
    lanes: LaneCount,
    capacity: Capacity,
) -> Result<FaultCheck<'a>, CheckError>
    requires texts { StatesTexts (J.states judge.now) schema.now }
    // As for `check_lanes`.
    ensures pieces { IfOk result (λ check. PiecesAreDealt schema.now file.now lanes capacity check.dealt.items check.receipts.items) }
    // Whatever the judge may say of lists: each lane returned its share of what it said of them, and the answer tells
    // the counts of an answer with all faults to this, or its faults.
    ensures returned { IfOk result (AllReturned (J.states judge.now) schema.now file.now lanes) }
    // Where it says what pieces are by themselves, the answer is that of the file.
    ensures answer { StatesLocally (J.states judge.now) schema.now → IfOk result (TellsReadingWithAll schema.now file.now) }
{
    values_give_all_faults();
    let preface = match checked_preface(alloc, schema, file) {
        Ok(preface) => preface,
        Err(stop) => return FaultCheck::stopped(alloc, stop),
    };
    let at = preface.data_at as usize;
    let pieces = Pieces::new(file, at);
    let gathering = Gathering::new(alloc, schema.hash_key());
    let run = check_pieces(rt, alloc, judge, gate, pieces, gathering, lanes, capacity)?;
    gate.close();
    let answer = conclude(rt, alloc, schema, file, at, run.tail as usize, run.gatherer)?;
    Ok(FaultCheck {
        answer,
        receipts: run.receipts,
        returned: run.returned,
        dealt: run.dealt,
    })
}

impl<'a> FaultCheck<'a> {
    ghost use Rattle.p21_checker.specs.Answers.{IsStopped};

    /// What a check of a file gives that was not read further: its one fault, or lack of memory.
    fn stopped(alloc: Global, stop: Stop) -> Result<FaultCheck<'a>, CheckError>
        ensures { IfOk result (IsStopped stop) }
    {
        let fault = match stop {
            Stop::Fault(fault) => fault,
            Stop::Memory => return Err(CheckError::Memory),
        };
        let Ok(faults) = vec![in alloc; fault] else {
            return Err(CheckError::Memory);
        };
        Ok(FaultCheck {
            answer: Err(faults),
            receipts: Vec::new(alloc),
            returned: Vec::new(alloc),
            dealt: Vec::new(alloc),
        })
    }
}

/// The answer to what was gathered of the pieces of a file, whose data section begins at a place, and whose tail at another.
fn conclude<'a, R: Threads + Sync>(
    rt: &R,
    alloc: Global,
    schema: &'a Schema,
    file: &'a [u8],
    at: usize,
    tail: usize,
    gathering: Gathering<'a>,
) -> Result<Result<Counts<'a>, Vec<Fault>>, AllocError>
    requires begins { at ≤ length file.now }
    requires ends { tail ≤ length file.now }
    requires gathered { (lists : List PieceList) × (outs : List CheckedList) × IsGathered gathering outs × AllZip (IsOfTexts schema.now) lists outs × PiecesAre file.now at 0 (map plain_piece (pieces_in lists)) tail }
    ensures { (lists : List PieceList) → (outs : List CheckedList) → IsGathered gathering.entry outs → AllZip (IsOfTexts schema.entry.now) lists outs → PiecesAre file.entry.now at 0 (map plain_piece (pieces_in lists)) tail
        → IfOk result (λ answer. AnswersTo (TellsAll answer) schema.entry.now file.entry.now tail outs) }
{
    let outline = match gathering.conclude(file, tail)? {
        Ok(outline) => outline,
        Err(faults) => return Ok(Err(faults)),
    };
    let faults = reference_faults(rt, alloc, schema, file, at, &outline)?;
    if !faults.is_empty() {
        return Ok(Err(faults));
    }
    Ok(Ok(Counts {
        instances: outline.len() as u64,
        tally: outline.tally(rt, alloc, schema)?,
    }))
}
