//! What a worker does with a list of pieces.

ghost use Rattle.std.specs.Prelude.{◌≡◌, ◌++◌, ◌∷◌, All, List, [], IfOk, IfSome, OnOk};
ghost use Rattle.p21_tree.specs.declared.instances.RawInstance.{RawInstance};
ghost use Rattle.p21_check.specs.WalkPiece.{IsWalked};
ghost use Rattle.p21_tree.specs.declared.pieces.Piece.{Piece};
ghost use Rattle.p21_crew.specs.Run.{IsRun};
ghost use Rattle.p21_reader.specs.Pieces.{AreGiven};
ghost use Rattle.p21_checker.specs.Checked.{AreStated};
ghost use Rattle.p21_checker.specs.Gathering.{IsGathered};
ghost use Rattle.p21_checker.specs.Lists.{FitsWindow, pieces_in};
ghost use Rattle.p21_checker.specs.declared.checked_list.CheckedList.{CheckedList};
ghost use Rattle.p21_checker.specs.declared.lists.PieceList.{PieceList};

use crate::checked::Checked;
use crate::checked_list::CheckedList;
use crate::gathering::Gathering;
use crate::lists::{PieceList, PieceLists, lists_out, most_together};
use crossbeam_utils::CachePadded;
use p21_check::{Lately, Walked, walk_piece};
use p21_crew::{Gate, Run, Work, run_crew};
use p21_desk::LaneCount;
use p21_lanes::Capacity;
use p21_reader::Pieces;
use p21_schema::Schema;
use p21_tree::{InstanceReader, Piece, TreeError};
use std::alloc::{AllocError, Global};
use std::sync::Wait;
use std::thread::Threads;

/// Checks lists of pieces by themselves.
///
/// Its ghost `states` says what it may say of a list.
pub(crate) trait ListJudge {
    /// What may be said of a list of pieces.
    ghost states: { Self → PieceList → CheckedList → Type 0 };

    /// Checks the pieces of a list by themselves. The reader may have read any pieces before. An error is lack of memory.
    fn check_list<'a>(
        &self,
        alloc: Global,
        reader: &mut InstanceReader<'a>,
        list: PieceList<'a>,
    ) -> Result<CheckedList<'a>, AllocError>
        // What the judge may say of the list.
        ensures { IfOk result (λ checked. states self.now list.entry checked) };
}

/// Says what the pieces of a list are by themselves against a schema.
#[derive(Clone, Copy)]
pub(crate) struct Locally<'s> {
    pub(crate) schema: &'s Schema,
}

impl ListJudge for Locally<'_> {
    ghost use Rattle.p21_checker.specs.Checked.{IsStated};

    ghost states = { λ judge list checked. IsStated judge.schema.now list checked };

    #[inline(always)]
    fn check_list<'a>(
        &self,
        alloc: Global,
        reader: &mut InstanceReader<'a>,
        list: PieceList<'a>,
    ) -> Result<CheckedList<'a>, AllocError> {
        let mut checked = CheckedList::with_capacity(alloc, list.others.len().saturating_add(1))?;
        let mut lately = Lately::new();
        check(
            alloc,
            self.schema,
            reader,
            &mut lately,
            list.first,
            &mut checked,
        )?;
        for piece in list.others.as_slice() {
            check(
                alloc,
                self.schema,
                reader,
                &mut lately,
                *piece,
                &mut checked,
            )?;
        }
        Ok(checked)
    }
}

/// The work of checking lists of pieces by a judge.
#[derive(Clone, Copy)]
struct Checking<'r, J> {
    judge: &'r J,
}

impl<'a, J: ListJudge> Work<PieceList<'a>> for Checking<'_, J> {
    type Out = CheckedList<'a>;

    type Kept = InstanceReader<'a>;

    ghost stated = { λ work list checked. J.states work.judge.now list checked };

    /// That of its first piece.
    fn number(&self, list: &PieceList<'a>) -> u64 {
        list.first.number
    }

    fn begin(&self, alloc: Global) -> InstanceReader<'a> {
        InstanceReader::new(alloc)
    }

    fn read(
        &self,
        alloc: Global,
        kept: &mut InstanceReader<'a>,
        list: PieceList<'a>,
    ) -> Result<CheckedList<'a>, AllocError> {
        self.judge.check_list(alloc, kept, list)
    }
}

/// Puts what a piece is by itself after what is said of others. It is refused for lack of memory alone.
#[inline(always)]
fn check<'a>(
    alloc: Global,
    schema: &Schema,
    kept: &mut InstanceReader<'a>,
    lately: &mut Lately,
    piece: Piece<'a>,
    checked: &mut CheckedList<'a>,
) -> Result<(), AllocError>
    ensures { OnOk result ((ps : List Piece) → AreStated schema.now ps checked.old → AreStated schema.now (ps ++ piece.entry ∷ []) checked.new) }
{
    if let Some(walked) = walk_next(alloc, schema, lately, piece, checked)? {
        return checked.push_walked(schema, piece, walked);
    }
    match kept.read(piece) {
        Ok(instance) => checked.push_instance(schema, instance),
        Err(TreeError::Grammar(fault)) => checked.push(Checked::Grammar(fault)),
        Err(TreeError::Memory) => Err(AllocError),
    }
}

/// Walks over a piece, where no piece before it has a fault by itself. Most pieces are passed so, and no tree is built of them.
#[inline(always)]
fn walk_next(
    alloc: Global,
    schema: &Schema,
    lately: &mut Lately,
    piece: Piece<'_>,
    checked: &CheckedList<'_>,
) -> Result<Option<Walked>, AllocError>
    ensures sound { IfOk result (λ r. IfSome r (λ _. checked.now.rest.items ≡ [])) }
    ensures walked { IfOk result (λ r. IfSome r (λ w. (i : RawInstance) × IsWalked schema.now piece.entry i w)) }
{
    if !checked.rest.is_empty() {
        return Ok(None);
    }
    walk_piece(alloc, schema, lately, piece)
}

/// The run of a crew that checks pieces by a judge, in lists of a quarter of the capacity. An error is lack of memory, or of a thread.
pub(crate) fn check_pieces<'a, J: ListJudge + Sync, G: Gate + Sync, R: Threads + Wait + Sync>(
    rt: &R,
    alloc: Global,
    judge: &J,
    gate: &G,
    pieces: Pieces<'a>,
    gathering: Gathering<'a>,
    lanes: LaneCount,
    capacity: Capacity,
) -> Result<Run<PieceList<'a>, CheckedList<'a>, Gathering<'a>>, AllocError>
    requires { IsGathered gathering [] }
    ensures { IfOk result (λ run. (ls : List PieceList) × (cs : List CheckedList)
        × AreGiven pieces.entry (pieces_in ls) run.tail
        × All (FitsWindow capacity) ls
        × IsRun (J.states judge.now) lanes ls cs run.dealt.items run.receipts.items run.returned.items
        × IsGathered run.gatherer cs) }
{
    // The workers read it for each list, while this thread writes what stands beside it.
    let checking = CachePadded::new(Checking { judge });
    let lists = PieceLists::new(alloc, pieces, most_together(capacity));
    let out = lists_out(capacity);
    run_crew(rt, alloc, &*checking, gate, lists, gathering, lanes, out)
}
