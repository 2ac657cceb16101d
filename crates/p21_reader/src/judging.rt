//! What a worker does with a piece.

ghost use Rattle.std.specs.Prelude.{List, [], IfOk};
ghost use Rattle.p21_tree.specs.declared.pieces.Piece.{Piece};
ghost use Rattle.p21_crew.specs.Run.{IsRun};
ghost use Rattle.p21_reader.specs.Lanes.{IsStated};
ghost use Rattle.p21_reader.specs.Pieces.{AreGiven};
ghost use Rattle.p21_reader.specs.declared.judged.Judgement.{Judgement};

use crate::ahead::Ahead;
use crate::judged::{EntityJudge, Judge, Judged, Judgement};
use crate::pieces::Pieces;
use p21_crew::{Gate, Gathers, Run, Work, run_crew};
use p21_desk::LaneCount;
use p21_lanes::Capacity;
use p21_schema::Schema;
use p21_tree::{InstanceReader, Piece};
use std::alloc::{AllocError, Global};
use std::sync::Wait;
use std::thread::Threads;

/// What a worker keeps from piece to piece.
#[derive(Drop)]
pub(crate) struct Bench<'a> {
    reader: InstanceReader<'a>,
    ahead: Ahead,
}

/// The work of judging pieces and of finding the entity of each instance.
#[derive(Clone, Copy)]
pub(crate) struct Judging<'r, E> {
    pub(crate) judge: &'r E,
    pub(crate) schema: &'r Schema,
}

impl<'a, E: EntityJudge> Work<Piece<'a>> for Judging<'_, E> {
    type Out = Judgement<'a>;

    type Kept = Bench<'a>;

    ghost use Rattle.p21_reader.specs.Lanes.{IsStated};

    ghost stated = { λ work piece judgement. IsStated (E.judges work.judge.now work.schema.now) work.schema.now piece judgement };

    fn number(&self, piece: &Piece<'a>) -> u64 {
        piece.number
    }

    fn begin(&self, alloc: Global) -> Bench<'a> {
        Bench {
            reader: InstanceReader::new(alloc),
            ahead: Ahead::new(),
        }
    }

    fn read(
        &self,
        alloc: Global,
        kept: &mut Bench<'a>,
        piece: Piece<'a>,
    ) -> Result<Judgement<'a>, AllocError> {
        kept.ahead.read(alloc, piece.bytes.len());
        let reader = &mut kept.reader;
        self.judge.judge_entity(self.schema, reader, piece)
    }
}

/// The run of a crew that judges pieces. An error is lack of memory, or of a thread.
pub(crate) fn judge_pieces<
    'a,
    E: EntityJudge + Sync,
    G: Gate + Sync,
    A: Gathers<Judgement<'a>> + Drop,
    R: Threads + Wait + Sync,
>(
    rt: &R,
    alloc: Global,
    judging: &Judging<'_, E>,
    gate: &G,
    pieces: Pieces<'a>,
    gathering: A,
    lanes: LaneCount,
    capacity: Capacity,
) -> Result<Run<Piece<'a>, Judgement<'a>, A>, AllocError>
    requires { A.holds gathering [] }
    ensures { IfOk result (λ run. (ps : List Piece) × (js : List Judgement)
        × AreGiven pieces.entry ps run.tail
        × IsRun (IsStated (E.judges judging.now.judge.now judging.now.schema.now) judging.now.schema.now) lanes ps js run.dealt.items run.receipts.items run.returned.items
        × A.holds run.gatherer js) }
{
    run_crew(rt, alloc, judging, gate, pieces, gathering, lanes, capacity)
}

/// The work of judging pieces, by any judge.
#[derive(Clone, Copy)]
pub(crate) struct Asking<'r, J> {
    pub(crate) judge: &'r J,
}

impl<'a, J: Judge> Work<Piece<'a>> for Asking<'_, J> {
    type Out = Judged<'a>;

    type Kept = InstanceReader<'a>;

    ghost stated = { λ work piece judged. J.judges work.judge.now piece judged };

    fn number(&self, piece: &Piece<'a>) -> u64 {
        piece.number
    }

    fn begin(&self, alloc: Global) -> InstanceReader<'a> {
        InstanceReader::new(alloc)
    }

    fn read(
        &self,
        _alloc: Global,
        kept: &mut InstanceReader<'a>,
        piece: Piece<'a>,
    ) -> Result<Judged<'a>, AllocError> {
        self.judge.judge(kept, piece)
    }
}
