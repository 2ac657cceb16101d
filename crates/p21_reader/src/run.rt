//! Judging the pieces of a file by lanes, and what each lane received and returned.

ghost use Rattle.std.specs.Prelude.{◌≤◌, length, IfOk};
ghost use Rattle.p21_reader.specs.Run.{IsRunBy};

use crate::judged::{Judge, Judged};
use crate::judging::Asking;
use crate::pieces::Pieces;
use p21_crew::{Gate, Gathers, Returned, run_crew};
use p21_desk::LaneCount;
use p21_lanes::{Capacity, Receipt};
use p21_tree::Piece;
use std::alloc::{AllocError, Global};
use std::sync::Wait;
use std::thread::Threads;

/// What judging the pieces of a file by lanes gave.
#[derive(Drop)]
pub struct Run<'a> {
    /// What the pieces were judged to be, in file order.
    pub outs: Vec<Judged<'a>>,
    /// What each lane received, by its number.
    pub receipts: Vec<Receipt<Piece<'a>>>,
    /// What each lane returned, by its number.
    pub returned: Vec<Receipt<Returned<Judged<'a>>>>,
    /// The lane that each piece was dealt to.
    pub dealt: Vec<u32>,
    /// Where the tail begins, in bytes from the file's first byte.
    pub tail: u64,
}

/// What pieces were judged to be, in their order.
#[derive(Drop)]
struct InOrder<'a> {
    outs: Vec<Judged<'a>>,
}

impl<'a> Gathers<Judged<'a>> for InOrder<'a> {
    ghost use Rattle.std.specs.Prelude.{◌≡◌};

    ghost holds = { λ gathered outs. gathered.outs.items ≡ outs };

    fn gather(&mut self, out: Judged<'a>) -> Result<(), AllocError> {
        self.outs.push(out)?;
        Ok(())
    }
}

/// Judges the pieces of a file from a place on, which is at most its length, by so many lanes.
///
/// Each piece is dealt to one lane, and judged there by a worker in a thread of its own, once the gate lets it in, while on no
/// lane more pieces are out than the capacity. All pieces are dealt, whatever they are judged to be. An error is lack of memory,
/// or of a thread.
pub fn run_lanes<'a, J: Judge + Sync, G: Gate + Sync, R: Threads + Wait + Sync>(
    rt: &R,
    alloc: Global,
    judge: &J,
    gate: &G,
    file: &'a [u8],
    at: usize,
    lanes: LaneCount,
    capacity: Capacity,
) -> Result<Run<'a>, AllocError>
    requires { at ≤ length file.now }
    // Each piece from the place on was dealt to exactly one lane; each lane received exactly its share, once, in file
    // order, then its end, and returned its share of the results; these are what the judge may say of the pieces, one
    // by one. The tail begins after the pieces.
    ensures { IfOk result (IsRunBy (J.judges judge.now) file.now at lanes) }
{
    let pieces = Pieces::new(file, at);
    let work = Asking { judge };
    let in_order = InOrder {
        outs: Vec::new(alloc),
    };
    let run = run_crew(rt, alloc, &work, gate, pieces, in_order, lanes, capacity)?;
    Ok(Run {
        outs: run.gatherer.outs,
        receipts: run.receipts,
        returned: run.returned,
        dealt: run.dealt,
        tail: run.tail,
    })
}
