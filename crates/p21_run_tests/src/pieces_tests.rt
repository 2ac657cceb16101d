//! A reader of its own over the pieces of a file, which is no judge: it tells how long each is.

ghost use Rattle.std.specs.Prelude.{◌≡◌, ◌≤◌, ℕ, List, IfOk, length, map};
ghost use Rattle.std.specs.List.{AllZip};
ghost use Rattle.p21_tree.specs.declared.pieces.Piece.{Piece};
ghost use Rattle.p21_cut.specs.Pieces.{PiecesAre};
ghost use Rattle.p21_cut.specs.Cutter.{plain_piece};

use crate::files::{PREFACE, TAIL, TWO, file};
use p21_crew::{Gathers, OpenGate, Work, run_crew};
use p21_desk::LaneCount;
use p21_lanes::Capacity;
use p21_reader::Pieces;
use p21_tree::Piece;
use std::alloc::{AllocError, Global};
use std::sync::Wait;
use std::test::Fail;
use std::thread::Threads;

/// Tells how long a piece is.
struct Measure;

impl<'a> Work<Piece<'a>> for Measure {
    type Out = usize;

    type Kept = ();

    ghost use Rattle.std.specs.Prelude.{◌≡◌, length};

    ghost stated = { λ measure piece len. len ≡ length piece.bytes.now };

    fn number(&self, piece: &Piece<'a>) -> u64 {
        piece.number
    }

    fn begin(&self, _alloc: Global) {}

    fn read(&self, _alloc: Global, _kept: &mut (), piece: Piece<'a>) -> Result<usize, AllocError> {
        Ok(piece.bytes.len())
    }
}

/// How long pieces are, in their order.
#[derive(Drop)]
struct Lengths {
    all: Vec<usize>,
}

impl Gathers<usize> for Lengths {
    ghost use Rattle.std.specs.Prelude.{◌≡◌};

    ghost holds = { λ lengths outs. lengths.all.items ≡ outs };

    fn gather(&mut self, out: usize) -> Result<(), AllocError> {
        self.all.push(out)?;
        Ok(())
    }
}

/// How long the pieces of a file from a place on are, measured by lanes.
fn measured<R: Threads + Wait + Sync>(
    rt: &R,
    alloc: Global,
    file: &[u8],
    at: usize,
    lanes: LaneCount,
    capacity: Capacity,
) -> Result<Vec<usize>, AllocError>
    requires { at ≤ length file.now }
    ensures { IfOk result (λ found. (ps : List Piece) × (tail : ℕ) × PiecesAre file.now at 0 (map plain_piece ps) tail × AllZip (λ p len. len ≡ length p.bytes.now) ps found.items) }
{
    let pieces = Pieces::new(file, at);
    let none = Lengths {
        all: Vec::new(alloc),
    };
    let run = run_crew(
        rt, alloc, &Measure, &OpenGate, pieces, none, lanes, capacity,
    )?;
    Ok(run.gatherer.all)
}

#[test]
fn reader_of_its_own(rt: HostRuntime) -> Result<(), Fail> {
    let alloc = rt.alloc();
    let file = file(alloc, TWO, TAIL)?;
    let at = PREFACE.len();
    if file.len() < at {
        return Err("a file with a preface")?;
    }
    let capacity = Capacity::new(1).ok_or("a capacity of 1 to 4096")?;
    for lanes in [1, 2] {
        let lanes = LaneCount::new(lanes).ok_or("1 to 64 lanes")?;
        let found = measured(&rt, alloc, &file, at, lanes, capacity)?;
        assert_eq!(rt; found.as_slice(), [13, 13].as_slice());
    }
    Ok(())
}
