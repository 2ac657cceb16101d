//! Lists of pieces, as a check deals them to its lanes.

ghost use Rattle.std.specs.Prelude.{◌≡◌, ◌<◌, ◌≤◌, ◌+◌, ◌*◌, ◌++◌, ℕ, List, [], length, vec_capacity};
ghost use Rattle.p21_tree.specs.declared.pieces.Piece.{Piece};
ghost use Rattle.p21_cut.specs.Cutter.{bytes_left};
ghost use Rattle.p21_reader.specs.Pieces.{AreGiven};
ghost use Rattle.p21_checker.specs.Lists.{lists_out};

use p21_crew::{Cuts, Next};
use p21_lanes::Capacity;
use p21_reader::Pieces;
use p21_tree::Piece;
use std::alloc::Global;

/// Pieces that stand one after the other in a file, at least one.
#[derive(Debug, Drop)]
pub struct PieceList<'a> {
    /// The first of them.
    pub first: Piece<'a>,
    /// Those after the first.
    pub others: Vec<Piece<'a>>,
}

/// The pieces of a file, a list after the other.
#[derive(Drop)]
pub(crate) struct PieceLists<'a> {
    alloc: Global,
    pub(crate) pieces: Pieces<'a>,
    /// How many pieces a list has at most after its first.
    most_others: usize,
}

impl<'a> PieceLists<'a> {
    /// The pieces in lists of so many. A list is shorter where the tail comes, or where memory is refused.
    pub(crate) fn new(alloc: Global, pieces: Pieces<'a>, most: u32) -> PieceLists<'a>
        requires { 0 < most }
        ensures pieces { result.pieces ≡ pieces.entry }
        ensures most { result.most_others + 1 ≡ most }
    {
        PieceLists {
            alloc,
            pieces,
            most_others: (most as usize).saturating_sub(1),
        }
    }

    /// The pieces after the first of a list.
    fn others(&mut self) -> Vec<Piece<'a>>
        ensures given { (ps : List Piece) (tail : ℕ) → AreGiven self.new.pieces ps tail → AreGiven self.old.pieces (result.items ++ ps) tail }
        ensures left { bytes_left self.new.pieces.cutter ≤ bytes_left self.old.pieces.cutter }
        ensures most { length result.items ≤ self.old.most_others }
        ensures same { self.new.most_others ≡ self.old.most_others }
    {
        let mut others = Vec::new(self.alloc);
        if others.reserve(self.most_others).is_ok() {
            self.fill(&mut others);
        }
        others
    }

    /// Puts pieces into an empty list in which there is room.
    fn fill(&mut self, others: &mut Vec<Piece<'a>>)
        requires empty { others.old.items ≡ [] }
        requires room { self.old.most_others ≤ vec_capacity others.old }
        ensures given { (ps : List Piece) (tail : ℕ) → AreGiven self.new.pieces ps tail → AreGiven self.old.pieces (others.new.items ++ ps) tail }
        ensures left { bytes_left self.new.pieces.cutter ≤ bytes_left self.old.pieces.cutter }
        ensures most { length others.new.items ≤ self.old.most_others }
        ensures same { self.new.most_others ≡ self.old.most_others }
    {
        while others.len() < self.most_others {
            let before = self.pieces;
            let Next::Piece(piece) = self.pieces.next() else {
                self.pieces = before;
                return;
            };
            others.push_reserved(piece);
        }
    }
}

impl<'a> Cuts for PieceLists<'a> {
    ghost use Rattle.p21_checker.specs.Lists.{ListsAreGiven};

    type Piece = PieceList<'a>;

    ghost cuts = { ListsAreGiven };

    ghost left = { λ lists. bytes_left lists.pieces.cutter };

    fn next(&mut self) -> Next<PieceList<'a>> {
        match self.pieces.next() {
            Next::Piece(first) => {
                let others = self.others();
                Next::Piece(PieceList { first, others })
            }
            Next::Tail(at) => Next::Tail(at),
        }
    }
}

/// How many pieces a list has at most: a quarter of the capacity, so that the lists that are out on a lane have no more than that.
pub(crate) fn most_together(capacity: Capacity) -> u32
    ensures some { 0 < result }
    ensures window { lists_out capacity * result ≤ capacity }
{
    (capacity.get() / 4).max(1)
}

/// How many lists may be out on a lane: two that its worker has to read, and as many that were read and not yet gathered.
pub(crate) fn lists_out(capacity: Capacity) -> Capacity
    ensures { result ≡ lists_out capacity }
{
    match Capacity::new(capacity.get().min(4)) {
        Some(lists) => lists,
        None => capacity,
    }
}
