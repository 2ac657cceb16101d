//! The pieces of a file, one after the other, for a crew.

ghost use Rattle.std.specs.Prelude.{◌≤◌, ℕ, List, length, map};
ghost use Rattle.p21_tree.specs.declared.pieces.Piece.{Piece};
ghost use Rattle.p21_cut.specs.Cutter.{plain_piece};
ghost use Rattle.p21_cut.specs.Pieces.{PiecesAre};
ghost use Rattle.p21_reader.specs.Pieces.{AreGiven};

use p21_crew::{Cuts, Next};
use p21_cut::{Cut, Cutter};
use p21_tree::Piece;

/// The pieces of a file from a place on, as `run_crew` deals them: any reader of pieces reads a file by lanes so.
#[derive(Clone, Copy)]
pub struct Pieces<'a> {
    cutter: Cutter<'a>,
}

impl<'a> Pieces<'a> {
    /// The pieces of a file from a place on, which is at most its length, numbered from 0.
    pub fn new(file: &'a [u8], at: usize) -> Pieces<'a>
        requires { at ≤ length file.now }
        // What is given from then on are the pieces of the file from the place on.
        ensures of_file { (ps : List Piece) (tail : ℕ) → AreGiven result ps tail → PiecesAre file.now at 0 (map plain_piece ps) tail }
        // The tail begins in the file.
        ensures within { (ps : List Piece) (tail : ℕ) → AreGiven result ps tail → tail ≤ length file.now }
    {
        Pieces {
            cutter: Cutter::new(file, at),
        }
    }
}

impl<'a> Cuts for Pieces<'a> {
    type Piece = Piece<'a>;

    ghost use Rattle.p21_cut.specs.Cutter.{bytes_left};

    ghost cuts = { AreGiven };

    ghost left = { λ pieces. bytes_left pieces.cutter };

    fn next(&mut self) -> Next<Piece<'a>> {
        match self.cutter.next() {
            Cut::Piece(piece) => Next::Piece(piece),
            Cut::Tail(at) => Next::Tail(at),
        }
    }
}
