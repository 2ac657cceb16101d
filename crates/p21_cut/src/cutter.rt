//! The pieces of a data section, one after the other.

ghost use Rattle.std.specs.Prelude.{◌≡◌, ◌≤◌, length};

use crate::parts::piece_end;
use p21_text::separators_len;
use p21_tree::Piece;

/// A file's data section on its way into pieces.
#[derive(Clone, Copy, Debug)]
pub struct Cutter<'a> {
    file: &'a [u8],
    /// Where cutting goes on.
    at: usize,
    /// How many pieces were given.
    number: u64,
    ghost within: { at ≤ length file.now },
    ghost few: { number ≤ at },
}

/// What comes next in a data section.
#[derive(Clone, Copy, Debug)]
pub enum Cut<'a> {
    /// A piece: from a `#` up to and including the first `;` outside strings and comments; or up to the file's end where there is
    /// none, or where an apostrophe that begins no string, or a `/*` that no `*/` follows, stands before it.
    Piece(Piece<'a>),
    /// No further piece: the place of the tail, in bytes from the file's first byte.
    Tail(u64),
}

impl<'a> Cutter<'a> {
    ghost use Rattle.p21_cut.specs.Cutter.{GivesNext, LeavesLess, file_of, number_of, place_of};

    /// Cuts a file from a place on, which is at most its length. The pieces are numbered from 0.
    pub fn new(file: &'a [u8], at: usize) -> Cutter<'a>
        requires { at ≤ length file.now }
        ensures file { file_of result ≡ file.now }
        ensures place { place_of result ≡ at }
        ensures number { number_of result ≡ 0 }
    {
        Cutter {
            file,
            at,
            number: 0,
        }
    }

    /// The next piece, or the tail where no `#` stands after the separators. After a tail it is the same tail again.
    ///
    /// A piece runs to the end of the file where, before its `;`, an apostrophe begins no string, a `/*` begins no
    /// comment, or the file ends.
    #[inline(always)]
    pub fn next(&mut self) -> Cut<'a>
        // The next piece of the file from the place on, or the tail; after the tail, the same tail again.
        ensures next { GivesNext self.old result self.new }
        // With each piece fewer bytes are left.
        ensures ends { LeavesLess self.old result self.new }
        // The file stays the same.
        ensures file { file_of self.new ≡ file_of self.old }
    {
        let start = self.at + separators_len(&self.file[self.at..]);
        if start >= self.file.len() || self.file[start] != b'#' {
            return Cut::Tail(start as u64);
        }
        let end = piece_end(self.file, start);
        let piece = Piece {
            number: self.number,
            at: start as u64,
            bytes: &self.file[start..end],
        };
        self.at = end;
        self.number += 1;
        Cut::Piece(piece)
    }
}
