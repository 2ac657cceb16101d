//! Laws of the definitions: what each function ensures holds of every file. A caller calls one to learn its law.

ghost use Rattle.std.specs.Prelude.{◌≤◌, ℕ, List, length};
ghost use Rattle.p21_cut.specs.Laws.{HasOneCutting, HasOneCuttingAtMost, HasOneNextAtMost};
ghost use Rattle.p21_cut.specs.Tokens.{FileTokensAreOfPiece, FileTokensAreOfTail, PartsHoldTokens, PieceBeginsWithName, PieceTokensAreOfFile, PiecesHoldTokens, TailTokensAreOfFile};

use crate::cutter::{Cut, Cutter};
use p21_text::{one_string, tokens_are_unique};

/// From each place of a file on there is exactly one list of pieces, and one tail.
pub fn one_cutting(file: &[u8], at: usize)
    requires { at ≤ length file.now }
    ensures { HasOneCutting file.now at }
{
    one_string();
    // The pieces that exist are the ones that are cut.
    let mut cutter = Cutter::new(file, at);
    loop {
        if let Cut::Tail(_) = cutter.next() {
            return;
        }
    }
}

/// From each place of a file on there is at most one list of pieces, and one tail; and one piece at most comes next, and none where the
/// tail begins.
pub fn pieces_are_unique()
    // From each place there is at most one list of pieces, and one tail.
    ensures all { (file : List ℕ) → (at : ℕ) → HasOneCuttingAtMost file at }
    // At most one piece comes next, and none where the tail begins.
    ensures next { (file : List ℕ) → (at : ℕ) → HasOneNextAtMost file at }
{
    one_string();
}

/// The tokens of a file from a place on are those of its pieces in turn and of its tail, up to the first place where no
/// token begins; and all its tokens are those before a place, such as those of its preface, and these after them.
pub fn pieces_hold_tokens()
    // Up to its first Bad, the tokens of a file from a place on are those of its pieces in turn, without their Ends,
    // and of its tail.
    ensures from_a_place { (file : List ℕ) → (at : ℕ) → PiecesHoldTokens file at }
    // All its tokens are those before a place, such as those of its preface, and these.
    ensures of_file { (file : List ℕ) → PartsHoldTokens file }
{
    one_string();
    tokens_are_unique();
}

/// First tokens of a piece or of the tail are tokens of the file, whatever stands after them.
///
/// Of a piece, but for the End after its semicolon, and of the tail.
pub fn first_tokens_of_file()
    ensures of_pieces { PieceTokensAreOfFile }
    ensures of_tails { TailTokensAreOfFile }
{
    one_string();
}

/// Tokens of a file up to a semicolon are those of the piece that comes next, whose first token is a name unless none begins
/// there; where no piece comes next, the tokens are those of the tail.
pub fn tokens_of_next_piece()
    // Tokens of a file up to a semicolon are those of the piece that comes next, without its End.
    ensures whole { FileTokensAreOfPiece }
    // The first token of that piece is a name, unless no token begins there.
    ensures first { PieceBeginsWithName }
    // Where no piece comes next, the tokens are those of the tail.
    ensures of_tail { FileTokensAreOfTail }
{
    one_string();
}
