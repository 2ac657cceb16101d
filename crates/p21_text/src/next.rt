//! The first token from a place on.

ghost use Rattle.std.specs.Prelude.{◌<◌, ◌≤◌, length};
ghost use Rattle.p21_text.specs.Spelling.{symbol};
ghost use Rattle.p21_text.specs.Contents.{IsContent};
ghost use Rattle.p21_text.specs.Tokens.{First, IsLast, placed};

use crate::front::{front, single_byte_token};
use crate::separators::separators_len;
use crate::token::Lexed;

/// The first token of a text from a place on, with where it starts and ends.
///
/// White bytes and comments are passed first. Where several spellings begin there, the longest is the token. At the
/// end of the text it is `End`; where none begins it is `Bad`, and stands at the first byte that is no separator.
/// Places are bytes from the text's first byte; `at` is at most the text's length.
#[inline(always)]
pub fn next_token(text: &[u8], at: usize) -> Lexed<'_>
    requires { at ≤ length text.now }
    // The first token of the text from the place on: the longest separators are skipped, then comes the longest
    // prefix that spells a token. Its start and end.
    ensures first { First text.now at (placed result) }

    // It starts at the place or after it.
    ensures behind { at ≤ result.start }
    // It does not end before its start.
    ensures ordered { result.start ≤ result.after }
    // It ends in the text.
    ensures within { result.after ≤ length text.now }
    // Each token but End and Bad ends after the place.
    ensures advances { ¬ (IsLast (symbol result.token)) → result.start < result.after }
    // Its text is of its kind: that of a string is the body of one.
    ensures content { IsContent (symbol result.token) }
{
    let rest = &text[at..];
    // Most tokens are of one byte, and stand right there. The others are taken apart, so that these stay in registers.
    match single_byte_token(rest) {
        Some((token, len)) => Lexed {
            start: at,
            after: at + len,
            token,
        },
        None => {
            let Lexed {
                start,
                after,
                token,
            } = behind_separators(text, at);
            Lexed {
                start,
                after,
                token,
            }
        }
    }
}

/// The same, where separators may come first.
#[inline(never)]
fn behind_separators(text: &[u8], at: usize) -> Lexed<'_>
    requires { at ≤ length text.now }
    ensures first { First text.now at (placed result) }
    ensures behind { at ≤ result.start }
    ensures ordered { result.start ≤ result.after }
    ensures within { result.after ≤ length text.now }
    ensures advances { ¬ (IsLast (symbol result.token)) → result.start < result.after }
    ensures content { IsContent (symbol result.token) }
{
    let rest = &text[at..];
    let gap = separators_len(rest);
    let start = at + gap;
    let (token, len) = front(&rest[gap..]);
    Lexed {
        start,
        after: start + len,
        token,
    }
}
