//! A string: from its apostrophe to the one that closes it.

ghost use Rattle.std.specs.Prelude.{◌∷◌, ◌<◌, length, IfSome, MatchOption};
ghost use Rattle.p21_text.specs.Closing.{Closes, NeverCloses};
ghost use Rattle.p21_text.specs.Spelling.{symbol};
ghost use Rattle.p21_text.specs.Tokens.{Front};

use crate::shape::{byte_at, item_len};
use crate::token::Token;

/// The token whose first byte is an apostrophe, which `tail` follows, and its length.
pub(crate) fn string(tail: &[u8]) -> (Token<'_>, usize)
    ensures { Front (39 ∷ tail.entry.now) result.1 (symbol result.0) }
{
    match body_len(tail) {
        Some(len) => (Token::Str(&tail[..len]), len + 2),
        None => (Token::Bad, 0),
    }
}

/// The number of bytes before the apostrophe that closes a string.
fn body_len(tail: &[u8]) -> Option<usize>
    ensures found { MatchOption result (NeverCloses tail.now) (Closes tail.now) }
    ensures within { IfSome result (λ n. n < length tail.now) }
{
    let mut at = 0;
    loop {
        let rest = &tail[at..];
        let len = item_len(rest);
        if len == 0 {
            return if byte_at(rest, 0) == b'\'' {
                Some(at)
            } else {
                None
            };
        }
        at += len;
    }
}
