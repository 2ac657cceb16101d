//! The token that a text begins with: its kind by its first byte.

ghost use Rattle.std.specs.Prelude.{IfSome};
ghost use Rattle.p21_text.specs.Spelling.{symbol};
ghost use Rattle.p21_text.specs.Tokens.{Front, Passes};

use crate::binary::binary;
use crate::instance_name::name;
use crate::number::number;
use crate::string::string;
use crate::token::Token;
use crate::word::{enumeration, user_keyword, word};

/// The end of a text, or the token of one byte that it begins with, and how many bytes that takes. It is `None` of any other
/// text: this is a short way, and `front` knows these tokens too.
#[inline(always)]
pub(crate) fn single_byte_token(text: &[u8]) -> Option<(Token<'_>, usize)>
    ensures { IfSome result (λ r. Passes text.now 0 × Front text.now r.1 (symbol r.0)) }
{
    let Some((first, _tail)) = text.split_first() else {
        return Some((Token::End, 0));
    };
    match *first {
        b',' => Some((Token::Comma, 1)),
        b'(' => Some((Token::LParen, 1)),
        b')' => Some((Token::RParen, 1)),
        b';' => Some((Token::Semi, 1)),
        b'=' => Some((Token::Equals, 1)),
        b'$' => Some((Token::Dollar, 1)),
        b'*' => Some((Token::Star, 1)),
        _ => None,
    }
}

/// The token that a text begins with, with no separators before it, and how many bytes it takes.
#[inline]
pub(crate) fn front(text: &[u8]) -> (Token<'_>, usize)
    ensures { Front text.now result.1 (symbol result.0) }
{
    let Some((first, tail)) = text.split_first() else {
        return (Token::End, 0);
    };
    match *first {
        b',' => (Token::Comma, 1),
        b'(' => (Token::LParen, 1),
        b')' => (Token::RParen, 1),
        b'#' => name(tail),
        b'0'..=b'9' | b'+' | b'-' => number(text),
        b'\'' => string(tail),
        b'$' => (Token::Dollar, 1),
        b';' => (Token::Semi, 1),
        b'=' => (Token::Equals, 1),
        b'.' => enumeration(tail),
        b'A'..=b'Z' | b'_' => word(text),
        b'*' => (Token::Star, 1),
        b'"' => binary(tail),
        b'!' => user_keyword(text, tail),
        _ => (Token::Bad, 0),
    }
}
