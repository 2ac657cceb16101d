//! Instance names.

ghost use Rattle.std.specs.Prelude.{◌<◌, ◌∷◌, ◌+◌, ◌-◌, ◌*◌, ◌^◌};
ghost use Rattle.std.specs.Option.{SomeIff};
ghost use Rattle.p21_text.specs.Spelling.{IsDigit, symbol};
ghost use Rattle.p21_text.specs.Tokens.{Front};

use crate::bytes::is_digit;
use crate::token::Token;

/// The instance name that begins with a `#` and goes on with `tail`.
#[inline]
pub(crate) fn name<'a>(tail: &[u8]) -> (Token<'a>, usize)
    ensures { Front (35 ∷ tail.now) result.1 (symbol result.0) }
{
    let mut number = 0;
    for (i, byte) in tail.iter().enumerate() {
        if !is_digit(*byte) {
            return if i == 0 {
                (Token::Bad, 0)
            } else {
                (Token::Name(number), 1 + i)
            };
        }
        match with_digit(number, *byte) {
            Some(longer) => number = longer,
            None => return (Token::Bad, 0),
        }
    }
    if tail.is_empty() {
        (Token::Bad, 0)
    } else {
        (Token::Name(number), 1 + tail.len())
    }
}

/// A number with one more digit after it.
#[inline]
fn with_digit(number: u64, digit: u8) -> Option<u64>
    requires { IsDigit digit }
    ensures { SomeIff result (10 * number + (digit - 48) < 2 ^ 64) (10 * number + (digit - 48)) }
{
    number.checked_mul(10)?.checked_add(u64::from(digit - b'0'))
}
