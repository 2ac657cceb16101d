//! Binaries.

ghost use Rattle.std.specs.Prelude.{◌≡◌, ◌∷◌, ◌↔◌, IsTrue};
ghost use Rattle.std.specs.List.{AllByRecursion};
ghost use Rattle.p21_text.specs.Spelling.{IsBinary, IsBinaryBody, bits_of, symbol};
ghost use Rattle.p21_text.specs.Tokens.{Front};
ghost use Rattle.p21_text.specs.Runs.{IsHexByte};

use crate::bytes::hex_run;
use crate::token::Token;

/// How many bits a binary has, by its digits, those between the quotes.
///
/// The first digit says how many bits of the next one are padding.
pub fn binary_bits(raw: &[u8]) -> u128
    requires { IsBinaryBody raw.now }
    ensures { result ≡ bits_of raw.now }
{
    4 * (raw.len() as u128 - 1) - u128::from(raw[0] - b'0')
}

/// The binary that begins with a `"` and goes on with `tail`.
pub(crate) fn binary(tail: &[u8]) -> (Token<'_>, usize)
    ensures { Front (34 ∷ tail.now) result.1 (symbol result.0) }
{
    let digits = hex_run(tail);
    if digits < tail.len() && tail[digits] == b'"' && is_binary(&tail[..digits]) {
        (Token::Binary(&tail[..digits]), 1 + digits + 1)
    } else {
        (Token::Bad, 0)
    }
}

/// Whether digits to the base 16 are a binary's.
fn is_binary(digits: &[u8]) -> bool
    requires { AllByRecursion IsHexByte digits.now }
    ensures { IsTrue result ↔ IsBinary digits.now }
{
    match digits {
        [] => false,
        [first] => *first == b'0',
        [first, ..] => *first <= b'3',
    }
}
