//! Integers and reals.

ghost use Rattle.std.specs.Prelude.{ℕ, ◌<◌, ◌∷◌, ◌≤◌, MatchOption, IsTrue, ◌↔◌, ◌≡◌, ◌⊎◌};
ghost use Rattle.p21_text.specs.Spelling.{IsDigit, IsInt, IsExponent, symbol};
ghost use Rattle.p21_text.specs.Tokens.{Front};
ghost use Rattle.p21_text.specs.Runs.{IsRun, IsNumberByte, FirstIs};
ghost use Rattle.p21_text.specs.Fronts.{IntIs, IsFraction, LongestOf, NoFrontIs};

use crate::bytes::digit_run;
use crate::token::Token;

/// The integer or real that a text begins with.
#[inline(always)]
pub(crate) fn number(text: &[u8]) -> (Token<'_>, usize)
    requires { FirstIs IsNumberByte text.now }
    ensures { Front text.now result.1 (symbol result.0) }
{
    let Some(whole) = int_len(text) else {
        return (Token::Bad, 0);
    };
    if whole < text.len() && text[whole] == b'.' {
        let len = whole + 1 + fraction_len(&text[whole + 1..]);
        (Token::Real(&text[..len]), len)
    } else {
        (Token::Int(&text[..whole]), whole)
    }
}

/// The length of the integer that a text begins with: a sign or none, and all the digits after it.
#[inline]
fn int_len(text: &[u8]) -> Option<usize>
    ensures { MatchOption result (NoFrontIs IsInt text.now) (λ n. IntIs text.now n) }
{
    let (first, tail) = text.split_first()?;
    if is_sign(*first) {
        let digits = digits_len(tail)?;
        Some(1 + digits)
    } else {
        digits_len(text)
    }
}

#[inline]
fn is_sign(byte: u8) -> bool
    ensures { IsTrue result ↔ ((byte ≡ 43) ⊎ (byte ≡ 45)) }
{
    matches!(byte, b'+' | b'-')
}

/// How many digits a text begins with, if any.
#[inline]
fn digits_len(text: &[u8]) -> Option<usize>
    ensures { MatchOption result (FirstIs IsDigit text.now → ⊥) (λ n. (0 < n) × IsRun IsDigit text.now n) }
{
    let digits = digit_run(text);
    if digits == 0 { None } else { Some(digits) }
}

/// The length of what may stand after a real's point: digits, and an exponent where one follows.
#[inline]
fn fraction_len(text: &[u8]) -> usize
    ensures { LongestOf IsFraction text.now result }
{
    let digits = digit_run(text);
    digits + exponent_len(&text[digits..])
}

/// The length of the exponent that a text begins with, 0 where none does.
#[inline]
fn exponent_len(text: &[u8]) -> usize
    ensures { LongestOf IsExponent text.now result }
{
    let Some((first, tail)) = text.split_first() else {
        return 0;
    };
    if *first != b'E' {
        return 0;
    }
    match int_len(tail) {
        Some(digits) => 1 + digits,
        None => 0,
    }
}
