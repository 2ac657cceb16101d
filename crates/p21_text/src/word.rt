//! Names and what is made of them: keywords, user-defined keywords and enumerations.

ghost use Rattle.std.specs.Prelude.{◌≡◌, ◌∷◌, MatchOption};
ghost use Rattle.p21_text.specs.Spelling.{IsUpper, symbol};
ghost use Rattle.p21_text.specs.Tokens.{Front};
ghost use Rattle.p21_text.specs.Runs.{FirstIs, IsNameByte, IsRun};

use crate::bytes::{is_upper, name_run};
use crate::token::Token;

/// The keyword that a text begins with, or the word of the file's first or last line.
#[inline]
pub(crate) fn word(text: &[u8]) -> (Token<'_>, usize)
    requires { FirstIs IsUpper text.now }
    ensures { Front text.now result.1 (symbol result.0) }
{
    let len = name_run(text);
    if len < text.len() && text[len] == b'-' {
        if text.starts_with(b"ISO-10303-21") {
            return (Token::Iso, 12);
        }
        if text.starts_with(b"END-ISO-10303-21") {
            return (Token::EndIso, 16);
        }
    }
    (Token::Keyword(&text[..len]), len)
}

/// The user-defined keyword that a text begins with, which is a `!` and then `tail`.
pub(crate) fn user_keyword<'a>(text: &'a [u8], tail: &[u8]) -> (Token<'a>, usize)
    requires { text.now ≡ 33 ∷ tail.now }
    ensures { Front text.now result.1 (symbol result.0) }
{
    match name_len(tail) {
        Some(name) => (Token::UserKeyword(&text[..1 + name]), 1 + name),
        None => (Token::Bad, 0),
    }
}

/// The enumeration that begins with a `.` and goes on with `tail`.
#[inline]
pub(crate) fn enumeration(tail: &[u8]) -> (Token<'_>, usize)
    ensures { Front (46 ∷ tail.now) result.1 (symbol result.0) }
{
    let Some(name) = name_len(tail) else {
        return (Token::Bad, 0);
    };
    if name < tail.len() && tail[name] == b'.' {
        (Token::Enumeration(&tail[..name]), 1 + name + 1)
    } else {
        (Token::Bad, 0)
    }
}

/// The length of the name that a text begins with.
#[inline]
fn name_len(text: &[u8]) -> Option<usize>
    ensures { MatchOption result (FirstIs IsUpper text.now → ⊥) (λ n. FirstIs IsUpper text.now × IsRun IsNameByte text.now n) }
{
    let first = text.first()?;
    if is_upper(*first) {
        Some(name_run(text))
    } else {
        None
    }
}
