//! What stands between tokens.

ghost use Rattle.std.specs.Prelude.{ℕ, ◌∷◌, ◌↔◌, IsTrue, MatchOption};
ghost use Rattle.p21_text.specs.Separators.{IsWhite};
ghost use Rattle.p21_text.specs.Tokens.{Passes};
ghost use Rattle.p21_text.specs.Gaps.{HasNoUnit, UnitIs};

use memchr::memmem;

/// How many bytes of white bytes and comments a text begins with, as many as there are. A comment that is not closed is none.
///
/// Cost: O(n) for n bytes of separators.
#[inline]
pub fn separators_len(text: &[u8]) -> usize
    ensures { Passes text.now result }
{
    let mut at = 0;
    while let Some(len) = unit(&text[at..]) {
        at += len;
    }
    at
}

/// The length of the one white byte or comment that a text begins with.
#[inline]
fn unit(text: &[u8]) -> Option<usize>
    ensures { MatchOption result (HasNoUnit text.now) (λ n. UnitIs text.now n) }
{
    let (first, tail) = text.split_first()?;
    if is_white(*first) {
        return Some(1);
    }
    if *first == b'/' { comment(tail) } else { None }
}

#[inline]
fn is_white(byte: u8) -> bool
    ensures { IsTrue result ↔ IsWhite byte }
{
    matches!(byte, 9..=13 | b' ')
}

/// The length of the comment that begins with a `/` and goes on with `tail`; one that never ends is none.
#[cold]
#[inline(never)]
fn comment(tail: &[u8]) -> Option<usize>
    ensures { MatchOption result (HasNoUnit (47 ∷ tail.now)) (λ n. UnitIs (47 ∷ tail.now) n) }
{
    let (second, body) = tail.split_first()?;
    if *second != b'*' {
        return None;
    }
    let end = memmem::find(body, b"*/")?;
    Some(2 + end + 2)
}
