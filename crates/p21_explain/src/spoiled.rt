//! What spoils a string.

ghost use Rattle.std.specs.Prelude.{◌<◌};

use p21_printed::{Front, Said};
use std::alloc::AllocError;

/// What keeps a quote from being the first of a string.
#[derive(Clone, Copy)]
pub(crate) struct Spoiler<'a> {
    /// Where it stands.
    pub(crate) at: usize,
    /// What begins there.
    rest: &'a [u8],
}

/// The first piece after the quote at a place that no string may have; none where a quote closes the string before, or the text ends.
pub(crate) fn spoiler_of(file: &[u8], quote: usize) -> Option<Spoiler<'_>> {
    let mut at = quote.saturating_add(1);
    for _ in quote..file.len() {
        let rest = file.get(at..)?;
        match piece_len(rest) {
            Some(len) => at = at.saturating_add(len),
            None => return spoiler_at(rest, at),
        }
    }
    None
}

/// What begins a text with no piece of a string, if it is no quote that closes one.
fn spoiler_at(rest: &[u8], at: usize) -> Option<Spoiler<'_>> {
    match rest {
        [] | [b'\'', ..] => None,
        _ => Some(Spoiler { at, rest }),
    }
}

/// How long the piece of a string is with which a text begins; none where it begins with none.
fn piece_len(rest: &[u8]) -> Option<usize> {
    match rest {
        [b'\\', directive @ ..] => Some(directive_len(directive)?.saturating_add(1)),
        [b'\'', b'\'', ..] => Some(2),
        [b'\'', ..] => None,
        [9 | 10 | 13 | 32..=126 | 128..=255, ..] => Some(1),
        _ => None,
    }
}

/// How long the directive is that begins after a reverse solidus.
fn directive_len(rest: &[u8]) -> Option<usize> {
    match rest {
        [b'\\', ..] => Some(1),
        [b'P', b'A'..=b'I', b'\\', ..] => Some(3),
        [b'S', b'\\', 32..=126, ..] => Some(3),
        [b'X', b'\\', high, low, ..] if high.is_ascii_hexdigit() && low.is_ascii_hexdigit() => {
            Some(4)
        }
        [b'X', b'2', b'\\', digits @ ..] => groups_len(digits, 4),
        [b'X', b'4', b'\\', digits @ ..] => groups_len(digits, 8),
        _ => None,
    }
}

/// How long `X2\` or `X4\` is with what follows: groups of so many digits, and `\X0\`.
fn groups_len(digits: &[u8], size: usize) -> Option<usize>
    requires { 0 < size }
{
    let count = digits
        .iter()
        .take_while(|it| it.is_ascii_hexdigit())
        .count();
    let is_closed = digits.get(count..)?.starts_with(b"\\X0\\");
    if is_closed && count > 0 && count % size == 0 {
        Some(count.saturating_add(7))
    } else {
        None
    }
}

/// Adds what spoils a string, and what to write in its place.
pub(crate) fn say_spoiler(said: &mut Said, spoiler: Spoiler<'_>) -> Result<(), AllocError> {
    match spoiler.rest {
        [b'\\', b'X', size @ (b'2' | b'4'), b'\\', ..] => {
            say_written(said, spoiler.rest.get(..4))?;
            said.say(if *size == b'2' {
                " must be followed by groups of 4 hexadecimal digits and `\\X0\\`, as in `\\X2\\00E4\\X0\\`."
            } else {
                " must be followed by groups of 8 hexadecimal digits and `\\X0\\`, as in `\\X4\\0001F600\\X0\\`."
            })
        }
        [b'\\', b'X', b'\\', ..] => {
            say_written(said, spoiler.rest.get(..3))?;
            said.say(" must be followed by 2 hexadecimal digits, as in `\\X\\E4`.")
        }
        [b'\\', ..] => {
            say_written(said, Some(front_of_directive(spoiler.rest)))?;
            said.say(" is no directive of a string; a `\\` is written `\\\\`.")
        }
        [byte, ..] => {
            let from = said.len();
            said.say(("the byte ", u64::from(*byte)))?;
            said.found = said.since(from);
            said.say(" may not stand in a string; it is written `\\X\\` and 2 hexadecimal digits.")
        }
        [] => Ok(()),
    }
}

/// Adds what is written there.
fn say_written(said: &mut Said, written: Option<&[u8]>) -> Result<(), AllocError> {
    said.say("`")?;
    let from = said.len();
    said.say(Front(written.unwrap_or(b"".as_slice())))?;
    said.found = said.since(from);
    said.say("`")
}

/// A reverse solidus, and the letter or the digit after it.
fn front_of_directive(rest: &[u8]) -> &[u8] {
    match rest {
        [_, second, ..] if second.is_ascii_alphanumeric() => rest.get(..2).unwrap_or(rest),
        _ => rest.get(..1).unwrap_or(rest),
    }
}
