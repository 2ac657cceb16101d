//! The text of a schema as it is spelled, and the literals in it.

ghost use Rattle.std.specs.Prelude.{◌≤◌, length};

use p21_express::place_at;

/// The text of a schema as it is spelled, and where its words stand.
#[derive(Clone, Copy)]
pub struct Source<'s> {
    pub text: &'s [u8],
    /// Where each word begins, and after them where the last one ends, as `scan` has them of the text in upper case.
    pub places: &'s [usize],
}

impl<'s> Source<'s> {
    /// The byte at which something stands, by its place. It is at most the length of a text to which the places belong.
    pub fn byte_of(self, place: usize) -> usize {
        place_at(self.places, place) as usize
    }

    /// The bytes of the literal at a place, as the text spells them: a string with its apostrophes, an encoded string with its quotation marks, a
    /// binary number with its `%`, or another number. Empty where no literal stands there.
    pub fn literal(self, place: usize) -> &'s [u8] {
        match self.text.get(self.byte_of(place)..) {
            Some(text) => {
                let (literal, _) = text.split_at(literal_len(text));
                literal
            }
            None => &[],
        }
    }
}

fn is_digit(byte: u8) -> bool {
    b'0' <= byte && byte <= b'9'
}

/// How many digits stand at the front.
fn digit_len(text: &[u8]) -> usize
    ensures { result ≤ length text.now }
{
    text.iter().take_while(|byte| is_digit(**byte)).count()
}

/// How many bytes a literal at the front has. A number of which the text writes the parts apart ends at the first of them.
fn literal_len(text: &[u8]) -> usize
    ensures { result ≤ length text.now }
{
    match text.split_first() {
        None => 0,
        Some((first, rest)) => match *first {
            b'\'' => 1 + string_len(rest),
            b'"' => 1 + encoded_len(rest),
            b'%' => 1 + digit_len(rest),
            _ => number_len(text),
        },
    }
}

/// How many bytes stand up to the apostrophe that closes a string, that one among them. Two of them after one another close none.
fn string_len(text: &[u8]) -> usize
    ensures { result ≤ length text.now }
{
    let mut at: usize = 0;
    while at < text.len() {
        if text[at] == b'\'' {
            if at + 1 >= text.len() || text[at + 1] != b'\'' {
                return at + 1;
            }
            at += 1;
        }
        at += 1;
    }
    text.len()
}

/// How many bytes stand up to a quotation mark, that one among them.
fn encoded_len(text: &[u8]) -> usize
    ensures { result ≤ length text.now }
{
    let before = text.iter().take_while(|byte| **byte != b'"').count();
    (before + 1).min(text.len())
}

/// How many bytes a number at the front has: digits, perhaps a point and digits, and then perhaps an exponent.
fn number_len(text: &[u8]) -> usize
    ensures { result ≤ length text.now }
{
    let whole = digit_len(text);
    let (_, behind) = text.split_at(whole);
    match behind.split_first() {
        Some((b'.', fraction)) => {
            let digits = digit_len(fraction);
            let (_, rest) = fraction.split_at(digits);
            whole + 1 + digits + exponent_len(rest)
        }
        _ => whole,
    }
}

/// How many bytes an exponent at the front has, if one stands there.
fn exponent_len(text: &[u8]) -> usize
    ensures { result ≤ length text.now }
{
    match text {
        [b'E' | b'e', b'+' | b'-', digits @ ..] => 2 + digit_len(digits),
        [b'E' | b'e', digits @ ..] => 1 + digit_len(digits),
        _ => 0,
    }
}
