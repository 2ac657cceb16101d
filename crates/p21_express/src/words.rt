//! The words of a schema's text, which is in upper case.

ghost use Rattle.std.specs.Prelude.{◌≡◌, ◌≤◌, ◌<◌, ◌^◌, false, length, option_map, IfOk, IsTrue};
ghost use Rattle.std.specs.List.{AllByRecursion, prefix_len};
ghost use Rattle.p21_express.specs.Words.{IsDigit, UpperWords, decimal_from, number_of};
ghost use Rattle.p21_express.specs.Reader.{words_of};
ghost use Rattle.p21_express.specs.Lexer.{white, letter, digit, part, not_line_end, not_quote, string_end, opens_remark, closes_remark, remark_end, begins, front_at, plain_front, HasNoWords};

use crate::whole::Whole;
use crate::word::Word;
use std::alloc::{AllocError, Global};

fn is_white(byte: u8) -> bool
    ensures { result ≡ white byte }
{
    (9 <= byte && byte <= 13) || byte == b' '
}

fn is_letter(byte: u8) -> bool
    ensures { result ≡ letter byte }
{
    b'A' <= byte && byte <= b'Z'
}

fn is_digit(byte: u8) -> bool
    ensures { result ≡ digit byte }
{
    b'0' <= byte && byte <= b'9'
}

/// Whether a name may hold the byte.
fn is_part(byte: u8) -> bool
    ensures { result ≡ part byte }
{
    is_letter(byte) || is_digit(byte) || byte == b'_'
}

/// How many bytes of a name stand at the front.
fn part_len(text: &[u8]) -> usize
    ensures value { result ≡ prefix_len part text.now }
    ensures within { result ≤ length text.now }
{
    text.iter().take_while(|byte| is_part(**byte)).count()
}

/// How many digits stand at the front.
fn digit_len(text: &[u8]) -> usize
    ensures value { result ≡ prefix_len digit text.now }
    ensures within { result ≤ length text.now }
{
    text.iter().take_while(|byte| is_digit(**byte)).count()
}

/// How many bytes stand before the end of the line.
fn line_len(text: &[u8]) -> usize
    ensures value { result ≡ prefix_len not_line_end text.now }
    ensures within { result ≤ length text.now }
{
    text.iter().take_while(|byte| **byte != b'\n').count()
}

/// How many bytes stand before a quote.
fn quote_len(text: &[u8]) -> usize
    ensures value { result ≡ prefix_len not_quote text.now }
    ensures within { result ≤ length text.now }
{
    text.iter().take_while(|byte| **byte != b'"').count()
}

/// What stands after the apostrophe that closes a string.
#[tactic(auto, unfolding(crate::specs::Lexer::string_end))]
fn behind_string(text: &[u8]) -> Option<&[u8]>
    ensures { option_map (λ x. x.now) result ≡ string_end text.now }
{
    let mut rest = text;
    while !rest.is_empty() {
        let byte = rest[0];
        rest = &rest[1..];
        if byte == b'\'' {
            if rest.is_empty() || rest[0] != b'\'' {
                return Some(rest);
            }
            rest = &rest[1..];
        }
    }
    None
}

/// Whether the bytes are `(*`.
fn opens_remark(first: u8, second: u8) -> bool
    ensures { result ≡ opens_remark first second }
{
    first == b'(' && second == b'*'
}

/// Whether the bytes are `*)`.
fn closes_remark(first: u8, second: u8) -> bool
    ensures { result ≡ closes_remark first second }
{
    first == b'*' && second == b')'
}

/// What stands after the `*)` that closes a remark, within which others may be open.
fn behind_remark(text: &[u8]) -> Option<&[u8]>
    ensures { option_map (λ x. x.now) result ≡ remark_end 0 text.now }
{
    let mut depth: usize = 0;
    let mut at: usize = 0;
    while at + 1 < text.len() {
        let (first, second) = (text[at], text[at + 1]);
        if opens_remark(first, second) {
            depth += 1;
            at += 2;
        } else if closes_remark(first, second) {
            if depth == 0 {
                return Some(&text[at + 2..]);
            }
            depth -= 1;
            at += 2;
        } else {
            at += 1;
        }
    }
    None
}

/// Whether the text begins with this byte.
fn begins(text: &[u8], byte: u8) -> bool
    ensures { result ≡ begins byte text.now }
{
    match text.split_first() {
        Some((first, _)) => *first == byte,
        None => false,
    }
}

/// The value of digits.
fn decimal(digits: &[u8]) -> u64
    requires digits { AllByRecursion IsDigit digits.now }
    requires few { length digits.now ≤ 18 }
    ensures value { result ≡ decimal_from 0 digits.now }
    ensures small { result < 10 ^ 18 }
{
    let mut value: u64 = 0;
    for byte in digits {
        value = 10 * value + u64::from(*byte - b'0');
    }
    value
}

/// The value of digits, of which there are at most 18 as they are written.
fn number(digits: &[u8]) -> Option<Whole>
    requires { AllByRecursion IsDigit digits.now }
    ensures { option_map (λ w. w.value) result ≡ number_of digits.now }
{
    if digits.len() > 18 {
        return None;
    }
    Some(Whole {
        value: decimal(digits),
    })
}

/// What stands at the front of a text, where it is a word, and the text after it.
#[tactic(auto, unfolding(crate::specs::Lexer::front_of))]
fn front(text: &[u8]) -> Option<(Option<Word<'_>>, &[u8])>
    ensures { option_map plain_front result ≡ front_at text.now }
{
    let (first, rest) = text.split_first()?;
    let first = *first;
    if is_white(first) {
        return Some((None, rest));
    }
    if is_letter(first) {
        let (name, behind) = text.split_at(part_len(text));
        return Some((Some(Word::Name(name)), behind));
    }
    if is_digit(first) {
        let (digits, behind) = text.split_at(digit_len(text));
        return Some((Some(Word::Integer(number(digits))), behind));
    }
    if first == b'\'' {
        return Some((Some(Word::Text), behind_string(rest)?));
    }
    if first == b'"' {
        let (_, behind) = rest.split_at(quote_len(rest));
        let (_, behind) = behind.split_first()?;
        return Some((Some(Word::Text), behind));
    }
    if first == b'-' && begins(rest, b'-') {
        let (_, behind) = rest.split_at(line_len(rest));
        return Some((None, behind));
    }
    if first == b'(' && begins(rest, b'*') {
        return Some((None, behind_remark(&rest[1..])?));
    }
    if b'!' <= first && first <= b'~' {
        return Some((Some(Word::Symbol(first)), rest));
    }
    None
}

/// The words of a text, up to the first byte where none begins.
#[derive(Drop)]
pub struct Scanned<'a> {
    /// In the order of the text.
    pub words: Vec<Word<'a>>,
    /// Where each word begins, and after them where the last one is followed by nothing: the end of the text, or the
    /// byte where no word begins.
    pub places: Vec<usize>,
    /// Whether the words reach the end of the text.
    pub is_whole: bool,
}

/// The words of a text in upper case. Memory alone can fail; a byte where no word begins, or an open string or remark, ends the words.
pub fn scan(alloc: Global, text: &[u8]) -> Result<Scanned<'_>, AllocError>
    // Where it reaches the end of a text in upper case, these are the words of the text.
    ensures whole { IfOk result (λ s. IsTrue s.is_whole → UpperWords text.now (words_of s.words.items)) }
    // Where it does not, the text has no words.
    ensures broken { IfOk result (λ s. s.is_whole ≡ false → HasNoWords text.now) }
    // The places of the words, and the one after the last, are within the text.
    ensures places { IfOk result (λ s. AllByRecursion (λ place. place ≤ length text.now) s.places.items) }
{
    let mut words = Vec::new(alloc);
    let mut places = Vec::new(alloc);
    let mut at: usize = 0;
    while let Some((word, behind)) = front(&text[at..]) {
        if let Some(word) = word {
            words.push(word)?;
            places.push(at)?;
        }
        at = text.len() - behind.len();
    }
    places.push(at)?;
    Ok(Scanned {
        words,
        places,
        is_whole: at == text.len(),
    })
}
