//! Literals, and the words that are no names.

ghost use Rattle.std.specs.Prelude.{◌≡◌, length, option_map};
ghost use Rattle.std.specs.List.{prefix_len};
ghost use Rattle.p21_express.specs.Lexer.{digit};
ghost use Rattle.p21_express.specs.Reader.{words_of};
ghost use Rattle.p21_expression.specs.Literals.{behind_exponent_at, if_integer_at, if_symbol, integer_at, is_exponent, literal_at, number_at, operand_word_of, signed_integer_at, truth_of};
ghost use Rattle.p21_expression.specs.Plain.{plain};

use crate::operators::after_symbol;
use crate::reserved::is_reserved;
use crate::tree::{Constant, Expression, Truth};
use p21_express::{Word, begins_symbol};

/// What a word says where an operand begins.
#[derive(Clone, Copy)]
pub(crate) enum OperandWord {
    Constant(Constant),
    /// A word of the language that is no operand.
    Reserved,
    /// A name.
    Plain,
}

#[tactic(auto, unfolding(crate::specs::Literals::operand_word_of))]
pub(crate) fn operand_word(word: &[u8]) -> OperandWord
    ensures { result ≡ operand_word_of word.now }
{
    if word == b"SELF".as_slice() {
        return OperandWord::Constant(Constant::Itself);
    }
    if word == b"PI".as_slice() {
        return OperandWord::Constant(Constant::Pi);
    }
    if word == b"CONST_E".as_slice() {
        return OperandWord::Constant(Constant::Euler);
    }
    if is_reserved(word) {
        return OperandWord::Reserved;
    }
    OperandWord::Plain
}

/// The value of LOGICAL that a word is.
#[tactic(auto, unfolding(crate::specs::Literals::truth_of))]
fn truth(word: &[u8]) -> Option<Truth>
    ensures { result ≡ truth_of word.now }
{
    if word == b"TRUE".as_slice() {
        return Some(Truth::True);
    }
    if word == b"FALSE".as_slice() {
        return Some(Truth::False);
    }
    if word == b"UNKNOWN".as_slice() {
        return Some(Truth::Unknown);
    }
    None
}

/// How many words stand from the first on.
pub(crate) fn place(words: &[Word]) -> usize
    ensures { result ≡ length (words_of words.now) }
{
    words.len()
}

/// The words after a whole number.
fn integer<'t, 'a>(words: &'t [Word<'a>]) -> Option<&'t [Word<'a>]>
    ensures { option_map (λ x. words_of x.now) result ≡ integer_at (words_of words.now) }
{
    match words.split_first()? {
        (Word::Integer(_), rest) => Some(rest),
        _ => None,
    }
}

/// Whether a whole number stands there, and the words after it.
fn if_integer<'t, 'a>(words: &'t [Word<'a>]) -> (bool, &'t [Word<'a>])
    ensures { (result.0, words_of result.1.now) ≡ if_integer_at (words_of words.now) }
{
    match words.split_first() {
        Some((Word::Integer(_), rest)) => (true, rest),
        _ => (false, words),
    }
}

/// Whether this symbol stands there, and the words after it.
fn if_symbol<'t, 'a>(words: &'t [Word<'a>], symbol: u8) -> (bool, &'t [Word<'a>])
    ensures { (result.0, words_of result.1.now) ≡ if_symbol symbol (words_of words.now) }
{
    match words.split_first() {
        Some((word, rest)) if word.is_symbol(symbol) => (true, rest),
        _ => (false, words),
    }
}

/// The words after digits, perhaps after a sign.
fn signed_integer<'t, 'a>(words: &'t [Word<'a>]) -> Option<&'t [Word<'a>]>
    ensures { option_map (λ x. words_of x.now) result ≡ signed_integer_at (words_of words.now) }
{
    if begins_symbol(words, b'-') {
        let (_, rest) = if_symbol(words, b'-');
        return integer(rest);
    }
    let (_, rest) = if_symbol(words, b'+');
    integer(rest)
}

fn is_digit(byte: u8) -> bool
    ensures { result ≡ digit byte }
{
    b'0' <= byte && byte <= b'9'
}

/// How many digits stand at the front.
fn digit_len(word: &[u8]) -> usize
    ensures { result ≡ prefix_len digit word.now }
{
    word.iter().take_while(|byte| is_digit(**byte)).count()
}

/// Whether a word is the letter of an exponent and its digits.
fn is_exponent(word: &[u8]) -> bool
    ensures { result ≡ is_exponent word.now }
{
    match word.split_first() {
        Some((first, digits)) => *first == b'E' && digit_len(digits) == digits.len(),
        None => false,
    }
}

/// The words after an exponent, if one stands there. Where the word is its letter alone, digits follow, perhaps after a sign.
#[tactic(auto, unfolding(crate::specs::Literals::behind_exponent_at))]
fn behind_exponent<'t, 'a>(words: &'t [Word<'a>]) -> Option<&'t [Word<'a>]>
    ensures { option_map (λ x. words_of x.now) result ≡ behind_exponent_at (words_of words.now) }
{
    match words.split_first() {
        Some((Word::Name(word), rest)) => {
            if *word == b"E".as_slice() {
                return signed_integer(rest);
            }
            if is_exponent(word) {
                return Some(rest);
            }
            Some(words)
        }
        _ => Some(words),
    }
}

/// A number after its first digits.
#[tactic(auto, unfolding(crate::specs::Literals::number_at))]
fn number<'t, 'a>(
    value: Option<u64>,
    place: usize,
    words: &'t [Word<'a>],
) -> Option<(Expression<'a>, &'t [Word<'a>])>
    ensures { option_map (λ x. (plain x.0, words_of x.1.now)) result ≡ number_at value place (words_of words.now) }
{
    if begins_symbol(words, b'.') {
        let fraction = after_symbol(words, b'.')?;
        let (_, rest) = if_integer(fraction);
        return Some((Expression::Real(place), behind_exponent(rest)?));
    }
    Some((Expression::Integer(value, place), words))
}

/// A literal, if the words begin with one, and the words after it.
#[tactic(auto, unfolding(crate::specs::Literals::literal_at))]
pub(crate) fn literal<'t, 'a>(words: &'t [Word<'a>]) -> Option<(Expression<'a>, &'t [Word<'a>])>
    ensures { option_map (λ x. (plain x.0, words_of x.1.now)) result ≡ literal_at (words_of words.now) }
{
    let place = place(words);
    let (first, rest) = words.split_first()?;
    match *first {
        Word::Text => Some((Expression::Text(place), rest)),
        Word::Integer(_) => number(first.value(), place, rest),
        Word::Name(word) => Some((Expression::Truth(truth(word)?), rest)),
        Word::Symbol(symbol) => {
            if symbol == b'%' {
                return Some((Expression::Binary(place), integer(rest)?));
            }
            None
        }
    }
}
