//! What REPEAT is run by, and what statements change.

use crate::names::identifier;
use p21_algorithm::{Control, Increment, Target};
use p21_express::{Refusal, Word, begins_name, begins_symbol, keyword, symbol};
use p21_expression::{Expression, expression, qualifiers_after, simple_expression};
use std::alloc::Global;

/// A variable or parameter, and its qualifiers.
pub(crate) fn target<'t, 'a>(
    alloc: Global,
    words: &'t [Word<'a>],
) -> Result<(Target<'a>, &'t [Word<'a>]), Refusal> {
    let (name, rest) = identifier(words)?;
    let (qualifiers, rest) = qualifiers_after(alloc, rest)?;
    Ok((Target { name, qualifiers }, rest))
}

/// What is added each time, where it is there.
fn if_by<'t, 'a>(
    alloc: Global,
    words: &'t [Word<'a>],
) -> Result<(Option<Expression<'a>>, &'t [Word<'a>]), Refusal> {
    if begins_name(words, b"BY") {
        let (by, rest) = simple_expression(alloc, keyword(words, b"BY")?)?;
        return Ok((Some(by), rest));
    }
    Ok((None, words))
}

/// A variable and how it counts.
fn increment<'t, 'a>(
    alloc: Global,
    words: &'t [Word<'a>],
) -> Result<(Increment<'a>, &'t [Word<'a>]), Refusal> {
    let (name, rest) = identifier(words)?;
    let rest = symbol(symbol(rest, b':')?, b'=')?;
    let (from, rest) = simple_expression(alloc, rest)?;
    let (to, rest) = simple_expression(alloc, keyword(rest, b"TO")?)?;
    let (by, rest) = if_by(alloc, rest)?;
    let increment = Increment { name, from, to, by };
    Ok((increment, rest))
}

/// Whether no variable counts.
fn has_no_increment(words: &[Word]) -> bool {
    begins_symbol(words, b';') || begins_name(words, b"WHILE") || begins_name(words, b"UNTIL")
}

fn if_increment<'t, 'a>(
    alloc: Global,
    words: &'t [Word<'a>],
) -> Result<(Option<Increment<'a>>, &'t [Word<'a>]), Refusal> {
    if has_no_increment(words) {
        return Ok((None, words));
    }
    let (increment, rest) = increment(alloc, words)?;
    Ok((Some(increment), rest))
}

/// The condition after this word, where the word stands there.
fn if_condition<'t, 'a>(
    alloc: Global,
    words: &'t [Word<'a>],
    word: &[u8],
) -> Result<(Option<Expression<'a>>, &'t [Word<'a>]), Refusal> {
    if begins_name(words, word) {
        let (condition, rest) = expression(alloc, keyword(words, word)?)?;
        return Ok((Some(condition), rest));
    }
    Ok((None, words))
}

/// What a REPEAT is run by.
pub(crate) fn control<'t, 'a>(
    alloc: Global,
    words: &'t [Word<'a>],
) -> Result<(Control<'a>, &'t [Word<'a>]), Refusal> {
    let (increment, rest) = if_increment(alloc, words)?;
    let (condition, rest) = if_condition(alloc, rest, b"WHILE")?;
    let (until, rest) = if_condition(alloc, rest, b"UNTIL")?;
    let control = Control {
        increment,
        condition,
        until,
    };
    Ok((control, rest))
}
