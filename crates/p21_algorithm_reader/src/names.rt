//! Names, and lists with commas between.

use p21_express::{Refusal, Word, begins_symbol, keyword, symbol};
use p21_expression::{Expression, Name, expression, is_reserved, named};
use std::alloc::Global;

/// How many words stand from the first on.
pub(crate) fn place(words: &[Word]) -> usize {
    words.len()
}

/// A name that is no word of the language.
pub(crate) fn identifier<'t, 'a>(
    words: &'t [Word<'a>],
) -> Result<(Name<'a>, &'t [Word<'a>]), Refusal> {
    let (name, rest) = named(words)?;
    if is_reserved(name.text) {
        return Err(Refusal::syntax(name.place));
    }
    Ok((name, rest))
}

/// Whether no comma stands there.
fn ends_list(words: &[Word]) -> bool {
    !begins_symbol(words, b',')
}

/// A comma and the name after it.
fn next_name<'t, 'a>(words: &'t [Word<'a>]) -> Result<(Name<'a>, &'t [Word<'a>]), Refusal> {
    identifier(symbol(words, b',')?)
}

/// Names with commas between them, one at least.
pub(crate) fn names<'t, 'a>(
    alloc: Global,
    words: &'t [Word<'a>],
) -> Result<(Vec<Name<'a>>, &'t [Word<'a>]), Refusal> {
    let (first, mut rest) = identifier(words)?;
    let mut names = Vec::new(alloc);
    names.push(first)?;
    for _ in 0..=words.len() {
        if ends_list(rest) {
            return Ok((names, rest));
        }
        let (next, behind) = next_name(rest)?;
        names.push(next)?;
        rest = behind;
    }
    Err(Refusal::syntax(0))
}

/// A comma and the expression after it.
fn next_expression<'t, 'a>(
    alloc: Global,
    words: &'t [Word<'a>],
) -> Result<(Expression<'a>, &'t [Word<'a>]), Refusal> {
    expression(alloc, symbol(words, b',')?)
}

/// Expressions with commas between them, one at least.
pub(crate) fn expressions<'t, 'a>(
    alloc: Global,
    words: &'t [Word<'a>],
) -> Result<(Vec<Expression<'a>>, &'t [Word<'a>]), Refusal> {
    let (first, mut rest) = expression(alloc, words)?;
    let mut expressions = Vec::new(alloc);
    expressions.push(first)?;
    for _ in 0..=words.len() {
        if ends_list(rest) {
            return Ok((expressions, rest));
        }
        let (next, behind) = next_expression(alloc, rest)?;
        expressions.push(next)?;
        rest = behind;
    }
    Err(Refusal::syntax(0))
}

/// `:=` and the value after it.
pub(crate) fn value<'t, 'a>(
    alloc: Global,
    words: &'t [Word<'a>],
) -> Result<(Expression<'a>, &'t [Word<'a>]), Refusal> {
    let rest = symbol(symbol(words, b':')?, b'=')?;
    expression(alloc, rest)
}

/// The words after a word that ends something, and its semicolon.
pub(crate) fn end<'t, 'a>(words: &'t [Word<'a>], last: &[u8]) -> Result<&'t [Word<'a>], Refusal> {
    symbol(keyword(words, last)?, b';')
}
