//! The statements of algorithms.

use crate::control::{control, target};
use crate::names::{end, expressions, identifier, place, value};
use p21_algorithm::{Action, Statement, Target};
use p21_express::{Kind, Refusal, Word, begins_name, begins_symbol, keyword, symbol};
use p21_expression::{Expression, Name, expression, qualifiers_after};
use std::alloc::Global;

/// The most statements that may stand within one another.
const DEEPEST: usize = 256;

/// What a word says where a statement begins.
#[derive(Clone, Copy)]
pub(crate) enum StatementWord {
    Null,
    If,
    Case,
    Repeat,
    Alias,
    Begin,
    Return,
    Skip,
    Escape,
    Plain,
}

fn statement_word(word: Word) -> StatementWord {
    if word.is_symbol(b';') {
        return StatementWord::Null;
    }
    if word.is_name(b"IF") {
        return StatementWord::If;
    }
    if word.is_name(b"CASE") {
        return StatementWord::Case;
    }
    if word.is_name(b"REPEAT") {
        return StatementWord::Repeat;
    }
    if word.is_name(b"ALIAS") {
        return StatementWord::Alias;
    }
    if word.is_name(b"BEGIN") {
        return StatementWord::Begin;
    }
    if word.is_name(b"RETURN") {
        return StatementWord::Return;
    }
    if word.is_name(b"SKIP") {
        return StatementWord::Skip;
    }
    if word.is_name(b"ESCAPE") {
        return StatementWord::Escape;
    }
    StatementWord::Plain
}

/// Whether the word ends statements.
fn is_end_word(word: Word) -> bool {
    if word.is_name(b"ELSE") {
        return true;
    }
    if word.is_name(b"END") {
        return true;
    }
    if word.is_name(b"END_ALIAS") {
        return true;
    }
    if word.is_name(b"END_FUNCTION") {
        return true;
    }
    if word.is_name(b"END_IF") {
        return true;
    }
    if word.is_name(b"END_PROCEDURE") {
        return true;
    }
    if word.is_name(b"END_REPEAT") {
        return true;
    }
    word.is_name(b"WHERE")
}

/// Whether a word stands there that ends statements.
fn ends_statements(words: &[Word]) -> bool {
    match words.split_first() {
        Some((word, _)) => is_end_word(*word),
        None => false,
    }
}

/// Whether no further action of a CASE stands there.
fn ends_actions(words: &[Word]) -> bool {
    begins_name(words, b"OTHERWISE") || begins_name(words, b"END_CASE")
}

/// Statements up to a word that ends them.
pub(crate) fn statements<'t, 'a>(
    alloc: Global,
    words: &'t [Word<'a>],
) -> Result<(Vec<Statement<'a>>, &'t [Word<'a>]), Refusal> {
    several(alloc, words, DEEPEST)
}

/// A statement, where so many may still stand within one another.
#[cycle(statement)]
fn statement<'t, 'a>(
    alloc: Global,
    words: &'t [Word<'a>],
    left: usize,
) -> Result<(Statement<'a>, &'t [Word<'a>]), Refusal> {
    if left == 0 {
        return Err(Refusal::Refused(Kind::NotSupported, words.len()));
    }
    statement_by(alloc, words, left - 1)
}

#[cycle(statement)]
fn statement_by<'t, 'a>(
    alloc: Global,
    words: &'t [Word<'a>],
    left: usize,
) -> Result<(Statement<'a>, &'t [Word<'a>]), Refusal> {
    let place = place(words);
    match words.split_first() {
        None => Err(Refusal::syntax(0)),
        Some((first, rest)) => match statement_word(*first) {
            StatementWord::Null => Ok((Statement::Null(place), rest)),
            StatementWord::If => if_statement(alloc, rest, left),
            StatementWord::Case => case(alloc, rest, left),
            StatementWord::Repeat => repeat(alloc, rest, left),
            StatementWord::Alias => alias(alloc, rest, left),
            StatementWord::Begin => compound(alloc, rest, left),
            StatementWord::Return => returned(alloc, place, rest),
            StatementWord::Skip => Ok((Statement::Skip(place), symbol(rest, b';')?)),
            StatementWord::Escape => Ok((Statement::Escape(place), symbol(rest, b';')?)),
            StatementWord::Plain => named_statement(alloc, words),
        },
    }
}

/// Statements up to a word that ends them, where so many may still stand within one another.
#[cycle(statement)]
fn several<'t, 'a>(
    alloc: Global,
    words: &'t [Word<'a>],
    left: usize,
) -> Result<(Vec<Statement<'a>>, &'t [Word<'a>]), Refusal> {
    let (_, mut rest) = words.split_at(0);
    let mut statements = Vec::new(alloc);
    for _ in 0..=words.len() {
        if ends_statements(rest) {
            return Ok((statements, rest));
        }
        let (next, behind) = statement(alloc, rest, left)?;
        statements.push(next)?;
        rest = behind;
    }
    Err(Refusal::syntax(0))
}

/// Statements of which there is one at least.
#[cycle(statement)]
fn some<'t, 'a>(
    alloc: Global,
    words: &'t [Word<'a>],
    left: usize,
) -> Result<(Vec<Statement<'a>>, &'t [Word<'a>]), Refusal> {
    if ends_statements(words) {
        return Err(Refusal::syntax(words.len()));
    }
    several(alloc, words, left)
}

/// IF, after that word.
#[cycle(statement)]
fn if_statement<'t, 'a>(
    alloc: Global,
    words: &'t [Word<'a>],
    left: usize,
) -> Result<(Statement<'a>, &'t [Word<'a>]), Refusal> {
    let (condition, rest) = expression(alloc, words)?;
    let (then, rest) = some(alloc, keyword(rest, b"THEN")?, left)?;
    let (otherwise, rest) = if_else(alloc, rest, left)?;
    let rest = end(rest, b"END_IF")?;
    Ok((Statement::If(condition, then, otherwise), rest))
}

/// The statements after ELSE, or none where no ELSE stands there.
#[cycle(statement)]
fn if_else<'t, 'a>(
    alloc: Global,
    words: &'t [Word<'a>],
    left: usize,
) -> Result<(Vec<Statement<'a>>, &'t [Word<'a>]), Refusal> {
    if begins_name(words, b"ELSE") {
        return some(alloc, keyword(words, b"ELSE")?, left);
    }
    Ok((Vec::new(alloc), words))
}

/// CASE, after that word.
#[cycle(statement)]
fn case<'t, 'a>(
    alloc: Global,
    words: &'t [Word<'a>],
    left: usize,
) -> Result<(Statement<'a>, &'t [Word<'a>]), Refusal> {
    let (selector, rest) = expression(alloc, words)?;
    let (actions, rest) = actions(alloc, keyword(rest, b"OF")?, left)?;
    let (otherwise, rest) = if_otherwise(alloc, rest, left)?;
    let rest = end(rest, b"END_CASE")?;
    Ok((Statement::Case(selector, actions, otherwise), rest))
}

/// The actions of a CASE.
#[cycle(statement)]
fn actions<'t, 'a>(
    alloc: Global,
    words: &'t [Word<'a>],
    left: usize,
) -> Result<(Vec<Action<'a>>, &'t [Word<'a>]), Refusal> {
    let (_, mut rest) = words.split_at(0);
    let mut actions = Vec::new(alloc);
    for _ in 0..=words.len() {
        if ends_actions(rest) {
            return Ok((actions, rest));
        }
        let (next, behind) = action(alloc, rest, left)?;
        actions.push(next)?;
        rest = behind;
    }
    Err(Refusal::syntax(0))
}

/// An action of a CASE.
#[cycle(statement)]
fn action<'t, 'a>(
    alloc: Global,
    words: &'t [Word<'a>],
    left: usize,
) -> Result<(Action<'a>, &'t [Word<'a>]), Refusal> {
    let (labels, rest) = expressions(alloc, words)?;
    let (statement, rest) = statement(alloc, symbol(rest, b':')?, left)?;
    Ok((Action { labels, statement }, rest))
}

/// What a CASE does where no label fits, where it does something.
#[cycle(statement)]
fn if_otherwise<'t, 'a>(
    alloc: Global,
    words: &'t [Word<'a>],
    left: usize,
) -> Result<(Option<Box<Statement<'a>>>, &'t [Word<'a>]), Refusal> {
    if begins_name(words, b"OTHERWISE") {
        let rest = symbol(keyword(words, b"OTHERWISE")?, b':')?;
        let (statement, rest) = statement(alloc, rest, left)?;
        return Ok((Some(Box::new(alloc, statement)?), rest));
    }
    Ok((None, words))
}

/// REPEAT, after that word.
#[cycle(statement)]
fn repeat<'t, 'a>(
    alloc: Global,
    words: &'t [Word<'a>],
    left: usize,
) -> Result<(Statement<'a>, &'t [Word<'a>]), Refusal> {
    let (control, rest) = control(alloc, words)?;
    let (statements, rest) = some(alloc, symbol(rest, b';')?, left)?;
    let rest = end(rest, b"END_REPEAT")?;
    Ok((Statement::Repeat(control, statements), rest))
}

/// ALIAS, after that word.
#[cycle(statement)]
fn alias<'t, 'a>(
    alloc: Global,
    words: &'t [Word<'a>],
    left: usize,
) -> Result<(Statement<'a>, &'t [Word<'a>]), Refusal> {
    let (name, rest) = identifier(words)?;
    let (target, rest) = target(alloc, keyword(rest, b"FOR")?)?;
    let (statements, rest) = some(alloc, symbol(rest, b';')?, left)?;
    let rest = end(rest, b"END_ALIAS")?;
    Ok((Statement::Alias(name, target, statements), rest))
}

/// BEGIN, after that word.
#[cycle(statement)]
fn compound<'t, 'a>(
    alloc: Global,
    words: &'t [Word<'a>],
    left: usize,
) -> Result<(Statement<'a>, &'t [Word<'a>]), Refusal> {
    let (statements, rest) = some(alloc, words, left)?;
    let rest = end(rest, b"END")?;
    Ok((Statement::Compound(statements), rest))
}

/// An expression in parentheses, where one stands there.
fn if_group<'t, 'a>(
    alloc: Global,
    words: &'t [Word<'a>],
) -> Result<(Option<Expression<'a>>, &'t [Word<'a>]), Refusal> {
    if begins_symbol(words, b'(') {
        let (value, rest) = expression(alloc, symbol(words, b'(')?)?;
        return Ok((Some(value), symbol(rest, b')')?));
    }
    Ok((None, words))
}

/// RETURN, after that word.
fn returned<'t, 'a>(
    alloc: Global,
    place: usize,
    words: &'t [Word<'a>],
) -> Result<(Statement<'a>, &'t [Word<'a>]), Refusal> {
    let (value, rest) = if_group(alloc, words)?;
    Ok((Statement::Return(place, value), symbol(rest, b';')?))
}

/// The parameters of a procedure that is called, in parentheses, or none where no parenthesis stands there.
fn if_arguments<'t, 'a>(
    alloc: Global,
    words: &'t [Word<'a>],
) -> Result<(Vec<Expression<'a>>, &'t [Word<'a>]), Refusal> {
    if begins_symbol(words, b'(') {
        let (arguments, rest) = expressions(alloc, symbol(words, b'(')?)?;
        return Ok((arguments, symbol(rest, b')')?));
    }
    Ok((Vec::new(alloc), words))
}

/// A call of a procedure, after its name.
fn call<'t, 'a>(
    alloc: Global,
    name: Name<'a>,
    words: &'t [Word<'a>],
) -> Result<(Statement<'a>, &'t [Word<'a>]), Refusal> {
    let (arguments, rest) = if_arguments(alloc, words)?;
    Ok((Statement::Call(name, arguments), symbol(rest, b';')?))
}

/// An assignment, after its first name.
fn assignment<'t, 'a>(
    alloc: Global,
    name: Name<'a>,
    words: &'t [Word<'a>],
) -> Result<(Statement<'a>, &'t [Word<'a>]), Refusal> {
    let (qualifiers, rest) = qualifiers_after(alloc, words)?;
    let (value, rest) = value(alloc, rest)?;
    let target = Target { name, qualifiers };
    Ok((Statement::Assign(target, value), symbol(rest, b';')?))
}

/// Whether a call goes on there, after its name.
fn begins_call(words: &[Word]) -> bool {
    begins_symbol(words, b';') || begins_symbol(words, b'(')
}

/// A call of a procedure or an assignment.
fn named_statement<'t, 'a>(
    alloc: Global,
    words: &'t [Word<'a>],
) -> Result<(Statement<'a>, &'t [Word<'a>]), Refusal> {
    let (name, rest) = identifier(words)?;
    if begins_call(rest) {
        return call(alloc, name, rest);
    }
    assignment(alloc, name, rest)
}
