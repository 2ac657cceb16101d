//! Functions, procedures and global rules.

use crate::declarations::{if_constants, if_locals, if_parameters, typed};
use crate::names::{end, identifier, names};
use crate::statements::statements;
use p21_algorithm::{Block, GlobalRule, Routine, Statement};
use p21_express::{Kind, Refusal, Word, begins_name, keyword, symbol};
use p21_expression::{DomainRule, domain_rules};
use std::alloc::Global;

/// The most functions and procedures that may stand within one another.
const DEEPEST: usize = 256;

/// A function or a procedure.
pub(crate) fn routine<'t, 'a>(
    alloc: Global,
    words: &'t [Word<'a>],
) -> Result<(Routine<'a>, &'t [Word<'a>]), Refusal> {
    routine_within(alloc, words, DEEPEST)
}

/// A function or a procedure, where so many may still stand within one another.
#[cycle(routine)]
fn routine_within<'t, 'a>(
    alloc: Global,
    words: &'t [Word<'a>],
    left: usize,
) -> Result<(Routine<'a>, &'t [Word<'a>]), Refusal> {
    if left == 0 {
        return Err(Refusal::Refused(Kind::NotSupported, words.len()));
    }
    routine_by(alloc, words, left - 1)
}

/// A function or a procedure, in which so many may stand within one another.
#[cycle(routine)]
fn routine_by<'t, 'a>(
    alloc: Global,
    words: &'t [Word<'a>],
    left: usize,
) -> Result<(Routine<'a>, &'t [Word<'a>]), Refusal> {
    if begins_name(words, b"FUNCTION") {
        return function(alloc, words, left);
    }
    procedure(alloc, words, left)
}

/// Whether no function and no procedure stands there.
fn ends_routines(words: &[Word]) -> bool {
    !(begins_name(words, b"FUNCTION") || begins_name(words, b"PROCEDURE"))
}

/// The functions and procedures that stand there.
#[cycle(routine)]
fn routines<'t, 'a>(
    alloc: Global,
    words: &'t [Word<'a>],
    left: usize,
) -> Result<(Vec<Routine<'a>>, &'t [Word<'a>]), Refusal> {
    let (_, mut rest) = words.split_at(0);
    let mut routines = Vec::new(alloc);
    for _ in 0..=words.len() {
        if ends_routines(rest) {
            return Ok((routines, rest));
        }
        let (next, behind) = routine_within(alloc, rest, left)?;
        routines.push(next)?;
        rest = behind;
    }
    Err(Refusal::syntax(0))
}

/// What an algorithm declares and does.
#[cycle(routine)]
fn block<'t, 'a>(
    alloc: Global,
    words: &'t [Word<'a>],
    left: usize,
) -> Result<(Block<'a>, &'t [Word<'a>]), Refusal> {
    let (routines, rest) = routines(alloc, words, left)?;
    let (constants, rest) = if_constants(alloc, rest)?;
    let (locals, rest) = if_locals(alloc, rest)?;
    let (statements, rest) = statements(alloc, rest)?;
    let block = Block {
        routines,
        constants,
        locals,
        statements,
    };
    Ok((block, rest))
}

/// Whether there is no statement.
fn is_empty(statements: &[Statement]) -> bool {
    match statements {
        [] => true,
        _ => false,
    }
}

/// Whether a block does nothing at all.
fn has_no_statement(block: &Block) -> bool {
    is_empty(block.statements.as_slice())
}

/// A function.
#[cycle(routine)]
fn function<'t, 'a>(
    alloc: Global,
    words: &'t [Word<'a>],
    left: usize,
) -> Result<(Routine<'a>, &'t [Word<'a>]), Refusal> {
    let (name, rest) = identifier(keyword(words, b"FUNCTION")?)?;
    let (parameters, rest) = if_parameters(alloc, false, rest)?;
    let (result, rest) = typed(alloc, rest)?;
    let (block, rest) = block(alloc, symbol(rest, b';')?, left)?;
    if has_no_statement(&block) {
        return Err(Refusal::syntax(rest.len()));
    }
    let function = Routine {
        name,
        parameters,
        result: Some(result),
        block,
    };
    Ok((function, end(rest, b"END_FUNCTION")?))
}

/// A procedure.
#[cycle(routine)]
fn procedure<'t, 'a>(
    alloc: Global,
    words: &'t [Word<'a>],
    left: usize,
) -> Result<(Routine<'a>, &'t [Word<'a>]), Refusal> {
    let (name, rest) = identifier(keyword(words, b"PROCEDURE")?)?;
    let (parameters, rest) = if_parameters(alloc, true, rest)?;
    let (block, rest) = block(alloc, symbol(rest, b';')?, left)?;
    let procedure = Routine {
        name,
        parameters,
        result: None,
        block,
    };
    Ok((procedure, end(rest, b"END_PROCEDURE")?))
}

/// WHERE and its rules, one or more.
fn some_rules<'t, 'a>(
    alloc: Global,
    words: &'t [Word<'a>],
) -> Result<(Vec<DomainRule<'a>>, &'t [Word<'a>]), Refusal> {
    let rest = keyword(words, b"WHERE")?;
    if begins_name(rest, b"END_RULE") {
        return Err(Refusal::syntax(rest.len()));
    }
    domain_rules(alloc, rest, b"END_RULE")
}

/// A RULE.
pub(crate) fn global_rule<'t, 'a>(
    alloc: Global,
    words: &'t [Word<'a>],
) -> Result<(GlobalRule<'a>, &'t [Word<'a>]), Refusal> {
    let (name, rest) = identifier(keyword(words, b"RULE")?)?;
    let (entities, rest) = names(alloc, symbol(keyword(rest, b"FOR")?, b'(')?)?;
    let rest = symbol(symbol(rest, b')')?, b';')?;
    let (block, rest) = block(alloc, rest, DEEPEST)?;
    let (rules, rest) = some_rules(alloc, rest)?;
    let rule = GlobalRule {
        name,
        entities,
        block,
        rules,
    };
    Ok((rule, end(rest, b"END_RULE")?))
}
