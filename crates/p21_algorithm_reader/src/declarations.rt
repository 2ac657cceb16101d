//! Parameters, variables, constants and derived attributes.

use crate::names::{end, identifier, names, value};
use crate::types::type_tree;
use p21_algorithm::{ConstantTree, Derived, Parameters, TypeTree, Variables};
use p21_express::{Refusal, Word, begins_name, begins_symbol, if_name, keyword, symbol};
use p21_expression::{Expression, Name, named};
use std::alloc::Global;

/// A colon and the type after it.
pub(crate) fn typed<'t, 'a>(
    alloc: Global,
    words: &'t [Word<'a>],
) -> Result<(TypeTree<'a>, &'t [Word<'a>]), Refusal> {
    type_tree(alloc, symbol(words, b':')?)
}

// ---- parameters

/// Whether VAR stands there, which it may in a procedure alone, and the words after it.
fn if_variable<'t, 'a>(is_procedure: bool, words: &'t [Word<'a>]) -> (bool, &'t [Word<'a>]) {
    if is_procedure {
        return if_name(words, b"VAR");
    }
    (false, words)
}

/// Parameters of one type.
fn parameters<'t, 'a>(
    alloc: Global,
    is_procedure: bool,
    words: &'t [Word<'a>],
) -> Result<(Parameters<'a>, &'t [Word<'a>]), Refusal> {
    let (is_variable, rest) = if_variable(is_procedure, words);
    let (names, rest) = names(alloc, rest)?;
    let (of, rest) = typed(alloc, rest)?;
    let parameters = Parameters {
        is_variable,
        names,
        of,
    };
    Ok((parameters, rest))
}

/// Whether no semicolon stands there.
fn ends_parameters(words: &[Word]) -> bool {
    !begins_symbol(words, b';')
}

/// A semicolon and the parameters after it.
fn next_parameters<'t, 'a>(
    alloc: Global,
    is_procedure: bool,
    words: &'t [Word<'a>],
) -> Result<(Parameters<'a>, &'t [Word<'a>]), Refusal> {
    parameters(alloc, is_procedure, symbol(words, b';')?)
}

/// Parameters with semicolons between them, of one type at least.
fn some_parameters<'t, 'a>(
    alloc: Global,
    is_procedure: bool,
    words: &'t [Word<'a>],
) -> Result<(Vec<Parameters<'a>>, &'t [Word<'a>]), Refusal> {
    let (first, mut rest) = parameters(alloc, is_procedure, words)?;
    let mut groups = Vec::new(alloc);
    groups.push(first)?;
    for _ in 0..=words.len() {
        if ends_parameters(rest) {
            return Ok((groups, rest));
        }
        let (next, behind) = next_parameters(alloc, is_procedure, rest)?;
        groups.push(next)?;
        rest = behind;
    }
    Err(Refusal::syntax(0))
}

/// The parameters of a function or a procedure, in parentheses, or none where no parenthesis stands there.
pub(crate) fn if_parameters<'t, 'a>(
    alloc: Global,
    is_procedure: bool,
    words: &'t [Word<'a>],
) -> Result<(Vec<Parameters<'a>>, &'t [Word<'a>]), Refusal> {
    if begins_symbol(words, b'(') {
        let (parameters, rest) = some_parameters(alloc, is_procedure, symbol(words, b'(')?)?;
        return Ok((parameters, symbol(rest, b')')?));
    }
    Ok((Vec::new(alloc), words))
}

// ---- variables

/// A value after `:=`, where it is there.
fn if_value<'t, 'a>(
    alloc: Global,
    words: &'t [Word<'a>],
) -> Result<(Option<Expression<'a>>, &'t [Word<'a>]), Refusal> {
    if begins_symbol(words, b':') {
        let (value, rest) = value(alloc, words)?;
        return Ok((Some(value), rest));
    }
    Ok((None, words))
}

/// Variables of one type.
fn variables<'t, 'a>(
    alloc: Global,
    words: &'t [Word<'a>],
) -> Result<(Variables<'a>, &'t [Word<'a>]), Refusal> {
    let (names, rest) = names(alloc, words)?;
    let (of, rest) = typed(alloc, rest)?;
    let (value, rest) = if_value(alloc, rest)?;
    let variables = Variables { names, of, value };
    Ok((variables, symbol(rest, b';')?))
}

/// Variables up to END_LOCAL.
fn all_variables<'t, 'a>(
    alloc: Global,
    words: &'t [Word<'a>],
) -> Result<(Vec<Variables<'a>>, &'t [Word<'a>]), Refusal> {
    let (_, mut rest) = words.split_at(0);
    let mut groups = Vec::new(alloc);
    for _ in 0..=words.len() {
        if begins_name(rest, b"END_LOCAL") {
            return Ok((groups, rest));
        }
        let (next, behind) = variables(alloc, rest)?;
        groups.push(next)?;
        rest = behind;
    }
    Err(Refusal::syntax(0))
}

/// LOCAL and its variables, one or more.
fn locals<'t, 'a>(
    alloc: Global,
    words: &'t [Word<'a>],
) -> Result<(Vec<Variables<'a>>, &'t [Word<'a>]), Refusal> {
    let rest = keyword(words, b"LOCAL")?;
    if begins_name(rest, b"END_LOCAL") {
        return Err(Refusal::syntax(rest.len()));
    }
    let (groups, rest) = all_variables(alloc, rest)?;
    Ok((groups, end(rest, b"END_LOCAL")?))
}

/// The variables of LOCAL, or none where it does not stand there.
pub(crate) fn if_locals<'t, 'a>(
    alloc: Global,
    words: &'t [Word<'a>],
) -> Result<(Vec<Variables<'a>>, &'t [Word<'a>]), Refusal> {
    if begins_name(words, b"LOCAL") {
        return locals(alloc, words);
    }
    Ok((Vec::new(alloc), words))
}

// ---- constants

/// A constant and its semicolon.
pub(crate) fn constant<'t, 'a>(
    alloc: Global,
    words: &'t [Word<'a>],
) -> Result<(ConstantTree<'a>, &'t [Word<'a>]), Refusal> {
    let (name, rest) = identifier(words)?;
    let (of, rest) = typed(alloc, rest)?;
    let (value, rest) = value(alloc, rest)?;
    let constant = ConstantTree { name, of, value };
    Ok((constant, symbol(rest, b';')?))
}

/// Constants up to END_CONSTANT.
fn all_constants<'t, 'a>(
    alloc: Global,
    words: &'t [Word<'a>],
) -> Result<(Vec<ConstantTree<'a>>, &'t [Word<'a>]), Refusal> {
    let (_, mut rest) = words.split_at(0);
    let mut constants = Vec::new(alloc);
    for _ in 0..=words.len() {
        if begins_name(rest, b"END_CONSTANT") {
            return Ok((constants, rest));
        }
        let (next, behind) = constant(alloc, rest)?;
        constants.push(next)?;
        rest = behind;
    }
    Err(Refusal::syntax(0))
}

/// CONSTANT and its constants, one or more.
fn constants<'t, 'a>(
    alloc: Global,
    words: &'t [Word<'a>],
) -> Result<(Vec<ConstantTree<'a>>, &'t [Word<'a>]), Refusal> {
    let rest = keyword(words, b"CONSTANT")?;
    if begins_name(rest, b"END_CONSTANT") {
        return Err(Refusal::syntax(rest.len()));
    }
    let (constants, rest) = all_constants(alloc, rest)?;
    Ok((constants, end(rest, b"END_CONSTANT")?))
}

/// The constants of CONSTANT, or none where it does not stand there.
pub(crate) fn if_constants<'t, 'a>(
    alloc: Global,
    words: &'t [Word<'a>],
) -> Result<(Vec<ConstantTree<'a>>, &'t [Word<'a>]), Refusal> {
    if begins_name(words, b"CONSTANT") {
        return constants(alloc, words);
    }
    Ok((Vec::new(alloc), words))
}

// ---- derived attributes

/// How an attribute is named where it is declared.
#[derive(Clone, Copy)]
pub(crate) struct Naming<'a> {
    /// The entity after SELF, where the attribute is declared again.
    redeclared_of: Option<Name<'a>>,
    name: Name<'a>,
    /// The name after RENAMED.
    renamed: Option<Name<'a>>,
}

/// The name after RENAMED, where that word stands there.
fn if_renamed<'t, 'a>(
    words: &'t [Word<'a>],
) -> Result<(Option<Name<'a>>, &'t [Word<'a>]), Refusal> {
    if begins_name(words, b"RENAMED") {
        let (renamed, rest) = named(keyword(words, b"RENAMED")?)?;
        return Ok((Some(renamed), rest));
    }
    Ok((None, words))
}

/// An attribute that is declared again.
fn redeclared<'t, 'a>(words: &'t [Word<'a>]) -> Result<(Naming<'a>, &'t [Word<'a>]), Refusal> {
    let (entity, rest) = named(symbol(keyword(words, b"SELF")?, b'\\')?)?;
    let (name, rest) = named(symbol(rest, b'.')?)?;
    let (renamed, rest) = if_renamed(rest)?;
    let naming = Naming {
        redeclared_of: Some(entity),
        name,
        renamed,
    };
    Ok((naming, rest))
}

/// An attribute, newly declared or declared again.
fn attribute<'t, 'a>(words: &'t [Word<'a>]) -> Result<(Naming<'a>, &'t [Word<'a>]), Refusal> {
    if begins_name(words, b"SELF") {
        return redeclared(words);
    }
    let (name, rest) = named(words)?;
    let naming = Naming {
        redeclared_of: None,
        name,
        renamed: None,
    };
    Ok((naming, rest))
}

/// A derived attribute and its semicolon.
pub(crate) fn derived<'t, 'a>(
    alloc: Global,
    words: &'t [Word<'a>],
) -> Result<(Derived<'a>, &'t [Word<'a>]), Refusal> {
    let (naming, rest) = attribute(words)?;
    let (of, rest) = typed(alloc, rest)?;
    let (value, rest) = value(alloc, rest)?;
    let derived = Derived {
        redeclared_of: naming.redeclared_of,
        name: naming.name,
        renamed: naming.renamed,
        of,
        value,
    };
    Ok((derived, symbol(rest, b';')?))
}
