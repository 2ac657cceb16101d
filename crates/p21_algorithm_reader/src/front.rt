//! The pieces of a schema's text that have a form of their own: attributes, rules, constants, functions and procedures.

use p21_algorithm::{Owner, Part, Piece};
use p21_express::{DeclWord, Refusal, Word, begins_name, behind, decl_word, keyword, name, symbol};
use p21_expression::named;
use std::alloc::{AllocError, Global};

/// A part of an entity or of a type, or the constants of the schema: what each statement in it is to be.
#[derive(Clone, Copy)]
pub(crate) struct Section<'a> {
    owner: Owner<'a>,
    part: Part,
}

/// What stands at the front of a text.
#[derive(Clone, Copy)]
pub(crate) struct Step<'t, 'a> {
    piece: Option<Piece<'t, 'a>>,
    /// In which section the words after it stand. `None` where that is the schema.
    section: Option<Section<'a>>,
    rest: &'t [Word<'a>],
}

/// What a word says in a section.
#[derive(Clone, Copy)]
pub(crate) enum SectionWord {
    /// Another section begins.
    Begin(Part),
    /// The declaration ends.
    End,
    /// A statement begins.
    Statement,
}

fn section_word(word: Word) -> SectionWord {
    if word.is_name(b"DERIVE") {
        return SectionWord::Begin(Part::Derived);
    }
    if word.is_name(b"INVERSE") {
        return SectionWord::Begin(Part::Inverse);
    }
    if word.is_name(b"UNIQUE") {
        return SectionWord::Begin(Part::Unique);
    }
    if word.is_name(b"WHERE") {
        return SectionWord::Begin(Part::DomainRule);
    }
    if word.is_name(b"END_ENTITY") {
        return SectionWord::End;
    }
    if word.is_name(b"END_TYPE") {
        return SectionWord::End;
    }
    if word.is_name(b"END_CONSTANT") {
        return SectionWord::End;
    }
    SectionWord::Statement
}

/// The words after the next semicolon.
fn behind_semicolon<'t, 'a>(words: &'t [Word<'a>]) -> Result<&'t [Word<'a>], Refusal> {
    for place in 0..words.len() {
        if words[place].is_symbol(b';') {
            return Ok(&words[place + 1..]);
        }
    }
    Err(Refusal::syntax(0))
}

/// The words after a statement: behind its semicolon, or, where that is missing, from the end of the declaration on.
fn behind_statement<'t, 'a>(words: &'t [Word<'a>]) -> Result<&'t [Word<'a>], Refusal> {
    for place in 0..words.len() {
        if words[place].is_symbol(b';') {
            return Ok(&words[place + 1..]);
        }
        if place > 0 && is_end(words[place]) {
            return Ok(&words[place..]);
        }
    }
    Err(Refusal::syntax(0))
}

/// Whether a word ends a declaration.
fn is_end(word: Word) -> bool {
    matches!(section_word(word), SectionWord::End)
}

/// A statement of a section.
fn statement<'t, 'a>(section: Section<'a>, words: &'t [Word<'a>]) -> Result<Step<'t, 'a>, Refusal> {
    let rest = behind_statement(words)?;
    let piece = Piece {
        part: section.part,
        owner: section.owner,
        words,
        after: rest.len(),
    };
    Ok(Step {
        piece: Some(piece),
        section: Some(section),
        rest,
    })
}

/// What stands at the front within a section.
fn section_step<'t, 'a>(
    section: Section<'a>,
    words: &'t [Word<'a>],
) -> Result<Step<'t, 'a>, Refusal> {
    match words.split_first() {
        None => Err(Refusal::syntax(0)),
        Some((first, rest)) => match section_word(*first) {
            SectionWord::Begin(part) => Ok(Step {
                piece: None,
                section: Some(Section {
                    owner: section.owner,
                    part,
                }),
                rest,
            }),
            SectionWord::End => Ok(Step {
                piece: None,
                section: None,
                rest: symbol(rest, b';')?,
            }),
            SectionWord::Statement => statement(section, words),
        },
    }
}

/// A function, a procedure or a RULE, from its first word on, which `rest` follows.
fn algorithm<'t, 'a>(
    part: Part,
    words: &'t [Word<'a>],
    rest: &'t [Word<'a>],
    again: Option<&[u8]>,
    last: &[u8],
) -> Result<Step<'t, 'a>, Refusal> {
    let rest = symbol(behind(rest, again, last)?, b';')?;
    let piece = Piece {
        part,
        owner: Owner::Schema,
        words,
        after: rest.len(),
    };
    Ok(Step {
        piece: Some(piece),
        section: None,
        rest,
    })
}

/// The first statement of an entity, after that word.
fn entity<'t, 'a>(words: &'t [Word<'a>]) -> Result<Step<'t, 'a>, Refusal> {
    let (name, rest) = named(words)?;
    Ok(Step {
        piece: None,
        section: Some(Section {
            owner: Owner::Entity(name),
            part: Part::Explicit,
        }),
        rest: behind_semicolon(rest)?,
    })
}

/// The first statement of a type, after that word.
fn defined_type<'t, 'a>(words: &'t [Word<'a>]) -> Result<Step<'t, 'a>, Refusal> {
    let (name, rest) = named(words)?;
    Ok(Step {
        piece: None,
        section: Some(Section {
            owner: Owner::Type(name),
            part: Part::DomainRule,
        }),
        rest: behind_semicolon(rest)?,
    })
}

/// What stands at the front where a declaration begins.
fn declaration<'t, 'a>(words: &'t [Word<'a>]) -> Result<Step<'t, 'a>, Refusal> {
    let (first, rest) = name(words)?;
    match decl_word(first) {
        DeclWord::Entity => entity(rest),
        DeclWord::Type => defined_type(rest),
        DeclWord::Function => algorithm(
            Part::Function,
            words,
            rest,
            Some(b"FUNCTION"),
            b"END_FUNCTION",
        ),
        DeclWord::Procedure => algorithm(
            Part::Procedure,
            words,
            rest,
            Some(b"PROCEDURE"),
            b"END_PROCEDURE",
        ),
        DeclWord::Rule => algorithm(Part::GlobalRule, words, rest, None, b"END_RULE"),
        DeclWord::Constant => Ok(Step {
            piece: None,
            section: Some(Section {
                owner: Owner::Schema,
                part: Part::Constant,
            }),
            rest,
        }),
        DeclWord::Unsupported => Err(Refusal::syntax(words.len())),
        DeclWord::Unknown => Err(Refusal::syntax(words.len())),
    }
}

/// What stands at the front.
fn next_step<'t, 'a>(
    section: Option<Section<'a>>,
    words: &'t [Word<'a>],
) -> Result<Step<'t, 'a>, Refusal> {
    match section {
        Some(section) => section_step(section, words),
        None => declaration(words),
    }
}

/// Whether the schema ends there.
fn is_done(section: Option<Section>, words: &[Word]) -> bool {
    match section {
        Some(_) => false,
        None => begins_name(words, b"END_SCHEMA"),
    }
}

/// Adds a piece, where there is one.
fn push<'t, 'a>(
    pieces: &mut Vec<Piece<'t, 'a>>,
    piece: Option<Piece<'t, 'a>>,
) -> Result<(), AllocError> {
    if let Some(piece) = piece {
        pieces.push(piece)?;
    }
    Ok(())
}

/// The pieces of all declarations.
fn pieces_from<'t, 'a>(
    alloc: Global,
    words: &'t [Word<'a>],
) -> Result<Vec<Piece<'t, 'a>>, Refusal> {
    let (_, mut rest) = words.split_at(0);
    let mut section = None;
    let mut pieces = Vec::new(alloc);
    for _ in 0..=words.len() {
        if is_done(section, rest) {
            return Ok(pieces);
        }
        let next = next_step(section, rest)?;
        push(&mut pieces, next.piece)?;
        section = next.section;
        rest = next.rest;
    }
    Err(Refusal::syntax(0))
}

/// The pieces of a schema, in the order of its text. A text whose declarations do not end, or in which something stands where a declaration is to
/// begin, is refused as `Syntax`; a schema that `read_declarations` takes is not.
pub fn pieces<'t, 'a>(alloc: Global, words: &'t [Word<'a>]) -> Result<Vec<Piece<'t, 'a>>, Refusal> {
    let (_, rest) = name(keyword(words, b"SCHEMA")?)?;
    pieces_from(alloc, symbol(rest, b';')?)
}
