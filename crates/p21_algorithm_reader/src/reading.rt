//! The rules and algorithms of a schema.

use crate::declarations::{constant, derived};
use crate::front::pieces;
use crate::routines::{global_rule, routine};
use p21_algorithm::{Found, Item, Part, Piece, SchemaRules, Span};
use p21_express::{Refusal, Word};
use p21_expression::domain_rule;
use std::alloc::{AllocError, Global};

/// Whether pieces that are to be such a part are read.
fn is_read(part: Part) -> bool {
    match part {
        Part::Explicit => false,
        Part::Derived => true,
        Part::Inverse => false,
        Part::Unique => false,
        Part::DomainRule => true,
        Part::Constant => true,
        Part::Function => true,
        Part::Procedure => true,
        Part::GlobalRule => true,
    }
}

/// What words say that are to be such a part, and the words after it.
fn item<'t, 'a>(
    alloc: Global,
    part: Part,
    words: &'t [Word<'a>],
) -> Result<(Item<'a>, &'t [Word<'a>]), Refusal> {
    match part {
        Part::Explicit => Err(Refusal::syntax(words.len())),
        Part::Derived => {
            let (derived, rest) = derived(alloc, words)?;
            Ok((Item::Derived(derived), rest))
        }
        Part::Inverse => Err(Refusal::syntax(words.len())),
        Part::Unique => Err(Refusal::syntax(words.len())),
        Part::DomainRule => {
            let (rule, rest) = domain_rule(alloc, words)?;
            Ok((Item::DomainRule(rule), rest))
        }
        Part::Constant => {
            let (constant, rest) = constant(alloc, words)?;
            Ok((Item::Constant(constant), rest))
        }
        Part::Function => {
            let (routine, rest) = routine(alloc, words)?;
            Ok((Item::Routine(routine), rest))
        }
        Part::Procedure => {
            let (routine, rest) = routine(alloc, words)?;
            Ok((Item::Routine(routine), rest))
        }
        Part::GlobalRule => {
            let (rule, rest) = global_rule(alloc, words)?;
            Ok((Item::GlobalRule(rule), rest))
        }
    }
}

/// What a piece says, where it is wholly that.
fn whole_item<'a>(alloc: Global, piece: Piece<'_, 'a>) -> Result<Item<'a>, Refusal> {
    let (item, rest) = item(alloc, piece.part, piece.words)?;
    if rest.len() != piece.after {
        return Err(Refusal::syntax(rest.len()));
    }
    Ok(item)
}

/// What a piece says, or that it has no reading.
fn item_or_none<'a>(alloc: Global, piece: Piece<'_, 'a>) -> Result<Item<'a>, AllocError> {
    match whole_item(alloc, piece) {
        Ok(item) => Ok(item),
        Err(Refusal::Refused(kind, place)) => Ok(Item::PassedOver(piece.part, kind, place)),
        Err(Refusal::Memory) => Err(AllocError),
    }
}

/// What is found of a piece.
fn found<'a>(alloc: Global, piece: Piece<'_, 'a>) -> Result<Found<'a>, AllocError> {
    Ok(Found {
        owner: piece.owner,
        span: Span {
            from: piece.words.len(),
            to: piece.after,
        },
        item: item_or_none(alloc, piece)?,
    })
}

/// Adds what is found of a piece, where it is read.
fn push_found<'a>(
    alloc: Global,
    all: &mut Vec<Found<'a>>,
    piece: Piece<'_, 'a>,
) -> Result<(), AllocError> {
    if is_read(piece.part) {
        all.push(found(alloc, piece)?)?;
    }
    Ok(())
}

/// What is found of pieces.
fn all_found<'a>(alloc: Global, pieces: &[Piece<'_, 'a>]) -> Result<Vec<Found<'a>>, AllocError> {
    let mut all = Vec::new(alloc);
    for piece in pieces {
        push_found(alloc, &mut all, *piece)?;
    }
    Ok(all)
}

/// The rules and algorithms of a schema, by the words of its text in upper case, in the order of the text: of entities and types the rules of WHERE,
/// the attributes of DERIVE, and the constants, functions, procedures and RULEs of the schema. What has no reading by the grammar is passed over and
/// told as that. The rest of the schema is not read but for where its parts begin and end: a text without this is refused as `Syntax`, and one that
/// `read_declarations` takes is not.
pub fn rules_of<'a>(alloc: Global, words: &[Word<'a>]) -> Result<SchemaRules<'a>, Refusal> {
    let pieces = pieces(alloc, words)?;
    let found = all_found(alloc, &pieces)?;
    Ok(SchemaRules { found })
}
