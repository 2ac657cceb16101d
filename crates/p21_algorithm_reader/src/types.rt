//! The types of parameters, variables, constants and derived attributes.

use crate::names::identifier;
use p21_algorithm::{AggregateKind, Bounds, Layer, SimpleType, TypeTree, Width};
use p21_express::{Kind, Refusal, Word, begins_symbol, if_name, keyword, symbol};
use p21_expression::{Name, is_reserved, named, simple_expression};
use std::alloc::Global;

/// The most types that may stand within one another.
pub(crate) const DEEPEST: usize = 256;

/// What a word says where a type begins.
#[derive(Clone, Copy)]
pub(crate) enum TypeWord {
    Simple(SimpleType),
    Aggregation(AggregateKind),
    Aggregate,
    Generic,
    GenericEntity,
    /// A name.
    Plain,
}

fn type_word(word: &[u8]) -> TypeWord {
    if word == b"BINARY".as_slice() {
        return TypeWord::Simple(SimpleType::Binary);
    }
    if word == b"BOOLEAN".as_slice() {
        return TypeWord::Simple(SimpleType::Boolean);
    }
    if word == b"INTEGER".as_slice() {
        return TypeWord::Simple(SimpleType::Integer);
    }
    if word == b"LOGICAL".as_slice() {
        return TypeWord::Simple(SimpleType::Logical);
    }
    if word == b"NUMBER".as_slice() {
        return TypeWord::Simple(SimpleType::Number);
    }
    if word == b"REAL".as_slice() {
        return TypeWord::Simple(SimpleType::Real);
    }
    if word == b"STRING".as_slice() {
        return TypeWord::Simple(SimpleType::Text);
    }
    if word == b"ARRAY".as_slice() {
        return TypeWord::Aggregation(AggregateKind::Array);
    }
    if word == b"BAG".as_slice() {
        return TypeWord::Aggregation(AggregateKind::Bag);
    }
    if word == b"LIST".as_slice() {
        return TypeWord::Aggregation(AggregateKind::List);
    }
    if word == b"SET".as_slice() {
        return TypeWord::Aggregation(AggregateKind::Set);
    }
    if word == b"AGGREGATE".as_slice() {
        return TypeWord::Aggregate;
    }
    if word == b"GENERIC".as_slice() {
        return TypeWord::Generic;
    }
    if word == b"GENERIC_ENTITY".as_slice() {
        return TypeWord::GenericEntity;
    }
    TypeWord::Plain
}

/// Whether a width or a precision may stand after a type.
fn may_have_width(simple: SimpleType) -> bool {
    match simple {
        SimpleType::Binary => true,
        SimpleType::Boolean => false,
        SimpleType::Integer => false,
        SimpleType::Logical => false,
        SimpleType::Number => false,
        SimpleType::Real => true,
        SimpleType::Text => true,
    }
}

/// Whether FIXED stands after a width, and the words after it. After a precision it does not fit.
fn if_fixed<'t, 'a>(simple: SimpleType, words: &'t [Word<'a>]) -> (bool, &'t [Word<'a>]) {
    match simple {
        SimpleType::Binary => if_name(words, b"FIXED"),
        SimpleType::Boolean => (false, words),
        SimpleType::Integer => (false, words),
        SimpleType::Logical => (false, words),
        SimpleType::Number => (false, words),
        SimpleType::Real => (false, words),
        SimpleType::Text => if_name(words, b"FIXED"),
    }
}

/// A width or a precision.
fn width<'t, 'a>(
    alloc: Global,
    simple: SimpleType,
    words: &'t [Word<'a>],
) -> Result<(Width<'a>, &'t [Word<'a>]), Refusal> {
    let (count, rest) = simple_expression(alloc, symbol(words, b'(')?)?;
    let (is_fixed, rest) = if_fixed(simple, symbol(rest, b')')?);
    Ok((Width { count, is_fixed }, rest))
}

/// A width or a precision, where one stands there and may.
fn if_width<'t, 'a>(
    alloc: Global,
    simple: SimpleType,
    words: &'t [Word<'a>],
) -> Result<(Option<Width<'a>>, &'t [Word<'a>]), Refusal> {
    if may_have_width(simple) && begins_symbol(words, b'(') {
        let (width, rest) = width(alloc, simple, words)?;
        return Ok((Some(width), rest));
    }
    Ok((None, words))
}

/// The bounds of an aggregate.
fn bounds<'t, 'a>(
    alloc: Global,
    words: &'t [Word<'a>],
) -> Result<(Bounds<'a>, &'t [Word<'a>]), Refusal> {
    let (low, rest) = simple_expression(alloc, symbol(words, b'[')?)?;
    let (high, rest) = simple_expression(alloc, symbol(rest, b':')?)?;
    Ok((Bounds { low, high }, symbol(rest, b']')?))
}

/// The bounds of an aggregate, where it has some.
fn if_bounds<'t, 'a>(
    alloc: Global,
    words: &'t [Word<'a>],
) -> Result<(Option<Bounds<'a>>, &'t [Word<'a>]), Refusal> {
    if begins_symbol(words, b'[') {
        let (bounds, rest) = bounds(alloc, words)?;
        return Ok((Some(bounds), rest));
    }
    Ok((None, words))
}

/// Whether OPTIONAL stands there, which it may in an ARRAY alone, and the words after it.
fn if_optional<'t, 'a>(kind: AggregateKind, words: &'t [Word<'a>]) -> (bool, &'t [Word<'a>]) {
    match kind {
        AggregateKind::Array => if_name(words, b"OPTIONAL"),
        AggregateKind::Bag => (false, words),
        AggregateKind::List => (false, words),
        AggregateKind::Set => (false, words),
    }
}

/// Whether UNIQUE stands there, which it may in an ARRAY and a LIST alone, and the words after it.
fn if_unique<'t, 'a>(kind: AggregateKind, words: &'t [Word<'a>]) -> (bool, &'t [Word<'a>]) {
    match kind {
        AggregateKind::Array => if_name(words, b"UNIQUE"),
        AggregateKind::Bag => (false, words),
        AggregateKind::List => if_name(words, b"UNIQUE"),
        AggregateKind::Set => (false, words),
    }
}

/// What stands between the first word of an aggregate and its elements' type.
fn layer<'t, 'a>(
    alloc: Global,
    kind: AggregateKind,
    words: &'t [Word<'a>],
) -> Result<(Layer<'a>, &'t [Word<'a>]), Refusal> {
    let (bounds, rest) = if_bounds(alloc, words)?;
    let (is_optional, rest) = if_optional(kind, keyword(rest, b"OF")?);
    let (is_unique, rest) = if_unique(kind, rest);
    let layer = Layer {
        kind,
        bounds,
        is_optional,
        is_unique,
    };
    Ok((layer, rest))
}

/// Whether a colon stands there that does not begin `:=`.
fn begins_label(words: &[Word]) -> bool {
    match words {
        [colon, rest @ ..] => colon.is_symbol(b':') && !begins_symbol(rest, b'='),
        _ => false,
    }
}

/// The label of a type, where it has one.
fn if_label<'t, 'a>(words: &'t [Word<'a>]) -> Result<(Option<Name<'a>>, &'t [Word<'a>]), Refusal> {
    if begins_label(words) {
        let (label, rest) = identifier(symbol(words, b':')?)?;
        return Ok((Some(label), rest));
    }
    Ok((None, words))
}

/// A type that is no aggregate and no generic one, after its first word.
fn simple<'t, 'a>(
    alloc: Global,
    simple: SimpleType,
    words: &'t [Word<'a>],
) -> Result<(TypeTree<'a>, &'t [Word<'a>]), Refusal> {
    let (width, rest) = if_width(alloc, simple, words)?;
    Ok((TypeTree::Simple(simple, width), rest))
}

/// GENERIC after that word.
fn generic<'t, 'a>(words: &'t [Word<'a>]) -> Result<(TypeTree<'a>, &'t [Word<'a>]), Refusal> {
    let (label, rest) = if_label(words)?;
    Ok((TypeTree::Generic(label), rest))
}

/// GENERIC_ENTITY after that word.
fn generic_entity<'t, 'a>(
    words: &'t [Word<'a>],
) -> Result<(TypeTree<'a>, &'t [Word<'a>]), Refusal> {
    let (label, rest) = if_label(words)?;
    Ok((TypeTree::GenericEntity(label), rest))
}

/// A name of a type.
fn by_name<'t, 'a>(
    name: Name<'a>,
    words: &'t [Word<'a>],
) -> Result<(TypeTree<'a>, &'t [Word<'a>]), Refusal> {
    if is_reserved(name.text) {
        return Err(Refusal::syntax(name.place));
    }
    Ok((TypeTree::Named(name), words))
}

/// A type.
pub(crate) fn type_tree<'t, 'a>(
    alloc: Global,
    words: &'t [Word<'a>],
) -> Result<(TypeTree<'a>, &'t [Word<'a>]), Refusal> {
    type_within(alloc, words, DEEPEST)
}

/// A type, where so many types may still stand within one another.
#[cycle(types)]
fn type_within<'t, 'a>(
    alloc: Global,
    words: &'t [Word<'a>],
    left: usize,
) -> Result<(TypeTree<'a>, &'t [Word<'a>]), Refusal> {
    if left == 0 {
        return Err(Refusal::Refused(Kind::NotSupported, words.len()));
    }
    type_by(alloc, words, left - 1)
}

#[cycle(types)]
fn type_by<'t, 'a>(
    alloc: Global,
    words: &'t [Word<'a>],
    left: usize,
) -> Result<(TypeTree<'a>, &'t [Word<'a>]), Refusal> {
    let (name, rest) = named(words)?;
    match type_word(name.text) {
        TypeWord::Simple(word) => simple(alloc, word, rest),
        TypeWord::Aggregation(kind) => aggregation(alloc, kind, rest, left),
        TypeWord::Aggregate => aggregate(alloc, rest, left),
        TypeWord::Generic => generic(rest),
        TypeWord::GenericEntity => generic_entity(rest),
        TypeWord::Plain => by_name(name, rest),
    }
}

/// ARRAY, BAG, LIST or SET, after that word.
#[cycle(types)]
fn aggregation<'t, 'a>(
    alloc: Global,
    kind: AggregateKind,
    words: &'t [Word<'a>],
    left: usize,
) -> Result<(TypeTree<'a>, &'t [Word<'a>]), Refusal> {
    let (layer, rest) = layer(alloc, kind, words)?;
    let (element, rest) = type_within(alloc, rest, left)?;
    Ok((
        TypeTree::Aggregation(layer, Box::new(alloc, element)?),
        rest,
    ))
}

/// AGGREGATE, after that word.
#[cycle(types)]
fn aggregate<'t, 'a>(
    alloc: Global,
    words: &'t [Word<'a>],
    left: usize,
) -> Result<(TypeTree<'a>, &'t [Word<'a>]), Refusal> {
    let (label, rest) = if_label(words)?;
    let (element, rest) = type_within(alloc, keyword(rest, b"OF")?, left)?;
    Ok((TypeTree::Aggregate(label, Box::new(alloc, element)?), rest))
}
