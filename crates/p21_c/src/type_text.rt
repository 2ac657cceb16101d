//! Types as EXPRESS writes them.

use crate::held::HeldSchema;
use itoa::Buffer;
use p21_express::{TypeExpr, Under};
use p21_schema::{Bounds, ResolvedExpr, Target, Width};
use p21_spelling::Spellings;
use std::alloc::AllocError;

/// Adds the type of an attribute, with names as the text of the schema spells them.
pub(crate) fn push_resolved(
    text: &mut Vec<u8>,
    spellings: &Spellings,
    texpr: &ResolvedExpr,
) -> Result<(), AllocError> {
    match texpr {
        ResolvedExpr::Integer => text.extend_from_slice(b"INTEGER"),
        ResolvedExpr::Number => text.extend_from_slice(b"NUMBER"),
        ResolvedExpr::Boolean => text.extend_from_slice(b"BOOLEAN"),
        ResolvedExpr::Logical => text.extend_from_slice(b"LOGICAL"),
        ResolvedExpr::Real => text.extend_from_slice(b"REAL"),
        ResolvedExpr::Text(width) => push_width(text, b"STRING", *width),
        ResolvedExpr::Binary(width) => push_width(text, b"BINARY", *width),
        ResolvedExpr::Array {
            bounds,
            optional,
            item,
        } => {
            push_aggregate(text, b"ARRAY", *bounds, optional_word(*optional))?;
            push_resolved(text, spellings, item)
        }
        ResolvedExpr::List {
            bounds,
            unique,
            item,
        } => {
            push_aggregate(text, b"LIST", *bounds, unique_word(*unique))?;
            push_resolved(text, spellings, item)
        }
        ResolvedExpr::Set { bounds, item } => {
            push_aggregate(text, b"SET", *bounds, b"")?;
            push_resolved(text, spellings, item)
        }
        ResolvedExpr::Bag { bounds, item } => {
            push_aggregate(text, b"BAG", *bounds, b"")?;
            push_resolved(text, spellings, item)
        }
        ResolvedExpr::Named(target) => push_target(text, spellings, *target),
    }
}

/// Adds what stands under a type.
pub(crate) fn push_under(
    text: &mut Vec<u8>,
    held: &HeldSchema,
    under: &Under,
) -> Result<(), AllocError> {
    match under {
        Under::Items(items) => {
            text.extend_from_slice(b"ENUMERATION OF ")?;
            push_items(text, items)
        }
        Under::Select(items) => {
            text.extend_from_slice(b"SELECT ")?;
            push_names(text, held, items)
        }
        Under::Plain(texpr) => push_type(text, held, texpr),
    }
}

/// Adds a type.
fn push_type(text: &mut Vec<u8>, held: &HeldSchema, texpr: &TypeExpr) -> Result<(), AllocError> {
    match texpr {
        TypeExpr::Integer => text.extend_from_slice(b"INTEGER"),
        TypeExpr::Number => text.extend_from_slice(b"NUMBER"),
        TypeExpr::Boolean => text.extend_from_slice(b"BOOLEAN"),
        TypeExpr::Logical => text.extend_from_slice(b"LOGICAL"),
        TypeExpr::Real => text.extend_from_slice(b"REAL"),
        TypeExpr::Text(width) => push_width(text, b"STRING", *width),
        TypeExpr::Binary(width) => push_width(text, b"BINARY", *width),
        TypeExpr::Array {
            bounds,
            optional,
            item,
        } => {
            push_aggregate(text, b"ARRAY", *bounds, optional_word(*optional))?;
            push_type(text, held, item)
        }
        TypeExpr::List {
            bounds,
            unique,
            item,
        } => {
            push_aggregate(text, b"LIST", *bounds, unique_word(*unique))?;
            push_type(text, held, item)
        }
        TypeExpr::Set { bounds, item } => {
            push_aggregate(text, b"SET", *bounds, b"")?;
            push_type(text, held, item)
        }
        TypeExpr::Bag { bounds, item } => {
            push_aggregate(text, b"BAG", *bounds, b"")?;
            push_type(text, held, item)
        }
        TypeExpr::Named(name) => push_name(text, held, name),
    }
}

/// Adds the name of what a type stands for.
fn push_target(
    text: &mut Vec<u8>,
    spellings: &Spellings,
    target: Target,
) -> Result<(), AllocError> {
    let found = match target {
        Target::Entity(entity) => spellings.entities.get(entity.place()),
        Target::Defined(defined) => spellings.types.get(defined.place()),
    };
    match found {
        Some(name) => text.extend_from_slice(name),
        None => Ok(()),
    }
}

/// Adds a name, as the text of the schema spells it where it declares it.
fn push_name(text: &mut Vec<u8>, held: &HeldSchema, name: &[u8]) -> Result<(), AllocError> {
    if let Some(entity) = held.schema.entity(name) {
        return push_target(text, &held.spellings, Target::Entity(entity));
    }
    match held.schema.type_named(name) {
        Some(defined) => push_target(text, &held.spellings, Target::Defined(defined)),
        None => text.extend_from_slice(name),
    }
}

/// Adds names in parentheses, as the text of the schema spells them.
fn push_names(text: &mut Vec<u8>, held: &HeldSchema, names: &[Vec<u8>]) -> Result<(), AllocError> {
    text.extend_from_slice(b"(")?;
    for (place, name) in names.iter().enumerate() {
        push_comma(text, place)?;
        push_name(text, held, name)?;
    }
    text.extend_from_slice(b")")
}

/// Adds items in parentheses.
fn push_items(text: &mut Vec<u8>, items: &[Vec<u8>]) -> Result<(), AllocError> {
    text.extend_from_slice(b"(")?;
    for (place, item) in items.iter().enumerate() {
        push_comma(text, place)?;
        text.extend_from_slice(item)?;
    }
    text.extend_from_slice(b")")
}

/// Adds what stands before the element of this place, but the first.
fn push_comma(text: &mut Vec<u8>, place: usize) -> Result<(), AllocError> {
    text.extend_from_slice(if place == 0 { b"" } else { b", " })
}

/// What stands before the type of the elements of an ARRAY whose elements may be left out.
fn optional_word(optional: bool) -> &'static [u8] {
    if optional { b"OPTIONAL " } else { b"" }
}

/// What stands before the type of the elements of a LIST of which no two may be equal.
fn unique_word(unique: bool) -> &'static [u8] {
    if unique { b"UNIQUE " } else { b"" }
}

/// Adds an aggregate up to the type of its elements.
fn push_aggregate(
    text: &mut Vec<u8>,
    word: &[u8],
    bounds: Bounds,
    of: &[u8],
) -> Result<(), AllocError> {
    text.extend_from_slice(word)?;
    text.extend_from_slice(b" [")?;
    push_bound(text, bounds.low)?;
    text.extend_from_slice(b":")?;
    push_bound(text, bounds.high)?;
    text.extend_from_slice(b"] OF ")?;
    text.extend_from_slice(of)
}

/// Adds a bound; `?` where it is not checked.
fn push_bound(text: &mut Vec<u8>, bound: Option<i64>) -> Result<(), AllocError> {
    match bound {
        Some(bound) => text.extend_from_slice(Buffer::new().format(bound).as_bytes()),
        None => text.extend_from_slice(b"?"),
    }
}

/// Adds a STRING or a BINARY of a width.
fn push_width(text: &mut Vec<u8>, word: &[u8], width: Width) -> Result<(), AllocError> {
    text.extend_from_slice(word)?;
    let Some(count) = width.count else {
        return Ok(());
    };
    text.extend_from_slice(b"(")?;
    text.extend_from_slice(Buffer::new().format(count).as_bytes())?;
    text.extend_from_slice(if width.fixed { b") FIXED" } else { b")" })
}
