//! Types in EXPRESS.

use crate::explained::Subject;
use p21_express::{Declarations, TypeDecl, TypeExpr, Under};
use p21_printed::{Said, article};
use p21_schema::{Bounds, Resolved, ResolvedExpr, Schema, Width};
use std::alloc::AllocError;

/// The most names of a list that a sentence gives.
const MOST_NAMES: usize = 24;

/// Adds a type as EXPRESS writes it.
pub(crate) fn say_type(
    said: &mut Said,
    subject: Subject<'_>,
    texpr: &TypeExpr,
) -> Result<(), AllocError> {
    let (word, bounds, item) = match texpr {
        TypeExpr::Integer => return said.say("INTEGER"),
        TypeExpr::Number => return said.say("NUMBER"),
        TypeExpr::Boolean => return said.say("BOOLEAN"),
        TypeExpr::Logical => return said.say("LOGICAL"),
        TypeExpr::Real => return said.say("REAL"),
        TypeExpr::Text(width) => return say_width(said, "STRING", *width),
        TypeExpr::Binary(width) => return say_width(said, "BINARY", *width),
        TypeExpr::Array { bounds, item, .. } => ("ARRAY", bounds, item),
        TypeExpr::List { bounds, item, .. } => ("LIST", bounds, item),
        TypeExpr::Set { bounds, item, .. } => ("SET", bounds, item),
        TypeExpr::Bag { bounds, item, .. } => ("BAG", bounds, item),
        TypeExpr::Named(name) => return said.say(subject.name(name)),
    };
    let of = match texpr {
        TypeExpr::Array { optional: true, .. } => " OF OPTIONAL ",
        TypeExpr::List { unique: true, .. } => " OF UNIQUE ",
        _ => " OF ",
    };
    say_aggregate(said, word, *bounds, of)?;
    say_type(said, subject, item)
}

/// Adds a STRING or a BINARY of a width.
fn say_width(said: &mut Said, word: &str, width: Width) -> Result<(), AllocError> {
    said.say(word)?;
    let Some(count) = width.count else {
        return Ok(());
    };
    let behind = if width.fixed { ") FIXED" } else { ")" };
    said.say(("(", count, behind))
}

/// Adds an aggregate up to its elements.
fn say_aggregate(
    said: &mut Said,
    word: &'static str,
    bounds: Bounds,
    of: &'static str,
) -> Result<(), AllocError> {
    said.say((word, " ["))?;
    say_bound(said, bounds.low)?;
    said.say(":")?;
    say_bound(said, bounds.high)?;
    said.say(("]", of))
}

/// Adds a bound; `?` where it is not checked.
fn say_bound(said: &mut Said, bound: Option<i64>) -> Result<(), AllocError> {
    match bound {
        Some(bound) => said.say(bound),
        None => said.say("?"),
    }
}

/// Adds what the name in a type stands for, from type to type: `, which is an IfcReal, which is a REAL`.
pub(crate) fn say_meaning(
    said: &mut Said,
    subject: Subject<'_>,
    texpr: &TypeExpr,
) -> Result<(), AllocError> {
    let declared = subject.schema.declared();
    let mut named = name_in(texpr);
    for _ in 0..declared.types.len() {
        let Some(defined) = named.and_then(|name| type_named(declared, name)) else {
            return Ok(());
        };
        named = say_under(said, subject, &defined.under)?;
    }
    Ok(())
}

/// Adds what stands under a type, and answers the name in it.
fn say_under<'a>(
    said: &mut Said,
    subject: Subject<'_>,
    under: &'a Under,
) -> Result<Option<&'a [u8]>, AllocError> {
    match under {
        Under::Items(items) => {
            said.say(", which is an ENUMERATION OF ")?;
            say_names(said, None, items)?;
            Ok(None)
        }
        Under::Select(items) => {
            said.say(", which is a SELECT ")?;
            say_names(said, Some(subject), items)?;
            Ok(None)
        }
        Under::Plain(texpr) => {
            said.say((", which is ", article_of(texpr)))?;
            say_type(said, subject, texpr)?;
            Ok(name_in(texpr))
        }
    }
}

/// Adds names in parentheses, of very many the first alone: as the schema of the subject spells them, or as they are.
pub(crate) fn say_names(
    said: &mut Said,
    subject: Option<Subject<'_>>,
    names: &[Vec<u8>],
) -> Result<(), AllocError> {
    for (position, name) in names.iter().take(MOST_NAMES).enumerate() {
        let before = if position == 0 { "(" } else { ", " };
        let spelled = subject.map_or(name.as_slice(), |it| it.name(name));
        said.say((before, spelled))?;
    }
    said.say(if names.len() > MOST_NAMES {
        ", ...)"
    } else {
        ")"
    })
}

/// The article before a type.
pub(crate) fn article_of(texpr: &TypeExpr) -> &'static str {
    match texpr {
        TypeExpr::Integer | TypeExpr::Array { .. } => "an ",
        TypeExpr::Named(name) => article(name),
        _ => "a ",
    }
}

/// The name in a type, also as the type of its elements.
fn name_in(texpr: &TypeExpr) -> Option<&[u8]> {
    match texpr {
        TypeExpr::Array { item, .. }
        | TypeExpr::List { item, .. }
        | TypeExpr::Set { item, .. }
        | TypeExpr::Bag { item, .. } => name_in(item),
        TypeExpr::Named(name) => Some(name),
        _ => None,
    }
}

/// What a type is at last, by the names that stand for it, as far as the advice on its values goes.
#[derive(Clone, Copy, PartialEq, Eq)]
pub(crate) enum Base {
    Integer,
    Real,
    Text,
    Aggregate,
    Items,
    Select,
    Other,
}

pub(crate) fn base_of(schema: &Schema, texpr: &TypeExpr) -> Base {
    match texpr {
        TypeExpr::Integer => Base::Integer,
        TypeExpr::Real => Base::Real,
        TypeExpr::Text(_) => Base::Text,
        TypeExpr::Array { .. }
        | TypeExpr::List { .. }
        | TypeExpr::Set { .. }
        | TypeExpr::Bag { .. } => Base::Aggregate,
        TypeExpr::Named(name) => match schema.type_named(name) {
            Some(defined) => base_under(schema.under(defined)),
            None => Base::Other,
        },
        _ => Base::Other,
    }
}

/// The same of what stands under a type.
pub(crate) fn base_under(under: &Resolved) -> Base {
    match under {
        Resolved::Items(_) => Base::Items,
        Resolved::Select(_) => Base::Select,
        Resolved::Plain(ResolvedExpr::Integer) => Base::Integer,
        Resolved::Plain(ResolvedExpr::Real) => Base::Real,
        Resolved::Plain(ResolvedExpr::Text(_)) => Base::Text,
        Resolved::Plain(
            ResolvedExpr::Array { .. }
            | ResolvedExpr::List { .. }
            | ResolvedExpr::Set { .. }
            | ResolvedExpr::Bag { .. },
        ) => Base::Aggregate,
        Resolved::Plain(_) => Base::Other,
    }
}

/// Whether a type is REAL, or an aggregate of it, by its names.
pub(crate) fn is_of_reals(declared: &Declarations, texpr: &TypeExpr) -> bool {
    let mut texpr = element_type(texpr);
    for _ in 0..declared.types.len() {
        let TypeExpr::Named(name) = texpr else {
            break;
        };
        match type_named(declared, name) {
            Some(defined) => match &defined.under {
                Under::Plain(under) => texpr = element_type(under),
                Under::Items(_) | Under::Select(_) => return false,
            },
            None => return false,
        }
    }
    matches!(texpr, TypeExpr::Real)
}

/// The type of the elements of an aggregate, down to one that is none.
fn element_type(texpr: &TypeExpr) -> &TypeExpr {
    match texpr {
        TypeExpr::Array { item, .. }
        | TypeExpr::List { item, .. }
        | TypeExpr::Set { item, .. }
        | TypeExpr::Bag { item, .. } => element_type(item),
        other => other,
    }
}

/// The declaration of a type.
pub(crate) fn type_named<'a>(declared: &'a Declarations, name: &[u8]) -> Option<&'a TypeDecl> {
    for defined in &declared.types {
        if defined.name.as_slice() == name {
            return Some(defined);
        }
    }
    None
}
