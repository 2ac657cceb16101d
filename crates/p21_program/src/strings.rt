//! Strings that the text spells, and the names of the schema in them.

use crate::obstacle::Halt;
use crate::scope::{DEEPEST, Scope};
use crate::tables::Tables;
use p21_algorithm::ConstantTree;
use p21_expression::{BinaryOperator, Expression, Name, Operation};
use p21_schema::EntityId;
use std::alloc::AllocError;

/// The most bytes of a string that is taken for a name.
const LONGEST: usize = 1000;

/// The string that an expression is, of literals, constants of the schema and `+` alone, where so many operations may stand within one another.
pub(crate) fn folded<'a, 't>(
    tables: &Tables<'a, 't>,
    scope: &mut Scope<'a, 't>,
    left: usize,
    tree: &Expression<'a>,
) -> Result<Option<Vec<u8>>, Halt> {
    let mut text = Vec::new(tables.alloc);
    if add_folded(tables, scope, left, tree, &mut text)? {
        Ok(Some(text))
    } else {
        Ok(None)
    }
}

/// The string that a constant is, or `None` where it is none or costs too much.
pub(crate) fn text_alone<'a>(
    tables: &Tables<'a, '_>,
    constant: &ConstantTree<'a>,
) -> Result<Option<Vec<u8>>, AllocError> {
    let mut scope = Scope::empty(tables.alloc, constant.name.place);
    match folded(tables, &mut scope, DEEPEST, &constant.value) {
        Ok(text) => Ok(text),
        Err(Halt::Told(_)) => Ok(None),
        Err(Halt::Memory) => Err(AllocError),
    }
}

/// Adds the string that an expression is. Where it is none the answer is false.
#[cycle(fold)]
fn add_folded<'a, 't>(
    tables: &Tables<'a, 't>,
    scope: &mut Scope<'a, 't>,
    left: usize,
    tree: &Expression<'a>,
    text: &mut Vec<u8>,
) -> Result<bool, Halt> {
    scope.spend(1)?;
    if left == 0 {
        return Ok(false);
    }
    match tree {
        Expression::Text(place) => {
            let characters = tables.texts.characters(tables.source, *place);
            add_characters(scope, characters, text)
        }
        Expression::Name(name) => add_constant(tables, scope, *name, text),
        Expression::Operations(first, operations) => {
            if !add_folded(tables, scope, left - 1, first, text)? {
                return Ok(false);
            }
            add_operations(tables, scope, left - 1, operations, text)
        }
        _ => Ok(false),
    }
}

/// Adds the strings that are added to a string.
#[cycle(fold)]
fn add_operations<'a, 't>(
    tables: &Tables<'a, 't>,
    scope: &mut Scope<'a, 't>,
    left: usize,
    operations: &[Operation<'a>],
    text: &mut Vec<u8>,
) -> Result<bool, Halt> {
    for operation in operations {
        if operation.operator != BinaryOperator::Plus {
            return Ok(false);
        }
        if !add_folded(tables, scope, left, &operation.right, text)? {
            return Ok(false);
        }
    }
    Ok(true)
}

/// Adds the string that a constant is, where no variable has its name.
fn add_constant<'a, 't>(
    tables: &Tables<'a, 't>,
    scope: &mut Scope<'a, 't>,
    name: Name<'a>,
    text: &mut Vec<u8>,
) -> Result<bool, Halt> {
    scope.spend_name(name.text)?;
    if scope.variable(name.text).is_some() {
        return Ok(false);
    }
    add_characters(scope, tables.constant(name.text), text)
}

/// Adds characters, where there are some and not too many.
fn add_characters(
    scope: &mut Scope,
    characters: Option<&[u8]>,
    text: &mut Vec<u8>,
) -> Result<bool, Halt> {
    let Some(characters) = characters else {
        return Ok(false);
    };
    scope.spend_bytes(characters.len())?;
    if characters.len() > LONGEST.saturating_sub(text.len()) {
        return Ok(false);
    }
    text.extend_from_slice(characters)?;
    Ok(true)
}

/// What a string names by the names of a schema.
#[derive(Clone, Copy)]
pub(crate) enum Named {
    /// The entity of this schema.
    Entity(EntityId),
    /// An attribute's name in an entity of this schema.
    Attribute(EntityId, u32),
    /// Something of this schema that is neither.
    Here,
    /// Something of another schema.
    Elsewhere,
    /// It is no name.
    Nothing,
}

/// The parts of a string before and after its first point.
fn at_point(text: &[u8]) -> Option<(&[u8], &[u8])> {
    let before = text.iter().take_while(|byte| **byte != b'.').count();
    if before >= text.len() {
        return None;
    }
    let (first, rest) = text.split_at(before);
    let (_, after) = rest.split_at(1);
    Some((first, after))
}

/// Whether a string is a name: letters, digits and underscores, with a letter first.
fn is_name(text: &[u8]) -> bool {
    match text.split_first() {
        Some((first, _)) => {
            first.is_ascii_uppercase()
                && text.iter().all(|byte| byte.is_ascii_uppercase()
                    || byte.is_ascii_digit()
                    || *byte == b'_')
        }
        None => false,
    }
}

/// What a string names by the names of a schema.
pub(crate) fn named_by(tables: &Tables, text: &[u8]) -> Named {
    let Some((schema, inside)) = at_point(text) else {
        return Named::Nothing;
    };
    if schema != tables.schema.name() {
        let is_other = is_name(schema) && is_name(before_point(inside));
        return if is_other {
            Named::Elsewhere
        } else {
            Named::Nothing
        };
    }
    match at_point(inside) {
        None => match tables.schema.entity(inside) {
            Some(entity) => Named::Entity(entity),
            None => Named::Here,
        },
        Some((entity, attribute)) => attribute_named(tables, entity, attribute),
    }
}

fn attribute_named(tables: &Tables, entity: &[u8], attribute: &[u8]) -> Named {
    match tables.schema.entity(entity) {
        None => Named::Here,
        Some(entity) => {
            match tables
                .meanings
                .attribute_of(tables.schema, entity.place(), attribute)
            {
                Some(number) => Named::Attribute(entity, number),
                None => Named::Here,
            }
        }
    }
}

/// The part of a string before its first point, or all of it.
fn before_point(text: &[u8]) -> &[u8] {
    match at_point(text) {
        Some((first, _)) => first,
        None => text,
    }
}

/// Whether a string that may stand for anything names an entity or a type, but in another schema.
pub(crate) fn names_elsewhere(tables: &Tables, text: &[u8]) -> bool {
    match at_point(text) {
        Some((schema, inside)) => {
            schema != tables.schema.name() && is_name(schema) && is_declared(tables, inside)
        }
        None => false,
    }
}

fn is_declared(tables: &Tables, inside: &[u8]) -> bool {
    let name = before_point(inside);
    tables.schema.entity(name).is_some() || tables.schema.type_named(name).is_some()
}
