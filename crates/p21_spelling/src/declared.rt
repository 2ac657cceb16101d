//! The names that a schema declares, as its text spells them.

ghost use Rattle.std.specs.Prelude.{◌≡◌, ◌<◌, ◌≤◌, ◌++◌, ◌∷◌, [], length, map, IfOk, IfSome, OnOk};
ghost use Rattle.p21_express.specs.Plain.{plain_attribute, plain_entity, plain_schema, plain_type};
ghost use Rattle.p21_spelling.specs.Spelled.{attribute_names, lower, names_in, own_names, AreSpelled};

use crate::words::next_word;
use p21_express::{AttrDecl, Declarations, EntityDecl, TypeDecl};
use std::alloc::{AllocError, Global};

/// The names that a schema declares, as its text spells them at their declarations: each is the declared name but for the case of
/// letters. A name that is not found there, which a schema that was read from the text does not have, is as it is declared.
#[derive(Debug, Drop)]
pub struct Spellings {
    /// Of the entities, in the order of the text.
    pub entities: Vec<Vec<u8>>,
    /// Of the explicit attributes that entities newly declare, in the order of the text.
    pub attributes: Vec<Vec<u8>>,
    /// Of the types, in the order of the text.
    pub types: Vec<Vec<u8>>,
}

/// How a text spells the names that were read from it. Memory alone can fail.
pub fn spell_names(
    alloc: Global,
    text: &[u8],
    declarations: &Declarations,
) -> Result<Spellings, AllocError>
    // As many names as are declared, in their order: of entities, of newly declared explicit attributes and of types.
    // Each is the declared name but for the case of letters. That the case is that of the text is tested.
    ensures { IfOk result (AreSpelled (plain_schema declarations.now)) }
{
    let mut entities = Vec::new(alloc);
    let mut attributes = Vec::new(alloc);
    let mut rest = text;
    for entity in &declarations.entities {
        let (spelling, behind) = declaration(rest, b"ENTITY", &entity.name);
        push(alloc, &mut entities, &entity.name, spelling)?;
        rest = push_attributes(alloc, &mut attributes, entity, behind_semicolon(behind))?;
    }
    let types = type_spellings(alloc, text, &declarations.types)?;
    Ok(Spellings {
        entities,
        attributes,
        types,
    })
}

/// How a text spells the names of types.
fn type_spellings(
    alloc: Global,
    text: &[u8],
    types: &[TypeDecl],
) -> Result<Vec<Vec<u8>>, AllocError>
    ensures { IfOk result (λ spelled. names_in spelled.items ≡ map (λ t. lower t.name) (map plain_type types.now)) }
{
    let mut spelled = Vec::new(alloc);
    let mut rest = text;
    for declared in types {
        let (spelling, behind) = declaration(rest, b"TYPE", &declared.name);
        push(alloc, &mut spelled, &declared.name, spelling)?;
        rest = behind;
    }
    Ok(spelled)
}

/// Adds how the text after an entity's first semicolon spells the attributes that it newly declares, and answers the text after them.
fn push_attributes<'t>(
    alloc: Global,
    spelled: &mut Vec<Vec<u8>>,
    entity: &EntityDecl,
    text: &'t [u8],
) -> Result<&'t [u8], AllocError>
    ensures { OnOk result (names_in spelled.new.items ≡ names_in spelled.old.items ++ map lower (own_names (plain_entity entity.now))) }
{
    let mut rest = text;
    for attribute in &entity.attributes {
        rest = push_attribute(alloc, spelled, attribute, rest)?;
    }
    Ok(rest)
}

/// Adds the spelling of an attribute, where it is newly declared, and answers the text after its comma or its declaration.
fn push_attribute<'t>(
    alloc: Global,
    spelled: &mut Vec<Vec<u8>>,
    attribute: &AttrDecl,
    text: &'t [u8],
) -> Result<&'t [u8], AllocError>
    ensures { OnOk result (names_in spelled.new.items ≡ names_in spelled.old.items ++ map lower (attribute_names (plain_attribute attribute.now))) }
{
    if attribute.of.is_some() {
        return Ok(behind_semicolon(text));
    }
    let (spelling, behind) = word(text);
    push(alloc, spelled, &attribute.name, spelling)?;
    let (separator, behind) = word(behind);
    if separator == b",".as_slice() {
        Ok(behind)
    } else {
        Ok(behind_semicolon(behind))
    }
}

/// Adds a spelling of a name, or the name itself where it is none.
fn push(
    alloc: Global,
    spelled: &mut Vec<Vec<u8>>,
    name: &[u8],
    spelling: &[u8],
) -> Result<(), AllocError>
    ensures { OnOk result (names_in spelled.new.items ≡ names_in spelled.old.items ++ lower name.now ∷ []) }
{
    let bytes = if spelling.eq_ignore_ascii_case(name) {
        spelling
    } else {
        name
    };
    spelled.push(Vec::from_slice(alloc, bytes)?)?;
    Ok(())
}

/// The name after the next such keyword that this name follows, as the text spells it, and the text after it; nothing, and the text
/// itself, where there is none.
fn declaration<'t>(text: &'t [u8], keyword: &[u8], name: &[u8]) -> (&'t [u8], &'t [u8]) {
    let mut rest = text;
    while let Some((first, behind)) = next_word(rest) {
        rest = behind;
        if first.eq_ignore_ascii_case(keyword) {
            let (second, behind) = word(rest);
            if second.eq_ignore_ascii_case(name) {
                return (second, behind);
            }
        }
    }
    (&[], text)
}

/// The next word and the text after it; nothing at the end.
fn word(text: &[u8]) -> (&[u8], &[u8]) {
    match next_word(text) {
        Some(found) => found,
        None => (&[], &[]),
    }
}

/// The text after the next semicolon, which stands in no string and no remark.
fn behind_semicolon(text: &[u8]) -> &[u8] {
    let mut rest = text;
    while let Some((first, behind)) = next_word(rest) {
        rest = behind;
        if first == b";".as_slice() {
            return rest;
        }
    }
    rest
}
