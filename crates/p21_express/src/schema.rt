//! A schema by its words.

ghost use Rattle.std.specs.Prelude.{◌≡◌, ◌++◌, OnOk, map};
ghost use Rattle.p21_express.specs.Plain.{plain_entity, plain_type, plain_schema};
ghost use Rattle.p21_express.specs.Found.{plain_declaration, entities_one, types_one};
ghost use Rattle.p21_express.specs.Reader.{words_of, again_of, Gives, skipped_at, declaration_at, declarations_at, schema_at};

use crate::declarations::{Declarations, EntityDecl, TypeDecl};
use crate::entities::entity;
use crate::keywords::{DeclWord, decl_word};
use crate::parts::{begins_name, behind, name, symbol, word};
use crate::places::{EntityPlaces, TypePlaces};
use crate::refusal::Refusal;
use crate::type_decls::type_decl;
use crate::word::Word;
use std::alloc::{AllocError, Global};

/// A declaration, and where its names stand.
#[derive(Drop)]
enum AnyDecl {
    Entity(EntityDecl, EntityPlaces),
    Type(TypeDecl, TypePlaces),
    Skipped,
}

/// Declarations, and where their names stand.
#[derive(Drop)]
pub(crate) struct Found {
    pub(crate) entities: Vec<EntityDecl>,
    pub(crate) entity_places: Vec<EntityPlaces>,
    pub(crate) types: Vec<TypeDecl>,
    pub(crate) type_places: Vec<TypePlaces>,
}

impl Found {
    /// One declaration more.
    fn push(&mut self, declaration: AnyDecl) -> Result<(), AllocError>
        ensures entities { OnOk result (map plain_entity self.new.entities.items ≡ map plain_entity self.old.entities.items ++ entities_one (plain_declaration declaration)) }
        ensures types { OnOk result (map plain_type self.new.types.items ≡ map plain_type self.old.types.items ++ types_one (plain_declaration declaration)) }
    {
        match declaration {
            AnyDecl::Entity(decl, places) => {
                self.entities.push(decl)?;
                self.entity_places.push(places)?;
            }
            AnyDecl::Type(decl, places) => {
                self.types.push(decl)?;
                self.type_places.push(places)?;
            }
            AnyDecl::Skipped => {}
        }
        Ok(())
    }
}

/// A declaration that is skipped, after its first word.
#[tactic(auto, unfolding(crate::specs::Reader::skipped_at))]
fn skipped<'t, 'a>(
    words: &'t [Word<'a>],
    again: Option<&[u8]>,
    last: &[u8],
) -> Result<(AnyDecl, &'t [Word<'a>]), Refusal>
    ensures { Gives (λ x. (plain_declaration x.0, words_of x.1.now)) result (skipped_at (again_of again.entry) last.now (words_of words.now)) }
{
    let rest = symbol(behind(words, again, last)?, b';')?;
    Ok((AnyDecl::Skipped, rest))
}

#[tactic(auto, unfolding(crate::specs::Reader::declaration_at))]
fn declaration<'t, 'a>(
    alloc: Global,
    words: &'t [Word<'a>],
) -> Result<(AnyDecl, &'t [Word<'a>]), Refusal>
    ensures { Gives (λ x. (plain_declaration x.0, words_of x.1.now)) result (declaration_at (words_of words.now)) }
{
    let (first, rest) = name(words)?;
    match decl_word(first) {
        DeclWord::Entity => {
            let (decl, places, rest) = entity(alloc, rest)?;
            Ok((AnyDecl::Entity(decl, places), rest))
        }
        DeclWord::Type => {
            let (decl, places, rest) = type_decl(alloc, rest)?;
            Ok((AnyDecl::Type(decl, places), rest))
        }
        DeclWord::Function => skipped(rest, Some(b"FUNCTION"), b"END_FUNCTION"),
        DeclWord::Procedure => skipped(rest, Some(b"PROCEDURE"), b"END_PROCEDURE"),
        DeclWord::Rule => skipped(rest, None, b"END_RULE"),
        DeclWord::Constant => skipped(rest, None, b"END_CONSTANT"),
        DeclWord::Unsupported => Err(Refusal::not_supported(words.len())),
        DeclWord::Unknown => Err(Refusal::syntax(words.len())),
    }
}

/// A semicolon and all declarations.
fn declarations<'t, 'a>(
    alloc: Global,
    words: &'t [Word<'a>],
) -> Result<(Found, &'t [Word<'a>]), Refusal>
    ensures { Gives (λ x. ((map plain_entity x.0.entities.items, map plain_type x.0.types.items), words_of x.1.now)) result (declarations_at (words_of words.now)) }
{
    let mut rest = symbol(words, b';')?;
    let mut found = Found {
        entities: Vec::new(alloc),
        entity_places: Vec::new(alloc),
        types: Vec::new(alloc),
        type_places: Vec::new(alloc),
    };
    while !begins_name(rest, b"END_SCHEMA") {
        let (next, behind) = declaration(alloc, rest)?;
        found.push(next)?;
        rest = behind;
    }
    Ok((found, rest))
}

/// A schema, of which nothing is checked but its form: its declarations, and where their names stand.
#[tactic(auto, unfolding(crate::specs::Reader::schema_at))]
pub(crate) fn schema(
    alloc: Global,
    words: &[Word],
) -> Result<(Declarations, Vec<EntityPlaces>, Vec<TypePlaces>), Refusal>
    ensures { Gives (λ x. plain_schema x.0) result (schema_at (words_of words.now)) }
{
    let (first, rest) = name(word(words, b"SCHEMA")?)?;
    let (found, rest) = declarations(alloc, rest)?;
    let rest = symbol(word(rest, b"END_SCHEMA")?, b';')?;
    if !rest.is_empty() {
        return Err(Refusal::syntax(rest.len()));
    }
    let Found {
        entities,
        entity_places,
        types,
        type_places,
    } = found;
    let declarations = Declarations {
        name: Vec::from_slice(alloc, first)?,
        entities,
        types,
    };
    Ok((declarations, entity_places, type_places))
}
