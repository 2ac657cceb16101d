//! Entities.

ghost use Rattle.std.specs.Prelude.{◌≡◌};
ghost use Rattle.p21_express.specs.Naming.{texts};
ghost use Rattle.p21_express.specs.Plain.{plain_entity};
ghost use Rattle.p21_express.specs.Reader.{words_of, Gives, of_group, abstract_at, supertype_at, subtype_at, rules_end, entity_at};

use crate::attributes::{all_attributes, derives};
use crate::declarations::EntityDecl;
use crate::keywords::begins_rules;
use crate::names::{Names, name_list};
use crate::parts::{begins_name, behind, group, if_name, name, symbol, word};
use crate::places::EntityPlaces;
use crate::refusal::Refusal;
use crate::word::Word;
use std::alloc::Global;

#[tactic(auto, unfolding(crate::specs::Reader::of_group))]
fn of_group<'t, 'a>(words: &'t [Word<'a>]) -> Result<&'t [Word<'a>], Refusal>
    ensures { Gives (λ x. words_of x.now) result (of_group (words_of words.now)) }
{
    let (_, rest) = group(word(words, b"OF")?)?;
    Ok(rest)
}

/// What stands after ABSTRACT.
#[tactic(auto, unfolding(crate::specs::Reader::abstract_at))]
fn behind_abstract<'t, 'a>(words: &'t [Word<'a>]) -> Result<&'t [Word<'a>], Refusal>
    ensures { Gives (λ x. words_of x.now) result (abstract_at (words_of words.now)) }
{
    let rest = word(words, b"SUPERTYPE")?;
    if begins_name(rest, b"OF") {
        return of_group(rest);
    }
    Ok(rest)
}

/// Whether ABSTRACT SUPERTYPE stands there.
#[tactic(auto, unfolding(crate::specs::Reader::supertype_at))]
fn supertype<'t, 'a>(words: &'t [Word<'a>]) -> Result<(bool, &'t [Word<'a>]), Refusal>
    ensures { Gives (λ x. (x.0, words_of x.1.now)) result (supertype_at (words_of words.now)) }
{
    let (is_abstract, rest) = if_name(words, b"ABSTRACT");
    if is_abstract {
        return Ok((true, behind_abstract(rest)?));
    }
    let (is_supertype, rest) = if_name(words, b"SUPERTYPE");
    if is_supertype {
        return Ok((false, of_group(rest)?));
    }
    Ok((false, words))
}

/// The names of SUBTYPE OF.
#[tactic(auto, unfolding(crate::specs::Reader::subtype_at))]
fn subtype<'t, 'a>(alloc: Global, words: &'t [Word<'a>]) -> Result<(Names, &'t [Word<'a>]), Refusal>
    ensures { Gives (λ x. (texts x.0.names.items, words_of x.1.now)) result (subtype_at (words_of words.now)) }
{
    let (is_subtype, rest) = if_name(words, b"SUBTYPE");
    if is_subtype {
        return name_list(alloc, word(rest, b"OF")?);
    }
    Ok((Names::new(alloc), words))
}

/// What stands after the rules of an entity and END_ENTITY.
#[tactic(auto, unfolding(crate::specs::Reader::rules_end))]
fn rules_end<'t, 'a>(words: &'t [Word<'a>]) -> Result<&'t [Word<'a>], Refusal>
    ensures { Gives (λ x. words_of x.now) result (rules_end (words_of words.now)) }
{
    let (first, rest) = name(words)?;
    if first == b"END_ENTITY".as_slice() {
        return Ok(rest);
    }
    if begins_rules(first) {
        return behind(rest, None, b"END_ENTITY");
    }
    Err(Refusal::syntax(words.len()))
}

/// An entity after the word ENTITY.
#[tactic(auto, unfolding(crate::specs::Reader::entity_at))]
pub(crate) fn entity<'t, 'a>(
    alloc: Global,
    words: &'t [Word<'a>],
) -> Result<(EntityDecl, EntityPlaces, &'t [Word<'a>]), Refusal>
    ensures { Gives (λ x. (plain_entity x.0, words_of x.2.now)) result (entity_at (words_of words.now)) }
{
    let (first, rest) = name(words)?;
    let (is_abstract, rest) = supertype(rest)?;
    let (supertypes, rest) = subtype(alloc, rest)?;
    let (attributes, attribute_places, rest) = all_attributes(alloc, rest)?;
    let (derived, derived_places, rest) = derives(alloc, rest)?;
    let rest = symbol(rules_end(rest)?, b';')?;
    let Names { names, places } = supertypes;
    let decl = EntityDecl {
        name: Vec::from_slice(alloc, first)?,
        is_abstract,
        supertypes: names,
        attributes,
        derived,
    };
    let places = EntityPlaces {
        name: words.len(),
        supertypes: places,
        attributes: attribute_places,
        derived: derived_places,
    };
    Ok((decl, places, rest))
}
