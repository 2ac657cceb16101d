//! Attributes.

ghost use Rattle.std.specs.Prelude.{◌≡◌, IfOk, codes, map, option_map};
ghost use Rattle.p21_express.specs.Grammar.{attributes_of, ends_attributes, begins_rules};
ghost use Rattle.p21_express.specs.Naming.{plain_naming, plain_namings};
ghost use Rattle.p21_express.specs.Plain.{plain_attribute, plain_derived, plain_expr};
ghost use Rattle.p21_express.specs.Reader.{words_of, Gives, attributes_at, all_attributes_at, derived_at, all_derived_at, derives_at};

use crate::copy::copied;
use crate::declarations::{AttrDecl, DeriveDecl, TypeExpr};
use crate::keywords::begins_rules as is_rules_word;
use crate::names::{AttrName, naming, namings};
use crate::parts::{begins_name, behind_stop, if_name, symbol, word};
use crate::places::AttrPlaces;
use crate::refusal::Refusal;
use crate::types::type_expr;
use crate::word::Word;
use std::alloc::{AllocError, Global};

/// A text that is owned, where there is one.
fn owned(alloc: Global, text: Option<&[u8]>) -> Result<Option<Vec<u8>>, AllocError>
    ensures { IfOk result (λ copy. option_map (λ n. n.items) copy ≡ option_map (λ n. n.now) text.entry) }
{
    match text {
        Some(text) => Ok(Some(Vec::from_slice(alloc, text)?)),
        None => Ok(None),
    }
}

/// The attributes of these names.
fn declared(
    alloc: Global,
    namings: &[AttrName],
    optional: bool,
    texpr: &TypeExpr,
) -> Result<Vec<AttrDecl>, AllocError>
    ensures { IfOk result (λ list. map plain_attribute list.items ≡ attributes_of (plain_namings namings.now) optional (plain_expr texpr.now)) }
{
    let mut list = Vec::new(alloc);
    for naming in namings {
        list.push(AttrDecl {
            name: Vec::from_slice(alloc, naming.name)?,
            of: owned(alloc, naming.of)?,
            optional,
            texpr: copied(alloc, texpr)?,
        })?;
    }
    Ok(list)
}

/// Where the attributes of these names stand, whose type has its name at `texpr`.
fn places(
    alloc: Global,
    namings: &[AttrName],
    texpr: usize,
) -> Result<Vec<AttrPlaces>, AllocError> {
    let mut list = Vec::new(alloc);
    for naming in namings {
        list.push(AttrPlaces {
            name: naming.place,
            texpr,
        })?;
    }
    Ok(list)
}

/// Attributes that are declared together.
#[tactic(auto, unfolding(crate::specs::Reader::attributes_at))]
fn attributes<'t, 'a>(
    alloc: Global,
    words: &'t [Word<'a>],
) -> Result<(Vec<AttrDecl>, Vec<AttrPlaces>, &'t [Word<'a>]), Refusal>
    ensures { Gives (λ x. (map plain_attribute x.0.items, words_of x.2.now)) result (attributes_at (words_of words.now)) }
{
    let (namings, rest) = namings(alloc, words)?;
    let (optional, rest) = if_name(rest, b"OPTIONAL");
    let (texpr, place, rest) = type_expr(alloc, rest, 64)?;
    let rest = symbol(rest, b';')?;
    let list = declared(alloc, &namings, optional, &texpr)?;
    let places = places(alloc, &namings, place)?;
    Ok((list, places, rest))
}

/// Whether the words go on with INVERSE, UNIQUE, WHERE or END_ENTITY.
pub fn begins_rules(words: &[Word]) -> bool
    ensures { result ≡ begins_rules (words_of words.now) }
{
    match words.split_first() {
        Some((Word::Name(name), _)) => is_rules_word(name) || *name == b"END_ENTITY".as_slice(),
        _ => false,
    }
}

/// Whether what stands after the explicit attributes of an entity begins.
fn ends_attributes(words: &[Word]) -> bool
    ensures { result ≡ ends_attributes (words_of words.now) }
{
    begins_name(words, b"DERIVE") || begins_rules(words)
}

/// A semicolon and all explicit attributes of an entity.
pub(crate) fn all_attributes<'t, 'a>(
    alloc: Global,
    words: &'t [Word<'a>],
) -> Result<(Vec<AttrDecl>, Vec<AttrPlaces>, &'t [Word<'a>]), Refusal>
    ensures { Gives (λ x. (map plain_attribute x.0.items, words_of x.2.now)) result (all_attributes_at (words_of words.now)) }
{
    let mut rest = symbol(words, b';')?;
    let mut list = Vec::new(alloc);
    let mut places = Vec::new(alloc);
    while !ends_attributes(rest) {
        let (mut more, mut more_places, behind) = attributes(alloc, rest)?;
        list.append(&mut more)?;
        places.append(&mut more_places)?;
        rest = behind;
    }
    Ok((list, places, rest))
}

/// An attribute of DERIVE, and its place.
#[tactic(auto, unfolding(crate::specs::Reader::derived_at))]
fn derived<'t, 'a>(
    alloc: Global,
    words: &'t [Word<'a>],
) -> Result<(DeriveDecl, usize, &'t [Word<'a>]), Refusal>
    ensures { Gives (λ x. (plain_derived x.0, words_of x.2.now)) result (derived_at (words_of words.now)) }
{
    let (naming, rest) = naming(words)?;
    let rest = behind_stop(symbol(rest, b':')?, b';')?;
    let decl = DeriveDecl {
        name: Vec::from_slice(alloc, naming.name)?,
        of: owned(alloc, naming.of)?,
    };
    Ok((decl, naming.place, rest))
}

/// DERIVE and its attributes, and their places.
fn all_derived<'t, 'a>(
    alloc: Global,
    words: &'t [Word<'a>],
) -> Result<(Vec<DeriveDecl>, Vec<usize>, &'t [Word<'a>]), Refusal>
    ensures { Gives (λ x. (map plain_derived x.0.items, words_of x.2.now)) result (all_derived_at (words_of words.now)) }
{
    let mut rest = word(words, b"DERIVE")?;
    let mut list = Vec::new(alloc);
    let mut places = Vec::new(alloc);
    while !begins_rules(rest) {
        let (decl, place, behind) = derived(alloc, rest)?;
        list.push(decl)?;
        places.push(place)?;
        rest = behind;
    }
    Ok((list, places, rest))
}

/// The attributes of DERIVE, where it stands there, and their places.
#[tactic(auto, unfolding(crate::specs::Reader::derives_at))]
pub(crate) fn derives<'t, 'a>(
    alloc: Global,
    words: &'t [Word<'a>],
) -> Result<(Vec<DeriveDecl>, Vec<usize>, &'t [Word<'a>]), Refusal>
    ensures { Gives (λ x. (map plain_derived x.0.items, words_of x.2.now)) result (derives_at (words_of words.now)) }
{
    if begins_name(words, b"DERIVE") {
        return all_derived(alloc, words);
    }
    Ok((Vec::new(alloc), Vec::new(alloc), words))
}
