//! Lists of names, and the names of attributes.

ghost use Rattle.std.specs.Prelude.{◌≡◌, [], ◌∷◌, ◌++◌, OnOk, codes, map};
ghost use Rattle.p21_express.specs.Naming.{texts, plain_naming, plain_namings};
ghost use Rattle.p21_express.specs.Reader.{words_of, Gives, next_name, names_inside, names_at, again_at, naming_at, next_naming, namings_at};

use crate::parts::{begins_name, begins_symbol, name, symbol};
use crate::refusal::Refusal;
use crate::word::Word;
use std::alloc::{AllocError, Global};

/// Names, and of each how many words stand from it on.
#[derive(Drop)]
pub(crate) struct Names {
    pub(crate) names: Vec<Vec<u8>>,
    pub(crate) places: Vec<usize>,
}

impl Names {
    pub(crate) fn new(alloc: Global) -> Names
        ensures { result.names.items ≡ [] }
    {
        Names {
            names: Vec::new(alloc),
            places: Vec::new(alloc),
        }
    }

    /// One name more, with so many words from it on.
    fn push(&mut self, alloc: Global, name: &[u8], place: usize) -> Result<(), AllocError>
        ensures { OnOk result (texts self.new.names.items ≡ texts self.old.names.items ++ name.now ∷ []) }
    {
        self.names.push(Vec::from_slice(alloc, name)?)?;
        self.places.push(place)?;
        Ok(())
    }
}

/// The name of an attribute, with the entity after SELF where it is declared again.
#[derive(Clone, Copy)]
pub struct AttrName<'a> {
    pub name: &'a [u8],
    /// The entity after SELF.
    pub of: Option<&'a [u8]>,
    /// How many words stand from the naming on.
    pub place: usize,
}

/// A further name, and how many words stand from it on.
#[tactic(auto, unfolding(crate::specs::Reader::next_name))]
fn next_name<'t, 'a>(words: &'t [Word<'a>]) -> Result<(&'a [u8], usize, &'t [Word<'a>]), Refusal>
    ensures { Gives (λ x. (x.0.now, words_of x.2.now)) result (next_name (words_of words.now)) }
{
    let behind = symbol(words, b',')?;
    let (next, rest) = name(behind)?;
    Ok((next, behind.len(), rest))
}

/// Names in parentheses, with commas between them.
#[tactic(auto, unfolding(crate::specs::Reader::names_at))]
pub(crate) fn name_list<'t, 'a>(
    alloc: Global,
    words: &'t [Word<'a>],
) -> Result<(Names, &'t [Word<'a>]), Refusal>
    ensures { Gives (λ x. (texts x.0.names.items, words_of x.1.now)) result (names_at (words_of words.now)) }
{
    names_inside(alloc, symbol(words, b'(')?)
}

/// Names with commas between them, up to a parenthesis that closes.
fn names_inside<'t, 'a>(
    alloc: Global,
    words: &'t [Word<'a>],
) -> Result<(Names, &'t [Word<'a>]), Refusal>
    ensures { Gives (λ x. (texts x.0.names.items, words_of x.1.now)) result (names_inside (words_of words.now)) }
{
    let (first, mut rest) = name(words)?;
    let mut names = Names::new(alloc);
    names.push(alloc, first, words.len())?;
    while !begins_symbol(rest, b')') {
        let (next, place, behind) = next_name(rest)?;
        names.push(alloc, next, place)?;
        rest = behind;
    }
    let rest = symbol(rest, b')')?;
    Ok((names, rest))
}

/// The entity and the name after SELF.
#[tactic(auto, unfolding(crate::specs::Reader::again_at))]
fn again<'t, 'a>(
    words: &'t [Word<'a>],
    place: usize,
) -> Result<(AttrName<'a>, &'t [Word<'a>]), Refusal>
    ensures { Gives (λ x. (plain_naming x.0, words_of x.1.now)) result (again_at (words_of words.now)) }
{
    let (of, rest) = name(symbol(words, b'\\')?)?;
    let (name, rest) = name(symbol(rest, b'.')?)?;
    if begins_name(rest, b"RENAMED") {
        return Err(Refusal::not_supported(rest.len()));
    }
    let naming = AttrName {
        name,
        of: Some(of),
        place,
    };
    Ok((naming, rest))
}

/// The name of an attribute, perhaps after SELF, and the words after it. `RENAMED` after one with SELF is refused as `NotSupported`, and any other
/// word that does not fit as `Syntax`.
#[tactic(auto, unfolding(crate::specs::Reader::naming_at))]
pub fn naming<'t, 'a>(words: &'t [Word<'a>]) -> Result<(AttrName<'a>, &'t [Word<'a>]), Refusal>
    ensures { Gives (λ x. (plain_naming x.0, words_of x.1.now)) result (naming_at (words_of words.now)) }
{
    let (name, rest) = name(words)?;
    if name == b"SELF".as_slice() {
        return again(rest, words.len());
    }
    let naming = AttrName {
        name,
        of: None,
        place: words.len(),
    };
    Ok((naming, rest))
}

/// A comma, the name of an attribute after it, and the words after that one. It is refused as `naming` says.
#[tactic(auto, unfolding(crate::specs::Reader::next_naming))]
pub fn next_naming<'t, 'a>(words: &'t [Word<'a>]) -> Result<(AttrName<'a>, &'t [Word<'a>]), Refusal>
    ensures { Gives (λ x. (plain_naming x.0, words_of x.1.now)) result (next_naming (words_of words.now)) }
{
    naming(symbol(words, b',')?)
}

/// The names of attributes that are declared together, up to the colon.
pub(crate) fn namings<'t, 'a>(
    alloc: Global,
    words: &'t [Word<'a>],
) -> Result<(Vec<AttrName<'a>>, &'t [Word<'a>]), Refusal>
    ensures { Gives (λ x. (plain_namings x.0.items, words_of x.1.now)) result (namings_at (words_of words.now)) }
{
    let (first, mut rest) = naming(words)?;
    let mut namings = Vec::new(alloc);
    namings.push(first)?;
    while !begins_symbol(rest, b':') {
        let (next, behind) = next_naming(rest)?;
        namings.push(next)?;
        rest = behind;
    }
    let rest = symbol(rest, b':')?;
    Ok((namings, rest))
}
