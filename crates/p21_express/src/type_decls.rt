//! Types with a name.

ghost use Rattle.std.specs.Prelude.{◌≡◌};
ghost use Rattle.p21_express.specs.Plain.{plain_type, plain_under};
ghost use Rattle.p21_express.specs.Reader.{words_of, Gives, enumeration_at, select_at, plain_at, under_at, type_ends, type_at};

use crate::declarations::{TypeDecl, Under};
use crate::keywords::{UnderWord, under_word};
use crate::names::name_list;
use crate::parts::{begins_name, behind, if_name, name, symbol, word};
use crate::places::TypePlaces;
use crate::refusal::Refusal;
use crate::types::type_expr;
use crate::word::Word;
use std::alloc::Global;

/// The items of an ENUMERATION, after that word.
#[tactic(auto, unfolding(crate::specs::Reader::enumeration_at))]
fn enumeration<'t, 'a>(
    alloc: Global,
    words: &'t [Word<'a>],
) -> Result<(Under, Vec<usize>, &'t [Word<'a>]), Refusal>
    ensures { Gives (λ x. (plain_under x.0, words_of x.2.now)) result (enumeration_at (words_of words.now)) }
{
    if begins_name(words, b"BASED_ON") {
        return Err(Refusal::not_supported(words.len()));
    }
    let (items, rest) = name_list(alloc, word(words, b"OF")?)?;
    Ok((Under::Items(items.names), items.places, rest))
}

/// The items of a SELECT, after that word.
#[tactic(auto, unfolding(crate::specs::Reader::select_at))]
fn select<'t, 'a>(
    alloc: Global,
    words: &'t [Word<'a>],
) -> Result<(Under, Vec<usize>, &'t [Word<'a>]), Refusal>
    ensures { Gives (λ x. (plain_under x.0, words_of x.2.now)) result (select_at (words_of words.now)) }
{
    if begins_name(words, b"BASED_ON") {
        return Err(Refusal::not_supported(words.len()));
    }
    let (items, rest) = name_list(alloc, words)?;
    Ok((Under::Select(items.names), items.places, rest))
}

/// A type that is all that stands there.
#[tactic(auto, unfolding(crate::specs::Reader::plain_at))]
fn plain<'t, 'a>(
    alloc: Global,
    words: &'t [Word<'a>],
) -> Result<(Under, Vec<usize>, &'t [Word<'a>]), Refusal>
    ensures { Gives (λ x. (plain_under x.0, words_of x.2.now)) result (plain_at (words_of words.now)) }
{
    let (texpr, place, rest) = type_expr(alloc, words, 64)?;
    let mut places = Vec::new(alloc);
    places.push(place)?;
    Ok((Under::Plain(texpr), places, rest))
}

/// What stands under a TYPE.
#[tactic(auto, unfolding(crate::specs::Reader::under_at))]
fn under<'t, 'a>(
    alloc: Global,
    words: &'t [Word<'a>],
) -> Result<(Under, Vec<usize>, &'t [Word<'a>]), Refusal>
    ensures { Gives (λ x. (plain_under x.0, words_of x.2.now)) result (under_at (words_of words.now)) }
{
    let (first, rest) = name(words)?;
    match under_word(first) {
        UnderWord::Enumeration => enumeration(alloc, rest),
        UnderWord::Select => select(alloc, rest),
        UnderWord::Unsupported => Err(Refusal::not_supported(words.len())),
        UnderWord::Plain => plain(alloc, words),
    }
}

/// What stands after the rules of a type and END_TYPE.
#[tactic(auto, unfolding(crate::specs::Reader::type_ends))]
fn type_end<'t, 'a>(words: &'t [Word<'a>]) -> Result<&'t [Word<'a>], Refusal>
    ensures { Gives (λ x. words_of x.now) result (type_ends (words_of words.now)) }
{
    let (has_rules, rest) = if_name(words, b"WHERE");
    if has_rules {
        return behind(rest, None, b"END_TYPE");
    }
    word(words, b"END_TYPE")
}

/// A type after the word TYPE.
#[tactic(auto, unfolding(crate::specs::Reader::type_at))]
pub(crate) fn type_decl<'t, 'a>(
    alloc: Global,
    words: &'t [Word<'a>],
) -> Result<(TypeDecl, TypePlaces, &'t [Word<'a>]), Refusal>
    ensures { Gives (λ x. (plain_type x.0, words_of x.2.now)) result (type_at (words_of words.now)) }
{
    let (first, rest) = name(words)?;
    let (under, places, rest) = under(alloc, symbol(rest, b'=')?)?;
    let rest = symbol(type_end(symbol(rest, b';')?)?, b';')?;
    let decl = TypeDecl {
        name: Vec::from_slice(alloc, first)?,
        under,
    };
    let places = TypePlaces {
        name: words.len(),
        under: places,
    };
    Ok((decl, places, rest))
}
