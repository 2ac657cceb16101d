//! The clauses UNIQUE and INVERSE of an entity, as its words have them.

ghost use Rattle.std.specs.Prelude.{◌≡◌, option_map};
ghost use Rattle.p21_express.specs.Naming.{plain_naming, plain_namings};
ghost use Rattle.p21_express.specs.Reader.{words_of, Gives, naming_at, next_naming};
ghost use Rattle.p21_rule_text.specs.Clauses.{attribute_at, attribute_of_at, has_label, if_label_at, inverse_at, label_at, names_at, plain_inverse, plain_unique, unique_at};

use crate::bounds::{Bounds, bounds_in_front};
use p21_express::{AttrName, Refusal, Word, begins_symbol, keyword, name, naming, symbol};
use std::alloc::Global;

/// A rule UNIQUE.
#[derive(Drop)]
pub(crate) struct UniqueClause<'a> {
    pub(crate) label: Option<&'a [u8]>,
    pub(crate) names: Vec<AttrName<'a>>,
    /// How many words stand from its first on.
    pub(crate) place: usize,
}

/// An INVERSE attribute.
#[derive(Clone, Copy)]
pub(crate) struct InverseClause<'a> {
    pub(crate) name: AttrName<'a>,
    /// `None` where they are no numbers.
    pub(crate) bounds: Option<Bounds>,
    /// The entity that refers.
    pub(crate) source: &'a [u8],
    /// How many words stand from its name on.
    pub(crate) source_place: usize,
    /// The attribute by which it does.
    pub(crate) attribute: AttrName<'a>,
}

/// Whether the second word is a colon.
fn has_label(words: &[Word]) -> bool
    ensures { result ≡ has_label (words_of words.now) }
{
    match words.split_first() {
        Some((_, rest)) => begins_symbol(rest, b':'),
        None => false,
    }
}

#[tactic(auto, unfolding(crate::specs::Clauses::label_at))]
fn label<'t, 'a>(words: &'t [Word<'a>]) -> Result<(Option<&'a [u8]>, &'t [Word<'a>]), Refusal>
    ensures { Gives (λ x. (option_map (λ n. n.now) x.0, words_of x.1.now)) result (label_at (words_of words.now)) }
{
    let (label, rest) = name(words)?;
    Ok((Some(label), symbol(rest, b':')?))
}

/// The label of a rule, where it has one, and the words after the colon.
#[tactic(auto, unfolding(crate::specs::Clauses::if_label_at))]
fn if_label<'t, 'a>(words: &'t [Word<'a>]) -> Result<(Option<&'a [u8]>, &'t [Word<'a>]), Refusal>
    ensures { Gives (λ x. (option_map (λ n. n.now) x.0, words_of x.1.now)) result (if_label_at (words_of words.now)) }
{
    if has_label(words) {
        return label(words);
    }
    Ok((None, words))
}

/// The name of an attribute in a rule. RENAMED does not fit after it.
fn attribute_in_rule<'t, 'a>(
    words: &'t [Word<'a>],
) -> Result<(AttrName<'a>, &'t [Word<'a>]), Refusal>
    ensures { Gives (λ x. (plain_naming x.0, words_of x.1.now)) result (naming_at (words_of words.now)) }
{
    match naming(words) {
        Ok(found) => Ok(found),
        Err(Refusal::Refused(_, left)) => Err(Refusal::syntax(left)),
        Err(Refusal::Memory) => Err(Refusal::Memory),
    }
}

/// A comma and the name of a further one.
#[tactic(auto, unfolding(p21_express::specs::Reader::next_naming))]
fn next_in_rule<'t, 'a>(words: &'t [Word<'a>]) -> Result<(AttrName<'a>, &'t [Word<'a>]), Refusal>
    ensures { Gives (λ x. (plain_naming x.0, words_of x.1.now)) result (next_naming (words_of words.now)) }
{
    attribute_in_rule(symbol(words, b',')?)
}

/// Names of attributes with commas between them, up to the semicolon.
#[tactic(auto, unfolding(crate::specs::Clauses::names_at))]
fn names<'t, 'a>(
    alloc: Global,
    words: &'t [Word<'a>],
) -> Result<(Vec<AttrName<'a>>, &'t [Word<'a>]), Refusal>
    ensures { Gives (λ x. (plain_namings x.0.items, words_of x.1.now)) result (names_at (words_of words.now)) }
{
    let (first, mut rest) = attribute_in_rule(words)?;
    let mut names = Vec::new(alloc);
    names.push(first)?;
    while !begins_symbol(rest, b';') {
        let (next, behind) = next_in_rule(rest)?;
        names.push(next)?;
        rest = behind;
    }
    let rest = symbol(rest, b';')?;
    Ok((names, rest))
}

/// A rule UNIQUE, and the words after it.
#[tactic(auto, unfolding(crate::specs::Clauses::unique_at))]
pub(crate) fn unique<'t, 'a>(
    alloc: Global,
    words: &'t [Word<'a>],
) -> Result<(UniqueClause<'a>, &'t [Word<'a>]), Refusal>
    ensures { Gives (λ x. (plain_unique x.0, words_of x.1.now)) result (unique_at (words_of words.now)) }
{
    let (label, rest) = if_label(words)?;
    let (names, rest) = names(alloc, rest)?;
    let clause = UniqueClause {
        label,
        names,
        place: words.len(),
    };
    Ok((clause, rest))
}

/// The attribute of an entity after the name of that one.
#[tactic(auto, unfolding(crate::specs::Clauses::attribute_of_at))]
fn attribute_of<'t, 'a>(
    of: &'a [u8],
    words: &'t [Word<'a>],
) -> Result<(AttrName<'a>, &'t [Word<'a>]), Refusal>
    ensures { Gives (λ x. (plain_naming x.0, words_of x.1.now)) result (attribute_of_at of.now (words_of words.now)) }
{
    let behind = symbol(words, b'.')?;
    let (name, rest) = name(behind)?;
    let attribute = AttrName {
        name,
        of: Some(of),
        place: behind.len(),
    };
    Ok((attribute, rest))
}

/// The attribute after FOR, perhaps after the name of its entity, and the words after it.
#[tactic(auto, unfolding(crate::specs::Clauses::attribute_at))]
fn attribute<'t, 'a>(words: &'t [Word<'a>]) -> Result<(AttrName<'a>, &'t [Word<'a>]), Refusal>
    ensures { Gives (λ x. (plain_naming x.0, words_of x.1.now)) result (attribute_at (words_of words.now)) }
{
    let (first, rest) = name(words)?;
    if begins_symbol(rest, b'.') {
        return attribute_of(first, rest);
    }
    let attribute = AttrName {
        name: first,
        of: None,
        place: words.len(),
    };
    Ok((attribute, rest))
}

/// An INVERSE attribute, and the words after it.
#[tactic(auto, unfolding(crate::specs::Clauses::inverse_at))]
pub(crate) fn inverse<'t, 'a>(
    words: &'t [Word<'a>],
) -> Result<(InverseClause<'a>, &'t [Word<'a>]), Refusal>
    ensures { Gives (λ x. (plain_inverse x.0, words_of x.1.now)) result (inverse_at (words_of words.now)) }
{
    let (declared, rest) = naming(words)?;
    let (bounds, of) = bounds_in_front(symbol(rest, b':')?)?;
    let (source, rest) = name(of)?;
    let (attribute, rest) = attribute(keyword(rest, b"FOR")?)?;
    let rest = symbol(rest, b';')?;
    let clause = InverseClause {
        name: declared,
        bounds,
        source,
        source_place: of.len(),
        attribute,
    };
    Ok((clause, rest))
}
