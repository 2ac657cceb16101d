//! Types, as attributes have them and as they stand under a TYPE.

ghost use Rattle.std.specs.Prelude.{◌≡◌, ◌<◌, ◌^◌, codes, IfSome};
ghost use Rattle.p21_express.specs.Grammar.{width_of, bound_of, bound_from};
ghost use Rattle.p21_express.specs.Plain.{plain_expr};
ghost use Rattle.p21_express.specs.Reader.{words_of, Gives, bounds_at, if_bounds, aggregate_at, width_at, simple_at, expr_at};
ghost use Rattle.p21_express.specs.Layer.{plain_layer};

use crate::declarations::{Bounds, TypeExpr, Width};
use crate::keywords::{AggregateWord, SimpleWord, TypeWord, type_word};
use crate::layer::Layer;
use crate::parts::{begins_symbol, if_group, if_name, name, symbol, up_to, word};
use crate::refusal::Refusal;
use crate::word::Word;
use std::alloc::Global;

/// The width that a group gives: one whole number.
fn width_count(words: &[Word]) -> Option<u64>
    ensures { result ≡ width_of (words_of words.now) }
{
    match words {
        [word] => word.value(),
        _ => None,
    }
}

/// The bound that some words give: one whole number, perhaps after one sign.
fn bound(words: &[Word]) -> Option<i64>
    ensures { result ≡ bound_of (words_of words.now) }
{
    match words {
        [word] => signed(word.value(), false),
        [sign, word] if sign.is_symbol(b'+') => signed(word.value(), false),
        [sign, word] if sign.is_symbol(b'-') => signed(word.value(), true),
        _ => None,
    }
}

fn signed(value: Option<u64>, minus: bool) -> Option<i64>
    requires { IfSome value (λ v. v < 10 ^ 18) }
    ensures { result ≡ bound_from value minus }
{
    let value = value? as i64;
    Some(if minus { -value } else { value })
}

#[tactic(auto, unfolding(crate::specs::Reader::bounds_at))]
fn bounds<'t, 'a>(words: &'t [Word<'a>]) -> Result<(Bounds, &'t [Word<'a>]), Refusal>
    ensures { Gives (λ x. (x.0, words_of x.1.now)) result (bounds_at (words_of words.now)) }
{
    let (low, rest) = up_to(symbol(words, b'[')?, b':')?;
    let (high, rest) = up_to(rest, b']')?;
    let bounds = Bounds {
        low: bound(low),
        high: bound(high),
    };
    Ok((bounds, rest))
}

/// The bounds of an aggregate; without them it has 0 elements or more.
#[tactic(auto, unfolding(crate::specs::Reader::if_bounds))]
fn if_bounds<'t, 'a>(words: &'t [Word<'a>]) -> Result<(Bounds, &'t [Word<'a>]), Refusal>
    ensures { Gives (λ x. (x.0, words_of x.1.now)) result (if_bounds (words_of words.now)) }
{
    if begins_symbol(words, b'[') {
        return bounds(words);
    }
    let bounds = Bounds {
        low: Some(0),
        high: None,
    };
    Ok((bounds, words))
}

/// An aggregate without its element, after its first word.
#[tactic(auto, unfolding(crate::specs::Reader::array_at, crate::specs::Reader::list_at, crate::specs::Reader::set_at, crate::specs::Reader::bag_at))]
fn layer<'t, 'a>(
    first: AggregateWord,
    words: &'t [Word<'a>],
) -> Result<(Layer, &'t [Word<'a>]), Refusal>
    ensures { Gives (λ x. (plain_layer x.0, words_of x.1.now)) result (aggregate_at first (words_of words.now)) }
{
    match first {
        AggregateWord::Array => {
            let (bounds, rest) = bounds(words)?;
            let (optional, rest) = if_name(word(rest, b"OF")?, b"OPTIONAL");
            let (_, rest) = if_name(rest, b"UNIQUE");
            Ok((Layer::Array(bounds, optional), rest))
        }
        AggregateWord::List => {
            let (bounds, rest) = if_bounds(words)?;
            let (unique, rest) = if_name(word(rest, b"OF")?, b"UNIQUE");
            Ok((Layer::List(bounds, unique), rest))
        }
        AggregateWord::Set => {
            let (bounds, rest) = if_bounds(words)?;
            Ok((Layer::Set(bounds), word(rest, b"OF")?))
        }
        AggregateWord::Bag => {
            let (bounds, rest) = if_bounds(words)?;
            Ok((Layer::Bag(bounds), word(rest, b"OF")?))
        }
    }
}

/// The width of a STRING or a BINARY.
#[tactic(auto, unfolding(crate::specs::Reader::width_at))]
fn width<'t, 'a>(words: &'t [Word<'a>]) -> Result<(Width, &'t [Word<'a>]), Refusal>
    ensures { Gives (λ x. (x.0, words_of x.1.now)) result (width_at (words_of words.now)) }
{
    let (group, rest) = if_group(words)?;
    let (fixed, rest) = if_name(rest, b"FIXED");
    let width = Width {
        count: width_count(group),
        fixed,
    };
    Ok((width, rest))
}

/// A type that is no aggregate, after its first word, which is `first`.
#[tactic(auto, unfolding(crate::specs::Reader::real_at, crate::specs::Reader::text_at, crate::specs::Reader::binary_at))]
fn simple<'t, 'a>(
    alloc: Global,
    first: &[u8],
    word: SimpleWord,
    words: &'t [Word<'a>],
) -> Result<(TypeExpr, &'t [Word<'a>]), Refusal>
    ensures { Gives (λ x. (plain_expr x.0, words_of x.1.now)) result (simple_at first.now word (words_of words.now)) }
{
    match word {
        SimpleWord::Integer => Ok((TypeExpr::Integer, words)),
        SimpleWord::Number => Ok((TypeExpr::Number, words)),
        SimpleWord::Boolean => Ok((TypeExpr::Boolean, words)),
        SimpleWord::Logical => Ok((TypeExpr::Logical, words)),
        SimpleWord::Real => {
            let (_, rest) = if_group(words)?;
            Ok((TypeExpr::Real, rest))
        }
        SimpleWord::Text => {
            let (width, rest) = width(words)?;
            Ok((TypeExpr::Text(width), rest))
        }
        SimpleWord::Binary => {
            let (width, rest) = width(words)?;
            Ok((TypeExpr::Binary(width), rest))
        }
        SimpleWord::Named => Ok((TypeExpr::Named(Vec::from_slice(alloc, first)?), words)),
    }
}

/// A type in which so many more aggregates may be nested; how many words stand from the name in it on, where it has
/// one; and the words after it.
pub(crate) fn type_expr<'t, 'a>(
    alloc: Global,
    words: &'t [Word<'a>],
    left: usize,
) -> Result<(TypeExpr, usize, &'t [Word<'a>]), Refusal>
    ensures { Gives (λ x. (plain_expr x.0, words_of x.2.now)) result (expr_at left (words_of words.now)) }
{
    let (first, rest) = name(words)?;
    match type_word(first) {
        TypeWord::Simple(word) => {
            let (texpr, rest) = simple(alloc, first, word, rest)?;
            Ok((texpr, words.len(), rest))
        }
        TypeWord::Aggregate(word) => {
            if left == 0 {
                return Err(Refusal::not_supported(words.len()));
            }
            let (layer, rest) = layer(word, rest)?;
            let (item, place, rest) = type_expr(alloc, rest, left - 1)?;
            Ok((layer.around(alloc, item)?, place, rest))
        }
    }
}
