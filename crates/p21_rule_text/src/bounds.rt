//! The bounds of an INVERSE attribute.

ghost use Rattle.std.specs.Prelude.{◌≡◌};
ghost use Rattle.p21_express.specs.Grammar.{width_of};
ghost use Rattle.p21_express.specs.Reader.{words_of, Gives};
ghost use Rattle.p21_rule_text.specs.Bounds.{any, bounds_at, bounds_of, collection_at, if_brackets_at, in_brackets_at, is_unbounded};

use p21_express::{Refusal, Word, begins_symbol, if_name, keyword, symbol, up_to};

/// How many instances may refer by an INVERSE attribute.
#[derive(Clone, Copy)]
pub(crate) struct Bounds {
    pub(crate) is_bag: bool,
    pub(crate) low: u64,
    /// None where there is no end.
    pub(crate) high: Option<u64>,
}

/// Any number.
fn any(is_bag: bool) -> Bounds
    ensures { result ≡ any is_bag }
{
    Bounds {
        is_bag,
        low: 0,
        high: None,
    }
}

/// The number that some words are: one whole number.
fn number(words: &[Word]) -> Option<u64>
    ensures { result ≡ width_of (words_of words.now) }
{
    match words {
        [word] => word.value(),
        _ => None,
    }
}

/// Whether some words are a question mark.
fn is_unbounded(words: &[Word]) -> bool
    ensures { result ≡ is_unbounded (words_of words.now) }
{
    match words {
        [word] => word.is_symbol(b'?'),
        _ => false,
    }
}

/// The bounds that some words give, or `None` where they are no numbers.
fn bounds_of(is_bag: bool, low: &[Word], high: &[Word]) -> Option<Bounds>
    ensures { result ≡ bounds_of is_bag (words_of low.now) (words_of high.now) }
{
    let low = number(low)?;
    let high = if is_unbounded(high) {
        None
    } else {
        Some(number(high)?)
    };
    Some(Bounds { is_bag, low, high })
}

#[tactic(auto, unfolding(crate::specs::Bounds::in_brackets_at))]
fn in_brackets<'t, 'a>(
    is_bag: bool,
    words: &'t [Word<'a>],
) -> Result<(Option<Bounds>, &'t [Word<'a>]), Refusal>
    ensures { Gives (λ x. (x.0, words_of x.1.now)) result (in_brackets_at is_bag (words_of words.now)) }
{
    let (low, rest) = up_to(symbol(words, b'[')?, b':')?;
    let (high, rest) = up_to(rest, b']')?;
    Ok((bounds_of(is_bag, low, high), rest))
}

#[tactic(auto, unfolding(crate::specs::Bounds::if_brackets_at))]
fn if_brackets<'t, 'a>(
    is_bag: bool,
    words: &'t [Word<'a>],
) -> Result<(Option<Bounds>, &'t [Word<'a>]), Refusal>
    ensures { Gives (λ x. (x.0, words_of x.1.now)) result (if_brackets_at is_bag (words_of words.now)) }
{
    if begins_symbol(words, b'[') {
        return in_brackets(is_bag, words);
    }
    Ok((Some(any(is_bag)), words))
}

/// The bounds after SET or BAG, and the words after OF.
#[tactic(auto, unfolding(crate::specs::Bounds::collection_at))]
fn collection<'t, 'a>(
    is_bag: bool,
    words: &'t [Word<'a>],
) -> Result<(Option<Bounds>, &'t [Word<'a>]), Refusal>
    ensures { Gives (λ x. (x.0, words_of x.1.now)) result (collection_at is_bag (words_of words.now)) }
{
    let (bounds, rest) = if_brackets(is_bag, words)?;
    Ok((bounds, keyword(rest, b"OF")?))
}

/// The bounds in front of the entity that refers, or `None` where they are no numbers, and the words after them.
#[tactic(auto, unfolding(crate::specs::Bounds::bounds_at))]
pub(crate) fn bounds_in_front<'t, 'a>(
    words: &'t [Word<'a>],
) -> Result<(Option<Bounds>, &'t [Word<'a>]), Refusal>
    ensures { Gives (λ x. (x.0, words_of x.1.now)) result (bounds_at (words_of words.now)) }
{
    let (is_set, behind) = if_name(words, b"SET");
    if is_set {
        return collection(false, behind);
    }
    let (is_bag, behind) = if_name(words, b"BAG");
    if is_bag {
        return collection(true, behind);
    }
    let one = Bounds {
        is_bag: false,
        low: 1,
        high: Some(1),
    };
    Ok((Some(one), words))
}
