//! The operators of two operands, and how tightly they bind.

ghost use Rattle.std.specs.Prelude.{◌≡◌, option_map};
ghost use Rattle.p21_express.specs.Reader.{words_of, symbol_at};
ghost use Rattle.p21_expression.specs.Operators.{ends_operations, instance_operator_at, less_at, longer_at, operator_at, other_instance_at, precedence_of, rank_of, same_instance_at, symbol_operator_at, word_operator_of};

use crate::tree::BinaryOperator;
use p21_express::{Word, begins_symbol};

/// How tightly operators bind, from the loosest on.
#[derive(Clone, Copy, Debug, PartialEq, Eq)]
pub enum Precedence {
    /// `<` `>` `<=` `>=` `<>` `=` `:<>:` `:=:` IN LIKE
    Relation,
    /// `+` `-` OR XOR
    Sum,
    /// `*` `/` DIV MOD AND `||`
    Product,
    /// `**`
    Power,
}

impl Precedence {
    /// How many bind more loosely.
    pub(crate) fn rank(self) -> u8
        ensures { result ≡ rank_of self }
    {
        match self {
            Precedence::Relation => 0,
            Precedence::Sum => 1,
            Precedence::Product => 2,
            Precedence::Power => 3,
        }
    }
}

impl BinaryOperator {
    /// How tightly it binds.
    pub fn precedence(self) -> Precedence
        ensures { result ≡ precedence_of self }
    {
        match self {
            BinaryOperator::Power => Precedence::Power,
            BinaryOperator::Times => Precedence::Product,
            BinaryOperator::Divide => Precedence::Product,
            BinaryOperator::Div => Precedence::Product,
            BinaryOperator::Mod => Precedence::Product,
            BinaryOperator::And => Precedence::Product,
            BinaryOperator::Combine => Precedence::Product,
            BinaryOperator::Plus => Precedence::Sum,
            BinaryOperator::Minus => Precedence::Sum,
            BinaryOperator::Or => Precedence::Sum,
            BinaryOperator::Xor => Precedence::Sum,
            BinaryOperator::Less => Precedence::Relation,
            BinaryOperator::Greater => Precedence::Relation,
            BinaryOperator::LessOrEqual => Precedence::Relation,
            BinaryOperator::GreaterOrEqual => Precedence::Relation,
            BinaryOperator::NotEqual => Precedence::Relation,
            BinaryOperator::Equal => Precedence::Relation,
            BinaryOperator::OtherInstance => Precedence::Relation,
            BinaryOperator::SameInstance => Precedence::Relation,
            BinaryOperator::In => Precedence::Relation,
            BinaryOperator::Like => Precedence::Relation,
        }
    }
}

/// The words after this symbol, if it stands there.
pub(crate) fn after_symbol<'t, 'a>(words: &'t [Word<'a>], symbol: u8) -> Option<&'t [Word<'a>]>
    ensures { option_map (λ x. words_of x.now) result ≡ symbol_at symbol (words_of words.now) }
{
    match words.split_first() {
        Some((word, rest)) if word.is_symbol(symbol) => Some(rest),
        _ => None,
    }
}

/// The longer operator where this symbol goes on, and else the shorter one, and the words after it.
fn longer<'t, 'a>(
    words: &'t [Word<'a>],
    symbol: u8,
    long: BinaryOperator,
    short: BinaryOperator,
) -> (BinaryOperator, &'t [Word<'a>])
    ensures { (result.0, words_of result.1.now) ≡ longer_at symbol long short (words_of words.now) }
{
    match words.split_first() {
        Some((word, rest)) if word.is_symbol(symbol) => (long, rest),
        _ => (short, words),
    }
}

/// The operator that begins with `<`, after that.
fn less<'t, 'a>(words: &'t [Word<'a>]) -> (BinaryOperator, &'t [Word<'a>])
    ensures { (result.0, words_of result.1.now) ≡ less_at (words_of words.now) }
{
    if begins_symbol(words, b'>') {
        return longer(words, b'>', BinaryOperator::NotEqual, BinaryOperator::Less);
    }
    longer(
        words,
        b'=',
        BinaryOperator::LessOrEqual,
        BinaryOperator::Less,
    )
}

/// `=:`
fn same_instance<'t, 'a>(words: &'t [Word<'a>]) -> Option<(BinaryOperator, &'t [Word<'a>])>
    ensures { option_map (λ x. (x.0, words_of x.1.now)) result ≡ same_instance_at (words_of words.now) }
{
    let rest = after_symbol(words, b'=')?;
    Some((BinaryOperator::SameInstance, after_symbol(rest, b':')?))
}

/// `<>:`
fn other_instance<'t, 'a>(words: &'t [Word<'a>]) -> Option<(BinaryOperator, &'t [Word<'a>])>
    ensures { option_map (λ x. (x.0, words_of x.1.now)) result ≡ other_instance_at (words_of words.now) }
{
    let rest = after_symbol(words, b'<')?;
    let rest = after_symbol(rest, b'>')?;
    Some((BinaryOperator::OtherInstance, after_symbol(rest, b':')?))
}

/// The operator that begins with a colon, after that.
fn instance_operator<'t, 'a>(words: &'t [Word<'a>]) -> Option<(BinaryOperator, &'t [Word<'a>])>
    ensures { option_map (λ x. (x.0, words_of x.1.now)) result ≡ instance_operator_at (words_of words.now) }
{
    if begins_symbol(words, b'=') {
        return same_instance(words);
    }
    other_instance(words)
}

/// The operator that begins with a symbol, and the words after it.
#[tactic(auto, unfolding(crate::specs::Operators::symbol_operator_at))]
fn symbol_operator<'t, 'a>(
    first: u8,
    words: &'t [Word<'a>],
) -> Option<(BinaryOperator, &'t [Word<'a>])>
    ensures { option_map (λ x. (x.0, words_of x.1.now)) result ≡ symbol_operator_at first (words_of words.now) }
{
    if first == b'*' {
        return Some(longer(words, b'*', BinaryOperator::Power, BinaryOperator::Times));
    }
    if first == b'/' {
        return Some((BinaryOperator::Divide, words));
    }
    if first == b'+' {
        return Some((BinaryOperator::Plus, words));
    }
    if first == b'-' {
        return Some((BinaryOperator::Minus, words));
    }
    if first == b'=' {
        return Some((BinaryOperator::Equal, words));
    }
    if first == b'<' {
        return Some(less(words));
    }
    if first == b'>' {
        return Some(longer(
            words,
            b'=',
            BinaryOperator::GreaterOrEqual,
            BinaryOperator::Greater,
        ));
    }
    if first == b'|' {
        return Some((BinaryOperator::Combine, after_symbol(words, b'|')?));
    }
    if first == b':' {
        return instance_operator(words);
    }
    None
}

/// The operator that is a word.
#[tactic(auto, unfolding(crate::specs::Operators::word_operator_of))]
fn word_operator(word: &[u8]) -> Option<BinaryOperator>
    ensures { result ≡ word_operator_of word.now }
{
    if word == b"AND".as_slice() {
        return Some(BinaryOperator::And);
    }
    if word == b"OR".as_slice() {
        return Some(BinaryOperator::Or);
    }
    if word == b"IN".as_slice() {
        return Some(BinaryOperator::In);
    }
    if word == b"LIKE".as_slice() {
        return Some(BinaryOperator::Like);
    }
    if word == b"XOR".as_slice() {
        return Some(BinaryOperator::Xor);
    }
    if word == b"DIV".as_slice() {
        return Some(BinaryOperator::Div);
    }
    if word == b"MOD".as_slice() {
        return Some(BinaryOperator::Mod);
    }
    None
}

/// The operator with which words begin, and those after it.
pub(crate) fn operator<'t, 'a>(words: &'t [Word<'a>]) -> Option<(BinaryOperator, &'t [Word<'a>])>
    ensures { option_map (λ x. (x.0, words_of x.1.now)) result ≡ operator_at (words_of words.now) }
{
    match words.split_first()? {
        (Word::Name(word), rest) => Some((word_operator(word)?, rest)),
        (Word::Symbol(first), rest) => symbol_operator(*first, rest),
        _ => None,
    }
}

/// Whether no operator of this precedence stands there.
pub(crate) fn ends_operations(words: &[Word], precedence: Precedence) -> bool
    ensures { result ≡ ends_operations precedence (words_of words.now) }
{
    match operator(words) {
        Some((operator, _)) => operator.precedence().rank() != precedence.rank(),
        None => true,
    }
}
