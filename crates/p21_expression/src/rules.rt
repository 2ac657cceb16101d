//! The rules of a WHERE clause.

ghost use Rattle.std.specs.Prelude.{◌≡◌, IfOk, map, option_map};
ghost use Rattle.p21_express.specs.Reader.{words_of, Gives};
ghost use Rattle.p21_expression.specs.Plain.{plain_name};
ghost use Rattle.p21_expression.specs.Rules.{AreRules, RuleIs, begins_comparison, has_label, if_label_at, label_at, plain_rule, rule_at, rules_at};

use crate::reader::{expression, named};
use crate::tree::{Expression, Name};
use p21_express::{Refusal, Word, begins_name, begins_symbol, symbol};
use std::alloc::Global;

/// A rule of a WHERE clause.
#[derive(Drop)]
pub struct DomainRule<'a> {
    pub label: Option<Name<'a>>,
    /// What is not to be FALSE.
    pub condition: Expression<'a>,
}

/// Whether the words go on with what no expression begins with, but `:=:` and `:<>:` do after their colon.
fn begins_comparison(words: &[Word]) -> bool
    ensures { result ≡ begins_comparison (words_of words.now) }
{
    begins_symbol(words, b'=') || begins_symbol(words, b'<')
}

/// Whether the second word is a colon that begins no operator.
fn has_label(words: &[Word]) -> bool
    ensures { result ≡ has_label (words_of words.now) }
{
    match words {
        [_, colon, rest @ ..] => colon.is_symbol(b':') && !begins_comparison(rest),
        _ => false,
    }
}

#[tactic(auto, unfolding(crate::specs::Rules::label_at))]
fn label<'t, 'a>(words: &'t [Word<'a>]) -> Result<(Option<Name<'a>>, &'t [Word<'a>]), Refusal>
    ensures { Gives (λ x. (option_map plain_name x.0, words_of x.1.now)) result (label_at (words_of words.now)) }
{
    let (label, rest) = named(words)?;
    Ok((Some(label), symbol(rest, b':')?))
}

/// The label of a rule, where it has one, and the words after the colon.
#[tactic(auto, unfolding(crate::specs::Rules::if_label_at))]
fn if_label<'t, 'a>(words: &'t [Word<'a>]) -> Result<(Option<Name<'a>>, &'t [Word<'a>]), Refusal>
    ensures { Gives (λ x. (option_map plain_name x.0, words_of x.1.now)) result (if_label_at (words_of words.now)) }
{
    if has_label(words) {
        return label(words);
    }
    Ok((None, words))
}

/// A rule, and the words after its semicolon.
/// A rule of a WHERE clause with its semicolon, and the words after it. It is refused as an expression is.
pub fn domain_rule<'t, 'a>(
    alloc: Global,
    words: &'t [Word<'a>],
) -> Result<(DomainRule<'a>, &'t [Word<'a>]), Refusal>
    // By the grammar the words begin with this rule.
    ensures reading { IfOk result (λ x. RuleIs (words_of words.now) (plain_rule x.0) (words_of x.1.now)) }
    // It is what reading the words one after the other gives, and an error other than out of memory says that this gives nothing.
    ensures same { Gives (λ x. (plain_rule x.0, words_of x.1.now)) result (rule_at (words_of words.now)) }
{
    rule(alloc, words)
}

#[tactic(auto, unfolding(crate::specs::Rules::rule_at))]
fn rule<'t, 'a>(
    alloc: Global,
    words: &'t [Word<'a>],
) -> Result<(DomainRule<'a>, &'t [Word<'a>]), Refusal>
    ensures { Gives (λ x. (plain_rule x.0, words_of x.1.now)) result (rule_at (words_of words.now)) }
{
    let (label, rest) = if_label(words)?;
    let (condition, rest) = expression(alloc, rest)?;
    let rest = symbol(rest, b';')?;
    Ok((DomainRule { label, condition }, rest))
}

/// Rules up to this word.
fn rules_up_to<'t, 'a>(
    alloc: Global,
    words: &'t [Word<'a>],
    last: &[u8],
) -> Result<(Vec<DomainRule<'a>>, &'t [Word<'a>]), Refusal>
    ensures { Gives (λ x. (map plain_rule x.0.items, words_of x.1.now)) result (rules_at last.now (words_of words.now)) }
{
    let (_, mut rest) = words.split_at(0);
    let mut rules = Vec::new(alloc);
    while !begins_name(rest, last) {
        let (next, behind) = rule(alloc, rest)?;
        rules.push(next)?;
        rest = behind;
    }
    Ok((rules, rest))
}

/// The rules of a WHERE clause, after that word and up to the word that ends what it stands in, which is `END_ENTITY`, `END_TYPE` or
/// `END_RULE`. It is refused as an expression is.
pub fn domain_rules<'t, 'a>(
    alloc: Global,
    words: &'t [Word<'a>],
    last: &[u8],
) -> Result<(Vec<DomainRule<'a>>, &'t [Word<'a>]), Refusal>
    // By the grammar the words begin with these rules, and go on with that word.
    ensures reading { IfOk result (λ x. AreRules last.now (words_of words.now) (map plain_rule x.0.items) (words_of x.1.now)) }
    // They are what reading the words one after the other gives, and an error other than out of memory says that this gives nothing.
    ensures same { Gives (λ x. (map plain_rule x.0.items, words_of x.1.now)) result (rules_at last.now (words_of words.now)) }
{
    rules_up_to(alloc, words, last)
}
