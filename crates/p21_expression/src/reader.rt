//! The reader of expressions.

ghost use Rattle.std.specs.Prelude.{◌≡◌, IfOk, map};
ghost use Rattle.p21_express.specs.Reader.{words_of, word_of, Gives};
ghost use Rattle.p21_expression.specs.Grammar.{AreQualifiers, IsExpression, IsSimple};
ghost use Rattle.p21_expression.specs.Plain.{plain, plain_element, plain_name, plain_operation, plain_qualifier};
ghost use Rattle.p21_expression.specs.Reader.{all_qualifiers_at, simple_at, aggregate_at, arguments_at, call_at, chain_at, element_at, elements_at, ends_qualifiers, expression_at, factor_at, factor_word_of, fits, group_at, index_at, interval_at, interval_operator_at, is_at_most_one, named_at, next_argument, next_element, operand_at, operand_of, operation_at, operations_at, primary_at, qualifiable_at, qualified_at, qualifier_at, qualifiers_at, query_at, reading, sign_at, some_arguments_at, some_elements_at, word_operand_at};

use crate::literals::{OperandWord, literal, operand_word, place};
use crate::made::{queried, with_operations, with_qualifiers, with_sign, within};
use crate::operators::{Precedence, ends_operations, operator};
use crate::tree::{
    Constant, Element, Expression, IntervalOperator, Name, Operation, Qualifier, UnaryOperator,
};
use p21_express::{Kind, Refusal, Word, begins_symbol, name, symbol};
use std::alloc::Global;

/// The most expressions that may stand within one another.
const DEEPEST: usize = 256;

/// What a word says where a simple factor begins.
#[derive(Clone, Copy)]
enum FactorWord {
    Unary(UnaryOperator),
    Aggregate,
    Interval,
    Query,
    Operand,
}

#[tactic(auto, unfolding(crate::specs::Reader::factor_word_of))]
fn factor_word(word: Word) -> FactorWord
    ensures { result ≡ factor_word_of (word_of word.entry) }
{
    if word.is_symbol(b'[') {
        return FactorWord::Aggregate;
    }
    if word.is_symbol(b'{') {
        return FactorWord::Interval;
    }
    if word.is_symbol(b'-') {
        return FactorWord::Unary(UnaryOperator::Minus);
    }
    if word.is_symbol(b'+') {
        return FactorWord::Unary(UnaryOperator::Plus);
    }
    if word.is_name(b"NOT") {
        return FactorWord::Unary(UnaryOperator::Not);
    }
    if word.is_name(b"QUERY") {
        return FactorWord::Query;
    }
    FactorWord::Operand
}

/// Any name or word of the language, with its place, and the words after it. Another word is refused as `Syntax`, and so is the end.
#[tactic(auto, unfolding(crate::specs::Reader::named_at))]
pub fn named<'t, 'a>(words: &'t [Word<'a>]) -> Result<(Name<'a>, &'t [Word<'a>]), Refusal>
    ensures { Gives (λ x. (plain_name x.0, words_of x.1.now)) result (named_at (words_of words.now)) }
{
    let place = place(words);
    let (text, rest) = name(words)?;
    Ok((Name { text, place }, rest))
}

/// `<` or `<=`
#[tactic(auto, unfolding(crate::specs::Reader::interval_operator_at))]
fn interval_operator<'t, 'a>(
    words: &'t [Word<'a>],
) -> Result<(IntervalOperator, &'t [Word<'a>]), Refusal>
    ensures { Gives (λ x. (x.0, words_of x.1.now)) result (interval_operator_at (words_of words.now)) }
{
    let rest = symbol(words, b'<')?;
    if begins_symbol(rest, b'=') {
        return Ok((IntervalOperator::LessOrEqual, symbol(rest, b'=')?));
    }
    Ok((IntervalOperator::Less, rest))
}

/// Whether no qualifier stands there.
fn ends_qualifiers(words: &[Word]) -> bool
    ensures { result ≡ ends_qualifiers (words_of words.now) }
{
    !(begins_symbol(words, b'.') || begins_symbol(words, b'\\') || begins_symbol(words, b'['))
}

/// Whether so many operations of one precedence may follow one another. Relations and powers do not.
fn fits(precedence: Precedence, further: &[Operation]) -> bool
    ensures { result ≡ fits precedence (map plain_operation further.now) }
{
    match precedence {
        Precedence::Relation => is_at_most_one(further),
        Precedence::Power => is_at_most_one(further),
        Precedence::Sum => true,
        Precedence::Product => true,
    }
}

fn is_at_most_one(further: &[Operation]) -> bool
    ensures { result ≡ is_at_most_one (map plain_operation further.now) }
{
    match further {
        [] => true,
        [_] => true,
        _ => false,
    }
}

/// An expression, and the words after it. It is the longest that stands there. Other words are refused as `Syntax`, and one in
/// which more than 256 expressions stand within one another as `NotSupported`.
pub fn expression<'t, 'a>(
    alloc: Global,
    words: &'t [Word<'a>],
) -> Result<(Expression<'a>, &'t [Word<'a>]), Refusal>
    // By the grammar the words begin with this expression, and the others stand after it.
    ensures reading { IfOk result (λ x. IsExpression (words_of words.now) (plain x.0) (words_of x.1.now)) }
    // It is what reading the words one after the other gives, and an error other than out of memory says that this gives nothing.
    ensures same { Gives (λ x. (plain x.0, words_of x.1.now)) result (expression_at (words_of words.now)) }
{
    nested(alloc, words, Precedence::Relation, DEEPEST)
}

/// An expression with no relation outside parentheses and other brackets, and the words after it. It is refused as `expression` is.
pub fn simple_expression<'t, 'a>(
    alloc: Global,
    words: &'t [Word<'a>],
) -> Result<(Expression<'a>, &'t [Word<'a>]), Refusal>
    // By the grammar the words begin with this simple expression, and the others stand after it.
    ensures reading { IfOk result (λ x. IsSimple (words_of words.now) (plain x.0) (words_of x.1.now)) }
    // It is what reading the words one after the other gives, and an error other than out of memory says that this gives nothing.
    ensures same { Gives (λ x. (plain x.0, words_of x.1.now)) result (simple_at (words_of words.now)) }
{
    nested(alloc, words, Precedence::Sum, DEEPEST)
}

/// The qualifiers that follow a name, and the words after them. They are refused as an expression is.
pub fn qualifiers_after<'t, 'a>(
    alloc: Global,
    words: &'t [Word<'a>],
) -> Result<(Vec<Qualifier<'a>>, &'t [Word<'a>]), Refusal>
    // By the grammar the words begin with these qualifiers, and the others stand after them.
    ensures reading { IfOk result (λ x. AreQualifiers (words_of words.now) (map plain_qualifier x.0.items) (words_of x.1.now)) }
    // They are what reading the words one after the other gives, and an error other than out of memory says that this gives nothing.
    ensures same { Gives (λ x. (map plain_qualifier x.0.items, words_of x.1.now)) result (all_qualifiers_at (words_of words.now)) }
{
    qualifiers(alloc, words, DEEPEST)
}

/// Operations of this precedence and tighter ones, where so many expressions may still stand within one another.
#[cycle(expression)]
fn nested<'t, 'a>(
    alloc: Global,
    words: &'t [Word<'a>],
    precedence: Precedence,
    left: usize,
) -> Result<(Expression<'a>, &'t [Word<'a>]), Refusal>
    ensures { Gives (λ x. (plain x.0, words_of x.1.now)) result (reading left precedence (words_of words.now)) }
{
    if left == 0 {
        return Err(Refusal::Refused(Kind::NotSupported, words.len()));
    }
    chain(alloc, words, precedence, left - 1)
}

/// An operand and the operations of this precedence that follow it.
#[cycle(expression)]
#[tactic(auto, unfolding(crate::specs::Reader::chain_by))]
fn chain<'t, 'a>(
    alloc: Global,
    words: &'t [Word<'a>],
    precedence: Precedence,
    left: usize,
) -> Result<(Expression<'a>, &'t [Word<'a>]), Refusal>
    ensures { Gives (λ x. (plain x.0, words_of x.1.now)) result (chain_at (reading left) precedence (words_of words.now)) }
{
    let (first, rest) = operand_of(alloc, words, precedence, left)?;
    let (further, rest) = operations(alloc, rest, precedence, left)?;
    if !fits(precedence, &further) {
        return Err(Refusal::syntax(rest.len()));
    }
    Ok((with_operations(alloc, first, further)?, rest))
}

/// The operations of this precedence that follow an operand.
#[cycle(expression)]
fn operations<'t, 'a>(
    alloc: Global,
    words: &'t [Word<'a>],
    precedence: Precedence,
    left: usize,
) -> Result<(Vec<Operation<'a>>, &'t [Word<'a>]), Refusal>
    ensures { Gives (λ x. (map plain_operation x.0.items, words_of x.1.now)) result (operations_at (operand_of (reading left) precedence) precedence (words_of words.now)) }
{
    let (_, mut rest) = words.split_at(0);
    let mut further = Vec::new(alloc);
    while !ends_operations(rest, precedence) {
        let (next, behind) = operation(alloc, rest, precedence, left)?;
        further.push(next)?;
        rest = behind;
    }
    Ok((further, rest))
}

/// An operator and the operand after it.
#[cycle(expression)]
#[tactic(auto, unfolding(crate::specs::Reader::operation_at))]
fn operation<'t, 'a>(
    alloc: Global,
    words: &'t [Word<'a>],
    precedence: Precedence,
    left: usize,
) -> Result<(Operation<'a>, &'t [Word<'a>]), Refusal>
    ensures { Gives (λ x. (plain_operation x.0, words_of x.1.now)) result (operation_at (operand_of (reading left) precedence) (words_of words.now)) }
{
    let place = place(words);
    match operator(words) {
        Some((operator, rest)) => {
            let (right, rest) = operand_of(alloc, rest, precedence, left)?;
            let operation = Operation {
                operator,
                place,
                right,
            };
            Ok((operation, rest))
        }
        None => Err(Refusal::syntax(words.len())),
    }
}

/// An operand of an operation of this precedence.
#[cycle(expression)]
fn operand_of<'t, 'a>(
    alloc: Global,
    words: &'t [Word<'a>],
    precedence: Precedence,
    left: usize,
) -> Result<(Expression<'a>, &'t [Word<'a>]), Refusal>
    ensures { Gives (λ x. (plain x.0, words_of x.1.now)) result (operand_of (reading left) precedence (words_of words.now)) }
{
    match precedence {
        Precedence::Relation => chain(alloc, words, Precedence::Sum, left),
        Precedence::Sum => chain(alloc, words, Precedence::Product, left),
        Precedence::Product => chain(alloc, words, Precedence::Power, left),
        Precedence::Power => factor(alloc, words, left),
    }
}

/// A simple factor.
#[cycle(expression)]
#[tactic(auto, unfolding(crate::specs::Reader::factor_at))]
fn factor<'t, 'a>(
    alloc: Global,
    words: &'t [Word<'a>],
    left: usize,
) -> Result<(Expression<'a>, &'t [Word<'a>]), Refusal>
    ensures { Gives (λ x. (plain x.0, words_of x.1.now)) result (factor_at (reading left) (words_of words.now)) }
{
    match words.split_first() {
        None => Err(Refusal::syntax(0)),
        Some((first, rest)) => match factor_word(*first) {
            FactorWord::Unary(operator) => signed(alloc, operator, rest, left),
            FactorWord::Aggregate => aggregate(alloc, rest, left),
            FactorWord::Interval => interval(alloc, rest, left),
            FactorWord::Query => query(alloc, rest, left),
            FactorWord::Operand => operand(alloc, words, left),
        },
    }
}

/// An operand after its sign or NOT.
#[cycle(expression)]
#[tactic(auto, unfolding(crate::specs::Reader::sign_at))]
fn signed<'t, 'a>(
    alloc: Global,
    operator: UnaryOperator,
    words: &'t [Word<'a>],
    left: usize,
) -> Result<(Expression<'a>, &'t [Word<'a>]), Refusal>
    ensures { Gives (λ x. (plain x.0, words_of x.1.now)) result (sign_at (reading left) operator (words_of words.now)) }
{
    let (of, rest) = operand(alloc, words, left)?;
    Ok((with_sign(alloc, operator, of)?, rest))
}

/// An expression in parentheses, or a primary.
#[cycle(expression)]
fn operand<'t, 'a>(
    alloc: Global,
    words: &'t [Word<'a>],
    left: usize,
) -> Result<(Expression<'a>, &'t [Word<'a>]), Refusal>
    ensures { Gives (λ x. (plain x.0, words_of x.1.now)) result (operand_at (reading left) (words_of words.now)) }
{
    if begins_symbol(words, b'(') {
        return group(alloc, words, left);
    }
    primary(alloc, words, left)
}

/// An expression in parentheses.
#[cycle(expression)]
#[tactic(auto, unfolding(crate::specs::Reader::group_at))]
fn group<'t, 'a>(
    alloc: Global,
    words: &'t [Word<'a>],
    left: usize,
) -> Result<(Expression<'a>, &'t [Word<'a>]), Refusal>
    ensures { Gives (λ x. (plain x.0, words_of x.1.now)) result (group_at (reading left) (words_of words.now)) }
{
    let inner = symbol(words, b'(')?;
    let (inside, rest) = nested(alloc, inner, Precedence::Relation, left)?;
    Ok((inside, symbol(rest, b')')?))
}

/// A literal, or a value that may be qualified.
#[cycle(expression)]
fn primary<'t, 'a>(
    alloc: Global,
    words: &'t [Word<'a>],
    left: usize,
) -> Result<(Expression<'a>, &'t [Word<'a>]), Refusal>
    ensures { Gives (λ x. (plain x.0, words_of x.1.now)) result (primary_at (reading left) (words_of words.now)) }
{
    match literal(words) {
        Some(found) => Ok(found),
        None => qualified(alloc, words, left),
    }
}

/// A value and the qualifiers that follow it.
#[cycle(expression)]
#[tactic(auto, unfolding(crate::specs::Reader::qualified_at))]
fn qualified<'t, 'a>(
    alloc: Global,
    words: &'t [Word<'a>],
    left: usize,
) -> Result<(Expression<'a>, &'t [Word<'a>]), Refusal>
    ensures { Gives (λ x. (plain x.0, words_of x.1.now)) result (qualified_at (reading left) (words_of words.now)) }
{
    let (of, rest) = qualifiable(alloc, words, left)?;
    let (by, rest) = qualifiers(alloc, rest, left)?;
    Ok((with_qualifiers(alloc, of, by)?, rest))
}

/// `?`, a constant, a name, or a call.
#[cycle(expression)]
#[tactic(auto, unfolding(crate::specs::Reader::qualifiable_at))]
fn qualifiable<'t, 'a>(
    alloc: Global,
    words: &'t [Word<'a>],
    left: usize,
) -> Result<(Expression<'a>, &'t [Word<'a>]), Refusal>
    ensures { Gives (λ x. (plain x.0, words_of x.1.now)) result (qualifiable_at (reading left) (words_of words.now)) }
{
    if begins_symbol(words, b'?') {
        let rest = symbol(words, b'?')?;
        return Ok((Expression::Constant(Constant::Indeterminate), rest));
    }
    let (name, rest) = named(words)?;
    word_operand(alloc, name, rest, left)
}

/// The operand that begins with this name.
#[cycle(expression)]
fn word_operand<'t, 'a>(
    alloc: Global,
    name: Name<'a>,
    words: &'t [Word<'a>],
    left: usize,
) -> Result<(Expression<'a>, &'t [Word<'a>]), Refusal>
    ensures { Gives (λ x. (plain x.0, words_of x.1.now)) result (word_operand_at (reading left) (plain_name name.entry) (words_of words.now)) }
{
    match operand_word(name.text) {
        OperandWord::Constant(constant) => Ok((Expression::Constant(constant), words)),
        OperandWord::Reserved => Err(Refusal::syntax(name.place)),
        OperandWord::Plain => {
            if begins_symbol(words, b'(') {
                return call(alloc, name, words, left);
            }
            Ok((Expression::Name(name), words))
        }
    }
}

/// A call, after its name.
#[cycle(expression)]
#[tactic(auto, unfolding(crate::specs::Reader::call_at))]
fn call<'t, 'a>(
    alloc: Global,
    name: Name<'a>,
    words: &'t [Word<'a>],
    left: usize,
) -> Result<(Expression<'a>, &'t [Word<'a>]), Refusal>
    ensures { Gives (λ x. (plain x.0, words_of x.1.now)) result (call_at (reading left) (plain_name name.entry) (words_of words.now)) }
{
    let (arguments, rest) = arguments(alloc, symbol(words, b'(')?, left)?;
    Ok((Expression::Call(name, arguments), symbol(rest, b')')?))
}

/// The arguments of a call up to the parenthesis that closes it.
#[cycle(expression)]
fn arguments<'t, 'a>(
    alloc: Global,
    words: &'t [Word<'a>],
    left: usize,
) -> Result<(Vec<Expression<'a>>, &'t [Word<'a>]), Refusal>
    ensures { Gives (λ x. (map plain x.0.items, words_of x.1.now)) result (arguments_at (reading left) (words_of words.now)) }
{
    if begins_symbol(words, b')') {
        return Ok((Vec::new(alloc), words));
    }
    some_arguments(alloc, words, left)
}

/// Arguments of which there is one at least.
#[cycle(expression)]
#[tactic(auto, unfolding(crate::specs::Reader::some_arguments_at))]
fn some_arguments<'t, 'a>(
    alloc: Global,
    words: &'t [Word<'a>],
    left: usize,
) -> Result<(Vec<Expression<'a>>, &'t [Word<'a>]), Refusal>
    ensures { Gives (λ x. (map plain x.0.items, words_of x.1.now)) result (some_arguments_at (reading left) (words_of words.now)) }
{
    let (first, mut rest) = nested(alloc, words, Precedence::Relation, left)?;
    let mut arguments = Vec::new(alloc);
    arguments.push(first)?;
    while !begins_symbol(rest, b')') {
        let (next, behind) = next_argument(alloc, rest, left)?;
        arguments.push(next)?;
        rest = behind;
    }
    Ok((arguments, rest))
}

/// A comma and the argument after it.
#[cycle(expression)]
#[tactic(auto, unfolding(crate::specs::Reader::next_argument))]
fn next_argument<'t, 'a>(
    alloc: Global,
    words: &'t [Word<'a>],
    left: usize,
) -> Result<(Expression<'a>, &'t [Word<'a>]), Refusal>
    ensures { Gives (λ x. (plain x.0, words_of x.1.now)) result (next_argument (reading left) (words_of words.now)) }
{
    let behind = symbol(words, b',')?;
    nested(alloc, behind, Precedence::Relation, left)
}

/// An aggregate, after its bracket.
#[cycle(expression)]
#[tactic(auto, unfolding(crate::specs::Reader::aggregate_at))]
fn aggregate<'t, 'a>(
    alloc: Global,
    words: &'t [Word<'a>],
    left: usize,
) -> Result<(Expression<'a>, &'t [Word<'a>]), Refusal>
    ensures { Gives (λ x. (plain x.0, words_of x.1.now)) result (aggregate_at (reading left) (words_of words.now)) }
{
    let (elements, rest) = elements(alloc, words, left)?;
    Ok((Expression::Aggregate(elements), symbol(rest, b']')?))
}

/// The elements of an aggregate up to the bracket that closes it.
#[cycle(expression)]
fn elements<'t, 'a>(
    alloc: Global,
    words: &'t [Word<'a>],
    left: usize,
) -> Result<(Vec<Element<'a>>, &'t [Word<'a>]), Refusal>
    ensures { Gives (λ x. (map plain_element x.0.items, words_of x.1.now)) result (elements_at (reading left) (words_of words.now)) }
{
    if begins_symbol(words, b']') {
        return Ok((Vec::new(alloc), words));
    }
    some_elements(alloc, words, left)
}

/// Elements of which there is one at least.
#[cycle(expression)]
#[tactic(auto, unfolding(crate::specs::Reader::some_elements_at))]
fn some_elements<'t, 'a>(
    alloc: Global,
    words: &'t [Word<'a>],
    left: usize,
) -> Result<(Vec<Element<'a>>, &'t [Word<'a>]), Refusal>
    ensures { Gives (λ x. (map plain_element x.0.items, words_of x.1.now)) result (some_elements_at (reading left) (words_of words.now)) }
{
    let (first, mut rest) = element(alloc, words, left)?;
    let mut elements = Vec::new(alloc);
    elements.push(first)?;
    while !begins_symbol(rest, b']') {
        let (next, behind) = next_element(alloc, rest, left)?;
        elements.push(next)?;
        rest = behind;
    }
    Ok((elements, rest))
}

/// A comma and the element after it.
#[cycle(expression)]
#[tactic(auto, unfolding(crate::specs::Reader::next_element))]
fn next_element<'t, 'a>(
    alloc: Global,
    words: &'t [Word<'a>],
    left: usize,
) -> Result<(Element<'a>, &'t [Word<'a>]), Refusal>
    ensures { Gives (λ x. (plain_element x.0, words_of x.1.now)) result (next_element (reading left) (words_of words.now)) }
{
    let behind = symbol(words, b',')?;
    element(alloc, behind, left)
}

/// An element, perhaps with how often it stands there.
#[cycle(expression)]
#[tactic(auto, unfolding(crate::specs::Reader::element_at))]
fn element<'t, 'a>(
    alloc: Global,
    words: &'t [Word<'a>],
    left: usize,
) -> Result<(Element<'a>, &'t [Word<'a>]), Refusal>
    ensures { Gives (λ x. (plain_element x.0, words_of x.1.now)) result (element_at (reading left) (words_of words.now)) }
{
    let (value, rest) = nested(alloc, words, Precedence::Relation, left)?;
    if begins_symbol(rest, b':') {
        let behind = symbol(rest, b':')?;
        let (times, rest) = nested(alloc, behind, Precedence::Sum, left)?;
        return Ok((Element::Repeated(value, times), rest));
    }
    Ok((Element::Once(value), rest))
}

/// The qualifiers that follow a value.
#[cycle(expression)]
fn qualifiers<'t, 'a>(
    alloc: Global,
    words: &'t [Word<'a>],
    left: usize,
) -> Result<(Vec<Qualifier<'a>>, &'t [Word<'a>]), Refusal>
    ensures { Gives (λ x. (map plain_qualifier x.0.items, words_of x.1.now)) result (qualifiers_at (reading left) (words_of words.now)) }
{
    let (_, mut rest) = words.split_at(0);
    let mut by = Vec::new(alloc);
    while !ends_qualifiers(rest) {
        let (next, behind) = qualifier(alloc, rest, left)?;
        by.push(next)?;
        rest = behind;
    }
    Ok((by, rest))
}

/// A qualifier.
#[cycle(expression)]
#[tactic(auto, unfolding(crate::specs::Reader::qualifier_at))]
fn qualifier<'t, 'a>(
    alloc: Global,
    words: &'t [Word<'a>],
    left: usize,
) -> Result<(Qualifier<'a>, &'t [Word<'a>]), Refusal>
    ensures { Gives (λ x. (plain_qualifier x.0, words_of x.1.now)) result (qualifier_at (reading left) (words_of words.now)) }
{
    if begins_symbol(words, b'.') {
        let (name, rest) = named(symbol(words, b'.')?)?;
        return Ok((Qualifier::Attribute(name), rest));
    }
    if begins_symbol(words, b'\\') {
        let (name, rest) = named(symbol(words, b'\\')?)?;
        return Ok((Qualifier::Group(name), rest));
    }
    index(alloc, symbol(words, b'[')?, left)
}

/// An index or a range of indices, after its bracket.
#[cycle(expression)]
#[tactic(auto, unfolding(crate::specs::Reader::index_at))]
fn index<'t, 'a>(
    alloc: Global,
    words: &'t [Word<'a>],
    left: usize,
) -> Result<(Qualifier<'a>, &'t [Word<'a>]), Refusal>
    ensures { Gives (λ x. (plain_qualifier x.0, words_of x.1.now)) result (index_at (reading left) (words_of words.now)) }
{
    let (low, rest) = nested(alloc, words, Precedence::Sum, left)?;
    if begins_symbol(rest, b':') {
        let behind = symbol(rest, b':')?;
        let (high, rest) = nested(alloc, behind, Precedence::Sum, left)?;
        return Ok((Qualifier::Range(low, high), symbol(rest, b']')?));
    }
    Ok((Qualifier::Index(low), symbol(rest, b']')?))
}

/// An interval, after its brace.
#[cycle(expression)]
#[tactic(auto, unfolding(crate::specs::Reader::interval_at))]
fn interval<'t, 'a>(
    alloc: Global,
    words: &'t [Word<'a>],
    left: usize,
) -> Result<(Expression<'a>, &'t [Word<'a>]), Refusal>
    ensures { Gives (λ x. (plain x.0, words_of x.1.now)) result (interval_at (reading left) (words_of words.now)) }
{
    let (low, rest) = nested(alloc, words, Precedence::Sum, left)?;
    let (above, rest) = interval_operator(rest)?;
    let (item, rest) = nested(alloc, rest, Precedence::Sum, left)?;
    let (below, rest) = interval_operator(rest)?;
    let (high, rest) = nested(alloc, rest, Precedence::Sum, left)?;
    let rest = symbol(rest, b'}')?;
    Ok((within(alloc, low, above, item, below, high)?, rest))
}

/// A query, after its word.
#[cycle(expression)]
#[tactic(auto, unfolding(crate::specs::Reader::query_at))]
fn query<'t, 'a>(
    alloc: Global,
    words: &'t [Word<'a>],
    left: usize,
) -> Result<(Expression<'a>, &'t [Word<'a>]), Refusal>
    ensures { Gives (λ x. (plain x.0, words_of x.1.now)) result (query_at (reading left) (words_of words.now)) }
{
    let (name, rest) = named(symbol(words, b'(')?)?;
    let rest = symbol(symbol(rest, b'<')?, b'*')?;
    let (over, rest) = nested(alloc, rest, Precedence::Sum, left)?;
    let rest = symbol(rest, b'|')?;
    let (condition, rest) = nested(alloc, rest, Precedence::Relation, left)?;
    let rest = symbol(rest, b')')?;
    Ok((queried(alloc, name, over, condition)?, rest))
}
