//! The operators and functions of EXPRESS that need no model.

ghost use Rattle.std.specs.Prelude.{◌≡◌, ◌++◌, IfOk, MatchResult};
ghost use Rattle.p21_values.specs.Ends.{ClaimsNothing, Gives, gives};
ghost use Rattle.p21_values.specs.Operators.{at_least, at_most, binary_bare, binary_of, bit_length_of, combined_of, exists_of, holds_of, length_of, logical_of, nvl_of, plus_of, related_of, scalar_of, unary_bare, unary_of};
ghost use Rattle.p21_values.specs.Plain.{codes, plain, truth};

use crate::aggregates::{contains, high_index, low_index, size};
use crate::arithmetic::{
    Arithmetic, Division, absolute, computed, negated, number, odd, root, whole_division,
};
use crate::characters::Characters;
use crate::instances::{ByPlace, Instances};
use crate::order::bare_order;
use crate::sets::{collected, elements, kind_of, subset};
use crate::stop::{Budget, Stop};
use crate::truth::Truth;
use crate::value::Value;
use std::alloc::AllocError;
use std::cmp::Ordering;

/// The operators and functions of one value.
#[derive(Clone, Copy, PartialEq, Eq, Debug, Drop)]
pub enum UnaryOperator {
    /// NOT.
    Not,
    /// The sign `-`.
    Negate,
    /// The sign `+`.
    Plus,
    /// ABS.
    Absolute,
    /// SQRT.
    SquareRoot,
    /// ODD.
    Odd,
    /// EXISTS.
    Exists,
    /// SIZEOF.
    SizeOf,
    /// LOINDEX.
    LowIndex,
    /// HIINDEX.
    HighIndex,
    /// LENGTH.
    Length,
    /// BLENGTH.
    BitLength,
}

/// What an operator or function gives of a value. NotComputed comes where an integer is out of range, and exactly then.
pub fn unary<'a>(op: UnaryOperator, value: &Value) -> Result<Value<'a>, Stop>
    ensures { Gives result (unary_of op (plain value.now)) }
{
    unary_bare(op, value.bare())
}

fn unary_bare<'a>(op: UnaryOperator, value: &Value) -> Result<Value<'a>, Stop>
    ensures { Gives result (unary_bare op (plain value.now)) }
{
    match op {
        UnaryOperator::Not => Ok(Value::Logical(logical(value).not())),
        UnaryOperator::Negate => negated(value),
        UnaryOperator::Plus => Ok(number(value)),
        UnaryOperator::Absolute => absolute(value),
        UnaryOperator::SquareRoot => Ok(root(value)),
        UnaryOperator::Odd => Ok(Value::Logical(odd(value))),
        UnaryOperator::Exists => Ok(Value::Logical(exists(value))),
        UnaryOperator::SizeOf => Ok(size(value)),
        UnaryOperator::LowIndex => Ok(low_index(value)),
        UnaryOperator::HighIndex => high_index(value),
        UnaryOperator::Length => Ok(length(value)),
        UnaryOperator::BitLength => Ok(bit_length(value)),
    }
}

/// A value as a truth: UNKNOWN where it is none.
fn logical(value: &Value) -> Truth
    ensures { result ≡ logical_of (plain value.now) }
{
    match value {
        Value::Logical(truth) => *truth,
        _ => Truth::Unknown,
    }
}

fn exists(value: &Value) -> Truth
    ensures { result ≡ exists_of (plain value.now) }
{
    match value {
        Value::Indeterminate => Truth::False,
        _ => Truth::True,
    }
}

fn length<'a>(value: &Value) -> Value<'a>
    ensures { plain result ≡ length_of (plain value.now) }
{
    match value {
        Value::Text(text) => Value::Integer(text.len() as i64),
        _ => Value::Indeterminate,
    }
}

fn bit_length<'a>(value: &Value) -> Value<'a>
    ensures { plain result ≡ bit_length_of (plain value.now) }
{
    match value {
        Value::Binary(bits) => Value::Integer(bits.len() as i64),
        _ => Value::Indeterminate,
    }
}

/// The operators of two values.
#[derive(Clone, Copy, PartialEq, Eq, Debug, Drop)]
pub enum BinaryOperator {
    And,
    Or,
    Xor,
    /// `=`.
    Equal,
    /// `<>`.
    NotEqual,
    /// `:=:`.
    Same,
    /// `:<>:`.
    NotSame,
    In,
    Less,
    LessOrEqual,
    Greater,
    GreaterOrEqual,
    Add,
    Subtract,
    Multiply,
    Divide,
    /// DIV.
    Quotient,
    /// MOD.
    Remainder,
}

/// What an operator gives of two values, where `=` has the given comparison of instances. NotComputed comes where an integer is out of
/// range, and exactly then.
pub fn binary<'a, I: Instances>(
    op: BinaryOperator,
    v: &Value<'a>,
    w: &Value<'a>,
    instances: &I,
    budget: &mut Budget,
) -> Result<Value<'a>, Stop>
    ensures { I.known instances.now → Gives result (binary_of (I.same instances.now) op (plain v.now) (plain w.now)) }
{
    binary_bare(op, v.bare(), w.bare(), instances, budget)
}

#[tactic(auto, using(crate::proofs::EndLemmas::claims_end))]
fn binary_bare<'a, I: Instances>(
    op: BinaryOperator,
    v: &Value<'a>,
    w: &Value<'a>,
    instances: &I,
    budget: &mut Budget,
) -> Result<Value<'a>, Stop>
    ensures { I.known instances.now → Gives result (binary_bare (I.same instances.now) op (plain v.now) (plain w.now)) }
{
    match op {
        BinaryOperator::And => Ok(Value::Logical(logical(v).and(logical(w)))),
        BinaryOperator::Or => Ok(Value::Logical(logical(v).or(logical(w)))),
        BinaryOperator::Xor => Ok(Value::Logical(logical(v).xor(logical(w)))),
        BinaryOperator::Equal => Ok(Value::Logical(v.same(w, instances, budget)?)),
        BinaryOperator::NotEqual => Ok(Value::Logical(v.same(w, instances, budget)?.not())),
        BinaryOperator::Same => Ok(Value::Logical(v.same(w, &ByPlace, budget)?)),
        BinaryOperator::NotSame => Ok(Value::Logical(v.same(w, &ByPlace, budget)?.not())),
        BinaryOperator::In => Ok(Value::Logical(contains(w, v, &ByPlace, budget)?)),
        BinaryOperator::Less => related(v, w, Relation::Less, budget),
        BinaryOperator::LessOrEqual => at_most(v, w, budget),
        BinaryOperator::Greater => related(v, w, Relation::Greater, budget),
        BinaryOperator::GreaterOrEqual => at_least(v, w, budget),
        BinaryOperator::Add => combined(Arithmetic::Add, v, w, budget),
        BinaryOperator::Subtract => combined(Arithmetic::Subtract, v, w, budget),
        BinaryOperator::Multiply => combined(Arithmetic::Multiply, v, w, budget),
        BinaryOperator::Divide => combined(Arithmetic::Divide, v, w, budget),
        BinaryOperator::Quotient => whole_division(Division::Quotient, v, w),
        BinaryOperator::Remainder => whole_division(Division::Remainder, v, w),
    }
}

/// A relation of two values by their order.
#[derive(Clone, Copy, Debug, Drop)]
enum Relation {
    Less,
    LessOrEqual,
    Greater,
    GreaterOrEqual,
}

impl Relation {
    fn holds(self, order: Ordering) -> bool
        ensures { result ≡ holds_of self order }
    {
        match self {
            Relation::Less => order.is_lt(),
            Relation::LessOrEqual => order.is_le(),
            Relation::Greater => order.is_gt(),
            Relation::GreaterOrEqual => order.is_ge(),
        }
    }
}

#[tactic(auto, using(crate::proofs::EndLemmas::claims_end))]
fn related<'a>(
    v: &Value,
    w: &Value,
    relation: Relation,
    budget: &mut Budget,
) -> Result<Value<'a>, Stop>
    ensures { Gives result (gives (truth (related_of relation (plain v.now) (plain w.now)))) }
{
    budget.take_many(v.characters().min(w.characters()) / 64)?;
    match bare_order(v, w)? {
        None => Ok(Value::Logical(Truth::Unknown)),
        Some(order) => Ok(Value::Logical(Truth::of(relation.holds(order)))),
    }
}

/// An operator of numbers, texts, binaries or aggregates.
#[tactic(auto, using(crate::proofs::EndLemmas::claims_end))]
fn combined<'a>(
    op: Arithmetic,
    v: &Value<'a>,
    w: &Value<'a>,
    budget: &mut Budget,
) -> Result<Value<'a>, Stop>
    ensures { Gives result (combined_of op (plain v.now) (plain w.now)) }
{
    match kind_of(v, w) {
        Some(kind) => Ok(collected(op, kind, elements(v), elements(w), budget)?),
        None => scalar(op, v, w, budget),
    }
}

/// An operator of numbers, and `+` of texts and of binaries.
fn scalar<'a>(op: Arithmetic, v: &Value, w: &Value, budget: &mut Budget) -> Result<Value<'a>, Stop>
    ensures { Gives result (scalar_of op (plain v.now) (plain w.now)) }
{
    match op {
        Arithmetic::Add => plus(v, w, budget),
        _ => computed(op, v, w),
    }
}

/// `<=`: of aggregates, whether the one is a subset of the other.
#[tactic(auto, using(crate::proofs::EndLemmas::claims_end))]
fn at_most<'a>(v: &Value, w: &Value, budget: &mut Budget) -> Result<Value<'a>, Stop>
    ensures { Gives result (gives (truth (at_most (plain v.now) (plain w.now)))) }
{
    match (v, w) {
        (Value::Aggregate(_, xs), Value::Aggregate(_, ys)) => Ok(Value::Logical(subset(
            xs, ys, budget,
        )?)),
        _ => related(v, w, Relation::LessOrEqual, budget),
    }
}

/// `>=`: of aggregates, whether the other is a subset of the one.
#[tactic(auto, using(crate::proofs::EndLemmas::claims_end))]
fn at_least<'a>(v: &Value, w: &Value, budget: &mut Budget) -> Result<Value<'a>, Stop>
    ensures { Gives result (gives (truth (at_least (plain v.now) (plain w.now)))) }
{
    match (v, w) {
        (Value::Aggregate(_, xs), Value::Aggregate(_, ys)) => Ok(Value::Logical(subset(
            ys, xs, budget,
        )?)),
        _ => related(v, w, Relation::GreaterOrEqual, budget),
    }
}

/// `+` of two values without defined types.
#[tactic(auto, using(crate::proofs::EndLemmas::claims_end))]
fn plus<'a>(v: &Value, w: &Value, budget: &mut Budget) -> Result<Value<'a>, Stop>
    ensures { Gives result (plus_of (plain v.now) (plain w.now)) }
{
    match (v, w) {
        (Value::Text(t), Value::Text(u)) => Ok(Value::Text(joined(t, u, budget)?)),
        (Value::Binary(t), Value::Binary(u)) => Ok(Value::Binary(joined(t, u, budget)?)),
        (Value::Text(_) | Value::Binary(_), _) => Ok(Value::Indeterminate),
        _ => computed(Arithmetic::Add, v, w),
    }
}

/// The characters of both, one after the other.
fn joined<'a>(t: &Characters, u: &Characters, budget: &mut Budget) -> Result<Characters<'a>, Stop>
    ensures { MatchResult result (λ c. codes c ≡ codes t.now ++ codes u.now) ClaimsNothing }
{
    budget.take_copies(t.len())?;
    budget.take_copies(u.len())?;
    Ok(t.joined(budget.alloc(), u)?)
}

/// NVL: a value, or another in the place of `?`.
pub fn nvl<'a>(value: &Value<'a>, other: &Value<'a>) -> Result<Value<'a>, AllocError>
    ensures { IfOk result (λ r. plain r ≡ nvl_of (plain value.now) (plain other.now)) }
{
    match value.bare() {
        Value::Indeterminate => other.share(),
        _ => value.share(),
    }
}
