//! Arithmetic.

ghost use Rattle.std.specs.Prelude.{◌≡◌, ◌+ℤ◌, ◌-ℤ◌, ◌*ℤ◌, ◌≢◌, int_div, neg_ℤ, pos, unsigned_abs};
ghost use Rattle.p21_values.specs.Arithmetic.{absolute_of, arithmetic_of, divided, division_of, integer_of, modulo, negated_of, number_of, odd_of, of_integers, of_reals, real_of, root_of};
ghost use Rattle.p21_values.specs.Ends.{Gives};
ghost use Rattle.p21_values.specs.Plain.{plain};

use crate::stop::Stop;
use crate::truth::Truth;
use crate::value::Value;
use std::num::nearest_i64_to_f64;

/// The operators of numbers.
#[derive(Clone, Copy, Debug, Drop)]
pub(crate) enum Arithmetic {
    Add,
    Subtract,
    Multiply,
    Divide,
}

/// DIV and MOD.
#[derive(Clone, Copy, Debug, Drop)]
pub(crate) enum Division {
    Quotient,
    Remainder,
}

/// Arithmetic of two values without defined types.
pub(crate) fn computed<'a>(op: Arithmetic, a: &Value, b: &Value) -> Result<Value<'a>, Stop>
    ensures { Gives result (arithmetic_of op (plain a.now) (plain b.now)) }
{
    match (a, b) {
        (Value::Integer(a), Value::Integer(b)) => integers(op, *a, *b),
        (Value::Integer(a), Value::Real(y)) => Ok(real(reals(op, nearest_i64_to_f64(*a), *y))),
        (Value::Real(x), Value::Integer(b)) => Ok(real(reals(op, *x, nearest_i64_to_f64(*b)))),
        (Value::Real(x), Value::Real(y)) => Ok(real(reals(op, *x, *y))),
        _ => Ok(Value::Indeterminate),
    }
}

fn reals(op: Arithmetic, x: f64, y: f64) -> f64
    ensures { result ≡ of_reals op x y }
{
    match op {
        Arithmetic::Add => x + y,
        Arithmetic::Subtract => x - y,
        Arithmetic::Multiply => x * y,
        Arithmetic::Divide => x / y,
    }
}

fn integers<'a>(op: Arithmetic, a: i64, b: i64) -> Result<Value<'a>, Stop>
    ensures { Gives result (of_integers op a b) }
{
    match op {
        Arithmetic::Add => sum(a, b),
        Arithmetic::Subtract => difference(a, b),
        Arithmetic::Multiply => product(a, b),
        Arithmetic::Divide => Ok(real(nearest_i64_to_f64(a) / nearest_i64_to_f64(b))),
    }
}

fn sum<'a>(a: i64, b: i64) -> Result<Value<'a>, Stop>
    ensures { Gives result (integer_of (a +ℤ b)) }
{
    match a.checked_add(b) {
        Some(n) => Ok(Value::Integer(n)),
        None => Err(Stop::NotComputed),
    }
}

fn difference<'a>(a: i64, b: i64) -> Result<Value<'a>, Stop>
    ensures { Gives result (integer_of (a -ℤ b)) }
{
    match a.checked_sub(b) {
        Some(n) => Ok(Value::Integer(n)),
        None => Err(Stop::NotComputed),
    }
}

fn product<'a>(a: i64, b: i64) -> Result<Value<'a>, Stop>
    ensures { Gives result (integer_of (a *ℤ b)) }
{
    match a.checked_mul(b) {
        Some(n) => Ok(Value::Integer(n)),
        None => Err(Stop::NotComputed),
    }
}

/// A real where it is finite, else `?`.
fn real<'a>(x: f64) -> Value<'a>
    ensures { plain result ≡ real_of x }
{
    if x.is_finite() {
        Value::Real(x)
    } else {
        Value::Indeterminate
    }
}

/// DIV or MOD of two values without defined types.
pub(crate) fn whole_division<'a>(op: Division, a: &Value, b: &Value) -> Result<Value<'a>, Stop>
    ensures { Gives result (division_of op (plain a.now) (plain b.now)) }
{
    match (a, b) {
        (Value::Integer(a), Value::Integer(b)) => divided(op, *a, *b),
        _ => Ok(Value::Indeterminate),
    }
}

fn divided<'a>(op: Division, a: i64, b: i64) -> Result<Value<'a>, Stop>
    ensures { Gives result (divided op a b) }
{
    if b == 0 {
        return Ok(Value::Indeterminate);
    }
    match op {
        Division::Quotient => quotient(a, b),
        Division::Remainder => Ok(Value::Integer(modulo(a, b))),
    }
}

fn quotient<'a>(a: i64, b: i64) -> Result<Value<'a>, Stop>
    requires { unsigned_abs b ≢ 0 }
    ensures { Gives result (integer_of (int_div a b)) }
{
    match a.checked_div(b) {
        Some(n) => Ok(Value::Integer(n)),
        None => Err(Stop::NotComputed),
    }
}

fn modulo(a: i64, b: i64) -> i64
    requires { unsigned_abs b ≢ 0 }
    ensures { result ≡ modulo a b }
{
    let remainder = a.wrapping_rem_euclid(b);
    if b < 0 && remainder != 0 {
        remainder + b
    } else {
        remainder
    }
}

/// The number with the other sign.
pub(crate) fn negated<'a>(value: &Value) -> Result<Value<'a>, Stop>
    ensures { Gives result (negated_of (plain value.now)) }
{
    match value {
        Value::Integer(n) => opposite(*n),
        Value::Real(x) => Ok(Value::Real(-*x)),
        _ => Ok(Value::Indeterminate),
    }
}

fn opposite<'a>(n: i64) -> Result<Value<'a>, Stop>
    ensures { Gives result (integer_of (neg_ℤ n)) }
{
    match n.checked_neg() {
        Some(n) => Ok(Value::Integer(n)),
        None => Err(Stop::NotComputed),
    }
}

/// A number, or `?` of other values.
pub(crate) fn number<'a>(value: &Value) -> Value<'a>
    ensures { plain result ≡ number_of (plain value.now) }
{
    match value {
        Value::Integer(n) => Value::Integer(*n),
        Value::Real(x) => Value::Real(*x),
        _ => Value::Indeterminate,
    }
}

/// ABS.
pub(crate) fn absolute<'a>(value: &Value) -> Result<Value<'a>, Stop>
    ensures { Gives result (absolute_of (plain value.now)) }
{
    match value {
        Value::Integer(n) => magnitude(*n),
        Value::Real(x) => Ok(Value::Real(x.abs())),
        _ => Ok(Value::Indeterminate),
    }
}

fn magnitude<'a>(n: i64) -> Result<Value<'a>, Stop>
    ensures { Gives result (integer_of (pos (unsigned_abs n))) }
{
    match i64::try_from(n.unsigned_abs()) {
        Ok(n) => Ok(Value::Integer(n)),
        Err(_) => Err(Stop::NotComputed),
    }
}

/// SQRT.
pub(crate) fn root<'a>(value: &Value) -> Value<'a>
    ensures { plain result ≡ root_of (plain value.now) }
{
    match value {
        Value::Integer(n) => real(nearest_i64_to_f64(*n).sqrt()),
        Value::Real(x) => real(x.sqrt()),
        _ => Value::Indeterminate,
    }
}

/// ODD.
pub(crate) fn odd(value: &Value) -> Truth
    ensures { result ≡ odd_of (plain value.now) }
{
    match value {
        Value::Integer(n) => Truth::of(n.unsigned_abs() % 2 == 1),
        _ => Truth::Unknown,
    }
}
