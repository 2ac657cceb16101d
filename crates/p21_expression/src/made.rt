//! Expressions that are made of others.

ghost use Rattle.std.specs.Prelude.{◌≡◌, IfOk, map};
ghost use Rattle.p21_expression.specs.Tree.{steps, operations, qualified, qualifiers, unary, interval, query};
ghost use Rattle.p21_expression.specs.Plain.{plain, plain_operation, plain_qualifier, plain_name};

use crate::tree::{
    Expression, Interval, IntervalOperator, Name, Operation, Qualifier, UnaryOperator,
};
use std::alloc::{AllocError, Global};

/// An operand and the operations on it, if there are any.
pub(crate) fn with_operations<'a>(
    alloc: Global,
    first: Expression<'a>,
    further: Vec<Operation<'a>>,
) -> Result<Expression<'a>, AllocError>
    ensures { IfOk result (λ made. plain made ≡ operations (plain first.entry) (steps (map plain_operation further.entry.items))) }
{
    if further.is_empty() {
        return Ok(first);
    }
    Ok(Expression::Operations(Box::new(alloc, first)?, further))
}

/// A value and its qualifiers, if it has any.
pub(crate) fn with_qualifiers<'a>(
    alloc: Global,
    of: Expression<'a>,
    by: Vec<Qualifier<'a>>,
) -> Result<Expression<'a>, AllocError>
    ensures { IfOk result (λ made. plain made ≡ qualified (plain of.entry) (qualifiers (map plain_qualifier by.entry.items))) }
{
    if by.is_empty() {
        return Ok(of);
    }
    Ok(Expression::Qualified(Box::new(alloc, of)?, by))
}

/// An operand with a sign or NOT.
pub(crate) fn with_sign<'a>(
    alloc: Global,
    operator: UnaryOperator,
    of: Expression<'a>,
) -> Result<Expression<'a>, AllocError>
    ensures { IfOk result (λ made. plain made ≡ unary operator (plain of.entry)) }
{
    Ok(Expression::Unary(operator, Box::new(alloc, of)?))
}

/// A query.
pub(crate) fn queried<'a>(
    alloc: Global,
    name: Name<'a>,
    over: Expression<'a>,
    condition: Expression<'a>,
) -> Result<Expression<'a>, AllocError>
    ensures { IfOk result (λ made. plain made ≡ query (plain_name name.entry) (plain over.entry) (plain condition.entry)) }
{
    Ok(Expression::Query(name, Box::new(alloc, over)?, Box::new(alloc, condition)?))
}

/// An interval.
pub(crate) fn within<'a>(
    alloc: Global,
    low: Expression<'a>,
    above: IntervalOperator,
    item: Expression<'a>,
    below: IntervalOperator,
    high: Expression<'a>,
) -> Result<Expression<'a>, AllocError>
    ensures { IfOk result (λ made. plain made ≡ interval (plain low.entry) above (plain item.entry) below (plain high.entry)) }
{
    let interval = Interval {
        low,
        above,
        item,
        below,
        high,
    };
    Ok(Expression::Interval(Box::new(alloc, interval)?))
}
