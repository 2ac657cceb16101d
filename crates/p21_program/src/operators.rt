//! What the operators of the text are among those of values.

use p21_evaluate::Combination;
use p21_expression::{
    BinaryOperator as Written, IntervalOperator, Truth as WrittenTruth,
    UnaryOperator as WrittenUnary,
};
use p21_values::{BinaryOperator, Truth, UnaryOperator};

/// The operator of one value.
pub(crate) fn unary(operator: WrittenUnary) -> UnaryOperator {
    match operator {
        WrittenUnary::Plus => UnaryOperator::Plus,
        WrittenUnary::Minus => UnaryOperator::Negate,
        WrittenUnary::Not => UnaryOperator::Not,
    }
}

/// What an operator makes of two values. `None` where it is not computed, or is no operator of values alone.
pub(crate) fn binary(operator: Written) -> Option<Combination> {
    if operator == Written::Like {
        return Some(Combination::Like);
    }
    Some(Combination::Operator(value_operator(operator)?))
}

fn value_operator(operator: Written) -> Option<BinaryOperator> {
    match operator {
        Written::Power => None,
        Written::Times => Some(BinaryOperator::Multiply),
        Written::Divide => Some(BinaryOperator::Divide),
        Written::Div => Some(BinaryOperator::Quotient),
        Written::Mod => Some(BinaryOperator::Remainder),
        Written::And => Some(BinaryOperator::And),
        Written::Combine => None,
        Written::Plus => Some(BinaryOperator::Add),
        Written::Minus => Some(BinaryOperator::Subtract),
        Written::Or => Some(BinaryOperator::Or),
        Written::Xor => Some(BinaryOperator::Xor),
        Written::Less => Some(BinaryOperator::Less),
        Written::Greater => Some(BinaryOperator::Greater),
        Written::LessOrEqual => Some(BinaryOperator::LessOrEqual),
        Written::GreaterOrEqual => Some(BinaryOperator::GreaterOrEqual),
        Written::NotEqual => Some(BinaryOperator::NotEqual),
        Written::Equal => Some(BinaryOperator::Equal),
        Written::OtherInstance => Some(BinaryOperator::NotSame),
        Written::SameInstance => Some(BinaryOperator::Same),
        Written::In => Some(BinaryOperator::In),
        Written::Like => None,
    }
}

/// The comparison of an interval.
pub(crate) fn interval(operator: IntervalOperator) -> BinaryOperator {
    match operator {
        IntervalOperator::Less => BinaryOperator::Less,
        IntervalOperator::LessOrEqual => BinaryOperator::LessOrEqual,
    }
}

pub(crate) fn truth(truth: WrittenTruth) -> Truth {
    match truth {
        WrittenTruth::False => Truth::False,
        WrittenTruth::Unknown => Truth::Unknown,
        WrittenTruth::True => Truth::True,
    }
}
