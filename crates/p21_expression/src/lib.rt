//! Expressions of a schema's text, as trees.
#![tactic(auto)]

mod laws;
mod literals;
mod made;
mod operators;
mod reader;
mod reserved;
mod rules;
mod tree;

pub use laws::{reading_is_grammatical, reading_takes_words};
pub use operators::Precedence;
pub use reader::{expression, named, qualifiers_after, simple_expression};
pub use reserved::is_reserved;
pub use rules::{DomainRule, domain_rule, domain_rules};
pub use tree::{
    BinaryOperator, Constant, Element, Expression, Interval, IntervalOperator, Name, Operation,
    Qualifier, Truth, UnaryOperator,
};

#[cfg(test)]
mod tests;
