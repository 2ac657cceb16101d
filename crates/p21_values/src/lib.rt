//! The values of EXPRESS expressions, and the operations on them that need no model.
#![tactic(auto)]

mod aggregates;
mod arithmetic;
mod characters;
mod elements;
mod instances;
mod kind;
mod laws;
mod nested;
mod numbers;
mod operators;
mod order;
mod parts;
mod pattern;
mod same;
mod sets;
mod stop;
mod truth;
mod value;

pub use characters::Characters;
pub use elements::with_element;
pub use instances::{ByPlace, Instances};
pub use kind::{Item, ItemPlace, Kind};
pub use laws::{not_turns_and_into_or, not_twice_is_nothing, order_plays_no_part};
pub use nested::{aggregate, made, typed};
pub use operators::{BinaryOperator, UnaryOperator, binary, nvl, unary};
pub use parts::{index, range};
pub use pattern::like;
pub use stop::{Budget, Stop};
pub use truth::Truth;
pub use value::Value;

#[cfg(test)]
mod tests;
