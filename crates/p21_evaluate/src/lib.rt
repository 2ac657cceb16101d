//! What the expressions and statements of a schema mean over the instances of a file.
//!
//! Names are resolved before: a variable is the number of its slot, a function its place among the functions. Whatever needs the instances
//! is asked of a `World`.
#![tactic(auto)]

mod combine;
mod counting;
mod end;
mod evaluation;
mod laws;
mod make;
mod term;
mod world;

pub use evaluation::evaluate;
pub use laws::{depth_plays_no_part, none_is_true, order_plays_no_part};
pub use term::{
    Combination, Construction, Function, Label, Literal, Making, Question, Statement, Term,
};
pub use world::{Reply, World};

#[cfg(test)]
mod tests;
