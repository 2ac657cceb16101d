//! The rules and algorithms of a schema with every name resolved, as terms that can be evaluated.
#![tactic(auto)]

mod algorithms;
mod builtin;
mod calls;
mod comparison;
mod expressions;
mod inverse;
mod obstacle;
mod operators;
mod program;
mod resolve;
mod scope;
mod statements;
mod strings;
mod tables;
mod texts;

pub use obstacle::{Obstacle, Reason};
pub use p21_names::{Derivation, Inverse, InverseForm, Names, Role, Shape};
pub use program::{Condition, Global, Owner, Program, Rule};
pub use resolve::program_of;
pub use texts::{Texts, texts_of};
