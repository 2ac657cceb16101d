//! Names of attributes and items by their numbers, and what is said of an attribute by its number.
#![tactic(auto)]

mod attributes;
mod names;
mod shapes;

pub use attributes::{Derivation, Inverse, InverseForm, Role, number_of, role_of};
pub use names::Names;
pub use shapes::Shape;
