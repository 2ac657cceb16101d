//! The rules that a schema states beyond types, over the instances of a file: UNIQUE, and the bounds of INVERSE attributes.
#![tactic(auto)]

mod attributes;
mod binary;
mod code;
mod concerned;
mod counters;
mod elements;
mod entities;
mod firsts;
mod inverse;
mod laws;
mod mentions;
mod number;
mod rule;
mod slots;
mod text;
mod unique;
mod value;

pub use inverse::{InverseCount, all_inverse_counts};
pub use laws::one_value_of_a_text;
pub use rule::{InverseRule, UniqueRule};
pub use unique::{NotUnique, all_not_unique};
