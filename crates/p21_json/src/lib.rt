//! The instances of a model as JSON, a line each.
#![tactic(auto)]

mod attributes;
mod characters;
mod header;
mod instances;
mod keys;
mod laws;
mod line;
mod lines;
mod logical;
mod numerals;
mod pages;
mod terms;
mod values;

pub use attributes::{attribute, attribute_count, is_logical};
pub use characters::{write_bytes, write_string};
pub use header::write_header;
pub use laws::{keys_are_distinct, no_value_is_lost, nothing_is_lost, numbers_stay_numbers};
pub use lines::write_lines;
pub use terms::Terms;
pub use values::write_value;
