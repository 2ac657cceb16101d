//! How the text of a schema spells the names that it declares.
#![tactic(auto)]

mod declared;
mod words;

pub use declared::{Spellings, spell_names};
pub use words::next_word;
