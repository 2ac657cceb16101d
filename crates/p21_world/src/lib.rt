//! The instances of a file as what the rules of a schema ask about.
#![tactic(auto)]

mod attributes;
mod dictionary;
mod drafts;
mod entities;
mod given;
mod leaf;
mod made;
mod mentions;
mod parameters;
mod populations;
mod push;
mod same;
mod selects;
mod texts;
mod types;
mod users;
mod values;
mod world;

pub use dictionary::{Dictionary, Said, dictionary_of};
pub use world::{Answer, FileWorld};
