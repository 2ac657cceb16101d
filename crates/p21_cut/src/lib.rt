//! Cutting the data section of a file into pieces, which can be read one by one.
#![tactic(auto)]

mod cutter;
mod laws;
mod marks;
mod parts;

pub use cutter::{Cut, Cutter};
pub use laws::{
    first_tokens_of_file, one_cutting, pieces_are_unique, pieces_hold_tokens, tokens_of_next_piece,
};
