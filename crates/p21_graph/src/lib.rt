//! Graphs: an order in which the neighbors of each vertex stand before it, and what each vertex reaches, as bits.
#![tactic(auto)]

mod bits;
mod graph;
mod reach;

pub use bits::Bits;
pub use graph::{Graph, order};
pub use reach::{reached, reached_with_itself};
