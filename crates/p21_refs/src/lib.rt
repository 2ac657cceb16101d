//! The reference faults of a model, the first or all of them, looked for by several threads.
#![tactic(auto)]

mod all;
mod entities;
mod first;
#[cfg(test)]
mod tests;

pub use all::{all_bad, all_bad_among};
pub use first::{first_bad, first_bad_among};
