//! The dealer's desk: which piece went to which lane, and how many pieces were joined.
//!
//! Pieces are dealt to lanes one by one, and joined in the same order. On no lane do more pieces wait to be joined than
//! its capacity.
#![tactic(auto)]

mod desk;
mod lane_count;
#[cfg(test)]
mod tests;

pub use desk::Desk;
pub use lane_count::LaneCount;
