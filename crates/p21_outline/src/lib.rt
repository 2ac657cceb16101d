//! Outlines: what is kept of the instances of a file when their trees are let go.
#![tactic(auto)]

mod columns;
mod faults;
mod let_go;
mod outline;
mod outline_list;
mod tally;
mod view;
mod walked;

pub use outline::{Extended, Outline};
pub use outline_list::{OutlineList, PlacedName};
