//! Checking a whole file against a schema by lanes, of which only outlines are kept: counts of its instances, or its first fault, or all.
#![tactic(auto)]

mod again;
mod check;
mod checked;
mod checked_list;
mod checking;
mod counts;
mod gathering;
mod lists;

pub use check::{CheckError, FaultCheck, FileCheck, check_all_faults, check_lanes};
pub use checked::{Checked, CheckedInstance};
pub use checked_list::CheckedList;
pub use counts::Counts;
pub use lists::PieceList;
