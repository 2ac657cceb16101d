//! Readings by lanes and whole runs by example. The tests stand here, and not beside what they try, so that neither is proved twice.
#![tactic(auto)]

#[cfg(test)]
mod all_faults_tests;
mod calls;
#[cfg(test)]
mod check_tests;
#[cfg(test)]
mod damage_tests;
#[cfg(test)]
mod files;
#[cfg(test)]
mod gates;
#[cfg(test)]
mod gathering_tests;
#[cfg(test)]
mod judges;
#[cfg(test)]
mod lanes_tests;
#[cfg(test)]
mod memory_tests;
#[cfg(test)]
mod pieces_tests;
#[cfg(test)]
mod rows_tests;
#[cfg(test)]
mod run_lanes_tests;
#[cfg(test)]
mod runner_tests;
#[cfg(test)]
mod streams;
#[cfg(test)]
mod writer_tests;

pub use calls::Call;
