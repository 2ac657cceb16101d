//! Rules of WHERE by example, where a row of tests/where does not show them. The tests stand here, and not beside what they try, so that neither is proved
//! twice.
#![tactic(auto)]

#[cfg(test)]
mod algorithm_tests;
#[cfg(test)]
mod program_tests;
