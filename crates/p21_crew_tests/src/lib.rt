//! Lanes and a crew by example, and gates that show how the workers of a crew stand to one another.
//!
//! The tests stand here, and not beside what they try, so that neither is proved twice.
#![tactic(auto)]

#[cfg(test)]
mod crew_tests;
#[cfg(test)]
mod lanes_tests;
mod meeting;
mod window;

pub use meeting::Meeting;
pub use window::Window;
