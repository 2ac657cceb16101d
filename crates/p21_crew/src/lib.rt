//! A crew of workers that read pieces in threads of their own, while one dealer deals the pieces to them and gathers what
//! they return, in the order of the pieces.
//!
//! Nothing here knows what a piece is, or what is read of it.
#![tactic(auto)]

mod cuts;
mod dealer;
mod flight;
mod gate;
mod gathers;
mod landing;
mod outbox;
mod rest;
mod returned;
mod run;
mod sending;
mod work;
mod worker;

pub use cuts::{Cuts, Next};
pub use gate::{Gate, OpenGate};
pub use gathers::Gathers;
pub use returned::Returned;
pub use run::{Run, run_crew};
pub use work::Work;
