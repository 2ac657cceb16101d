//! A run that writes the model of a file as JSON.
#![tactic(auto)]

mod exporting;
mod laws;
mod model;
mod preface;
mod runner;

pub use exporting::{Spelled, answer_of_fault, read_model};
pub use laws::{instances_are_known, instances_are_sound};
pub use p21_run::{IoFault, Listener, Options, Outcome, Silent, Sink, Source, Stream};
pub use preface::preface_of_model;
pub use runner::export;
