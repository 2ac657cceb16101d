//! The reading of a whole file against a schema: the list of its instances, or its first fault, or all its faults.
#![tactic(auto)]

mod ahead;
mod all_faults;
mod all_laws;
mod every_fault;
mod first_fault;
mod judged;
mod judging;
mod lanes;
mod laws;
mod pieces;
mod preface;
mod reading;
mod run;
mod serial;
mod stop;

pub use all_faults::{AllFaults, read_all_faults};
pub use all_laws::{all_begin_with_reading, one_list_of_faults, values_give_all_faults};
pub use judged::{Judge, Judged, Judgement, LocalReader};
pub use lanes::{read_lanes, read_lanes_by};
pub use laws::{
    one_list_of_pieces, one_reading, pieces_are_instances, pieces_in_order, values_give_reading,
};
pub use pieces::Pieces;
pub use preface::checked_preface;
pub use reading::{ReadError, Reading};
pub use run::{Run, run_lanes};
pub use serial::read_serial;
pub use stop::Stop;
