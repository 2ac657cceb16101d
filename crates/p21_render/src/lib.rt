//! The text of a report: of a reading, of some instances, of a fault, of a schema that is refused.
#![tactic(auto)]

mod fault_text;
mod reading_text;
mod schema_fault_text;
mod text;

pub use fault_text::{fault_line, render_faults};
pub use p21_counts::{counts, counts_with_key};
pub use reading_text::{model_text, render};
pub use schema_fault_text::schema_fault_line;
