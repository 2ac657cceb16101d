//! Checks of a file against its schema: of its header, of one instance by itself, and of its references.
#![tactic(auto)]

mod asked;
mod attributes;
mod binding;
mod bounds;
mod complex;
mod conform;
mod distinct;
mod entity_of;
mod entity_set;
mod header;
mod lately;
mod laws;
mod leaf;
mod lists;
mod local;
mod marks;
mod name_judge;
mod piece_walk;
mod records;
mod references;
mod referred;
mod repeated_names;
mod repeats;
mod schema_name;
mod shape;
mod simple;
mod slot;
mod supertypes;
mod walk;
mod walk_record;
mod walk_value;
mod wanted;
mod width;

pub use entity_of::{EntityOf, Named, simple_entity};
pub use header::check_header;
pub use lately::Lately;
pub use laws::{
    fault_has_no_reading, one_header_fault, one_local_fault, one_reference_fault, references_decide,
};
pub use local::{check_local, check_local_entity};
pub use piece_walk::{Walked, walk_piece};
pub use references::{TypeOf, check_references, check_references_among};
pub use referred::{Reference, References, push_references};
