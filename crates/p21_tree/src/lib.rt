//! The grammar of the clear text encoding of ISO 10303-21: the tree of an exchange structure, or its first
//! grammar fault.
#![tactic(auto)]

mod arguments;
mod data_section;
mod faults;
mod few;
mod full_texts;
mod header_section;
mod headers;
mod instance_reader;
mod instances;
mod keywords;
mod laws;
mod nest;
mod params;
mod pieces;
mod readers;
mod records;
mod source;
mod steps;
mod terminals;
mod tokens;

pub use faults::{Fault, FaultKind, TreeError};
pub use few::Few;
pub use headers::{HeaderEntity, Preface};
pub use instance_reader::InstanceReader;
pub use instances::{RawInstance, Record};
pub use laws::{
    faults_of_tokens, one_answer, one_beginning, one_fault_at_most, one_semicolon, one_tree,
    parts_in_order, parts_up_to_fault,
};
pub use params::Param;
pub use pieces::Piece;
pub use readers::{read_piece, read_preface, read_tail, read_whole};
