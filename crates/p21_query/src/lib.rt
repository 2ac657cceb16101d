//! What is asked of a model that was read, and of its schema: attributes by their names, instances by entity or by what they refer to, and
//! single values.
#![tactic(auto)]

mod attributes;
mod entities;
mod parameters;
mod references;
mod texts;

pub use attributes::attribute_named;
pub use entities::next_of;
pub use parameters::{Found, parameter_at};
pub use references::next_naming;
pub use texts::{copy_front, write_text};
