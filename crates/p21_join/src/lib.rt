//! Joining instances into a model: in file order, each name once.
#![tactic(auto)]

mod entities;
mod instance_names;
mod instance_places;
mod joiner;
mod model;
mod place_blocks;

pub use entities::{EntityView, ModelEntities};
pub use instance_names::InstanceNames;
pub use instance_places::InstancePlaces;
pub use joiner::{JoinError, Joiner};
pub use model::Model;
