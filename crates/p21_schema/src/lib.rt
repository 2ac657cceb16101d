//! The schema as a table: what a checker asks of declarations, answered without taking memory.
#![tactic(auto)]

mod ancestry;
mod declarations;
mod draft;
mod ids;
mod names;
mod resolved;
mod rows;
mod rules;
mod schema;
mod selects;
mod under;

pub use declarations::{Declaration, Form};
pub use ids::{AttrId, EntityId, TypeId};
pub use p21_express::{Bounds, Width};
pub use resolved::{Resolved, ResolvedExpr, Target};
pub use rules::Rules;
pub use schema::Schema;
