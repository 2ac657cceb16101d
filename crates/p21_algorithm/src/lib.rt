//! Statements, functions, procedures and rules of a schema's text, as trees.
#![tactic(auto)]

mod found;
mod source;
mod tree;

pub use found::{Found, Item, Owner, Part, Piece, SchemaRules, Span};
pub use source::Source;
pub use tree::{
    Action, AggregateKind, Block, Bounds, ConstantTree, Control, Derived, GlobalRule, Increment,
    Layer, Parameters, Routine, SimpleType, Statement, Target, TypeTree, Variables, Width,
};
