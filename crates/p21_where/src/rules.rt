//! The rules that are run.

use p21_evaluate::{Function, Term};
use p21_world::Said;

/// What a rule is of.
#[derive(Clone, Copy, Debug, PartialEq, Eq)]
pub enum RuleOwner {
    /// The entity at this place among those of the schema.
    Entity(u32),
    /// The defined type at this place among those of the schema.
    Type(u32),
    /// The RULE at this place.
    Global(u32),
}

/// A rule of WHERE, whose condition is lent for `'l`.
#[derive(Clone, Copy)]
pub struct RunRule<'l, 'p> {
    /// Its number, by which it is told.
    pub number: usize,
    pub owner: RuleOwner,
    /// What is not to be FALSE: of an entity or a type over SELF, which is the only variable; of a RULE over the populations of its entities, in their order.
    pub condition: &'l Term<'p>,
}

/// The rules that are run, in the order in which they are told, and what they call.
#[derive(Clone, Copy)]
pub struct RunRules<'l, 'p> {
    pub rules: &'l [RunRule<'l, 'p>],
    /// Of each RULE the places of its entities among those of the schema.
    pub populations: &'l [Vec<u32>],
    pub functions: &'l [Function<'p>],
    pub said: Said<'l>,
    /// Whether something asks who refers to an instance.
    pub asks_users: bool,
}
