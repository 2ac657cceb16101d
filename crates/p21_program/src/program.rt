//! What is evaluated of a schema.

use crate::obstacle::Obstacle;
use p21_algorithm::Span;
use p21_evaluate::{Function, Term};
use p21_names::{Derivation, Inverse, Names, Role, role_of};

/// What a rule is of.
#[derive(Clone, Copy, Debug, PartialEq, Eq)]
pub enum Owner {
    /// The entity at this place among those of the schema.
    Entity(u32),
    /// The defined type at this place among those of the schema.
    Type(u32),
    /// The RULE at this place among those of the program.
    Global(u32),
    /// An entity or a type that the schema has not.
    Nothing,
}

/// What is not to be FALSE, or why it is not evaluated.
#[derive(Drop)]
pub enum Condition<'a> {
    /// A term: of a rule of an entity or a type over SELF, which is the only variable; of a RULE over the populations of its entities, in their order.
    Term(Term<'a>),
    PassedOver(Obstacle),
}

/// A rule of WHERE.
#[derive(Drop)]
pub struct Rule<'a> {
    pub owner: Owner,
    pub label: Option<&'a [u8]>,
    /// How many rules stand before it in its WHERE.
    pub before: usize,
    /// Where it stands, or the RULE in which it does.
    pub span: Span,
    pub condition: Condition<'a>,
}

/// A RULE.
#[derive(Drop)]
pub struct Global<'a> {
    pub name: &'a [u8],
    pub span: Span,
    /// The places of its entities among those of the schema.
    pub entities: Vec<u32>,
}

/// What is evaluated of a schema.
#[derive(Drop)]
pub struct Program<'a> {
    /// The rules of entities, of types and of each RULE, in the order of the text.
    pub rules: Vec<Rule<'a>>,
    pub globals: Vec<Global<'a>>,
    /// The functions of the schema, in the order of the text, then its constants, functions of nothing, then one that adds an element to a LIST so often,
    /// then derived attributes, functions of SELF, and then what the rules of a RULE with statements ask of its populations.
    pub functions: Vec<Function<'a>>,
    /// Of each function why it is not evaluated, where it is not. It then does nothing.
    pub obstacles: Vec<Option<Obstacle>>,
    /// How attributes are derived, in the order of the text.
    pub derivations: Vec<Derivation>,
    /// The attributes of INVERSE, in the order of the text.
    pub inverses: Vec<Inverse>,
    /// Whether something asks who refers to an instance.
    pub asks_users: bool,
    /// The names of attributes and of items of enumerations, by their numbers.
    pub names: Names,
    /// The place of the first string that names another schema.
    pub another_schema: Option<usize>,
}

impl Program<'_> {
    /// The attribute that `Users` asks for by a number. `None` for 0, which asks for all attributes.
    pub fn role(&self, number: u32) -> Option<Role> {
        role_of(self.names.len(), number)
    }
}
