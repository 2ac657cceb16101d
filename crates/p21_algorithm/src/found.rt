//! What the text of a schema has of rules and algorithms.

use crate::tree::{ConstantTree, Derived, GlobalRule, Routine};
use p21_express::{Kind, Word};
use p21_expression::{DomainRule, Name};

/// In what a rule or a derived attribute stands.
#[derive(Clone, Copy)]
pub enum Owner<'a> {
    Schema,
    Entity(Name<'a>),
    Type(Name<'a>),
}

/// What a piece of the text is to be.
#[derive(Clone, Copy, Debug, PartialEq, Eq)]
pub enum Part {
    /// An explicit attribute of an entity, or several of one type.
    Explicit,
    /// An attribute of DERIVE.
    Derived,
    /// An attribute of INVERSE.
    Inverse,
    /// A rule of UNIQUE.
    Unique,
    /// A rule of WHERE of an entity or a type.
    DomainRule,
    Constant,
    Function,
    Procedure,
    /// A RULE.
    GlobalRule,
}

/// Where something stands in the text: the place of its first word, and that of the first word after it. Of a rule, an attribute and a constant
/// the semicolon is the last word; of a function, a procedure and a RULE it is that after the word that ends it.
#[derive(Clone, Copy, Debug, PartialEq, Eq)]
pub struct Span {
    pub from: usize,
    pub to: usize,
}

/// What the text says.
#[derive(Drop)]
pub enum Item<'a> {
    DomainRule(DomainRule<'a>),
    Derived(Derived<'a>),
    Constant(ConstantTree<'a>),
    /// A function or a procedure.
    Routine(Routine<'a>),
    GlobalRule(GlobalRule<'a>),
    /// What is to be such a part has no reading, and why: `Syntax` at the place that does not fit, or `NotSupported` where more than 256 things of
    /// one kind stand within one another.
    PassedOver(Part, Kind, usize),
}

/// A rule, a derived attribute, a constant, a function, a procedure or a RULE of the text.
#[derive(Drop)]
pub struct Found<'a> {
    pub owner: Owner<'a>,
    pub span: Span,
    pub item: Item<'a>,
}

/// The rules and algorithms of a schema, in the order of the text.
#[derive(Drop)]
pub struct SchemaRules<'a> {
    pub found: Vec<Found<'a>>,
}

/// A piece of a schema's text.
#[derive(Clone, Copy)]
pub struct Piece<'t, 'a> {
    pub part: Part,
    pub owner: Owner<'a>,
    /// The words of the text from its first one on.
    pub words: &'t [Word<'a>],
    /// How many words stand after it.
    pub after: usize,
}
