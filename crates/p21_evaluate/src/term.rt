//! Expressions and statements whose names are resolved.

ghost use Rattle.std.specs.Prelude.{◌≡◌};
ghost use Rattle.p21_values.specs.Plain.{plain};
ghost use Rattle.p21_evaluate.specs.Literals.{literal_of};

use p21_values::{BinaryOperator, Characters, Item, Truth, UnaryOperator, Value};

/// A value that the text of a schema spells.
#[derive(Clone, Copy, Drop)]
pub enum Literal<'a> {
    /// The indeterminate value, `?`.
    Indeterminate,
    Logical(Truth),
    Integer(i64),
    /// A finite number.
    Real(f64),
    /// A string of characters below 256.
    Text(&'a [u8]),
    /// A binary: `0` or `1` for each bit.
    Binary(&'a [u8]),
    Enumerated(Item),
}

impl<'a> Literal<'a> {
    /// Its value.
    pub fn value(self) -> Value<'a>
        ensures { plain result ≡ literal_of self.entry }
    {
        match self {
            Literal::Indeterminate => Value::Indeterminate,
            Literal::Logical(truth) => Value::Logical(truth),
            Literal::Integer(number) => Value::Integer(number),
            Literal::Real(number) => Value::Real(number),
            Literal::Text(text) => Value::Text(Characters::Bytes(text)),
            Literal::Binary(bits) => Value::Binary(Characters::Bytes(bits)),
            Literal::Enumerated(item) => Value::Enumerated(item),
        }
    }
}

/// What is asked of the instances about a value.
#[derive(Clone, Copy, PartialEq, Eq, Debug, Drop)]
pub enum Question {
    /// The attribute of this name.
    Attribute(u32),
    /// The attribute of this name that the entity declares or inherits.
    AttributeOf(u32, u32),
    /// The value as one of this entity.
    Group(u32),
    /// Whether it is an instance of this entity.
    IsEntity(u32),
    /// Whether it is an instance of this entity alone, and of none of its subtypes.
    IsExactly(u32),
    /// The names of its types.
    Types,
    /// The instances that refer to it by an attribute.
    Users(u32),
}

/// What is made of two values.
#[derive(Clone, Copy, PartialEq, Eq, Debug, Drop)]
pub enum Combination {
    Operator(BinaryOperator),
    /// NVL: the first value, or the second where the first is indeterminate.
    OrElse,
    /// The element at an index.
    Element,
    /// LIKE: whether the first is a text like the pattern that the second is.
    Like,
}

/// What is made of several values.
#[derive(Clone, Copy, PartialEq, Eq, Debug, Drop)]
pub enum Making {
    /// An aggregate of them.
    Initializer,
    /// A part of a string or of a binary, from an index to another.
    Part,
    /// The first value, an aggregate, where the element at the second, an index, is the third, as an assignment to an element leaves it.
    WithElement,
    /// An interval: whether the first value stands so to the second, and that so to the third.
    Interval(BinaryOperator, BinaryOperator),
    /// What needs the instances.
    Construction(Construction),
}

/// What is made of several values and needs the instances.
#[derive(Clone, Copy, PartialEq, Eq, Debug, Drop)]
pub enum Construction {
    /// An instance of this entity.
    Instance(u32),
    /// A complex instance of two.
    Joined,
    /// An instance with another value of the attribute of this name.
    WithAttribute(u32),
    /// A value of this defined type.
    Typed(u32),
    /// All instances of this entity.
    Population(u32),
}

/// An expression whose names are resolved. A variable is the number of its slot.
#[derive(Drop)]
pub enum Term<'a> {
    Literal(Literal<'a>),
    /// The variable at this slot, as SELF.
    Local(usize),
    Apply(UnaryOperator, Box<Term<'a>>),
    Ask(Question, Box<Term<'a>>),
    Combine(Combination, Box<Term<'a>>, Box<Term<'a>>),
    Make(Making, Vec<Term<'a>>),
    /// The elements of the first for which the second is TRUE. In that an element is the variable behind all others.
    Query(Box<Term<'a>>, Box<Term<'a>>),
    /// A function, by its place among the functions, of arguments.
    Call(usize, Vec<Term<'a>>),
}

/// A value that leads to the statement at this place among those of a CASE.
#[derive(Drop)]
pub struct Label<'a> {
    pub value: Term<'a>,
    pub place: usize,
}

/// A statement whose names are resolved.
#[derive(Drop)]
pub enum Statement<'a> {
    /// A variable is given a value.
    Assign(usize, Term<'a>),
    If(Term<'a>, Vec<Statement<'a>>, Vec<Statement<'a>>),
    /// CASE: of the statements, that of the first label that equals the value, or where none does that at the last place. There need be none.
    Case(Term<'a>, Vec<Label<'a>>, usize, Vec<Statement<'a>>),
    /// A variable takes the integers from the first to the second by steps of the third. For each, while the fourth is TRUE and until the
    /// fifth is, the statements are run.
    Repeat(usize, Term<'a>, Term<'a>, Term<'a>, Term<'a>, Term<'a>, Vec<Statement<'a>>),
    /// Statements, one after the other.
    Block(Vec<Statement<'a>>),
    /// The statement REPEAT around it ends.
    Escape,
    /// The next turn of the statement REPEAT around it begins.
    Skip,
    Return(Term<'a>),
}

/// A function: how many variables it has beside its parameters, and what it does.
#[derive(Drop)]
pub struct Function<'a> {
    pub locals: usize,
    pub body: Vec<Statement<'a>>,
}
