//! Types, statements and declarations as trees. A place is the number of words of the text that stand from there on; names are in upper case.

use p21_expression::{DomainRule, Expression, Name, Qualifier};

/// A type that the language names.
#[derive(Clone, Copy, Debug, PartialEq, Eq)]
pub enum SimpleType {
    Binary,
    Boolean,
    Integer,
    Logical,
    Number,
    Real,
    /// STRING.
    Text,
}

/// The width of a BINARY or a STRING, in bits or characters, or the precision of a REAL, in digits.
#[derive(Drop)]
pub struct Width<'a> {
    pub count: Expression<'a>,
    /// Whether FIXED stands after it: the width is exact.
    pub is_fixed: bool,
}

/// A kind of aggregate.
#[derive(Clone, Copy, Debug, PartialEq, Eq)]
pub enum AggregateKind {
    Array,
    Bag,
    List,
    Set,
}

/// The bounds of an aggregate. `?` as the upper one says that there is none.
#[derive(Drop)]
pub struct Bounds<'a> {
    pub low: Expression<'a>,
    pub high: Expression<'a>,
}

/// What stands before the elements' type in that of an aggregate.
#[derive(Drop)]
pub struct Layer<'a> {
    pub kind: AggregateKind,
    /// `None` where none are written.
    pub bounds: Option<Bounds<'a>>,
    /// Whether OPTIONAL stands after OF: an element may be left out.
    pub is_optional: bool,
    /// Whether UNIQUE stands after OF: no two elements are equal.
    pub is_unique: bool,
}

/// The type of a parameter, a variable, a constant or a derived attribute.
#[derive(Drop)]
pub enum TypeTree<'a> {
    Simple(SimpleType, Option<Width<'a>>),
    /// An entity or a type by its name.
    Named(Name<'a>),
    /// ARRAY, BAG, LIST or SET of elements of a type.
    Aggregation(Layer<'a>, Box<TypeTree<'a>>),
    /// AGGREGATE, perhaps with a label, of elements of a type: any kind of aggregate. Where the same label stands in several parameters, their
    /// types agree.
    Aggregate(Option<Name<'a>>, Box<TypeTree<'a>>),
    /// GENERIC, perhaps with a label: any type. Where the same label stands in several parameters, their types agree.
    Generic(Option<Name<'a>>),
    /// GENERIC_ENTITY, perhaps with a label: any entity.
    GenericEntity(Option<Name<'a>>),
}

/// What a statement changes: a variable or parameter, or what its qualifiers, from the left, name of it.
#[derive(Drop)]
pub struct Target<'a> {
    pub name: Name<'a>,
    pub qualifiers: Vec<Qualifier<'a>>,
}

/// How a variable of REPEAT counts.
#[derive(Drop)]
pub struct Increment<'a> {
    pub name: Name<'a>,
    /// Its first value.
    pub from: Expression<'a>,
    /// The last value that it may have.
    pub to: Expression<'a>,
    /// What is added each time; 1 where it is `None`.
    pub by: Option<Expression<'a>>,
}

/// How often a REPEAT is run. Where nothing of it is there, until an ESCAPE or RETURN.
#[derive(Drop)]
pub struct Control<'a> {
    pub increment: Option<Increment<'a>>,
    /// WHILE: what is to be TRUE before each run.
    pub condition: Option<Expression<'a>>,
    /// UNTIL: what ends it where it is TRUE after a run.
    pub until: Option<Expression<'a>>,
}

/// A statement.
#[cycle(statements)]
#[derive(Drop)]
pub enum Statement<'a> {
    /// The semicolon alone, which does nothing, at its place.
    Null(usize),
    /// `target := value;`
    Assign(Target<'a>, Expression<'a>),
    /// A procedure that is called, and its parameters. INSERT and REMOVE are such.
    Call(Name<'a>, Vec<Expression<'a>>),
    /// IF: the condition, what is done where it is TRUE, and what is done where it is not.
    If(Expression<'a>, Vec<Statement<'a>>, Vec<Statement<'a>>),
    /// CASE: what is selected by, the actions in order, of which the first that has a label of that value is done, and what is done where none has.
    Case(Expression<'a>, Vec<Action<'a>>, Option<Box<Statement<'a>>>),
    /// REPEAT: how often, and what.
    Repeat(Control<'a>, Vec<Statement<'a>>),
    /// ALIAS: a name, what it stands for, and the statements in which it does.
    Alias(Name<'a>, Target<'a>, Vec<Statement<'a>>),
    /// BEGIN and END around statements.
    Compound(Vec<Statement<'a>>),
    /// RETURN at its place, perhaps with a value.
    Return(usize, Option<Expression<'a>>),
    /// SKIP at its place: on to the end of the innermost REPEAT, and to its next run.
    Skip(usize),
    /// ESCAPE at its place: out of the innermost REPEAT.
    Escape(usize),
}

/// What CASE does for values.
#[cycle(statements)]
#[derive(Drop)]
pub struct Action<'a> {
    /// One at least.
    pub labels: Vec<Expression<'a>>,
    pub statement: Statement<'a>,
}

/// Parameters of one type.
#[derive(Drop)]
pub struct Parameters<'a> {
    /// Whether VAR stands before them: what the procedure assigns to them, its caller sees.
    pub is_variable: bool,
    /// One at least.
    pub names: Vec<Name<'a>>,
    pub of: TypeTree<'a>,
}

/// Variables of LOCAL, of one type.
#[derive(Drop)]
pub struct Variables<'a> {
    /// One at least.
    pub names: Vec<Name<'a>>,
    pub of: TypeTree<'a>,
    /// The value that each of them has at first, or `None`: it has none yet.
    pub value: Option<Expression<'a>>,
}

/// A constant.
#[derive(Drop)]
pub struct ConstantTree<'a> {
    pub name: Name<'a>,
    pub of: TypeTree<'a>,
    pub value: Expression<'a>,
}

/// An attribute of DERIVE, newly declared or declared again.
#[derive(Drop)]
pub struct Derived<'a> {
    /// The entity after SELF, where the attribute is declared again.
    pub redeclared_of: Option<Name<'a>>,
    /// The name; of one that is declared again, that which it has in that entity.
    pub name: Name<'a>,
    /// The name after RENAMED.
    pub renamed: Option<Name<'a>>,
    pub of: TypeTree<'a>,
    pub value: Expression<'a>,
}

/// What a function, a procedure or a rule declares and does.
#[cycle(routines)]
#[derive(Drop)]
pub struct Block<'a> {
    /// The functions and procedures within it.
    pub routines: Vec<Routine<'a>>,
    pub constants: Vec<ConstantTree<'a>>,
    pub locals: Vec<Variables<'a>>,
    pub statements: Vec<Statement<'a>>,
}

/// A function or a procedure.
#[cycle(routines)]
#[derive(Drop)]
pub struct Routine<'a> {
    pub name: Name<'a>,
    pub parameters: Vec<Parameters<'a>>,
    /// The type of a function's result. A procedure has none.
    pub result: Option<TypeTree<'a>>,
    pub block: Block<'a>,
}

/// A RULE.
#[derive(Drop)]
pub struct GlobalRule<'a> {
    pub name: Name<'a>,
    /// The entities after FOR: in the rule each such name is the set of the entity's instances. One at least.
    pub entities: Vec<Name<'a>>,
    pub block: Block<'a>,
    /// The rules after WHERE. One at least.
    pub rules: Vec<DomainRule<'a>>,
}
