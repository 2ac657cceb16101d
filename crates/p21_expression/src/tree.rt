//! Expressions as trees. Names are in upper case, and a place is the number of words of the text that stand from there on.

/// A name of the text, in upper case.
#[derive(Clone, Copy)]
pub struct Name<'a> {
    pub text: &'a [u8],
    /// How many words of the text stand from it on.
    pub place: usize,
}

/// A value of LOGICAL.
#[derive(Clone, Copy, Debug, PartialEq, Eq)]
pub enum Truth {
    False,
    Unknown,
    True,
}

/// A constant that the language names.
#[derive(Clone, Copy, Debug, PartialEq, Eq)]
pub enum Constant {
    /// `?`, which stands for no value.
    Indeterminate,
    /// SELF.
    Itself,
    /// PI.
    Pi,
    /// CONST_E, the base of natural logarithms.
    Euler,
}

/// An operator of one operand.
#[derive(Clone, Copy, Debug, PartialEq, Eq)]
pub enum UnaryOperator {
    Plus,
    Minus,
    Not,
}

/// An operator of two operands.
#[derive(Clone, Copy, Debug, PartialEq, Eq)]
pub enum BinaryOperator {
    /// `**`
    Power,
    /// `*`
    Times,
    /// `/`
    Divide,
    /// DIV
    Div,
    /// MOD
    Mod,
    /// AND
    And,
    /// `||`
    Combine,
    /// `+`
    Plus,
    /// `-`
    Minus,
    /// OR
    Or,
    /// XOR
    Xor,
    /// `<`
    Less,
    /// `>`
    Greater,
    /// `<=`
    LessOrEqual,
    /// `>=`
    GreaterOrEqual,
    /// `<>`
    NotEqual,
    /// `=`
    Equal,
    /// `:<>:`
    OtherInstance,
    /// `:=:`
    SameInstance,
    /// IN
    In,
    /// LIKE
    Like,
}

/// How an interval compares.
#[derive(Clone, Copy, Debug, PartialEq, Eq)]
pub enum IntervalOperator {
    /// `<`
    Less,
    /// `<=`
    LessOrEqual,
}

/// An expression. A place is the number of words that stand from there on.
#[cycle(tree)]
#[derive(Drop)]
pub enum Expression<'a> {
    /// A whole number, with its value where it has at most 18 digits, and its place.
    Integer(Option<u64>, usize),
    /// The place of a real number.
    Real(usize),
    /// The place of a string, between apostrophes, or of an encoded string, between quotation marks.
    Text(usize),
    /// The place of a binary number's `%`.
    Binary(usize),
    Truth(Truth),
    Constant(Constant),
    /// An attribute, variable, parameter, constant, item of an enumeration, or a function of no parameters.
    Name(Name<'a>),
    /// A function of these parameters, or the instance that the entity of this name has of these attributes.
    Call(Name<'a>, Vec<Expression<'a>>),
    /// What is qualified, from the left.
    Qualified(Box<Expression<'a>>, Vec<Qualifier<'a>>),
    Unary(UnaryOperator, Box<Expression<'a>>),
    /// The first operand, and the operations on it from the left, all of one precedence.
    Operations(Box<Expression<'a>>, Vec<Operation<'a>>),
    Aggregate(Vec<Element<'a>>),
    Interval(Box<Interval<'a>>),
    /// The elements of an aggregate for which a condition holds, and the name that an element has in it.
    Query(Name<'a>, Box<Expression<'a>>, Box<Expression<'a>>),
}

/// What is read of a value.
#[cycle(tree)]
#[derive(Drop)]
pub enum Qualifier<'a> {
    /// `.a`
    Attribute(Name<'a>),
    /// `\e`
    Group(Name<'a>),
    /// `[a]`
    Index(Expression<'a>),
    /// `[a:b]`
    Range(Expression<'a>, Expression<'a>),
}

/// An operator, and the operand on its right.
#[cycle(tree)]
#[derive(Drop)]
pub struct Operation<'a> {
    pub operator: BinaryOperator,
    /// The place of the operator.
    pub place: usize,
    pub right: Expression<'a>,
}

/// An element of an aggregate.
#[cycle(tree)]
#[derive(Drop)]
pub enum Element<'a> {
    Once(Expression<'a>),
    /// An element, and how often it stands there.
    Repeated(Expression<'a>, Expression<'a>),
}

/// `{ low < item < high }`
#[cycle(tree)]
#[derive(Drop)]
pub struct Interval<'a> {
    pub low: Expression<'a>,
    pub above: IntervalOperator,
    pub item: Expression<'a>,
    pub below: IntervalOperator,
    pub high: Expression<'a>,
}
