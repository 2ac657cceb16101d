//! Rules of WHERE, and what they find.

/// How many steps a rule may take where no number is asked for.
pub const STEPS: u64 = 100_000;

/// What a rule is of.
#[derive(Clone, Copy)]
pub enum RuleOwner {
    Entity,
    Type,
    /// A RULE over all instances.
    Schema,
}

/// Why a rule is not checked.
#[derive(Clone, Copy)]
pub enum WhyUnchecked {
    /// Its text has no reading by the grammar.
    NoReading,
    /// More than 256 things of one kind stand within one another in it, or more than 500 terms do.
    TooDeep,
    /// It costs too much to resolve.
    TooLarge,
    /// Nothing has a name that it uses.
    UnknownName,
    /// A string of it names an entity or a type of another schema.
    AnotherSchema,
    /// It has a form or a function that is not computed.
    NotComputed,
    /// It calls a function with another number of parameters.
    WrongCount,
    /// It calls a function that is not evaluated.
    CallsUnchecked,
}

/// Why it is not decided whether an instance breaks a rule.
#[derive(Clone, Copy)]
pub enum WhyUndecided {
    /// The steps are used up.
    Steps,
    /// Expressions are nested more deeply than an evaluation may go.
    TooDeep,
    /// Values are not compared: an integer beyond 2 to the power 53 with a real, or an instance of the file with one that an expression makes.
    NotCompared,
    /// A number is out of the range of 64 bits.
    NotComputed,
    /// Memory ran out.
    Memory,
}

/// Why a rule is not checked, and where what is in its way stands in the schema's text, in bytes from the first.
#[derive(Clone, Copy)]
pub struct InTheWay {
    pub reason: WhyUnchecked,
    pub at: u64,
}

/// A rule of WHERE.
#[derive(Drop)]
pub struct WhereRule {
    pub owner: RuleOwner,
    /// The name of its entity, its type or its RULE, a point, and its label, in upper case; `(2)` in place of a label that the second of a WHERE has not.
    pub name: Vec<u8>,
    /// Where it begins in the schema's text, in bytes from the first, and where it ends; of a RULE these are those of the whole.
    pub from: u64,
    pub to: u64,
    pub in_the_way: Option<InTheWay>,
}

/// A rule that an instance breaks.
#[derive(Clone, Copy)]
pub struct BrokenRule {
    /// The place of the instance's `#` in the file, or of the HEADER for a RULE, in bytes from the first.
    pub at: u64,
    /// The number of the rule.
    pub rule: usize,
}

/// A rule of which it is not decided whether an instance breaks it.
#[derive(Clone, Copy)]
pub struct UndecidedRule {
    /// As in `BrokenRule`.
    pub at: u64,
    pub rule: usize,
    pub why: WhyUndecided,
}

/// The rules of WHERE of a schema, and what a model breaks.
#[derive(Drop)]
pub struct WhereFindings {
    /// In the order of the text.
    pub rules: Vec<WhereRule>,
    /// In the order of the instances, of one instance in that of the rules; after them the RULEs that are broken.
    pub broken: Vec<BrokenRule>,
    /// In the same order.
    pub undecided: Vec<UndecidedRule>,
    /// Where the text first names another schema in a string of its rules, in bytes from the first.
    pub another_schema: Option<u64>,
    /// How many evaluations there were, without those of RULEs.
    pub evaluations: u64,
}
