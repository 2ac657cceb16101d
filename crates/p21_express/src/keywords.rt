//! The words that the grammar names, place by place. At any other place they are names like all others.

ghost use Rattle.std.specs.Prelude.{◌≡◌};
ghost use Rattle.p21_express.specs.Keywords.{type_word_of, under_word_of, decl_word_of, is_rules_word};

/// A type that is no aggregate, by the word that it begins with.
#[derive(Clone, Copy)]
pub(crate) enum SimpleWord {
    Integer,
    Number,
    Boolean,
    Logical,
    Real,
    Text,
    Binary,
    /// Any other word is the name of an entity or a type.
    Named,
}

/// An aggregate, by the word that it begins with.
#[derive(Clone, Copy)]
pub(crate) enum AggregateWord {
    Array,
    List,
    Set,
    Bag,
}

/// What a word says where a type begins.
#[derive(Clone, Copy)]
pub(crate) enum TypeWord {
    Simple(SimpleWord),
    Aggregate(AggregateWord),
}

/// What a word says where that which stands under a TYPE begins.
#[derive(Clone, Copy)]
pub(crate) enum UnderWord {
    Enumeration,
    Select,
    Unsupported,
    Plain,
}

/// What a word says where a declaration begins.
#[derive(Clone, Copy)]
pub enum DeclWord {
    Entity,
    Type,
    Function,
    Procedure,
    Rule,
    Constant,
    /// A declaration of a form that is not supported, such as USE.
    Unsupported,
    /// No declaration.
    Unknown,
}

#[tactic(auto, unfolding(crate::specs::Keywords::type_word_of))]
pub(crate) fn type_word(word: &[u8]) -> TypeWord
    ensures { result ≡ type_word_of word.now }
{
    if word == b"INTEGER".as_slice() {
        return TypeWord::Simple(SimpleWord::Integer);
    }
    if word == b"NUMBER".as_slice() {
        return TypeWord::Simple(SimpleWord::Number);
    }
    if word == b"BOOLEAN".as_slice() {
        return TypeWord::Simple(SimpleWord::Boolean);
    }
    if word == b"LOGICAL".as_slice() {
        return TypeWord::Simple(SimpleWord::Logical);
    }
    if word == b"REAL".as_slice() {
        return TypeWord::Simple(SimpleWord::Real);
    }
    if word == b"STRING".as_slice() {
        return TypeWord::Simple(SimpleWord::Text);
    }
    if word == b"BINARY".as_slice() {
        return TypeWord::Simple(SimpleWord::Binary);
    }
    if word == b"ARRAY".as_slice() {
        return TypeWord::Aggregate(AggregateWord::Array);
    }
    if word == b"LIST".as_slice() {
        return TypeWord::Aggregate(AggregateWord::List);
    }
    if word == b"SET".as_slice() {
        return TypeWord::Aggregate(AggregateWord::Set);
    }
    if word == b"BAG".as_slice() {
        return TypeWord::Aggregate(AggregateWord::Bag);
    }
    TypeWord::Simple(SimpleWord::Named)
}

#[tactic(auto, unfolding(crate::specs::Keywords::under_word_of))]
pub(crate) fn under_word(word: &[u8]) -> UnderWord
    ensures { result ≡ under_word_of word.now }
{
    if word == b"ENUMERATION".as_slice() {
        return UnderWord::Enumeration;
    }
    if word == b"SELECT".as_slice() {
        return UnderWord::Select;
    }
    if word == b"EXTENSIBLE".as_slice() {
        return UnderWord::Unsupported;
    }
    if word == b"GENERIC_ENTITY".as_slice() {
        return UnderWord::Unsupported;
    }
    UnderWord::Plain
}

/// What a word in upper case says where a declaration begins.
#[tactic(auto, unfolding(crate::specs::Keywords::decl_word_of))]
pub fn decl_word(word: &[u8]) -> DeclWord
    ensures { result ≡ decl_word_of word.now }
{
    if word == b"ENTITY".as_slice() {
        return DeclWord::Entity;
    }
    if word == b"TYPE".as_slice() {
        return DeclWord::Type;
    }
    if word == b"FUNCTION".as_slice() {
        return DeclWord::Function;
    }
    if word == b"PROCEDURE".as_slice() {
        return DeclWord::Procedure;
    }
    if word == b"RULE".as_slice() {
        return DeclWord::Rule;
    }
    if word == b"CONSTANT".as_slice() {
        return DeclWord::Constant;
    }
    if word == b"USE".as_slice() {
        return DeclWord::Unsupported;
    }
    if word == b"REFERENCE".as_slice() {
        return DeclWord::Unsupported;
    }
    if word == b"SUBTYPE_CONSTRAINT".as_slice() {
        return DeclWord::Unsupported;
    }
    DeclWord::Unknown
}

/// Whether the rules of an entity begin with this word.
#[tactic(auto, unfolding(crate::specs::Keywords::is_rules_word))]
pub(crate) fn begins_rules(word: &[u8]) -> bool
    ensures { result ≡ is_rules_word word.now }
{
    word == b"INVERSE".as_slice() || word == b"UNIQUE".as_slice() || word == b"WHERE".as_slice()
}
