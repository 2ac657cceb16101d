//! What is changed in the text of a schema.

/// A form that is not supported, and has the same meaning written another way.
#[derive(Clone, Copy, Debug, PartialEq, Eq)]
pub enum Form {
    /// A byte order mark before the first word.
    ByteOrderMark,
    /// A byte 26 after the last word.
    EndOfText,
    /// A text after the name of the schema.
    Version,
    /// ABSTRACT without SUPERTYPE.
    Abstract,
    /// A type that is just another type, which is a SELECT.
    LoneSelect,
    /// SUBTYPE_CONSTRAINT.
    Constraint,
    /// SUBTYPE_CONSTRAINT with ABSTRACT SUPERTYPE.
    AbstractConstraint,
    /// EXTENSIBLE, where no type is based on the one that it stands in, and no declaration is of another schema.
    Extensible,
    /// GENERIC_ENTITY before the items of a SELECT.
    GenericEntity,
    /// RENAMED.
    Renamed,
}

impl Form {
    /// What is changed, and why the meaning is the same, in a sentence.
    ///
    /// The sentences are tested.
    pub fn sentence(self) -> &'static str {
        match self {
            Form::ByteOrderMark => {
                "The byte order mark is left out: it is no part of the schema."
            }
            Form::EndOfText => {
                "The byte 26 at the end is left out: it is no part of the schema."
            }
            Form::Version => {
                "The version after the name of the schema is left out: it declares nothing."
            }
            Form::Abstract => "ABSTRACT is read as ABSTRACT SUPERTYPE, which means the same.",
            Form::LoneSelect => {
                "A type that is just another SELECT is read as a SELECT of that type, which admits the same values."
            }
            Form::Constraint => {
                "SUBTYPE_CONSTRAINT is left out: which subtypes may occur together is not checked."
            }
            Form::AbstractConstraint => {
                "SUBTYPE_CONSTRAINT is left out, and its entity is read as an ABSTRACT SUPERTYPE, as it says: which subtypes may occur together is not checked."
            }
            Form::Extensible => {
                "EXTENSIBLE is left out: no other type of the schema adds items to this one."
            }
            Form::GenericEntity => {
                "GENERIC_ENTITY is left out: the items say which values are admitted."
            }
            Form::Renamed => {
                "RENAMED and the name after it are left out: a file has the values of attributes, and not their names."
            }
        }
    }
}

/// A change in the text of a schema.
#[derive(Clone, Copy, Debug, PartialEq, Eq)]
pub struct Change {
    /// Where the unchanged text is refused, in bytes from its first byte.
    pub at: usize,
    /// What is changed there.
    pub form: Form,
}
