//! What a schema declares. Names are in upper case; lists stand in the order of the text.

/// The declarations of a schema.
#[derive(Debug, Drop)]
pub struct Declarations {
    /// The name after SCHEMA.
    pub name: Vec<u8>,
    pub entities: Vec<EntityDecl>,
    pub types: Vec<TypeDecl>,
}

/// An ENTITY.
#[derive(Debug, Drop)]
pub struct EntityDecl {
    pub name: Vec<u8>,
    /// Whether ABSTRACT SUPERTYPE stands after the name.
    pub is_abstract: bool,
    /// The names of SUBTYPE OF.
    pub supertypes: Vec<Vec<u8>>,
    /// The explicit attributes and redeclarations.
    pub attributes: Vec<AttrDecl>,
    /// The attributes and redeclarations of DERIVE.
    pub derived: Vec<DeriveDecl>,
}

/// An explicit attribute, newly declared or declared again.
#[derive(Debug, Drop)]
pub struct AttrDecl {
    pub name: Vec<u8>,
    /// The entity after SELF, where the attribute is declared again.
    pub of: Option<Vec<u8>>,
    pub optional: bool,
    pub texpr: TypeExpr,
}

/// An attribute of DERIVE, newly declared or declared again.
#[derive(Debug, Drop)]
pub struct DeriveDecl {
    pub name: Vec<u8>,
    /// The entity after SELF, where the attribute is declared again.
    pub of: Option<Vec<u8>>,
}

/// A TYPE.
#[derive(Debug, Drop)]
pub struct TypeDecl {
    pub name: Vec<u8>,
    pub under: Under,
}

/// What stands under a TYPE.
#[derive(Debug)]
pub enum Under {
    /// The items of an ENUMERATION.
    Items(Vec<Vec<u8>>),
    /// The items of a SELECT.
    Select(Vec<Vec<u8>>),
    Plain(TypeExpr),
}

/// As a derive would; written out, it is one call wherever the value is let go, which a derive takes apart in each such place.
impl Drop for Under {
    fn drop(self) {
        match self {
            Under::Items(_) => {}
            Under::Select(_) => {}
            Under::Plain(_) => {}
        }
    }
}

/// A type.
#[derive(Debug, Drop)]
pub enum TypeExpr {
    Integer,
    Number,
    Boolean,
    Logical,
    Real,
    /// STRING.
    Text(Width),
    Binary(Width),
    Array {
        bounds: Bounds,
        /// Whether an element may be left out.
        optional: bool,
        item: Box<TypeExpr>,
    },
    List {
        bounds: Bounds,
        /// Whether UNIQUE stands after OF: no two elements may be equal.
        unique: bool,
        item: Box<TypeExpr>,
    },
    Set {
        bounds: Bounds,
        item: Box<TypeExpr>,
    },
    Bag {
        bounds: Bounds,
        item: Box<TypeExpr>,
    },
    /// An entity or a type by its name.
    Named(Vec<u8>),
}

/// The width of a STRING, in characters, or of a BINARY, in bits.
#[derive(Clone, Copy, Debug, PartialEq, Eq)]
pub struct Width {
    /// `None` where no width is checked.
    pub count: Option<u64>,
    /// Whether the width is exact.
    pub fixed: bool,
}

/// The bounds of an aggregate. `None` where a bound is not checked.
#[derive(Clone, Copy, Debug, PartialEq, Eq)]
pub struct Bounds {
    pub low: Option<i64>,
    pub high: Option<i64>,
}
