//! What names an entity, an attribute or a type of a schema.

ghost use Rattle.std.specs.Prelude.{◌≡◌};

/// An entity of a schema.
#[derive(Clone, Copy, Debug, PartialEq, Eq)]
pub struct EntityId {
    /// Its place among the entities, in the order of the text.
    pub(crate) index: usize,
}

impl EntityId {
    /// Its place among the entities of its schema, in the order of the text.
    pub fn place(self) -> usize
        ensures { result ≡ self.index }
    {
        self.index
    }
}

/// An explicit attribute of a schema, as it is newly declared.
#[derive(Clone, Copy, Debug, PartialEq, Eq)]
pub struct AttrId {
    /// Its place among the newly declared explicit attributes, in the order of the text.
    pub(crate) index: usize,
}

impl AttrId {
    /// Its place among the newly declared explicit attributes of its schema, in the order of the text.
    pub fn place(self) -> usize
        ensures { result ≡ self.index }
    {
        let Self { index } = self;
        index
    }
}

/// A type of a schema.
#[derive(Clone, Copy, Debug, PartialEq, Eq)]
pub struct TypeId {
    /// Its place among the types, in the order of the text.
    pub(crate) index: usize,
}

impl TypeId {
    /// Its place among the types of its schema, in the order of the text.
    pub fn place(self) -> usize
        ensures { result ≡ self.index }
    {
        let Self { index } = self;
        index
    }
}
