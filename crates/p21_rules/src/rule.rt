//! Rules.

use p21_schema::{AttrId, EntityId};

/// A rule of UNIQUE: no two instances of the entity have the same values of these attributes together.
#[derive(Debug, Drop)]
pub struct UniqueRule {
    pub entity: EntityId,
    /// The attributes, each of the entity or of an ancestor of it.
    pub attributes: Vec<AttrId>,
}

/// The bounds of an INVERSE attribute: how many instances of another entity may refer to one of the entity by an attribute.
#[derive(Debug, Drop)]
pub struct InverseRule {
    /// The entity that has the INVERSE attribute.
    pub entity: EntityId,
    /// The entity whose instances refer.
    pub source: EntityId,
    /// The attribute by which they do, of that entity or of an ancestor of it.
    pub attribute: AttrId,
    /// Whether each reference counts, as in a BAG. Otherwise an instance counts once, however often it refers.
    pub is_bag: bool,
    /// The least count.
    pub low: u64,
    /// The greatest; `None` if there is none.
    pub high: Option<u64>,
}
