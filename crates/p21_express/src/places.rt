//! Where the names of declarations stand: of each, how many words stand from it on.

use std::alloc::Global;

/// Of an attribute: its name, or SELF where it is declared again, and the name in its type, where it has one.
#[derive(Clone, Copy)]
pub(crate) struct AttrPlaces {
    pub(crate) name: usize,
    pub(crate) texpr: usize,
}

#[derive(Drop)]
pub(crate) struct EntityPlaces {
    pub(crate) name: usize,
    pub(crate) supertypes: Vec<usize>,
    pub(crate) attributes: Vec<AttrPlaces>,
    pub(crate) derived: Vec<usize>,
}

impl EntityPlaces {
    /// Of an entity that stands nowhere.
    pub(crate) fn nowhere(alloc: Global) -> EntityPlaces {
        EntityPlaces {
            name: 0,
            supertypes: Vec::new(alloc),
            attributes: Vec::new(alloc),
            derived: Vec::new(alloc),
        }
    }
}

#[derive(Drop)]
pub(crate) struct TypePlaces {
    pub(crate) name: usize,
    /// Of the items, or of the name in the type.
    pub(crate) under: Vec<usize>,
}

impl TypePlaces {
    /// Of a type that stands nowhere.
    pub(crate) fn nowhere(alloc: Global) -> TypePlaces {
        TypePlaces {
            name: 0,
            under: Vec::new(alloc),
        }
    }
}
