//! Heads of entities, and the constraints that speak of them.

use crate::change::Form;
use crate::edit::Edit;
use crate::met::Mends;
use std::alloc::{AllocError, Global};
use std::collections::BTreeMap;

/// What stands between the name of an entity and SUBTYPE OF, or the semicolon.
#[derive(Clone, Copy, Debug)]
pub(crate) enum Head {
    /// ABSTRACT, with or without SUPERTYPE.
    Abstract,
    /// SUPERTYPE, at a place.
    Supertype(usize),
    /// Nothing; the name ends at a place.
    Name(usize),
}

/// A SUBTYPE_CONSTRAINT, from its first byte up to the one after its last semicolon.
#[derive(Clone, Copy, Debug)]
pub(crate) struct Constraint<'a> {
    pub(crate) entity: &'a [u8],
    pub(crate) is_abstract: bool,
    pub(crate) from: usize,
    pub(crate) to: usize,
}

/// Entities by their names, and the constraints.
#[derive(Drop)]
pub(crate) struct Heads<'a> {
    of_entities: BTreeMap<&'a [u8], Head>,
    constraints: Vec<Constraint<'a>>,
}

impl<'a> Heads<'a> {
    /// None were met.
    pub(crate) fn new(alloc: Global) -> Heads<'a> {
        Heads {
            of_entities: BTreeMap::new(alloc),
            constraints: Vec::new(alloc),
        }
    }

    /// The head of an entity.
    pub(crate) fn push(&mut self, entity: &'a [u8], head: Head) -> Result<(), AllocError> {
        self.of_entities.insert(entity, head)?;
        Ok(())
    }

    /// A constraint.
    pub(crate) fn constrain(&mut self, constraint: Constraint<'a>) -> Result<(), AllocError> {
        self.constraints.push(constraint)?;
        Ok(())
    }

    /// Takes the constraints out of the text, and makes those entities abstract of which they say so. One that says so of an entity that is not
    /// declared stays.
    pub(crate) fn mend(self, mends: &mut Mends) -> Result<(), AllocError> {
        let Heads {
            mut of_entities,
            constraints,
        } = self;
        for constraint in &constraints {
            mend_constraint(&mut of_entities, constraint, mends)?;
        }
        Ok(())
    }
}

/// Takes a constraint out of the text.
fn mend_constraint<'a>(
    of_entities: &mut BTreeMap<&'a [u8], Head>,
    constraint: &Constraint<'a>,
    mends: &mut Mends,
) -> Result<(), AllocError> {
    let form = if constraint.is_abstract {
        let Some(head) = of_entities.get(constraint.entity).copied() else {
            return mends.leave(constraint.from);
        };
        if let Some(edit) = made_abstract(head) {
            mends.edit(edit)?;
        }
        of_entities.insert(constraint.entity, Head::Abstract)?;
        Form::AbstractConstraint
    } else {
        Form::Constraint
    };
    let (from, to) = (constraint.from, constraint.to);
    mends.mend(form, from, Edit::Blank { from, to })
}

/// What makes an entity abstract that is not.
fn made_abstract(head: Head) -> Option<Edit> {
    match head {
        Head::Abstract => None,
        Head::Supertype(at) => Some(Edit::Insert {
            at,
            words: "ABSTRACT ",
        }),
        Head::Name(at) => Some(Edit::Insert {
            at,
            words: " ABSTRACT SUPERTYPE",
        }),
    }
}
