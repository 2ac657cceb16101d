//! What is mended and what is left as it is, while the words of a schema are read.

use crate::change::{Change, Form};
use crate::edit::Edit;
use std::alloc::{AllocError, Global};

/// What is changed in a text, and what cannot be.
#[derive(Drop)]
pub(crate) struct Mends {
    pub(crate) changes: Vec<Change>,
    pub(crate) edits: Vec<Edit>,
    pub(crate) left: Vec<usize>,
}

impl Mends {
    /// Nothing is changed.
    pub(crate) fn new(alloc: Global) -> Mends {
        Mends {
            changes: Vec::new(alloc),
            edits: Vec::new(alloc),
            left: Vec::new(alloc),
        }
    }

    /// A form that is refused at a place, and the edit that mends it.
    pub(crate) fn mend(&mut self, form: Form, at: usize, edit: Edit) -> Result<(), AllocError> {
        self.changes.push(Change { at, form })?;
        self.edit(edit)
    }

    /// A further edit of a change.
    pub(crate) fn edit(&mut self, edit: Edit) -> Result<(), AllocError> {
        self.edits.push(edit)?;
        Ok(())
    }

    /// A form at a place that stays as it is.
    pub(crate) fn leave(&mut self, at: usize) -> Result<(), AllocError> {
        self.left.push(at)?;
        Ok(())
    }
}
