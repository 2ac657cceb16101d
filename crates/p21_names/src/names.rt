//! Names by their numbers.

use indexmap::IndexSet;
use p21_hash::{HashKey, KeywordHashing};
use std::alloc::{AllocError, Global};

/// Names that differ from each other, each by its number: how many were added before it.
pub struct Names {
    set: IndexSet<Vec<u8>, KeywordHashing>,
}

impl Drop for Names {
    fn drop(self) {
        let Self { set: _ } = self;
    }
}

impl Names {
    pub fn new(alloc: Global, key: HashKey) -> Names {
        Names {
            set: IndexSet::with_hasher(alloc, key.keywords()),
        }
    }

    /// How many there are.
    pub fn len(&self) -> usize {
        self.set.len()
    }

    /// Whether there are none.
    pub fn is_empty(&self) -> bool {
        self.set.is_empty()
    }

    /// The number of a name, if it is there.
    pub fn number(&self, name: &[u8]) -> Option<usize> {
        self.set.get_index_of(name)
    }

    /// The name of a number, if there are so many.
    pub fn name(&self, number: usize) -> Option<&[u8]> {
        match self.set.get_index(number) {
            Some(name) => Some(name.as_slice()),
            None => None,
        }
    }

    /// The number of a name, which is added if it is not there.
    pub fn add(&mut self, alloc: Global, name: &[u8]) -> Result<usize, AllocError> {
        match self.number(name) {
            Some(number) => Ok(number),
            None => {
                let number = self.set.len();
                self.set.insert(Vec::from_slice(alloc, name)?)?;
                Ok(number)
            }
        }
    }
}
