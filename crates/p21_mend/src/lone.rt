//! Types that are just another type.

use crate::change::Form;
use crate::edit::Edit;
use crate::met::Mends;
use std::alloc::{AllocError, Global};
use std::collections::BTreeMap;

/// A type that is just another one, whose name stands between two places.
#[derive(Clone, Copy, Debug)]
struct Lone<'a> {
    name: &'a [u8],
    from: usize,
    to: usize,
    /// The position of the one before it that is just the same one.
    before: Option<usize>,
}

/// The types that are just another one, and the SELECTs.
#[derive(Drop)]
pub(crate) struct LoneTypes<'a> {
    all: Vec<Lone<'a>>,
    /// By the name of the other type, the position of the last that is just that one.
    last: BTreeMap<&'a [u8], usize>,
    selects: Vec<&'a [u8]>,
}

impl<'a> LoneTypes<'a> {
    /// None were met.
    pub(crate) fn new(alloc: Global) -> LoneTypes<'a> {
        LoneTypes {
            all: Vec::new(alloc),
            last: BTreeMap::new(alloc),
            selects: Vec::new(alloc),
        }
    }

    /// A type that is a SELECT.
    pub(crate) fn push_select(&mut self, name: &'a [u8]) -> Result<(), AllocError> {
        self.selects.push(name)?;
        Ok(())
    }

    /// A type that is just another one, whose name stands at a place.
    pub(crate) fn push_lone(
        &mut self,
        name: &'a [u8],
        other: &'a [u8],
        from: usize,
    ) -> Result<(), AllocError> {
        let before = self.last.insert(other, self.all.len())?;
        self.all.push(Lone {
            name,
            from,
            to: from.saturating_add(other.len()),
            before,
        })?;
        Ok(())
    }

    /// Makes a SELECT of each that is just a SELECT, or just one that is so made.
    pub(crate) fn mend(self, mends: &mut Mends) -> Result<(), AllocError> {
        let LoneTypes {
            all,
            mut last,
            mut selects,
        } = self;
        // Each type is made a SELECT at most once.
        for _ in 0..selects.len().saturating_add(all.len()) {
            let Some(name) = selects.pop() else {
                break;
            };
            let found = last.remove(name);
            mend_all(&all, found, &mut selects, mends)?;
        }
        Ok(())
    }
}

/// Makes SELECTs of all that are just the same one, by the position of the last, and adds their names.
fn mend_all<'a>(
    all: &[Lone<'a>],
    last: Option<usize>,
    selects: &mut Vec<&'a [u8]>,
    mends: &mut Mends,
) -> Result<(), AllocError> {
    let mut at = last;
    for _ in 0..all.len() {
        let Some(lone) = at.and_then(|position| all.get(position)) else {
            break;
        };
        mend_one(lone, mends)?;
        selects.push(lone.name)?;
        at = lone.before;
    }
    Ok(())
}

/// Makes a SELECT of one.
fn mend_one(lone: &Lone<'_>, mends: &mut Mends) -> Result<(), AllocError> {
    let before = Edit::Insert {
        at: lone.from,
        words: "SELECT (",
    };
    mends.mend(Form::LoneSelect, lone.from, before)?;
    mends.edit(Edit::Insert {
        at: lone.to,
        words: ")",
    })
}
