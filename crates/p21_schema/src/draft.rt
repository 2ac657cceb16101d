//! The attributes of an entity, inherited ones first, while they are put together.

ghost use Rattle.std.specs.Prelude.{◌≡◌, ◌<◌, ◌≤◌, ◌-◌, ◌++◌, ◌∷◌, ℕ, List, [], None, Some, length, get_or, replicate, IfOk, IsTrue, OnOk};
ghost use Rattle.p21_express.specs.WellFormed.{IsIn};
ghost use Rattle.p21_schema.specs.Draft.{IsDraft, IsMade, IsWholeRow};
ghost use Rattle.p21_schema.specs.RowTable.{kept, all_kept, ids_from, joined, AreRowsOver, AreWithin, row_of};
ghost use Rattle.p21_schema.specs.declared.ids.AttrId.{AttrId};

use crate::ids::AttrId;
use crate::rows::{Own, Row, parts};
use std::alloc::{AllocError, Global};

/// A row that is made, in which no attribute stands twice.
#[derive(Drop)]
pub(crate) struct Draft {
    pub(crate) ids: Vec<AttrId>,
    /// For each attribute the number of the last row in which it was put.
    marks: Vec<usize>,
    /// The number of this row.
    number: usize,
    /// The entity whose row this is, where it is whole.
    of: Option<usize>,
}

impl Draft {
    /// A draft for rows of some of so many attributes.
    pub(crate) fn new(alloc: Global, count: usize) -> Result<Draft, AllocError>
        ensures marks { IfOk result (λ draft. draft.marks.items ≡ replicate count 0) }
        ensures number { IfOk result (λ draft. draft.number ≡ 0) }
        ensures of { IfOk result (λ draft. draft.of ≡ None) }
    {
        Ok(Draft {
            ids: Vec::new(alloc),
            marks: vec![in alloc; 0usize; count]?,
            number: 0,
            of: None,
        })
    }

    /// An attribute after the others, where it does not stand among them.
    fn keep(&mut self, attribute: AttrId) -> Result<(), AllocError>
        requires draft { IsDraft self.old }
        requires known { attribute.index < length self.old.marks.items }
        ensures { OnOk result (IsMade (length self.old.marks.items) self.old.number (kept self.old.ids.items attribute) self.new) }
    {
        if self.marks[attribute.index] != self.number {
            self.ids.push(attribute)?;
            self.marks[attribute.index] = self.number;
        }
        Ok(())
    }

    /// Each of these attributes after the others, where it does not stand among them.
    fn keep_all(&mut self, attributes: &[AttrId]) -> Result<(), AllocError>
        requires draft { IsDraft self.old }
        requires known { (a : AttrId) → IsIn attributes.now a → a.index < length self.old.marks.items }
        ensures { OnOk result (IsMade (length self.old.marks.items) self.old.number (all_kept self.old.ids.items attributes.now) self.new) }
    {
        for attribute in attributes {
            self.keep(*attribute)?;
        }
        Ok(())
    }

    /// The own attributes of an entity after the others.
    fn keep_own(&mut self, own: Own) -> Result<(), AllocError>
        requires draft { IsDraft self.old }
        requires own { own.from ≤ own.to }
        requires known { own.to ≤ length self.old.marks.items }
        ensures { OnOk result (IsMade (length self.old.marks.items) self.old.number (all_kept self.old.ids.items (ids_from own.from (own.to - own.from))) self.new) }
    {
        for index in own.from..own.to {
            self.keep(AttrId { index })?;
        }
        Ok(())
    }

    /// Each attribute of an entity's row after the others, where it does not stand among them.
    fn keep_row(&mut self, alloc: Global, rows: &[Row], entity: usize) -> Result<(), AllocError>
        requires draft { IsDraft self.old }
        requires rows { (all : List (List AttrId)) × (AreRowsOver all rows.now × (entity < length rows.now)) }
        requires known { AreWithin (length self.old.marks.items) rows.now }
        ensures { OnOk result ((all : List (List AttrId)) → AreRowsOver all rows.now → IsMade (length self.old.marks.items) self.old.number (all_kept self.old.ids.items (row_of all entity)) self.new) }
    {
        let mut parts = parts(alloc, rows, entity)?;
        while let Some(part) = parts.pop() {
            self.keep_all(&rows[part].rest)?;
        }
        Ok(())
    }

    /// Whether this is the whole row of the only one of these supertypes.
    fn is_of(&self, supertypes: &[usize]) -> bool
        ensures { IsTrue result → (e : ℕ) × ((self.now.of ≡ Some e) × (supertypes.now ≡ e ∷ [])) }
    {
        match (supertypes, self.of) {
            ([only], Some(of)) => *only == of,
            _ => false,
        }
    }

    /// The rows of some supertypes one after the other, each attribute at its first place, under this number.
    fn keep_rows(
        &mut self,
        alloc: Global,
        rows: &[Row],
        supertypes: &[usize],
        number: usize,
    ) -> Result<(), AllocError>
        requires rows { (all : List (List AttrId)) × (AreRowsOver all rows.now × ((e : ℕ) → IsIn supertypes.now e → e < length rows.now)) }
        requires known { AreWithin (length self.old.marks.items) rows.now }
        requires number { (k : ℕ) → get_or self.old.marks.items k 0 < number }
        ensures { OnOk result ((all : List (List AttrId)) → AreRowsOver all rows.now → IsMade (length self.old.marks.items) number (all_kept [] (joined (row_of all) supertypes.now)) self.new) }
    {
        self.ids.clear();
        self.number = number;
        for supertype in supertypes {
            self.keep_row(alloc, rows, *supertype)?;
        }
        Ok(())
    }

    /// The row of an entity, by those of its supertypes and its own attributes, under a number that no row before it has. It goes on from the
    /// row that stands here where that is the one of the only supertype, so that a chain of subtypes takes no longer than its attributes.
    pub(crate) fn fill(
        &mut self,
        alloc: Global,
        rows: &[Row],
        supertypes: &[usize],
        own: Own,
        entity: usize,
        number: usize,
    ) -> Result<(), AllocError>
        requires draft { (e : ℕ) → self.old.of ≡ Some e → IsDraft self.old }
        requires rows { (all : List (List AttrId)) × (AreRowsOver all rows.now × ((e : ℕ) → IsIn supertypes.now e → e < length rows.now)) }
        requires known { AreWithin (length self.old.marks.items) rows.now }
        requires own { own.from ≤ own.to }
        requires within { own.to ≤ length self.old.marks.items }
        requires number { (k : ℕ) → get_or self.old.marks.items k 0 < number }
        requires before { self.old.number ≤ number }
        ensures made { OnOk result ((all : List (List AttrId)) → AreRowsOver all rows.now → IsWholeRow all self.old → IsMade (length self.old.marks.items) self.new.number (all_kept [] (joined (row_of all) supertypes.now ++ ids_from own.from (own.to - own.from))) self.new) }
        ensures number { OnOk result (self.new.number ≤ number) }
        ensures of { OnOk result (self.new.of ≡ Some entity) }
    {
        if !self.is_of(supertypes) {
            self.keep_rows(alloc, rows, supertypes, number)?;
        }
        self.keep_own(own)?;
        self.of = Some(entity);
        Ok(())
    }
}
