//! What a check keeps of simple instances: names, entities and references, in columns.

ghost use Rattle.std.specs.Prelude.{◌≡◌, ◌++◌, All, IfOk, OnErr, OnOk, length, map};
ghost use Rattle.p21_schema.specs.Ancestry.{entity_id};
ghost use Rattle.p21_schema.specs.Place.{IsEntityOf};
ghost use Rattle.p21_outline.specs.Rows.{IsWithin, AreWithin-prop, row_behind};

use crate::let_go::LetGo;
use p21_check::Reference;
use p21_schema::{EntityId, Schema};
use p21_tree::RawInstance;
use std::alloc::{AllocError, Global};

/// What is kept of an instance, where its references and what is whole stand in other columns. A file has millions, so it takes 12 bytes.
#[derive(Drop)]
pub(crate) struct Row<'a> {
    pub(crate) held: Held,
    /// Where its references end, which begin where those of the row before end.
    pub(crate) end: u32,
    /// The instance, where it was let go.
    pub(crate) gone: LetGo<RawInstance<'a>>,
}

const _: () = prove!(size_of::<Row<'static>>() == 12);

/// What is held of an instance.
#[derive(Clone, Copy)]
pub(crate) enum Held {
    /// The place of the entity of a simple one, among those of the schema.
    Simple(u32),
    /// The place of a complex one among those that are kept whole.
    Whole(u32),
}

/// What is kept of some instances, in their order.
#[derive(Drop)]
pub(crate) struct Columns<'a> {
    pub(crate) rows: Vec<Row<'a>>,
    /// The references of the simple instances.
    pub(crate) references: Vec<Reference>,
    /// The complex instances.
    pub(crate) wholes: Vec<RawInstance<'a>>,
    /// How many instance names are written in all of them as parameters, at most 2^64 - 1.
    pub(crate) written: u64,
    ghost within: { All (λ row. IsWithin (length wholes.items) row.held) rows.items } by { AreWithin-prop (length wholes.items) rows.items },
}

impl<'a> Columns<'a> {
    ghost use Rattle.std.specs.Prelude.{◌<◌, ◌≤◌, ◌^◌, [], get_or, slice_range};
    ghost use Rattle.p21_outline.specs.Rows.{HaveReferences, RefersAt};
    ghost use Rattle.p21_outline.specs.declared.columns.Row.{Row};
    ghost use Rattle.p21_express.specs.Schema.{Schema};
    ghost use Rattle.p21_outline.specs.Columns.{AppendsSimple, AppendsWhole, AreColumns, IsAsItWas, Joins, instances_in, start_at};

    /// Nothing is kept yet. This takes no memory.
    pub(crate) fn new(alloc: Global) -> Columns<'a>
        ensures instances { instances_in result ≡ [] }
        ensures fits { (s : Schema) → AreColumns s result }
    {
        Columns {
            rows: Vec::new(alloc),
            references: Vec::new(alloc),
            wholes: Vec::new(alloc),
            written: 0,
        }
    }

    /// The same, with room for so many instances, and for two references of each, since most have fewer. It is refused for lack of memory
    /// alone.
    pub(crate) fn with_capacity(alloc: Global, count: usize) -> Result<Columns<'a>, AllocError>
        ensures instances { IfOk result (λ columns. instances_in columns ≡ []) }
        ensures fits { IfOk result (λ columns. (s : Schema) → AreColumns s columns) }
    {
        Ok(Columns {
            rows: Vec::with_capacity(alloc, count)?,
            references: Vec::with_capacity(alloc, count.saturating_mul(2))?,
            wholes: Vec::new(alloc),
            written: 0,
        })
    }

    /// Puts a simple instance after the others. It is refused for lack of memory alone, as is one whose entity, or the end of whose
    /// references, has a place from 2^32 on; then what is kept is as it was.
    #[inline(always)]
    pub(crate) fn push_simple(
        &mut self,
        written: u64,
        entity: EntityId,
        references: &[Reference],
        gone: LetGo<RawInstance<'a>>,
    ) -> Result<(), AllocError>
        ensures ok { OnOk result (AppendsSimple self.old written entity references.now gone.entry.value self.new) }
        ensures small { written < 2 ^ 64 }
        ensures err { OnErr result (IsAsItWas self.old self.new) }
    {
        let entity = short(entity.place())?;
        let end = short(self.references.len().saturating_add(references.len()))?;
        self.rows.reserve(1)?;
        self.references.extend_from_slice(references)?;
        self.written = self.written.saturating_add(written);
        self.rows.push_reserved(Row {
            held: Held::Simple(entity),
            end,
            gone,
        });
        Ok(())
    }

    /// Puts a complex instance after the others. It is refused as a simple one is, and after 2^32 others.
    pub(crate) fn push_whole(
        &mut self,
        written: u64,
        whole: RawInstance<'a>,
    ) -> Result<(), AllocError>
        ensures ok { OnOk result (AppendsWhole self.old written whole.entry self.new) }
        ensures err { OnErr result (IsAsItWas self.old self.new) }
    {
        let place = short(self.wholes.len())?;
        let end = short(self.references.len())?;
        self.rows.reserve(1)?;
        let gone = LetGo::of(&whole);
        self.wholes.push(whole)?;
        self.written = self.written.saturating_add(written);
        self.rows.push_reserved(Row {
            held: Held::Whole(place),
            end,
            gone,
        });
        Ok(())
    }

    /// The same with what is kept of other instances after it. It is refused for lack of memory alone, as are instances with
    /// which 2^32 references or whole ones are kept.
    pub(crate) fn with(self, more: Columns<'a>) -> Result<Columns<'a>, AllocError>
        ensures { IfOk result (Joins self.entry more.entry) }
    {
        let Columns {
            mut rows,
            mut references,
            mut wholes,
            written,
        } = self;
        let Columns {
            rows: more_rows,
            references: mut more_references,
            wholes: mut more_wholes,
            written: more_written,
        } = more;
        let start = short(references.len())?;
        let first = short(wholes.len())?;
        references.append(&mut more_references)?;
        wholes.append(&mut more_wholes)?;
        push_rows(&mut rows, more_rows, start, first)?;
        Ok(Columns {
            rows,
            references,
            wholes,
            written: written.saturating_add(more_written),
        })
    }

    /// The references of the instance at a place, where it is simple.
    pub(crate) fn references_at(&self, place: usize) -> &[Reference]
        requires within { place < length self.now.rows.items }
        requires references { (s : Schema) × HaveReferences s self.now.references.items 0 self.now.rows.items }
        ensures { (s : Schema) → (d : Row) → HaveReferences s self.now.references.items 0 self.now.rows.items → RefersAt s result.now (get_or self.now.rows.items place d) }
    {
        let (start, end) = self.span(place);
        &self.references[start..end]
    }

    /// Where they begin and end.
    fn span(&self, place: usize) -> (usize, usize)
        requires within { place < length self.now.rows.items }
        requires references { (s : Schema) × HaveReferences s self.now.references.items 0 self.now.rows.items }
        ensures order { result.0 ≤ result.1 }
        ensures inside { result.1 ≤ length self.now.references.items }
        ensures refers { (s : Schema) → (d : Row) → HaveReferences s self.now.references.items 0 self.now.rows.items → RefersAt s (slice_range self.now.references.items result.0 result.1) (get_or self.now.rows.items place d) }
    {
        (self.start(place), self.rows[place].end as usize)
    }

    /// Where the references of the instance at a place begin.
    fn start(&self, place: usize) -> usize
        requires { place < length self.now.rows.items }
        ensures { result ≡ start_at 0 self.now.rows.items place }
    {
        match place.checked_sub(1) {
            Some(before) => self.rows[before].end as usize,
            None => 0,
        }
    }
}

/// Puts rows after others, where their references begin at one place, and what is whole of them at another.
fn push_rows<'a>(
    rows: &mut Vec<Row<'a>>,
    more: Vec<Row<'a>>,
    start: u32,
    first: u32,
) -> Result<(), AllocError>
    ensures { OnOk result (rows.new.items ≡ rows.old.items ++ map (row_behind start first) more.entry.items) }
{
    rows.reserve(more.len())?;
    let mut left = more.into_iter();
    while let Some(row) = left.next() {
        rows.push(row.behind(start, first)?)?;
    }
    left.destroy_empty();
    Ok(())
}

impl<'a> Row<'a> {
    /// The same row where its references begin after this place, and what is whole after another.
    #[inline(always)]
    fn behind(self, start: u32, first: u32) -> Result<Row<'a>, AllocError>
        ensures { IfOk result (λ row. row ≡ row_behind start first self.entry) }
    {
        let Row { held, end, gone } = self;
        let held = match held {
            Held::Simple(entity) => Held::Simple(entity),
            Held::Whole(place) => Held::Whole(place.checked_add(first).ok_or(AllocError)?),
        };
        let end = end.checked_add(start).ok_or(AllocError)?;
        Ok(Row { held, end, gone })
    }
}

/// A place in four bytes. One from 2^32 on is refused, as for lack of memory.
fn short(place: usize) -> Result<u32, AllocError>
    ensures { IfOk result (λ short. short ≡ place) }
{
    u32::try_from(place).map_err(|_| AllocError)
}

/// The entity at a place of the schema, which has one there.
pub(crate) fn entity_at(schema: &Schema, place: u32) -> EntityId
    requires { IsEntityOf schema.now (entity_id place) }
    ensures { result ≡ entity_id place }
{
    match schema.entity_at(place as usize) {
        Some(entity) => entity,
        None => unreachable!(),
    }
}
