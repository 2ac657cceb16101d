//! The attributes of each entity: its own, and all with inherited ones in the order of a record.

ghost use Rattle.std.specs.Prelude.{◌≡◌, ◌<◌, ◌≤◌, ◌++◌, ℕ, List, [], Some, reverse, slice_get, replicate, length, get_or, map, take, IfOk, OnOk};
ghost use Rattle.p21_express.specs.Schema.{Schema};
ghost use Rattle.p21_express.specs.Plain.{plain_entity, plain_schema};
ghost use Rattle.p21_express.specs.WellFormed.{IsIn, AreDistinct, IsWellFormed, new_explicit};
ghost use Rattle.p21_graph.specs.Graph.{rows_of, plain_graph, IsOrder};
ghost use Rattle.p21_schema.specs.Ancestry.{AreSupertypesNamed};
ghost use Rattle.p21_schema.specs.Row.{attributes_of};
ghost use Rattle.p21_schema.specs.RowTable.{no_own, IsOwnTable, IsRowTable, joined, row_of, rest_of, IsBeginning, IsRowOver, AreRowsOver, AreWithin, BeginsWithFirst};
ghost use Rattle.p21_schema.specs.declared.ids.AttrId.{AttrId};

use crate::declarations::Declaration;
use crate::draft::Draft;
use crate::ids::AttrId;
use p21_express::{Declarations, EntityDecl};
use p21_graph::Graph;
use std::alloc::{AllocError, Global};

/// The attributes that an entity newly declares, from one place up to another among those of all entities.
#[derive(Clone, Copy)]
pub(crate) struct Own {
    pub(crate) from: usize,
    pub(crate) to: usize,
}

/// One empty list more for each explicit attribute that an entity newly declares.
fn push_lists(
    alloc: Global,
    lists: &mut Vec<Vec<Declaration>>,
    entity: &EntityDecl,
) -> Result<(), AllocError>
    ensures { OnOk result (rows_of lists.new ≡ rows_of lists.old ++ replicate (length (new_explicit (plain_entity entity.now).attributes)) []) }
{
    for attribute in &entity.attributes {
        if attribute.of.is_none() {
            lists.push(Vec::new(alloc))?;
        }
    }
    Ok(())
}

/// Where the own attributes of each entity stand among those of all entities, and an empty list for each attribute.
pub(crate) fn own_attributes(
    alloc: Global,
    declarations: &Declarations,
) -> Result<(Vec<Own>, Vec<Vec<Declaration>>), AllocError>
    ensures own { IfOk result (λ r. IsOwnTable (plain_schema declarations.now) r.0.items) }
    ensures lists { IfOk result (λ r. rows_of r.1 ≡ replicate (length (attributes_of (plain_schema declarations.now).entities)) []) }
{
    let mut lists = Vec::new(alloc);
    let mut table = Vec::with_capacity(alloc, declarations.entities.len())?;
    for entity in &declarations.entities {
        let from = lists.len();
        push_lists(alloc, &mut lists, entity)?;
        let to = lists.len();
        table.push(Own { from, to })?;
    }
    Ok((table, lists))
}

/// The longest row that is kept whole, so that an attribute of it is found in one step.
const SHORT: usize = 32;

/// The row of an entity: it begins with so many attributes, which are the whole row of another entity, and goes on with the rest.
#[derive(Drop)]
pub(crate) struct Row {
    /// The place of the other entity.
    above: usize,
    from: usize,
    pub(crate) rest: Vec<AttrId>,
}

/// For each of so many entities a row with nothing in it.
fn no_rows(alloc: Global, count: usize) -> Result<Vec<Row>, AllocError>
    ensures count { IfOk result (λ rows. length rows.items ≡ count) }
    ensures over { IfOk result (λ rows. AreRowsOver (replicate count []) rows.items) }
    ensures within { IfOk result (λ rows. AreWithin 0 rows.items) }
{
    let mut rows = Vec::with_capacity(alloc, count)?;
    for _ in 0..count {
        let rest = Vec::new(alloc);
        rows.push(Row {
            above: 0,
            from: 0,
            rest,
        })?;
    }
    Ok(rows)
}

/// The entities in whose rows the parts of an entity's row stand, the last part first.
pub(crate) fn parts(alloc: Global, rows: &[Row], entity: usize) -> Result<Vec<usize>, AllocError>
    requires { (all : List (List AttrId)) × (AreRowsOver all rows.now × (entity < length rows.now)) }
    ensures below { IfOk result (λ parts. (e : ℕ) → IsIn parts.items e → e < length rows.now) }
    ensures whole { IfOk result (λ parts. (all : List (List AttrId)) → AreRowsOver all rows.now → row_of all entity ≡ joined (rest_of rows.now) (reverse parts.items)) }
{
    let mut parts = Vec::new(alloc);
    let mut entity = entity;
    while rows[entity].from > 0 {
        parts.push(entity)?;
        entity = rows[entity].above;
    }
    parts.push(entity)?;
    Ok(parts)
}

/// The entity with whose whole row one begins that begins with the row of this one, and how many attributes that has: this entity, or
/// the one above where its row has no rest.
fn whole(rows: &[Row], entity: usize) -> (usize, usize)
    requires { (all : List (List AttrId)) × (AreRowsOver all rows.now × (entity < length rows.now)) }
    ensures { (all : List (List AttrId)) → AreRowsOver all rows.now → IsBeginning all rows.now (row_of all entity) result.0 result.1 × (result.1 ≡ length (row_of all entity)) }
{
    let row = &rows[entity];
    if row.rest.is_empty() {
        (row.above, row.from)
    } else {
        (entity, row.from + row.rest.len())
    }
}

/// The entity with whose whole row the row of these attributes begins, and how many those are: none where it is short.
fn beginning(rows: &[Row], supertypes: &[usize], ids: &[AttrId]) -> (usize, usize)
    requires { (all : List (List AttrId)) × (AreRowsOver all rows.now × ((e : ℕ) → IsIn supertypes.now e → e < length rows.now)) }
    ensures { (all : List (List AttrId)) → AreRowsOver all rows.now → BeginsWithFirst all supertypes.now ids.now → IsBeginning all rows.now ids.now result.0 result.1 }
{
    match supertypes.first() {
        Some(first) if ids.len() > SHORT => whole(rows, *first),
        _ => (0, 0),
    }
}

/// The row of these attributes, of an entity with these supertypes.
fn begun(
    alloc: Global,
    rows: &[Row],
    supertypes: &[usize],
    ids: &[AttrId],
) -> Result<Row, AllocError>
    requires { (all : List (List AttrId)) × (AreRowsOver all rows.now × (((e : ℕ) → IsIn supertypes.now e → e < length rows.now) × BeginsWithFirst all supertypes.now ids.now)) }
    ensures over { IfOk result (λ row. (all : List (List AttrId)) → AreRowsOver all rows.now → BeginsWithFirst all supertypes.now ids.now → IsRowOver all rows.now ids.now row) }
    ensures among { IfOk result (λ row. (a : AttrId) → IsIn row.rest.items a → IsIn ids.now a) }
{
    let (above, from) = beginning(rows, supertypes, ids);
    let rest = Vec::from_slice(alloc, &ids[from..])?;
    Ok(Row { above, from, rest })
}

/// The row of each entity.
#[derive(Drop)]
pub(crate) struct Rows {
    rows: Vec<Row>,
}

impl Rows {
    /// The rows of entities with these supertypes and own attributes, of which there are so many, in an order in which supertypes come first.
    pub(crate) fn new(
        alloc: Global,
        supertypes: &Graph,
        count: usize,
        own: &[Own],
        order: &[usize],
    ) -> Result<Rows, AllocError>
        requires order { IsOrder (plain_graph supertypes.now) order.now }
        requires distinct { AreDistinct order.now }
        requires all { (v : ℕ) → v < length (plain_graph supertypes.now) → IsIn order.now v }
        requires own { length own.now ≡ length (plain_graph supertypes.now) }
        requires upward { (v : ℕ) → v < length own.now → (get_or own.now v no_own).from ≤ (get_or own.now v no_own).to }
        requires within { (v : ℕ) → v < length own.now → (get_or own.now v no_own).to ≤ count }
        ensures { IfOk result (λ rows. (s : Schema) → IsWellFormed s → AreSupertypesNamed (map (λ e. e.name) s.entities) (plain_graph supertypes.now) s.entities → IsOwnTable s own.now → IsRowTable s rows) }
    {
        let mut rows = no_rows(alloc, supertypes.len())?;
        let mut draft = Draft::new(alloc, count)?;
        for (place, entity) in order.iter().enumerate() {
            let above = &supertypes[*entity];
            draft.fill(alloc, &rows, above, own[*entity], *entity, place + 1)?;
            rows[*entity] = begun(alloc, &rows, above, &draft.ids)?;
        }
        Ok(Rows { rows })
    }

    /// The number of attributes in the row of an entity.
    pub(crate) fn count(&self, entity: usize) -> usize
        requires { (s : Schema) × (IsRowTable s self.now × (entity < length s.entities)) }
        ensures { (s : Schema) → (t : IsRowTable s self.now) → entity < length s.entities → result ≡ length (row_of t.all entity) }
    {
        let row = &self.rows[entity];
        row.from + row.rest.len()
    }

    /// An attribute of the row of an entity.
    pub(crate) fn attribute(&self, entity: usize, position: usize) -> AttrId
        requires { (s : Schema) × ((t : IsRowTable s self.now) × ((entity < length s.entities) × (position < length (row_of t.all entity)))) }
        ensures { (s : Schema) → (t : IsRowTable s self.now) → entity < length s.entities → position < length (row_of t.all entity) → slice_get (row_of t.all entity) position ≡ Some result }
    {
        let mut entity = entity;
        while position < self.rows[entity].from {
            entity = self.rows[entity].above;
        }
        let row = &self.rows[entity];
        row.rest[position - row.from]
    }
}
