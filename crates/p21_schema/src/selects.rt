//! Which entities and types each SELECT contains, at any depth.

ghost use Rattle.std.specs.Prelude.{◌≡◌, ◌<◌, ℕ, List, [], length, map, IfOk};
ghost use Rattle.p21_express.specs.Schema.{Schema};
ghost use Rattle.p21_express.specs.WellFormed.{IsWellFormed};
ghost use Rattle.p21_graph.specs.Graph.{plain_graph};
ghost use Rattle.p21_schema.specs.Under.{AreResolved};
ghost use Rattle.p21_schema.specs.SelectItems.{kind_of, place_of, targets_of, IsItemRow, IsItemGraph};
ghost use Rattle.p21_schema.specs.SelectTable.{AreSelectTables};

use crate::resolved::{Resolved, Target};
use p21_graph::{Bits, Graph, order, reached};
use std::alloc::{AllocError, Global};

/// What each type reaches, where it is a SELECT.
#[derive(Drop)]
pub(crate) struct Selects {
    /// For each type which entities it reaches.
    pub(crate) entities: Bits,
    /// For each type which types that are no SELECT it reaches.
    pub(crate) types: Bits,
}

/// What an item of a SELECT is.
#[derive(Clone, Copy, PartialEq, Eq)]
pub(crate) enum Item {
    Entity,
    Select,
    /// A defined or enumeration type.
    Other,
}

fn kind(unders: &[Resolved], target: Target) -> Item
    ensures { result ≡ kind_of unders.now target }
{
    match target {
        Target::Entity(_) => Item::Entity,
        Target::Defined(id) => match unders.get(id.index) {
            Some(Resolved::Select(_)) => Item::Select,
            _ => Item::Other,
        },
    }
}

/// The place of an entity among the entities, or of a type among the types.
fn place(target: Target) -> usize
    ensures { result ≡ place_of target }
{
    match target {
        Target::Entity(id) => id.index,
        Target::Defined(id) => id.index,
    }
}

/// The places of those of some items that are of one kind.
fn places(
    alloc: Global,
    unders: &[Resolved],
    targets: &[Target],
    wanted: Item,
) -> Result<Vec<usize>, AllocError>
    ensures { IfOk result (λ row. IsItemRow unders.now wanted targets.now row.items) }
{
    let mut row = Vec::new(alloc);
    for target in targets {
        if kind(unders, *target) == wanted {
            row.push(place(*target))?;
        }
    }
    Ok(row)
}

/// The places of the items of one kind, where a SELECT stands under the type.
fn items_under(
    alloc: Global,
    unders: &[Resolved],
    under: &Resolved,
    wanted: Item,
) -> Result<Vec<usize>, AllocError>
    ensures { IfOk result (λ row. IsItemRow unders.now wanted (targets_of under.now) row.items) }
{
    match under {
        Resolved::Select(targets) => places(alloc, unders, targets, wanted),
        Resolved::Items(_) | Resolved::Plain(_) => Ok(Vec::new(alloc)),
    }
}

/// For each type the places of its items of one kind.
fn item_graph(alloc: Global, unders: &[Resolved], wanted: Item) -> Result<Graph, AllocError>
    ensures { IfOk result (λ graph. IsItemGraph unders.now wanted (plain_graph graph)) }
{
    let mut graph = Vec::with_capacity(alloc, unders.len())?;
    for under in unders {
        graph.push(items_under(alloc, unders, under, wanted)?)?;
    }
    Ok(graph)
}

/// What each type reaches, by what stands under the types and the number of entities.
pub(crate) fn select_tables(
    alloc: Global,
    unders: &[Resolved],
    entities: usize,
) -> Result<Selects, AllocError>
    requires { (s : Schema) × (IsWellFormed s × (AreResolved (map (λ e. e.name) s.entities) (map (λ t. t.name) s.types) unders.now s.types × (entities ≡ length s.entities))) }
    ensures { IfOk result (λ tables. (s : Schema) → IsWellFormed s → AreResolved (map (λ e. e.name) s.entities) (map (λ t. t.name) s.types) unders.now s.types → entities ≡ length s.entities → AreSelectTables s tables) }
{
    let inner = item_graph(alloc, unders, Item::Select)?;
    let order = order(alloc, &inner)?;
    let direct = item_graph(alloc, unders, Item::Entity)?;
    let entities = reached(alloc, &direct, entities, &inner, &order)?;
    let direct = item_graph(alloc, unders, Item::Other)?;
    let types = reached(alloc, &direct, unders.len(), &inner, &order)?;
    Ok(Selects { entities, types })
}
