//! The supertypes of each entity, by their places.

ghost use Rattle.std.specs.Prelude.{◌≡◌, ℕ, List, map, IfOk};
ghost use Rattle.p21_express.specs.Schema.{Entity};
ghost use Rattle.p21_express.specs.Plain.{plain_entity};
ghost use Rattle.p21_express.specs.WellFormed.{IsIn};
ghost use Rattle.p21_graph.specs.Graph.{rows_of, plain_graph};
ghost use Rattle.p21_schema.specs.Ancestry.{AreNamed, AreSupertypesNamed, entity_id};

use crate::ids::EntityId;
use crate::names::Names;
use p21_express::EntityDecl;
use p21_graph::Graph;
use std::alloc::{AllocError, Global};

/// The places of an entity's supertypes.
fn supertypes_of(
    alloc: Global,
    names: &Names,
    entity: &EntityDecl,
) -> Result<Vec<usize>, AllocError>
    requires { (n : List ℕ) → IsIn (plain_entity entity.now).supertypes n → IsIn names.now n }
    ensures { IfOk result (λ places. AreNamed names.now places.items (plain_entity entity.now).supertypes) }
{
    let mut places = Vec::with_capacity(alloc, entity.supertypes.len())?;
    for name in &entity.supertypes {
        places.push(names.known(name))?;
    }
    Ok(places)
}

/// The places of each entity's supertypes.
pub(crate) fn supertypes(
    alloc: Global,
    names: &Names,
    entities: &[EntityDecl],
) -> Result<Graph, AllocError>
    requires { (e : Entity) (n : List ℕ) → IsIn (map plain_entity entities.now) e → IsIn e.supertypes n → IsIn names.now n }
    ensures { IfOk result (λ graph. AreSupertypesNamed names.now (plain_graph graph) (map plain_entity entities.now)) }
{
    let mut graph = Vec::with_capacity(alloc, entities.len())?;
    for entity in entities {
        graph.push(supertypes_of(alloc, names, entity)?)?;
    }
    Ok(graph)
}

/// The entities at these places.
fn ids(alloc: Global, places: &[usize]) -> Result<Vec<EntityId>, AllocError>
    ensures { IfOk result (λ ids. ids.items ≡ map entity_id places.now) }
{
    places
        .iter()
        .map(|place| EntityId { index: *place })
        .collect(alloc)
}

/// The supertypes of each entity.
pub(crate) fn supertype_ids(alloc: Global, graph: &Graph) -> Result<Vec<Vec<EntityId>>, AllocError>
    ensures { IfOk result (λ table. rows_of table ≡ map (map entity_id) (plain_graph graph.now)) }
{
    let mut table = Vec::with_capacity(alloc, graph.len())?;
    for places in graph {
        table.push(ids(alloc, places)?)?;
    }
    Ok(table)
}
