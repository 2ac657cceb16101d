//! Which SELECTs have an entity or a type, and which type's name stands under another alone.

use p21_express::{TypeDecl, TypeExpr, Under};
use p21_schema::Schema;
use std::alloc::{AllocError, Global};

/// What stands above and below the types of a schema, by their places.
#[derive(Drop)]
pub(crate) struct TypeGraph {
    /// Of each type the one whose name stands under it alone.
    pub(crate) under: Vec<Option<u32>>,
    /// Of each entity the SELECTs that have it in their lists.
    pub(crate) of_entities: Vec<Vec<u32>>,
    /// Of each type the SELECTs that have it in their lists.
    pub(crate) of_types: Vec<Vec<u32>>,
}

pub(crate) fn type_graph(alloc: Global, schema: &Schema) -> Result<TypeGraph, AllocError> {
    let declared = schema.declared();
    let mut graph = TypeGraph {
        under: Vec::new(alloc),
        of_entities: empty_lists(alloc, declared.entities.len())?,
        of_types: empty_lists(alloc, declared.types.len())?,
    };
    for place in 0..declared.types.len() {
        let declared = &declared.types[place];
        graph.under.push(under_alone(schema, declared))?;
        if let Under::Select(names) = &declared.under {
            add_select(schema, &mut graph, place, names)?;
        }
    }
    Ok(graph)
}

fn empty_lists(alloc: Global, count: usize) -> Result<Vec<Vec<u32>>, AllocError> {
    let mut lists = Vec::new(alloc);
    for _list in 0..count {
        lists.push(Vec::new(alloc))?;
    }
    Ok(lists)
}

/// The type whose name stands alone under one.
fn under_alone(schema: &Schema, declared: &TypeDecl) -> Option<u32> {
    match &declared.under {
        Under::Plain(TypeExpr::Named(name)) => match schema.type_named(name) {
            Some(id) => u32::try_from(id.place()).ok(),
            None => None,
        },
        _ => None,
    }
}

/// Adds a SELECT to what it has in its list.
fn add_select(
    schema: &Schema,
    graph: &mut TypeGraph,
    place: usize,
    names: &[Vec<u8>],
) -> Result<(), AllocError> {
    let Ok(select) = u32::try_from(place) else {
        return Ok(());
    };
    for name in names {
        if let Some(entity) = schema.entity(name) {
            if let Some(list) = graph.of_entities.get_mut(entity.place()) {
                list.push(select)?;
            }
        } else if let Some(id) = schema.type_named(name) {
            if let Some(list) = graph.of_types.get_mut(id.place()) {
                list.push(select)?;
            }
        }
    }
    Ok(())
}
