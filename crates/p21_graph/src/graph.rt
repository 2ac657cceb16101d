//! Graphs by lists of neighbors, and an order in which the neighbors of each vertex stand before it.

ghost use Rattle.std.specs.Prelude.{◌≡◌, ◌<◌, ◌≤◌, ◌⊎◌, false, ℕ, [], length, get_or, OnOk, IfOk};
ghost use Rattle.p21_graph.specs.Members.{IsIn, AreDistinct};
ghost use Rattle.p21_graph.specs.Graph.{HasNoCycle, plain_graph, HasEdge, AreEdgesBelow, IsOrder, IsMarked, IsWalk, steps_left};

use std::alloc::{AllocError, Global};

/// For each vertex those to which an edge leads.
pub type Graph = Vec<Vec<usize>>;

/// The first place, from one on, of a vertex that is not placed, or the number of vertices.
fn first_waiting(vertices: &[usize], placed: &[bool], from: usize) -> usize
    requires vertices { (v : ℕ) → IsIn vertices.now v → v < length placed.now }
    requires from { from ≤ length vertices.now }
    ensures within { result ≤ length vertices.now }
    ensures before { (k : ℕ) → from ≤ k → k < result → IsMarked placed.now (get_or vertices.now k 0) }
    ensures waits { result < length vertices.now → get_or placed.now (get_or vertices.now result 0) false ≡ false }
{
    for place in from..vertices.len() {
        if !placed[vertices[place]] {
            return place;
        }
    }
    vertices.len()
}

/// Goes on from the vertex at which the way ends: to a neighbor that is not placed, or, where there is none, places the vertex.
/// `looked` is how many neighbors of each vertex are known to be placed.
fn step(
    graph: &Graph,
    placed: &mut [bool],
    looked: &mut [usize],
    way: &mut Vec<usize>,
    order: &mut Vec<usize>,
) -> Result<(), AllocError>
    requires edges { AreEdgesBelow (plain_graph graph.now) (length (plain_graph graph.now)) }
    requires cycles { HasNoCycle (HasEdge (plain_graph graph.now)) }
    requires walk { IsWalk (plain_graph graph.now) placed.old looked.old way.old.items order.old.items }
    requires way { 0 < length way.old.items }
    ensures walk { OnOk result (IsWalk (plain_graph graph.now) placed.new looked.new way.new.items order.new.items) }
    ensures fewer { OnOk result (steps_left (plain_graph graph.now) placed.new way.new.items < steps_left (plain_graph graph.now) placed.old way.old.items) }
    ensures grows { OnOk result ((v : ℕ) → IsMarked placed.old v → IsMarked placed.new v) }
    ensures keeps { OnOk result ((v : ℕ) → IsIn way.old.items v → IsMarked placed.new v ⊎ IsIn way.new.items v) }
{
    let vertex = way[way.len() - 1];
    let neighbors = &graph[vertex];
    let next = first_waiting(neighbors, placed, looked[vertex]);
    looked[vertex] = next;
    if next < neighbors.len() {
        way.push(neighbors[next])?;
    } else {
        way.pop();
        placed[vertex] = true;
        order.push(vertex)?;
    }
    Ok(())
}

/// Places a vertex, and before it what it reaches, by a way that is empty then.
fn place(
    graph: &Graph,
    start: usize,
    placed: &mut [bool],
    looked: &mut [usize],
    way: &mut Vec<usize>,
    order: &mut Vec<usize>,
) -> Result<(), AllocError>
    requires edges { AreEdgesBelow (plain_graph graph.now) (length (plain_graph graph.now)) }
    requires cycles { HasNoCycle (HasEdge (plain_graph graph.now)) }
    requires start { start < length (plain_graph graph.now) }
    requires way { way.old.items ≡ [] }
    requires walk { IsWalk (plain_graph graph.now) placed.old looked.old [] order.old.items }
    ensures way { OnOk result (way.new.items ≡ []) }
    ensures walk { OnOk result (IsWalk (plain_graph graph.now) placed.new looked.new [] order.new.items) }
    ensures placed { OnOk result (IsMarked placed.new start) }
    ensures grows { OnOk result ((v : ℕ) → IsMarked placed.old v → IsMarked placed.new v) }
{
    if !placed[start] {
        way.push(start)?;
    }
    while !way.is_empty() {
        step(graph, placed, looked, way, order)?;
    }
    Ok(())
}

/// All vertices, each after its neighbors.
pub fn order(alloc: Global, graph: &Graph) -> Result<Vec<usize>, AllocError>
    requires edges { AreEdgesBelow (plain_graph graph.now) (length (plain_graph graph.now)) }
    requires cycles { HasNoCycle (HasEdge (plain_graph graph.now)) }
    ensures order { IfOk result (λ order. IsOrder (plain_graph graph.now) order.items) }
    ensures distinct { IfOk result (λ order. AreDistinct order.items) }
    ensures all { IfOk result (λ order. (v : ℕ) → v < length (plain_graph graph.now) → IsIn order.items v) }
{
    let mut placed = vec![in alloc; false; graph.len()]?;
    let mut looked = vec![in alloc; 0; graph.len()]?;
    let mut way = Vec::new(alloc);
    let mut order = Vec::with_capacity(alloc, graph.len())?;
    for vertex in 0..graph.len() {
        place(
            graph,
            vertex,
            &mut placed,
            &mut looked,
            &mut way,
            &mut order,
        )?;
    }
    Ok(order)
}
