//! What each vertex of a graph reaches.

ghost use Rattle.std.specs.Prelude.{◌≡◌, ◌<◌, ◌↔◌, ◌⊎◌, ℕ, length, IfOk};
ghost use Rattle.p21_graph.specs.Bits.{Holds, IsLike};
ghost use Rattle.p21_graph.specs.Graph.{AreEdgesBelow, IsOrder, plain_graph};
ghost use Rattle.p21_graph.specs.Members.{IsIn};
ghost use Rattle.p21_graph.specs.Reach.{IsReach, IsReachTable, SomeHolds};

use crate::bits::Bits;
use crate::graph::Graph;
use std::alloc::{AllocError, Global};

/// Has a row hold each of these columns as well.
fn insert_all(table: &mut Bits, row: usize, columns: &[usize])
    requires row { row < table.old.rows }
    requires columns { (c : ℕ) → IsIn columns.now c → c < table.old.columns }
    ensures size { IsLike table.old table.new }
    ensures holds { (r c : ℕ) → Holds table.new r c ↔ (Holds table.old r c ⊎ ((r ≡ row) × IsIn columns.now c)) }
{
    for column in columns {
        table.insert(row, *column);
    }
}

/// Has a row hold what each of these rows holds as well.
fn add_rows(table: &mut Bits, row: usize, from: &[usize])
    requires row { row < table.old.rows }
    requires from { (r : ℕ) → IsIn from.now r → r < table.old.rows }
    ensures size { IsLike table.old table.new }
    ensures holds { (r c : ℕ) → Holds table.new r c ↔ (Holds table.old r c ⊎ ((r ≡ row) × SomeHolds table.old from.now c)) }
{
    for other in from {
        table.add_row(row, *other);
    }
}

/// For each vertex what it reaches of so many items: those that are direct for it, and what its neighbors reach.
pub fn reached(
    alloc: Global,
    direct: &Graph,
    columns: usize,
    graph: &Graph,
    order: &[usize],
) -> Result<Bits, AllocError>
    requires direct { AreEdgesBelow (plain_graph direct.now) columns }
    requires vertices { length (plain_graph direct.now) ≡ length (plain_graph graph.now) }
    requires order { IsOrder (plain_graph graph.now) order.now }
    requires all { (v : ℕ) → v < length (plain_graph graph.now) → IsIn order.now v }
    ensures { IfOk result (λ table. IsReachTable (plain_graph direct.now) columns (plain_graph graph.now) table) }
{
    let mut table = Bits::new(alloc, graph.len(), columns)?;
    for vertex in order {
        insert_all(&mut table, *vertex, &direct[*vertex]);
        add_rows(&mut table, *vertex, &graph[*vertex]);
    }
    Ok(table)
}

/// For each vertex itself and all that it reaches.
pub fn reached_with_itself(
    alloc: Global,
    graph: &Graph,
    order: &[usize],
) -> Result<Bits, AllocError>
    requires order { IsOrder (plain_graph graph.now) order.now }
    requires all { (v : ℕ) → v < length (plain_graph graph.now) → IsIn order.now v }
    ensures { IfOk result (λ table. IsReach (plain_graph graph.now) table) }
{
    let mut table = Bits::new(alloc, graph.len(), graph.len())?;
    for vertex in order {
        table.insert(*vertex, *vertex);
        add_rows(&mut table, *vertex, &graph[*vertex]);
    }
    Ok(table)
}
