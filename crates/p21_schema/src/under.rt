//! What each defined type is in the end: a SELECT, an ENUMERATION, or a type of values.

ghost use Rattle.std.specs.Prelude.{◌≡◌, ◌<◌, ◌⊎◌, ◌↔◌, List, ℕ, [], Some, length, get_or, map, IfOk, IsTrue, MatchOption};
ghost use Rattle.std.specs.List.{AllByRecursion};
ghost use Rattle.p21_express.specs.Schema.{Schema, Underlying, plain, named};
ghost use Rattle.p21_express.specs.Plain.{plain_under, plain_type};
ghost use Rattle.p21_express.specs.WellFormed.{IsIn, HasNoCycle, IsOther};
ghost use Rattle.p21_graph.specs.Graph.{plain_graph, IsOrder};
ghost use Rattle.p21_schema.specs.Resolved.{target_name, resolved_expr};
ghost use Rattle.p21_schema.specs.Under.{IsResolved, IsNoName, IsOtherRow, AreOthers, AreEnds, AreKnown, AreResolved};

use crate::names::Names;
use crate::resolved::{Resolved, Target, resolve, target_of};
use p21_express::{TypeDecl, TypeExpr, Under};
use p21_graph::{Graph, order};
use std::alloc::{AllocError, Global};

/// The place of the type whose name alone stands there.
fn other(types: &Names, under: &Under) -> Option<usize>
    requires { (n : List ℕ) → plain_under under.now ≡ plain (named n) → IsIn types.now n }
    ensures { MatchOption result (IsNoName (plain_under under.now)) (λ i. (i < length types.now) × (plain_under under.now ≡ plain (named (get_or types.now i [])))) }
{
    let Under::Plain(texpr) = under else {
        return None;
    };
    match texpr {
        TypeExpr::Named(name) => Some(types.known(name)),
        TypeExpr::Integer
        | TypeExpr::Number
        | TypeExpr::Boolean
        | TypeExpr::Logical
        | TypeExpr::Real
        | TypeExpr::Text(_)
        | TypeExpr::Binary(_)
        | TypeExpr::Array { .. }
        | TypeExpr::List { .. }
        | TypeExpr::Set { .. }
        | TypeExpr::Bag { .. } => None,
    }
}

/// A row of one vertex or none.
fn other_row(alloc: Global, types: &Names, under: &Under) -> Result<Vec<usize>, AllocError>
    requires { (n : List ℕ) → plain_under under.now ≡ plain (named n) → IsIn types.now n }
    ensures { IfOk result (λ row. IsOtherRow types.now row.items (plain_under under.now)) }
{
    let mut row = Vec::new(alloc);
    if let Some(place) = other(types, under) {
        row.push(place)?;
    }
    Ok(row)
}

/// For each type that which its name alone stands for.
fn others(alloc: Global, types: &Names, decls: &[TypeDecl]) -> Result<Graph, AllocError>
    requires { (u : Underlying) (n : List ℕ) → IsIn (map (λ t. t.under) (map plain_type decls.now)) u → u ≡ plain (named n) → IsIn types.now n }
    ensures { IfOk result (λ graph. AreOthers types.now (plain_graph graph) (map plain_type decls.now)) }
{
    let mut graph = Vec::with_capacity(alloc, decls.len())?;
    for decl in decls {
        graph.push(other_row(alloc, types, &decl.under)?)?;
    }
    Ok(graph)
}

/// The type at which the way from each type ends.
fn ends(alloc: Global, graph: &Graph, order: &[usize]) -> Result<Vec<usize>, AllocError>
    requires order { IsOrder (plain_graph graph.now) order.now }
    requires all { (v : ℕ) → v < length (plain_graph graph.now) → IsIn order.now v }
    ensures { IfOk result (λ ends. (s : Schema) → AreOthers (map (λ t. t.name) s.types) (plain_graph graph.now) s.types → AreEnds s ends.items) }
{
    let mut ends = Vec::with_capacity(alloc, graph.len())?;
    for _ in 0..graph.len() {
        ends.push(0)?;
    }
    for vertex in order {
        let end = match graph[*vertex].first() {
            Some(other) => ends[*other],
            None => *vertex,
        };
        ends[*vertex] = end;
    }
    Ok(ends)
}

/// The type at which the way from each of these types ends.
pub(crate) fn type_ends(
    alloc: Global,
    types: &Names,
    decls: &[TypeDecl],
) -> Result<Vec<usize>, AllocError>
    requires known { (u : Underlying) (n : List ℕ) → IsIn (map (λ t. t.under) (map plain_type decls.now)) u → u ≡ plain (named n) → IsIn types.now n }
    requires names { types.now ≡ map (λ t. t.name) (map plain_type decls.now) }
    requires cycles { (s : Schema) × ((s.types ≡ map plain_type decls.now) × HasNoCycle (IsOther s)) }
    ensures { IfOk result (λ ends. (s : Schema) → s.types ≡ map plain_type decls.now → AreEnds s ends.items) }
{
    let graph = others(alloc, types, decls)?;
    let order = order(alloc, &graph)?;
    ends(alloc, &graph, &order)
}

/// The items of a select.
fn targets(
    alloc: Global,
    entities: &Names,
    types: &Names,
    names: &[Vec<u8>],
) -> Result<Vec<Target>, AllocError>
    requires { AllByRecursion (λ n. IsIn entities.now n ⊎ IsIn types.now n) (map (λ n. n.items) names.now) }
    ensures { IfOk result (λ found. map (target_name entities.now types.now) found.items ≡ map Some (map (λ n. n.items) names.now)) }
{
    let mut targets = Vec::with_capacity(alloc, names.len())?;
    for name in names {
        targets.push(target_of(entities, types, name))?;
    }
    Ok(targets)
}

/// The same names once more.
pub(crate) fn copied(alloc: Global, names: &[Vec<u8>]) -> Result<Vec<Vec<u8>>, AllocError>
    ensures { IfOk result (λ found. map (λ n. n.items) found.items ≡ map (λ n. n.items) names.now) }
{
    let mut copies = Vec::with_capacity(alloc, names.len())?;
    for name in names {
        copies.push(Vec::from_slice(alloc, name)?)?;
    }
    Ok(copies)
}

/// Whether a name is one of these.
pub(crate) fn is_among(names: &[Vec<u8>], name: &[u8]) -> bool
    ensures { IsTrue result ↔ IsIn (map (λ n. n.items) names.now) name.now }
{
    for other in names {
        if other.as_slice() == name {
            return true;
        }
    }
    false
}

fn resolve_under(
    alloc: Global,
    entities: &Names,
    types: &Names,
    under: &Under,
) -> Result<Resolved, AllocError>
    requires { AreKnown entities.now types.now (plain_under under.now) }
    ensures { IfOk result (λ found. IsResolved entities.now types.now found (plain_under under.now)) }
{
    Ok(match under {
        Under::Items(names) => Resolved::Items(copied(alloc, names)?),
        Under::Select(names) => Resolved::Select(targets(alloc, entities, types, names)?),
        Under::Plain(texpr) => Resolved::Plain(resolve(alloc, entities, types, texpr)?),
    })
}

/// What stands under each type.
pub(crate) fn resolved(
    alloc: Global,
    entities: &Names,
    types: &Names,
    decls: &[TypeDecl],
) -> Result<Vec<Resolved>, AllocError>
    requires { (u : Underlying) → IsIn (map (λ t. t.under) (map plain_type decls.now)) u → AreKnown entities.now types.now u }
    ensures { IfOk result (λ found. AreResolved entities.now types.now found.items (map plain_type decls.now)) }
{
    let mut found = Vec::with_capacity(alloc, decls.len())?;
    for decl in decls {
        found.push(resolve_under(alloc, entities, types, &decl.under)?)?;
    }
    Ok(found)
}
