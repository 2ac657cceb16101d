//! Declarations that lead back to themselves.

ghost use Rattle.std.specs.Prelude.{◌≡◌, List, [], ◌∷◌, ◌++◌, IfOk, OnOk, MatchResult};
ghost use Rattle.std.specs.Option.{option_to_list};
ghost use Rattle.p21_express.specs.Checks.{lone_name};
ghost use Rattle.p21_express.specs.Graph.{lists};
ghost use Rattle.p21_express.specs.Index.{IsEntityAt, IsSelectAt, IsTypeAt, IsExactIndex};
ghost use Rattle.p21_express.specs.Misfit.{OnUnfit, Only};
ghost use Rattle.p21_express.specs.Naming.{texts};
ghost use Rattle.p21_express.specs.Plain.{plain_schema, plain_expr, plain_under};
ghost use Rattle.p21_express.specs.Positions.{IsPosition, ArePositions, AreSupertypes, AreTypes, AreTypesUnder};
ghost use Rattle.p21_express.specs.Schema.{Schema};
ghost use Rattle.p21_express.specs.WellFormed.{HasNoUnknown, HasNoCycles};
ghost use Rattle.p21_express.specs.declared.misfit.Misfit.TheVariants.{Cycle};

use super::Checked;
use super::graph::{Graph, is_cyclic, on_cycles};
use super::names::{Declared, Index, declared_by};
use super::unknown::lone_name;
use crate::declarations::{TypeExpr, Under};
use crate::misfit::{Misfit, Unfit};
use std::alloc::{AllocError, Global};

/// The position of the entity that has this name.
pub(super) fn entity_at(index: &Index, name: &[u8]) -> Option<usize>
    ensures { (s : Schema) → IsExactIndex s index.now → IsPosition (IsEntityAt s) name.now result }
{
    match declared_by(index, name) {
        Some(Declared::Entity(position)) => Some(position),
        Some(Declared::Select(_)) => None,
        Some(Declared::Type(_)) => None,
        None => None,
    }
}

/// The position of the SELECT that has this name.
fn select_at(index: &Index, name: &[u8]) -> Option<usize>
    ensures { (s : Schema) → IsExactIndex s index.now → IsPosition (IsSelectAt s) name.now result }
{
    match declared_by(index, name) {
        Some(Declared::Entity(_)) => None,
        Some(Declared::Select(position)) => Some(position),
        Some(Declared::Type(_)) => None,
        None => None,
    }
}

/// The position of the type that has this name, and is no SELECT.
fn type_at(index: &Index, name: &[u8]) -> Option<usize>
    ensures { (s : Schema) → IsExactIndex s index.now → IsPosition (IsTypeAt s) name.now result }
{
    match declared_by(index, name) {
        Some(Declared::Entity(_)) => None,
        Some(Declared::Select(_)) => None,
        Some(Declared::Type(position)) => Some(position),
        None => None,
    }
}

/// Adds a value, where there is one.
pub(super) fn add<T: Copy>(found: &mut Vec<T>, one: Option<T>) -> Result<(), AllocError>
    ensures { OnOk result (found.new.items ≡ found.old.items ++ option_to_list one) }
{
    if let Some(one) = one {
        found.push(one)?;
    }
    Ok(())
}

/// The positions of the entities among some names.
fn entities_among(alloc: Global, names: &[Vec<u8>], index: &Index) -> Result<Vec<usize>, AllocError>
    ensures { IfOk result (λ found. (s : Schema) → IsExactIndex s index.now → ArePositions (IsEntityAt s) (texts names.now) found.items) }
{
    let mut found = Vec::new(alloc);
    for name in names {
        add(&mut found, entity_at(index, name))?;
    }
    Ok(found)
}

/// The positions of the selects among some names.
fn selects_among(alloc: Global, names: &[Vec<u8>], index: &Index) -> Result<Vec<usize>, AllocError>
    ensures { IfOk result (λ found. (s : Schema) → IsExactIndex s index.now → ArePositions (IsSelectAt s) (texts names.now) found.items) }
{
    let mut found = Vec::new(alloc);
    for name in names {
        add(&mut found, select_at(index, name))?;
    }
    Ok(found)
}

/// The position of the type whose name is all of a type.
fn type_alone(alloc: Global, texpr: &TypeExpr, index: &Index) -> Result<Vec<usize>, AllocError>
    ensures { IfOk result (λ found. (s : Schema) → IsExactIndex s index.now → ArePositions (IsTypeAt s) (option_to_list (lone_name (plain_expr texpr.now))) found.items) }
{
    let mut found = Vec::new(alloc);
    let Some(name) = lone_name(texpr) else {
        return Ok(found);
    };
    add(&mut found, type_at(index, name))?;
    Ok(found)
}

/// For each entity its supertypes.
pub(super) fn supertypes(
    alloc: Global,
    checked: Checked,
    index: &Index,
) -> Result<Graph, AllocError>
    requires { IsExactIndex (plain_schema checked.declarations.now) index.now }
    ensures { IfOk result (λ graph. AreSupertypes (plain_schema checked.entry.declarations.now) (lists graph.items)) }
{
    let mut graph = Vec::new(alloc);
    for entity in &checked.declarations.entities {
        graph.push(entities_among(alloc, &entity.supertypes, index)?)?;
    }
    Ok(graph)
}

/// The type that is all that stands under a type, or the selects among its items.
fn types_under(alloc: Global, under: &Under, index: &Index) -> Result<Vec<usize>, AllocError>
    ensures { IfOk result (λ found. (s : Schema) → IsExactIndex s index.now → AreTypesUnder s (plain_under under.now) found.items) }
{
    match under {
        Under::Items(_) => Ok(Vec::new(alloc)),
        Under::Select(names) => selects_among(alloc, names, index),
        Under::Plain(texpr) => type_alone(alloc, texpr, index),
    }
}

/// For each type those to which it leads.
fn types(alloc: Global, checked: Checked, index: &Index) -> Result<Graph, AllocError>
    requires { IsExactIndex (plain_schema checked.declarations.now) index.now }
    ensures { IfOk result (λ graph. AreTypes (plain_schema checked.entry.declarations.now) (lists graph.items)) }
{
    let mut graph = Vec::new(alloc);
    for decl in &checked.declarations.types {
        graph.push(types_under(alloc, &decl.under, index)?)?;
    }
    Ok(graph)
}

/// How many words stand from the first declaration on that lies on a cycle.
fn first_place(
    alloc: Global,
    checked: Checked,
    supertypes: &Graph,
    types: &Graph,
) -> Result<usize, AllocError> {
    let mut left = 0;
    for (position, on) in on_cycles(alloc, supertypes)?.iter().enumerate() {
        if *on {
            left = left.max(checked.entity_places(position).name);
        }
    }
    for (position, on) in on_cycles(alloc, types)?.iter().enumerate() {
        if *on {
            left = left.max(checked.type_places(position).name);
        }
    }
    Ok(left)
}

/// Refuses where a declaration leads back to itself.
pub(super) fn check(alloc: Global, checked: Checked, index: &Index) -> Result<(), Unfit>
    requires index { IsExactIndex (plain_schema checked.declarations.now) index.now }
    requires unknown { HasNoUnknown (plain_schema checked.declarations.now) }
    ensures { let s = plain_schema checked.entry.declarations.now in MatchResult result (λ _. HasNoCycles s) (λ e. OnUnfit e (Only Cycle (¬ (HasNoCycles s)))) }
{
    let supertypes = supertypes(alloc, checked, index)?;
    let types = types(alloc, checked, index)?;
    let is_own_ancestor = is_cyclic(alloc, &supertypes)?;
    let is_own_type = is_cyclic(alloc, &types)?;
    if is_own_ancestor || is_own_type {
        let left = first_place(alloc, checked, &supertypes, &types)?;
        return Err(Unfit::Found(Misfit::Cycle, left));
    }
    Ok(())
}
