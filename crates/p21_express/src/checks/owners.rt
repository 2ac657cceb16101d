//! Which of an entity and its ancestors newly declares a name.

ghost use Rattle.std.specs.Prelude.{◌≡◌, ◌<◌, ◌≤◌, ℕ, [], IfOk, IsTrue, MatchOption, length, option_map};
ghost use Rattle.std.specs.Bool.{MatchBool};
ghost use Rattle.p21_express.specs.Index.{IsExactIndex};
ghost use Rattle.p21_express.specs.Owners.{IsAncestry, IsFirstOwner, IsOnlyOwner, IsOwner};
ghost use Rattle.p21_express.specs.Plain.{plain_entity, plain_schema};
ghost use Rattle.p21_express.specs.WellFormed.{HasNoCycles, HasNoUnknown, IsIn, new_derived, new_names, with_new};

use super::Checked;
use super::cycles::supertypes;
use super::names::Index;
use crate::declarations::{Declarations, EntityDecl};
use p21_graph::{Bits, order, reached_with_itself};
use std::alloc::{AllocError, Global};

/// For each entity itself and its ancestors.
pub(super) fn ancestry(alloc: Global, checked: Checked, index: &Index) -> Result<Bits, AllocError>
    requires index { IsExactIndex (plain_schema checked.declarations.now) index.now }
    requires unknown { HasNoUnknown (plain_schema checked.declarations.now) }
    requires cycles { HasNoCycles (plain_schema checked.declarations.now) }
    ensures { IfOk result (λ table. IsAncestry (plain_schema checked.entry.declarations.now) table) }
{
    let supertypes = supertypes(alloc, checked, index)?;
    let order = order(alloc, &supertypes)?;
    reached_with_itself(alloc, &supertypes, &order)
}

/// Whether what stands before a name and the name newly declare this one.
fn is_new(of: &Option<Vec<u8>>, name: &[u8], sought: &[u8]) -> bool
    ensures { let names = with_new (option_map (λ n. n.items) of.now) name.now [] in MatchBool result (IsIn names sought.now) (¬ (IsIn names sought.now)) }
{
    of.is_none() && name == sought
}

/// Whether an entity newly declares a name in DERIVE.
pub(super) fn derives(entity: &EntityDecl, name: &[u8]) -> bool
    ensures { let names = new_derived (plain_entity entity.now).derived in MatchBool result (IsIn names name.now) (¬ (IsIn names name.now)) }
{
    for derived in &entity.derived {
        if is_new(&derived.of, &derived.name, name) {
            return true;
        }
    }
    false
}

/// Whether an entity newly declares a name.
fn declares(entity: &EntityDecl, name: &[u8]) -> bool
    ensures { let names = new_names (plain_entity entity.now) in MatchBool result (IsIn names name.now) (¬ (IsIn names name.now)) }
{
    for attribute in &entity.attributes {
        if is_new(&attribute.of, &attribute.name, name) {
            return true;
        }
    }
    derives(entity, name)
}

/// Whether an entity is another or its ancestor, and newly declares a name.
fn is_owner(
    declarations: &Declarations,
    ancestry: &Bits,
    position: usize,
    of: usize,
    name: &[u8],
) -> bool
    requires ancestry { IsAncestry (plain_schema declarations.now) ancestry.now }
    requires position { position < length (plain_schema declarations.now).entities }
    requires of { of < length (plain_schema declarations.now).entities }
    ensures { let s = plain_schema declarations.now in MatchBool result (IsOwner s ancestry.now of name.now position) (¬ (IsOwner s ancestry.now of name.now position)) }
{
    ancestry.has(of, position) && declares(&declarations.entities[position], name)
}

/// The first such entity from a position on.
fn first_owner(
    declarations: &Declarations,
    ancestry: &Bits,
    from: usize,
    of: usize,
    name: &[u8],
) -> Option<usize>
    requires ancestry { IsAncestry (plain_schema declarations.now) ancestry.now }
    requires of { of < length (plain_schema declarations.now).entities }
    ensures { let s = plain_schema declarations.now in MatchOption result ((i : ℕ) → from ≤ i → ¬ (IsOwner s ancestry.now of name.now i)) (λ i. IsFirstOwner s ancestry.now from of name.now i) }
{
    for position in from..declarations.entities.len() {
        if is_owner(declarations, ancestry, position, of, name) {
            return Some(position);
        }
    }
    None
}

/// The only one of an entity and its ancestors that newly declares a name.
pub(super) fn only_owner(
    declarations: &Declarations,
    ancestry: &Bits,
    of: usize,
    name: &[u8],
) -> Option<usize>
    requires ancestry { IsAncestry (plain_schema declarations.now) ancestry.now }
    requires of { of < length (plain_schema declarations.now).entities }
    ensures { let s = plain_schema declarations.now in MatchOption result ((i : ℕ) → ¬ (IsOnlyOwner s ancestry.now of name.now i)) (λ i. IsOnlyOwner s ancestry.now of name.now i) }
{
    let owner = first_owner(declarations, ancestry, 0, of, name)?;
    match first_owner(declarations, ancestry, owner + 1, of, name) {
        Some(_) => None,
        None => Some(owner),
    }
}
