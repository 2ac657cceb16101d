//! The declarations of each attribute.

ghost use Rattle.std.specs.Prelude.{◌≡◌, ◌<◌, ◌≤◌, ◌+◌, ◌↔◌, ◌++◌, ◌∷◌, ℕ, List, [], None, length, get_or, map, set, IfOk, OnOk, IsTrue, MatchOption};
ghost use Rattle.p21_express.specs.Plain.{plain_entity, plain_attribute, plain_derived};
ghost use Rattle.p21_schema.specs.DeclarationTable.{known_schema, IsNotOwn, IsOwnAt, IsOriginAt, IsDeclared, IsDeclarationTable, IsFitting};
ghost use Rattle.p21_express.specs.WellFormed.{IsIn, IsEntity, IsOrigin, Origin, new_explicit, with_new};
ghost use Rattle.p21_graph.specs.Graph.{rows_of};
ghost use Rattle.p21_schema.specs.Ancestry.{entity_id, IsA};
ghost use Rattle.p21_schema.specs.Declaration.{Written, written_explicit, written_derived, explicit_in, derived_in, written};
ghost use Rattle.p21_schema.specs.Place.{no_entity};
ghost use Rattle.p21_schema.specs.Row.{attributes_of};

use crate::ids::EntityId;
use crate::names::Names;
use crate::resolved::{ResolvedExpr, resolve};
use crate::rows::Own;
use crate::rules::Rules;
use p21_express::{AttrDecl, Declarations, DeriveDecl, EntityDecl};
use p21_graph::Bits;
use std::alloc::{AllocError, Global};

/// What a declaration makes of an attribute.
#[derive(Debug, Drop)]
pub enum Form {
    /// The declaration stands in DERIVE.
    Derived,
    /// The attribute is explicit.
    Explicit {
        /// Whether the value may be left out.
        optional: bool,
        texpr: ResolvedExpr,
    },
}

/// A declaration of an attribute: the one that newly declares it, or one that declares it again.
#[derive(Debug, Drop)]
pub struct Declaration {
    /// The entity that it stands in.
    pub entity: EntityId,
    pub form: Form,
}

/// What attributes and types are looked up in.
#[derive(Clone, Copy)]
pub(crate) struct Known<'a> {
    pub(crate) declarations: &'a Declarations,
    pub(crate) rules: Rules,
    pub(crate) entities: &'a Names,
    pub(crate) types: &'a Names,
    pub(crate) ancestry: &'a Bits,
    pub(crate) own: &'a [Own],
}

/// The place of a name among the explicit attributes that an entity newly declares.
fn own_position(entity: &EntityDecl, name: &[u8]) -> Option<usize>
    ensures { MatchOption result (¬ (IsIn (new_explicit (plain_entity entity.now).attributes) name.now)) (λ k. (k < length (new_explicit (plain_entity entity.now).attributes)) × (get_or (new_explicit (plain_entity entity.now).attributes) k [] ≡ name.now)) }
{
    let mut position = 0;
    for attribute in &entity.attributes {
        if attribute.of.is_none() {
            if attribute.name.as_slice() == name {
                return Some(position);
            }
            position += 1;
        }
    }
    None
}

/// The attribute of this name that an entity newly declares as an explicit one.
fn own_attribute(known: &Known, entity: usize, name: &[u8]) -> Option<usize>
    requires known { IsFitting known.now }
    requires entity { entity < length (known_schema known.now).entities }
    ensures { MatchOption result (IsNotOwn (known_schema known.now) entity name.now) (λ i. IsOwnAt (known_schema known.now) entity name.now i) }
{
    let position = own_position(&known.declarations.entities[entity], name)?;
    let own = known.own[entity];
    Some(own.from + position)
}

/// Whether the first entity is the second, or has it as an ancestor.
fn is_over(known: &Known, entity: usize, other: usize) -> bool
    requires known { IsFitting known.now }
    requires entity { entity < length (known_schema known.now).entities }
    requires other { other < length (known_schema known.now).entities }
    ensures { IsTrue result ↔ IsA (known_schema known.now) (entity_id entity) (entity_id other) }
{
    known.ancestry.has(entity, other)
}

/// The attribute of this name that an entity or an ancestor of it newly declares as an explicit one.
fn attribute_above(known: &Known, entity: usize, name: &[u8]) -> Option<usize>
    requires known { IsFitting known.now }
    requires entity { entity < length (known_schema known.now).entities }
    ensures { MatchOption result ((d : ℕ) → d < length (known_schema known.now).entities → IsA (known_schema known.now) (entity_id entity) (entity_id d) → IsNotOwn (known_schema known.now) d name.now) (λ i. (d : ℕ) × ((d < length (known_schema known.now).entities) × (IsA (known_schema known.now) (entity_id entity) (entity_id d) × IsOwnAt (known_schema known.now) d name.now i))) }
{
    for owner in 0..known.declarations.entities.len() {
        if is_over(known, entity, owner) {
            if let Some(attribute) = own_attribute(known, owner, name) {
                return Some(attribute);
            }
        }
    }
    None
}

/// The attribute that SELF\of.name declares again.
fn again(known: &Known, of: &[u8], name: &[u8]) -> Option<usize>
    requires known { IsFitting known.now }
    requires of { IsEntity (known_schema known.now) of.now }
    ensures { MatchOption result ((o : Origin) → IsIn (attributes_of (known_schema known.now).entities) o → o.name ≡ name.now → ¬ (IsOrigin (known_schema known.now) of.now name.now o.entity)) (λ i. IsOriginAt (known_schema known.now) of.now name.now i) }
{
    attribute_above(known, known.entities.known(of), name)
}

/// The attribute that an explicit declaration declares: this one, where it is newly declared.
fn explicit_attribute(
    known: &Known,
    entity: usize,
    attribute: &AttrDecl,
    new: usize,
) -> Option<usize>
    requires new { (plain_attribute attribute.now).of ≡ None → IsOwnAt (known_schema known.now) entity (plain_attribute attribute.now).name new }
    requires known { IsFitting known.now }
    requires entity { entity < length (known_schema known.now).entities }
    requires attribute { IsIn (get_or (known_schema known.now).entities entity no_entity).attributes (plain_attribute attribute.now) }
    ensures { IsDeclared (known_schema known.now) (written_explicit (get_or (known_schema known.now).entities entity no_entity).name (plain_attribute attribute.now)) result }
{
    match &attribute.of {
        None => Some(new),
        Some(of) => again(known, of, &attribute.name),
    }
}

/// The explicit attribute that a declaration in DERIVE declares again.
fn derived_attribute(known: &Known, entity: usize, derived: &DeriveDecl) -> Option<usize>
    requires known { IsFitting known.now }
    requires entity { entity < length (known_schema known.now).entities }
    requires derived { IsIn (get_or (known_schema known.now).entities entity no_entity).derived (plain_derived derived.now) }
    ensures { IsDeclared (known_schema known.now) (written_derived (get_or (known_schema known.now).entities entity no_entity).name (plain_derived derived.now)) result }
{
    match &derived.of {
        None => None,
        Some(of) => again(known, of, &derived.name),
    }
}

/// One declaration more in the list at this place.
fn add(
    lists: &mut Vec<Vec<Declaration>>,
    place: usize,
    declaration: Declaration,
) -> Result<(), AllocError>
    requires { place < length (rows_of lists.old) }
    ensures { OnOk result (rows_of lists.new ≡ set (rows_of lists.old) place (get_or (rows_of lists.old) place [] ++ declaration ∷ [])) }
{
    lists[place].push(declaration)?;
    Ok(())
}

/// The place of the next attribute that is newly declared after this declaration, where this is that of the next one from it on, and all
/// stand before the end.
fn place_after(attribute: &AttrDecl, new: usize, end: usize) -> usize
    requires { new + length (with_new (plain_attribute attribute.now).of (plain_attribute attribute.now).name []) ≤ end }
    ensures { result ≡ new + length (with_new (plain_attribute attribute.now).of (plain_attribute attribute.now).name []) }
{
    if attribute.of.is_none() { new + 1 } else { new }
}

/// The explicit declarations of an entity after the others.
fn add_explicit(
    alloc: Global,
    known: &Known,
    entity: usize,
    lists: &mut Vec<Vec<Declaration>>,
) -> Result<(), AllocError>
    requires known { IsFitting known.now }
    requires entity { entity < length (known_schema known.now).entities }
    requires count { length (rows_of lists.old) ≡ length (attributes_of (known_schema known.now).entities) }
    ensures table { OnOk result ((ws : List Written) → IsDeclarationTable (known_schema known.now) ws (rows_of lists.old) → IsDeclarationTable (known_schema known.now) (ws ++ explicit_in (get_or (known_schema known.now).entities entity no_entity)) (rows_of lists.new)) }
    ensures count { OnOk result (length (rows_of lists.new) ≡ length (rows_of lists.old)) }
{
    let own = known.own[entity];
    let mut new = own.from;
    for attribute in &known.declarations.entities[entity].attributes {
        if let Some(place) = explicit_attribute(known, entity, attribute, new) {
            let texpr = resolve(alloc, known.entities, known.types, &attribute.texpr)?;
            let optional = attribute.optional;
            let form = Form::Explicit { optional, texpr };
            let entity = EntityId { index: entity };
            add(lists, place, Declaration { entity, form })?;
        }
        new = place_after(attribute, new, own.to);
    }
    Ok(())
}

/// The declarations of an entity in DERIVE after the others.
fn add_derived(
    known: &Known,
    entity: usize,
    lists: &mut Vec<Vec<Declaration>>,
) -> Result<(), AllocError>
    requires known { IsFitting known.now }
    requires entity { entity < length (known_schema known.now).entities }
    requires count { length (rows_of lists.old) ≡ length (attributes_of (known_schema known.now).entities) }
    ensures table { OnOk result ((ws : List Written) → IsDeclarationTable (known_schema known.now) ws (rows_of lists.old) → IsDeclarationTable (known_schema known.now) (ws ++ derived_in (get_or (known_schema known.now).entities entity no_entity)) (rows_of lists.new)) }
    ensures count { OnOk result (length (rows_of lists.new) ≡ length (rows_of lists.old)) }
{
    for derived in &known.declarations.entities[entity].derived {
        if let Some(place) = derived_attribute(known, entity, derived) {
            let form = Form::Derived;
            let entity = EntityId { index: entity };
            add(lists, place, Declaration { entity, form })?;
        }
    }
    Ok(())
}

/// The declarations of each attribute, in the order of the text, in these lists, which are empty.
pub(crate) fn all_declarations(
    alloc: Global,
    known: &Known,
    lists: Vec<Vec<Declaration>>,
) -> Result<Vec<Vec<Declaration>>, AllocError>
    requires known { IsFitting known.now }
    requires count { length (rows_of lists) ≡ length (attributes_of (known_schema known.now).entities) }
    requires empty { (i : ℕ) → get_or (rows_of lists) i [] ≡ [] }
    ensures { IfOk result (λ table. IsDeclarationTable (known_schema known.now) (written (known_schema known.now).entities) (rows_of table)) }
{
    let mut lists = lists;
    for entity in 0..known.declarations.entities.len() {
        add_explicit(alloc, known, entity, &mut lists)?;
        add_derived(known, entity, &mut lists)?;
    }
    Ok(lists)
}
