//! Which attributes of a row have the name of one before them.

ghost use Rattle.std.specs.Prelude.{◌≡◌, ◌<◌, ◌++◌, [], List, ℕ, IfOk, OnOk, Some, false, get_or, length, map, slice_get, take};
ghost use Rattle.p21_express.specs.Schema.{Schema};
ghost use Rattle.p21_express.specs.WellFormed.{Origin};
ghost use Rattle.p21_express.specs.Plain.{plain_entity};
ghost use Rattle.p21_graph.specs.Graph.{rows_of};
ghost use Rattle.p21_schema.specs.Place.{IsEntityOf, entity_name};
ghost use Rattle.p21_schema.specs.Row.{IsRow, own_attributes};
ghost use Rattle.p21_schema.specs.declared.ids.EntityId.{EntityId as Id};
ghost use Rattle.p21_json.specs.Keys.{AreByEntities, AreDeclared, AreFlags, has_name, origin_of};

use p21_express::EntityDecl;
use p21_schema::{EntityId, Schema};
use std::alloc::{AllocError, Global};

/// An attribute as it is newly declared.
#[derive(Clone, Copy, Debug)]
pub(crate) struct DeclaredName<'s> {
    /// The entity that declares it.
    pub(crate) entity: EntityId,
    /// Its name, in upper case.
    pub(crate) name: &'s [u8],
}

/// The attributes of a schema, in the order of its text.
pub(crate) fn all_declared<'s>(
    alloc: Global,
    schema: &'s Schema,
) -> Result<Vec<DeclaredName<'s>>, AllocError>
    ensures { IfOk result (λ all. AreDeclared schema.now all.items) }
{
    let entities = schema.declared().entities.as_slice();
    let mut all = Vec::new(alloc);
    for place in 0..entities.len() {
        push_own(&mut all, entity_at(schema, place), &entities[place])?;
    }
    Ok(all)
}

/// The entity at a place that is one of the schema.
fn entity_at(schema: &Schema, place: usize) -> EntityId
    requires { place < length schema.now.entities }
    ensures { IsEntityOf schema.now result × (result.index ≡ place) }
{
    schema.entity_at(place).unwrap()
}

/// Adds the attributes that an entity newly declares.
fn push_own<'s>(
    all: &mut Vec<DeclaredName<'s>>,
    entity: EntityId,
    declaration: &'s EntityDecl,
) -> Result<(), AllocError>
    ensures by { (s : Schema) → IsEntityOf s entity → AreByEntities s all.old.items → OnOk result (AreByEntities s all.new.items) }
    ensures same { (s : Schema) → entity_name s entity ≡ (plain_entity declaration.now).name → OnOk result (map (origin_of s) all.new.items ≡ map (origin_of s) all.old.items ++ own_attributes (plain_entity declaration.now)) }
{
    for attribute in &declaration.attributes {
        if attribute.of.is_none() {
            all.push(DeclaredName {
                entity,
                name: attribute.name.as_slice(),
            })?;
        }
    }
    Ok(())
}

/// The longest row of which is kept which attributes have the name of one before them. Of a longer one that is looked up each time.
const LONGEST: usize = 64;

/// For each entity whether each attribute of its row has the name of one before it; nothing where the row is long.
pub(crate) fn all_flags(
    alloc: Global,
    schema: &Schema,
    all: &[DeclaredName<'_>],
) -> Result<Vec<Vec<bool>>, AllocError>
    requires { AreDeclared schema.now all.now }
    ensures { IfOk result (λ made. (e : Id) → AreFlags schema.now e (get_or (rows_of made) e.index [])) }
{
    let mut flags = Vec::with_capacity(alloc, schema.declared().entities.len())?;
    for place in 0..schema.declared().entities.len() {
        match schema.entity_at(place) {
            Some(entity) => flags.push(flags_of(alloc, schema, all, entity)?)?,
            None => flags.push(Vec::new(alloc))?,
        }
    }
    Ok(flags)
}

/// Whether each attribute of the row of an entity has the name of one before it; nothing where the row is long.
fn flags_of(
    alloc: Global,
    schema: &Schema,
    all: &[DeclaredName<'_>],
    entity: EntityId,
) -> Result<Vec<bool>, AllocError>
    requires declared { AreDeclared schema.now all.now }
    requires entity { IsEntityOf schema.now entity }
    ensures { IfOk result (λ flags. AreFlags schema.now entity flags.items) }
{
    let count = schema.row_count(entity);
    if count > LONGEST {
        return Ok(Vec::new(alloc));
    }
    let mut flags = Vec::with_capacity(alloc, count)?;
    for position in 0..count {
        flags.push(is_taken(schema, all, entity, position))?;
    }
    Ok(flags)
}

/// Whether an attribute of the row of an entity has the name of one before it.
pub(crate) fn is_taken(
    schema: &Schema,
    all: &[DeclaredName<'_>],
    entity: EntityId,
    position: usize,
) -> bool
    requires declared { AreDeclared schema.now all.now }
    requires entity { IsEntityOf schema.now entity }
    requires position { (os : List Origin) × (IsRow schema.now (entity_name schema.now entity) os × (position < length os)) }
    ensures { (os : List Origin) → (o : Origin) → IsRow schema.now (entity_name schema.now entity) os → slice_get os position ≡ Some o → result ≡ has_name (take position os) o.name }
{
    let name = name_at(schema, all, entity, position);
    for before in 0..position {
        if name_at(schema, all, entity, before) == name {
            return true;
        }
    }
    false
}

/// The name of an attribute of the row of an entity.
fn name_at<'s>(
    schema: &Schema,
    all: &[DeclaredName<'s>],
    entity: EntityId,
    position: usize,
) -> &'s [u8]
    requires declared { AreDeclared schema.now all.now }
    requires entity { IsEntityOf schema.now entity }
    requires position { (os : List Origin) × (IsRow schema.now (entity_name schema.now entity) os × (position < length os)) }
    ensures { (os : List Origin) → (o : Origin) → IsRow schema.now (entity_name schema.now entity) os → slice_get os position ≡ Some o → result.now ≡ o.name }
{
    all[schema.row(entity, position).place()].name
}
