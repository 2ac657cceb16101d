//! Instances by their entities.

ghost use Rattle.std.specs.Prelude.{◌≡◌, ◌↔◌, IsTrue};
ghost use Rattle.p21_tree.specs.declared.instances.RawInstance.{RawInstance};
ghost use Rattle.p21_tree.specs.Views.{plain_instance};
ghost use Rattle.p21_schema.specs.Place.{IsEntityOf, entity_name};
ghost use Rattle.p21_query.specs.First.{IsFirst};
ghost use Rattle.p21_query.specs.Wanted.{IsMeant, IsWanted};

use p21_schema::{EntityId, Schema};
use p21_tree::RawInstance;

/// The place of the first instance, from a place on, with a record that names the entity, or where subtypes count too, that names the entity
/// or one below it. `None` where there is none.
pub fn next_of(
    schema: &Schema,
    instances: &[RawInstance<'_>],
    entity: EntityId,
    subtypes: bool,
    from: usize,
) -> Option<usize>
    requires { IsEntityOf schema.now entity }
    ensures { IsFirst (λ i. IsWanted schema.now subtypes (entity_name schema.now entity) (plain_instance i)) (λ i. ¬ (IsWanted schema.now subtypes (entity_name schema.now entity) (plain_instance i))) instances.now from result }
{
    for place in from..instances.len() {
        if is_wanted(schema, &instances[place], entity, subtypes) {
            return Some(place);
        }
    }
    None
}

/// Whether a record of the instance names the entity, or one below it where these count too.
fn is_wanted(schema: &Schema, instance: &RawInstance<'_>, entity: EntityId, subtypes: bool) -> bool
    requires { IsEntityOf schema.now entity }
    ensures { IsTrue result ↔ IsWanted schema.now subtypes (entity_name schema.now entity) (plain_instance instance.now) }
{
    for record in instance.records.as_slice() {
        if is_meant(schema, record.keyword, entity, subtypes) {
            return true;
        }
    }
    false
}

/// Whether a name is the entity's, or that of one below it where these count too.
fn is_meant(schema: &Schema, name: &[u8], entity: EntityId, subtypes: bool) -> bool
    requires { IsEntityOf schema.now entity }
    ensures { IsTrue result ↔ IsMeant schema.now subtypes name.now (entity_name schema.now entity) }
{
    if !subtypes {
        return name == schema.name_of(entity);
    }
    match schema.entity(name) {
        Some(named) => schema.is_a(named, entity),
        None => false,
    }
}
