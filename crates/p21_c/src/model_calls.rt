//! What is asked of the instances of a model.

ghost use Rattle.std.specs.Prelude.{◌≡◌, None, Some, length, pos};
ghost use Rattle.p21_tree.specs.Views.{plain_instance};
ghost use Rattle.p21_counts.specs.Counts.{capped, reference_count};
ghost use Rattle.p21_join.specs.Model.{instances_of, plain_instances};
ghost use Rattle.p21_join.specs.Names.{IsPosition};
ghost use Rattle.p21_query.specs.First.{IsFirst};
ghost use Rattle.p21_query.specs.Names.{AnyHasName};
ghost use Rattle.p21_c.specs.Answers.{OnModel};

use crate::codes::{HANDLE, NONE, OK};
use crate::handle::Handle;
use crate::held::HeldModel;
use crate::models::model_in;
use crate::schema_calls::entity_at;
use p21_check::simple_entity;
use p21_counts::references_in;
use p21_query::{next_naming, next_of};
use p21_schema::EntityId;
use p21_tree::{RawInstance, Record};

/// The number that stands for no entity.
const NO_ENTITY: u64 = u64::MAX;

/// An instance.
#[repr(C)]
#[derive(Clone, Copy)]
pub struct CInstance {
    /// The number of its name.
    pub name: u64,
    /// Its place, in bytes from the file's first byte.
    pub at: u64,
    /// How many records it has.
    pub records: u64,
    /// The entity of the first of them.
    pub entity: u64,
    /// 1 where it is complex, else 0.
    pub complex: u32,
}

/// A record.
#[repr(C)]
#[derive(Clone, Copy)]
pub struct CRecord {
    /// Its entity.
    pub entity: u64,
    /// How many parameters it has.
    pub parameters: u64,
}

/// The instance at a place.
pub(crate) fn instance_at(held: &HeldModel, place: u64) -> Option<&RawInstance<'static>> {
    held.model.instances().get(usize::try_from(place).ok()?)
}

/// The record of a number.
pub(crate) fn record_at<'m>(
    instance: &'m RawInstance<'static>,
    record: u64,
) -> Option<&'m Record<'static>> {
    instance
        .records
        .as_slice()
        .get(usize::try_from(record).ok()?)
}

/// The number of an entity.
pub(crate) fn number_of(entity: Option<EntityId>) -> u64 {
    match entity {
        Some(entity) => entity.place() as u64,
        None => NO_ENTITY,
    }
}

/// How many instances there are.
#[unsafe(no_mangle)]
pub extern "C" fn p21_count(model: Handle, count: &mut u64) -> i32
    // If the result is P21_OK, the number of instances of the model.
    ensures { OnModel (pos 0) result model.held (λ m. count.new ≡ length (instances_of m.model)) }
{
    let Some(held) = model_in(model) else {
        return HANDLE;
    };
    *count = held.model.len() as u64;
    OK
}

/// How many instance names are written as parameters, at most 2^64 - 1.
#[unsafe(no_mangle)]
pub extern "C" fn p21_reference_count(model: Handle, count: &mut u64) -> i32
    // If the result is P21_OK, the number of references that are written.
    ensures { OnModel (pos 0) result model.held (λ m. count.new ≡ capped (reference_count (plain_instances (instances_of m.model)))) }
{
    let Some(held) = model_in(model) else {
        return HANDLE;
    };
    *count = references_of(held.model.instances());
    OK
}

/// How many instance names are written in some instances, at most 2^64 - 1.
fn references_of(instances: &[RawInstance<'_>]) -> u64
    ensures { result ≡ capped (reference_count (plain_instances instances.now)) }
{
    let mut sum: u64 = 0;
    for instance in instances {
        sum = sum.saturating_add(references_in(instance));
    }
    sum
}

/// The place of the instance of a name.
#[unsafe(no_mangle)]
pub extern "C" fn p21_find(model: Handle, name: u64, place: &mut u64) -> i32
    // If the result is P21_OK, the place of the name.
    ensures found { OnModel (pos 0) result model.held (λ m. IsPosition (instances_of m.model) name (Some place.new)) }
    // If the result is P21_NONE, there is none.
    ensures missing { OnModel (pos 2) result model.held (λ m. IsPosition (instances_of m.model) name None) }
{
    let Some(held) = model_in(model) else {
        return HANDLE;
    };
    match held.model.position(name) {
        Some(found) => {
            *place = found as u64;
            OK
        }
        None => NONE,
    }
}

/// The instance at a place.
///
/// Tested.
#[unsafe(no_mangle)]
pub extern "C" fn p21_instance(model: Handle, place: u64, out: &mut CInstance) -> i32 {
    let Some(held) = model_in(model) else {
        return HANDLE;
    };
    let Some(instance) = instance_at(held, place) else {
        return NONE;
    };
    let records = instance.records.as_slice();
    *out = CInstance {
        name: instance.name,
        at: instance.at,
        records: records.len() as u64,
        entity: number_of(held.terms.schema().entity(records[0].keyword)),
        complex: u32::from(instance.complex),
    };
    OK
}

/// The names of the instances from a place on, and the entities of the simple ones, as many as there is room for in both.
///
/// Tested.
#[unsafe(no_mangle)]
pub extern "C" fn p21_instances(
    model: Handle,
    from: u64,
    names: &mut [u64],
    entities: &mut [u64],
    count: &mut u64,
) -> i32 {
    let Some(held) = model_in(model) else {
        return HANDLE;
    };
    let Ok(from) = usize::try_from(from) else {
        return NONE;
    };
    let Some(instances) = held.model.instances().get(from..) else {
        return NONE;
    };
    let most = instances.len().min(names.len()).min(entities.len());
    for place in 0..most {
        let instance = &instances[place];
        names[place] = instance.name;
        entities[place] = number_of(simple_entity(held.terms.schema(), instance));
    }
    *count = most as u64;
    OK
}

/// A record of an instance.
///
/// Tested.
#[unsafe(no_mangle)]
pub extern "C" fn p21_record(model: Handle, place: u64, record: u64, out: &mut CRecord) -> i32 {
    let Some(held) = model_in(model) else {
        return HANDLE;
    };
    let Some(instance) = instance_at(held, place) else {
        return NONE;
    };
    let Some(record) = record_at(instance, record) else {
        return NONE;
    };
    *out = CRecord {
        entity: number_of(held.terms.schema().entity(record.keyword)),
        parameters: record.params.len() as u64,
    };
    OK
}

/// The first instance from a place on that is of an entity, or of a subtype where these count too.
///
/// It hands on the result of `next_of` of p21_query.
#[unsafe(no_mangle)]
pub extern "C" fn p21_next_of(
    model: Handle,
    entity: u64,
    subtypes: u32,
    from: u64,
    place: &mut u64,
) -> i32 {
    let Some(held) = model_in(model) else {
        return HANDLE;
    };
    let schema = held.terms.schema();
    let (Some(entity), Ok(from)) = (entity_at(schema, entity), usize::try_from(from)) else {
        return NONE;
    };
    let Some(found) = next_of(schema, held.model.instances(), entity, subtypes != 0, from) else {
        return NONE;
    };
    *place = found as u64;
    OK
}

/// The first instance from a place on that refers to the instance of a name.
#[unsafe(no_mangle)]
pub extern "C" fn p21_next_naming(model: Handle, name: u64, from: u64, place: &mut u64) -> i32
    // If the result is P21_OK, the first place from this one on that refers to the name.
    ensures found { OnModel (pos 0) result model.held (λ m. IsFirst (λ i. AnyHasName name (plain_instance i).records) (λ i. ¬ (AnyHasName name (plain_instance i).records)) (instances_of m.model) from (Some place.new)) }
    // If the result is P21_NONE, there is none.
    ensures missing { OnModel (pos 2) result model.held (λ m. IsFirst (λ i. AnyHasName name (plain_instance i).records) (λ i. ¬ (AnyHasName name (plain_instance i).records)) (instances_of m.model) from None) }
{
    let Some(held) = model_in(model) else {
        return HANDLE;
    };
    let Some(found) = next_naming(held.model.instances(), name, from as usize) else {
        return NONE;
    };
    *place = found as u64;
    OK
}
