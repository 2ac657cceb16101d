//! The first reference fault.

ghost use Rattle.std.specs.Prelude.{◌≡◌, ◌<◌, ◌≤◌, length, min, MatchBool, MatchOption, IfOk};
ghost use Rattle.p21_check.specs.EntityOf.{AreSimpleEntities};
ghost use Rattle.p21_join.specs.Entities.{model_of, schema_of};
ghost use Rattle.p21_join.specs.Model.{instances_of, plain_instances};
ghost use Rattle.p21_refs.specs.FirstReferenceFault.{AreAnswered, AreSound, IsFirstReferenceFault};
ghost use Rattle.p21_refs.specs.Places.{AreAnsweredBefore, IsFaultinessAt, IsFirstFaulty};

use crate::entities::entities_of;
use p21_check::{check_references, check_references_among, one_reference_fault};
use p21_join::{EntityView, Model, ModelEntities};
use p21_schema::{EntityId, Schema};
use p21_tree::Fault;
use rayon::prelude::*;
use std::alloc::{AllocError, Global};
use std::thread::Threads;

/// How many instances at the front of a model one thread goes over before others are asked to help.
const FRONT: usize = 2048;

/// The first reference fault of the instances of a model, at the instance's place in the file; `None` exactly where each
/// reference is answered as it is wanted. No instance has a fault by itself. It is refused for lack of memory alone.
pub fn first_bad<R: Threads + Sync>(
    rt: &R,
    alloc: Global,
    schema: &Schema,
    model: &Model<'_>,
) -> Result<Option<Fault>, AllocError>
    requires { AreSound schema.now (plain_instances (instances_of model.now)) }
    ensures { IfOk result (λ found. MatchOption found
        (AreAnswered schema.now (plain_instances (instances_of model.now)) (plain_instances (instances_of model.now)))
        (IsFirstReferenceFault schema.now (plain_instances (instances_of model.now)))) }
{
    if let Some(fault) = first_bad_at_front(schema, model) {
        return Ok(Some(fault));
    }
    let entities = entities_of(rt, alloc, schema, model)?;
    Ok(first_bad_behind_front(rt, schema, model, entities.as_slice()))
}

/// The first reference fault of the instances of a model, as `first_bad` finds it, by their entities. This takes no memory.
pub fn first_bad_among<R: Threads + Sync>(rt: &R, entities: &ModelEntities<'_, '_>) -> Option<Fault>
    requires { AreSound (schema_of entities.now) (plain_instances (instances_of (model_of entities.now))) }
    ensures { MatchOption result
        (AreAnswered (schema_of entities.now) (plain_instances (instances_of (model_of entities.now))) (plain_instances (instances_of (model_of entities.now))))
        (IsFirstReferenceFault (schema_of entities.now) (plain_instances (instances_of (model_of entities.now)))) }
{
    let (schema, model) = (entities.schema(), entities.model());
    match first_bad_at_front(schema, model) {
        Some(fault) => Some(fault),
        None => first_bad_behind_front(rt, schema, model, entities.entities()),
    }
}

/// The first reference fault of the instances at the front of a model, where they have one. Each instance is asked by its keyword,
/// and none after the fault.
fn first_bad_at_front(schema: &Schema, model: &Model<'_>) -> Option<Fault>
    requires { AreSound schema.now (plain_instances (instances_of model.now)) }
    ensures { MatchOption result
        (AreAnsweredBefore schema.now (plain_instances (instances_of model.now)) (min 2048 (length (instances_of model.now))))
        (IsFirstReferenceFault schema.now (plain_instances (instances_of model.now))) }
{
    for place in 0..FRONT.min(model.len()) {
        let instance = model.instance(place);
        if let Err(kind) = check_references(schema, instance, model) {
            return Some(Fault {
                kind,
                at: instance.at,
            });
        }
    }
    None
}

/// The first reference fault of the instances of a model, where those at its front have none.
///
/// The model is gone over in strides, each as long as all that lies before it, by several threads within a stride. Nothing after
/// the stride of the fault is asked, so that there are at most twice as many questions as one thread has.
fn first_bad_behind_front<R: Threads + Sync>(
    rt: &R,
    schema: &Schema,
    model: &Model<'_>,
    entities: &[Option<EntityId>],
) -> Option<Fault>
    requires sound { AreSound schema.now (plain_instances (instances_of model.now)) }
    requires entities { AreSimpleEntities schema.now (plain_instances (instances_of model.now)) entities.now }
    requires front { AreAnsweredBefore schema.now (plain_instances (instances_of model.now)) (min 2048 (length (instances_of model.now))) }
    ensures { MatchOption result
        (AreAnswered schema.now (plain_instances (instances_of model.now)) (plain_instances (instances_of model.now)))
        (IsFirstReferenceFault schema.now (plain_instances (instances_of model.now))) }
{
    let len = model.len();
    let mut from = FRONT.min(len);
    while from < len {
        let to = from + from.min(len - from);
        if let Some(place) = first_faulty(rt, schema, model, entities, from, to) {
            return Some(fault_at(schema, model, place));
        }
        from = to;
    }
    None
}

/// The place of the first instance with a reference fault among those from one place up to another, by several threads.
fn first_faulty<R: Threads + Sync>(
    rt: &R,
    schema: &Schema,
    model: &Model<'_>,
    entities: &[Option<EntityId>],
    from: usize,
    to: usize,
) -> Option<usize>
    requires sound { AreSound schema.now (plain_instances (instances_of model.now)) }
    requires entities { AreSimpleEntities schema.now (plain_instances (instances_of model.now)) entities.now }
    requires within { to ≤ length (instances_of model.now) }
    requires stride { from ≤ to }
    requires before { AreAnsweredBefore schema.now (plain_instances (instances_of model.now)) from }
    ensures { MatchOption result
        (AreAnsweredBefore schema.now (plain_instances (instances_of model.now)) to)
        (IsFirstFaulty schema.now (plain_instances (instances_of model.now))) }
{
    let offset = (from..to).into_par_iter().position_first(
        rt,
        |place: usize| -> bool
            requires { AreSound schema.now (plain_instances (instances_of model.now)) × AreSimpleEntities schema.now (plain_instances (instances_of model.now)) entities.now × (place < length (instances_of model.now)) }
            ensures { IsFaultinessAt schema.entry.now (plain_instances (instances_of model.entry.now)) place result }
        { is_faulty(schema, model, entities, place) },
    )?;
    Some(from + offset)
}

/// Whether the instance at a place has a reference fault.
fn is_faulty(
    schema: &Schema,
    model: &Model<'_>,
    entities: &[Option<EntityId>],
    place: usize,
) -> bool
    requires sound { AreSound schema.now (plain_instances (instances_of model.now)) }
    requires entities { AreSimpleEntities schema.now (plain_instances (instances_of model.now)) entities.now }
    requires within { place < length (instances_of model.now) }
    ensures { IsFaultinessAt schema.now (plain_instances (instances_of model.now)) place result }
{
    let view = EntityView::of(schema, model, entities);
    let instance = model.instance(place);
    check_references_among(schema, view.entity(place), instance, &view).is_err()
}

/// The reference fault of the instance at a place, which is the first that has one.
fn fault_at(schema: &Schema, model: &Model<'_>, place: usize) -> Fault
    requires sound { AreSound schema.now (plain_instances (instances_of model.now)) }
    requires first { IsFirstFaulty schema.now (plain_instances (instances_of model.now)) place }
    ensures { IsFirstReferenceFault schema.now (plain_instances (instances_of model.now)) result }
{
    one_reference_fault();
    let instance = model.instance(place);
    match check_references(schema, instance, model) {
        Err(kind) => Fault {
            kind,
            at: instance.at,
        },
        Ok(()) => unreachable!(),
    }
}
