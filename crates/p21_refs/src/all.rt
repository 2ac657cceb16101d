//! All reference faults.

ghost use Rattle.std.specs.Prelude.{◌<◌, length, IfOk};
ghost use Rattle.p21_check.specs.EntityOf.{AreSimpleEntities};
ghost use Rattle.p21_join.specs.Entities.{model_of, schema_of};
ghost use Rattle.p21_join.specs.Model.{instances_of, plain_instances};
ghost use Rattle.p21_refs.specs.FirstReferenceFault.{AreSound};
ghost use Rattle.p21_refs.specs.AllReferenceFaults.{AreReferenceFaults};
ghost use Rattle.p21_refs.specs.Places.{IsFaultAt};

use crate::entities::entities_of;
use p21_check::check_references_among;
use p21_join::{EntityView, Model, ModelEntities};
use p21_schema::{EntityId, Schema};
use p21_tree::Fault;
use rayon::prelude::*;
use std::alloc::{AllocError, Global};
use std::thread::Threads;

/// The reference faults of the instances of a model: of each instance that has one, in their order, its first, at the instance's
/// place in the file. There are none exactly where each reference is answered as it is wanted. No instance has a fault by itself.
/// It is refused for lack of memory alone.
pub fn all_bad<R: Threads + Sync>(
    rt: &R,
    alloc: Global,
    schema: &Schema,
    model: &Model<'_>,
) -> Result<Vec<Fault>, AllocError>
    requires { AreSound schema.now (plain_instances (instances_of model.now)) }
    ensures { IfOk result (λ faults. AreReferenceFaults schema.now (plain_instances (instances_of model.now)) (plain_instances (instances_of model.now)) faults.items) }
{
    let entities = entities_of(rt, alloc, schema, model)?;
    all_by_places(rt, alloc, schema, model, entities.as_slice())
}

/// The reference faults of the instances of a model, as `all_bad` finds them, by their entities.
pub fn all_bad_among<R: Threads + Sync>(
    rt: &R,
    alloc: Global,
    entities: &ModelEntities<'_, '_>,
) -> Result<Vec<Fault>, AllocError>
    requires { AreSound (schema_of entities.now) (plain_instances (instances_of (model_of entities.now))) }
    ensures { IfOk result (λ faults. AreReferenceFaults (schema_of entities.now) (plain_instances (instances_of (model_of entities.now))) (plain_instances (instances_of (model_of entities.now))) faults.items) }
{
    let (schema, model) = (entities.schema(), entities.model());
    all_by_places(rt, alloc, schema, model, entities.entities())
}

/// The reference faults of the instances of a model, looked for by as many threads as there are processors.
fn all_by_places<R: Threads + Sync>(
    rt: &R,
    alloc: Global,
    schema: &Schema,
    model: &Model<'_>,
    entities: &[Option<EntityId>],
) -> Result<Vec<Fault>, AllocError>
    requires sound { AreSound schema.now (plain_instances (instances_of model.now)) }
    requires entities { AreSimpleEntities schema.now (plain_instances (instances_of model.now)) entities.now }
    ensures { IfOk result (λ faults. AreReferenceFaults schema.now (plain_instances (instances_of model.now)) (plain_instances (instances_of model.now)) faults.items) }
{
    (0..model.len())
        .into_par_iter()
        .filter_map(
            |place: usize| -> Option<Fault>
                requires { AreSound schema.now (plain_instances (instances_of model.now)) × AreSimpleEntities schema.now (plain_instances (instances_of model.now)) entities.now × (place < length (instances_of model.now)) }
                ensures { IsFaultAt schema.entry.now (plain_instances (instances_of model.entry.now)) place result }
            { fault_at(schema, model, entities, place) },
        )
        .collect(rt, alloc)
}

/// The reference fault of the instance at a place, if it has one.
fn fault_at(
    schema: &Schema,
    model: &Model<'_>,
    entities: &[Option<EntityId>],
    place: usize,
) -> Option<Fault>
    requires sound { AreSound schema.now (plain_instances (instances_of model.now)) }
    requires entities { AreSimpleEntities schema.now (plain_instances (instances_of model.now)) entities.now }
    requires within { place < length (instances_of model.now) }
    ensures { IsFaultAt schema.now (plain_instances (instances_of model.now)) place result }
{
    let view = EntityView::of(schema, model, entities);
    let instance = model.instance(place);
    match check_references_among(schema, view.entity(place), instance, &view) {
        Ok(()) => None,
        Err(kind) => Some(Fault {
            kind,
            at: instance.at,
        }),
    }
}
