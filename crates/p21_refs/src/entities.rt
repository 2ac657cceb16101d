//! The entities of the instances of a model.

ghost use Rattle.std.specs.Prelude.{IfOk};
ghost use Rattle.p21_tree.specs.Views.{plain_instance};
ghost use Rattle.p21_check.specs.EntityOf.{AreSimpleEntities, IsSimpleEntity};
ghost use Rattle.p21_join.specs.Model.{instances_of, plain_instances};

use p21_check::simple_entity;
use p21_join::Model;
use p21_schema::{EntityId, Schema};
use p21_tree::RawInstance;
use rayon::prelude::*;
use std::alloc::{AllocError, Global};
use std::thread::Threads;

/// The entity of each instance of a model, in their order, looked up by as many threads as there are processors.
pub(crate) fn entities_of<R: Threads + Sync>(
    rt: &R,
    alloc: Global,
    schema: &Schema,
    model: &Model<'_>,
) -> Result<Vec<Option<EntityId>>, AllocError>
    ensures { IfOk result (λ entities. AreSimpleEntities schema.now (plain_instances (instances_of model.now)) entities.items) }
{
    model
        .instances()
        .par_iter()
        .map(
            |instance: &RawInstance<'_>| -> Option<EntityId>
                ensures { IsSimpleEntity schema.entry.now (plain_instance instance.now) result }
            { simple_entity(schema, instance) },
        )
        .collect(rt, alloc)
}
