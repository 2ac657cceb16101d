//! The entities of the instances of a model.

ghost use Rattle.std.specs.Prelude.{◌≡◌, ◌<◌, IfOk, get_or, length};
ghost use Rattle.p21_tree.specs.Views.{plain_instance};
ghost use Rattle.p21_tree.specs.declared.instances.RawInstance.{RawInstance};
ghost use Rattle.p21_check.specs.EntityOf.{AreSimpleEntities, AreSimpleEntities-prop, IsSimpleEntity};
ghost use Rattle.p21_join.specs.Model.{instances_of, plain_instances};

use crate::model::Model;
use p21_check::{EntityOf, Named, simple_entity};
use p21_schema::{EntityId, Schema};
use std::alloc::{AllocError, Global};

/// The instances of a model with their entities by a schema, so that a reference is answered without a look at the instance
/// that it names.
#[derive(Drop)]
pub struct ModelEntities<'m, 'a> {
    schema: &'m Schema,
    model: &'m Model<'a>,
    /// The entity of each simple instance, at the instance's place.
    entities: Vec<Option<EntityId>>,
    ghost known: { AreSimpleEntities schema.now (plain_instances (instances_of model.now)) entities.items } by { AreSimpleEntities-prop schema.now (plain_instances (instances_of model.now)) entities.items },
}

impl<'m, 'a> ModelEntities<'m, 'a> {
    ghost use Rattle.p21_join.specs.Entities.{model_of, schema_of, viewed_model, viewed_schema};

    /// Looks up the entities of all instances of a model, once each. It is refused for lack of memory alone.
    pub fn new(
        alloc: Global,
        schema: &'m Schema,
        model: &'m Model<'a>,
    ) -> Result<ModelEntities<'m, 'a>, AllocError>
        ensures model { IfOk result (λ made. model_of made ≡ model.now) }
        ensures schema { IfOk result (λ made. schema_of made ≡ schema.now) }
    {
        let entities = entities_of(alloc, schema, model)?;
        Ok(ModelEntities::of(schema, model, entities))
    }

    /// The instances of a model with their entities, where these are known: one for each in the order of the instances; `None`
    /// stands for an instance that is complex or whose keyword names no entity. This takes no memory.
    pub fn of(
        schema: &'m Schema,
        model: &'m Model<'a>,
        entities: Vec<Option<EntityId>>,
    ) -> ModelEntities<'m, 'a>
        requires { AreSimpleEntities schema.now (plain_instances (instances_of model.now)) entities.items }
        ensures model { model_of result ≡ model.now }
        ensures schema { schema_of result ≡ schema.now }
    {
        ModelEntities {
            schema,
            model,
            entities,
        }
    }

    /// The schema whose entities they are.
    pub fn schema(&self) -> &'m Schema
        ensures { result.now ≡ schema_of self.now }
    {
        self.schema
    }

    /// The model whose instances they are.
    pub fn model(&self) -> &'m Model<'a>
        ensures { result.now ≡ model_of self.now }
    {
        self.model
    }

    /// The entity of each instance, at the instance's place.
    pub fn entities(&self) -> &[Option<EntityId>]
        ensures { AreSimpleEntities (schema_of self.now) (plain_instances (instances_of (model_of self.now))) result.now }
    {
        self.entities.as_slice()
    }

    /// The same, borrowed.
    pub fn view(&self) -> EntityView<'_, 'a>
        ensures model { viewed_model result ≡ model_of self.now }
        ensures schema { viewed_schema result ≡ schema_of self.now }
    {
        EntityView::of(self.schema, self.model, self.entities())
    }

    /// The entity of the instance at a place, which is below their number; `None` where it is complex or its keyword names no
    /// entity.
    pub fn entity(&self, i: usize) -> Option<EntityId>
        requires { i < length (instances_of (model_of self.now)) }
        ensures { (d : RawInstance) → IsSimpleEntity (schema_of self.now) (plain_instance (get_or (instances_of (model_of self.now)) i d)) result }
    {
        self.view().entity(i)
    }
}

impl<'m, 'a> EntityOf<'a> for ModelEntities<'m, 'a> {
    ghost use Rattle.p21_check.specs.References.{named_in};
    ghost use Rattle.p21_join.specs.Entities.{model_of, schema_of};
    ghost use Rattle.p21_join.specs.Model.{instances_of, plain_instances};

    ghost table = { schema_of };

    ghost named = { λ made. named_in (plain_instances (instances_of (model_of made))) };

    fn entity_of(&self, name: u64) -> Named<'_, 'a> {
        self.view().named(name)
    }
}

/// The instances of a model with their entities by a schema, all of them borrowed. It is made at no cost, where threads share its
/// parts.
#[derive(Clone, Copy)]
pub struct EntityView<'m, 'a> {
    schema: &'m Schema,
    model: &'m Model<'a>,
    /// The entity of each simple instance, at the instance's place.
    entities: &'m [Option<EntityId>],
    ghost known: { AreSimpleEntities schema.now (plain_instances (instances_of model.now)) entities.now } by { AreSimpleEntities-prop schema.now (plain_instances (instances_of model.now)) entities.now },
}

impl<'m, 'a> EntityView<'m, 'a> {
    ghost use Rattle.p21_check.specs.EntityOf.{IsKnownAs};
    ghost use Rattle.p21_check.specs.References.{named_in};
    ghost use Rattle.p21_join.specs.Entities.{viewed_model, viewed_schema};

    /// The instances of a model with their entities: one for each in the order of the instances; `None` stands for an instance that
    /// is complex or whose keyword names no entity.
    pub fn of(
        schema: &'m Schema,
        model: &'m Model<'a>,
        entities: &'m [Option<EntityId>],
    ) -> EntityView<'m, 'a>
        requires { AreSimpleEntities schema.now (plain_instances (instances_of model.now)) entities.now }
        ensures model { viewed_model result ≡ model.now }
        ensures schema { viewed_schema result ≡ schema.now }
    {
        EntityView {
            schema,
            model,
            entities,
        }
    }

    /// The entity of the instance at a place, which is below their number; `None` where it is complex or its keyword names no
    /// entity.
    pub fn entity(self, i: usize) -> Option<EntityId>
        requires { i < length (instances_of (viewed_model self)) }
        ensures { (d : RawInstance) → IsSimpleEntity (viewed_schema self.entry) (plain_instance (get_or (instances_of (viewed_model self.entry)) i d)) result }
    {
        *self.entities.get(i)?
    }

    /// What is known of the instance of a name.
    fn named(self, name: u64) -> Named<'m, 'a>
        ensures { IsKnownAs (viewed_schema self.entry) (named_in (plain_instances (instances_of (viewed_model self.entry))) name) result }
    {
        let Some(place) = self.model.position(name) else {
            return Named::Missing;
        };
        match self.entity(place) {
            Some(entity) => Named::Simple(entity),
            None => Named::Other(self.model.instance(place)),
        }
    }
}

impl<'m, 'a> EntityOf<'a> for EntityView<'m, 'a> {
    ghost use Rattle.p21_check.specs.References.{named_in};
    ghost use Rattle.p21_join.specs.Entities.{viewed_model, viewed_schema};
    ghost use Rattle.p21_join.specs.Model.{instances_of, plain_instances};

    ghost table = { viewed_schema };

    ghost named = { λ view. named_in (plain_instances (instances_of (viewed_model view))) };

    fn entity_of(&self, name: u64) -> Named<'_, 'a> {
        self.named(name)
    }
}

/// The entities of the instances of a model, in their order.
fn entities_of(
    alloc: Global,
    schema: &Schema,
    model: &Model<'_>,
) -> Result<Vec<Option<EntityId>>, AllocError>
    ensures { IfOk result (λ entities. AreSimpleEntities schema.now (plain_instances (instances_of model.now)) entities.items) }
{
    let mut entities = Vec::with_capacity(alloc, model.len())?;
    for instance in model.instances() {
        entities.push(simple_entity(schema, instance))?;
    }
    Ok(entities)
}
