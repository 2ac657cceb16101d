//! The parameter of an instance that stands for an explicit attribute.

ghost use Rattle.std.specs.Prelude.{IfSome};
ghost use Rattle.p21_schema.specs.Place.{IsEntityOf};
ghost use Rattle.p21_tree.specs.Bodies.{HasBodies};
ghost use Rattle.p21_tree.specs.Plain.{plain};

use crate::attributes::Explicit;
use crate::world::FileWorld;
use p21_schema::EntityId;
use p21_tree::{Param, RawInstance, Record};

impl<'x, 'a> FileWorld<'x, 'a> {
    /// The parameter of the instance at a place that stands for an attribute.
    pub(crate) fn parameter(&self, place: u32, explicit: &Explicit) -> Option<&Param<'a>>
        ensures { IfSome result (λ p. HasBodies (plain p.now)) }
    {
        let instance = self.model.instances().get(place as usize)?;
        let entities = self.entities.of(place);
        if instance.complex {
            return own_parameter(instance, entities, explicit);
        }
        let entity = self
            .dictionary
            .schema
            .entity_at(*entities.first()? as usize)?;
        let position = self.row_position(entity, explicit)?;
        param_at(instance.records.as_slice().first()?, position)
    }

    /// The place of an attribute in the row of an entity: mostly as in the row of the entity that declares it.
    fn row_position(&self, entity: EntityId, explicit: &Explicit) -> Option<usize>
        requires { IsEntityOf self.now.dictionary.now.schema.now entity }
    {
        if self.is_in_row(entity, explicit.row, explicit.attribute) {
            return Some(explicit.row);
        }
        for position in 0..self.dictionary.schema.row_count(entity) {
            if self.is_in_row(entity, position, explicit.attribute) {
                return Some(position);
            }
        }
        None
    }

    /// Whether an attribute stands at a place in the row of an entity.
    fn is_in_row(&self, entity: EntityId, position: usize, attribute: usize) -> bool
        requires { IsEntityOf self.now.dictionary.now.schema.now entity }
    {
        let schema = self.dictionary.schema;
        position < schema.row_count(entity) && schema.row(entity, position).place() == attribute
    }
}

/// The parameter of a complex instance whose records name these entities.
fn own_parameter<'m, 'a>(
    instance: &'m RawInstance<'a>,
    entities: &[u32],
    explicit: &Explicit,
) -> Option<&'m Param<'a>>
    ensures { IfSome result (λ p. HasBodies (plain p.now)) }
{
    let records = instance.records.as_slice();
    for at in 0..records.len().min(entities.len()) {
        if entities[at] == explicit.declarer {
            return param_at(&records[at], explicit.own);
        }
    }
    None
}

/// The parameter of a record at a place.
fn param_at<'m, 'a>(record: &'m Record<'a>, place: usize) -> Option<&'m Param<'a>>
    ensures { IfSome result (λ p. HasBodies (plain p.now)) }
{
    record.params.as_slice().get(place)
}
