//! The entities of instances.

use p21_join::Model;
use p21_schema::{EntityId, Schema};
use p21_tree::RawInstance;
use std::alloc::{AllocError, Global};

/// What stands for the entity of a record that names none.
const NONE: u32 = u32::MAX;

/// Whether the first entity is the second, or has it as an ancestor, by their places among those of the schema.
pub(crate) fn is_a(schema: &Schema, entity: u32, other: u32) -> bool {
    match (
        schema.entity_at(entity as usize),
        schema.entity_at(other as usize),
    ) {
        (Some(entity), Some(other)) => schema.is_a(entity, other),
        _ => false,
    }
}

/// Whether one of the entities is this one, or has it as an ancestor.
pub(crate) fn is_of(schema: &Schema, entities: &[u32], other: u32) -> bool {
    for entity in entities {
        if is_a(schema, *entity, other) {
            return true;
        }
    }
    false
}

/// The entities that the records of each instance name.
#[derive(Drop)]
pub(crate) struct RecordEntities {
    /// Of each instance the place of its first record among all records, and behind them how many records there are.
    starts: Vec<u32>,
    /// Of each record the place of its entity among those of the schema.
    entities: Vec<u32>,
}

/// The entities of the instances of a model, by the entity of each simple one.
pub(crate) fn record_entities(
    alloc: Global,
    schema: &Schema,
    model: &Model<'_>,
    simple: &[Option<EntityId>],
) -> Result<RecordEntities, AllocError> {
    let mut all = RecordEntities {
        starts: Vec::with_capacity(alloc, model.len())?,
        entities: Vec::with_capacity(alloc, model.len())?,
    };
    let mut place: usize = 0;
    for instance in model.instances() {
        all.begin()?;
        match simple.get(place) {
            Some(Some(entity)) => all.entities.push(number(entity.place()))?,
            _ => all.add_named(schema, instance)?,
        }
        place = place.saturating_add(1);
    }
    all.begin()?;
    Ok(all)
}

/// A place as a number; that of no entity if it is too great.
fn number(place: usize) -> u32 {
    u32::try_from(place).unwrap_or(NONE)
}

impl RecordEntities {
    /// The records of a further instance begin, or all records end.
    fn begin(&mut self) -> Result<(), AllocError> {
        self.starts.push(number(self.entities.len()))?;
        Ok(())
    }

    /// Adds the entities that the records of an instance name.
    fn add_named(&mut self, schema: &Schema, instance: &RawInstance<'_>) -> Result<(), AllocError> {
        for record in instance.records.as_slice() {
            let entity = match schema.entity(record.keyword) {
                Some(entity) => number(entity.place()),
                None => NONE,
            };
            self.entities.push(entity)?;
        }
        Ok(())
    }

    /// The entities that the records of the instance at a place name, in their order.
    pub(crate) fn of(&self, place: u32) -> &[u32] {
        let from = self.start(place as usize);
        let to = self.start((place as usize).saturating_add(1));
        if from <= to && to <= self.entities.len() {
            &self.entities[from..to]
        } else {
            &[]
        }
    }

    fn start(&self, place: usize) -> usize {
        match self.starts.get(place) {
            Some(start) => *start as usize,
            None => 0,
        }
    }
}
