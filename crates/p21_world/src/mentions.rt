//! Which instances refer to which, by which attributes.

ghost use Rattle.p21_schema.specs.Place.{IsEntityOf};

use crate::entities::RecordEntities;
use p21_join::Model;
use p21_schema::{EntityId, Schema};
use p21_tree::{Param, RawInstance};
use std::alloc::{AllocError, Global};

/// An instance that refers, by an explicit attribute.
#[derive(Clone, Copy)]
pub(crate) struct Mention {
    /// The place of the instance.
    pub(crate) source: u32,
    /// The place of the attribute among the explicit attributes of the schema.
    pub(crate) attribute: u32,
}

/// A mention, and the place of the instance that is mentioned.
#[derive(Clone, Copy)]
struct Reference {
    target: u32,
    mention: Mention,
}

/// The mentions of each instance, in the order of the file.
#[derive(Drop)]
pub(crate) struct Mentions {
    /// Of each instance the place of its first mention, and behind them how many there are.
    starts: Vec<u32>,
    mentions: Vec<Mention>,
}

/// Those of no instance.
pub(crate) fn no_mentions(alloc: Global) -> Mentions {
    Mentions {
        starts: Vec::new(alloc),
        mentions: Vec::new(alloc),
    }
}

impl Mentions {
    /// The mentions of the instance at a place.
    pub(crate) fn of(&self, place: u32) -> &[Mention] {
        let from = self.start(place as usize);
        let to = self.start((place as usize).saturating_add(1));
        if from <= to && to <= self.mentions.len() {
            &self.mentions[from..to]
        } else {
            &[]
        }
    }

    fn start(&self, place: usize) -> usize {
        match self.starts.get(place) {
            Some(start) => *start as usize,
            None => 0,
        }
    }
}

/// The mentions of the instances of a model.
pub(crate) fn mentions_of(
    alloc: Global,
    schema: &Schema,
    model: &Model<'_>,
    entities: &RecordEntities,
) -> Result<Mentions, AllocError> {
    let mut references = Vec::new(alloc);
    let mut place: u32 = 0;
    for instance in model.instances() {
        add_instance(schema, model, entities, place, instance, &mut references)?;
        place = place.saturating_add(1);
    }
    sorted(alloc, model.len(), &references)
}

/// Adds the references of an instance.
fn add_instance(
    schema: &Schema,
    model: &Model<'_>,
    entities: &RecordEntities,
    place: u32,
    instance: &RawInstance<'_>,
    references: &mut Vec<Reference>,
) -> Result<(), AllocError> {
    let named = entities.of(place);
    let records = instance.records.as_slice();
    for at in 0..records.len().min(named.len()) {
        if let Some(entity) = schema.entity_at(named[at] as usize) {
            let params = records[at].params.as_slice();
            for position in 0..params.len() {
                if let Some(attribute) = attribute_at(schema, instance.complex, entity, position) {
                    let mention = Mention {
                        source: place,
                        attribute,
                    };
                    add_param(model, mention, &params[position], references)?;
                }
            }
        }
    }
    Ok(())
}

/// The attribute for which the parameter at a position of a record stands.
fn attribute_at(schema: &Schema, complex: bool, entity: EntityId, position: usize) -> Option<u32>
    requires { IsEntityOf schema.now entity }
{
    let attribute = if complex {
        if position >= schema.own_count(entity) {
            return None;
        }
        schema.own(entity, position)
    } else {
        if position >= schema.row_count(entity) {
            return None;
        }
        schema.row(entity, position)
    };
    u32::try_from(attribute.place()).ok()
}

/// Adds the references in a parameter.
fn add_param(
    model: &Model<'_>,
    mention: Mention,
    param: &Param<'_>,
    references: &mut Vec<Reference>,
) -> Result<(), AllocError> {
    match param {
        Param::Ref(name) => add_reference(model, mention, *name, references),
        Param::Items(items) => {
            for item in items {
                add_param(model, mention, item, references)?;
            }
            Ok(())
        }
        Param::Typed(_, inner) => add_param(model, mention, inner, references),
        _ => Ok(()),
    }
}

fn add_reference(
    model: &Model<'_>,
    mention: Mention,
    name: u64,
    references: &mut Vec<Reference>,
) -> Result<(), AllocError> {
    if let Some(place) = model.position(name) {
        if let Ok(target) = u32::try_from(place) {
            references.push(Reference { target, mention })?;
        }
    }
    Ok(())
}

/// References by what they refer to, those of one instance in their order.
fn sorted(alloc: Global, count: usize, references: &[Reference]) -> Result<Mentions, AllocError> {
    let starts = starts_of(alloc, count, references)?;
    let mut next = Vec::from_slice(alloc, &starts)?;
    let none = Mention {
        source: 0,
        attribute: 0,
    };
    let mut mentions = vec![in alloc; none; references.len()]?;
    for reference in references {
        if let Some(place) = next.get_mut(reference.target as usize) {
            if let Some(slot) = mentions.get_mut(*place as usize) {
                *slot = reference.mention;
            }
            *place = place.saturating_add(1);
        }
    }
    Ok(Mentions { starts, mentions })
}

/// Of each instance how many mentions those before it have, and behind them how many there are.
fn starts_of(
    alloc: Global,
    count: usize,
    references: &[Reference],
) -> Result<Vec<u32>, AllocError> {
    let mut starts = vec![in alloc; 0u32; count.saturating_add(1)]?;
    for reference in references {
        if let Some(slot) = starts.get_mut((reference.target as usize).saturating_add(1)) {
            *slot = slot.saturating_add(1);
        }
    }
    let mut sum: u32 = 0;
    for place in 0..starts.len() {
        sum = sum.saturating_add(starts[place]);
        starts[place] = sum;
    }
    Ok(starts)
}
