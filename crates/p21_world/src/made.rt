//! Instances that expressions make.
//!
//! Such an instance has the values of those attributes that its entity declares. Several that are joined are one of no entity of the schema, whose values are
//! the instances that it is made of, in the order of their entities.

use crate::attributes::{Explicit, Form, OfEntities, type_of};
use crate::entities::{is_a, is_of};
use crate::push::push;
use crate::values::DEEPEST;
use crate::world::FileWorld;
use p21_schema::{Form as Declared, ResolvedExpr, Schema};
use p21_values::{Budget, Stop, Value, made};
use std::alloc::AllocError;

/// The entities of records.
#[derive(Clone, Copy)]
pub(crate) struct OfRecords<'e>(pub(crate) &'e [u32]);

impl OfEntities for OfRecords<'_> {
    fn is_of(&self, schema: &Schema, entity: u32) -> bool {
        is_of(schema, self.0, entity)
    }
}

/// The entities of an instance that was made.
#[derive(Clone, Copy)]
pub(crate) struct OfMade<'v, 'w>(pub(crate) u32, pub(crate) &'v [Value<'w>]);

impl OfEntities for OfMade<'_, '_> {
    fn is_of(&self, schema: &Schema, entity: u32) -> bool {
        if is_a(schema, self.0, entity) {
            return true;
        }
        for part in self.1 {
            if let Value::Made(own, _) = part {
                if self.0 as usize == joined_place(schema) && is_a(schema, *own, entity) {
                    return true;
                }
            }
        }
        false
    }
}

/// What stands in place of the entity of an instance that was joined: the place behind all entities.
pub(crate) fn joined_place(schema: &Schema) -> usize {
    schema.declared().entities.len()
}

/// The type of an attribute that an entity newly declares, by the entity itself.
fn own_type(schema: &Schema, entity: u32, place: usize) -> Option<&ResolvedExpr> {
    let id = schema.entity_at(entity as usize)?;
    if place >= schema.own_count(id) {
        return None;
    }
    let attribute = schema.own(id, place);
    for declaration in schema.declarations(attribute) {
        if declaration.entity.place() == entity as usize {
            if let Declared::Explicit { texpr, .. } = &declaration.form {
                return Some(texpr);
            }
        }
    }
    None
}

impl<'x, 'a> FileWorld<'x, 'a> {
    /// The instance of an entity that has these values. NotComputed says that it has another number of attributes.
    pub fn constructed<'w>(
        &'w self,
        budget: &mut Budget,
        entity: u32,
        values: Vec<Value<'w>>,
    ) -> Result<Value<'w>, Stop> {
        let schema = self.dictionary.schema;
        let Some(id) = schema.entity_at(entity as usize) else {
            return Err(Stop::NotComputed);
        };
        if values.len() != schema.own_count(id) {
            return Err(Stop::NotComputed);
        }
        let mut own = Vec::with_capacity(budget.alloc(), values.len())?;
        let mut place: usize = 0;
        for value in values {
            let given = match own_type(schema, entity, place) {
                Some(texpr) => self.given(budget, DEEPEST, texpr, &value)?,
                None => value,
            };
            push(&mut own, given)?;
            place = place.saturating_add(1);
        }
        made(entity, own, budget)
    }

    /// The instances of one entity each of which one consists.
    pub(crate) fn parts<'w>(
        &'w self,
        budget: &mut Budget,
        value: &Value<'w>,
    ) -> Result<Vec<Value<'w>>, Stop> {
        let mut parts = Vec::new(budget.alloc());
        match value.bare() {
            Value::Made(entity, values) => {
                if *entity as usize == joined_place(self.dictionary.schema) {
                    for part in values.as_slice() {
                        budget.take()?;
                        push(&mut parts, part.share()?)?;
                    }
                } else {
                    push(&mut parts, value.bare().share()?)?;
                }
            }
            Value::Instance(place) => {
                let entities = self.all_entities(budget, self.entities.of(*place))?;
                for entity in &entities {
                    if let Some(part) = self.part(budget, *place, *entity)? {
                        push(&mut parts, part)?;
                    }
                }
            }
            _ => {}
        }
        Ok(parts)
    }

    /// What an instance of the file has of an entity.
    fn part<'w>(
        &'w self,
        budget: &mut Budget,
        place: u32,
        entity: u32,
    ) -> Result<Option<Value<'w>>, Stop> {
        let schema = self.dictionary.schema;
        let Some(id) = schema.entity_at(entity as usize) else {
            return Ok(None);
        };
        let mut own = Vec::new(budget.alloc());
        for at in 0..schema.own_count(id) {
            budget.take()?;
            let value = self.declared_value(budget, place, schema.own(id, at).place())?;
            push(&mut own, value)?;
        }
        Ok(Some(made(entity, own, budget)?))
    }

    /// The value of an explicit attribute of an instance of the file; `?` where it is derived.
    pub(crate) fn declared_value<'w>(
        &'w self,
        budget: &mut Budget,
        place: u32,
        attribute: usize,
    ) -> Result<Value<'w>, Stop> {
        match self.declared(budget, place, attribute)? {
            Some(Form::Explicit(explicit)) => self.explicit_value(budget, place, &explicit),
            _ => Ok(Value::Indeterminate),
        }
    }

    /// What gives the value of an attribute of an instance of the file.
    pub(crate) fn declared(
        &self,
        budget: &mut Budget,
        place: u32,
        attribute: usize,
    ) -> Result<Option<Form>, Stop> {
        let Some((name, declarer)) = self.dictionary.declared_at(attribute) else {
            return Ok(None);
        };
        let instance = Value::Instance(place);
        match self.attribute_of(budget, &instance, Some(declarer), name)? {
            Some(found) => Ok(Some(found.form)),
            None => Ok(None),
        }
    }

    /// The value of an explicit attribute of an instance of the file.
    pub(crate) fn explicit_value<'w>(
        &'w self,
        budget: &mut Budget,
        place: u32,
        explicit: &Explicit,
    ) -> Result<Value<'w>, Stop> {
        match self.parameter(place, explicit) {
            Some(param) => match type_of(self.dictionary.schema, explicit) {
                Some(texpr) => self.value(budget, DEEPEST, texpr, param),
                None => Ok(Value::Indeterminate),
            },
            None => Ok(Value::Indeterminate),
        }
    }

    /// The instance of the entities of two. Of an entity that both have, the attributes are those of the first. What is no instance gives `?`.
    pub fn joined<'w>(
        &'w self,
        budget: &mut Budget,
        values: &[Value<'w>],
    ) -> Result<Value<'w>, Stop> {
        let [first, second] = values else {
            return Ok(Value::Indeterminate);
        };
        if !is_instance(first) || !is_instance(second) {
            return Ok(Value::Indeterminate);
        }
        let mut parts = self.parts(budget, first)?;
        for part in self.parts(budget, second)? {
            budget.take()?;
            insert_part(&mut parts, part)?;
        }
        self.whole_of(budget, parts)
    }

    /// The instance that consists of these.
    fn whole_of<'w>(&self, budget: &mut Budget, parts: Vec<Value<'w>>) -> Result<Value<'w>, Stop> {
        if let [part] = parts.as_slice() {
            return Ok(part.share()?);
        }
        match u32::try_from(joined_place(self.dictionary.schema)) {
            Ok(entity) => made(entity, parts, budget),
            Err(_) => Err(Stop::NotComputed),
        }
    }

    /// The value of an explicit attribute of an instance that was made.
    pub(crate) fn made_value<'w>(
        &self,
        entity: u32,
        values: &[Value<'w>],
        explicit: &Explicit,
    ) -> Result<Value<'w>, AllocError> {
        if entity == explicit.declarer {
            return element(values, explicit.own);
        }
        for part in values {
            if let Value::Made(own, inner) = part {
                if *own == explicit.declarer {
                    return element(inner, explicit.own);
                }
            }
        }
        Ok(Value::Indeterminate)
    }

    /// An instance with another value of an explicit attribute. One that has it not stays as it is.
    pub fn with_attribute<'w>(
        &'w self,
        budget: &mut Budget,
        name: u32,
        values: &[Value<'w>],
    ) -> Result<Value<'w>, Stop> {
        let [instance, value] = values else {
            return Ok(Value::Indeterminate);
        };
        let Some(explicit) = self.explicit_named(budget, instance, name)? else {
            return Ok(instance.share()?);
        };
        let given = match type_of(self.dictionary.schema, &explicit) {
            Some(texpr) => self.given(budget, DEEPEST, texpr, value)?,
            None => value.share()?,
        };
        let mut parts = Vec::new(budget.alloc());
        let mut is_there = false;
        for part in self.parts(budget, instance)? {
            budget.take()?;
            let own = is_part_of(&part, explicit.declarer);
            let part = if own {
                is_there = true;
                with_value(budget, &part, explicit.own, &given)?
            } else {
                part
            };
            push(&mut parts, part)?;
        }
        if !is_there {
            return Err(Stop::NotComputed);
        }
        self.whole_of(budget, parts)
    }

    /// The explicit attribute of a name that an instance has.
    fn explicit_named(
        &self,
        budget: &mut Budget,
        instance: &Value<'_>,
        name: u32,
    ) -> Result<Option<Explicit>, Stop> {
        match self.attribute_of(budget, instance.bare(), None, name)? {
            Some(attribute) => match attribute.form {
                Form::Explicit(explicit) => Ok(Some(explicit)),
                _ => Ok(None),
            },
            None => Ok(None),
        }
    }
}

/// Whether a value is an instance.
pub(crate) fn is_instance(value: &Value<'_>) -> bool {
    matches!(value.bare(), Value::Instance(_) | Value::Made(_, _))
}

/// The value at a place, shared.
fn element<'w>(values: &[Value<'w>], place: usize) -> Result<Value<'w>, AllocError> {
    match values.get(place) {
        Some(value) => value.share(),
        None => Ok(Value::Indeterminate),
    }
}

/// Whether a value is an instance that was made of this entity.
fn is_part_of(part: &Value<'_>, entity: u32) -> bool {
    match part {
        Value::Made(own, _) => *own == entity,
        _ => false,
    }
}

/// The entity of an instance that was made.
fn entity_of(part: &Value<'_>) -> u32 {
    match part {
        Value::Made(own, _) => *own,
        _ => u32::MAX,
    }
}

/// Adds a part in the order of the entities, unless one of its entity is there.
fn insert_part<'w>(parts: &mut Vec<Value<'w>>, part: Value<'w>) -> Result<(), AllocError> {
    let entity = entity_of(&part);
    let mut place: usize = 0;
    for other in parts.as_slice() {
        if entity_of(other) == entity {
            return Ok(());
        }
        if entity_of(other) < entity {
            place = place.saturating_add(1);
        }
    }
    let place = place.min(parts.len());
    parts.insert(place, part)?;
    Ok(())
}

/// An instance that was made, with another value at a place.
fn with_value<'w>(
    budget: &mut Budget,
    part: &Value<'w>,
    place: usize,
    value: &Value<'w>,
) -> Result<Value<'w>, Stop> {
    let Value::Made(entity, values) = part else {
        return Ok(part.share()?);
    };
    let mut changed = Vec::with_capacity(budget.alloc(), values.len())?;
    for at in 0..values.len() {
        let element = if at == place {
            value.share()?
        } else {
            values[at].share()?
        };
        push(&mut changed, element)?;
    }
    made(*entity, changed, budget)
}
