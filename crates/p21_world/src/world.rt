//! The instances of a file as a world that is asked.

use crate::attributes::{Attribute, Form, OfEntities, in_force, type_of};
use crate::dictionary::Dictionary;
use crate::entities::{RecordEntities, is_of, record_entities};
use crate::made::{OfMade, OfRecords, is_instance};
use crate::mentions::{Mentions, mentions_of, no_mentions};
use p21_join::Model;
use p21_schema::{EntityId, ResolvedExpr};
use p21_values::{Budget, Stop, Truth, Value};
use std::alloc::{AllocError, Global};

/// What is answered about an attribute.
#[derive(Drop)]
pub enum Answer<'w> {
    /// Its value.
    Value(Value<'w>),
    /// What the function at this place gives for the instance.
    Call(usize),
}

/// The instances of a file, by the declarations and the program of a schema.
#[derive(Drop)]
pub struct FileWorld<'x, 'a> {
    pub(crate) dictionary: &'x Dictionary<'x>,
    pub(crate) model: &'x Model<'a>,
    pub(crate) entities: RecordEntities,
    pub(crate) mentions: Mentions,
}

impl<'x, 'a> FileWorld<'x, 'a> {
    /// The world of a model's instances, by the entity of each simple one. Who refers to an instance is known only if it is asked. An error says that memory ran out.
    pub fn new(
        alloc: Global,
        dictionary: &'x Dictionary<'x>,
        model: &'x Model<'a>,
        simple: &[Option<EntityId>],
        asks_users: bool,
    ) -> Result<FileWorld<'x, 'a>, AllocError> {
        let schema = dictionary.schema;
        let entities = record_entities(alloc, schema, model, simple)?;
        let mentions = if asks_users {
            mentions_of(alloc, schema, model, &entities)?
        } else {
            no_mentions(alloc)
        };
        Ok(FileWorld {
            dictionary,
            model,
            entities,
            mentions,
        })
    }

    /// The entities that the records of the instance at a place name.
    pub fn entities_of(&self, place: u32) -> &[u32] {
        self.entities.of(place)
    }

    /// The instances.
    pub fn model(&self) -> &Model<'a> {
        self.model
    }

    /// The declaration that counts for an attribute of an instance, of those of a name.
    pub(crate) fn attribute_of(
        &self,
        budget: &mut Budget,
        instance: &Value<'_>,
        seen_from: Option<u32>,
        name: u32,
    ) -> Result<Option<&Attribute>, Stop> {
        let schema = self.dictionary.schema;
        let Some(list) = self.dictionary.declarations.get(name as usize) else {
            return Ok(None);
        };
        match instance {
            Value::Instance(place) => {
                let of = OfRecords(self.entities.of(*place));
                in_force(schema, list, seen_from, &of, budget)
            }
            Value::Made(entity, values) => {
                let of = OfMade(*entity, values.as_slice());
                in_force(schema, list, seen_from, &of, budget)
            }
            _ => Ok(None),
        }
    }

    /// Whether a value is an instance of an entity.
    pub fn is_entity(&self, of: &Value<'_>, entity: u32) -> bool {
        let schema = self.dictionary.schema;
        match of {
            Value::Instance(place) => is_of(schema, self.entities.of(*place), entity),
            Value::Made(own, values) => { OfMade(*own, values.as_slice()).is_of(schema, entity) }
            _ => false,
        }
    }

    /// Whether a value is an instance of an entity and those above it alone; UNKNOWN of no value.
    pub fn is_exactly(&self, of: &Value<'_>, entity: u32) -> Truth {
        match of {
            Value::Indeterminate => Truth::Unknown,
            Value::Instance(place) => Truth::of(self.entities.of(*place) == [entity].as_slice()),
            Value::Made(own, _) => Truth::of(*own == entity),
            _ => Truth::False,
        }
    }

    /// A value as one of an entity; `?` where it is none.
    pub fn group<'w>(&self, of: &Value<'w>, entity: u32) -> Result<Value<'w>, AllocError> {
        if is_instance(of) && self.is_entity(of.bare(), entity) {
            of.share()
        } else {
            Ok(Value::Indeterminate)
        }
    }

    /// What is answered about the attribute of a name of a value: of one that the given entity declares or inherits, where one is given.
    pub fn attribute<'w>(
        &'w self,
        budget: &mut Budget,
        of: &Value<'w>,
        seen_from: Option<u32>,
        name: u32,
    ) -> Result<Answer<'w>, Stop> {
        if let Some(entity) = seen_from {
            if !self.is_entity(of, entity) {
                return Ok(Answer::Value(Value::Indeterminate));
            }
        }
        let Some(attribute) = self.attribute_of(budget, of, seen_from, name)? else {
            return Ok(Answer::Value(Value::Indeterminate));
        };
        match &attribute.form {
            Form::Explicit(explicit) => match of {
                Value::Instance(place) => {
                    Ok(Answer::Value(self.explicit_value(budget, *place, explicit)?))
                }
                Value::Made(entity, values) => {
                    Ok(Answer::Value(self.made_value(*entity, values, explicit)?))
                }
                _ => Ok(Answer::Value(Value::Indeterminate)),
            },
            Form::Derived(function) => Ok(Answer::Call(*function)),
            Form::NotComputed => Err(Stop::NotComputed),
            Form::Inverse(form, role) => {
                Ok(Answer::Value(self.inverse(budget, of, *form, *role)?))
            }
        }
    }

    /// Whether an attribute of an instance of the file is explicit.
    pub(crate) fn is_explicit(
        &self,
        budget: &mut Budget,
        place: u32,
        attribute: usize,
    ) -> Result<bool, Stop> {
        Ok(self.declared_type(budget, place, attribute)?.is_some())
    }

    /// The type of an explicit attribute of an instance of the file, by the attribute's place among those of the schema.
    pub fn declared_type(
        &self,
        budget: &mut Budget,
        place: u32,
        attribute: usize,
    ) -> Result<Option<&'x ResolvedExpr>, Stop> {
        match self.declared(budget, place, attribute)? {
            Some(Form::Explicit(explicit)) => Ok(type_of(self.dictionary.schema, &explicit)),
            _ => Ok(None),
        }
    }

    /// The value of an explicit attribute of an instance of the file, likewise.
    pub fn value_of<'w>(
        &'w self,
        budget: &mut Budget,
        place: u32,
        attribute: usize,
    ) -> Result<Value<'w>, Stop> {
        self.declared_value(budget, place, attribute)
    }
}
