//! The names of the types of a value.

use crate::made::joined_place;
use crate::push::push;
use crate::values::{LOGICAL, NUMBER};
use crate::world::FileWorld;
use p21_schema::{Resolved, ResolvedExpr};
use p21_values::{Budget, Characters, Kind, Stop, Truth, Value, aggregate};
use std::alloc::Global;

/// How many places are compared in one step.
const PLACES_A_STEP: usize = 64;

/// The entities and types of a value, and further names.
#[derive(Drop)]
struct Named<'w> {
    entities: Vec<u32>,
    types: Vec<u32>,
    names: Vec<Value<'w>>,
}

/// Adds a place that is not there yet.
fn add_place(budget: &mut Budget, places: &mut Vec<u32>, place: u32) -> Result<(), Stop> {
    budget.take()?;
    for at in 0..places.len() {
        if at % PLACES_A_STEP == PLACES_A_STEP - 1 {
            budget.take()?;
        }
        if places[at] == place {
            return Ok(());
        }
    }
    push(places, place)?;
    Ok(())
}

impl<'w> Named<'w> {
    fn new(alloc: Global) -> Named<'w> {
        Named {
            entities: Vec::new(alloc),
            types: Vec::new(alloc),
            names: Vec::new(alloc),
        }
    }

    fn add(&mut self, name: &'w [u8]) -> Result<(), Stop> {
        push(&mut self.names, Value::Text(Characters::Bytes(name)))?;
        Ok(())
    }

    /// Adds the names of a number.
    fn add_number(&mut self, is_integer: bool) -> Result<(), Stop> {
        if is_integer {
            self.add(b"INTEGER")?;
        }
        self.add(b"REAL")?;
        self.add(b"NUMBER")
    }

    /// Adds the names of a truth.
    fn add_truth(&mut self, is_boolean: bool) -> Result<(), Stop> {
        if is_boolean {
            self.add(b"BOOLEAN")?;
        }
        self.add(b"LOGICAL")
    }

    /// Adds the name of a kind of aggregates.
    fn add_kind(&mut self, kind: Kind) -> Result<(), Stop> {
        match kind {
            Kind::Array(_) => self.add(b"ARRAY"),
            Kind::Bag => self.add(b"BAG"),
            Kind::List => self.add(b"LIST"),
            Kind::Set => self.add(b"SET"),
            Kind::Initializer => Ok(()),
        }
    }

    /// Adds the names of a type that is no defined one.
    fn add_plain(&mut self, texpr: &ResolvedExpr) -> Result<(), Stop> {
        match texpr {
            ResolvedExpr::Integer => self.add_number(true),
            ResolvedExpr::Number => self.add(b"NUMBER"),
            ResolvedExpr::Boolean => self.add_truth(true),
            ResolvedExpr::Logical => self.add(b"LOGICAL"),
            ResolvedExpr::Real => self.add_number(false),
            ResolvedExpr::Text(_) => self.add(b"STRING"),
            ResolvedExpr::Binary(_) => self.add(b"BINARY"),
            ResolvedExpr::Array { .. } => self.add(b"ARRAY"),
            ResolvedExpr::List { .. } => self.add(b"LIST"),
            ResolvedExpr::Set { .. } => self.add(b"SET"),
            ResolvedExpr::Bag { .. } => self.add(b"BAG"),
            ResolvedExpr::Named(_) => Ok(()),
        }
    }
}

impl<'x, 'a> FileWorld<'x, 'a> {
    /// TYPEOF: the names of the types of a value.
    pub fn types<'w>(&'w self, budget: &mut Budget, of: &Value<'w>) -> Result<Value<'w>, Stop> {
        let mut named = Named::new(budget.alloc());
        self.add_types(budget, &mut named, of)?;
        self.add_selects(budget, &mut named)?;
        self.add_texts(&mut named)?;
        aggregate(Kind::Set, named.names, budget)
    }

    fn add_types<'w>(
        &'w self,
        budget: &mut Budget,
        named: &mut Named<'w>,
        of: &Value<'w>,
    ) -> Result<(), Stop> {
        match of {
            Value::Indeterminate => Ok(()),
            Value::Logical(Truth::Unknown) => named.add_truth(false),
            Value::Logical(_) => named.add_truth(true),
            Value::Integer(_) => named.add_number(true),
            Value::Real(_) => named.add_number(false),
            Value::Text(_) => named.add(b"STRING"),
            Value::Binary(_) => named.add(b"BINARY"),
            Value::Enumerated(item) => match item.place {
                Some(place) => add_place(budget, &mut named.types, place.enumeration),
                None => Ok(()),
            },
            Value::Instance(place) => {
                named.entities = self.all_entities(budget, self.entities.of(*place))?;
                Ok(())
            }
            Value::Made(entity, values) => {
                named.entities = self.made_entities(budget, *entity, values)?;
                Ok(())
            }
            Value::Typed(defined, _) => self.add_defined(budget, named, *defined),
            Value::Aggregate(kind, _) => named.add_kind(*kind),
        }
    }

    /// Adds a defined type, and those whose names stand under it.
    fn add_defined<'w>(
        &'w self,
        budget: &mut Budget,
        named: &mut Named<'w>,
        defined: u32,
    ) -> Result<(), Stop> {
        if defined == self.type_behind(NUMBER) {
            return named.add(b"NUMBER");
        }
        if defined == self.type_behind(LOGICAL) {
            return named.add(b"LOGICAL");
        }
        let mut next = defined;
        for _type in 0..self.dictionary.graph.under.len() {
            add_place(budget, &mut named.types, next)?;
            match self.dictionary.graph.under.get(next as usize) {
                Some(Some(under)) => next = *under,
                _ => break,
            }
        }
        match self.dictionary.schema.type_at(next as usize) {
            Some(id) => match self.dictionary.schema.under(id) {
                Resolved::Plain(texpr) => named.add_plain(texpr),
                _ => Ok(()),
            },
            None => Ok(()),
        }
    }

    /// Entities, and all above them.
    pub(crate) fn all_entities(
        &self,
        budget: &mut Budget,
        entities: &[u32],
    ) -> Result<Vec<u32>, Stop> {
        let mut all = Vec::new(budget.alloc());
        for entity in entities {
            add_place(budget, &mut all, *entity)?;
        }
        for at in 0..self.dictionary.texts.entities.len() {
            let Some(entity) = all.get(at) else {
                return Ok(all);
            };
            let entity = *entity;
            if let Some(id) = self.dictionary.schema.entity_at(entity as usize) {
                for above in self.dictionary.schema.supertypes(id) {
                    let place = u32::try_from(above.place()).unwrap_or(u32::MAX);
                    add_place(budget, &mut all, place)?;
                }
            }
        }
        Ok(all)
    }

    /// The entities of an instance that was made, and all above them.
    fn made_entities(
        &self,
        budget: &mut Budget,
        entity: u32,
        values: &[Value<'_>],
    ) -> Result<Vec<u32>, Stop> {
        let mut own = Vec::new(budget.alloc());
        if entity as usize == joined_place(self.dictionary.schema) {
            for part in values {
                if let Value::Made(entity, _) = part {
                    push(&mut own, *entity)?;
                }
            }
        } else {
            push(&mut own, entity)?;
        }
        self.all_entities(budget, &own)
    }

    /// Adds the SELECTs that have one of the entities or types, and those that have these.
    fn add_selects(&self, budget: &mut Budget, named: &mut Named<'_>) -> Result<(), Stop> {
        let graph = &self.dictionary.graph;
        for at in 0..named.entities.len() {
            if let Some(selects) = graph.of_entities.get(named.entities[at] as usize) {
                for select in selects {
                    add_place(budget, &mut named.types, *select)?;
                }
            }
        }
        for at in 0..graph.of_types.len() {
            let Some(defined) = named.types.get(at) else {
                return Ok(());
            };
            if let Some(selects) = graph.of_types.get(*defined as usize) {
                for select in selects {
                    add_place(budget, &mut named.types, *select)?;
                }
            }
        }
        Ok(())
    }

    /// Adds the names of the entities and types.
    fn add_texts<'w>(&'w self, named: &mut Named<'w>) -> Result<(), Stop> {
        let texts = &self.dictionary.texts;
        for at in 0..texts.entities.len() {
            match named.entities.get(at) {
                Some(place) => {
                    if let Some(text) = texts.entities.get(*place as usize) {
                        named.add(text)?;
                    }
                }
                None => break,
            }
        }
        for at in 0..texts.types.len() {
            match named.types.get(at) {
                Some(place) => {
                    if let Some(text) = texts.types.get(*place as usize) {
                        named.add(text)?;
                    }
                }
                None => break,
            }
        }
        Ok(())
    }
}
