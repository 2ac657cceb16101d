//! What a schema and its program say of names, made once.

use crate::attributes::Attribute;
use crate::drafts::declarations_of;
use crate::selects::{TypeGraph, type_graph};
use crate::texts::{Texts, texts_of};
use p21_express::{TypeDecl, Under};
use p21_names::{Derivation, Inverse, Names};
use p21_schema::Schema;
use p21_values::{Budget, Item, ItemPlace, Stop};
use std::alloc::{AllocError, Global};

/// What the program of a schema says of attributes.
#[derive(Clone, Copy)]
pub struct Said<'p> {
    /// The names of attributes and items by their numbers.
    pub names: &'p Names,
    pub derivations: &'p [Derivation],
    pub inverses: &'p [Inverse],
    /// Of each function whether it is evaluated.
    pub is_evaluated: &'p [bool],
}

/// What a schema and its program say of names.
#[derive(Drop)]
pub struct Dictionary<'s> {
    pub(crate) schema: &'s Schema,
    pub(crate) names: &'s Names,
    /// Of each name the declarations of the attributes of this name.
    pub(crate) declarations: Vec<Vec<Attribute>>,
    /// Of each explicit attribute the number of its name.
    pub(crate) attribute_names: Vec<usize>,
    /// Of each explicit attribute the entity that newly declares it.
    pub(crate) declarers: Vec<u32>,
    /// Of each name the items of this name.
    items: Vec<Vec<ItemPlace>>,
    pub(crate) graph: TypeGraph,
    pub(crate) texts: Texts,
    /// Of each entity its place in an order in which those with fewer ancestors come first.
    pub(crate) ranks: Vec<usize>,
}

/// What a schema and its program say of names. An error says that memory ran out.
pub fn dictionary_of<'s>(
    alloc: Global,
    schema: &'s Schema,
    said: Said<'s>,
) -> Result<Dictionary<'s>, AllocError> {
    let ranks = ranks_of(alloc, schema)?;
    let declarations = declarations_of(alloc, schema, said, &ranks)?;
    let mut dictionary = Dictionary {
        schema,
        names: said.names,
        declarations,
        attribute_names: Vec::new(alloc),
        declarers: Vec::new(alloc),
        items: items_of(alloc, schema, said.names)?,
        graph: type_graph(alloc, schema)?,
        texts: texts_of(alloc, schema)?,
        ranks,
    };
    for place in 0..schema.declared().entities.len() {
        dictionary.add_attributes(place)?;
    }
    Ok(dictionary)
}

/// How many entities are the entity at a place or above it.
fn height(schema: &Schema, entity: usize) -> usize {
    let mut height: usize = 0;
    for place in 0..schema.declared().entities.len() {
        if let (Some(entity), Some(other)) = (schema.entity_at(entity), schema.entity_at(place)) {
            if schema.is_a(entity, other) {
                height = height.saturating_add(1);
            }
        }
    }
    height
}

/// Of each entity its place in an order in which those with fewer ancestors come first, and of these the one whose name is less.
fn ranks_of(alloc: Global, schema: &Schema) -> Result<Vec<usize>, AllocError> {
    let mut keys = Vec::new(alloc);
    for place in 0..schema.declared().entities.len() {
        if let Some(entity) = schema.entity_at(place) {
            keys.push((height(schema, place), schema.name_of(entity), place))?;
        }
    }
    keys.sort()?;
    let mut ranks = vec![in alloc; 0usize; keys.len()]?;
    for rank in 0..keys.len() {
        let (_, _, place) = keys[rank];
        if let Some(slot) = ranks.get_mut(place) {
            *slot = rank;
        }
    }
    Ok(ranks)
}

/// Of each name the items of this name.
fn items_of(
    alloc: Global,
    schema: &Schema,
    names: &Names,
) -> Result<Vec<Vec<ItemPlace>>, AllocError> {
    let mut items = Vec::new(alloc);
    for _name in 0..names.len() {
        items.push(Vec::new(alloc))?;
    }
    let types = &schema.declared().types;
    for place in 0..types.len() {
        add_items(names, &mut items, place, &types[place])?;
    }
    Ok(items)
}

/// Adds the items of an enumeration.
fn add_items(
    names: &Names,
    items: &mut Vec<Vec<ItemPlace>>,
    place: usize,
    declared: &TypeDecl,
) -> Result<(), AllocError> {
    let (Under::Items(list), Ok(enumeration)) = (&declared.under, u32::try_from(place)) else {
        return Ok(());
    };
    let mut item: u32 = 0;
    for name in list {
        if let Some(number) = names.number(name) {
            if let Some(places) = items.get_mut(number) {
                places.push(ItemPlace { enumeration, item })?;
            }
        }
        item = item.saturating_add(1);
    }
    Ok(())
}

impl<'s> Dictionary<'s> {
    /// Notes the explicit attributes that the entity at a place newly declares.
    fn add_attributes(&mut self, place: usize) -> Result<(), AllocError> {
        let schema = self.schema;
        let Some(declared) = schema.declared().entities.get(place) else {
            return Ok(());
        };
        for attribute in &declared.attributes {
            if attribute.of.is_none() {
                let name = self.names.number(&attribute.name).unwrap_or(usize::MAX);
                self.attribute_names.push(name)?;
                self.declarers
                    .push(u32::try_from(place).unwrap_or(u32::MAX))?;
            }
        }
        Ok(())
    }

    /// The number of the name of the explicit attribute at a place, and the entity that newly declares it.
    pub(crate) fn declared_at(&self, attribute: usize) -> Option<(u32, u32)> {
        let name = *self.attribute_names.get(attribute)?;
        let declarer = *self.declarers.get(attribute)?;
        Some((u32::try_from(name).ok()?, declarer))
    }

    /// The type behind those whose names alone stand under others. Each of them takes a step.
    pub(crate) fn end_of(&self, budget: &mut Budget, defined: u32) -> Result<u32, Stop> {
        let mut end = defined;
        for _type in 0..self.graph.under.len() {
            match self.graph.under.get(end as usize) {
                Some(Some(next)) => end = *next,
                _ => return Ok(end),
            }
            budget.take()?;
        }
        Ok(end)
    }

    /// The item of a name in an enumeration, if it has one.
    pub(crate) fn item(&self, enumeration: u32, name: &[u8]) -> Option<Item> {
        let number = self.names.number(name)?;
        let places = self.items.get(number)?;
        let place = places
            .iter()
            .find(|place| place.enumeration == enumeration)?;
        Some(Item {
            name: u32::try_from(number).ok()?,
            place: Some(*place),
        })
    }
}
