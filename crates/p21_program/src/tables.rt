//! What names of the schema mean wherever they stand.

use crate::inverse::inverse_name;
use crate::texts::Texts;
use p21_algorithm::{ConstantTree, Derived, Found, Item, Owner, Piece, Routine, Source};
use p21_express::{EntityDecl, TypeDecl, Under};
use p21_names::Names;
use p21_schema::{EntityId, Schema};
use p21_values::ItemPlace;
use std::alloc::{AllocError, Global};

/// What a name of an attribute or an item means.
#[derive(Drop)]
pub(crate) struct Meaning {
    /// The places of the entities that declare an attribute of this name.
    pub(crate) declarers: Vec<usize>,
    /// The items of this name.
    pub(crate) items: Vec<ItemPlace>,
}

/// The names of attributes and items, and what each means.
#[derive(Drop)]
pub(crate) struct Meanings {
    pub(crate) names: Names,
    pub(crate) meanings: Vec<Meaning>,
}

/// A function of the schema, or a constant, which is a function of nothing.
#[derive(Clone, Copy)]
pub(crate) enum Called<'a, 't> {
    Function(&'t Routine<'a>),
    Constant(&'t ConstantTree<'a>),
}

/// The functions and constants of the schema, each at the place of its name.
#[derive(Drop)]
pub(crate) struct Algorithms {
    pub(crate) names: Names,
    /// Of each the place among what was found in the text.
    pub(crate) places: Vec<usize>,
}

/// What names of the schema mean wherever they stand, and the literals.
#[derive(Clone, Copy)]
pub(crate) struct Tables<'a, 't> {
    pub(crate) alloc: Global,
    pub(crate) schema: &'t Schema,
    pub(crate) source: Source<'a>,
    pub(crate) texts: &'a Texts,
    pub(crate) meanings: &'t Meanings,
    /// What was found in the text.
    pub(crate) found: &'t [Found<'a>],
    pub(crate) algorithms: &'t Algorithms,
    /// Of each function and constant, from the first on, the string that it is as a constant of literals, constants before it and `+` alone.
    pub(crate) constants: &'t [Option<Vec<u8>>],
}

impl<'a, 't> Tables<'a, 't> {
    /// The string that a constant of a name is.
    pub(crate) fn constant(&self, name: &[u8]) -> Option<&'t [u8]> {
        match self.constants.get(self.algorithms.names.number(name)?)? {
            Some(text) => Some(text.as_slice()),
            None => None,
        }
    }

    /// The place of a function or constant among the functions, and what it is.
    pub(crate) fn find(&self, name: &[u8]) -> Option<(usize, Called<'a, 't>)> {
        let place = self.algorithms.names.number(name)?;
        Some((place, self.called(place)?))
    }

    /// The function or constant at a place.
    pub(crate) fn called(&self, place: usize) -> Option<Called<'a, 't>> {
        let found = self.found.get(*self.algorithms.places.get(place)?)?;
        match &found.item {
            Item::Routine(routine) => Some(Called::Function(routine)),
            Item::Constant(constant) => Some(Called::Constant(constant)),
            _ => None,
        }
    }
}

impl Meanings {
    fn new(alloc: Global, schema: &Schema) -> Meanings {
        Meanings {
            names: Names::new(alloc, schema.hash_key()),
            meanings: Vec::new(alloc),
        }
    }

    /// The number of a name, which is added if it is not there.
    fn add(&mut self, alloc: Global, name: &[u8]) -> Result<usize, AllocError> {
        let number = self.names.add(alloc, name)?;
        if number == self.meanings.len() {
            self.meanings.push(Meaning {
                declarers: Vec::new(alloc),
                items: Vec::new(alloc),
            })?;
        }
        Ok(number)
    }

    /// An entity declares an attribute of this name.
    fn declare(&mut self, alloc: Global, entity: EntityId, name: &[u8]) -> Result<(), AllocError> {
        let number = self.add(alloc, name)?;
        if let Some(meaning) = self.meanings.get_mut(number) {
            meaning.declarers.push(entity.place())?;
        }
        Ok(())
    }

    /// An enumeration has an item of this name.
    fn add_item(&mut self, alloc: Global, item: ItemPlace, name: &[u8]) -> Result<(), AllocError> {
        let number = self.add(alloc, name)?;
        if let Some(meaning) = self.meanings.get_mut(number) {
            meaning.items.push(item)?;
        }
        Ok(())
    }

    /// The number of an attribute's name.
    pub(crate) fn attribute(&self, name: &[u8]) -> Option<u32> {
        let number = self.names.number(name)?;
        if self.meanings.get(number)?.declarers.is_empty() {
            return None;
        }
        u32::try_from(number).ok()
    }

    /// How many attributes and items have a name.
    pub(crate) fn count(&self, name: &[u8]) -> usize {
        match self.names.number(name) {
            Some(number) => match self.meanings.get(number) {
                Some(meaning) => meaning.declarers.len().saturating_add(meaning.items.len()),
                None => 0,
            },
            None => 0,
        }
    }

    /// The number of the name of an attribute that the entity at a place declares or inherits.
    pub(crate) fn attribute_of(&self, schema: &Schema, entity: usize, name: &[u8]) -> Option<u32> {
        let number = self.names.number(name)?;
        if is_one_of(schema, entity, &self.meanings.get(number)?.declarers) {
            u32::try_from(number).ok()
        } else {
            None
        }
    }

    /// The number of the name of an item.
    pub(crate) fn item(&self, name: &[u8]) -> Option<u32> {
        let number = self.names.number(name)?;
        if self.meanings.get(number)?.items.is_empty() {
            return None;
        }
        u32::try_from(number).ok()
    }

    /// Where the item of a name stands, if one enumeration alone has it.
    pub(crate) fn only_item(&self, number: u32) -> Option<ItemPlace> {
        match self.meanings.get(number as usize)?.items.as_slice() {
            [only] => Some(*only),
            _ => None,
        }
    }

    /// Where the item of a name stands in an enumeration.
    pub(crate) fn item_of(&self, number: u32, enumeration: u32) -> Option<ItemPlace> {
        let meaning = self.meanings.get(number as usize)?;
        meaning
            .items
            .iter()
            .find(|item| item.enumeration == enumeration)
            .copied()
    }
}

/// Whether the entity at a place is one of those at other places, or has one of them as an ancestor.
fn is_one_of(schema: &Schema, entity: usize, others: &[usize]) -> bool {
    let Some(entity) = schema.entity_at(entity) else {
        return false;
    };
    for other in others {
        if let Some(other) = schema.entity_at(*other) {
            if schema.is_a(entity, other) {
                return true;
            }
        }
    }
    false
}

/// Adds the attributes that an entity declares.
fn add_entity(
    alloc: Global,
    meanings: &mut Meanings,
    entity: EntityId,
    declared: &EntityDecl,
) -> Result<(), AllocError> {
    for attribute in &declared.attributes {
        meanings.declare(alloc, entity, &attribute.name)?;
    }
    for attribute in &declared.derived {
        meanings.declare(alloc, entity, &attribute.name)?;
    }
    Ok(())
}

/// Adds the items that a type declares.
fn add_type(
    alloc: Global,
    meanings: &mut Meanings,
    place: usize,
    declared: &TypeDecl,
) -> Result<(), AllocError> {
    let Under::Items(items) = &declared.under else {
        return Ok(());
    };
    let Ok(enumeration) = u32::try_from(place) else {
        return Ok(());
    };
    let mut item = 0;
    for name in items {
        meanings.add_item(alloc, ItemPlace { enumeration, item }, name)?;
        item = item.saturating_add(1);
    }
    Ok(())
}

/// Adds a name that an attribute of DERIVE takes by RENAMED.
fn add_renamed(
    alloc: Global,
    meanings: &mut Meanings,
    schema: &Schema,
    found: &Found,
) -> Result<(), AllocError> {
    let Owner::Entity(owner) = found.owner else {
        return Ok(());
    };
    let Some(entity) = schema.entity(owner.text) else {
        return Ok(());
    };
    if let Item::Derived(
        Derived {
            renamed: Some(name),
            ..
        },
    ) = &found.item
    {
        meanings.declare(alloc, entity, name.text)?;
    }
    Ok(())
}

/// The names of the attributes and items of a schema, and what they mean.
pub(crate) fn meanings_of(
    alloc: Global,
    schema: &Schema,
    pieces: &[Piece],
    found: &[Found],
) -> Result<Meanings, AllocError> {
    let mut meanings = Meanings::new(alloc, schema);
    let declared = schema.declared();
    for place in 0..declared.entities.len() {
        if let Some(entity) = schema.entity_at(place) {
            add_entity(alloc, &mut meanings, entity, &declared.entities[place])?;
        }
    }
    for place in 0..declared.types.len() {
        add_type(alloc, &mut meanings, place, &declared.types[place])?;
    }
    for piece in pieces {
        if let Some(inverse) = inverse_name(piece) {
            if let Some(entity) = schema.entity(inverse.entity) {
                meanings.declare(alloc, entity, inverse.name)?;
            }
        }
    }
    for found in found {
        add_renamed(alloc, &mut meanings, schema, found)?;
    }
    Ok(meanings)
}

/// The functions of a schema, and after them its constants.
pub(crate) fn algorithms_of(
    alloc: Global,
    schema: &Schema,
    found: &[Found<'_>],
) -> Result<Algorithms, AllocError> {
    let mut algorithms = Algorithms {
        names: Names::new(alloc, schema.hash_key()),
        places: Vec::new(alloc),
    };
    for (place, found) in found.iter().enumerate() {
        if let Item::Routine(routine) = &found.item {
            if routine.result.is_some() {
                algorithms.add(alloc, routine.name.text, place)?;
            }
        }
    }
    for (place, found) in found.iter().enumerate() {
        if let Item::Constant(constant) = &found.item {
            algorithms.add(alloc, constant.name.text, place)?;
        }
    }
    Ok(algorithms)
}

impl Algorithms {
    /// A further one, if its name is a new one.
    fn add(&mut self, alloc: Global, name: &[u8], place: usize) -> Result<(), AllocError> {
        if self.names.number(name).is_none() {
            self.names.add(alloc, name)?;
            self.places.push(place)?;
        }
        Ok(())
    }
}
