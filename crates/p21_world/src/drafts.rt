//! The declarations of each name of an attribute, in the order in which they are looked at.

use crate::attributes::{Attribute, Explicit, Form};
use crate::dictionary::Said;
use p21_names::{Derivation, Inverse};
use p21_schema::{Declaration, EntityId, Form as Declared, Schema};
use std::alloc::{AllocError, Global};

/// The declarations of a name.
#[derive(Drop)]
struct Drafts {
    /// Those that newly declare an attribute.
    new: Vec<Attribute>,
    /// Those that declare one again.
    again: Vec<Attribute>,
}

/// What declarations are made of.
#[derive(Clone, Copy)]
struct Known<'s, 'p> {
    alloc: Global,
    schema: &'s Schema,
    said: Said<'p>,
    /// Of each entity its place in an order in which those with fewer ancestors come first, and of these the one whose name is less.
    ranks: &'p [usize],
    /// Of each entity the places of its derived attributes among those of the program.
    derived: &'p [Vec<usize>],
}

/// The declarations of each name of the program: first those of the attribute whose entity has the fewest ancestors; of an attribute those that declare it
/// again, lower ones first.
pub(crate) fn declarations_of(
    alloc: Global,
    schema: &Schema,
    said: Said<'_>,
    ranks: &[usize],
) -> Result<Vec<Vec<Attribute>>, AllocError> {
    let derived = derived_by_entity(alloc, schema, said)?;
    let known = Known {
        alloc,
        schema,
        said,
        ranks,
        derived: &derived,
    };
    let mut drafts = Vec::new(alloc);
    for _name in 0..said.names.len() {
        drafts.push(Drafts {
            new: Vec::new(alloc),
            again: Vec::new(alloc),
        })?;
    }
    for place in 0..schema.declared().entities.len() {
        add_explicit(&known, &mut drafts, place)?;
    }
    for derivation in said.derivations {
        add_derived(&known, &mut drafts, derivation)?;
    }
    for inverse in said.inverses {
        add_inverse(&mut drafts, inverse)?;
    }
    for derivation in said.derivations {
        add_derived_again(&known, &mut drafts, derivation)?;
    }
    for inverse in said.inverses {
        add_inverse_again(&known, &mut drafts, inverse)?;
    }
    ordered(&known, drafts)
}

/// Of each entity the places of its derived attributes.
fn derived_by_entity(
    alloc: Global,
    schema: &Schema,
    said: Said<'_>,
) -> Result<Vec<Vec<usize>>, AllocError> {
    let mut derived = Vec::new(alloc);
    for _entity in 0..schema.declared().entities.len() {
        derived.push(Vec::new(alloc))?;
    }
    for place in 0..said.derivations.len() {
        let entity = said.derivations[place].entity as usize;
        if let Some(places) = derived.get_mut(entity) {
            places.push(place)?;
        }
    }
    Ok(derived)
}

fn number(place: usize) -> u32 {
    u32::try_from(place).unwrap_or(u32::MAX)
}

/// Adds the explicit attributes that an entity newly declares, and their further declarations.
fn add_explicit(
    known: &Known<'_, '_>,
    drafts: &mut Vec<Drafts>,
    place: usize,
) -> Result<(), AllocError> {
    let Some(declared) = known.schema.declared().entities.get(place) else {
        return Ok(());
    };
    let mut own: usize = 0;
    for attribute in &declared.attributes {
        if attribute.of.is_none() {
            if let Some(name) = known.said.names.number(&attribute.name) {
                add_declarations(known, drafts, place, own, name)?;
            }
            own = own.saturating_add(1);
        }
    }
    Ok(())
}

/// Adds the declarations of an explicit attribute, by its place among those that the entity newly declares.
fn add_declarations(
    known: &Known<'_, '_>,
    drafts: &mut Vec<Drafts>,
    place: usize,
    own: usize,
    name: usize,
) -> Result<(), AllocError> {
    let Some(entity) = known.schema.entity_at(place) else {
        return Ok(());
    };
    let count = known.schema.own_count(entity);
    if own >= count {
        return Ok(());
    }
    let attribute = known.schema.own(entity, own);
    let above = known.schema.row_count(entity).saturating_sub(count);
    let position = Explicit {
        attribute: attribute.place(),
        declarer: number(place),
        own,
        row: above.saturating_add(own),
        declaration: 0,
    };
    let Some(list) = drafts.get_mut(name) else {
        return Ok(());
    };
    for (at, declaration) in known.schema.declarations(attribute).iter().enumerate() {
        let explicit = Explicit {
            declaration: at,
            ..position
        };
        let added = Attribute {
            origin: position.declarer,
            entity: number(declaration.entity.place()),
            form: form_of(known, explicit, declaration, name),
        };
        if declaration.entity.place() == place {
            list.new.push(added)?;
        } else {
            list.again.push(added)?;
        }
    }
    Ok(())
}

/// What gives the value of an explicit attribute by a declaration of it.
fn form_of(
    known: &Known<'_, '_>,
    explicit: Explicit,
    declaration: &Declaration,
    name: usize,
) -> Form {
    match &declaration.form {
        Declared::Explicit { .. } => Form::Explicit(explicit),
        Declared::Derived => derived_form(known, declaration.entity, name),
    }
}

/// What gives the value of the attribute that an entity derives.
fn derived_form(known: &Known<'_, '_>, entity: EntityId, name: usize) -> Form {
    let Some(places) = known.derived.get(entity.place()) else {
        return Form::NotComputed;
    };
    for place in places {
        if let Some(derivation) = known.said.derivations.get(*place) {
            if derivation.attribute as usize == name {
                return function_form(known, derivation.function);
            }
        }
    }
    Form::NotComputed
}

fn function_form(known: &Known<'_, '_>, function: usize) -> Form {
    if known.said.is_evaluated.get(function) == Some(&true) {
        Form::Derived(function)
    } else {
        Form::NotComputed
    }
}

/// Adds an attribute that is newly declared in DERIVE.
fn add_derived(
    known: &Known<'_, '_>,
    drafts: &mut Vec<Drafts>,
    derivation: &Derivation,
) -> Result<(), AllocError> {
    if derivation.redeclared_of.is_some() {
        return Ok(());
    }
    let form = function_form(known, derivation.function);
    if let Some(list) = drafts.get_mut(derivation.attribute as usize) {
        list.new.push(Attribute {
            origin: derivation.entity,
            entity: derivation.entity,
            form,
        })?;
    }
    Ok(())
}

/// Adds an attribute that is newly declared in INVERSE.
fn add_inverse(drafts: &mut Vec<Drafts>, inverse: &Inverse) -> Result<(), AllocError> {
    if inverse.redeclared_of.is_some() {
        return Ok(());
    }
    if let Some(list) = drafts.get_mut(inverse.attribute as usize) {
        list.new.push(Attribute {
            origin: inverse.entity,
            entity: inverse.entity,
            form: Form::Inverse(inverse.form, inverse.role),
        })?;
    }
    Ok(())
}

/// The entity that newly declares the attribute that an entity has, and whether it is explicit there.
fn origin_of(known: &Known<'_, '_>, list: &Drafts, entity: u32) -> Option<(u32, bool)> {
    for attribute in &list.new {
        if crate::entities::is_a(known.schema, entity, attribute.origin) {
            return Some((
                attribute.origin,
                matches!(attribute.form, Form::Explicit(_)),
            ));
        }
    }
    None
}

/// Adds an attribute that is declared again in DERIVE, and was no explicit one.
fn add_derived_again(
    known: &Known<'_, '_>,
    drafts: &mut Vec<Drafts>,
    derivation: &Derivation,
) -> Result<(), AllocError> {
    let form = function_form(known, derivation.function);
    add_again(
        known,
        drafts,
        derivation.redeclared_of,
        derivation.attribute,
        derivation.entity,
        form,
    )
}

/// Adds an attribute that is declared again in INVERSE.
fn add_inverse_again(
    known: &Known<'_, '_>,
    drafts: &mut Vec<Drafts>,
    inverse: &Inverse,
) -> Result<(), AllocError> {
    let form = Form::Inverse(inverse.form, inverse.role);
    add_again(
        known,
        drafts,
        inverse.redeclared_of,
        inverse.attribute,
        inverse.entity,
        form,
    )
}

/// Adds an attribute that is declared again, unless it is an explicit one.
fn add_again(
    known: &Known<'_, '_>,
    drafts: &mut Vec<Drafts>,
    redeclared_of: Option<u32>,
    name: u32,
    entity: u32,
    form: Form,
) -> Result<(), AllocError> {
    let Some(of) = redeclared_of else {
        return Ok(());
    };
    let Some(list) = drafts.get_mut(name as usize) else {
        return Ok(());
    };
    match origin_of(known, list, of) {
        Some((origin, false)) => {
            list.again.push(Attribute {
                origin,
                entity,
                form,
            })?;
            Ok(())
        }
        _ => Ok(()),
    }
}

/// The declarations of each name in their order.
fn ordered(known: &Known<'_, '_>, drafts: Vec<Drafts>) -> Result<Vec<Vec<Attribute>>, AllocError> {
    let mut all = Vec::new(known.alloc);
    for draft in drafts {
        let Drafts { new, again } = draft;
        let mut new = new;
        let mut again = again;
        new.sort_by_key(|attribute| rank(known, attribute.entity))?;
        again.sort_by_key(|attribute| rank(known, attribute.entity))?;
        let mut list = Vec::new(known.alloc);
        for attribute in &new {
            push_again(&mut list, &again, attribute.origin)?;
            list.push(*attribute)?;
        }
        all.push(list)?;
    }
    Ok(all)
}

fn rank(known: &Known<'_, '_>, entity: u32) -> usize {
    match known.ranks.get(entity as usize) {
        Some(rank) => *rank,
        None => usize::MAX,
    }
}

/// Adds the declarations that declare the attribute of an entity again, the last first.
fn push_again(
    list: &mut Vec<Attribute>,
    again: &[Attribute],
    origin: u32,
) -> Result<(), AllocError> {
    for back in 0..again.len() {
        let attribute = &again[again.len() - 1 - back];
        if attribute.origin == origin {
            list.push(*attribute)?;
        }
    }
    Ok(())
}
