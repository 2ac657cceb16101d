//! Which rules concern an instance.

use crate::rules::{RuleOwner, RunRule};
use p21_express::{TypeExpr, Under};
use p21_schema::{Declaration, Form, Resolved, ResolvedExpr, Schema, Target};
use std::alloc::{AllocError, Global};

/// The rules by what they are of.
#[derive(Drop)]
pub(crate) struct Concerns {
    /// The places of the rules of entities, and the place of the entity of each.
    pub(crate) of_entities: Vec<(usize, u32)>,
    /// Of each entity the places of the rules that concern an instance of it alone.
    pub(crate) by_entity: Vec<Vec<usize>>,
    /// Of each type the places of its rules.
    pub(crate) by_type: Vec<Vec<usize>>,
    /// Of each type whether one with rules stands on it or under it.
    pub(crate) has_rules: Vec<bool>,
    /// Of each entity the attributes of its row under whose types stands one with rules.
    pub(crate) rows: Vec<Vec<usize>>,
}

pub(crate) fn concerns_of(
    alloc: Global,
    schema: &Schema,
    rules: &[RunRule<'_, '_>],
) -> Result<Concerns, AllocError> {
    let declared = schema.declared();
    let of_entities = rules_of_entities(alloc, rules)?;
    let by_type = rules_of_types(alloc, declared.types.len(), rules)?;
    let has_rules = types_with_rules(alloc, schema, &by_type)?;
    let mut by_entity = Vec::new(alloc);
    let mut rows = Vec::new(alloc);
    for place in 0..declared.entities.len() {
        let mut numbers = Vec::new(alloc);
        let mut row = Vec::new(alloc);
        push_rules(schema, &of_entities, place, &mut numbers)?;
        push_row(schema, &has_rules, place, &mut row)?;
        by_entity.push(numbers)?;
        rows.push(row)?;
    }
    Ok(Concerns {
        of_entities,
        by_entity,
        by_type,
        has_rules,
        rows,
    })
}

/// The rules of entities that are run.
fn rules_of_entities(
    alloc: Global,
    rules: &[RunRule<'_, '_>],
) -> Result<Vec<(usize, u32)>, AllocError> {
    let mut of_entities = Vec::new(alloc);
    for (place, rule) in rules.iter().enumerate() {
        if let RuleOwner::Entity(entity) = rule.owner {
            of_entities.push((place, entity))?;
        }
    }
    Ok(of_entities)
}

/// Of each type its rules that are run.
fn rules_of_types(
    alloc: Global,
    count: usize,
    rules: &[RunRule<'_, '_>],
) -> Result<Vec<Vec<usize>>, AllocError> {
    let mut by_type = Vec::new(alloc);
    for _type in 0..count {
        by_type.push(Vec::new(alloc))?;
    }
    for (place, rule) in rules.iter().enumerate() {
        if let RuleOwner::Type(of) = rule.owner {
            if let Some(list) = by_type.get_mut(of as usize) {
                list.push(place)?;
            }
        }
    }
    Ok(by_type)
}

/// Whether a type with rules stands on a type, by those that are known.
pub(crate) fn leads_to_rules(has_rules: &[bool], texpr: &ResolvedExpr) -> bool {
    match texpr {
        ResolvedExpr::Array { item, .. }
        | ResolvedExpr::List { item, .. }
        | ResolvedExpr::Set { item, .. }
        | ResolvedExpr::Bag { item, .. } => leads_to_rules(has_rules, item),
        ResolvedExpr::Named(target) => target_leads(has_rules, *target),
        _ => false,
    }
}

/// Whether a type has rules, or one under it.
fn target_leads(has_rules: &[bool], target: Target) -> bool {
    match target {
        Target::Defined(defined) => has_rules.get(defined.place()) == Some(&true),
        Target::Entity(_) => false,
    }
}

/// Of each type whether one with rules stands on it or under it.
fn types_with_rules(
    alloc: Global,
    schema: &Schema,
    by_type: &[Vec<usize>],
) -> Result<Vec<bool>, AllocError> {
    let above = types_above(alloc, schema, by_type.len())?;
    let mut has_rules = Vec::new(alloc);
    let mut reached = Vec::new(alloc);
    for place in 0..by_type.len() {
        has_rules.push(!by_type[place].is_empty())?;
        if !by_type[place].is_empty() {
            reached.push(place)?;
        }
    }
    for at in 0..by_type.len() {
        let Some(place) = reached.get(at) else {
            return Ok(has_rules);
        };
        if let Some(users) = above.get(*place) {
            reach(users, &mut has_rules, &mut reached)?;
        }
    }
    Ok(has_rules)
}

/// Reaches types that were not reached yet.
fn reach(
    users: &[usize],
    has_rules: &mut [bool],
    reached: &mut Vec<usize>,
) -> Result<(), AllocError> {
    for user in users {
        if let Some(slot) = has_rules.get_mut(*user) {
            if !*slot {
                *slot = true;
                reached.push(*user)?;
            }
        }
    }
    Ok(())
}

/// Of each type those under which it stands directly.
fn types_above(
    alloc: Global,
    schema: &Schema,
    count: usize,
) -> Result<Vec<Vec<usize>>, AllocError> {
    let mut above = Vec::new(alloc);
    for _type in 0..count {
        above.push(Vec::new(alloc))?;
    }
    for place in 0..count {
        if let Some(next) = type_under(schema, place) {
            add_above(&mut above, next, place)?;
        } else if let Some(id) = schema.type_at(place) {
            match schema.under(id) {
                Resolved::Items(_) => {}
                Resolved::Select(targets) => add_targets(&mut above, targets, place)?,
                Resolved::Plain(texpr) => add_expr(&mut above, texpr, place)?,
            }
        }
    }
    Ok(above)
}

/// Notes that a type stands directly under another.
fn add_above(above: &mut [Vec<usize>], under: usize, place: usize) -> Result<(), AllocError> {
    if let Some(list) = above.get_mut(under) {
        list.push(place)?;
    }
    Ok(())
}

/// Notes the types in the list of a SELECT.
fn add_targets(
    above: &mut [Vec<usize>],
    targets: &[Target],
    place: usize,
) -> Result<(), AllocError> {
    for target in targets {
        if let Target::Defined(defined) = target {
            add_above(above, defined.place(), place)?;
        }
    }
    Ok(())
}

/// Notes the type in an aggregate's.
fn add_expr(
    above: &mut [Vec<usize>],
    texpr: &ResolvedExpr,
    place: usize,
) -> Result<(), AllocError> {
    match texpr {
        ResolvedExpr::Array { item, .. }
        | ResolvedExpr::List { item, .. }
        | ResolvedExpr::Set { item, .. }
        | ResolvedExpr::Bag { item, .. } => add_expr(above, item, place),
        ResolvedExpr::Named(Target::Defined(defined)) => {
            add_above(above, defined.place(), place)
        }
        _ => Ok(()),
    }
}

/// The place of the type whose name stands alone under one.
pub(crate) fn type_under(schema: &Schema, place: usize) -> Option<usize> {
    match &schema.declared().types.get(place)?.under {
        Under::Plain(TypeExpr::Named(name)) => { Some(schema.type_named(name)?.place()) }
        _ => None,
    }
}

/// Whether the first entity is the second, or has it as an ancestor, by their places among those of the schema.
pub(crate) fn is_a(schema: &Schema, entity: usize, other: usize) -> bool {
    match (schema.entity_at(entity), schema.entity_at(other)) {
        (Some(entity), Some(other)) => schema.is_a(entity, other),
        _ => false,
    }
}

/// Whether one of the entities is this one, or has it as an ancestor.
pub(crate) fn is_of(schema: &Schema, entities: &[u32], other: usize) -> bool {
    for entity in entities {
        if is_a(schema, *entity as usize, other) {
            return true;
        }
    }
    false
}

/// The rules that concern an instance of the entity at a place alone.
fn push_rules(
    schema: &Schema,
    of_entities: &[(usize, u32)],
    entity: usize,
    rules: &mut Vec<usize>,
) -> Result<(), AllocError> {
    for rule in of_entities {
        if is_a(schema, entity, rule.1 as usize) {
            rules.push(rule.0)?;
        }
    }
    Ok(())
}

/// The attributes in the row of the entity at a place of whose declarations one leads to rules.
fn push_row(
    schema: &Schema,
    has_rules: &[bool],
    place: usize,
    row: &mut Vec<usize>,
) -> Result<(), AllocError> {
    let Some(entity) = schema.entity_at(place) else {
        return Ok(());
    };
    for position in 0..schema.row_count(entity) {
        let attribute = schema.row(entity, position);
        if declare_rules(has_rules, schema.declarations(attribute)) {
            row.push(attribute.place())?;
        }
    }
    Ok(())
}

/// Whether one of some declarations leads to rules.
fn declare_rules(has_rules: &[bool], declarations: &[Declaration]) -> bool {
    for declaration in declarations {
        if let Form::Explicit { texpr, .. } = &declaration.form {
            if leads_to_rules(has_rules, texpr) {
                return true;
            }
        }
    }
    false
}
