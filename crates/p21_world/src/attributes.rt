//! What the names of attributes mean.

use crate::entities::is_a;
use p21_names::{InverseForm, Role};
use p21_schema::{Form as Declared, ResolvedExpr, Schema};
use p21_values::{Budget, Stop};

/// How many declarations are looked at in one step.
const DECLARATIONS_A_STEP: usize = 64;

/// An explicit attribute.
#[derive(Clone, Copy)]
pub(crate) struct Explicit {
    /// Its place among the explicit attributes of the schema.
    pub(crate) attribute: usize,
    /// The place of the entity that newly declares it.
    pub(crate) declarer: u32,
    /// Its place among the attributes that this entity newly declares.
    pub(crate) own: usize,
    /// Its place in the row of this entity.
    pub(crate) row: usize,
    /// The place of this declaration among those of the attribute.
    pub(crate) declaration: usize,
}

/// The type of the values of an explicit attribute.
pub(crate) fn type_of<'s>(schema: &'s Schema, explicit: &Explicit) -> Option<&'s ResolvedExpr> {
    let entity = schema.entity_at(explicit.declarer as usize)?;
    if explicit.own >= schema.own_count(entity) {
        return None;
    }
    let attribute = schema.own(entity, explicit.own);
    match &schema
        .declarations(attribute)
        .get(explicit.declaration)?
        .form
    {
        Declared::Explicit { texpr, .. } => Some(texpr),
        Declared::Derived => None,
    }
}

/// What gives the value of an attribute.
#[derive(Clone, Copy)]
pub(crate) enum Form {
    Explicit(Explicit),
    /// A function of the instance, by its place.
    Derived(usize),
    /// A function that is not evaluated.
    NotComputed,
    /// Those that refer to the instance.
    Inverse(InverseForm, Role),
}

/// A declaration of an attribute.
#[derive(Clone, Copy)]
pub(crate) struct Attribute {
    /// The entity that newly declares it.
    pub(crate) origin: u32,
    /// The entity in which the declaration stands.
    pub(crate) entity: u32,
    pub(crate) form: Form,
}

/// The entities of a value.
pub(crate) trait OfEntities {
    /// Whether one of them is this one, or has it as an ancestor.
    fn is_of(&self, schema: &Schema, entity: u32) -> bool;
}

/// Of the declarations of a name the one that counts for entities: the first that stands in one of them. Where a further entity is given, its attribute of the
/// name is meant.
pub(crate) fn in_force<'l, E: OfEntities>(
    schema: &Schema,
    declarations: &'l [Attribute],
    seen_from: Option<u32>,
    entities: &E,
    budget: &mut Budget,
) -> Result<Option<&'l Attribute>, Stop> {
    for at in 0..declarations.len() {
        if at % DECLARATIONS_A_STEP == DECLARATIONS_A_STEP - 1 {
            budget.take()?;
        }
        let declaration = &declarations[at];
        if is_seen(schema, seen_from, declaration.origin)
            && entities.is_of(schema, declaration.entity)
        {
            return Ok(Some(declaration));
        }
    }
    Ok(None)
}

/// Whether an attribute of an entity is one that is seen from another.
fn is_seen(schema: &Schema, seen_from: Option<u32>, origin: u32) -> bool {
    match seen_from {
        Some(entity) => is_a(schema, entity, origin),
        None => true,
    }
}
