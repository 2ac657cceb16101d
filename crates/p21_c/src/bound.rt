//! How an attribute is declared for the instances of an entity.

ghost use Rattle.std.specs.Prelude.{IfSome};
ghost use Rattle.p21_schema.specs.Place.{IsEntityOf};
ghost use Rattle.p21_schema.specs.Row.{IsAttributeOf};

use p21_schema::{AttrId, Declaration, EntityId, Form, ResolvedExpr, Schema};

/// What the declarations make of an attribute that count for the instances of an entity.
#[derive(Clone, Copy)]
pub(crate) struct Bound<'s> {
    /// Whether one of them stands in DERIVE.
    pub(crate) derived: bool,
    /// Whether the others have OPTIONAL.
    pub(crate) optional: bool,
    /// The type of the first of these.
    pub(crate) texpr: Option<&'s ResolvedExpr>,
}

/// The attribute at a position in the records of an entity.
pub(crate) fn attribute_at(schema: &Schema, entity: EntityId, position: u64) -> Option<AttrId>
    requires { IsEntityOf schema.now entity }
    ensures { IfSome result (IsAttributeOf schema.now) }
{
    let position = usize::try_from(position).ok()?;
    if position < schema.row_count(entity) {
        Some(schema.row(entity, position))
    } else {
        None
    }
}

/// The entity that newly declares an attribute.
pub(crate) fn declaring(schema: &Schema, attribute: AttrId) -> Option<EntityId> {
    let mut so_far: usize = 0;
    for place in 0..schema.declared().entities.len() {
        let entity = schema.entity_at(place)?;
        so_far = so_far.saturating_add(schema.own_count(entity));
        if attribute.place() < so_far {
            return Some(entity);
        }
    }
    None
}

/// What the declarations make of an attribute that count for the instances of an entity: those by an entity that it is or has above it, of the explicit
/// ones those that none of these declares again below. Of several such the type is that of the first.
pub(crate) fn bound_of<'s>(schema: &'s Schema, entity: EntityId, attribute: AttrId) -> Bound<'s>
    requires { IsAttributeOf schema.now attribute }
{
    let declarations = schema.declarations(attribute);
    let mut bound = Bound {
        derived: false,
        optional: true,
        texpr: None,
    };
    for declaration in declarations {
        if is_of(schema, entity, declaration.entity) {
            let lowest = !is_declared_below(schema, entity, declarations, declaration.entity);
            bound = with_next(bound, declaration, lowest);
        }
    }
    bound
}

/// The same with the next of the declarations.
fn with_next<'s>(bound: Bound<'s>, next: &'s Declaration, lowest: bool) -> Bound<'s> {
    match &next.form {
        Form::Derived => Bound {
            derived: true,
            ..bound
        },
        Form::Explicit { optional, texpr } if lowest => Bound {
            optional: bound.optional && *optional,
            texpr: bound.texpr.or(Some(texpr)),
            ..bound
        },
        Form::Explicit { .. } => bound,
    }
}

/// Whether one of some declarations is explicit, and by an entity below this one that an entity is or has above it.
fn is_declared_below(
    schema: &Schema,
    entity: EntityId,
    declarations: &[Declaration],
    other: EntityId,
) -> bool {
    for declaration in declarations {
        if let Form::Explicit { .. } = declaration.form {
            let below = declaration.entity != other && is_of(schema, declaration.entity, other);
            if below && is_of(schema, entity, declaration.entity) {
                return true;
            }
        }
    }
    false
}

/// Whether an entity is another, or has it as an ancestor.
fn is_of(schema: &Schema, entity: EntityId, other: EntityId) -> bool {
    let (entity, other) = (
        schema.entity_at(entity.place()),
        schema.entity_at(other.place()),
    );
    match (entity, other) {
        (Some(entity), Some(other)) => schema.is_a(entity, other),
        _ => false,
    }
}
