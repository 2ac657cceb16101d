//! The attributes of a record, by the schema.

ghost use Rattle.p21_schema.specs.Place.{IsEntityOf};

use crate::instance::Instance;
use p21_express::{AttrDecl, EntityDecl};
use p21_schema::{AttrId, EntityId, Schema};

/// An attribute, and the entity that newly declares it.
#[derive(Clone, Copy)]
pub(crate) struct Attribute<'a> {
    pub(crate) id: AttrId,
    pub(crate) owner: &'a EntityDecl,
    pub(crate) declared: &'a AttrDecl,
}

/// How many attributes a record of the entity has: its row, or in a complex instance its own ones.
pub(crate) fn count(schema: &Schema, complex: bool, entity: EntityId) -> usize
    requires { IsEntityOf schema.now entity }
{
    if complex {
        schema.own_count(entity)
    } else {
        schema.row_count(entity)
    }
}

/// The attribute for which a parameter of an instance stands.
pub(crate) fn attribute_in<'a>(
    instance: &Instance<'a>,
    rec: u64,
    attr: u64,
) -> Option<Attribute<'a>> {
    let schema = instance.subject.schema;
    let entity = schema.entity(instance.keyword(rec)?)?;
    let position = usize::try_from(attr).ok()?;
    attribute_of(schema, instance.is_complex(), entity, position)
}

/// An attribute of a record of the entity; none where it has no more.
pub(crate) fn attribute_of(
    schema: &Schema,
    complex: bool,
    entity: EntityId,
    position: usize,
) -> Option<Attribute<'_>>
    requires { IsEntityOf schema.now entity }
{
    if complex {
        if position < schema.own_count(entity) {
            return newly_declared(schema, schema.own(entity, position));
        }
    } else if position < schema.row_count(entity) {
        return newly_declared(schema, schema.row(entity, position));
    }
    None
}

/// The declaration that newly declares an attribute.
fn newly_declared(schema: &Schema, attribute: AttrId) -> Option<Attribute<'_>> {
    let mut place = attribute.place();
    for owner in &schema.declared().entities {
        match explicit_at(owner, place) {
            Ok(declared) => {
                return Some(Attribute {
                    id: attribute,
                    owner,
                    declared,
                });
            }
            Err(left) => place = left,
        }
    }
    None
}

/// The explicit attribute that an entity newly declares with so many before it; where there is none, how many more it would have to
/// declare before it.
fn explicit_at(owner: &EntityDecl, place: usize) -> Result<&AttrDecl, usize> {
    let mut left = place;
    for declared in &owner.attributes {
        if declared.of.is_none() {
            if left == 0 {
                return Ok(declared);
            }
            left -= 1;
        }
    }
    Err(left)
}
