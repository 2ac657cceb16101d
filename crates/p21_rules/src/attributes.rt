//! The parameter of an instance that stands for an attribute.

ghost use Rattle.std.specs.Prelude.{◌≡◌, ◌<◌, List, Some, IfSome, MatchOption, length, option_map, slice_get};
ghost use Rattle.p21_express.specs.WellFormed.{Origin};
ghost use Rattle.p21_tree.specs.Bodies.{AllHaveBodies, HasBodies};
ghost use Rattle.p21_tree.specs.Plain.{plain, plain_all};
ghost use Rattle.p21_tree.specs.Tree.{Tree};
ghost use Rattle.p21_tree.specs.Views.{plain_instance};
ghost use Rattle.p21_schema.specs.Place.{IsEntityOf, entity_name};
ghost use Rattle.p21_schema.specs.Row.{IsAttributeOf, attribute_at, same_origin};
ghost use Rattle.p21_check.specs.Attributes.{AreAttributes};
ghost use Rattle.p21_check.specs.EntitySet.{keywords};
ghost use Rattle.p21_rules.specs.Named.{AreNamed};
ghost use Rattle.p21_rules.specs.Parameter.{IsParameterIn, parameter_of};

use p21_schema::{AttrId, EntityId, Schema};
use p21_tree::{Param, RawInstance};

/// How many attributes a record of the entity has.
fn attribute_count(schema: &Schema, complex: bool, entity: EntityId) -> usize
    requires { IsEntityOf schema.now entity }
    ensures { (os : List Origin) × (AreAttributes schema.now complex (entity_name schema.now entity) os × (result ≡ length os)) }
{
    if complex {
        schema.own_count(entity)
    } else {
        schema.row_count(entity)
    }
}

/// One of them.
fn attribute(schema: &Schema, complex: bool, entity: EntityId, position: usize) -> AttrId
    requires entity { IsEntityOf schema.now entity }
    requires position { (os : List Origin) × (AreAttributes schema.now complex (entity_name schema.now entity) os × (position < length os)) }
    ensures known { IsAttributeOf schema.now result }
    ensures there { (os : List Origin) → AreAttributes schema.now complex (entity_name schema.now entity) os → slice_get os position ≡ Some (attribute_at schema.now result) }
{
    schema.fits();
    if complex {
        schema.own(entity, position)
    } else {
        schema.row(entity, position)
    }
}

/// Whether one of them is this attribute.
fn is_at(schema: &Schema, complex: bool, entity: EntityId, position: usize, other: AttrId) -> bool
    requires entity { IsEntityOf schema.now entity }
    requires position { (os : List Origin) × (AreAttributes schema.now complex (entity_name schema.now entity) os × (position < length os)) }
    requires other { IsAttributeOf schema.now other }
    ensures { (os : List Origin) → (o : Origin) → AreAttributes schema.now complex (entity_name schema.now entity) os → slice_get os position ≡ Some o → result ≡ same_origin o (attribute_at schema.now other) }
{
    schema.one_id();
    let found = attribute(schema, complex, entity, position);
    found.place() == other.place()
}

/// Of the parameters of a record of the entity, that of an attribute.
fn parameter_of<'m, 'a>(
    schema: &Schema,
    complex: bool,
    entity: EntityId,
    attribute: AttrId,
    params: &'m [Param<'a>],
) -> Option<&'m Param<'a>>
    requires entity { IsEntityOf schema.now entity }
    requires attribute { IsAttributeOf schema.now attribute }
    requires bodies { AllHaveBodies params.now }
    ensures value { (os : List Origin) → AreAttributes schema.now complex (entity_name schema.now entity) os → option_map (λ p. plain p.now) result ≡ parameter_of os (plain_all params.now) (attribute_at schema.now attribute) }
    ensures bodies { IfSome result (λ p. HasBodies (plain p.now)) }
    ensures listed { (os : List Origin) × AreAttributes schema.now complex (entity_name schema.now entity) os }
{
    schema.fits();
    let count = attribute_count(schema, complex, entity);
    for position in 0..count.min(params.len()) {
        if is_at(schema, complex, entity, position, attribute) {
            return Some(&params[position]);
        }
    }
    None
}

/// The parameter of an instance that stands for an attribute, where the records name these entities.
pub(crate) fn parameter<'m, 'a>(
    schema: &Schema,
    named: &[Option<EntityId>],
    instance: &'m RawInstance<'a>,
    attribute: AttrId,
) -> Option<&'m Param<'a>>
    requires named { AreNamed schema.now (keywords (plain_instance instance.now)) named.now }
    requires attribute { IsAttributeOf schema.now attribute }
    ensures value { MatchOption result
        ((t : Tree) → ¬ (IsParameterIn schema.now instance.now.complex (attribute_at schema.now attribute) (plain_instance instance.now).records t))
        (λ p. IsParameterIn schema.now instance.now.complex (attribute_at schema.now attribute) (plain_instance instance.now).records (plain p.now)) }
    ensures bodies { IfSome result (λ p. HasBodies (plain p.now)) }
{
    schema.fits();
    let records = instance.records.as_slice();
    for place in 0..records.len() {
        let record = &records[place];
        let own = named[place];
        let entity = match own {
            Some(entity) => entity,
            None => return None,
        };
        let params = record.params.as_slice();
        match parameter_of(schema, instance.complex, entity, attribute, params) {
            Some(param) => return Some(param),
            None => {}
        }
    }
    None
}
