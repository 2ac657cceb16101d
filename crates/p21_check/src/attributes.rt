//! Which attributes the parameters of a record are for.

ghost use Rattle.std.specs.Prelude.{◌≡◌, ◌<◌, ◌↔◌, List, Some, IsTrue, length, slice_get};
ghost use Rattle.p21_express.specs.WellFormed.{Origin};
ghost use Rattle.p21_tree.specs.Plain.{plain, plain_all};
ghost use Rattle.p21_tree.specs.Bodies.{HasBodies, AllHaveBodies};
ghost use Rattle.p21_schema.specs.Place.{IsEntityOf, entity_name};
ghost use Rattle.p21_schema.specs.Row.{IsAttributeOf, attribute_at};
ghost use Rattle.p21_check.specs.Attributes.{AreAttributes};
ghost use Rattle.p21_check.specs.Instances.{IsFirstUnfit};
ghost use Rattle.p21_check.specs.Sets.{HasEntity, IsSetOf};

use crate::entity_set::EntitySet;
use crate::slot::fits_slot;
use p21_schema::{AttrId, EntityId, Schema};
use p21_tree::Param;

/// How many attributes a record of the entity has.
pub(crate) fn attribute_count(schema: &Schema, complex: bool, entity: EntityId) -> usize
    requires { IsEntityOf schema.now entity }
    ensures { (os : List Origin) × (AreAttributes schema.now complex (entity_name schema.now entity) os × (result ≡ length os)) }
{
    if complex {
        schema.own_count(entity)
    } else {
        schema.row_count(entity)
    }
}

/// One of them.
pub(crate) fn attribute(schema: &Schema, complex: bool, entity: EntityId, position: usize) -> AttrId
    requires entity { IsEntityOf schema.now entity }
    requires position { (os : List Origin) × (AreAttributes schema.now complex (entity_name schema.now entity) os × (position < length os)) }
    ensures known { IsAttributeOf schema.now result }
    ensures there { (os : List Origin) → AreAttributes schema.now complex (entity_name schema.now entity) os → slice_get os position ≡ Some (attribute_at schema.now result) }
{
    schema.fits();
    if complex {
        schema.own(entity, position)
    } else {
        schema.row(entity, position)
    }
}

/// The place of the first parameter that does not fit its attribute.
pub(crate) fn first_unfit(
    schema: &Schema,
    set: &EntitySet<'_, '_>,
    complex: bool,
    entity: EntityId,
    params: &[Param<'_>],
) -> Option<usize>
    requires set { IsSetOf schema.now set.now }
    requires entity { IsEntityOf schema.now entity }
    requires count { (os : List Origin) × (AreAttributes schema.now complex (entity_name schema.now entity) os × (length params.now ≡ length os)) }
    requires bodies { AllHaveBodies params.now }
    ensures { (os : List Origin) → AreAttributes schema.now complex (entity_name schema.now entity) os → IsFirstUnfit schema.now (HasEntity schema.now set.now) os (plain_all params.now) result }
{
    for position in 0..params.len() {
        let attribute = attribute(schema, complex, entity, position);
        if !fits_slot(schema, set, attribute, &params[position]) {
            return Some(position);
        }
    }
    None
}
