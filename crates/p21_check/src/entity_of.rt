//! Of which entity the instance of a name is.

ghost use Rattle.std.specs.Prelude.{ℕ, Option, option_map};
ghost use Rattle.p21_express.specs.Schema.{Schema};
ghost use Rattle.p21_tree.specs.Sentence.{Instance};
ghost use Rattle.p21_tree.specs.Views.{plain_instance};
ghost use Rattle.p21_check.specs.EntityOf.{IsKnownAs, IsSimpleEntity};

use p21_schema::{EntityId, Schema};
use p21_tree::RawInstance;

/// What is known of the instance of a name.
#[derive(Clone, Copy)]
pub enum Named<'m, 'a> {
    /// No instance has the name.
    Missing,
    /// A simple instance of this entity.
    Simple(EntityId),
    /// An instance that has no one entity, by its records: it is complex, or its keyword names no entity.
    Other(&'m RawInstance<'a>),
}

/// Instances by their names, with their entities by a schema.
///
/// Its ghost `named` says which instance has a name, and `table` by which schema its entity is known.
pub trait EntityOf<'a> {
    /// The schema of the entities.
    ghost table: { Self → Schema };

    /// The instance that has a name.
    ghost named: { Self → ℕ → Option Instance };

    /// What is known of the instance of this name.
    fn entity_of(&self, name: u64) -> Named<'_, 'a>
        // That there is none, that it is a simple one of this entity, or its records.
        ensures { IsKnownAs (table self.now) (named self.now name) result };
}

/// The entity of a simple instance: that which its keyword names. It is `None` where there is no such entity, and for a complex
/// instance.
pub fn simple_entity(schema: &Schema, instance: &RawInstance<'_>) -> Option<EntityId>
    ensures { IsSimpleEntity schema.now (plain_instance instance.now) result }
{
    if instance.complex {
        return None;
    }
    let records = instance.records.as_slice();
    schema.entity(records[0].keyword)
}

/// What is known of an instance that was found, or not, by its records.
pub(crate) fn by_keyword<'m, 'a>(
    schema: &Schema,
    found: Option<&'m RawInstance<'a>>,
) -> Named<'m, 'a>
    ensures { IsKnownAs schema.now (option_map (λ i. plain_instance i.now) found.entry) result }
{
    let Some(instance) = found else {
        return Named::Missing;
    };
    match simple_entity(schema, instance) {
        Some(entity) => Named::Simple(entity),
        None => Named::Other(instance),
    }
}
