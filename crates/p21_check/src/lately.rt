//! Entities that keywords named lately.

ghost use Rattle.std.specs.Prelude.{◌≡◌, ◌<◌, IfSome};
ghost use Rattle.p21_schema.specs.Place.{IsEntityOf, entity_name};

use crate::entity_set::has_name;
use p21_schema::{EntityId, Schema};

/// How many entities are kept.
const KEPT: usize = 64;

/// Entities that keywords named lately, each at a place by a few bytes of its name. Files repeat few keywords, so that most are found
/// here by one comparison, with no hash of the whole.
#[derive(Drop)]
pub struct Lately {
    /// The places of entities among those of the schema.
    places: [usize; KEPT],
}

impl Lately {
    /// None was named yet.
    pub fn new() -> Lately {
        Lately { places: [0; KEPT] }
    }

    /// The entity of this name, or `None` where there is none.
    #[inline(always)]
    pub(crate) fn entity(&mut self, schema: &Schema, keyword: &[u8]) -> Option<EntityId>
        ensures { IfSome result (λ e. IsEntityOf schema.now e × (entity_name schema.now e ≡ keyword.now)) }
    {
        let slot = slot_of(keyword);
        if let Some(entity) = schema.entity_at(self.places[slot]) {
            if has_name(schema, entity, keyword) {
                return Some(entity);
            }
        }
        let entity = schema.entity(keyword)?;
        self.places[slot] = entity.place();
        Some(entity)
    }
}

/// Where the entity of a keyword is kept: by its length, its fourth byte and its last.
#[inline(always)]
fn slot_of(keyword: &[u8]) -> usize
    ensures { result < 64 }
{
    let fourth = keyword.get(3).map_or(0, |byte| usize::from(*byte));
    let last = keyword.last().map_or(0, |byte| usize::from(*byte));
    let sum = keyword.len().wrapping_mul(7).wrapping_add(fourth);
    sum.wrapping_add(last) % KEPT
}
