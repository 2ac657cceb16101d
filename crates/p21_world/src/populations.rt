//! All instances of an entity.

use crate::entities::is_of;
use crate::push::push;
use crate::world::FileWorld;
use p21_values::{Budget, Kind, Stop, Value, aggregate};

impl<'x, 'a> FileWorld<'x, 'a> {
    /// The set of all instances of an entity, in the order of the file.
    pub fn population<'w>(&'w self, budget: &mut Budget, entity: u32) -> Result<Value<'w>, Stop> {
        let mut values = Vec::new(budget.alloc());
        for place in 0..self.model.len() {
            if let Ok(place) = u32::try_from(place) {
                if is_of(self.dictionary.schema, self.entities.of(place), entity) {
                    push(&mut values, Value::Instance(place))?;
                }
            }
        }
        aggregate(Kind::Set, values, budget)
    }
}
