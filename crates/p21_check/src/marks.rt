//! A bit for each entity of the schema.

ghost use Rattle.std.specs.Prelude.{◌≡◌, ◌∷◌, [], length};
ghost use Rattle.p21_check.specs.Marks.{AreAdded};

use p21_schema::EntityId;

/// Up to so many records are searched one by one, without a table of marks.
pub(crate) const FEW: usize = 64;

/// How many marks a table has: one for each of the first so many entities of the schema. The records are searched for any other.
pub(crate) const MARKS: usize = 16384;

/// Marks some entities.
pub(crate) fn put_all(marks: &mut [bool], entities: &[EntityId])
    ensures length { length marks.new ≡ length marks.old }
    ensures added { AreAdded marks.old marks.new entities.now }
{
    for entity in entities {
        put(marks, *entity);
    }
}

/// Marks an entity.
pub(crate) fn put(marks: &mut [bool], entity: EntityId)
    ensures length { length marks.new ≡ length marks.old }
    ensures added { AreAdded marks.old marks.new (entity ∷ []) }
{
    let place = entity.place();
    if place < marks.len() {
        marks[place] = true;
    }
}
