//! Attributes by their keys.

ghost use Rattle.std.specs.Prelude.{◌≡◌, ◌<◌, ◌++◌, ◌∷◌, ◌↔◌, [], List, ℕ, IsTrue, Some, length, slice_get, take};
ghost use Rattle.p21_express.specs.WellFormed.{Origin};
ghost use Rattle.p21_schema.specs.Place.{IsEntityOf};
ghost use Rattle.p21_json.specs.Keys.{key_of, keys_behind};
ghost use Rattle.p21_json.specs.Rows.{AreAttributesOf};
ghost use Rattle.p21_json.specs.Spelled.{IsSpelled};
ghost use Rattle.p21_query.specs.First.{IsFirst};
ghost use Rattle.p21_query.specs.Called.{IsCalled, IsNotCalled, IsSameName};

use p21_json::{Terms, attribute, attribute_count};
use p21_schema::EntityId;

/// The place of the attribute of a record of the entity that has this key, whatever the case of letters: among the attributes of the entity's
/// row, or of a record of a complex instance among the entity's own ones. `None` where none has it.
pub fn attribute_named(
    terms: &Terms<'_>,
    complex: bool,
    entity: EntityId,
    name: &[u8],
) -> Option<usize>
    requires { IsEntityOf terms.now entity }
    // Of several, the first; none only where each has another key.
    ensures { (os : List Origin) × (AreAttributesOf terms.now complex entity os × IsFirst (IsCalled name.now) (IsNotCalled name.now) (keys_behind [] os) 0 result) }
{
    for position in 0..attribute_count(terms.schema(), complex, entity) {
        if is_called(terms, complex, entity, position, name) {
            return Some(position);
        }
    }
    None
}

/// Whether the key of an attribute is this name, whatever the case of letters.
fn is_called(
    terms: &Terms<'_>,
    complex: bool,
    entity: EntityId,
    position: usize,
    name: &[u8],
) -> bool
    requires entity { IsEntityOf terms.now entity }
    requires position { (os : List Origin) × (AreAttributesOf terms.now complex entity os × (position < length os)) }
    ensures { (os : List Origin) → (o : Origin) → AreAttributesOf terms.now complex entity os → slice_get os position ≡ Some o → (key : List ℕ) × (IsSpelled key (key_of (take position os) o) × (IsTrue result ↔ IsSameName key name.now)) }
{
    let attribute = attribute(terms.schema(), complex, entity, position);
    let own = terms.attribute(attribute).as_bytes();
    if terms.is_repeated(complex, entity, position) {
        let declaring = terms.entity(terms.declaring(attribute)).as_bytes();
        return is_joined(declaring, own, name);
    }
    own.eq_ignore_ascii_case(name)
}

/// Whether a name is two others with a point between them, whatever the case of letters.
fn is_joined(front: &[u8], back: &[u8], name: &[u8]) -> bool
    ensures { IsTrue result ↔ IsSameName (front.now ++ 46 ∷ back.now) name.now }
{
    match name.split_at_checked(front.len()) {
        Some((begin, end)) => begin.eq_ignore_ascii_case(front) && is_after_point(end, back),
        None => false,
    }
}

/// Whether a text is a point and a name, whatever the case of letters.
fn is_after_point(text: &[u8], name: &[u8]) -> bool
    ensures { IsTrue result ↔ IsSameName text.now (46 ∷ name.now) }
{
    match text.split_first() {
        Some((first, rest)) => *first == b'.' && rest.eq_ignore_ascii_case(name),
        None => false,
    }
}
