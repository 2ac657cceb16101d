//! The outline of the instances of a file.

ghost use Rattle.std.specs.Prelude.{◌≡◌, ◌↔◌, ℕ, List, [], Contains, IfOk, IsTrue, length, map};
ghost use Rattle.p21_express.specs.Schema.{Schema};
ghost use Rattle.p21_join.specs.Names.{HasPlacesOf, HasPlacesOf-prop, HaveOwnNames};
ghost use Rattle.p21_join.specs.InstanceNames.{IsAmong};
ghost use Rattle.p21_outline.specs.Columns.{instances_in};
ghost use Rattle.p21_outline.specs.Placed.{FindsRepeated, IsPlaced};
ghost use Rattle.p21_outline.specs.PlacedName.{placed_name};
ghost use Rattle.p21_tree.specs.declared.instances.RawInstance.{RawInstance};

use crate::columns::Columns;
use crate::outline_list::{OutlineList, PlacedName};
use p21_hash::HashKey;
use p21_join::{InstanceNames, InstancePlaces};
use std::alloc::{AllocError, Global};

/// The outlines of instances in the order of a file, of which no two have one name.
#[derive(Drop)]
pub struct Outline<'a> {
    /// The place of each instance, by its name.
    pub(crate) places: InstancePlaces,
    pub(crate) columns: Columns<'a>,
    ghost placed: { HasPlacesOf places (instances_in columns) } by { HasPlacesOf-prop places (instances_in columns) },
    /// No two instances have one name.
    pub ghost own_names: { HaveOwnNames (instances_in columns) },
}

impl<'a> Outline<'a> {
    ghost use Rattle.p21_outline.specs.Outline.{AreOutlined, Extends, outlined_instances};

    /// Nothing is outlined yet. This takes no memory. Names are hashed by this key.
    pub fn new(alloc: Global, key: HashKey) -> Outline<'a>
        ensures instances { outlined_instances result ≡ [] }
        ensures fits { (s : Schema) → AreOutlined s result }
    {
        Outline {
            places: InstancePlaces::with_key(alloc, key),
            columns: Columns::new(alloc),
        }
    }

    /// Puts the outlines of a list after the others, where all have names of their own. It is refused for lack of memory alone, as is the
    /// instance after 2^32 - 1 others, more than a file within the bound holds, and one with which more than 2^32 - 1 references are kept.
    ///
    /// Cost: O(1) for each instance and each reference of the list. Of a simple instance 12 bytes are kept, the place
    /// of its name, and 16 bytes of each reference.
    pub fn extend(self, list: OutlineList<'a>) -> Result<Extended<'a>, AllocError>
        // The instances of the list go last, and what was outlined by a schema is so with a list that is. Where two
        // instances would have one name, the result is the first instance of the list that has the name of one before
        // it, the names of all before that, and the list. That no two have one name is a fact of the type
        // (`own_names`).
        ensures { IfOk result (Extends self.entry list.entry) }
    {
        let Outline {
            mut places,
            columns,
        } = self;
        match place_names(&mut places, list.names(), columns.rows.len())? {
            None => {
                let columns = columns.with(list.into_columns())?;
                Ok(Extended::Whole(Outline { places, columns }))
            }
            Some(place) => {
                let names = InstanceNames::of_places(places);
                Ok(Extended::Repeated(names, list, place))
            }
        }
    }

    /// How many instances there are.
    pub fn len(&self) -> usize
        ensures { result ≡ length (outlined_instances self.now) }
    {
        self.columns.rows.len()
    }

    /// Whether there is none.
    pub fn is_empty(&self) -> bool
        ensures { IsTrue result ↔ (length (outlined_instances self.now) ≡ 0) }
    {
        self.columns.rows.is_empty()
    }

    /// The names of the instances. All else is let go. This takes no memory.
    pub fn into_names(self) -> InstanceNames
        // A name is among them exactly where an instance that is outlined has it.
        ensures { (name : ℕ) → IsAmong result name ↔ Contains (map (λ i. i.name) (outlined_instances self.entry)) name }
    {
        InstanceNames::of_places(self.places)
    }
}

/// What outlines are with those of a list.
#[derive(Drop)]
pub enum Extended<'a> {
    /// Those of the list stand after the others.
    Whole(Outline<'a>),
    /// The instance at this place of the list is the first that has the name of one before it. The names of all before it, whose outlines
    /// are let go; and the list.
    Repeated(InstanceNames, OutlineList<'a>, usize),
}

/// Keeps the places of names, which stand one after the other from a place on, as far as they are new; the answer is which of them is
/// the first that is not. It is refused for lack of memory alone, as is a place from 2^32 - 1 on.
fn place_names(
    places: &mut InstancePlaces,
    names: &[PlacedName],
    from: usize,
) -> Result<Option<usize>, AllocError>
    ensures { IfOk result (λ found. (is js : List RawInstance) → from ≡ length is → names.now ≡ map placed_name js → IsPlaced places.old is → FindsRepeated places.new is js found) }
{
    for (index, named) in names.iter().enumerate() {
        let place = from.checked_add(index).ok_or(AllocError)?;
        if !places.insert(named.name, place)? {
            return Ok(Some(index));
        }
    }
    Ok(None)
}
