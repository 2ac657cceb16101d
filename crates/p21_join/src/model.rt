//! A model: the instances of a file, and the places of their names.

ghost use Rattle.std.specs.Prelude.{◌≡◌, ◌<◌, ◌↔◌, IsTrue, length, get_or};
ghost use Rattle.p21_join.specs.Names.{HasPlacesOf, HasPlacesOf-prop, HaveOwnNames};

use crate::instance_places::InstancePlaces;
use p21_check::TypeOf;
use p21_tree::RawInstance;

/// Instances in file order, of which no two have one name.
#[derive(Drop)]
pub struct Model<'a> {
    instances: Vec<RawInstance<'a>>,
    /// The place of each instance, by its name.
    places: InstancePlaces,
    ghost placed: { HasPlacesOf places instances.items } by { HasPlacesOf-prop places instances.items },
    /// No two instances have one name.
    pub ghost own_names: { HaveOwnNames instances.items },
}

impl<'a> Model<'a> {
    ghost use Rattle.p21_join.specs.Model.{instances_of, Finds};
    ghost use Rattle.p21_join.specs.Names.{IsPosition};

    pub(crate) fn of(instances: Vec<RawInstance<'a>>, places: InstancePlaces) -> Model<'a>
        requires placed { HasPlacesOf places instances.items }
        requires own_names { HaveOwnNames instances.items }
        ensures { instances_of result ≡ instances.entry.items }
    {
        Model { instances, places }
    }

    /// How many instances there are.
    pub fn len(&self) -> usize
        ensures { result ≡ length (instances_of self.now) }
    {
        self.instances.len()
    }

    /// Whether there is none.
    pub fn is_empty(&self) -> bool
        ensures { IsTrue result ↔ (length (instances_of self.now) ≡ 0) }
    {
        self.instances.is_empty()
    }

    /// All instances, in file order.
    ///
    /// That no two have one name is a fact of the type (`own_names`).
    pub fn instances(&self) -> &[RawInstance<'a>]
        ensures { result.now ≡ instances_of self.now }
    {
        self.instances.as_slice()
    }

    /// The instance at a place, which is below their number.
    pub fn instance(&self, i: usize) -> &RawInstance<'a>
        requires { i < length (instances_of self.now) }
        ensures { result.now ≡ get_or (instances_of self.now) i result.now }
    {
        &self.instances[i]
    }

    /// The instance of a name.
    ///
    /// Cost: O(1).
    pub fn find(&self, name: u64) -> Option<&RawInstance<'a>>
        ensures { Finds (instances_of self.now) name result }
    {
        let place = self.position(name)?;
        Some(&self.instances[place])
    }

    /// The place of the instance of a name.
    pub fn position(&self, name: u64) -> Option<usize>
        ensures { IsPosition (instances_of self.now) name result }
    {
        self.places.place(name)
    }
}

impl<'a> TypeOf<'a> for Model<'a> {
    ghost use Rattle.p21_join.specs.Model.{instances_of, plain_instances};
    ghost use Rattle.p21_check.specs.References.{named_in};

    ghost named = { λ model. named_in (plain_instances (instances_of model)) };

    fn find(&self, name: u64) -> Option<&RawInstance<'a>> {
        Model::find(self, name)
    }
}
