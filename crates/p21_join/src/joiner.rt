//! Putting instances together into a model, each name once.

ghost use Rattle.std.specs.Prelude.{◌≡◌, []};
ghost use Rattle.p21_join.specs.Names.{HasPlacesOf, HasPlacesOf-prop, HaveOwnNames};

use crate::instance_places::InstancePlaces;
use crate::model::Model;
use p21_hash::HashKey;
use p21_tree::RawInstance;
use std::alloc::Global;

/// Instances that are joined one by one.
#[derive(Drop)]
pub struct Joiner<'a> {
    instances: Vec<RawInstance<'a>>,
    /// The place of each instance, by its name.
    places: InstancePlaces,
    ghost placed: { HasPlacesOf places instances.items } by { HasPlacesOf-prop places instances.items },
    ghost own_names: { HaveOwnNames instances.items },
}

/// Why an instance was not joined; it is handed back.
#[derive(Debug, Drop)]
pub enum JoinError<'a> {
    /// An instance that was joined before has its name.
    Duplicate(RawInstance<'a>),
    /// There was no memory left.
    Memory(RawInstance<'a>),
}

impl<'a> Joiner<'a> {
    ghost use Rattle.p21_join.specs.Joined.{joined, Joins};
    ghost use Rattle.p21_join.specs.Model.{instances_of};

    /// Nothing is joined yet. This takes no memory. Names are hashed by a key that is always the same: whoever knows it can choose
    /// names that take long.
    pub fn new(alloc: Global) -> Joiner<'a>
        ensures { joined result ≡ [] }
    {
        Joiner::with_key(alloc, HashKey::default())
    }

    /// The same, where names are hashed by this key.
    pub fn with_key(alloc: Global, key: HashKey) -> Joiner<'a>
        ensures { joined result ≡ [] }
    {
        Joiner {
            instances: Vec::new(alloc),
            places: InstancePlaces::with_key(alloc, key),
        }
    }

    /// Joins an instance after the others. It is handed back as `Duplicate` exactly where one of them has its name, and
    /// as `Memory` where there was no memory left, or where 2^32 - 1 are joined, more than a file within the bound holds; then nothing is
    /// changed.
    ///
    /// Cost: O(1): a look-up of the block of 16 names to which the name belongs, which is that of the name before in
    /// most files. A block takes some 90 bytes.
    #[inline(always)]
    pub fn add(&mut self, instance: RawInstance<'a>) -> Result<(), JoinError<'a>>
        // It is handed back as a duplicate exactly where its name is there. Then, or for out of memory, nothing is
        // changed.
        ensures { Joins (joined self.old) instance.entry result (joined self.new) }
    {
        let name = instance.name;
        match self.places.insert(name, self.instances.len()) {
            Ok(true) => {}
            Ok(false) => return Err(JoinError::Duplicate(instance)),
            Err(_) => return Err(JoinError::Memory(instance)),
        }
        match self.instances.push(instance) {
            Ok(()) => Ok(()),
            Err(refused) => {
                self.places.remove(name);
                Err(JoinError::Memory(refused.value))
            }
        }
    }

    /// The model of all that was joined.
    pub fn into_model(self) -> Model<'a>
        ensures { instances_of result ≡ joined self.entry }
    {
        Model::of(self.instances, self.places)
    }

    /// The places of all that was joined, by their names. The instances are let go.
    pub(crate) fn into_places(self) -> InstancePlaces
        ensures { HasPlacesOf result (joined self.entry) }
    {
        self.places
    }
}
