//! The set of the names of instances.

ghost use Rattle.std.specs.Prelude.{ℕ, ◌↔◌, List, Contains, IsSome, map};
ghost use Rattle.p21_tree.specs.declared.instances.RawInstance.{RawInstance};
ghost use Rattle.p21_join.specs.InstancePlaces.{place_of};
ghost use Rattle.p21_join.specs.Names.{HasPlacesOf};
ghost use Rattle.p21_join.specs.Joined.{joined};

use crate::instance_places::InstancePlaces;
use crate::joiner::Joiner;
use p21_hash::HashKey;
use std::alloc::{AllocError, Global};

/// The names of some instances, each once.
#[derive(Drop)]
pub struct InstanceNames {
    table: InstancePlaces,
}

impl InstanceNames {
    ghost use Rattle.p21_join.specs.InstanceNames.{AddsName, IsAmong};

    /// No name yet. This takes no memory. Names are hashed by a key that is always the same: whoever knows it can choose names that take
    /// long.
    pub fn new(alloc: Global) -> InstanceNames
        ensures { (name : ℕ) → ¬ (IsAmong result name) }
    {
        InstanceNames::with_key(alloc, HashKey::default())
    }

    /// The same, where names are hashed by this key.
    pub fn with_key(alloc: Global, key: HashKey) -> InstanceNames
        ensures { (name : ℕ) → ¬ (IsAmong result name) }
    {
        InstanceNames {
            table: InstancePlaces::with_key(alloc, key),
        }
    }

    /// The names of the instances that were joined, which are let go. This takes no memory.
    pub fn of(joiner: Joiner<'_>) -> InstanceNames
        // A name is among them exactly where an instance that was joined has it.
        ensures { (name : ℕ) → IsAmong result name ↔ Contains (map (λ i. i.name) (joined joiner.entry)) name }
    {
        InstanceNames::of_places(joiner.into_places())
    }

    /// The names that have a place. This takes no memory.
    pub fn of_places(places: InstancePlaces) -> InstanceNames
        // A name is among them exactly where it has a place.
        ensures places { (name : ℕ) → IsAmong result name ↔ IsSome (place_of places name) }
        // Where the places are those of some instances, exactly where one of these has the name.
        ensures instances { (is : List RawInstance) → HasPlacesOf places is → (name : ℕ) → IsAmong result name ↔ Contains (map (λ i. i.name) is) name }
    {
        InstanceNames { table: places }
    }

    /// Adds a name to the others, where it is new; the answer is whether it is. It is refused for lack of memory alone, and then
    /// nothing is changed.
    ///
    /// A refusal changes nothing.
    pub fn add(&mut self, name: u64) -> Result<bool, AllocError>
        ensures { AddsName self.old name result self.new }
    {
        self.table.insert(name, 0)
    }
}
