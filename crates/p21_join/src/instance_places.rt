//! Where the instance of a name stands in the file.

ghost use Rattle.std.specs.Prelude.{◌≡◌, ℕ, None, slice_index_or};
ghost use Rattle.p21_join.specs.PlaceBlocks.{place_by};

use crate::place_blocks::{PlaceBlocks, number_of, place_by};
use p21_hash::HashKey;
use std::alloc::{AllocError, Global};

/// How many names the dense part covers at most for each of them that has a place.
const NAMES_A_PLACE: usize = 4;

/// How many more names that have a place the dense part reckons with than it has.
const MORE_PLACES: usize = 64;

/// The places of instances by their names.
///
/// Most files number their instances from 1 on. So a name below four times the count of those in the dense part stands there, in a
/// table by the name itself; each other name is kept in a block. The dense part takes at most 16 bytes for each name in it, and each 16
/// for the 64 names that it reckons with.
#[derive(Drop)]
pub struct InstancePlaces {
    /// By the name: the number that stands for a place.
    dense: Vec<u32>,
    /// How many names have a place in the dense part.
    held: usize,
    /// The places of the names that the dense part did not cover when they came.
    blocks: PlaceBlocks,
}

impl InstancePlaces {
    ghost use Rattle.p21_join.specs.InstancePlaces.{InsertsPlace, KeepsOtherPlaces, KeepsPlaces, place_of};

    /// No name has a place yet. This takes no memory. Names are hashed by this key.
    pub fn with_key(alloc: Global, key: HashKey) -> InstancePlaces
        ensures { (name : ℕ) → place_of result name ≡ None }
    {
        InstancePlaces {
            dense: Vec::new(alloc),
            held: 0,
            blocks: PlaceBlocks::with_key(alloc, key),
        }
    }

    /// The place of a name, or `None` where it has none.
    #[inline(always)]
    pub fn place(&self, name: u64) -> Option<usize>
        ensures { result ≡ place_of self.now name }
    {
        match self.dense_place(name) {
            Some(place) => Some(place),
            None => self.blocks.place(name),
        }
    }

    /// The place that a name has in the dense part.
    #[inline(always)]
    fn dense_place(&self, name: u64) -> Option<usize>
        ensures { result ≡ place_by (slice_index_or self.now.dense.items name 0) }
    {
        match self.dense.get(name as usize) {
            Some(number) => place_by(*number),
            None => None,
        }
    }

    /// Keeps the place of a name that has none; the result is whether it had none. It is refused for lack of memory alone, as is a
    /// place from 2^32 - 1 on, and then nothing is changed.
    ///
    /// Other places stay, and a refusal changes none.
    #[inline(always)]
    pub fn insert(&mut self, name: u64, place: usize) -> Result<bool, AllocError>
        ensures { InsertsPlace self.old name place result self.new }
    {
        if self.place(name).is_some() {
            return Ok(false);
        }
        self.make_room(name)?;
        let Some(number) = number_of(place) else {
            return Err(AllocError);
        };
        match self.dense.get_mut(name as usize) {
            Some(slot) => {
                *slot = number;
                self.held = self.held.saturating_add(1);
                Ok(true)
            }
            None => self.blocks.insert(name, place),
        }
    }

    /// Has the dense part cover a name that is small enough. It is refused for lack of memory alone.
    #[inline(always)]
    fn make_room(&mut self, name: u64) -> Result<(), AllocError>
        ensures { KeepsPlaces self.old self.new }
    {
        if name < self.dense.len() as u64 {
            return Ok(());
        }
        let most = self
            .held
            .saturating_add(MORE_PLACES)
            .saturating_mul(NAMES_A_PLACE);
        if name >= most as u64 {
            return Ok(());
        }
        let len = self.dense.len().saturating_mul(2);
        self.dense.resize(len.max(name as usize + 1).min(most), 0)
    }

    /// Drops the place of a name. A name that has none stays without.
    pub fn remove(&mut self, name: u64)
        // The name has no place.
        ensures gone { place_of self.new name ≡ None }
        // Each other name has the place that it had.
        ensures others { KeepsOtherPlaces self.old name self.new }
    {
        if let Some(slot) = self.dense.get_mut(name as usize) {
            *slot = 0;
        }
        self.blocks.remove(name);
    }
}
