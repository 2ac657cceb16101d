//! The places of instances by their names, sixteen names in a row together.

ghost use Rattle.std.specs.Prelude.{◌≡◌, ℕ, IfOk, IfSome, IsTrue, None, OnErr, Some, nat_eq};
ghost use Rattle.indexmap.specs.IndexMap.{get};
ghost use Rattle.p21_join.specs.PlaceBlocks.{place_by};

use indexmap::IndexMap;
use p21_hash::{HashKey, InstanceNameHashing};
use std::alloc::{AllocError, Global};

/// How many names in a row are a block.
const BLOCK_NAMES: u64 = 16;

/// For each name of a block, in their order, the place of its instance and one more, or 0 where there is none.
type Block = [u32; 16];

/// The places of instances by their names, in blocks of sixteen names. The block that was used last is looked at first: of names in a
/// row only one in sixteen is hashed.
#[derive(Drop)]
pub(crate) struct PlaceBlocks {
    /// By the number of the block.
    blocks: IndexMap<u64, Block, InstanceNameHashing>,
    /// Where the block that was used last stands among the blocks.
    latest: usize,
}

impl PlaceBlocks {
    ghost use Rattle.p21_join.specs.PlaceBlocks.{InsertsPlace, IsBlockAt, KeepsOtherPlaces, KeepsPlaces, place_of};

    /// No name has a place yet. This takes no memory. Names are hashed by this key.
    pub(crate) fn with_key(alloc: Global, key: HashKey) -> PlaceBlocks
        ensures { (name : ℕ) → place_of result name ≡ None }
    {
        PlaceBlocks {
            blocks: IndexMap::with_hasher(alloc, key.instance_names()),
            latest: 0,
        }
    }

    /// The place of a name, or `None` where it has none.
    pub(crate) fn place(&self, name: u64) -> Option<usize>
        ensures { result ≡ place_of self.now name }
    {
        if self.blocks.is_empty() {
            return None;
        }
        let block = self.blocks.get(&(name / BLOCK_NAMES))?;
        place_by(block[(name % BLOCK_NAMES) as usize])
    }

    /// Keeps the place of a name that has none; the answer is whether it had none. It is refused for lack of memory alone, as is a
    /// place from 2^32 - 1 on, and then nothing is changed.
    ///
    /// Other places stay, and a refusal changes none.
    #[inline(always)]
    pub(crate) fn insert(&mut self, name: u64, place: usize) -> Result<bool, AllocError>
        ensures { InsertsPlace self.old name place result self.new }
    {
        let at = self.block(name / BLOCK_NAMES)?;
        let (_, block) = self.blocks.pair_mut(at);
        let within = (name % BLOCK_NAMES) as usize;
        if block[within] != 0 {
            return Ok(false);
        }
        let Some(number) = number_of(place) else {
            return Err(AllocError);
        };
        block[within] = number;
        Ok(true)
    }

    /// Lets go of the place of a name. A name that has none stays without.
    pub(crate) fn remove(&mut self, name: u64)
        // The name has no place.
        ensures gone { place_of self.new name ≡ None }
        // Each other name has the place that it had.
        ensures others { KeepsOtherPlaces self.old name self.new }
    {
        if let Some(block) = self.blocks.get_mut(&(name / BLOCK_NAMES)) {
            block[(name % BLOCK_NAMES) as usize] = 0;
        }
    }

    /// Where the block of this number stands among the blocks. Where there was none it is made. It is refused for lack of memory
    /// alone.
    #[inline(always)]
    fn block(&mut self, number: u64) -> Result<usize, AllocError>
        ensures found { IfOk result (IsBlockAt self.new number) }
        ensures places { KeepsPlaces self.old self.new }
        ensures absent { OnErr result (get nat_eq self.old.blocks number ≡ None) }
    {
        if self.is_latest(number) {
            return Ok(self.latest);
        }
        let at = self.find_block(number)?;
        self.latest = at;
        Ok(at)
    }

    /// Whether the block that was used last has this number.
    #[inline(always)]
    fn is_latest(&self, number: u64) -> bool
        ensures { IsTrue result → IsBlockAt self.now number self.now.latest }
    {
        match self.blocks.get_index(self.latest) {
            Some((latest, _)) => *latest == number,
            None => false,
        }
    }

    /// The same as `block`, by a look-up.
    fn find_block(&mut self, number: u64) -> Result<usize, AllocError>
        ensures found { IfOk result (IsBlockAt self.new number) }
        ensures places { KeepsPlaces self.old self.new }
        ensures absent { OnErr result (get nat_eq self.old.blocks number ≡ None) }
    {
        match self.blocks.get_index_of(&number) {
            Some(at) => Ok(at),
            None => self.add_block(number),
        }
    }

    /// Makes the block of a number that has none, in which no name has a place; the answer is where it stands.
    fn add_block(&mut self, number: u64) -> Result<usize, AllocError>
        requires { get nat_eq self.old.blocks number ≡ None }
        ensures found { IfOk result (IsBlockAt self.new number) }
        ensures places { KeepsPlaces self.old self.new }
    {
        let at = self.blocks.len();
        self.blocks.insert(number, [0; 16])?;
        Ok(at)
    }
}

/// The number that stands for a place, where there is one.
pub(crate) fn number_of(place: usize) -> Option<u32>
    ensures { IfSome result (λ number. place_by number ≡ Some place) }
{
    if place < u32::MAX as usize {
        Some(place as u32 + 1)
    } else {
        None
    }
}

/// The place for which a number stands.
pub(crate) fn place_by(number: u32) -> Option<usize>
    ensures { result ≡ place_by number }
{
    (number as usize).checked_sub(1)
}
