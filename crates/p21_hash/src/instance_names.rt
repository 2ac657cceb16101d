//! Hashing instance names.

ghost use Rattle.std.specs.Prelude.{◌≡◌};

use std::hash::{BuildHasher, Hasher};

/// How many names in a row are a stretch.
const STRETCH: u64 = 0x400_0000;

/// How many blocks of 256 names a stretch has.
const STRETCH_BLOCKS: u64 = 0x4_0000;

/// Spreads the blocks of a stretch. It is odd, so that no two blocks have one product, and comes from the tables of multipliers of
/// linear congruential generators, which are chosen so that the products of numbers in a row lie well apart.
const BLOCK_MULTIPLIER: u64 = 0xd134_2543_de82_ef95;

/// How instance names are hashed by a key.
#[derive(Clone, Copy)]
pub struct InstanceNameHashing {
    /// Spreads the stretches. It is odd.
    pub(crate) stretch_multiplier: u64,
}

impl BuildHasher for InstanceNameHashing {
    type Hasher = InstanceNameHasher;

    ghost build_hasher = { λ hashing. record { stretch_multiplier = hashing.stretch_multiplier; name = 0 } };

    #[inline(always)]
    fn build_hasher(&self) -> InstanceNameHasher {
        InstanceNameHasher {
            stretch_multiplier: self.stretch_multiplier,
            name: 0,
        }
    }
}

/// Hashes instance names so that names in a row lie near each other in a table, as the references to them do in a file:
/// of 256 names in a row each four share a place, and these 64 places lie in a row; where they begin is spread. The place is
/// in the lowest bits of the hash, and the highest eight tell the names of a place apart.
///
/// The number of a table's places is a power of two. Over these the names of a stretch are spread evenly, whatever the key: at most 24
/// more share a place than the mean (counted for each number up to 2^28). Two names of different stretches share a place with a
/// probability, over the keys, of at most 4 in that number.
#[derive(Clone, Copy)]
pub struct InstanceNameHasher {
    stretch_multiplier: u64,
    name: u64,
}

impl Hasher for InstanceNameHasher {
    ghost use Rattle.p21_hash.specs.InstanceNames.{written, place_in_table};

    ghost write = { written };

    ghost finish = { place_in_table };

    #[inline(always)]
    fn finish(&self) -> u64 {
        let block = (self.name / 256 % STRETCH_BLOCKS).wrapping_mul(BLOCK_MULTIPLIER);
        let stretch = (self.name / STRETCH).wrapping_mul(self.stretch_multiplier);
        let begin = block.wrapping_add(stretch) / 0x10_0000_0000;
        let place = begin.wrapping_add(self.name % 256 / 4);
        place.wrapping_add((self.name % 256).wrapping_mul(0x100_0000_0000_0000))
    }

    #[inline(always)]
    fn write(&mut self, bytes: &[u8]) {
        let mut name = self.name;
        for byte in bytes {
            name = (name >> 8) | (u64::from(*byte) << 56);
        }
        self.name = name;
    }

    /// The same as writing its eight bytes, the lowest first.
    #[inline(always)]
    fn write_u64(&mut self, number: u64) {
        self.name = number;
    }
}
