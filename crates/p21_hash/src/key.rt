//! The key of hashes.

ghost use Rattle.std.specs.Prelude.{◌≡◌};
ghost use Rattle.p21_hash.specs.Keys.{instance_names_of, keywords_of, number_of};

use crate::instance_names::InstanceNameHashing;
use crate::keywords::KeywordHashing;

/// How far the numbers of a key stand apart before they are mixed. It is odd, and 2^64 over the golden ratio.
const STEP: u64 = 0x9e37_79b9_7f4a_7c15;

/// What the hashes of one run are made of. No answer hangs on it: only how long one takes where names or keywords were chosen to collide.
///
/// The key of `default` is always the same one.
#[derive(Clone, Copy)]
pub struct HashKey {
    seed: u64,
}

impl Default for HashKey {
    ghost is_default = { λ key. key.seed ≡ 0 };

    fn default() -> HashKey {
        HashKey::new(0)
    }
}

impl HashKey {
    /// The key of a number. Where it is to keep names and keywords from colliding, nobody else knows the number.
    ///
    /// No contract of another crate depends on which hash it is, or on the key.
    pub fn new(seed: u64) -> HashKey
        ensures { result.seed ≡ seed }
    {
        HashKey { seed }
    }

    /// How instance names are hashed by this key.
    pub fn instance_names(self) -> InstanceNameHashing
        ensures { result ≡ instance_names_of self }
    {
        InstanceNameHashing {
            stretch_multiplier: self.number(1) | 1,
        }
    }

    /// How keywords are hashed by this key.
    pub fn keywords(self) -> KeywordHashing
        ensures { result ≡ keywords_of self }
    {
        KeywordHashing {
            point: (self.number(2) >> 6) | 1,
            spread_multiplier: self.number(3) | 1,
        }
    }

    /// One of the numbers of the key, as the generator SplitMix64 gives them one after the other.
    fn number(self, place: u64) -> u64
        ensures { result ≡ number_of self place }
    {
        let start = self.seed.wrapping_add(place.wrapping_mul(STEP));
        let once = (start ^ (start >> 30)).wrapping_mul(0xbf58_476d_1ce4_e5b9);
        let twice = (once ^ (once >> 27)).wrapping_mul(0x94d0_49bb_1331_11eb);
        twice ^ (twice >> 31)
    }
}
