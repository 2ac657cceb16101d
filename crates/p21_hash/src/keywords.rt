//! Hashing keywords.

ghost use Rattle.std.specs.Prelude.{◌≡◌};
ghost use Rattle.p21_hash.specs.Keywords.{with_word};

use std::hash::{BuildHasher, Hasher};

/// The word that holds no byte yet.
const EMPTY_WORD: u64 = 1;

/// The least word that holds seven bytes.
const FULL_WORD: u64 = 0x100_0000_0000_0000;

/// The prime number 2^61 - 1.
const PRIME: u64 = 0x1fff_ffff_ffff_ffff;

/// How keywords are hashed by a key.
#[derive(Clone, Copy)]
pub struct KeywordHashing {
    /// Where a keyword's polynomial is evaluated. It is odd, and below 2^58.
    pub(crate) point: u64,
    /// Spreads the values upward. It is odd.
    pub(crate) spread_multiplier: u64,
}

impl BuildHasher for KeywordHashing {
    type Hasher = KeywordHasher;

    ghost build_hasher = { λ hashing. record { point = hashing.point; spread_multiplier = hashing.spread_multiplier; sum = 0; word = 1 } };

    #[inline(always)]
    fn build_hasher(&self) -> KeywordHasher {
        KeywordHasher {
            point: self.point,
            spread_multiplier: self.spread_multiplier,
            sum: 0,
            word: EMPTY_WORD,
        }
    }
}

/// Hashes keywords, which come byte by byte. What comes in longer pieces, as their length does, is skipped.
///
/// Seven bytes each are a word, a coefficient of a polynomial that is evaluated at a point of the key, modulo a prime number; the value
/// is spread by a multiplication. So two keywords of at most 7 n bytes share one of the places of a table with a probability, over the
/// keys, of at most n + 3 in the number of these, where it is a power of two up to 2^26.
#[derive(Clone, Copy)]
pub struct KeywordHasher {
    point: u64,
    spread_multiplier: u64,
    /// The value of the words before this one.
    sum: u64,
    /// The bytes after those, at most six, after a bit that is set.
    word: u64,
}

impl Hasher for KeywordHasher {
    ghost use Rattle.p21_hash.specs.Keywords.{added, spread};

    ghost write = { added };

    ghost finish = { spread };

    #[inline(always)]
    fn finish(&self) -> u64 {
        let value = self.sum.wrapping_add(self.word);
        value.wrapping_mul(self.spread_multiplier) / 0x1_0000_0000
    }

    #[inline(always)]
    fn write(&mut self, bytes: &[u8]) {
        if let [byte] = bytes {
            self.word = self.word.wrapping_mul(256).wrapping_add(u64::from(*byte));
            if self.word >= FULL_WORD {
                self.sum = with_word(self.sum, self.word, self.point);
                self.word = EMPTY_WORD;
            }
        }
    }
}

/// The value of a polynomial with one coefficient more, modulo the prime number but for a multiple of it.
#[inline(always)]
fn with_word(sum: u64, word: u64, point: u64) -> u64
    ensures { result ≡ with_word sum word point }
{
    let product = u128::from(sum.wrapping_add(word)) * u128::from(point);
    let low = (product & u128::from(PRIME)) as u64;
    let high = ((product >> 61) & 0xFFFF_FFFF_FFFF_FFFF) as u64;
    low.wrapping_add(high)
}
