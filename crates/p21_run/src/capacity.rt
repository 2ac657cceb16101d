//! How many pieces wait for a worker.

ghost use Rattle.std.specs.Prelude.{◌≡◌, ◌<◌, ◌≤◌};

use p21_lanes::Capacity;

/// The most bytes of a small file.
const MOST_SMALL: usize = 16_777_216;

/// How many pieces of a small file wait for a worker.
const FEW: u32 = 256;

/// How many pieces of any other file wait for a worker.
const MANY: u32 = 4096;

/// How many pieces wait for a worker where no number is asked for, by the bytes of the file: 256 up to 16,777,216 bytes, and 4096 above.
///
/// Pieces are sent in lists of a part of this number. Lists of 64 pieces wake a thread every few microseconds, which pays only for small files:
/// all their workers soon have a list.
pub fn capacity_for(bytes: usize) -> Capacity
    // Up to 16,777,216 bytes it is 256.
    ensures small { bytes ≤ 16777216 → result ≡ 256 }
    // Above it is 4096.
    ensures large { 16777216 < bytes → result ≡ 4096 }
{
    let places = if bytes <= MOST_SMALL { FEW } else { MANY };
    Capacity::new(places).unwrap()
}
