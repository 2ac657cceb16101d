//! The key of a run, drawn by chance.

use crate::opened::Opened;
use p21_hash::HashKey;
use p21_run::{IoFault, SCHEMA_BOUNDS, Source};
use std::fs::Files;

/// The file whose bytes nobody knows before.
const RANDOM: &str = "/dev/urandom";

/// The most calls of `read`, since one may be interrupted.
const CALLS: u32 = 16;

/// A key that nobody knows before the run; or the one that is always the same, where no bytes for it can be had.
///
/// That it is drawn is tested; that it is the fixed one where no random bytes can be had is known by review.
pub fn drawn_key<R: Files>(rt: &R) -> HashKey {
    let mut random = Opened::within(rt, RANDOM, SCHEMA_BOUNDS);
    let mut bytes = [0; 8];
    for _ in 0..CALLS {
        match random.read(&mut bytes) {
            Ok(_) => return HashKey::new(u64::from_le_bytes(bytes)),
            Err(IoFault::Interrupted) => {}
            Err(IoFault::Failed) => break,
        }
    }
    HashKey::default()
}
