//! How a run is done.

use crate::capacity::capacity_for;
use p21_desk::LaneCount;
use p21_hash::HashKey;
use p21_lanes::Capacity;
use p21_schema::Rules;

/// How a run is done. What it writes hangs on `all` and `rules` alone.
#[derive(Drop)]
pub struct Options<'g, G> {
    /// What a worker passes before each list of pieces, with the number of its first one.
    pub gate: &'g G,
    /// How many workers read the file.
    pub lanes: LaneCount,
    /// How many pieces wait for a worker at most; none: as many as `capacity_for` says of the file.
    pub capacity: Option<Capacity>,
    /// Whether a check tells all faults, or the first alone. An export tells the first.
    pub all: bool,
    /// Under which rules the schema is read: with `distinct`, no SET and no LIST OF UNIQUE may name one instance twice.
    pub rules: Rules,
    /// By what key names and keywords are hashed.
    pub key: HashKey,
}

impl<G> Options<'_, G> {
    /// How many pieces of a file wait for a worker at most.
    pub fn capacity_of(&self, file: &[u8]) -> Capacity {
        match self.capacity {
            Some(capacity) => capacity,
            None => capacity_for(file.len()),
        }
    }
}
