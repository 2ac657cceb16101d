//! Counting the references to instances.

ghost use Rattle.std.specs.Prelude.{◌≡◌, IfOk, OnOk, if◌then◌else◌, nat_eq};
ghost use Rattle.std.specs.Prelude.{ℕ, Some};
ghost use Rattle.indexmap.specs.IndexMap.{IsEmpty, get};
ghost use Rattle.p21_rules.specs.Counters.{AreCounted, count_of, next_counter};

use indexmap::IndexMap;
use p21_hash::{HashKey, InstanceNameHashing};
use std::alloc::{AllocError, Global};

/// How often an instance was referred to.
#[derive(Clone, Copy, Drop)]
pub(crate) struct Counter {
    count: u64,
    /// The place of the last instance that was counted.
    last: usize,
}

/// The counters of instances by their names. One that has none was not referred to.
pub(crate) type Counters = IndexMap<u64, Counter, InstanceNameHashing>;

/// No instance was referred to. Names are hashed by this key.
pub(crate) fn no_counters(alloc: Global, key: HashKey) -> Counters
    ensures { IsEmpty result }
{
    IndexMap::with_hasher(alloc, key.instance_names())
}

/// How often the instance of this name was counted.
pub(crate) fn count_of(counters: &Counters, name: u64) -> u64
    ensures { result ≡ count_of (get nat_eq counters.now name) }
{
    match counters.get(&name) {
        Some(counter) => counter.count,
        None => 0,
    }
}

/// Counts references to these names from the instance at a place: each of them in a bag, and else the instance once for each name.
pub(crate) fn count_names(
    counters: &mut Counters,
    is_bag: bool,
    place: usize,
    names: &[u64],
) -> Result<(), AllocError>
    ensures { OnOk result (AreCounted is_bag place names.now counters.old counters.new) }
{
    for name in names {
        count_name(counters, is_bag, place, *name)?;
    }
    Ok(())
}

/// Counts a reference to this name.
fn count_name(
    counters: &mut Counters,
    is_bag: bool,
    place: usize,
    name: u64,
) -> Result<(), AllocError>
    ensures { OnOk result ((n : ℕ) → get nat_eq counters.new n ≡ (if nat_eq name n then Some (next_counter is_bag place (get nat_eq counters.old name)) else get nat_eq counters.old n)) }
{
    let counter = counters.get(&name).copied();
    let next = next_counter(counter, is_bag, place)?;
    match counters.insert(name, next) {
        Ok(_) => Ok(()),
        Err(_) => Err(AllocError),
    }
}

/// The counter after one more reference from the instance at a place. A count of 2^64 is none.
fn next_counter(counter: Option<Counter>, is_bag: bool, place: usize) -> Result<Counter, AllocError>
    ensures { IfOk result (λ next. next ≡ next_counter is_bag place counter) }
{
    let Some(counter) = counter else {
        return Ok(Counter {
            count: 1,
            last: place,
        });
    };
    if !is_bag && counter.last == place {
        return Ok(counter);
    }
    match counter.count.checked_add(1) {
        Some(count) => Ok(Counter { count, last: place }),
        None => Err(AllocError),
    }
}
