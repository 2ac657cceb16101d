//! The names of the first instances that have certain values.

ghost use Rattle.std.specs.Prelude.{IfOk};
ghost use Rattle.indexmap.specs.IndexMap.{IsEmpty};
ghost use Rattle.p21_rules.specs.Firsts.{IsKept};

use indexmap::IndexMap;
use p21_hash::{HashKey, KeywordHashing};
use std::alloc::{AllocError, Global};

/// The name of the first instance that has the values of a key.
pub(crate) type Firsts = IndexMap<Vec<u8>, u64, KeywordHashing>;

/// No key has a name. Keys are hashed by this one.
pub(crate) fn no_firsts(alloc: Global, key: HashKey) -> Firsts
    ensures { IsEmpty result }
{
    IndexMap::with_hasher(alloc, key.keywords())
}

/// The name that is kept for a key; where none is, this one is kept for it.
pub(crate) fn first_of(
    firsts: &mut Firsts,
    key: Vec<u8>,
    name: u64,
) -> Result<Option<u64>, AllocError>
    ensures { IfOk result (λ found. IsKept firsts.old key name found firsts.new) }
{
    if let Some(first) = firsts.get(&key) {
        return Ok(Some(*first));
    }
    match firsts.insert(key, name) {
        Ok(_) => Ok(None),
        Err(_) => Err(AllocError),
    }
}
