//! The report of some instances.

ghost use Rattle.std.specs.Prelude.{◌≡◌, ◌++◌, List, length, map, IfOk, OnOk};
ghost use Rattle.p21_counts.specs.Counts.{IsCounts, count_line};
ghost use Rattle.p21_counts.specs.Tally.{IsTallyOf, entry_lines, key_cmp, key_eq, tally_lines};
ghost use Rattle.indexmap.specs.IndexMap.{keys, IsUnique};
ghost use Rattle.p21_tree.specs.Sentence.{Instance};
ghost use Rattle.p21_tree.specs.Views.{plain_instance};

use crate::tally::{Keywords, Tally, tally_of};
use itoa::Buffer;
use p21_hash::HashKey;
use p21_tree::RawInstance;
use std::alloc::{AllocError, Global};

/// The counts of some instances, a line each: how many there are, how many are complex, how many instance names are
/// written as parameters, and how many records have each keyword, in byte order. A number above 2^64 - 1 is written as
/// 2^64 - 1. Memory alone can fail. Keywords are hashed by a key that is always the same: whoever knows it can choose keywords that
/// take long.
pub fn counts(alloc: Global, instances: &[RawInstance<'_>]) -> Result<Vec<u8>, AllocError>
    ensures { IfOk result (λ text. IsCounts (map plain_instance instances.now) text.items) }
{
    counts_with_key(alloc, instances, HashKey::default())
}

/// The same, where keywords are hashed by this key.
pub fn counts_with_key(
    alloc: Global,
    instances: &[RawInstance<'_>],
    key: HashKey,
) -> Result<Vec<u8>, AllocError>
    ensures { IfOk result (λ text. IsCounts (map plain_instance instances.now) text.items) }
{
    let mut tally = tally_of(alloc, instances, key)?;
    tally_text(alloc, instances.len() as u64, &mut tally)
}

/// The lines of what is counted of so many instances. The keywords are put in order. Memory alone can fail.
pub fn tally_text(
    alloc: Global,
    instances: u64,
    tally: &mut Tally<'_>,
) -> Result<Vec<u8>, AllocError>
    ensures { (is : List Instance) → instances ≡ length is → IsTallyOf tally.old is → IfOk result (λ text. IsCounts is text.items) }
{
    tally.keywords.sort_keys()?;
    let mut text = Vec::new(alloc);
    push_tally(&mut text, instances, tally)?;
    Ok(text)
}

/// Adds the lines of what is counted of so many instances.
fn push_tally(text: &mut Vec<u8>, instances: u64, tally: &Tally<'_>) -> Result<(), AllocError>
    ensures lines { OnOk result (text.new.items ≡ text.old.items ++ tally_lines instances tally.now) }
    ensures unique { OnOk result (IsUnique key_eq tally.now.keywords) }
{
    push_count(text, b"instances", instances)?;
    push_count(text, b"complex", tally.complex)?;
    push_count(text, b"references", tally.references)?;
    push_keywords(text, &tally.keywords)
}

/// Adds the lines of the keywords.
fn push_keywords(text: &mut Vec<u8>, keywords: &Keywords<'_>) -> Result<(), AllocError>
    ensures lines { OnOk result (text.new.items ≡ text.old.items ++ entry_lines keywords.now.entries) }
    ensures unique { IsUnique key_eq keywords.now }
{
    for (keyword, count) in keywords {
        push_count(text, keyword, *count)?;
    }
    Ok(())
}

/// Adds a line.
fn push_count(text: &mut Vec<u8>, word: &[u8], number: u64) -> Result<(), AllocError>
    ensures { OnOk result (text.new.items ≡ text.old.items ++ count_line word.now number) }
{
    text.extend_from_slice(word)?;
    text.extend_from_slice(b" ")?;
    text.extend_from_slice(Buffer::new().format(number).as_bytes())?;
    text.extend_from_slice(b"\n")
}
