//! Counting instances and the records of each keyword.

ghost use Rattle.std.specs.Prelude.{◌≡◌, ◌<◌, ℕ, List, ◌++◌, [], ◌∷◌, IfOk, IsTrue, OnOk, map};
ghost use Rattle.std.specs.Borrow.{Bor};
ghost use Rattle.indexmap.specs.IndexMap.{index_map_len};
ghost use Rattle.p21_counts.specs.Tally.{CountsOf, IsRaised, IsTallyOf, StandsAt};
ghost use Rattle.p21_tree.specs.Sentence.{Instance};
ghost use Rattle.p21_tree.specs.Views.{plain_instance};

use crate::references::references_in;
use indexmap::IndexMap;
use p21_hash::{HashKey, KeywordHashing};
use p21_tree::{RawInstance, Record};
use std::alloc::{AllocError, Global};

/// How many records have each keyword, at most 2^64 - 1.
pub type Keywords<'a> = IndexMap<&'a [u8], u64, KeywordHashing>;

/// What is counted of some instances: each number is at most 2^64 - 1.
#[derive(Drop)]
pub struct Tally<'a> {
    /// How many are complex.
    pub complex: u64,
    /// How many instance names are written in them as parameters.
    pub references: u64,
    /// How many records have each keyword.
    pub keywords: Keywords<'a>,
}

/// What is counted of some instances. Memory alone can fail.
pub(crate) fn tally_of<'a>(
    alloc: Global,
    instances: &[RawInstance<'a>],
    key: HashKey,
) -> Result<Tally<'a>, AllocError>
    ensures { IfOk result (λ tally. IsTallyOf tally (map plain_instance instances.now)) }
{
    let mut tally = empty_tally(alloc, key);
    for instance in instances {
        add_instance(&mut tally, instance)?;
    }
    Ok(tally)
}

/// Nothing is counted. Keywords are hashed by this key.
fn empty_tally<'a>(alloc: Global, key: HashKey) -> Tally<'a>
    ensures { IsTallyOf result [] }
{
    Tally {
        complex: 0,
        references: 0,
        keywords: no_keywords(alloc, key),
    }
}

/// No keyword is counted. Keywords are hashed by this key. This takes no memory.
pub fn no_keywords<'a>(alloc: Global, key: HashKey) -> Keywords<'a>
    ensures { CountsOf result [] }
{
    IndexMap::with_hasher(alloc, key.keywords())
}

/// Counts one more record of a keyword. What stands at a place among the keywords is looked at first, so that the keyword is not hashed
/// where it stands there. The answer is where it stands. Memory alone can fail.
pub fn count_keyword_at<'a>(
    keywords: &mut Keywords<'a>,
    keyword: &'a [u8],
    place: usize,
) -> Result<usize, AllocError>
    ensures { (ks : List (List ℕ)) → CountsOf keywords.old ks → OnOk result (CountsOf keywords.new (ks ++ keyword.now ∷ [])) }
{
    if stands_at(keywords, keyword, place) {
        raise_at(keywords, place);
        return Ok(place);
    }
    count_keyword(keywords, keyword)?;
    Ok(keywords.get_index_of(&keyword).unwrap_or(place))
}

/// Whether a keyword stands at a place.
fn stands_at(keywords: &Keywords<'_>, keyword: &[u8], place: usize) -> bool
    ensures { IsTrue result → StandsAt keywords.now keyword.now place }
{
    match keywords.get_index(place) {
        Some((known, _)) => *known == keyword,
        None => false,
    }
}

/// Counts one more record of the keyword that stands at a place.
fn raise_at(keywords: &mut Keywords<'_>, place: usize)
    requires { place < index_map_len keywords.old }
    ensures { (w : Bor (List ℕ)) → StandsAt keywords.old w.now place → IsRaised keywords.old w 1 keywords.new }
{
    let (_, count) = keywords.pair_mut(place);
    *count = count.saturating_add(1);
}

/// Counts one more record of a keyword. Memory alone can fail.
fn count_keyword<'a>(keywords: &mut Keywords<'a>, keyword: &'a [u8]) -> Result<(), AllocError>
    ensures { (ks : List (List ℕ)) → CountsOf keywords.old ks → OnOk result (CountsOf keywords.new (ks ++ keyword.now ∷ [])) }
{
    add_count(keywords, keyword, 1)
}

/// Counts one more instance.
fn add_instance<'a>(tally: &mut Tally<'a>, instance: &RawInstance<'a>) -> Result<(), AllocError>
    ensures { (is : List Instance) → IsTallyOf tally.old is → OnOk result (IsTallyOf tally.new (is ++ plain_instance instance.now ∷ [])) }
{
    tally.complex = tally.complex.saturating_add(u64::from(instance.complex));
    tally.references = tally.references.saturating_add(references_in(instance));
    count_records(&mut tally.keywords, instance.records.as_slice())
}

/// Counts the keywords of some more records. Memory alone can fail.
pub fn count_records<'a>(
    keywords: &mut Keywords<'a>,
    records: &[Record<'a>],
) -> Result<(), AllocError>
    ensures { (ks : List (List ℕ)) → CountsOf keywords.old ks → OnOk result (CountsOf keywords.new (ks ++ map (λ r. r.keyword.now) records.now)) }
{
    for record in records {
        count_keyword(keywords, record.keyword)?;
    }
    Ok(())
}

/// Adds the counts of some more records. Memory alone can fail.
pub fn add_keywords<'a>(keywords: &mut Keywords<'a>, more: &Keywords<'a>) -> Result<(), AllocError>
    ensures { (ks js : List (List ℕ)) → CountsOf keywords.old ks → CountsOf more.now js → OnOk result (CountsOf keywords.new (ks ++ js)) }
{
    for (keyword, count) in more {
        add_count(keywords, keyword, *count)?;
    }
    Ok(())
}

/// Counts so many more records of a keyword.
fn add_count<'a>(
    keywords: &mut Keywords<'a>,
    keyword: &'a [u8],
    count: u64,
) -> Result<(), AllocError>
    ensures { OnOk result (IsRaised keywords.old keyword.entry count keywords.new) }
{
    if let Some(known) = keywords.get_mut(&keyword) {
        *known = known.saturating_add(count);
        return Ok(());
    }
    match keywords.insert(keyword, count) {
        Ok(_) => Ok(()),
        Err(_) => Err(AllocError),
    }
}
