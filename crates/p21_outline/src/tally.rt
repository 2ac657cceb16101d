//! Counting the instances of an outline.

ghost use Rattle.std.specs.Prelude.{◌++◌, ◌∷◌, ℕ, List, [], All, IfOk, OnOk, map};
ghost use Rattle.std.specs.Fork.{slice_chunk};
ghost use Rattle.p21_schema.specs.Ancestry.{entity_id};
ghost use Rattle.p21_schema.specs.Place.{IsEntityOf, entity_name};
ghost use Rattle.p21_tree.specs.Views.{plain_instance};
ghost use Rattle.p21_check.specs.EntitySet.{keywords as instance_keywords};
ghost use Rattle.p21_counts.specs.Counts.{keywords_of};
ghost use Rattle.p21_counts.specs.Tally.{CountsOf, IsTallyOf};
ghost use Rattle.p21_join.specs.Model.{plain_instances};
ghost use Rattle.p21_outline.specs.Rows.{AreRows-prop, IsRow, row_instance};
ghost use Rattle.p21_outline.specs.Outline.{outlined_instances};

use crate::columns::{Held, Row, entity_at};
use crate::outline::Outline;
use p21_counts::{Keywords, Tally, add_keywords, count_keyword_at, count_records, no_keywords};
use p21_schema::Schema;
use p21_tree::RawInstance;
use rayon::current_num_threads;
use std::alloc::{AllocError, Global};
use std::thread::{Threads, map_indices};

/// The fewest instances that are worth a thread of their own.
const FEWEST: usize = 65536;

impl<'a> Outline<'a> {
    ghost use Rattle.p21_outline.specs.Outline.{AreOutlined};

    /// What is counted of the instances, by several threads where there are many. The outline was made by this schema. The tally
    /// borrows from the schema and from the file, and not from the outline. Memory alone can fail.
    pub fn tally<R: Threads + Sync>(
        &self,
        rt: &R,
        alloc: Global,
        schema: &'a Schema,
    ) -> Result<Tally<'a>, AllocError>
        requires { AreOutlined schema.now self.now }
        // How many are complex, how many instance names are written in them, and how many records have each keyword.
        // Each number stops at 2^64 - 1.
        ensures { IfOk result (λ tally. IsTallyOf tally (plain_instances (outlined_instances self.now))) }
    {
        let counted = Counted {
            schema,
            outline: self,
        };
        let keywords = keywords_by_threads(rt, alloc, counted)?;
        Ok(Tally {
            complex: self.columns.wholes.len() as u64,
            references: self.columns.written,
            keywords,
        })
    }
}

/// An outline that is counted, with the schema by which it was made.
#[derive(Clone, Copy)]
struct Counted<'o, 'a> {
    schema: &'a Schema,
    outline: &'o Outline<'a>,
    ghost known: { All (IsRow schema.now outline.now.columns.wholes.items) outline.now.columns.rows.items } by { AreRows-prop schema.now outline.now.columns.wholes.items outline.now.columns.rows.items },
}

/// The keywords of the instances, counted by several threads where there are many. Each thread counts a part, and the counts of the
/// parts are added in their order.
fn keywords_by_threads<'a, R: Threads + Sync>(
    rt: &R,
    alloc: Global,
    counted: Counted<'_, 'a>,
) -> Result<Keywords<'a>, AllocError>
    ensures { IfOk result (λ keywords. CountsOf keywords (keywords_of (plain_instances (outlined_instances counted.entry.outline.now)))) }
{
    let len = counted.outline.len();
    let size = FEWEST.max(len.div_ceil(current_num_threads(rt)));
    let part = move |number: usize| -> Result<Keywords, AllocError>
        ensures { IfOk result (λ keywords. CountsOf keywords (keywords_of (plain_instances (slice_chunk (outlined_instances counted.entry.outline.now) size number)))) }
    { keywords_of_part(alloc, counted, size, number) };
    let parts = map_indices(rt, alloc, len.div_ceil(size), &part)?;
    let mut keywords = no_keywords(alloc, counted.schema.hash_key());
    for part in parts.as_slice() {
        match part {
            Ok(part) => add_keywords(&mut keywords, part)?,
            Err(_) => return Err(AllocError),
        }
    }
    Ok(keywords)
}

/// The keywords of the part of this number, from 0, of the instances, which are cut in parts of this size.
fn keywords_of_part<'a>(
    alloc: Global,
    counted: Counted<'_, 'a>,
    size: usize,
    number: usize,
) -> Result<Keywords<'a>, AllocError>
    ensures { IfOk result (λ keywords. CountsOf keywords (keywords_of (plain_instances (slice_chunk (outlined_instances counted.entry.outline.now) size number)))) }
{
    let columns = &counted.outline.columns;
    let rows = columns.rows.as_slice();
    let start = number.saturating_mul(size).min(rows.len());
    let (_, rest) = rows.split_at(start);
    let (part, _) = rest.split_at(size.min(rest.len()));
    keywords_of_rows(alloc, counted.schema, columns.wholes.as_slice(), part)
}

/// The keywords of the instances of some rows.
fn keywords_of_rows<'a>(
    alloc: Global,
    schema: &'a Schema,
    wholes: &[RawInstance<'a>],
    rows: &[Row<'_>],
) -> Result<Keywords<'a>, AllocError>
    requires { All (IsRow schema.now wholes.now) rows.now }
    ensures { IfOk result (λ keywords. CountsOf keywords (keywords_of (plain_instances (map (row_instance wholes.now) rows.now)))) }
{
    let mut keywords = no_keywords(alloc, schema.hash_key());
    let mut places = vec![in alloc; 0usize; schema.declared().entities.len()]?;
    for row in rows {
        count_row(&mut keywords, places.as_mut_slice(), schema, wholes, row)?;
    }
    Ok(keywords)
}

/// Counts the keywords of the instance of one more row. The places are those of the entities' names among the keywords.
fn count_row<'a>(
    keywords: &mut Keywords<'a>,
    places: &mut [usize],
    schema: &'a Schema,
    wholes: &[RawInstance<'a>],
    row: &Row<'_>,
) -> Result<(), AllocError>
    requires { IsRow schema.now wholes.now row.now }
    ensures { (ks : List (List ℕ)) → CountsOf keywords.old ks → OnOk result (CountsOf keywords.new (ks ++ instance_keywords (plain_instance (row_instance wholes.now row.now)))) }
{
    match row.held {
        Held::Simple(entity) => count_simple(keywords, places, schema, entity),
        Held::Whole(place) => count_records(keywords, wholes[place as usize].records.as_slice()),
    }
}

/// Counts the keyword of one more simple instance, by the place of its entity among those of the schema. Its name is looked for first
/// where it was counted last.
fn count_simple<'a>(
    keywords: &mut Keywords<'a>,
    places: &mut [usize],
    schema: &'a Schema,
    entity: u32,
) -> Result<(), AllocError>
    requires { IsEntityOf schema.now (entity_id entity) }
    ensures { (ks : List (List ℕ)) → CountsOf keywords.old ks → OnOk result (CountsOf keywords.new (ks ++ entity_name schema.now (entity_id entity) ∷ [])) }
{
    let name = schema.name_of(entity_at(schema, entity));
    match places.get_mut(entity as usize) {
        Some(place) => *place = count_keyword_at(keywords, name, *place)?,
        None => {
            count_keyword_at(keywords, name, 0)?;
        }
    }
    Ok(())
}
