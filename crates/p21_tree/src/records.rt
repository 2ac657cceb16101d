//! Reading the records of an instance.

ghost use Rattle.std.specs.Prelude.{◌≡◌, ℕ, ◌<◌, ◌≤◌, ◌++◌, ◌∷◌, [], false, length, map, vec_len, IfOk, IfErr};
ghost use Rattle.p21_text.specs.Tokens.{Placed, symbols};
ghost use Rattle.p21_text.specs.Spelling as token_is;
ghost use Rattle.p21_tree.specs.Grammar.{IsRecord};
ghost use Rattle.p21_tree.specs.Sentence.{IsRecords, IsInstance};
ghost use Rattle.p21_tree.specs.Views.{plain_record};
ghost use Rattle.p21_tree.specs.Parts.{Arguments, SomeRecords, IsKeyed, IsSomeRecords, IsFormOf};
ghost use Rattle.p21_tree.specs.Parts.{Form as FormOf, Records as RecordsOf};
ghost use Rattle.p21_tree.specs.Progress.{Covers, Fails};
ghost use Rattle.p21_tree.specs.Texts.{OnGrammar};

use crate::arguments::arguments;
use crate::faults::TreeError;
use crate::few::Few;
use crate::instances::Record;
use crate::keywords::keyword;
use crate::nest::Nest;
use crate::source::Source;
use crate::tokens::{refused, token};
use p21_text::{Token, first_has_content};
use std::alloc::Global;

/// Reads the parameters after a keyword, and gives the record with the place after it. Inside, at most `left` more
/// parentheses may be open at once.
fn keyed<'a>(
    alloc: Global,
    nest: &mut Nest<'a>,
    source: Source<'a>,
    at: usize,
    keyword: &'a [u8],
    left: usize,
) -> Result<(Record<'a>, usize), TreeError>
    requires place { at ≤ length source.text.now }
    requires few { left ≤ 64 }
    ensures ok { IfOk result (λ r. Covers (IsKeyed left keyword.now (plain_record r.0)) source.entry at r.1) }
    ensures behind { IfOk result (λ r. at ≤ r.1) }
    ensures within { IfOk result (λ r. r.1 ≤ length source.entry.text.now) }
    ensures fault { IfErr result (λ e. OnGrammar e (Fails Arguments left source.entry at)) }
{
    first_has_content();
    let (params, after) = arguments(alloc, nest, source, at, left)?;
    Ok((Record { keyword, params }, after))
}

/// Reads a record of a complex instance, and gives it with the place after it.
fn record<'a>(
    alloc: Global,
    nest: &mut Nest<'a>,
    source: Source<'a>,
    at: usize,
) -> Result<(Record<'a>, usize), TreeError>
    requires { at ≤ length source.text.now }
    ensures ok { IfOk result (λ r. Covers (λ ts. IsRecord 63 (symbols ts) (plain_record r.0)) source.entry at r.1) }
    ensures behind { IfOk result (λ r. at ≤ r.1) }
    ensures within { IfOk result (λ r. r.1 ≤ length source.entry.text.now) }
    ensures fault { IfErr result (λ e. OnGrammar e (Fails RecordsOf 63 source.entry at)) }
{
    let lexed = token(source, at);
    let Some(keyword) = keyword(lexed.token) else {
        return Err(TreeError::Grammar(refused(source, lexed)));
    };
    keyed(alloc, nest, source, lexed.after, keyword, 62)
}

/// Reads the records of a complex instance and the parenthesis that closes them, and gives them with the place
/// after it.
fn records<'a>(
    alloc: Global,
    nest: &mut Nest<'a>,
    source: Source<'a>,
    at: usize,
) -> Result<(Vec<Record<'a>>, usize), TreeError>
    requires { at ≤ length source.text.now }
    ensures ok { IfOk result (λ r. Covers (λ ts. IsSomeRecords 63 ts (map plain_record r.0.items)) source.entry at r.1) }
    ensures some { IfOk result (λ r. 0 < vec_len r.0) }
    ensures behind { IfOk result (λ r. at ≤ r.1) }
    ensures within { IfOk result (λ r. r.1 ≤ length source.entry.text.now) }
    ensures fault { IfErr result (λ e. OnGrammar e (Fails SomeRecords 63 source.entry at)) }
{
    let mut records = Vec::new(alloc);
    let (first, behind) = record(alloc, nest, source, at)?;
    records.push(first)?;
    let mut place = behind;
    'records: loop {
        let lexed = token(source, place);
        if let Token::RParen = lexed.token {
            return Ok((records, lexed.after));
        }
        let Some(keyword) = keyword(lexed.token) else {
            return Err(TreeError::Grammar(refused(source, lexed)));
        };
        let (record, after) = keyed(alloc, nest, source, lexed.after, keyword, 62)?;
        records.push(record)?;
        place = after;
    }
}

/// What stands after the equals terminal of an instance.
#[derive(Drop)]
pub struct InstanceBody<'a> {
    /// Whether it is several records in parentheses.
    pub complex: bool,
    /// The records.
    pub records: Few<Record<'a>>,
    /// The place after them.
    pub after: usize,
}

/// Reads what stands after the equals terminal of an instance, up to its semicolon.
pub fn form<'a>(
    alloc: Global,
    nest: &mut Nest<'a>,
    source: Source<'a>,
    at: usize,
) -> Result<InstanceBody<'a>, TreeError>
    requires { at ≤ length source.text.now }
    ensures ok { IfOk result (λ r. Covers (λ ts. IsFormOf 64 ts r.complex (map plain_record r.records)) source.entry at r.after) }
    ensures some { IfOk result (λ r. 0 < length r.records) }
    ensures single { IfOk result (λ r. r.complex ≡ false → length r.records ≡ 1) }
    ensures behind { IfOk result (λ r. at ≤ r.after) }
    ensures within { IfOk result (λ r. r.after ≤ length source.entry.text.now) }
    ensures fault { IfErr result (λ e. OnGrammar e (Fails FormOf 64 source.entry at)) }
{
    let lexed = token(source, at);
    if let Token::LParen = lexed.token {
        let (records, after) = records(alloc, nest, source, lexed.after)?;
        return Ok(InstanceBody {
            complex: true,
            records: Few::from_vec(records),
            after,
        });
    }
    let Some(keyword) = keyword(lexed.token) else {
        return Err(TreeError::Grammar(refused(source, lexed)));
    };
    let (record, after) = keyed(alloc, nest, source, lexed.after, keyword, 63)?;
    Ok(InstanceBody {
        complex: false,
        records: Few::lone(record),
        after,
    })
}
