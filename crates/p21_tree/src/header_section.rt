//! Reading the preface of a file, up to and including `DATA;`.

ghost use Rattle.std.specs.Prelude.{◌≡◌, ℕ, ◌+◌, ◌≤◌, length, map, IfOk, IfErr, OnOk};
ghost use Rattle.p21_tree.specs.declared.faults.Fault.{Fault};
ghost use Rattle.p21_tree.specs.Views.{plain_entity, plain_preface};
ghost use Rattle.p21_tree.specs.Sentence.{IsPreface, deepest};
ghost use Rattle.p21_tree.specs.Parts.{EndsecOn, HeaderRest, Prefaces, IsBehindKey, IsHeaderBody, IsOpening, IsDataStart};
ghost use Rattle.p21_tree.specs.Parts.{EntityRest};
ghost use Rattle.p21_tree.specs.Progress.{Covers, Fails};
ghost use Rattle.p21_tree.specs.Texts.{OnGrammar};

use crate::arguments::arguments;
use crate::faults::{Fault, TreeError};
use crate::headers::{HeaderEntity, Preface};
use crate::keywords::keyword;
use crate::nest::Nest;
use crate::source::Source;
use crate::terminals::Terminal;
use crate::tokens::{expect, is, refused, token};
use p21_text::first_has_content;
use std::alloc::Global;

/// Reads a header entity after its keyword, and gives it with the place after it.
fn entity<'a>(
    alloc: Global,
    nest: &mut Nest<'a>,
    source: Source<'a>,
    at: usize,
    keyword: &'a [u8],
) -> Result<(HeaderEntity<'a>, usize), TreeError>
    requires { at ≤ length source.text.now }
    ensures ok { IfOk result (λ r. Covers (IsBehindKey keyword.now (plain_entity r.0)) source.entry at r.1) }
    ensures behind { IfOk result (λ r. at ≤ r.1) }
    ensures within { IfOk result (λ r. r.1 ≤ length source.entry.text.now) }
    ensures fault { IfErr result (λ e. OnGrammar e (Fails EntityRest 63 source.entry at)) }
{
    first_has_content();
    let (params, after) = arguments(alloc, nest, source, at, 63)?;
    let semi = expect(source, after, Terminal::Semi)?;
    Ok((HeaderEntity { keyword, params }, semi.after))
}

/// Reads the header entities and the `ENDSEC` after them, and gives them with the place after it.
fn entities<'a>(
    alloc: Global,
    nest: &mut Nest<'a>,
    source: Source<'a>,
    at: usize,
) -> Result<(Vec<HeaderEntity<'a>>, usize), TreeError>
    requires { at ≤ length source.text.now }
    ensures ok { IfOk result (λ r. Covers (λ ts. IsHeaderBody ts (map plain_entity r.0.items)) source.entry at r.1) }
    ensures within { IfOk result (λ r. r.1 ≤ length source.entry.text.now) }
    ensures fault { IfErr result (λ e. OnGrammar e (Fails HeaderRest 64 source.entry at)) }
    // The faults of what follows are faults of the whole.
    ensures rest { IfOk result (λ r. (f : Fault) → Fails EndsecOn 64 source.entry r.1 f → Fails HeaderRest 64 source.entry at f) }
{
    let mut entities = Vec::new(alloc);
    let mut place = at;
    'entities: loop {
        let lexed = token(source, place);
        if is(lexed.token, Terminal::EndSec) {
            return Ok((entities, lexed.after));
        }
        let Some(keyword) = keyword(lexed.token) else {
            return Err(TreeError::Grammar(refused(source, lexed)));
        };
        let (read, after) = entity(alloc, nest, source, lexed.after, keyword)?;
        entities.push(read)?;
        place = after;
    }
}

/// Reads what stands before the header entities, and gives the place of `HEADER` in the file and the place after it.
fn opening(source: Source<'_>) -> Result<(u64, usize), Fault>
    ensures ok { IfOk result (λ r. Covers (λ ts. IsOpening ts r.0) source.entry 0 r.1) }
    ensures within { IfOk result (λ r. r.1 ≤ length source.entry.text.now) }
    ensures fault { IfErr result (Fails Prefaces 64 source.entry 0) }
{
    let iso = expect(source, 0, Terminal::Iso)?;
    let semi = expect(source, iso.after, Terminal::Semi)?;
    let header = expect(source, semi.after, Terminal::Header)?;
    let last = expect(source, header.after, Terminal::Semi)?;
    Ok((source.base + header.start as u64, last.after))
}

/// Reads what stands between the header's `ENDSEC` and the first instance, and gives the place after it.
fn data_start(source: Source<'_>, at: usize) -> Result<usize, Fault>
    requires { at ≤ length source.text.now }
    ensures ok { IfOk result (λ r. Covers (λ ts. IsDataStart ts (source.entry.base + r)) source.entry at r) }
    ensures within { IfOk result (λ r. r ≤ length source.entry.text.now) }
    ensures fault { IfErr result (Fails EndsecOn 64 source.entry at) }
{
    let semi = expect(source, at, Terminal::Semi)?;
    let data = expect(source, semi.after, Terminal::Data)?;
    let last = expect(source, data.after, Terminal::Semi)?;
    Ok(last.after)
}

/// Reads the preface, and gives it with the place after it.
pub fn preface<'a>(
    alloc: Global,
    nest: &mut Nest<'a>,
    source: Source<'a>,
) -> Result<(Preface<'a>, usize), TreeError>
    ensures ok { IfOk result (λ r. Covers (λ ts. IsPreface deepest ts (plain_preface r.0)) source.entry 0 r.1) }
    ensures within { IfOk result (λ r. r.1 ≤ length source.entry.text.now) }
    ensures data_at { IfOk result (λ r. r.0.data_at ≡ source.entry.base + r.1) }
    ensures fault { IfErr result (λ e. OnGrammar e (Fails Prefaces 64 source.entry 0)) }
{
    let (header_at, body) = opening(source)?;
    let (entities, rest) = entities(alloc, nest, source, body)?;
    let after = data_start(source, rest)?;
    let data_at = source.base + after as u64;
    Ok((
        Preface {
            header_at,
            entities,
            data_at,
        },
        after,
    ))
}
