//! Reading the data section, from the first instance to the end of the file.

ghost use Rattle.std.specs.Prelude.{◌≡◌, ℕ, ◌+◌, ◌≤◌, length, map, IfOk, IfErr, OnOk};
ghost use Rattle.p21_text.specs.Spelling.{symbol, name as name_of};
ghost use Rattle.p21_text.specs.Tokens.{First, placed};
ghost use Rattle.p21_tree.specs.Sentence.{IsTail};
ghost use Rattle.p21_tree.specs.Views.{plain_instance};
ghost use Rattle.p21_tree.specs.Parts.{EqualsOn, TailOn, Bodies, IsBehindName, IsBehindEndsec, IsBody};
ghost use Rattle.p21_tree.specs.Progress.{Covers, Finishes, Fails};
ghost use Rattle.p21_tree.specs.Texts.{OnGrammar};

use crate::faults::{Fault, TreeError};
use crate::instances::RawInstance;
use crate::nest::Nest;
use crate::records::{InstanceBody, form};
use crate::source::Source;
use crate::terminals::Terminal;
use crate::tokens::{expect, is, refused, token};
use p21_text::{Lexed, Token};
use std::alloc::Global;

/// Reads an instance whose name stands before a place, and gives it with the place after it.
#[inline(always)]
pub fn instance<'a>(
    alloc: Global,
    nest: &mut Nest<'a>,
    source: Source<'a>,
    name: u64,
    start: usize,
    at: usize,
) -> Result<(RawInstance<'a>, usize), TreeError>
    requires begins { start ≤ at }
    requires place { at ≤ length source.text.now }
    ensures ok { IfOk result (λ r. Covers (IsBehindName name (source.entry.base + start) (plain_instance r.0)) source.entry at r.1) }
    ensures behind { IfOk result (λ r. at ≤ r.1) }
    ensures within { IfOk result (λ r. r.1 ≤ length source.entry.text.now) }
    ensures fault { IfErr result (λ e. OnGrammar e (Fails EqualsOn 64 source.entry at)) }
{
    let equals = expect(source, at, Terminal::Equals)?;
    let body = form(alloc, nest, source, equals.after)?;
    let InstanceBody {
        complex,
        records,
        after,
    } = body;
    let semi = expect(source, after, Terminal::Semi)?;
    let at = source.base + start as u64;
    let instance = RawInstance {
        name,
        at,
        complex,
        records,
    };
    Ok((instance, semi.after))
}

/// Reads the rest of the file after the `ENDSEC` of the data section.
pub fn behind_endsec(source: Source<'_>, at: usize) -> Result<(), Fault>
    requires { at ≤ length source.text.now }
    ensures ok { OnOk result (Finishes IsBehindEndsec source.entry at) }
    ensures fault { IfErr result (λ f. (limit : ℕ) → Fails TailOn limit source.entry at f) }
{
    let semi = expect(source, at, Terminal::Semi)?;
    let end_iso = expect(source, semi.after, Terminal::EndIso)?;
    let last = expect(source, end_iso.after, Terminal::Semi)?;
    let _end = expect(source, last.after, Terminal::End)?;
    Ok(())
}

/// Reads the rest of the file from a token on that is no name.
fn close<'a>(source: Source<'a>, at: usize, lexed: Lexed<'a>) -> Result<(), Fault>
    requires first { First source.text.now at (placed lexed) }
    requires within { (lexed.start ≤ lexed.after) × (lexed.after ≤ length source.text.now) }
    requires no_name { (n : ℕ) → symbol lexed.token ≡ name_of n → ⊥ }
    ensures ok { OnOk result (Finishes IsTail source.entry at) }
    ensures fault { IfErr result (Fails Bodies 64 source.entry at) }
{
    if is(lexed.token, Terminal::EndSec) {
        behind_endsec(source, lexed.after)
    } else {
        Err(refused(source, lexed))
    }
}

/// Reads instances and the rest of the file after them.
pub fn instances<'a>(
    alloc: Global,
    nest: &mut Nest<'a>,
    source: Source<'a>,
    at: usize,
) -> Result<Vec<RawInstance<'a>>, TreeError>
    requires { at ≤ length source.text.now }
    ensures ok { IfOk result (λ r. Finishes (λ ts. IsBody ts (map plain_instance r.items)) source.entry at) }
    ensures fault { IfErr result (λ e. OnGrammar e (Fails Bodies 64 source.entry at)) }
{
    let mut instances = Vec::new(alloc);
    let mut place = at;
    'instances: loop {
        let lexed = token(source, place);
        let Token::Name(name) = lexed.token else {
            close(source, place, lexed)?;
            return Ok(instances);
        };
        let (read, after) = instance(alloc, nest, source, name, lexed.start, lexed.after)?;
        instances.push(read)?;
        place = after;
    }
}
