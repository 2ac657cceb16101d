//! Reading the parameters of a record.

ghost use Rattle.std.specs.Prelude.{ℕ, ◌≡◌, ◌≤◌, length, IfOk, IfErr};
ghost use Rattle.p21_text.specs.Tokens.{symbols};
ghost use Rattle.p21_tree.specs.Plain.{plain_all};
ghost use Rattle.p21_tree.specs.Parts.{Closed, Arguments, IsClosed, IsArguments};
ghost use Rattle.p21_tree.specs.Progress.{Covers, Fails};
ghost use Rattle.p21_tree.specs.Texts.{OnGrammar};

use crate::faults::{Fault, FaultKind, TreeError};
use crate::few::Few;
use crate::nest::{Mode, Nest, Step};
use crate::params::Param;
use crate::source::Source;
use crate::steps::take_token;
use crate::terminals::Terminal;
use crate::tokens::{expect, refused, token};
use std::alloc::Global;

/// Reads parameters and the parenthesis that closes them, and gives them with the place after it. At most `left`
/// more parentheses may be open at once.
fn parameters<'a>(
    alloc: Global,
    nest: &mut Nest<'a>,
    source: Source<'a>,
    at: usize,
    left: usize,
) -> Result<(Few<Param<'a>>, usize), TreeError>
    requires place { at ≤ length source.text.now }
    requires few { left ≤ 64 }
    ensures ok { IfOk result (λ r. Covers (λ ts. IsClosed left (symbols ts) (plain_all r.0)) source.entry at r.1) }
    ensures behind { IfOk result (λ r. at ≤ r.1) }
    ensures within { IfOk result (λ r. r.1 ≤ length source.entry.text.now) }
    ensures fault { IfErr result (λ e. OnGrammar e (Fails Closed left source.entry at)) }
{
    nest.restart(left);
    let mut mode = Mode::First;
    let mut place = at;
    'tokens: loop {
        let lexed = token(source, place);
        match take_token(alloc, nest, mode, lexed.token)? {
            Step::Go(next) => {
                mode = next;
                place = lexed.after;
            }
            Step::Closed(params) => return Ok((params, lexed.after)),
            Step::Refused => return Err(TreeError::Grammar(refused(source, lexed))),
            Step::TooDeep => {
                let kind = FaultKind::TooDeep;
                let at = source.base + lexed.start as u64;
                return Err(TreeError::Grammar(Fault { kind, at }));
            }
        }
    }
}

/// Reads the parameters of a record in their parentheses, and gives them with the place after them. Inside, at most
/// `left` more parentheses may be open at once.
pub fn arguments<'a>(
    alloc: Global,
    nest: &mut Nest<'a>,
    source: Source<'a>,
    at: usize,
    left: usize,
) -> Result<(Few<Param<'a>>, usize), TreeError>
    requires place { at ≤ length source.text.now }
    requires few { left ≤ 64 }
    ensures ok { IfOk result (λ r. Covers (λ ts. IsArguments left ts (plain_all r.0)) source.entry at r.1) }
    ensures behind { IfOk result (λ r. at ≤ r.1) }
    ensures within { IfOk result (λ r. r.1 ≤ length source.entry.text.now) }
    ensures fault { IfErr result (λ e. OnGrammar e (Fails Arguments left source.entry at)) }
{
    let open = expect(source, at, Terminal::Open)?;
    parameters(alloc, nest, source, open.after, left)
}
