//! Reading one token.

ghost use Rattle.std.specs.Prelude.{◌≡◌, ℕ, ◌+◌, ◌<◌, ◌≤◌, ◌↔◌, IsTrue, length, IfOk, IfErr};
ghost use Rattle.p21_text.specs.Spelling.{symbol};
ghost use Rattle.p21_text.specs.Tokens.{First, IsLast, placed};
ghost use Rattle.p21_tree.specs.Texts.{fault_kind};
ghost use Rattle.p21_tree.specs.Languages.{kind_now};
ghost use Rattle.p21_tree.specs.Parts.{Terminal as TerminalOf};
ghost use Rattle.p21_tree.specs.Terminals.{terminal_of};
ghost use Rattle.p21_tree.specs.Progress.{Fails};

use crate::faults::{Fault, FaultKind};
use crate::source::Source;
use crate::terminals::{Terminal, as_terminal};
use p21_text::{Lexed, Token, next_token};

/// The next token of a source.
#[inline(always)]
pub fn token<'a>(source: Source<'a>, at: usize) -> Lexed<'a>
    requires { at ≤ length source.text.now }
    ensures first { First source.entry.text.now at (placed result) }
    ensures behind { at ≤ result.start }
    ensures ordered { result.start ≤ result.after }
    ensures within { result.after ≤ length source.entry.text.now }
    ensures advances { ¬ (IsLast (symbol result.token)) → result.start < result.after }
{
    next_token(source.text, at)
}

/// The fault that a token is where nothing goes on with it.
pub fn refused(source: Source<'_>, lexed: Lexed<'_>) -> Fault
    requires { lexed.start ≤ length source.text.now }
    ensures place { result.at ≡ source.entry.base + lexed.entry.start }
    ensures kind { result.kind ≡ fault_kind (kind_now (symbol lexed.entry.token)) }
{
    Fault {
        kind: kind(lexed.token),
        at: source.base + lexed.start as u64,
    }
}

/// The kind of fault that a token is where nothing goes on with it.
fn kind(token: Token<'_>) -> FaultKind
    ensures { result ≡ fault_kind (kind_now (symbol token.entry)) }
{
    match token {
        Token::Bad => FaultKind::BadToken,
        Token::End => FaultKind::Truncated,
        Token::Keyword(_) => FaultKind::Unexpected,
        Token::Iso => FaultKind::Unexpected,
        Token::EndIso => FaultKind::Unexpected,
        Token::LParen => FaultKind::Unexpected,
        Token::Equals => FaultKind::Unexpected,
        Token::Semi => FaultKind::Unexpected,
        Token::UserKeyword(_) => FaultKind::Unexpected,
        Token::Int(_) => FaultKind::Unexpected,
        Token::Real(_) => FaultKind::Unexpected,
        Token::Str(_) => FaultKind::Unexpected,
        Token::Name(_) => FaultKind::Unexpected,
        Token::Enumeration(_) => FaultKind::Unexpected,
        Token::Binary(_) => FaultKind::Unexpected,
        Token::Dollar => FaultKind::Unexpected,
        Token::Star => FaultKind::Unexpected,
        Token::RParen => FaultKind::Unexpected,
        Token::Comma => FaultKind::Unexpected,
    }
}

/// Whether a token is this one.
#[inline(always)]
pub fn is(token: Token<'_>, wanted: Terminal) -> bool
    ensures { IsTrue result ↔ (symbol token.entry ≡ terminal_of wanted) }
{
    match as_terminal(token) {
        Some(found) => found == wanted,
        None => false,
    }
}

/// The next token, which has to be this one.
#[inline(always)]
pub fn expect<'a>(source: Source<'a>, at: usize, wanted: Terminal) -> Result<Lexed<'a>, Fault>
    requires { at ≤ length source.text.now }
    ensures first { IfOk result (λ r. First source.entry.text.now at (placed r)) }
    ensures terminal { IfOk result (λ r. symbol r.token ≡ terminal_of wanted) }
    ensures behind { IfOk result (λ r. at ≤ r.start) }
    ensures ordered { IfOk result (λ r. r.start ≤ r.after) }
    ensures within { IfOk result (λ r. r.after ≤ length source.entry.text.now) }
    ensures fault { IfErr result (λ f. (limit : ℕ) → Fails (TerminalOf (terminal_of wanted)) limit source.entry at f) }
{
    let lexed = token(source, at);
    if is(lexed.token, wanted) {
        return Ok(lexed);
    }
    Err(refused(source, lexed))
}
