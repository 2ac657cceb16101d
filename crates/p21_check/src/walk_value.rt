//! A walk over a value by its type, with no tree.

ghost use Rattle.std.specs.declared.alloc.Global.{Global};
ghost use Rattle.std.specs.Prelude.{◌≡◌, ◌+◌, ◌<◌, Bool, ◌≤◌, ℕ, List, IfOk, IfSome, IsTrue, length};
ghost use Rattle.p21_express.specs.Schema.{Expr};
ghost use Rattle.p21_text.specs.Contents.{IsContent};
ghost use Rattle.p21_text.specs.Spelling.{keyword as keyword_symbol, lparen, rparen, symbol};
ghost use Rattle.p21_text.specs.Tokens.{Placed, First, IsLast, placed};
ghost use Rattle.p21_check.specs.Known.{IsExpr, IsKnownExpr};
ghost use Rattle.p21_check.specs.Passed.{WalksValue};
ghost use Rattle.p21_check.specs.Wanted.{IsAsked};

use crate::conform::{is_defined, is_element};
use crate::leaf::{Passed, leaf_of};
use crate::referred::{References, push_asked_of_leaf};
use crate::shape::{elements_of, is_count, selected};
use crate::wanted::Wanted;
use p21_schema::{ResolvedExpr, Schema};
use p21_text::{Lexed, Token, next_token};
use std::alloc::AllocError;

/// Longer lists are given up.
const MOST_ELEMENTS: usize = 1 << 32;

/// Passes the value at a place, where it is of this type, or is `$` and may be left out; what is wanted of the references in it comes behind
/// others. At most `left` parentheses may be opened in it. It is `None` where anything else stands there, and of a value whose form is not
/// covered; then other references may have come behind. Memory alone can fail, as does what `push_references` refuses.
#[cycle(walk_value)]
pub(crate) fn walk_value<'s>(
    schema: &'s Schema,
    texpr: &'s ResolvedExpr,
    optional: bool,
    wanted: Wanted<'s>,
    text: &[u8],
    at: usize,
    left: usize,
    into: &mut References,
) -> Result<Option<Passed>, AllocError>
    requires place { at ≤ length text.now }
    requires known { IsKnownExpr schema.now texpr.now }
    requires asked { IsAsked schema.now wanted }
    ensures walked { IfOk result (λ r. IfSome r (λ p. (g : Global) (e : Expr) → IsExpr schema.entry.now texpr.entry.now e → WalksValue schema.entry.now optional e wanted.entry left text.now at into.old.items into.new.items p)) }
    ensures counts { IfOk result (λ r. IfSome r (λ p. p.written + at ≤ p.after)) }
    ensures within { IfOk result (λ r. IfSome r (λ p. p.after ≤ length text.now)) }
{
    let lexed = next_token(text, at);
    match lexed.token {
        Token::LParen => walk_list(schema, texpr, wanted, text, lexed.after, left, into),
        Token::Keyword(keyword) => {
            walk_typed(
                schema,
                texpr,
                wanted,
                keyword,
                text,
                lexed.after,
                left,
                into,
            )
        }
        _ => walk_leaf(schema, texpr, optional, wanted, lexed, into),
    }
}

/// Passes a token, where it is such a value by itself.
#[inline(always)]
fn walk_leaf<'s>(
    schema: &'s Schema,
    texpr: &ResolvedExpr,
    optional: bool,
    wanted: Wanted<'s>,
    lexed: Lexed<'_>,
    into: &mut References,
) -> Result<Option<Passed>, AllocError>
    requires known { IsKnownExpr schema.now texpr.now }
    requires asked { IsAsked schema.now wanted }
    requires content { IsContent (symbol lexed.token) }
    requires advances { ¬ (IsLast (symbol lexed.token)) → lexed.start < lexed.after }
    ensures walked { IfOk result (λ r. IfSome r (λ p. (text : List ℕ) (at left : ℕ) (e : Expr) → First text at (placed lexed.entry) → IsExpr schema.entry.now texpr.now e → WalksValue schema.entry.now optional e wanted.entry left text at into.old.items into.new.items p)) }
    ensures counts { IfOk result (λ r. IfSome r (λ p. p.written + lexed.entry.start ≤ p.after)) }
    ensures after { IfOk result (λ r. IfSome r (λ p. p.after ≡ lexed.entry.after)) }
{
    let Some(leaf) = leaf_of(lexed.token) else {
        return Ok(None);
    };
    if !is_element(schema, texpr, optional, &leaf.param) {
        return Ok(None);
    }
    push_asked_of_leaf(schema, wanted, &leaf.param, into)?;
    Ok(Some(Passed {
        after: lexed.after,
        written: leaf.written,
    }))
}

/// Passes the elements of a list behind its parenthesis, and the one that closes it.
#[cycle(walk_value)]
fn walk_list<'s>(
    schema: &'s Schema,
    texpr: &'s ResolvedExpr,
    wanted: Wanted<'s>,
    text: &[u8],
    at: usize,
    left: usize,
    into: &mut References,
) -> Result<Option<Passed>, AllocError>
    requires place { at ≤ length text.now }
    requires known { IsKnownExpr schema.now texpr.now }
    requires asked { IsAsked schema.now wanted }
    ensures walked { IfOk result (λ r. IfSome r (λ p. (g : Global) (e : Expr) (optional : Bool) (from : ℕ) (open_ : Placed) → IsExpr schema.entry.now texpr.entry.now e → First text.now from open_ → open_.token ≡ lparen → open_.after ≡ at → WalksValue schema.entry.now optional e wanted.entry left text.now from into.old.items into.new.items p)) }
    ensures counts { IfOk result (λ r. IfSome r (λ p. p.written + at ≤ p.after)) }
    ensures within { IfOk result (λ r. IfSome r (λ p. p.after ≤ length text.now)) }
{
    let Some(room) = left.checked_sub(1) else {
        return Ok(None);
    };
    let Some(elements) = elements_of(schema, texpr) else {
        return Ok(None);
    };
    let item = elements.item;
    let optional = elements.optional;
    let of_elements = wanted.elements(schema);
    let Some(first) = walk_value(schema, item, optional, of_elements, text, at, room, into)? else {
        return Ok(None);
    };
    let mut place = first.after;
    let mut written = first.written;
    let mut count: usize = 1;
    'elements: loop {
        let lexed = next_token(text, place);
        match lexed.token {
            Token::Comma => {
                let behind = lexed.after;
                let Some(next) = walk_value(
                    schema,
                    item,
                    optional,
                    of_elements,
                    text,
                    behind,
                    room,
                    into,
                )?
                else {
                    return Ok(None);
                };
                place = next.after;
                written += next.written;
                count += 1;
            }
            Token::RParen => {
                if count > MOST_ELEMENTS || !is_count(elements.array, elements.bounds, count) {
                    return Ok(None);
                }
                return Ok(Some(Passed {
                    after: lexed.after,
                    written,
                }));
            }
            _ => return Ok(None),
        }
    }
}

/// Passes a typed value behind its keyword, where what stands in its parentheses is one token.
fn walk_typed<'s>(
    schema: &'s Schema,
    texpr: &ResolvedExpr,
    wanted: Wanted<'s>,
    keyword: &[u8],
    text: &[u8],
    at: usize,
    left: usize,
    into: &mut References,
) -> Result<Option<Passed>, AllocError>
    requires place { at ≤ length text.now }
    requires known { IsKnownExpr schema.now texpr.now }
    requires asked { IsAsked schema.now wanted }
    ensures walked { IfOk result (λ r. IfSome r (λ p. (g : Global) (e : Expr) (optional : Bool) (from : ℕ) (key : Placed) → IsExpr schema.entry.now texpr.now e → First text.now from key → key.token ≡ keyword_symbol keyword.now → key.after ≡ at → WalksValue schema.entry.now optional e wanted.entry left text.now from into.old.items into.new.items p)) }
    ensures counts { IfOk result (λ r. IfSome r (λ p. p.written + at ≤ p.after)) }
    ensures within { IfOk result (λ r. IfSome r (λ p. p.after ≤ length text.now)) }
{
    if left == 0 {
        return Ok(None);
    }
    let Some(inner) = selected(schema, texpr, keyword) else {
        return Ok(None);
    };
    let asked = wanted.inside(schema, keyword);
    let open = next_token(text, at);
    if !is_open(open.token) {
        return Ok(None);
    }
    let lexed = next_token(text, open.after);
    let Some(leaf) = leaf_of(lexed.token) else {
        return Ok(None);
    };
    if !is_defined(schema, inner, &leaf.param) {
        return Ok(None);
    }
    push_asked_of_leaf(schema, asked, &leaf.param, into)?;
    let close = next_token(text, lexed.after);
    if !is_close(close.token) {
        return Ok(None);
    }
    Ok(Some(Passed {
        after: close.after,
        written: leaf.written,
    }))
}

/// Whether a token opens a parenthesis.
#[inline(always)]
pub(crate) fn is_open(token: Token<'_>) -> bool
    ensures { IsTrue result → symbol token.entry ≡ lparen }
{
    matches!(token, Token::LParen)
}

/// Whether a token closes a parenthesis.
#[inline(always)]
pub(crate) fn is_close(token: Token<'_>) -> bool
    ensures { IsTrue result → symbol token.entry ≡ rparen }
{
    matches!(token, Token::RParen)
}
