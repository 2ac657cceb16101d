//! A walk over a piece of a file that is a simple instance, with no tree.

ghost use Rattle.std.specs.Prelude.{◌≡◌, ◌≤◌, IfOk, IfSome, IsTrue, length};
ghost use Rattle.p21_text.specs.Spelling.{end, equals, semi, symbol};
ghost use Rattle.p21_tree.specs.declared.instances.RawInstance.{RawInstance};
ghost use Rattle.p21_check.specs.WalkPiece.{IsClosed, IsHead, IsWalked};

use crate::lately::Lately;
use crate::referred::References;
use crate::walk_record::walk_parameters;
use crate::walk_value::{is_close, is_open};
use p21_schema::{EntityId, Schema};
use p21_text::{Token, next_token};
use p21_tree::Piece;
use smallvec::SmallVec;
use std::alloc::{AllocError, Global};

/// A simple instance that was passed, and has no fault by itself.
#[derive(Drop)]
pub struct Walked {
    /// The number of its name.
    pub name: u64,
    /// The place of its name, in bytes from the file's first byte.
    pub at: u64,
    /// Its entity.
    pub entity: EntityId,
    /// How many instance names are written in it as parameters.
    pub written: u64,
    /// Its references, as `push_references` adds them.
    pub references: References,
}

/// Walks over the tokens of a piece by the attributes of its entity, which is looked for where it was named lately, and builds no tree. What it finds is what `InstanceReader`,
/// `check_local_entity` and `push_references` find of a simple instance that has no fault by itself. `None` says nothing of the piece: it
/// is given up where it is anything else, where its entity has no attributes, where a value is typed and has a list in it, where two
/// declarations of an attribute count, and under the rule `Schema::distinct`. Memory alone can fail, as does what `push_references` refuses.
///
/// Cost: O(1) for each token, and as `check_local` and `push_references`.
pub fn walk_piece(
    alloc: Global,
    schema: &Schema,
    lately: &mut Lately,
    piece: Piece<'_>,
) -> Result<Option<Walked>, AllocError>
    ensures { IfOk result (λ r. IfSome r (λ w. (i : RawInstance) × IsWalked schema.now piece.entry i w)) }
{
    schema.fits();
    if schema.distinct() {
        return Ok(None);
    }
    let Some(head) = walk_head(schema, lately, piece.bytes) else {
        return Ok(None);
    };
    let mut references = SmallVec::new(alloc);
    let entity = head.entity;
    let Some(passed) = walk_parameters(schema, entity, piece.bytes, head.after, &mut references)?
    else {
        return Ok(None);
    };
    if !is_closed(piece.bytes, passed.after) {
        return Ok(None);
    }
    Ok(Some(Walked {
        name: head.name,
        at: piece.at + head.start as u64,
        entity,
        written: passed.written as u64,
        references,
    }))
}

/// What stands before the parameters of a simple instance.
#[derive(Clone, Copy)]
struct Head<'a> {
    name: u64,
    start: usize,
    keyword: &'a [u8],
    entity: EntityId,
    /// The place behind the parenthesis.
    after: usize,
}

/// Passes what stands before the parameters of a simple instance of an entity that is not abstract.
#[inline]
fn walk_head<'a>(schema: &Schema, lately: &mut Lately, text: &'a [u8]) -> Option<Head<'a>>
    ensures head { IfSome result (IsHead schema.now text.entry.now) }
    ensures start { IfSome result (λ h. h.start ≤ length text.entry.now) }
    ensures within { IfSome result (λ h. h.after ≤ length text.entry.now) }
{
    schema.fits();
    let named = next_token(text, 0);
    let Token::Name(name) = named.token else {
        return None;
    };
    let equals = next_token(text, named.after);
    if !is_equals(equals.token) {
        return None;
    }
    let key = next_token(text, equals.after);
    let Token::Keyword(keyword) = key.token else {
        return None;
    };
    let entity = lately.entity(schema, keyword)?;
    if schema.is_abstract(entity) {
        return None;
    }
    let open = next_token(text, key.after);
    if !is_open(open.token) {
        return None;
    }
    Some(Head {
        name,
        start: named.start,
        keyword,
        entity,
        after: open.after,
    })
}

/// Whether a closing parenthesis, a semicolon and the end of the text stand there.
#[inline]
fn is_closed(text: &[u8], at: usize) -> bool
    requires { at ≤ length text.now }
    ensures { IsTrue result → IsClosed text.now at }
{
    let close = next_token(text, at);
    if !is_close(close.token) {
        return false;
    }
    let semi = next_token(text, close.after);
    if !is_semi(semi.token) {
        return false;
    }
    is_end(next_token(text, semi.after).token)
}

/// Whether a token is an equals sign.
#[inline(always)]
fn is_equals(token: Token<'_>) -> bool
    ensures { IsTrue result → symbol token.entry ≡ equals }
{
    matches!(token, Token::Equals)
}

/// Whether a token is a semicolon.
#[inline(always)]
fn is_semi(token: Token<'_>) -> bool
    ensures { IsTrue result → symbol token.entry ≡ semi }
{
    matches!(token, Token::Semi)
}

/// Whether a token is the end of the text.
#[inline(always)]
fn is_end(token: Token<'_>) -> bool
    ensures { IsTrue result → symbol token.entry ≡ end }
{
    matches!(token, Token::End)
}
