//! A walk over the parameters of a simple instance, with no tree.

ghost use Rattle.std.specs.declared.alloc.Global.{Global};
ghost use Rattle.std.specs.Prelude.{◌≡◌, false, ◌+◌, ◌<◌, ◌≤◌, List, Some, IfOk, IfSome, IsTrue, length, slice_get};
ghost use Rattle.p21_express.specs.WellFormed.{Origin};
ghost use Rattle.p21_text.specs.Spelling.{comma, symbol};
ghost use Rattle.p21_schema.specs.Place.{IsEntityOf, entity_name};
ghost use Rattle.p21_schema.specs.Row.{IsAttributeOf, attribute_at};
ghost use Rattle.p21_check.specs.Attributes.{AreAttributes};
ghost use Rattle.p21_check.specs.WalkRecord.{SetOf, WalksParameters, WalksSlot, WalksStar};

use crate::attributes::{attribute, attribute_count};
use crate::binding::{Binding, binding_of};
use crate::entity_set::EntitySet;
use crate::leaf::Passed;
use crate::referred::References;
use crate::walk_value::walk_value;
use crate::wanted::wanted_by;
use p21_schema::{AttrId, EntityId, Form, Schema};
use p21_text::{Token, next_token};
use std::alloc::AllocError;

/// How many parentheses may be opened inside the one of a record.
const LEFT: usize = 63;

/// Passes the parameters of a simple instance of this entity from the place behind the parenthesis on, up to the one that closes it, where
/// each fits its attribute. The references in them come behind others. It is `None` where anything else stands there, and where a parameter has
/// a form that is not covered; then other references may have come behind.
pub(crate) fn walk_parameters(
    schema: &Schema,
    own: EntityId,
    text: &[u8],
    at: usize,
    into: &mut References,
) -> Result<Option<Passed>, AllocError>
    requires entity { IsEntityOf schema.now own }
    requires place { at ≤ length text.now }
    ensures walked { (g : Global) (os : List Origin) → AreAttributes schema.now false (entity_name schema.now own) os → IfOk result (λ r. IfSome r (WalksParameters schema.now (SetOf schema.now own) os (length os) text.now at into.old.items into.new.items)) }
    // The entity has a row.
    ensures attributes { (os : List Origin) × AreAttributes schema.now false (entity_name schema.now own) os }
    ensures within { IfOk result (λ r. IfSome r (λ p. p.after ≤ length text.now)) }
{
    schema.fits();
    let count = attribute_count(schema, false, own);
    if count == 0 {
        return Ok(None);
    }
    let Some(first) = walk_parameter(schema, own, 0, text, at, into)? else {
        return Ok(None);
    };
    let mut place = first.after;
    let mut written = first.written;
    for position in 1..count {
        let lexed = next_token(text, place);
        if !is_comma(lexed.token) {
            return Ok(None);
        }
        let Some(next) = walk_parameter(schema, own, position, text, lexed.after, into)? else {
            return Ok(None);
        };
        place = next.after;
        written += next.written;
    }
    Ok(Some(Passed {
        after: place,
        written,
    }))
}

/// Passes the parameter for an attribute of the entity's row.
#[inline]
fn walk_parameter(
    schema: &Schema,
    own: EntityId,
    position: usize,
    text: &[u8],
    at: usize,
    into: &mut References,
) -> Result<Option<Passed>, AllocError>
    requires entity { IsEntityOf schema.now own }
    requires position { (os : List Origin) × (AreAttributes schema.now false (entity_name schema.now own) os × (position < length os)) }
    requires place { at ≤ length text.now }
    ensures walked { (g : Global) (os : List Origin) → AreAttributes schema.now false (entity_name schema.now own) os → IfOk result (λ r. IfSome r (λ p. (o : Origin) × (slice_get os position ≡ Some o) × WalksSlot schema.now (SetOf schema.now own) o text.now at into.old.items into.new.items p)) }
    ensures counts { IfOk result (λ r. IfSome r (λ p. p.written + at ≤ p.after)) }
    ensures within { IfOk result (λ r. IfSome r (λ p. p.after ≤ length text.now)) }
{
    let attribute = attribute(schema, false, own, position);
    walk_slot(schema, own, attribute, text, at, into)
}

/// Passes the parameter for an attribute in a simple instance of this entity.
fn walk_slot(
    schema: &Schema,
    own: EntityId,
    attribute: AttrId,
    text: &[u8],
    at: usize,
    into: &mut References,
) -> Result<Option<Passed>, AllocError>
    requires entity { IsEntityOf schema.now own }
    requires attribute { IsAttributeOf schema.now attribute }
    requires place { at ≤ length text.now }
    ensures walked { (g : Global) → IfOk result (λ r. IfSome r (WalksSlot schema.now (SetOf schema.now own) (attribute_at schema.now attribute) text.now at into.old.items into.new.items)) }
    ensures counts { IfOk result (λ r. IfSome r (λ p. p.written + at ≤ p.after)) }
    ensures within { IfOk result (λ r. IfSome r (λ p. p.after ≤ length text.now)) }
{
    schema.fits();
    let declarations = schema.declarations(attribute);
    match binding_of(schema, &EntitySet::Simple(own), declarations) {
        Binding::By(lowest) => match &lowest.form {
            Form::Explicit { optional, texpr } => {
                let wanted = wanted_by(schema, texpr);
                walk_value(schema, texpr, *optional, wanted, text, at, LEFT, into)
            }
            Form::Derived => Ok(None),
        },
        Binding::Derived => Ok(walk_star(text, at)),
        Binding::Free => Ok(None),
        Binding::Unsaid => Ok(None),
    }
}

/// Passes an asterisk.
#[inline(always)]
fn walk_star(text: &[u8], at: usize) -> Option<Passed>
    requires { at ≤ length text.now }
    ensures walked { IfSome result (WalksStar text.now at) }
    ensures counts { IfSome result (λ p. p.written + at ≤ p.after) }
    ensures within { IfSome result (λ p. p.after ≤ length text.now) }
{
    let lexed = next_token(text, at);
    match lexed.token {
        Token::Star => Some(Passed {
            after: lexed.after,
            written: 0,
        }),
        _ => None,
    }
}

/// Whether a token is a comma.
#[inline(always)]
fn is_comma(token: Token<'_>) -> bool
    ensures { IsTrue result → symbol token.entry ≡ comma }
{
    matches!(token, Token::Comma)
}
