//! What each token does to the lists and typed values that are open.

ghost use Rattle.std.specs.Prelude.{◌≡◌, [], ◌∷◌, ◌++◌, IfOk};
ghost use Rattle.p21_text.specs.Spelling.{symbol};
ghost use Rattle.p21_tree.specs.Plain.{plain};
ghost use Rattle.p21_tree.specs.Machine.{step, begin as begin_by, close_empty, by_mode, class_of, behind_key as key_mode, after, leaf, key, open_, close_, comma};
ghost use Rattle.p21_tree.specs.Opened.{mode_of, stack_of, state_of, step_of, class_view, is_typed};

use crate::few::Few;
use crate::nest::{Class, Frame, Mode, Nest, Step};
use crate::params::Param;
use p21_text::Token;
use std::alloc::{AllocError, Global};
use std::mem;

/// What a token may do among parameters.
fn class(token: Token<'_>) -> Class<'_>
    ensures { class_view result ≡ class_of (symbol token.entry) }
{
    match token {
        Token::Keyword(k) => Class::Key(k),
        Token::UserKeyword(k) => Class::Key(k),
        Token::Int(s) => Class::Leaf(Param::Int(s)),
        Token::Real(s) => Class::Leaf(Param::Real(s)),
        Token::Str(s) => Class::Leaf(Param::Str(s)),
        Token::Name(n) => Class::Leaf(Param::Ref(n)),
        Token::Enumeration(s) => Class::Leaf(Param::Enumeration(s)),
        Token::Binary(s) => Class::Leaf(Param::Binary(s)),
        Token::Dollar => Class::Leaf(Param::Absent),
        Token::Star => Class::Leaf(Param::Derived),
        Token::LParen => Class::Open,
        Token::RParen => Class::Close,
        Token::Comma => Class::Comma,
        Token::Iso => Class::Other,
        Token::EndIso => Class::Other,
        Token::Equals => Class::Other,
        Token::Semi => Class::Other,
        Token::End => Class::Other,
        Token::Bad => Class::Other,
    }
}

/// A keyword stands where a parameter may begin.
fn begin_typed<'a>(nest: &Nest<'a>, keyword: &'a [u8]) -> Step<'a>
    ensures { step_of nest.now result ≡ begin_by (stack_of nest.now) nest.now.room (key keyword.now) }
{
    if nest.room == 0 {
        Step::Refused
    } else {
        Step::Go(Mode::Key(keyword))
    }
}

/// A vector with no parameter, in the memory that was kept for one.
fn emptied<'a>(alloc: Global, spare: &mut Vec<Param<'a>>) -> Vec<Param<'a>>
    ensures { result.items ≡ [] }
{
    let mut empty = mem::replace(spare, Vec::new(alloc));
    if !empty.is_empty() {
        empty.clear();
    }
    empty
}

/// A parenthesis stands where a parameter may begin.
fn begin_list<'a>(alloc: Global, nest: &mut Nest<'a>) -> Result<Step<'a>, AllocError>
    ensures { IfOk result (λ r. step_of nest.new r ≡ begin_by (stack_of nest.old) nest.old.room open_) }
{
    if nest.room == 0 {
        return Ok(Step::TooDeep);
    }
    let inner = emptied(alloc, &mut nest.spare);
    let outer = mem::replace(&mut nest.current, inner);
    nest.room -= 1;
    nest.frames.push(Frame::List(outer))?;
    Ok(Step::Go(Mode::First))
}

/// A list is closed that has no parameter.
fn close_none<'a>(alloc: Global, nest: &mut Nest<'a>) -> Step<'a>
    ensures { step_of nest.new result ≡ close_empty (stack_of nest.old) nest.old.room }
{
    if !nest.current.is_empty() {
        return Step::Refused;
    }
    match nest.frames.pop() {
        None => Step::Closed(Few::from_vec(Vec::new(alloc))),
        Some(Frame::List(outer)) => {
            nest.spare = mem::replace(&mut nest.current, outer);
            nest.room += 1;
            Step::Go(Mode::After(Param::Items(Vec::new(alloc))))
        }
        Some(Frame::Typed(_)) => Step::Refused,
    }
}

/// The parenthesis of a typed parameter is opened.
fn open_typed<'a>(nest: &mut Nest<'a>, keyword: &'a [u8]) -> Result<Step<'a>, AllocError>
    ensures { IfOk result (λ r. step_of nest.new r ≡ by_mode (key_mode keyword.now) (stack_of nest.old) nest.old.room open_) }
{
    if nest.room == 0 {
        return Ok(Step::Refused);
    }
    nest.room -= 1;
    nest.frames.push(Frame::Typed(keyword))?;
    Ok(Step::Go(Mode::Want))
}

/// Whether the innermost open parenthesis is that of a typed parameter.
fn in_typed(nest: &Nest<'_>) -> bool
    ensures { result ≡ is_typed (stack_of nest.now) }
{
    match nest.frames.as_slice().last() {
        Some(Frame::Typed(_)) => true,
        Some(Frame::List(_)) => false,
        None => false,
    }
}

/// A comma stands after a parameter.
fn separate<'a>(nest: &mut Nest<'a>, param: Param<'a>) -> Result<Step<'a>, AllocError>
    ensures { IfOk result (λ r. step_of nest.new r ≡ by_mode (after (plain param.entry)) (stack_of nest.old) nest.old.room comma) }
{
    if in_typed(nest) {
        return Ok(Step::Refused);
    }
    nest.current.push(param)?;
    Ok(Step::Go(Mode::Want))
}

/// The parameters of a list that ends, in a vector of exactly their size: those before the last one, and that one. The
/// memory of the former is kept.
fn exactly<'a>(
    alloc: Global,
    before: &mut Vec<Param<'a>>,
    last: Param<'a>,
) -> Result<Vec<Param<'a>>, AllocError>
    ensures { IfOk result (λ r. r.items ≡ before.old.items ++ last.entry ∷ []) }
{
    let len = before.len().checked_add(1).ok_or(AllocError)?;
    let mut exact = Vec::with_capacity(alloc, len)?;
    exact.append(before)?;
    exact.push(last)?;
    Ok(exact)
}

/// The parameters of a record that ends: those before the last one, and that one. A lone one takes no memory.
fn closed<'a>(
    alloc: Global,
    before: &mut Vec<Param<'a>>,
    last: Param<'a>,
) -> Result<Few<Param<'a>>, AllocError>
    ensures { IfOk result (λ r. r ≡ before.old.items ++ last.entry ∷ []) }
{
    if before.is_empty() {
        return Ok(Few::lone(last));
    }
    Ok(Few::from_vec(exactly(alloc, before, last)?))
}

/// A parenthesis is closed after a parameter.
fn close<'a>(alloc: Global, nest: &mut Nest<'a>, param: Param<'a>) -> Result<Step<'a>, AllocError>
    ensures { IfOk result (λ r. step_of nest.new r ≡ by_mode (after (plain param.entry)) (stack_of nest.old) nest.old.room close_) }
{
    match nest.frames.pop() {
        None => Ok(Step::Closed(closed(alloc, &mut nest.current, param)?)),
        Some(Frame::List(outer)) => {
            let items = exactly(alloc, &mut nest.current, param)?;
            nest.spare = mem::replace(&mut nest.current, outer);
            nest.room += 1;
            Ok(Step::Go(Mode::After(Param::Items(items))))
        }
        Some(Frame::Typed(keyword)) => {
            nest.room += 1;
            Ok(Step::Go(Mode::After(Param::Typed(keyword, Box::new(alloc, param)?))))
        }
    }
}

/// A parameter of one token stands there.
fn take_leaf<'a>(nest: &Nest<'a>, mode: Mode<'a>, param: Param<'a>) -> Step<'a>
    ensures { step_of nest.now result ≡ by_mode (mode_of mode.entry) (stack_of nest.now) nest.now.room (leaf (plain param.entry)) }
{
    match mode {
        Mode::First => Step::Go(Mode::After(param)),
        Mode::Want => Step::Go(Mode::After(param)),
        Mode::Key(_) => Step::Refused,
        Mode::After(_) => Step::Refused,
    }
}

/// A keyword stands there.
fn take_key<'a>(nest: &Nest<'a>, mode: Mode<'a>, keyword: &'a [u8]) -> Step<'a>
    ensures { step_of nest.now result ≡ by_mode (mode_of mode.entry) (stack_of nest.now) nest.now.room (key keyword.now) }
{
    match mode {
        Mode::First => begin_typed(nest, keyword),
        Mode::Want => begin_typed(nest, keyword),
        Mode::Key(_) => Step::Refused,
        Mode::After(_) => Step::Refused,
    }
}

/// An opening parenthesis stands there.
fn take_open<'a>(alloc: Global, nest: &mut Nest<'a>, mode: Mode<'a>) -> Result<Step<'a>, AllocError>
    ensures { IfOk result (λ r. step_of nest.new r ≡ by_mode (mode_of mode.entry) (stack_of nest.old) nest.old.room open_) }
{
    match mode {
        Mode::First => begin_list(alloc, nest),
        Mode::Want => begin_list(alloc, nest),
        Mode::Key(keyword) => open_typed(nest, keyword),
        Mode::After(_) => Ok(Step::Refused),
    }
}

/// A closing parenthesis stands there.
fn take_close<'a>(
    alloc: Global,
    nest: &mut Nest<'a>,
    mode: Mode<'a>,
) -> Result<Step<'a>, AllocError>
    ensures { IfOk result (λ r. step_of nest.new r ≡ by_mode (mode_of mode.entry) (stack_of nest.old) nest.old.room close_) }
{
    match mode {
        Mode::First => Ok(close_none(alloc, nest)),
        Mode::Want => Ok(Step::Refused),
        Mode::Key(_) => Ok(Step::Refused),
        Mode::After(param) => close(alloc, nest, param),
    }
}

/// A comma stands there.
fn take_comma<'a>(nest: &mut Nest<'a>, mode: Mode<'a>) -> Result<Step<'a>, AllocError>
    ensures { IfOk result (λ r. step_of nest.new r ≡ by_mode (mode_of mode.entry) (stack_of nest.old) nest.old.room comma) }
{
    match mode {
        Mode::First => Ok(Step::Refused),
        Mode::Want => Ok(Step::Refused),
        Mode::Key(_) => Ok(Step::Refused),
        Mode::After(param) => separate(nest, param),
    }
}

/// Takes the next token.
pub fn take_token<'a>(
    alloc: Global,
    nest: &mut Nest<'a>,
    mode: Mode<'a>,
    token: Token<'a>,
) -> Result<Step<'a>, AllocError>
    ensures { IfOk result (λ r. step_of nest.new r ≡ step (state_of nest.old mode.entry) (symbol token.entry)) }
{
    match class(token) {
        Class::Leaf(param) => Ok(take_leaf(nest, mode, param)),
        Class::Key(keyword) => Ok(take_key(nest, mode, keyword)),
        Class::Open => take_open(alloc, nest, mode),
        Class::Close => take_close(alloc, nest, mode),
        Class::Comma => take_comma(nest, mode),
        Class::Other => Ok(Step::Refused),
    }
}
