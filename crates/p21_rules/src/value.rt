//! Values as bytes.

ghost use Rattle.std.specs.Prelude.{◌≡◌, ◌++◌, false, map, true, IfOk, OnOk};
ghost use Rattle.p21_express.specs.Schema.{Expr};
ghost use Rattle.p21_tree.specs.Bodies.{AllHaveBodies, HasBodies};
ghost use Rattle.p21_tree.specs.Plain.{plain, plain_all};
ghost use Rattle.p21_tree.specs.Tree.{items as listed_items};
ghost use Rattle.p21_rules.specs.Elements.{AreElements, IsElementsOf};
ghost use Rattle.p21_rules.specs.Pushed.{AreEachPushed, IsPushed, codes_code};

use crate::binary::push_binary;
use crate::code::{push_bytes, push_number};
use crate::elements::{Elements, elements_of, elements_typed};
use crate::number::{push_integer, push_real};
use crate::text::push_text;
use p21_schema::Schema;
use p21_tree::Param;
use std::alloc::AllocError;

/// Adds the value of a parameter of a type whose lists have these elements, and answers whether it is one that is compared. If not, what was
/// added means nothing.
#[cycle(values)]
pub(crate) fn push_value<'s>(
    schema: &'s Schema,
    elements: Option<Elements<'s>>,
    code: &mut Vec<u8>,
    param: &Param<'_>,
) -> Result<bool, AllocError>
    requires elements { (x : Expr) × AreElements schema.now x elements }
    requires bodies { HasBodies (plain param.now) }
    ensures { (x : Expr) → AreElements schema.entry.now x elements.entry → IfOk result (IsPushed schema.entry.now x (plain param.now) code.old.items code.new.items) }
{
    match param {
        Param::Int(text) => {
            push_integer(code, text)?;
            Ok(true)
        }
        Param::Real(text) => push_real(code, text),
        Param::Str(body) => {
            push_text(code, body)?;
            Ok(true)
        }
        Param::Enumeration(name) => {
            code.push(3)?;
            push_bytes(code, name)?;
            Ok(true)
        }
        Param::Binary(body) => {
            push_binary(code, body)?;
            Ok(true)
        }
        Param::Ref(name) => {
            code.push(4)?;
            push_number(code, *name)?;
            Ok(true)
        }
        Param::Items(params) => match elements {
            Some(elements) => push_list(schema, elements, code, params),
            None => Ok(false),
        },
        Param::Typed(keyword, inner) => {
            code.push(5)?;
            push_bytes(code, keyword)?;
            push_value(schema, elements_typed(schema, keyword), code, inner)
        }
        _ => Ok(false),
    }
}

/// Adds the value of a list with such elements, likewise.
#[cycle(values)]
fn push_list<'s>(
    schema: &'s Schema,
    elements: Elements<'s>,
    code: &mut Vec<u8>,
    params: &[Param<'_>],
) -> Result<bool, AllocError>
    requires elements { (x : Expr) × IsElementsOf schema.now x elements }
    requires bodies { AllHaveBodies params.now }
    ensures { (x : Expr) → IsElementsOf schema.entry.now x elements.entry → IfOk result (IsPushed schema.entry.now x (listed_items (plain_all params.now)) code.old.items code.new.items) }
{
    schema.fits();
    let inner = elements_of(schema, elements.item);
    if elements.ordered {
        code.push(7)?;
        return push_ordered(schema, inner, code, params);
    }
    code.push(8)?;
    push_unordered(schema, inner, code, params)
}

/// Adds the values of elements in their order, and their end.
#[cycle(values)]
fn push_ordered<'s>(
    schema: &'s Schema,
    elements: Option<Elements<'s>>,
    code: &mut Vec<u8>,
    params: &[Param<'_>],
) -> Result<bool, AllocError>
    requires elements { (e : Expr) × AreElements schema.now e elements }
    requires bodies { AllHaveBodies params.now }
    ensures { (e : Expr) → AreElements schema.entry.now e elements.entry → IfOk result (AreEachPushed schema.entry.now e true (plain_all params.now) code.old.items code.new.items) }
{
    for param in params {
        if !push_value(schema, elements, code, param)? {
            return Ok(false);
        }
    }
    code.push(0)?;
    Ok(true)
}

/// Adds the values of elements in the order of their codes, and their end.
#[cycle(values)]
fn push_unordered<'s>(
    schema: &'s Schema,
    elements: Option<Elements<'s>>,
    code: &mut Vec<u8>,
    params: &[Param<'_>],
) -> Result<bool, AllocError>
    requires elements { (e : Expr) × AreElements schema.now e elements }
    requires bodies { AllHaveBodies params.now }
    ensures { (e : Expr) → AreElements schema.entry.now e elements.entry → IfOk result (AreEachPushed schema.entry.now e false (plain_all params.now) code.old.items code.new.items) }
{
    let alloc = *code.allocator();
    let mut codes = Vec::new(alloc);
    for param in params {
        let mut own = Vec::new(alloc);
        if !push_value(schema, elements, &mut own, param)? {
            return Ok(false);
        }
        codes.push(own)?;
    }
    codes.sort()?;
    push_codes(code, &codes)?;
    Ok(true)
}

/// Adds codes one after the other, and their end.
fn push_codes(code: &mut Vec<u8>, codes: &[Vec<u8>]) -> Result<(), AllocError>
    ensures { OnOk result (code.new.items ≡ code.old.items ++ codes_code (map (λ c. c.items) codes.now)) }
{
    for own in codes {
        code.extend_from_slice(own)?;
    }
    code.push(0)?;
    Ok(())
}
