//! The values of parameters as cells.

ghost use Rattle.std.specs.Prelude.{◌≡◌, ◌↔◌, IfOk, IsTrue, List};
ghost use Rattle.p21_express.specs.Schema.{Schema};
ghost use Rattle.p21_json.specs.Characters.{text_of_items};
ghost use Rattle.p21_json.specs.Parts.{value_parts};
ghost use Rattle.p21_json.specs.Values.{IsTextOf};
ghost use Rattle.p21_json.specs.Where.{Where, IsLogicalAt};
ghost use Rattle.p21_rows.specs.Cells.{IsCell, IsIntegerCell, IsItemCell, IsRealCell, IsText, number_cell};
ghost use Rattle.p21_text.specs.Items.{IsBody, Item, ItemsOf};
ghost use Rattle.p21_tree.specs.Bodies.{HasBodies};
ghost use Rattle.p21_tree.specs.Plain.{plain};

use p21_json::{Terms, write_string, write_value};
use p21_tree::Param;
use std::alloc::{AllocError, Global};

/// A value in a row.
#[derive(Debug, Drop)]
pub enum Cell {
    Null,
    Integer(i64),
    Real(f64),
    Text(Vec<u8>),
}

/// The value of a parameter, of which the items of enumerations are of BOOLEAN or LOGICAL, or none. Memory alone can fail.
pub(crate) fn cell_of(
    alloc: Global,
    terms: &Terms<'_>,
    param: &Param<'_>,
    logical: bool,
) -> Result<Cell, AllocError>
    requires { HasBodies (plain param.now) }
    ensures { (w : Where) → (IsTrue logical ↔ IsLogicalAt terms.now w) → IfOk result (IsCell terms.now w (plain param.now)) }
{
    match param {
        Param::Absent => Ok(Cell::Null),
        Param::Derived => Ok(Cell::Null),
        Param::Int(spelled) => integer(alloc, spelled),
        Param::Real(spelled) => real(alloc, spelled),
        Param::Str(body) => string(alloc, body),
        Param::Enumeration(spelled) => item(alloc, spelled, logical),
        Param::Ref(name) => Ok(number(*name)),
        Param::Binary(_) => json(alloc, terms, param, logical),
        Param::Items(_) => json(alloc, terms, param, logical),
        Param::Typed(_, _) => json(alloc, terms, param, logical),
    }
}

/// A number of 64 bits, as the signed one of the same bits.
pub(crate) fn number(bits: u64) -> Cell
    ensures { result ≡ number_cell bits }
{
    Cell::Integer(bits.cast_signed())
}

/// An integer; as a real where it takes more than 64 bits.
fn integer(alloc: Global, spelled: &[u8]) -> Result<Cell, AllocError>
    ensures { IfOk result (IsIntegerCell spelled.now) }
{
    match fast_float::parse_i64(spelled) {
        Ok(number) => Ok(Cell::Integer(number)),
        Err(_) => real(alloc, spelled),
    }
}

/// The nearest real.
fn real(alloc: Global, spelled: &[u8]) -> Result<Cell, AllocError>
    ensures { IfOk result (IsRealCell spelled.now) }
{
    match fast_float::parse(spelled) {
        Ok(number) => Ok(Cell::Real(number)),
        Err(_) => text(alloc, spelled),
    }
}

/// The characters of a string, whose body this is.
fn string(alloc: Global, body: &[u8]) -> Result<Cell, AllocError>
    requires { IsBody body.now }
    ensures { IfOk result (IsText (λ text. (found : List Item) × ItemsOf body.now found × (text ≡ text_of_items found))) }
{
    let mut text = String::new(alloc);
    write_string(&mut text, body)?;
    Ok(Cell::Text(text.into_bytes()))
}

/// An item of an enumeration, or a value of BOOLEAN or LOGICAL: 1, 0 or the text UNKNOWN.
fn item(alloc: Global, spelled: &[u8], logical: bool) -> Result<Cell, AllocError>
    ensures { (s : Schema) → (w : Where) → (IsTrue logical ↔ IsLogicalAt s w) → IfOk result (IsItemCell s w spelled.now) }
{
    if !logical {
        return text(alloc, spelled);
    }
    match spelled.first() {
        Some(b'T') => Ok(Cell::Integer(1)),
        Some(b'F') => Ok(Cell::Integer(0)),
        _ => text(alloc, b"UNKNOWN"),
    }
}

/// A value as JSON.
fn json(
    alloc: Global,
    terms: &Terms<'_>,
    param: &Param<'_>,
    logical: bool,
) -> Result<Cell, AllocError>
    requires { HasBodies (plain param.now) }
    ensures { (w : Where) → (IsTrue logical ↔ IsLogicalAt terms.now w) → IfOk result (IsText (IsTextOf terms.now (value_parts w (plain param.now)))) }
{
    Ok(Cell::Text(write_value(alloc, terms, param, logical)?))
}

/// A text.
pub(crate) fn text(alloc: Global, bytes: &[u8]) -> Result<Cell, AllocError>
    ensures { IfOk result (IsText (λ text. text ≡ bytes.now)) }
{
    Ok(Cell::Text(Vec::from_slice(alloc, bytes)?))
}
