//! Whether a parameter fits INTEGER, REAL, NUMBER, BOOLEAN, LOGICAL, STRING or BINARY.

ghost use Rattle.std.specs.Prelude.{◌≡◌, ◌↔◌, ℕ, IsTrue};
ghost use Rattle.p21_tree.specs.Tree.{absent, derived, reference};
ghost use Rattle.p21_express.specs.Schema.{Schema, integer, number, boolean, logical, real, text, binary};
ghost use Rattle.p21_tree.specs.Plain.{plain};
ghost use Rattle.p21_tree.specs.Bodies.{HasBodies};
ghost use Rattle.p21_check.specs.Conforms.{Conforms, IsBoolean, IsLogical};

use crate::width::{is_as_long, is_as_wide};
use p21_schema::Width;
use p21_tree::Param;

pub(crate) fn is_integer(param: &Param<'_>) -> bool
    ensures { (s : Schema) → IsTrue result ↔ Conforms s integer (plain param.now) }
{
    matches!(param, Param::Int(_))
}

pub(crate) fn is_real(param: &Param<'_>) -> bool
    ensures { (s : Schema) → IsTrue result ↔ Conforms s real (plain param.now) }
{
    matches!(param, Param::Real(_))
}

/// An integer or a real.
pub(crate) fn is_number(param: &Param<'_>) -> bool
    ensures { (s : Schema) → IsTrue result ↔ Conforms s number (plain param.now) }
{
    is_integer(param) || is_real(param)
}

/// `.T.` or `.F.`
pub(crate) fn is_boolean(param: &Param<'_>) -> bool
    ensures { (s : Schema) → IsTrue result ↔ Conforms s boolean (plain param.now) }
{
    match param {
        Param::Enumeration(name) => is_boolean_name(name),
        _ => false,
    }
}

/// `.T.`, `.F.` or `.U.`
pub(crate) fn is_logical(param: &Param<'_>) -> bool
    ensures { (s : Schema) → IsTrue result ↔ Conforms s logical (plain param.now) }
{
    match param {
        Param::Enumeration(name) => is_logical_name(name),
        _ => false,
    }
}

fn is_boolean_name(name: &[u8]) -> bool
    ensures { IsTrue result ↔ IsBoolean name.now }
{
    name == b"T".as_slice() || name == b"F".as_slice()
}

fn is_logical_name(name: &[u8]) -> bool
    ensures { IsTrue result ↔ IsLogical name.now }
{
    is_boolean_name(name) || name == b"U".as_slice()
}

/// A string whose number of characters the width allows.
pub(crate) fn is_string(width: Width, param: &Param<'_>) -> bool
    requires { HasBodies (plain param.now) }
    ensures { (s : Schema) → IsTrue result ↔ Conforms s (text width) (plain param.now) }
{
    match param {
        Param::Str(raw) => is_as_wide(width, raw),
        _ => false,
    }
}

/// A binary whose number of bits the width allows.
pub(crate) fn is_binary(width: Width, param: &Param<'_>) -> bool
    requires { HasBodies (plain param.now) }
    ensures { (s : Schema) → IsTrue result ↔ Conforms s (binary width) (plain param.now) }
{
    match param {
        Param::Binary(raw) => is_as_long(width, raw),
        _ => false,
    }
}

/// `$`
pub(crate) fn is_absent(param: &Param<'_>) -> bool
    ensures { IsTrue result ↔ (plain param.now ≡ absent) }
{
    matches!(param, Param::Absent)
}

/// `*`
pub(crate) fn is_derived(param: &Param<'_>) -> bool
    ensures { IsTrue result ↔ (plain param.now ≡ derived) }
{
    matches!(param, Param::Derived)
}

/// An instance name.
pub(crate) fn is_reference(param: &Param<'_>) -> bool
    ensures { IsTrue result ↔ ((r : ℕ) × (plain param.now ≡ reference r)) }
{
    matches!(param, Param::Ref(_))
}
