//! Values of parameters, as C sees them.

ghost use Rattle.p21_tree.specs.Bodies.{HasBodies};
ghost use Rattle.p21_tree.specs.Plain.{plain};

use fast_float::{parse, parse_i64};
use p21_query::Found;
use p21_text::binary_bits;
use p21_tree::Param;

/// The value of a parameter.
#[repr(C)]
#[derive(Clone, Copy)]
pub struct CValue {
    /// What it is.
    pub kind: u32,
    /// 1 of an integer that `integer` holds, else 0.
    pub exact: u32,
    /// An integer, where it is exact.
    pub integer: i64,
    /// An integer or a real, as the nearest number of 64 bits.
    pub real: f64,
    /// The name that a reference gives, the elements of a list, the bits of a binary; of a logical value 0, 1 or 2.
    pub number: u64,
    /// The bytes of its text.
    pub length: u64,
}

/// A value of a kind that has no other part but a number.
fn with_number(kind: u32, number: u64) -> CValue {
    CValue {
        kind,
        exact: 0,
        integer: 0,
        real: 0.0,
        number,
        length: 0,
    }
}

/// The value of a parameter that was found, but for the length of its text.
pub(crate) fn value_of(found: Found<'_, '_>) -> CValue
    requires { HasBodies (plain found.param.now) }
{
    match found.param {
        Param::Absent => with_number(0, 0),
        Param::Derived => with_number(1, 0),
        Param::Int(spelled) => integer(spelled),
        Param::Real(spelled) => real(spelled),
        Param::Str(_) => with_number(4, 0),
        Param::Enumeration(spelled) if found.logical => with_number(6, logical(spelled)),
        Param::Enumeration(_) => with_number(5, 0),
        Param::Binary(digits) => {
            with_number(7, u64::try_from(binary_bits(digits)).unwrap_or(u64::MAX))
        }
        Param::Ref(name) => with_number(8, *name),
        Param::Items(items) => with_number(9, items.len() as u64),
        Param::Typed(_, _) => with_number(10, 1),
    }
}

/// A value of BOOLEAN or LOGICAL by its letter: false, true or unknown.
fn logical(spelled: &[u8]) -> u64 {
    match spelled.first() {
        Some(b'F') => 0,
        Some(b'T') => 1,
        _ => 2,
    }
}

fn integer(spelled: &[u8]) -> CValue {
    let value = real(spelled);
    match parse_i64(spelled) {
        Ok(integer) => CValue {
            kind: 2,
            exact: 1,
            integer,
            ..value
        },
        Err(_) => CValue { kind: 2, ..value },
    }
}

fn real(spelled: &[u8]) -> CValue {
    let real: f64 = parse(spelled).unwrap_or(0.0);
    CValue {
        real,
        ..with_number(3, 0)
    }
}
