//! How long a STRING or BINARY may be, or must be.

ghost use Rattle.std.specs.Prelude.{◌↔◌, IsTrue};
ghost use Rattle.p21_text.specs.Items.{IsBody};
ghost use Rattle.p21_text.specs.Spelling.{IsBinaryBody};
ghost use Rattle.p21_check.specs.Conforms.{IsAllowed, IsString, IsBinary};

use p21_schema::Width;
use p21_text::{binary_bits, items_are_unique, string_len};

/// Whether there are exactly so many, or at most so many where the width is not fixed.
fn is_allowed(fixed: bool, width: u64, count: u128) -> bool
    ensures { IsTrue result ↔ IsAllowed fixed width count }
{
    if fixed {
        count == u128::from(width)
    } else {
        count <= u128::from(width)
    }
}

/// Whether a string has as many characters as the width allows. They are counted only where there is a width.
pub(crate) fn is_as_wide(width: Width, raw: &[u8]) -> bool
    requires { IsBody raw.now }
    ensures { IsTrue result ↔ IsString width raw.now }
{
    items_are_unique();
    match width.count {
        Some(count) => is_allowed(width.fixed, count, u128::from(string_len(raw))),
        None => true,
    }
}

/// Whether a binary has as many bits as the width allows.
pub(crate) fn is_as_long(width: Width, raw: &[u8]) -> bool
    requires { IsBinaryBody raw.now }
    ensures { IsTrue result ↔ IsBinary width raw.now }
{
    match width.count {
        Some(count) => is_allowed(width.fixed, count, binary_bits(raw)),
        None => true,
    }
}
