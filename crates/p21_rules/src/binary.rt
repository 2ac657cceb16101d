//! Binaries by their bits as bytes.

ghost use Rattle.std.specs.Prelude.{◌≡◌, ◌<◌, ◌≤◌, ◌++◌, List, ℕ, OnOk, drop, get_or};
ghost use Rattle.p21_text.specs.Spelling.{IsBinaryBody};
ghost use Rattle.p21_rules.specs.Bits.{bits, hex_value, nibble, nibbles};
ghost use Rattle.p21_rules.specs.Code.{bytes_code, value_code};
ghost use Rattle.p21_rules.specs.Value.{binary};

use crate::code::push_scalar;
use std::alloc::AllocError;

/// The value of a digit to the base 16.
fn hex_value(digit: u8) -> u8
    ensures { result ≡ hex_value digit }
{
    if digit < b'A' {
        digit.saturating_sub(b'0')
    } else if digit < b'a' {
        digit - 55
    } else {
        digit - 87
    }
}

/// The bit at this place of four.
fn bit(value: u8, place: usize) -> u8
    requires { place < 4 }
    ensures { result ≡ get_or (nibble value) place 0 }
{
    match place {
        0 => value / 8 % 2,
        1 => value / 4 % 2,
        2 => value / 2 % 2,
        _ => value % 2,
    }
}

/// Adds the four bits of a value from this one on, in front of others.
fn push_nibble(code: &mut Vec<u8>, value: u8, from: usize) -> Result<(), AllocError>
    requires { from ≤ 4 }
    ensures { (rest : List ℕ) → OnOk result (code.new.items ++ bytes_code rest ≡ code.old.items ++ bytes_code (drop from (nibble value) ++ rest)) }
{
    for place in from..4 {
        push_scalar(code, u32::from(bit(value, place)))?;
    }
    Ok(())
}

/// Adds the bits of digits, and their end.
fn push_nibbles(code: &mut Vec<u8>, digits: &[u8]) -> Result<(), AllocError>
    ensures { OnOk result (code.new.items ≡ code.old.items ++ bytes_code (nibbles digits.now)) }
{
    for digit in digits {
        push_nibble(code, hex_value(*digit), 0)?;
    }
    code.push(0)?;
    Ok(())
}

/// Adds the bits of a binary.
pub(crate) fn push_binary(code: &mut Vec<u8>, body: &[u8]) -> Result<(), AllocError>
    requires { IsBinaryBody body.now }
    ensures { OnOk result (code.new.items ≡ code.old.items ++ value_code (binary (bits body.now))) }
{
    code.push(6)?;
    if body.len() < 2 {
        code.push(0)?;
        return Ok(());
    }
    push_nibble(code, hex_value(body[1]), usize::from(body[0] - b'0'))?;
    push_nibbles(code, &body[2..])
}
