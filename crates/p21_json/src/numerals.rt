//! Integers and reals.

ghost use Rattle.std.specs.Prelude.{◌≡◌, ◌++◌, OnOk, string_bytes};
ghost use Rattle.p21_json.specs.Numerals.{begins_with_digit, numeral_of, with_fraction, without_zeros};
ghost use Rattle.p21_json.specs.Spelled.{text_of};

use std::alloc::AllocError;

/// Makes a text of an integer or a real.
pub(crate) fn write_numeral(text: &mut String, spelled: &[u8]) -> Result<(), AllocError>
    ensures { OnOk result (string_bytes text.new ≡ text_of (numeral_of spelled.now)) }
{
    text.clear();
    let Some((first, rest)) = spelled.split_first() else {
        return Ok(());
    };
    if *first == b'-' {
        text.push('-')?;
        push_fraction(text, behind_zeros(rest))
    } else if *first == b'+' {
        push_fraction(text, behind_zeros(rest))
    } else {
        push_fraction(text, behind_zeros(spelled))
    }
}

/// Whether a digit is the first byte.
fn begins_with_digit(text: &[u8]) -> bool
    ensures { result ≡ begins_with_digit text.now }
{
    match text.split_first() {
        Some((first, _)) => first.is_ascii_digit(),
        None => false,
    }
}

/// What is left without the zeros in front that a further digit follows.
fn behind_zeros(digits: &[u8]) -> &[u8]
    ensures { result.now ≡ without_zeros digits.entry.now }
{
    let mut rest = digits;
    while let Some((first, behind)) = rest.split_first() {
        if *first != b'0' || !begins_with_digit(behind) {
            return rest;
        }
        rest = behind;
    }
    rest
}

/// Adds digits, with a zero after a point that no digit follows.
fn push_fraction(text: &mut String, digits: &[u8]) -> Result<(), AllocError>
    ensures { OnOk result (string_bytes text.new ≡ string_bytes text.old ++ text_of (with_fraction digits.now)) }
{
    let mut rest = digits;
    while let Some((first, behind)) = rest.split_first() {
        text.push(char::from(*first))?;
        if *first == b'.' && !begins_with_digit(behind) {
            text.push('0')?;
        }
        rest = behind;
    }
    Ok(())
}
