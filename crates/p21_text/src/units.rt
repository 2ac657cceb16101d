//! Characters of `\X2\` and `\X4\`: groups of four or eight hexadecimal digits.

ghost use Rattle.std.specs.Prelude.{◌≡◌, ◌≤◌, ◌<◌, ◌^◌, ◌∷◌, ℕ, true, length, take, drop, slice_index};
ghost use Rattle.p21_text.specs.Meanings.{AreGroups, AreHex, item_of};
ghost use Rattle.p21_text.specs.Values.{alone, hex_from, high_unit, low_unit, paired, units};

use crate::meaning::{StrItem, digit_value};

/// The first character of some groups of digits, and how many digits it takes.
pub(crate) fn first_unit(digits: &[u8], wide: bool) -> (StrItem, usize)
    requires groups { AreGroups wide digits.now }
    requires some { 4 ≤ length digits.now }
    ensures value { units wide digits.now ≡ item_of result.0 ∷ units wide (drop result.1 digits.now) }
    ensures within { result.1 ≤ length digits.now }
    ensures groups { AreGroups wide (drop result.1 digits.now) }
{
    if wide {
        return (lone(wide_value(digits)), 8);
    }
    let high = group_value(digits);
    if is_high(high) && digits.len() >= 8 {
        let low = group_value(&digits[4..]);
        if is_low(low) {
            return (pair(high, low), 8);
        }
    }
    (lone(high), 4)
}

/// The value of the first four digits.
fn group_value(digits: &[u8]) -> u32
    requires hex { AreHex digits.now }
    requires some { 4 ≤ length digits.now }
    ensures value { result ≡ hex_from 0 (take 4 digits.now) }
    ensures small { result < 2 ^ 16 }
{
    let front = (u32::from(digit_value(digits[0])) * 16 + u32::from(digit_value(digits[1]))) * 256;
    front + u32::from(digit_value(digits[2])) * 16 + u32::from(digit_value(digits[3]))
}

/// The value of the first eight digits.
fn wide_value(digits: &[u8]) -> u32
    requires hex { AreHex digits.now }
    requires some { 8 ≤ length digits.now }
    ensures { result ≡ hex_from 0 (take 8 digits.now) }
{
    group_value(digits) * 65536 + group_value(&digits[4..])
}

/// A high surrogate.
fn is_high(unit: u32) -> bool
    ensures { result ≡ high_unit unit }
{
    unit >= 0xD800 && unit < 0xDC00
}

/// A low surrogate.
fn is_low(unit: u32) -> bool
    ensures { result ≡ low_unit unit }
{
    unit >= 0xDC00 && unit < 0xE000
}

/// The character of a unit by itself: U+FFFD where it is none.
fn lone(unit: u32) -> StrItem
    ensures { item_of result ≡ alone unit }
{
    StrItem::Scalar(char::from_u32(unit).unwrap_or('\u{FFFD}'))
}

/// The character of a high surrogate and the low one after it.
fn pair(high: u32, low: u32) -> StrItem
    requires high { high_unit high ≡ true }
    requires low { low_unit low ≡ true }
    ensures { item_of result ≡ paired high low }
{
    StrItem::Scalar(char::from_u32(0x10000 + 0x400 * (high - 0xD800) + (low - 0xDC00)).unwrap())
}
