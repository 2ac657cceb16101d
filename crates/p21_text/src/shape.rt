//! How many bytes an item of a string takes.

ghost use Rattle.std.specs.Prelude.{◌≡◌, ◌+◌, ◌<◌, ◌≤◌, length, slice_index};
ghost use Rattle.p21_text.specs.ItemShapes.{byte_shape, choice_shape, control_byte, digits_run, groups_shape, hex_byte, hex_shape, high_shape, page_shape, plain_byte, shape, solidus_shape, special_shape};

use crate::bytes::{hex_run, is_hex};

/// Whether a byte stands for itself: 32 to 126, but for the apostrophe and the reverse solidus.
#[inline]
pub(crate) fn is_plain(b: u8) -> bool
    ensures { result ≡ plain_byte b }
{
    b >= 32 && b <= 126 && b != b'\'' && b != b'\\'
}

/// Whether a byte means nothing in a string: a tab, a line feed or a carriage return.
fn is_control(b: u8) -> bool
    ensures { result ≡ control_byte b }
{
    b == 9 || b == 10 || b == 13
}

/// The byte at a place, or 0 past the end.
#[inline]
pub(crate) fn byte_at(text: &[u8], at: usize) -> u8
    ensures { result ≡ slice_index text.now at }
{
    if at < text.len() { text[at] } else { 0 }
}

/// The number of bytes of the item that begins a text, or 0 where none does.
#[inline]
pub(crate) fn item_len(text: &[u8]) -> usize
    ensures shape { result ≡ shape text.now }
    ensures within { result ≤ length text.now }
{
    let first = byte_at(text, 0);
    if is_plain(first) {
        1
    } else {
        special_len(first, text)
    }
}

/// The same where the first byte is not plain.
fn special_len(first: u8, text: &[u8]) -> usize
    ensures { result ≡ special_shape first text.now }
{
    if first == b'\'' {
        return if byte_at(text, 1) == b'\'' { 2 } else { 0 };
    }
    if first == b'\\' {
        return solidus_len(text);
    }
    if first >= 128 {
        return high_len(text);
    }
    if is_control(first) { 1 } else { 0 }
}

/// The same after a reverse solidus.
fn solidus_len(text: &[u8]) -> usize
    ensures { result ≡ solidus_shape text.now }
{
    let second = byte_at(text, 1);
    if second == b'\\' {
        return 2;
    }
    if second == b'P' {
        return choice_len(text);
    }
    if second == b'S' {
        return page_len(text);
    }
    if second == b'X' { hex_len(text) } else { 0 }
}

/// `\P`, a letter and `\`.
fn choice_len(text: &[u8]) -> usize
    ensures { result ≡ choice_shape text.now }
{
    let letter = byte_at(text, 2);
    if letter >= b'A' && letter <= b'I' && byte_at(text, 3) == b'\\' {
        4
    } else {
        0
    }
}

/// `\S\` and a byte.
fn page_len(text: &[u8]) -> usize
    ensures { result ≡ page_shape text.now }
{
    let byte = byte_at(text, 3);
    if byte_at(text, 2) == b'\\' && byte >= 32 && byte <= 126 {
        4
    } else {
        0
    }
}

/// `\X` and what may follow.
fn hex_len(text: &[u8]) -> usize
    ensures { result ≡ hex_shape text.now }
{
    let third = byte_at(text, 2);
    if third == b'\\' {
        return byte_len(text);
    }
    if third == b'2' {
        return groups_len(4, text);
    }
    if third == b'4' {
        groups_len(8, text)
    } else {
        0
    }
}

/// `\X\` and two digits.
fn byte_len(text: &[u8]) -> usize
    ensures { result ≡ byte_shape text.now }
{
    if is_hex(byte_at(text, 3)) && is_hex(byte_at(text, 4)) {
        5
    } else {
        0
    }
}

/// `\X2\` or `\X4\`, groups of so many digits, and `\X0\`.
fn groups_len(size: usize, text: &[u8]) -> usize
    requires { 0 < size }
    ensures { result ≡ groups_shape size text.now }
{
    if byte_at(text, 3) != b'\\' {
        return 0;
    }
    let digits = digits_len(text);
    if digits > 0 && digits % size == 0 && text[4 + digits..].starts_with(b"\\X0\\") {
        8 + digits
    } else {
        0
    }
}

/// The number of digits after `\X2\` or `\X4\`.
pub(crate) fn digits_len(text: &[u8]) -> usize
    requires { 4 ≤ length text.now }
    ensures run { result ≡ digits_run text.now }
    ensures within { 4 + result ≤ length text.now }
{
    hex_run(&text[4..])
}

/// A byte above 127: a character in UTF-8, or the byte alone.
fn high_len(text: &[u8]) -> usize
    ensures { result ≡ high_shape text.now }
{
    match bstr::decode_utf8(text) {
        (Some(_), size) => size,
        (None, _) => 1,
    }
}
