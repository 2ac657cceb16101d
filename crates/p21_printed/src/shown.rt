//! Bytes as a terminal may show them.

ghost use Rattle.std.specs.Prelude.{◌≡◌, ◌<◌, ◌≤◌, false, length, IfSome, IfOk, OnOk};
ghost use Rattle.std.specs.Char.{is_control};
ghost use Rattle.std.specs.String.{string_bytes};
ghost use Rattle.p21_printed.specs.Printed.{IsPrinted};

use bstr::{decode_last_utf8 as decode_last, decode_utf8 as decode};
use std::alloc::{AllocError, Global};
use unicode_width::UnicodeWidthChar;

/// How many columns a byte takes that is not shown as it is.
const COLUMNS_OF_BYTE: usize = 4;

/// A text with nothing in it.
pub fn new_text(alloc: Global) -> String
    // It has no control characters but line ends.
    ensures { IsPrinted (string_bytes result) }
{
    String::new(alloc)
}

/// Adds some bytes as a terminal may show them, in so many columns at most, and says whether that was all of them. A character of
/// UTF-8 that takes one or two columns is shown as it is; each byte of any other piece as `\x1B`.
pub(crate) fn push_shown(text: &mut String, bytes: &[u8], room: usize) -> Result<bool, AllocError>
    requires { IsPrinted (string_bytes text.old) }
    ensures { IfOk result (λ _. IsPrinted (string_bytes text.new)) }
{
    let mut left = room;
    let mut at = 0;
    while at < bytes.len() {
        let (char, len) = first_piece(&bytes[at..]);
        let columns = columns_of(char, len);
        if columns > left {
            return Ok(false);
        }
        push_piece(text, char, &bytes[at..at + len])?;
        left -= columns;
        at += len;
    }
    Ok(true)
}

/// How many of the first bytes are left out, where the last of them are to be shown in so many columns.
pub(crate) fn front_len(bytes: &[u8], room: usize) -> usize
    ensures { result ≤ length bytes.now }
{
    let mut left = room;
    let mut from = bytes.len();
    while from > 0 {
        let (char, len) = last_piece(&bytes[..from]);
        let columns = columns_of(char, len);
        if columns > left {
            return from;
        }
        left -= columns;
        from -= len;
    }
    0
}

/// Adds a line end.
pub(crate) fn push_line_end(text: &mut String) -> Result<(), AllocError>
    requires { IsPrinted (string_bytes text.old) }
    ensures { OnOk result (IsPrinted (string_bytes text.new)) }
{
    text.push('\n')
}

/// Adds a character that is none of control.
fn push_char(text: &mut String, char: char) -> Result<(), AllocError>
    requires printed { IsPrinted (string_bytes text.old) }
    requires plain { is_control char ≡ false }
    ensures { OnOk result (IsPrinted (string_bytes text.new)) }
{
    text.push(char)
}

/// Adds so many blanks.
pub(crate) fn push_blanks(text: &mut String, count: usize) -> Result<(), AllocError>
    requires { IsPrinted (string_bytes text.old) }
    ensures { OnOk result (IsPrinted (string_bytes text.new)) }
{
    for _ in 0..count {
        push_char(text, ' ')?;
    }
    Ok(())
}

/// The first character of some bytes, or none where they begin with none, and how many bytes that takes.
fn first_piece(bytes: &[u8]) -> (Option<char>, usize)
    requires { 0 < length bytes.now }
    ensures some { 0 < result.1 }
    ensures within { result.1 ≤ length bytes.now }
{
    decode(bytes)
}

/// The last character of some bytes, or none where they end with none, and how many bytes that takes.
fn last_piece(bytes: &[u8]) -> (Option<char>, usize)
    requires { 0 < length bytes.now }
    ensures some { 0 < result.1 }
    ensures within { result.1 ≤ length bytes.now }
{
    decode_last(bytes)
}

/// How many columns a piece of so many bytes takes.
fn columns_of(char: Option<char>, len: usize) -> usize {
    char.and_then(columns_of_char)
        .unwrap_or(len.saturating_mul(COLUMNS_OF_BYTE))
}

/// How many columns a character takes that is shown as it is; none where it is not.
fn columns_of_char(char: char) -> Option<usize>
    ensures { IfSome result (λ _. is_control char ≡ false) }
{
    if char.is_control() {
        return None;
    }
    match char.width() {
        Some(1) => Some(1),
        Some(2) => Some(2),
        _ => None,
    }
}

/// Adds a piece: its character, or each of its bytes.
fn push_piece(text: &mut String, char: Option<char>, bytes: &[u8]) -> Result<(), AllocError>
    requires { IsPrinted (string_bytes text.old) }
    ensures { OnOk result (IsPrinted (string_bytes text.new)) }
{
    if let Some(char) = char {
        if columns_of_char(char).is_some() {
            return push_char(text, char);
        }
    }
    for byte in bytes {
        push_byte(text, *byte)?;
    }
    Ok(())
}

/// Adds a byte that is not shown as it is.
fn push_byte(text: &mut String, byte: u8) -> Result<(), AllocError>
    requires { IsPrinted (string_bytes text.old) }
    ensures { OnOk result (IsPrinted (string_bytes text.new)) }
{
    push_char(text, '\\')?;
    push_char(text, 'x')?;
    push_char(text, digit(byte / 16))?;
    push_char(text, digit(byte % 16))
}

/// A hexadecimal digit.
fn digit(value: u8) -> char
    requires { value < 16 }
    ensures { is_control result ≡ false }
{
    if value < 10 {
        (b'0' + value) as char
    } else {
        (b'A' + (value - 10)) as char
    }
}
