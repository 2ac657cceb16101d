//! What an item of a string stands for, such as `\X\E9` or `\S\i`.

ghost use Rattle.std.specs.Prelude.{◌≡◌, ◌<◌, ◌≤◌, [], ◌∷◌, true, slice_index, take, drop, unwrap_or};
ghost use Rattle.std.specs.Prelude.{ℕ, List};
ghost use Rattle.p21_text.specs.Items.{Item};
ghost use Rattle.bstr.specs.Utf8.{decoded};
ghost use Rattle.p21_text.specs.ItemShapes.{hex_byte, hex_shape, shape, solidus_shape, special_shape};
ghost use Rattle.p21_text.specs.Meanings.{IsMeaningOf, Means, Proceeds, item_of};
ghost use Rattle.p21_text.specs.Values.{hex_digit, hex_from, hex_items, page_items, solidus_items, solidus_part, special_items, special_part};

use crate::shape::{byte_at, digits_len, is_plain};

/// An item of a string.
#[derive(Clone, Copy, PartialEq, Eq, Debug)]
pub enum StrItem {
    /// A character.
    Scalar(char),
    /// A character of a part of ISO 8859 other than the first: the letter that chooses the part, `B` to `I`, and
    /// the character's number, 160 to 254.
    Page(u8, u8),
}

/// What the item at the front of a body means.
pub(crate) enum Meaning<'a> {
    /// A line end or a tab: nothing.
    Nothing,
    /// A part of ISO 8859 is chosen for what follows.
    Part(u8),
    /// One item.
    Item(StrItem),
    /// The digits of a run: groups of eight where the flag is set, else of four.
    Run(&'a [u8], bool),
}

/// What follows from a row: the part after it, the item that it gives at once, and the digits of its groups.
#[derive(Clone, Copy)]
pub(crate) struct Progress<'a> {
    pub(crate) part: u8,
    pub(crate) item: Option<StrItem>,
    pub(crate) digits: &'a [u8],
    pub(crate) wide: bool,
}

impl<'a> Meaning<'a> {
    /// What follows from the row, where `part` was chosen before it.
    pub(crate) fn progress(self, part: u8) -> Progress<'a>
        ensures { (items : List Item) (next : ℕ) → Means self.entry part items next → Proceeds result items next }
    {
        match self {
            Meaning::Nothing => Progress {
                part,
                item: None,
                digits: &[],
                wide: false,
            },
            Meaning::Part(part) => Progress {
                part,
                item: None,
                digits: &[],
                wide: false,
            },
            Meaning::Item(item) => Progress {
                part,
                item: Some(item),
                digits: &[],
                wide: false,
            },
            Meaning::Run(digits, wide) => Progress {
                part,
                item: None,
                digits,
                wide,
            },
        }
    }
}

/// What the item at the front of a body means, under a part of ISO 8859.
pub(crate) fn meaning_of(text: &[u8], part: u8) -> Meaning<'_>
    requires some { 0 < shape text.now }
    requires part { part ≤ 9 }
    ensures { IsMeaningOf part text.entry.now result }
{
    let first = byte_at(text, 0);
    if is_plain(first) {
        return Meaning::Item(StrItem::Scalar(char::from(first)));
    }
    special_meaning(first, text, part)
}

/// The same where the first byte is not plain.
fn special_meaning(first: u8, text: &[u8], part: u8) -> Meaning<'_>
    requires some { 0 < special_shape first text.now }
    requires part { part ≤ 9 }
    ensures { Means result part (special_items first part text.entry.now) (special_part first part text.entry.now) }
{
    if first == b'\'' {
        return Meaning::Item(StrItem::Scalar('\''));
    }
    if first == b'\\' {
        return solidus_meaning(text, part);
    }
    if first >= 128 {
        return Meaning::Item(StrItem::Scalar(high_char(first, text)));
    }
    Meaning::Nothing
}

/// The character that begins a text in UTF-8, or that with the first byte's number.
fn high_char(first: u8, text: &[u8]) -> char
    ensures { result ≡ unwrap_or (decoded text.now).char first }
{
    bstr::decode_utf8(text).0.unwrap_or(char::from(first))
}

/// The same after a reverse solidus.
fn solidus_meaning(text: &[u8], part: u8) -> Meaning<'_>
    requires some { 0 < solidus_shape text.now }
    requires part { part ≤ 9 }
    ensures { Means result part (solidus_items part text.entry.now) (solidus_part part text.entry.now) }
{
    let second = byte_at(text, 1);
    if second == b'\\' {
        return Meaning::Item(StrItem::Scalar('\\'));
    }
    if second == b'P' {
        return Meaning::Part(byte_at(text, 2).saturating_sub(64));
    }
    if second == b'S' {
        return Meaning::Item(page_item(byte_at(text, 3), part));
    }
    hex_meaning(text, part)
}

/// The character after `\S\`.
fn page_item(byte: u8, part: u8) -> StrItem
    requires byte { byte ≤ 126 }
    requires part { part ≤ 9 }
    ensures { item_of result ∷ [] ≡ page_items part byte }
{
    if part == 1 {
        StrItem::Scalar(char::from(128 + byte))
    } else {
        StrItem::Page(64 + part, 128 + byte)
    }
}

/// What `\X` and what follows it mean.
fn hex_meaning(text: &[u8], part: u8) -> Meaning<'_>
    requires { 0 < hex_shape text.now }
    ensures { Means result part (hex_items text.entry.now) part }
{
    let third = byte_at(text, 2);
    if third == b'\\' {
        return Meaning::Item(StrItem::Scalar(char::from(two_digits(text))));
    }
    let digits = digits_len(text);
    Meaning::Run(&text[4..4 + digits], third == b'4')
}

/// The value of the two digits after `\X\`.
fn two_digits(text: &[u8]) -> u8
    requires first { hex_byte (slice_index text.now 3) ≡ true }
    requires second { hex_byte (slice_index text.now 4) ≡ true }
    ensures { result ≡ hex_from 0 (take 2 (drop 3 text.now)) }
{
    16 * digit_value(byte_at(text, 3)) + digit_value(byte_at(text, 4))
}

/// The value of a digit to the base 16.
pub(crate) fn digit_value(byte: u8) -> u8
    requires { hex_byte byte ≡ true }
    ensures value { result ≡ hex_digit byte }
    ensures small { result < 16 }
{
    if byte < b':' {
        byte - b'0'
    } else if byte < b'a' {
        byte - b'7'
    } else {
        byte - b'W'
    }
}
