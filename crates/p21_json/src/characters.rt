//! The characters of strings.

ghost use Rattle.std.specs.Prelude.{◌≡◌, ◌++◌, List, OnOk, string_bytes};
ghost use Rattle.p21_text.specs.Items.{IsBody, Item, ItemsOf};
ghost use Rattle.p21_text.specs.Meanings.{item_of};
ghost use Rattle.p21_text.specs.StringItems.{items_left};
ghost use Rattle.p21_json.specs.Characters.{char_of, character, page_char, text_of_items};
ghost use Rattle.p21_json.specs.Spelled.{text_of};

use crate::pages::PAGES;
use p21_text::{StrItem, StrItems, items};
use std::alloc::AllocError;

/// The character of an item.
#[tactic(auto, unfolding(crate::specs::Characters::char_of))]
fn char_of(item: StrItem) -> char
    ensures { result ≡ char_of (item_of item) }
{
    match item {
        StrItem::Scalar(character) => character,
        StrItem::Page(letter, number) => page_char(letter, number),
    }
}

/// The character of this number in the part of ISO 8859 that the letter chooses; U+FFFD where it has none.
fn page_char(letter: u8, number: u8) -> char
    ensures { result ≡ page_char letter number }
{
    let part = usize::from(letter).saturating_sub(66);
    let place = 96 * part + usize::from(number).saturating_sub(160);
    if place < PAGES.len() {
        character(PAGES[place])
    } else {
        char::REPLACEMENT_CHARACTER
    }
}

/// The character of a code; U+FFFD where it is none.
fn character(code: u16) -> char
    ensures { result ≡ character code }
{
    char::from_u32(u32::from(code)).unwrap_or(char::REPLACEMENT_CHARACTER)
}

/// Makes a text of the characters of a string, whose body this is.
pub fn write_string(text: &mut String, body: &[u8]) -> Result<(), AllocError>
    requires { IsBody body.now }
    ensures { OnOk result ((found : List Item) × (ItemsOf body.now found × (string_bytes text.new ≡ text_of_items found))) }
{
    text.clear();
    push_items(text, items(body))
}

/// Adds the characters of items.
fn push_items(text: &mut String, mut items: StrItems<'_>) -> Result<(), AllocError>
    ensures { OnOk result (string_bytes text.new ≡ string_bytes text.old ++ text_of_items (items_left items.entry)) }
{
    while let Some(item) = items.next() {
        text.push(char_of(item))?;
    }
    Ok(())
}

/// Makes a text of bytes: each byte is a character.
pub fn write_bytes(text: &mut String, bytes: &[u8]) -> Result<(), AllocError>
    ensures { OnOk result (string_bytes text.new ≡ text_of bytes.now) }
{
    text.clear();
    push_bytes(text, bytes)
}

/// Adds bytes.
pub(crate) fn push_bytes(text: &mut String, bytes: &[u8]) -> Result<(), AllocError>
    ensures { OnOk result (string_bytes text.new ≡ string_bytes text.old ++ text_of bytes.now) }
{
    for byte in bytes {
        text.push(char::from(*byte))?;
    }
    Ok(())
}
