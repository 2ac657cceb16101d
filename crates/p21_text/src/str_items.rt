//! The items of a string, one by one.

ghost use Rattle.std.specs.Prelude.{◌≡◌, ◌≤◌, ◌<◌, ◌%◌, ◌^◌, ◌++◌, length, true, if◌then◌else◌};
ghost use Rattle.std.specs.List.{list_all};
ghost use Rattle.p21_text.specs.ItemShapes.{hex_byte};
ghost use Rattle.p21_text.specs.Meanings.{AreBytes, IsReadable};
ghost use Rattle.p21_text.specs.Values.{read, units};

use crate::meaning::{StrItem, meaning_of};
use crate::shape::item_len;
use crate::units::first_unit;

/// An iterator over the items of a string: the result of `items`.
#[derive(Clone, Copy, Debug)]
pub struct StrItems<'a> {
    rest: &'a [u8],
    part: u8,
    digits: &'a [u8],
    wide: bool,
    ghost bytes: { AreBytes rest.now },
    ghost readable: { IsReadable part rest.now },
    ghost known: { part ≤ 9 },
    ghost hex: { list_all hex_byte digits.now ≡ true },
    ghost whole: { length digits.now % (if wide then 8 else 4) ≡ 0 },
    ghost fits: { length (units wide digits.now ++ read (length rest.now) part rest.now) < 2 ^ 64 },
}

impl<'a> StrItems<'a> {
    ghost use Rattle.std.specs.Prelude.{◌∷◌, MatchOption};
    ghost use Rattle.p21_text.specs.Items.{IsBody, ItemsOf};
    ghost use Rattle.p21_text.specs.Meanings.{item_of};
    ghost use Rattle.p21_text.specs.StringItems.{items_left};

    /// The items of a body, from its first on.
    pub(crate) fn new(raw: &'a [u8]) -> StrItems<'a>
        requires { IsBody raw.now }
        ensures { ItemsOf raw.entry.now (items_left result) }
    {
        StrItems {
            rest: raw,
            part: 1,
            digits: &[],
            wide: false,
        }
    }

    /// Reads the row of the table that stands at the front: its item, or nothing where it gives none at once.
    fn advance(&mut self) -> Option<StrItem>
        requires run { length self.old.digits.now ≡ 0 }
        requires some { 0 < length self.old.rest.now }
        ensures yields { MatchOption result (items_left self.old ≡ items_left self.new) (λ x. items_left self.old ≡ item_of x ∷ items_left self.new) }
        ensures shorter { length self.new.rest.now < length self.old.rest.now }
    {
        let text = self.rest;
        let progress = meaning_of(text, self.part).progress(self.part);
        self.rest = &text[item_len(text)..];
        self.part = progress.part;
        self.digits = progress.digits;
        self.wide = progress.wide;
        progress.item
    }

    /// Reads the first character of the groups at hand.
    fn unit(&mut self) -> StrItem
        requires { 0 < length self.old.digits.now }
        ensures { items_left self.old ≡ item_of result ∷ items_left self.new }
    {
        let (item, size) = first_unit(self.digits, self.wide);
        self.digits = &self.digits[size..];
        item
    }
}

impl Iterator for StrItems<'_> {
    ghost use Rattle.std.specs.Iterator.{YieldsFirstBy, item_count};
    ghost use Rattle.p21_text.specs.Meanings.{item_of};
    ghost use Rattle.p21_text.specs.StringItems.{items_left};

    type Item = StrItem;

    ghost next_gives = { YieldsFirstBy item_of items_left };

    ghost remaining = { item_count items_left };

    fn next(&mut self) -> Option<StrItem> {
        while self.digits.is_empty() {
            if self.rest.is_empty() {
                return None;
            }
            if let Some(item) = self.advance() {
                return Some(item);
            }
        }
        Some(self.unit())
    }
}
