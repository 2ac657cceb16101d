//! Lines and columns.

ghost use Rattle.std.specs.Prelude.{◌≡◌, ◌+◌, ◌<◌, ◌≤◌, ◌^◌, ◌++◌, true, false, length, take, slice_index};
ghost use Rattle.bstr.specs.Utf8.{continues, lossy_chars};
ghost use Rattle.p21_printed.specs.Places.{line_ends, IsLineStart, column_of, IsPlace};

use bstr::ByteSlice;
use memchr::memrchr;
use std::marker::Model;

/// How many bytes of a text are a block, whose line ends are counted in a byte.
const BLOCK: usize = 192;

/// Where a byte stands among the lines of a text.
#[derive(Clone, Copy, Debug, PartialEq, Eq)]
pub struct Place {
    /// Its line, from 1 on: a line ends after a byte 10.
    pub line: usize,
    /// Its column, from 1 on, in characters of UTF-8. A tab is one, and so is a longest piece that is no character.
    pub column: usize,
    /// Where its line begins, in bytes from the text's first byte.
    pub start: usize,
}

/// Where the byte at a place of a text stands. The place is at most the text's length.
pub fn place_of(text: &[u8], at: usize) -> Place
    requires { at ≤ length text.now }
    // One more than the bytes 10 before the place.
    ensures line { result.line ≡ line_ends (take at text.now) + 1 }
    // It begins after the last of these.
    ensures start { IsLineStart (take at text.now) result.start }
    // One more than the characters of UTF-8 since; an incomplete character counts as one, and so does each other byte
    // that is of no character.
    ensures column { result.column ≡ column_of (take at text.now) result.start }
{
    let before = &text[..at];
    let start = line_start(before);
    Place {
        line: line_ends_in(before) + 1,
        column: char_count(&before[start..]) + 1,
        start,
    }
}

/// The lines of a text. Of places that are asked for one after the other no more is looked at than lies between them.
#[derive(Drop)]
pub struct Lines<'t> {
    text: &'t [u8],
    /// The place that was asked for last, and where it stands.
    at: usize,
    last: Place,
}

impl<'t> Model for Lines<'t> {
    ghost use Rattle.std.specs.Prelude.{ℕ, List, ◌≤◌, length, take};
    ghost use Rattle.p21_printed.specs.Places.{IsPlace};

    ghost Value = { List ℕ };

    ghost view = { λ l. l.text.now };

    ghost invariant = { λ l. (l.at ≤ length l.text.now) × IsPlace (take l.at l.text.now) l.last };
}

impl<'t> Lines<'t> {
    /// The lines of a text.
    pub fn new(text: &'t [u8]) -> Lines<'t>
        ensures { result ≡ text.now }
    {
        Lines {
            text,
            at: 0,
            last: place_of(text, 0),
        }
    }

    /// The text.
    pub fn text(&self) -> &'t [u8]
        ensures { result.now ≡ self.now }
    {
        self.text
    }

    /// Where the byte at a place of the text stands. The place is at most the text's length.
    ///
    /// The place is that of `place_of`, whichever place was asked for before. That only what lies between the two is
    /// looked at is known by review.
    pub fn place(&mut self, at: usize) -> Place
        requires { at ≤ length self.old }
        ensures line { result.line ≡ line_ends (take at self.old) + 1 }
        ensures start { IsLineStart (take at self.old) result.start }
        ensures column { result.column ≡ column_of (take at self.old) result.start }
        ensures text { self.new ≡ self.old }
    {
        let place = place_from(self.text, self.at, &self.last, at);
        self.at = at;
        self.last = place;
        place
    }
}

/// The same as `place_of`, by where another byte stands.
fn place_from(text: &[u8], from: usize, last: &Place, at: usize) -> Place
    requires last { IsPlace (take from text.now) last.now }
    requires from { from ≤ length text.now }
    requires within { at ≤ length text.now }
    ensures { IsPlace (take at text.now) result }
{
    if from <= at && is_front(&text[from..at]) {
        place_behind(&text[..from], last, &text[from..at])
    } else {
        place_of(text, at)
    }
}

/// Whether some bytes are none, or begin with one that goes on with no character.
fn is_front(bytes: &[u8]) -> bool
    ensures { result ≡ true → 0 < length bytes.now → continues (slice_index bytes.now 0) ≡ false }
{
    match bytes.first() {
        Some(byte) => *byte < 0x80 || 0xC0 <= *byte,
        None => true,
    }
}

/// Where the byte after two texts stands, by where the one after the first does.
fn place_behind(before: &[u8], last: &Place, between: &[u8]) -> Place
    requires last { IsPlace before.now last.now }
    requires front { 0 < length between.now → continues (slice_index between.now 0) ≡ false }
    requires fits { length before.now + length between.now < 2 ^ 63 }
    ensures { IsPlace (before.now ++ between.now) result }
{
    match memrchr(b'\n', between) {
        Some(end) => Place {
            line: last.line + line_ends_in(between),
            column: char_count(&between[end + 1..]) + 1,
            start: before.len() + end + 1,
        },
        None => Place {
            line: last.line,
            column: last.column + char_count(between),
            start: last.start,
        },
    }
}

/// How many line ends a text has.
fn line_ends_in(text: &[u8]) -> usize
    ensures count { result ≡ line_ends text.now }
    ensures bound { result ≤ length text.now }
{
    let mut count = 0;
    // The library's count goes from line end to line end. The bytes of a block are looked at many at a time, which takes half as long.
    for block in text.chunks(BLOCK) {
        count += line_ends_in_block(block) as usize;
    }
    count
}

/// How many line ends a block has, whose bytes are so few that their number is a byte.
fn line_ends_in_block(block: &[u8]) -> u8
    requires { length block.now ≤ 255 }
    ensures { result ≡ line_ends block.now }
{
    let mut count = 0;
    for byte in block {
        if *byte == b'\n' {
            count += 1;
        }
    }
    count
}

/// How many characters some bytes are; a longest piece that is none counts as one.
fn char_count(bytes: &[u8]) -> usize
    ensures count { result ≡ length (lossy_chars bytes.now) }
    ensures bound { result ≤ length bytes.now }
{
    bytes.chars().count()
}

/// Where the line begins in which a text ends.
fn line_start(text: &[u8]) -> usize
    ensures { IsLineStart text.now result }
{
    match memrchr(b'\n', text) {
        Some(end) => end + 1,
        None => 0,
    }
}
