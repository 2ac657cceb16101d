//! The next byte that matters to cutting: a `;`, an apostrophe or a slash.

ghost use Rattle.std.specs.Prelude.{◌≡◌, ◌≤◌, length, map};
ghost use Rattle.std.specs.Simd.Lanes.{mask_l};
ghost use Rattle.memchr.specs.Find.{IsFirst, IsFirstByte, Passes, is_byte3};

use std::simd::prelude::*;

/// How many bytes are looked at together. Marks stand near each other, so that wider vectors gain nothing.
const TOGETHER: usize = 16;

/// The place of the first `;`, apostrophe or slash of a text.
#[inline(always)]
pub(crate) fn next_mark(text: &[u8]) -> Option<usize>
    ensures { IsFirstByte (is_byte3 59 39 47) text.now result }
{
    let mut at = 0;
    while text.len() - at >= TOGETHER {
        let marks = marks(u8x16::from_slice(&text[at..]));
        if marks != 0 {
            return Some(at + marks.trailing_zeros() as usize);
        }
        at += TOGETHER;
    }
    last_mark(text, at)
}

/// The same from a place on, byte by byte: for the end of a text, where fewer are left.
fn last_mark(text: &[u8], from: usize) -> Option<usize>
    requires { from ≤ length text.now }
    ensures { IsFirst (Passes (is_byte3 59 39 47) text.now) from (length text.now) result }
{
    for at in from..text.len() {
        if is_mark(text[at]) {
            return Some(at);
        }
    }
    None
}

/// Which of some bytes are marks: a bit for each, the lowest for the first.
#[inline(always)]
fn marks(bytes: u8x16) -> u64
    ensures { result ≡ mask_l (map (is_byte3 59 39 47) bytes) }
{
    (bytes.simd_eq(u8x16::splat(b';'))
        | bytes.simd_eq(u8x16::splat(b'\''))
        | bytes.simd_eq(u8x16::splat(b'/'))).to_bitmask()
}

/// Whether a byte is a mark.
#[inline(always)]
fn is_mark(byte: u8) -> bool
    ensures { result ≡ is_byte3 59 39 47 byte }
{
    byte == b';' || byte == b'\'' || byte == b'/'
}
