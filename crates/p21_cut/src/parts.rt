//! The end of a piece, and the parts that can hide a `;`.

ghost use Rattle.std.specs.Prelude.{◌≡◌, ◌≤◌, ◌<◌, ◌+◌, ◌-◌, ◌⊎◌, length, drop, slice_index, MatchOption, IfSome};
ghost use Rattle.p21_cut.specs.Pieces.{HasNoPart, PartsAre, PieceIs};

use crate::marks::next_mark;
use p21_text::{Token, next_token, one_string, separators_len};

/// The place after the piece that begins with the `#` at `start`.
#[inline(always)]
pub(crate) fn piece_end(file: &[u8], start: usize) -> usize
    requires within { start < length file.now }
    requires begins { slice_index file.now start ≡ 35 }
    ensures piece { PieceIs (drop start file.now) (result - start) }
    ensures advances { start < result }
    ensures within { result ≤ length file.now }
{
    let mut at = start + 1;
    while let Some(len) = next_mark(&file[at..]) {
        let mark = at + len;
        if file[mark] == b';' {
            return mark + 1;
        }
        match part_end(file, mark) {
            Some(end) => at = end,
            None => return file.len(),
        }
    }
    file.len()
}

/// The place after some parts that begin with the `'` or the `/` at `at`; none where no part begins there.
fn part_end(file: &[u8], at: usize) -> Option<usize>
    requires within { at < length file.now }
    requires begins { (slice_index file.now at ≡ 39) ⊎ (slice_index file.now at ≡ 47) }
    ensures parts { MatchOption result (HasNoPart (drop at file.now)) (λ end. PartsAre (drop at file.now) (end - at)) }
    ensures advances { IfSome result (λ end. at < end) }
    ensures within { IfSome result (λ end. end ≤ length file.now) }
{
    if file[at] == b'\'' {
        string_end(file, at)
    } else if at + 1 < file.len() && file[at + 1] == b'*' {
        comment_end(file, at)
    } else {
        Some(at + 1)
    }
}

/// The place after the string token that begins with the apostrophe at `at`.
fn string_end(file: &[u8], at: usize) -> Option<usize>
    requires within { at < length file.now }
    requires begins { slice_index file.now at ≡ 39 }
    ensures parts { MatchOption result (HasNoPart (drop at file.now)) (λ end. PartsAre (drop at file.now) (end - at)) }
    ensures advances { IfSome result (λ end. at < end) }
    ensures within { IfSome result (λ end. end ≤ length file.now) }
{
    let lexed = next_token(file, at);
    match lexed.token {
        Token::Str(_) => Some(lexed.after),
        _ => {
            one_string();
            None
        }
    }
}

/// The place after the comment that begins with the `/*` at `at`, and after all separators that follow it.
fn comment_end(file: &[u8], at: usize) -> Option<usize>
    requires within { at + 1 < length file.now }
    requires solidus { slice_index file.now at ≡ 47 }
    requires star { slice_index file.now (at + 1) ≡ 42 }
    ensures parts { MatchOption result (HasNoPart (drop at file.now)) (λ end. PartsAre (drop at file.now) (end - at)) }
    ensures advances { IfSome result (λ end. at < end) }
    ensures within { IfSome result (λ end. end ≤ length file.now) }
{
    let passed = separators_len(&file[at..]);
    if passed > 0 { Some(at + passed) } else { None }
}
