//! A line of a text, with a caret under a place in it.

ghost use Rattle.std.specs.Prelude.{◌≡◌, ◌≤◌, length, OnOk, IfOk};
ghost use Rattle.std.specs.String.{string_bytes};
ghost use Rattle.p21_printed.specs.Printed.{IsPrinted};

use crate::finding::Finding;
use crate::place::{Lines, Place};
use crate::said::Said;
use crate::shown::{front_len, new_text, push_blanks, push_line_end, push_shown};
use memchr::memchr;
use std::alloc::{AllocError, Global};
use unicode_width::UnicodeWidthStr;

/// How many columns a line is shown in.
const COLUMNS: usize = 120;

/// What stands for what is left out of a line.
const LEFT_OUT: &[u8] = b"...";

/// How many bytes after a place are looked at, which is more than are shown: a column takes four bytes at most.
const SHOWN: usize = 1024;

/// A paragraph on what was found among the lines of a text: its head, the line of the place with a caret under it, and what is said of it. The head gives
/// the path, the line and the column, and the place that the report gives.
pub(crate) fn paragraph(
    alloc: Global,
    lines: &mut Lines<'_>,
    found: &Finding<'_>,
    said: &Said,
) -> Result<String, AllocError>
    ensures printed { IfOk result (λ printed. IsPrinted (string_bytes printed)) }
    ensures lines { lines.new ≡ lines.old }
{
    let at = found.at.min(lines.text().len());
    let place = lines.place(at);
    let mut head = Said::new(alloc);
    head.say((found.path, ":", place.line as u64))?;
    head.say((":", place.column as u64, ": fault "))?;
    say_reported(&mut head, found, at)?;
    let mut printed = new_text(alloc);
    push_line(&mut printed, head.bytes())?;
    push_excerpt(alloc, &mut printed, lines.text(), at, &place)?;
    push_line(&mut printed, said.bytes())?;
    Ok(printed)
}

/// Adds the place that the report gives: the one that is looked at, or that of something else.
fn say_reported(head: &mut Said, found: &Finding<'_>, at: usize) -> Result<(), AllocError> {
    if found.reported == at as u64 {
        return head.say(("at byte ", found.reported));
    }
    head.say(("(", found.what, " at byte ", found.reported))?;
    head.say(")")
}

/// Adds a line, as a terminal may show it.
pub fn push_line(text: &mut String, line: &[u8]) -> Result<(), AllocError>
    requires { IsPrinted (string_bytes text.old) }
    // A text without control characters but line ends has none with the line, whatever its bytes are.
    ensures { OnOk result (IsPrinted (string_bytes text.new)) }
{
    push_shown(text, line, usize::MAX)?;
    push_line_end(text)
}

/// Adds the line of a place, and a line with a caret under the place.
fn push_excerpt(
    alloc: Global,
    text: &mut String,
    file: &[u8],
    at: usize,
    place: &Place,
) -> Result<(), AllocError>
    requires within { at ≤ length file.now }
    requires start { place.now.start ≤ at }
    requires printed { IsPrinted (string_bytes text.old) }
    ensures { OnOk result (IsPrinted (string_bytes text.new)) }
{
    let end = shown_end(file, place.start, at);
    let before_end = at.min(end);
    let mut margin = Said::new(alloc);
    margin.say(place.line as u64)?;
    let room = COLUMNS.saturating_sub(margin.len());
    let before = end_shown(alloc, &file[place.start..before_end], room / 3 * 2)?;
    let behind = &file[before_end..end];
    push_marked(text, margin.bytes(), before.as_str(), behind, room)
}

/// Adds a line by what is shown of it before a place and what stands after it, in so many columns, and a line with a caret under the place.
fn push_marked(
    text: &mut String,
    margin: &[u8],
    before: &str,
    behind: &[u8],
    room: usize,
) -> Result<(), AllocError>
    requires { IsPrinted (string_bytes text.old) }
    ensures { OnOk result (IsPrinted (string_bytes text.new)) }
{
    let columns = before.width();
    push_shown(text, margin, usize::MAX)?;
    push_shown(text, b" | ", usize::MAX)?;
    push_shown(text, before.as_bytes(), usize::MAX)?;
    let is_whole = push_shown(text, behind, room.saturating_sub(columns))?;
    let left_out: &[u8] = if is_whole { b"" } else { LEFT_OUT };
    push_shown(text, left_out, usize::MAX)?;
    push_line_end(text)?;

    push_blanks(text, margin.len())?;
    push_shown(text, b" | ", usize::MAX)?;
    push_blanks(text, columns)?;
    push_line(text, b"^")
}

/// Where the line that begins at one place ends, of which the bytes after another are shown; or after more bytes than can be shown. A line
/// end is a byte 10, and a byte 13 before it.
fn shown_end(file: &[u8], start: usize, at: usize) -> usize
    requires start { start ≤ at }
    requires within { at ≤ length file.now }
    ensures begins { start ≤ result }
    ensures ends { result ≤ length file.now }
{
    let near = &file[at..at.saturating_add(SHOWN).min(file.len())];
    let end = match memchr(b'\n', near) {
        Some(len) => at + len,
        None => at + near.len(),
    };
    match &file[start..end] {
        [front @ .., b'\r'] => start + front.len(),
        _ => end,
    }
}

/// The end of some bytes as it is shown in so many columns, with three points before it where that is not all of them.
fn end_shown(alloc: Global, bytes: &[u8], room: usize) -> Result<String, AllocError>
    ensures { IfOk result (λ text. IsPrinted (string_bytes text)) }
{
    let mut text = new_text(alloc);
    let from = front_len(bytes, room);
    let left_out: &[u8] = if from > 0 { LEFT_OUT } else { b"" };
    push_shown(&mut text, left_out, usize::MAX)?;
    push_shown(&mut text, &bytes[from..], usize::MAX)?;
    Ok(text)
}
