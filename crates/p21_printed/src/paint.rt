//! A paragraph in colours, for a terminal.

ghost use Rattle.std.specs.Prelude.{◌≡◌, ℕ, List, ◌++◌, IfOk, OnOk};
ghost use Rattle.p21_printed.specs.Painted.{IsSequence, IsPainted, IsPaintedUpTo};

use std::alloc::{AllocError, Global};

/// How a part of a paragraph is shown.
#[derive(Clone, Copy)]
enum Style {
    /// Bold and red.
    Fault,
    /// Bold and blue.
    Margin,
    /// As a terminal shows text by itself.
    Plain,
}

impl Style {
    /// The escape sequence after which a terminal shows text so.
    fn sequence(self) -> &'static [u8]
        ensures { IsSequence result.now }
    {
        match self {
            Style::Fault => b"\x1b[1;31m",
            Style::Margin => b"\x1b[1;34m",
            Style::Plain => b"\x1b[0m",
        }
    }
}

/// A paragraph of a finding, with its head and its caret in red, and the margin before its lines in blue. Memory alone can fail.
pub fn painted(alloc: Global, paragraph: &[u8]) -> Result<Vec<u8>, AllocError>
    // The bytes of the paragraph, with escape sequences between them that choose a colour, and no others. Which parts have which colour is
    // tested.
    ensures { IfOk result (λ painted. IsPainted paragraph.now painted.items) }
{
    let mut made = Vec::new(alloc);
    let rest = paint_front(&mut made, paragraph, line_len(paragraph), Style::Fault)?;
    let rest = paint_front(&mut made, rest, 1, Style::Plain)?;
    let rest = paint_front(&mut made, rest, margin_len(rest), Style::Margin)?;
    let rest = paint_front(
        &mut made,
        rest,
        line_len(rest).saturating_add(1),
        Style::Plain,
    )?;
    let rest = paint_front(&mut made, rest, margin_len(rest), Style::Margin)?;
    let rest = paint_front(&mut made, rest, line_len(rest), Style::Fault)?;
    push_part(&mut made, rest, Style::Plain)?;
    Ok(made)
}

/// Adds so many bytes of a text, or all where it has not so many, and answers the rest.
fn paint_front<'t>(
    made: &mut Vec<u8>,
    text: &'t [u8],
    len: usize,
    style: Style,
) -> Result<&'t [u8], AllocError>
    ensures { (whole : List ℕ) → IsPaintedUpTo whole made.old.items text.now → IfOk result (λ rest. IsPaintedUpTo whole made.new.items rest.now) }
{
    let (front, rest) = text.split_at(len.min(text.len()));
    push_part(made, front, style)?;
    Ok(rest)
}

/// Adds a part of a text, which is shown so.
fn push_part(made: &mut Vec<u8>, part: &[u8], style: Style) -> Result<(), AllocError>
    ensures { (text : List ℕ) → IsPainted text made.old.items → OnOk result (IsPainted (text ++ part.now) made.new.items) }
{
    match style {
        Style::Plain => push_bytes(made, part),
        Style::Fault | Style::Margin => push_between(made, part, style),
    }
}

/// Adds a part of a text between the escape sequence of its style and the one that ends it.
fn push_between(made: &mut Vec<u8>, part: &[u8], style: Style) -> Result<(), AllocError>
    ensures { (text : List ℕ) → IsPainted text made.old.items → OnOk result (IsPainted (text ++ part.now) made.new.items) }
{
    push_sequence(made, style)?;
    push_bytes(made, part)?;
    push_sequence(made, Style::Plain)
}

/// Adds some bytes of a text.
fn push_bytes(made: &mut Vec<u8>, bytes: &[u8]) -> Result<(), AllocError>
    ensures { (text : List ℕ) → IsPainted text made.old.items → OnOk result (IsPainted (text ++ bytes.now) made.new.items) }
{
    made.extend_from_slice(bytes)
}

/// Adds the escape sequence of a style.
fn push_sequence(made: &mut Vec<u8>, style: Style) -> Result<(), AllocError>
    ensures { (text : List ℕ) → IsPainted text made.old.items → OnOk result (IsPainted text made.new.items) }
{
    made.extend_from_slice(style.sequence())
}

/// How many bytes stand before the first line end.
fn line_len(text: &[u8]) -> usize {
    text.iter().take_while(|byte| **byte != b'\n').count()
}

/// How many bytes the margin has with which a text begins: up to its `|`.
fn margin_len(text: &[u8]) -> usize {
    match text.iter().position(|byte| *byte == b'|') {
        Some(before) => before.saturating_add(1),
        None => 0,
    }
}
