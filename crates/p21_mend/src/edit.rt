//! Changes of single places of a text.

use std::alloc::{AllocError, Global};

/// A change of one place of a text.
#[derive(Clone, Copy, Debug)]
pub(crate) enum Edit {
    /// Blanks take the place of the bytes from one place up to another; line ends stay.
    Blank { from: usize, to: usize },
    /// Words are put before the byte at a place.
    Insert { at: usize, words: &'static str },
}

impl Edit {
    /// The first place that it changes.
    fn from(&self) -> usize {
        match self {
            Edit::Blank { from, .. } => *from,
            Edit::Insert { at, .. } => *at,
        }
    }
}

/// A text after edits, no two of which change the same byte. All other bytes stay, and so does the number of lines.
pub(crate) fn edited(
    alloc: Global,
    text: &[u8],
    edits: &mut Vec<Edit>,
) -> Result<Vec<u8>, AllocError> {
    edits.sort_by_key(|edit: &Edit| edit.from())?;
    let mut made = Vec::new(alloc);
    let mut at = 0;
    for edit in edits.iter() {
        made.extend_from_slice(between(text, at, edit.from()))?;
        at = edit.from().max(at);
        match edit {
            Edit::Insert { words, .. } => made.extend_from_slice(words.as_bytes())?,
            Edit::Blank { to, .. } => {
                push_blanks(&mut made, between(text, at, *to))?;
                at = (*to).max(at);
            }
        }
    }
    made.extend_from_slice(between(text, at, text.len()))?;
    Ok(made)
}

/// The bytes of a text from one place up to another.
fn between(text: &[u8], from: usize, to: usize) -> &[u8] {
    text.get(from..to).unwrap_or(b"".as_slice())
}

/// Adds a blank for each byte; white bytes stay.
fn push_blanks(made: &mut Vec<u8>, bytes: &[u8]) -> Result<(), AllocError> {
    for byte in bytes {
        made.push(if byte.is_ascii_whitespace() {
            *byte
        } else {
            b' '
        })?;
    }
    Ok(())
}
