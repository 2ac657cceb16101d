//! The text of a schema, mended.

ghost use Rattle.std.specs.Prelude.{◌≡◌, [], IfOk};

use crate::change::{Change, Form};
use crate::edit::{Edit, edited};
use crate::met::Mends;
use crate::walk::Walk;
use p21_express::{Refusal, scan, upper_case};
use std::alloc::{AllocError, Global};

/// The text of a schema after changes, and what was changed.
#[derive(Debug, Drop)]
pub struct MendedText {
    /// The text after all changes. It has the lines of the unchanged text: what is left out is a blank for each byte.
    pub text: Vec<u8>,
    /// The changes, in the order of their places.
    pub changes: Vec<Change>,
    /// Where forms stand that are not supported and stay as they are, in bytes from the first byte of the unchanged text, in their order.
    pub left: Vec<usize>,
}

/// The text of a schema, in which each form that is not supported is written another way with the same meaning, where there is one. The forms are those of
/// `Form`. They are looked for in the words of declarations, and not in functions, rules, WHERE clauses, strings and remarks; up to the first word that does
/// not fit. Memory alone can fail.
///
/// Cost: O(t log t) for t words of the text.
pub fn mended(alloc: Global, text: &[u8]) -> Result<MendedText, AllocError>
    // Where there is no change the text is the same, byte for byte. Which changes there are is tested.
    ensures { IfOk result (λ mended. mended.changes.items ≡ [] → mended.text.items ≡ text.now) }
{
    let mut mends = mends_of(alloc, text)?;
    let text = if mends.changes.is_empty() {
        Vec::from_slice(alloc, text)?
    } else {
        edited(alloc, text, &mut mends.edits)?
    };
    let Mends { changes, left, .. } = mends;
    Ok(MendedText {
        text,
        changes,
        left,
    })
}

/// What is to be changed in a text, in the order of places.
fn mends_of(alloc: Global, text: &[u8]) -> Result<Mends, AllocError> {
    let mut upper = upper_case(alloc, text)?;
    let has_mark = upper.starts_with(MARK);
    if has_mark {
        for byte in upper.iter_mut().take(MARK.len()) {
            *byte = b' ';
        }
    }
    let scanned = scan(alloc, &upper)?;
    let mut walk = Walk::new(alloc, &upper, &scanned);
    if matches!(walk.schema(), Err(Refusal::Memory)) {
        return Err(AllocError);
    }
    let mut mends = walk.into_mends()?;
    if has_mark {
        let to = MARK.len();
        mends.mend(Form::ByteOrderMark, 0, Edit::Blank { from: 0, to })?;
    }
    let end = scanned.places.last().copied().unwrap_or(0);
    let rest = text.get(end..).unwrap_or(b"".as_slice());
    if ends_text(rest) {
        let to = text.len();
        mends.mend(Form::EndOfText, end, Edit::Blank { from: end, to })?;
    }
    mends.changes.sort_by_key(|change: &Change| change.at)?;
    mends.left.sort()?;
    Ok(mends)
}

/// A byte order mark in UTF-8.
const MARK: &[u8] = &[0xEF, 0xBB, 0xBF];

/// The byte that ends a text in old systems.
const END: u8 = 26;

/// Whether what stands after the last word begins with such a byte, and has nothing but such bytes and white ones.
fn ends_text(rest: &[u8]) -> bool {
    rest.first().is_some_and(|byte| *byte == END)
        && rest
            .iter()
            .all(|byte| *byte == END || byte.is_ascii_whitespace())
}
