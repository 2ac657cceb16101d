//! The report of a reading.

ghost use Rattle.std.specs.Prelude.{◌≡◌, ◌++◌, List, IfOk};
ghost use Rattle.p21_tree.specs.Sentence.{Instance};
ghost use Rattle.p21_reader.specs.Answer.{plain_answer};
ghost use Rattle.p21_counts.specs.Counts.{IsCounts};
ghost use Rattle.p21_render.specs.ReadingText.{IsModelText, IsReadingText};

use crate::fault_text::fault_line;
use crate::text::push;
use p21_counts::counts_with_key;
use p21_reader::Reading;
use p21_schema::Schema;
use std::alloc::{AllocError, Global};

/// The report of a reading: the schema's name and the counts of the model's instances, or the line of the fault. Memory alone
/// can fail.
pub fn render(alloc: Global, schema: &Schema, reading: &Reading<'_>) -> Result<Vec<u8>, AllocError>
    ensures { IfOk result (λ text. IsReadingText schema.now (plain_answer reading.now.answer) text.items) }
{
    match &reading.answer {
        Ok(model) => model_text(
            alloc,
            schema,
            counts_with_key(alloc, model.instances(), schema.hash_key())?.as_slice(),
        ),
        Err(fault) => fault_line(alloc, fault),
    }
}

/// The report of a model: the schema's name, and the counts of its instances, whose lines are given. Memory alone can fail.
pub fn model_text(alloc: Global, schema: &Schema, lines: &[u8]) -> Result<Vec<u8>, AllocError>
    ensures { IfOk result (λ text. (is : List Instance) → IsCounts is lines.now → IsModelText schema.now is text.items) }
{
    let mut text = Vec::new(alloc);
    push(&mut text, b"schema ")?;
    push(&mut text, schema.name())?;
    push(&mut text, b"\n")?;
    push(&mut text, lines)?;
    Ok(text)
}
