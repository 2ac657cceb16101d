//! The lines of a model.

ghost use Rattle.std.specs.Prelude.{◌≡◌, ◌++◌, List, ℕ, IfOk, map};
ghost use Rattle.std.specs.List.{AllByRecursion};
ghost use Rattle.p21_tree.specs.Views.{plain_instance};
ghost use Rattle.p21_json.specs.Instances.{AreKnown};
ghost use Rattle.p21_json.specs.Lines.{AreLines, IsLine};

use crate::line::Line;
use crate::terms::Terms;
use p21_tree::RawInstance;
use std::alloc::{AllocError, Global};

/// The lines of instances, a line each, in order. Memory alone can fail.
pub fn write_lines(
    alloc: Global,
    terms: &Terms<'_>,
    instances: &[RawInstance<'_>],
) -> Result<Vec<u8>, AllocError>
    requires { AllByRecursion (λ i. AreKnown terms.now i.records) (map plain_instance instances.now) }
    // For each instance, in order, a line: the print of its tokens, which reads back as these tokens, and a line end.
    // The tokens are those that the table of values gives, names but for the case of letters, in the order of the row
    // (of a record of a complex instance, of its own attributes), without values written as `*`. The key of an
    // attribute is its name, or its full name where one before it has this name.
    ensures { IfOk result (λ text. AreLines terms.now (map plain_instance instances.now) text.items) }
{
    let mut text = Vec::new(alloc);
    for instance in instances {
        text = push_line(alloc, text, terms, instance)?;
    }
    Ok(text)
}

/// Adds the line of an instance to a text.
fn push_line(
    alloc: Global,
    text: Vec<u8>,
    terms: &Terms<'_>,
    instance: &RawInstance<'_>,
) -> Result<Vec<u8>, AllocError>
    requires { AreKnown terms.now (plain_instance instance.now).records }
    ensures { IfOk result (λ made. (line : List ℕ) × (IsLine terms.now (plain_instance instance.now) line × (made.items ≡ text.items ++ line))) }
{
    let mut line = Line::new(alloc, text);
    line.instance(terms, instance)?;
    line.end()
}
