//! What is found in a text, printed.

ghost use Rattle.std.specs.Prelude.{◌≡◌, ◌≤◌, length, IfOk};
ghost use Rattle.std.specs.String.{string_bytes};
ghost use Rattle.p21_printed.specs.Printed.{IsPrinted};

use crate::excerpt::{paragraph, push_line};
use crate::json::object;
use crate::place::Lines;
use crate::said::Said;
use crate::shown::new_text;
use std::alloc::{AllocError, Global};

/// How a fault is explained.
#[derive(Clone, Copy, Debug, PartialEq, Eq)]
pub enum Format {
    /// Lines of text: the path with the line and the column of the place to look at, in bytes too, or what the report gives the place of;
    /// that line of the file, in 120 columns, with a caret under the place; and what is wrong.
    Text,
    /// A line with an object of JSON.
    Json,
}

/// What is found in a text: where, and of which kind.
#[derive(Clone, Copy, Debug)]
pub struct Finding<'a> {
    /// The path of the text.
    pub path: &'a str,
    /// The place to look at, in bytes from the text's first byte; its end where it is not so long.
    pub at: usize,
    /// The place that the report gives.
    pub reported: u64,
    /// What stands there, where that is another place.
    pub what: &'a str,
    /// The name of its kind in the report.
    pub kind: &'a [u8],
}

/// What is found among the lines of a text, and what is said of it. Memory alone can fail. Of findings in their order no more of the text is looked
/// at than lies between them.
pub fn print_finding(
    alloc: Global,
    lines: &mut Lines<'_>,
    found: &Finding<'_>,
    said: &Said,
    format: Format,
) -> Result<String, AllocError>
    // What is printed, as text or as an object of JSON, has no control characters but line ends, whatever the text,
    // the path, the kind and what is said hold.
    ensures printed { IfOk result (λ printed. IsPrinted (string_bytes printed)) }
    // The lines stay those of their text.
    ensures lines { lines.new ≡ lines.old }
{
    match format {
        Format::Text => paragraph(alloc, lines, found, said),
        Format::Json => object(alloc, lines, found, said),
    }
}

/// The same, whose text is the line of what is said alone.
pub fn print_line(
    alloc: Global,
    lines: &mut Lines<'_>,
    found: &Finding<'_>,
    said: &Said,
    format: Format,
) -> Result<String, AllocError>
    // As for `print_finding`.
    ensures printed { IfOk result (λ printed. IsPrinted (string_bytes printed)) }
    ensures lines { lines.new ≡ lines.old }
{
    if format == Format::Json {
        return object(alloc, lines, found, said);
    }
    let mut line = new_text(alloc);
    push_line(&mut line, said.bytes())?;
    Ok(line)
}

/// A device that failed, in a line: its path or name, and what the system says of it. Memory alone can fail.
pub fn explain_device<'a>(
    alloc: Global,
    path: &'a str,
    words: &'a str,
    format: Format,
) -> Result<String, AllocError>
    // What is printed has no control characters but line ends.
    ensures { IfOk result (λ printed. IsPrinted (string_bytes printed)) }
{
    let mut said = Said::new(alloc);
    said.say((path, ": ", words))?;
    let found = Finding {
        path,
        at: 0,
        reported: 0,
        what: "device",
        kind: b"Device",
    };
    print_line(alloc, &mut Lines::new(b""), &found, &said, format)
}

/// A place in a text; its end where it is not so long.
pub fn in_text(text: &[u8], at: u64) -> usize
    // The place is within the text.
    ensures { result ≤ length text.now }
{
    match usize::try_from(at) {
        Ok(at) => at.min(text.len()),
        Err(_) => text.len(),
    }
}
