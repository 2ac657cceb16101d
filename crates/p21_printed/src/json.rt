//! A fault as an object of JSON, in a line.

ghost use Rattle.std.specs.Prelude.{◌≡◌, IfOk};
ghost use Rattle.std.specs.String.{string_bytes};
ghost use Rattle.p21_printed.specs.Printed.{IsPrinted};

use crate::excerpt::push_line;
use crate::finding::Finding;
use crate::place::Lines;
use crate::said::Said;
use crate::shown::{new_text, push_shown};
use std::alloc::{AllocError, Global};
use std::slice;

/// The object of what was found among the lines of a text: where it is, its kind, and what is said of it.
pub(crate) fn object(
    alloc: Global,
    lines: &mut Lines<'_>,
    found: &Finding<'_>,
    said: &Said,
) -> Result<String, AllocError>
    ensures printed { IfOk result (λ printed. IsPrinted (string_bytes printed)) }
    ensures lines { lines.new ≡ lines.old }
{
    let at = found.at.min(lines.text().len());
    let place = lines.place(at);
    let mut line = Said::new(alloc);
    say_member(alloc, &mut line, "{", "file", Some(found.path.as_bytes()))?;
    line.say((",\"byte\":", at as u64))?;
    line.say((
        ",\"line\":",
        place.line as u64,
        ",\"column\":",
        place.column as u64,
    ))?;
    say_rest(alloc, &mut line, found.kind, said)?;
    let mut printed = new_text(alloc);
    push_line(&mut printed, line.bytes())?;
    Ok(printed)
}

/// Adds the members that say what is wrong, and the end of the object.
fn say_rest(alloc: Global, line: &mut Said, kind: &[u8], said: &Said) -> Result<(), AllocError> {
    say_member(alloc, line, ",", "kind", Some(kind))?;
    line.say(",\"name\":")?;
    match said.name {
        Some(name) => line.say(name)?,
        None => line.say("null")?,
    }
    say_member(alloc, line, ",", "entity", said.part(said.entity))?;
    say_member(alloc, line, ",", "attribute", said.part(said.attribute))?;
    say_member(alloc, line, ",", "wanted", said.part(said.wanted))?;
    say_member(alloc, line, ",", "found", said.part(said.found))?;
    say_member(alloc, line, ",", "message", Some(said.bytes()))?;
    line.say("}")
}

/// Adds a member, after what stands before it: a text as a terminal may show it, or null.
fn say_member(
    alloc: Global,
    line: &mut Said,
    before: &str,
    name: &str,
    value: Option<&[u8]>,
) -> Result<(), AllocError> {
    line.say((before, "\"", name, "\":"))?;
    let Some(value) = value else {
        return line.say("null");
    };
    let mut shown = new_text(alloc);
    push_shown(&mut shown, value, usize::MAX)?;
    line.say("\"")?;
    for byte in shown.as_bytes() {
        let is_escaped = *byte == b'"' || *byte == b'\\';
        line.say(if is_escaped { "\\" } else { "" })?;
        line.say(slice::from_ref(byte))?;
    }
    line.say("\"")
}
