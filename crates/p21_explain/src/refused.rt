//! A fault of a schema, explained.

ghost use Rattle.std.specs.Prelude.{◌≤◌, length, IfOk};
ghost use Rattle.std.specs.String.{string_bytes};
ghost use Rattle.p21_printed.specs.Printed.{IsPrinted};

use crate::mistakes::instead_of_schema;
use p21_express::SchemaError;
use p21_mend::{Change, Form, MendedText};
use p21_printed::{
    Finding, Format, Front, Lines, Said, in_text, place_of, print_finding, print_line,
};
use p21_spelling::next_word;
use std::alloc::{AllocError, Global};

/// A schema that is refused.
#[derive(Clone, Copy, Debug)]
pub struct RefusedSchema<'a> {
    /// The path of the schema.
    pub path: &'a str,
    /// What is changed in its text where it is mended, in the order of places.
    pub changes: &'a [Change],
}

/// A fault of a schema's text, explained as `explain_fault` explains those of a file. `Memory` is no fault of a text, and here too want of
/// memory. Where mending changes what stands at the fault, this is said.
pub fn explain_schema_fault(
    alloc: Global,
    refused: RefusedSchema<'_>,
    lines: &mut Lines<'_>,
    error: &SchemaError,
    kind: &[u8],
    format: Format,
) -> Result<String, AllocError>
    // As for `explain_fault`.
    ensures { IfOk result (λ printed. IsPrinted (string_bytes printed)) }
{
    let place = match error {
        SchemaError::Syntax(place)
        | SchemaError::NotSupported(place)
        | SchemaError::Repeated(place)
        | SchemaError::UnknownName(place)
        | SchemaError::Cycle(place)
        | SchemaError::BadRedeclaration(place) => *place,
        SchemaError::Memory => return Err(AllocError),
    };
    let text = lines.text();
    let at = in_text(text, place);
    let mut said = Said::new(alloc);
    say_rule(&mut said, text, at, error)?;
    if refused.changes.iter().any(|change| change.at == at) {
        said.say(" `--mend` makes this change.")?;
    }
    let found = Finding {
        path: refused.path,
        at,
        reported: place,
        what: "schema",
        kind,
    };
    print_finding(alloc, lines, &found, &said, format)
}

/// Each form of a schema's text that is not supported, as the error that refuses it, in the order of places.
pub fn unsupported_forms(
    alloc: Global,
    found: &MendedText,
) -> Result<Vec<SchemaError>, AllocError> {
    let mut forms = Vec::new(alloc);
    for change in &found.changes {
        forms.push((change.at, refused_form(change)))?;
    }
    for at in &found.left {
        forms.push((*at, SchemaError::NotSupported(*at as u64)))?;
    }
    forms.sort_by_key(|form: &(usize, SchemaError)| form.0)?;
    let mut errors = Vec::new(alloc);
    for (_, error) in &forms {
        errors.push(*error)?;
    }
    Ok(errors)
}

/// The error that refuses what is changed.
fn refused_form(change: &Change) -> SchemaError {
    let at = change.at as u64;
    match change.form {
        Form::ByteOrderMark | Form::EndOfText | Form::Version | Form::Abstract => {
            SchemaError::Syntax(at)
        }
        _ => SchemaError::NotSupported(at),
    }
}

/// A change in a schema's text, which is mended, in a line with its place.
pub fn explain_change(
    alloc: Global,
    path: &str,
    lines: &mut Lines<'_>,
    change: &Change,
    format: Format,
) -> Result<String, AllocError>
    // As for `explain_fault`.
    ensures { IfOk result (λ printed. IsPrinted (string_bytes printed)) }
{
    let at = change.at.min(lines.text().len());
    let place = lines.place(at);
    let mut said = Said::new(alloc);
    if format == Format::Text {
        said.say((path, ":", place.line as u64))?;
        said.say((":", place.column as u64, ": "))?;
    }
    said.say(change.form.sentence())?;
    let found = Finding {
        path,
        at,
        reported: at as u64,
        what: "schema",
        kind: b"Mended",
    };
    print_line(alloc, lines, &found, &said, format)
}

/// The words of forms that are not supported, and what to do about each.
const FORMS: [(&str, &str); 7] = [
    ("USE", LONG_FORM),
    ("REFERENCE", LONG_FORM),
    (
        "SUBTYPE_CONSTRAINT",
        " Remove it, up to END_SUBTYPE_CONSTRAINT and its `;`, and if it says ABSTRACT SUPERTYPE, write that at the entity: nothing else of it affects conformance as it is checked here.",
    ),
    (
        "EXTENSIBLE",
        " An extensible type gets items from other schemas: write it without EXTENSIBLE and GENERIC_ENTITY, with all its items, as in the long form of the schema.",
    ),
    (
        "GENERIC_ENTITY",
        " It does not affect conformance: remove it.",
    ),
    (
        "BASED_ON",
        " The type adds items to those of another: list all its items instead, as in `SELECT (a, b)` or `ENUMERATION OF (a, b)`.",
    ),
    (
        "RENAMED",
        " It does not affect conformance: remove it and the name after it.",
    ),
];

/// What to do about an interface to another schema.
const LONG_FORM: &str =
    " It takes declarations from another schema: use the long form of the schema, which has all declarations in one text.";

/// Adds which rule is broken at a place, and what to do about it.
fn say_rule(said: &mut Said, text: &[u8], at: usize, error: &SchemaError) -> Result<(), AllocError>
    requires { at ≤ length text.now }
{
    let rest = &text[at..];
    let word = match word_at(rest) {
        b"" => rest.get(..1).unwrap_or(rest),
        word => word,
    };
    if word.is_empty() {
        return said.say("The schema ends here, before END_SCHEMA and its `;`.");
    }
    let front = text[..at].trim_ascii_end();
    said.say("`")?;
    let from = said.len();
    said.say(Front(word))?;
    said.found = said.since(from);
    match error {
        SchemaError::Syntax(_) => {
            said.say("` is not expected here.")?;
            said.say(syntax_advice(front, rest))
        }
        SchemaError::NotSupported(_) => match type_at(text, word) {
            Some(declared) if stands_alone(rest) => {
                let line = place_of(text, declared.min(text.len())).line;
                say_select_alone(said, front, word, line as u64)
            }
            _ => said.say(("` is not supported here.", form_advice(word))),
        },
        SchemaError::Memory => Ok(()),
        SchemaError::Repeated(_) => said.say("` is named a second time."),
        SchemaError::UnknownName(_) => said.say("` is not declared, or is of the wrong kind."),
        SchemaError::Cycle(_) => said.say("` is declared in terms of itself."),
        SchemaError::BadRedeclaration(_) => said.say(
            "` must redeclare exactly one attribute of an ancestor, which is neither derived nor already redeclared.",
        ),
    }
}

/// What to do about what begins a text and is not expected after what stands before it.
fn syntax_advice(before: &[u8], rest: &[u8]) -> &'static str {
    if before.is_empty() {
        return instead_of_schema(rest).unwrap_or("");
    }
    if ends_with(before, b"ABSTRACT", 0) {
        return " Write ABSTRACT SUPERTYPE.";
    }
    match rest {
        [b'\'', ..] if ends_with(before, b"SCHEMA", 1) => {
            " Remove the version after the name of the schema."
        }
        [b'\'' | b'"', ..] => " The string is perhaps not closed.",
        [b'(', b'*', ..] => " The remark is not closed: each `(*` needs its `*)`.",
        [26, ..] => " Remove this byte.",
        _ => "",
    }
}

/// Whether a text ends with a word, in either case, and so many words after that.
fn ends_with(text: &[u8], word: &[u8], behind: usize) -> bool {
    text.rsplit(|byte| byte.is_ascii_whitespace())
        .filter(|it| !it.is_empty())
        .nth(behind)
        .is_some_and(|it| it.eq_ignore_ascii_case(word))
}

/// What to do about a form that is not supported, by its word.
fn form_advice(word: &[u8]) -> &'static str {
    for (other, advice) in &FORMS {
        if word.eq_ignore_ascii_case(other.as_bytes()) {
            return advice;
        }
    }
    " At most 64 aggregates may be nested: declare a TYPE for the inner ones."
}

/// Whether nothing stands between the word that begins a text and the semicolon after it: under a type it then names another.
fn stands_alone(text: &[u8]) -> bool {
    let Some((_, behind)) = next_word(text) else {
        return false;
    };
    next_word(behind).is_some_and(|(word, _)| word == b";".as_slice())
}

/// Adds what to do about a SELECT that stands alone under a type, and in which line it is declared.
fn say_select_alone(
    said: &mut Said,
    before: &[u8],
    word: &[u8],
    line: u64,
) -> Result<(), AllocError> {
    said.say(("` is a SELECT, declared at line ", line))?;
    said.say(". A type that is just another SELECT is not supported: write `")?;
    let from = said.len();
    let mut parts = before.rsplit(|byte| *byte == b'=' || byte.is_ascii_whitespace());
    match parts.find(|it| !it.is_empty()) {
        Some(name) if !name.ends_with(b"*)") => said.say(("TYPE ", name, " = "))?,
        _ => {}
    }
    said.say(("SELECT (", word, ");"))?;
    said.wanted = said.since(from);
    said.say("`, which admits the same values.")
}

/// The place of the name that is declared after TYPE.
fn type_at(text: &[u8], name: &[u8]) -> Option<usize> {
    let mut rest = text;
    let mut is_behind_type = false;
    for _ in 0..text.len() {
        let (word, behind) = next_word(rest)?;
        if is_behind_type && word.eq_ignore_ascii_case(name) {
            let left = behind.len().saturating_add(word.len());
            return Some(text.len().saturating_sub(left));
        }
        is_behind_type = word.eq_ignore_ascii_case(b"TYPE");
        rest = behind;
    }
    None
}

/// The word that begins a text; nothing where none does.
fn word_at(text: &[u8]) -> &[u8] {
    for (len, byte) in text.iter().enumerate() {
        if !(byte.is_ascii_alphanumeric() || *byte == b'_') {
            return &text[..len];
        }
    }
    text
}
