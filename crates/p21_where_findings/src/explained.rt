//! Rules of WHERE, and what breaks them, as they are explained.

ghost use Rattle.std.specs.Prelude.{IfOk, OnOk};
ghost use Rattle.std.specs.String.{string_bytes};
ghost use Rattle.p21_printed.specs.Printed.{IsPrinted};

use crate::findings::{BrokenRule, UndecidedRule, WhereRule, WhyUnchecked, WhyUndecided};
use p21_printed::{
    Finding, Format, Lines, Said, in_text, new_text, print_finding, print_line, push_line,
};
use p21_schema::Schema;
use p21_spelling::Spellings;
use p21_text::{Token, next_token};
use std::alloc::{AllocError, Global};

/// How much of a rule's text is printed, in bytes.
const MOST: usize = 400;

/// The schema that has rules of WHERE: its path, its text, and its names as that spells them.
#[derive(Clone, Copy)]
pub struct Stated<'a> {
    pub path: &'a str,
    pub text: &'a [u8],
    pub schema: &'a Schema,
    pub spellings: &'a Spellings,
}

/// The file that was checked: its path, and its bytes.
#[derive(Clone, Copy)]
pub struct CheckedFile<'a> {
    pub path: &'a str,
    pub bytes: &'a [u8],
}

/// An instance that breaks a rule, explained by the rule as the schema's text spells it.
pub fn explain_broken(
    alloc: Global,
    file: CheckedFile<'_>,
    stated: Stated<'_>,
    lines: &mut Lines<'_>,
    rule: &WhereRule,
    broken: BrokenRule,
    format: Format,
) -> Result<String, AllocError>
    ensures { IfOk result (λ text. IsPrinted (string_bytes text)) }
{
    let mut said = Said::new(alloc);
    say_instance(&mut said, file.bytes, broken.at)?;
    said.say("breaks ")?;
    say_rule(&mut said, stated, rule)?;
    said.say(": ")?;
    let from = said.len();
    said.say(spelled_rule(alloc, stated.text, rule)?.as_slice())?;
    said.wanted = said.since(from);
    let found = Finding {
        path: file.path,
        at: in_text(file.bytes, broken.at),
        reported: broken.at,
        what: "instance",
        kind: b"RuleBroken",
    };
    print_finding(alloc, lines, &found, &said, format)
}

/// An instance of which it is not decided whether it breaks a rule.
pub fn explain_undecided(
    alloc: Global,
    file: CheckedFile<'_>,
    stated: Stated<'_>,
    lines: &mut Lines<'_>,
    rule: &WhereRule,
    undecided: UndecidedRule,
    format: Format,
) -> Result<String, AllocError>
    ensures { IfOk result (λ text. IsPrinted (string_bytes text)) }
{
    let mut said = Said::new(alloc);
    said.say((file.path, ": "))?;
    say_instance(&mut said, file.bytes, undecided.at)?;
    said.say("was not decided by ")?;
    say_rule(&mut said, stated, rule)?;
    said.say((": ", cause_of(undecided.why)))?;
    let found = Finding {
        path: file.path,
        at: in_text(file.bytes, undecided.at),
        reported: undecided.at,
        what: "instance",
        kind: b"NotDecided",
    };
    print_line(alloc, lines, &found, &said, format)
}

/// A rule that is not evaluated, and why.
pub fn explain_unevaluated(
    alloc: Global,
    stated: Stated<'_>,
    lines: &mut Lines<'_>,
    rule: &WhereRule,
    format: Format,
) -> Result<String, AllocError>
    ensures { IfOk result (λ text. IsPrinted (string_bytes text)) }
{
    let mut said = Said::new(alloc);
    said.say((stated.path, ": "))?;
    say_rule(&mut said, stated, rule)?;
    said.say(" was not checked")?;
    let mut at = rule.from;
    if let Some(in_the_way) = rule.in_the_way {
        said.say((": ", reason_of(in_the_way.reason)))?;
        at = in_the_way.at;
    }
    let found = Finding {
        path: stated.path,
        at: in_text(stated.text, at),
        reported: at,
        what: "rule",
        kind: b"NotChecked",
    };
    print_line(alloc, lines, &found, &said, format)
}

/// The name of a rule, with that of what it is of as the schema's text spells it: `IfcFace.WR1`.
pub fn spelled_name(
    alloc: Global,
    stated: Stated<'_>,
    rule: &WhereRule,
) -> Result<Vec<u8>, AllocError> {
    let (owner, label) = parts_of(rule);
    let mut name = Vec::from_slice(alloc, spelling_of(stated, owner))?;
    name.push(b'.')?;
    name.extend_from_slice(label)?;
    Ok(name)
}

/// The name of what a rule is of, and its label.
fn parts_of(rule: &WhereRule) -> (&[u8], &[u8]) {
    let point = rule.name.iter().position(|byte| *byte == b'.');
    let (owner, after) = rule.name.split_at(point.unwrap_or(0));
    (owner, after.get(1..).unwrap_or(b""))
}

/// Adds the name of the instance that begins at a place, in front of what is said of it.
fn say_instance(said: &mut Said, file: &[u8], at: u64) -> Result<(), AllocError> {
    match next_token(file, in_text(file, at)).token {
        Token::Name(name) => {
            said.name = Some(name);
            said.say(("#", name, " "))
        }
        _ => said.say("the file "),
    }
}

/// Adds a rule: `rule WR1 of IfcFace`.
fn say_rule(said: &mut Said, stated: Stated<'_>, rule: &WhereRule) -> Result<(), AllocError> {
    let (owner, label) = parts_of(rule);
    said.say(("rule ", label, " of "))?;
    let from = said.len();
    said.say(spelling_of(stated, owner))?;
    said.entity = said.since(from);
    Ok(())
}

/// The name of an entity or a type as the schema's text spells it.
fn spelling_of<'a>(stated: Stated<'a>, name: &'a [u8]) -> &'a [u8] {
    let entity = stated.schema.entity(name);
    let defined = stated.schema.type_named(name);
    let spelling = match (entity, defined) {
        (Some(entity), _) => stated.spellings.entities.get(entity.place()),
        (None, Some(defined)) => stated.spellings.types.get(defined.place()),
        (None, None) => None,
    };
    spelling.map_or(name, |it| it.as_slice())
}

/// The front of a rule's text, with a blank in place of each run of white bytes.
fn spelled_rule(alloc: Global, text: &[u8], rule: &WhereRule) -> Result<Vec<u8>, AllocError> {
    let from = in_text(text, rule.from);
    let to = in_text(text, rule.to).max(from);
    let mut spelled = Vec::new(alloc);
    let mut is_blank = false;
    for byte in &text[from..to] {
        if spelled.len() >= MOST {
            spelled.extend_from_slice(b" ...")?;
            return Ok(spelled);
        }
        if byte.is_ascii_whitespace() {
            is_blank = true;
        } else {
            if is_blank && !spelled.is_empty() {
                spelled.push(b' ')?;
            }
            is_blank = false;
            spelled.push(*byte)?;
        }
    }
    Ok(spelled)
}

/// Why an evaluation ended without a value.
fn cause_of(why: WhyUndecided) -> &'static str {
    match why {
        WhyUndecided::Steps => "it takes more steps than it may.",
        WhyUndecided::TooDeep => "expressions in it are nested too deeply.",
        WhyUndecided::NotCompared => {
            "it compares an integer beyond 2^53 with a real, or an instance that it makes with one of the file."
        },
        WhyUndecided::NotComputed =>
            "a number in it is out of range, or it asks for what is not computed.",
        WhyUndecided::Memory => "memory ran out.",
    }
}

/// Why a rule is not evaluated.
fn reason_of(reason: WhyUnchecked) -> &'static str {
    match reason {
        WhyUnchecked::NoReading => "its text has no reading.",
        WhyUnchecked::TooDeep => "expressions in it are nested too deeply.",
        WhyUnchecked::TooLarge => "it is too large.",
        WhyUnchecked::UnknownName => "nothing that has a reading has a name that it uses.",
        WhyUnchecked::AnotherSchema => "a string of it names another schema.",
        WhyUnchecked::NotComputed => "it has a form or a function that is not computed.",
        WhyUnchecked::WrongCount => "it calls a function with another number of parameters.",
        WhyUnchecked::CallsUnchecked => "it calls a function that is not evaluated.",
    }
}

/// The lines of a summary: how many instances break each rule, the largest number first.
pub fn broken_summary(
    alloc: Global,
    stated: Stated<'_>,
    rules: &[WhereRule],
    broken: &[BrokenRule],
) -> Result<String, AllocError>
    ensures { IfOk result (λ text. IsPrinted (string_bytes text)) }
{
    let mut counts = Vec::new(alloc);
    for rule in 0..rules.len() {
        counts.push((0u64, rule))?;
    }
    for one in broken {
        if let Some(count) = counts.get_mut(one.rule) {
            count.0 = count.0.saturating_add(1);
        }
    }
    counts.sort_by_key(|count: &(u64, usize)| u64::MAX - count.0)?;
    let mut printed = new_text(alloc);
    for count in &counts {
        if count.0 > 0 {
            if let Some(rule) = rules.get(count.1) {
                push_count(alloc, &mut printed, stated, rule, count.0)?;
            }
        }
    }
    Ok(printed)
}

/// Adds the line of a rule that is broken so often.
fn push_count(
    alloc: Global,
    printed: &mut String,
    stated: Stated<'_>,
    rule: &WhereRule,
    count: u64,
) -> Result<(), AllocError>
    requires { IsPrinted (string_bytes printed.old) }
    ensures { OnOk result (IsPrinted (string_bytes printed.new)) }
{
    let mut line = Said::new(alloc);
    line.say((count, " broken: "))?;
    say_rule(&mut line, stated, rule)?;
    push_line(printed, line.bytes())
}
