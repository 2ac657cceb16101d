//! Faults by kind, entity and attribute.

ghost use Rattle.std.specs.Prelude.{◌≤◌, length, OnOk, IfOk};
ghost use Rattle.std.specs.String.{string_bytes};
ghost use Rattle.p21_printed.specs.Printed.{IsPrinted};

use crate::attributes::attribute_in;
use crate::explained::{Subject, instance_at};
use crate::instance::Instance;
use p21_printed::{Front, Said, new_text, push_line};
use p21_tree::{Fault, FaultKind};
use std::alloc::{AllocError, Global};

/// What faults have in common, and how many they are.
#[derive(Clone, Copy)]
struct Group<'a> {
    /// What is wrong.
    words: &'static str,
    /// The keyword of the record, and the attribute, counted from 0, where the fault is of one.
    keyword: &'a [u8],
    attr: Option<u64>,
    /// The name of that attribute.
    name: &'a [u8],
    count: u64,
}

/// Some faults of a file in a few lines: how many there are of each kind, entity and attribute, the largest number first.
///
/// The file is the one that the schema was asked about, and the faults are some of it. Memory alone can fail.
pub fn summary(alloc: Global, subject: Subject<'_>, faults: &[Fault]) -> Result<String, AllocError>
    // As for `explain_fault`.
    ensures { IfOk result (λ text. IsPrinted (string_bytes text)) }
{
    let mut groups = Vec::new(alloc);
    for fault in faults {
        add(&mut groups, group_of(alloc, subject, fault)?)?;
    }
    groups.sort_by_key(|group: &Group<'_>| u64::MAX - group.count)?;
    printed(alloc, subject, &groups)
}

/// The lines of some groups.
fn printed(alloc: Global, subject: Subject<'_>, groups: &[Group<'_>]) -> Result<String, AllocError>
    ensures { IfOk result (λ text. IsPrinted (string_bytes text)) }
{
    let mut text = new_text(alloc);
    for group in groups {
        push_group(alloc, &mut text, subject, group)?;
    }
    Ok(text)
}

/// Adds the line of a group: how many faults it has, what is wrong, and where.
fn push_group(
    alloc: Global,
    text: &mut String,
    subject: Subject<'_>,
    group: &Group<'_>,
) -> Result<(), AllocError>
    requires { IsPrinted (string_bytes text.old) }
    ensures { OnOk result (IsPrinted (string_bytes text.new)) }
{
    let mut line = Said::new(alloc);
    say_count(&mut line, group.count)?;
    line.say(group.words)?;
    if !group.keyword.is_empty() {
        line.say((": ", Front(subject.name(group.keyword))))?;
    }
    if let Some(attr) = group.attr {
        line.say((".", group.name, " (attr "))?;
        line.say((attr, ")"))?;
    }
    push_line(text, line.bytes())
}

/// Adds how many faults there are.
pub(crate) fn say_count(line: &mut Said, count: u64) -> Result<(), AllocError> {
    let faults = if count == 1 { " fault: " } else { " faults: " };
    line.say((count, faults))
}

/// What a fault has in common with others that are like it.
fn group_of<'a>(
    alloc: Global,
    subject: Subject<'a>,
    fault: &Fault,
) -> Result<Group<'a>, AllocError> {
    let (words, rec, attr) = sort_of(fault.kind);
    let instance = instance_at(alloc, subject, fault.at)?;
    let (keyword, name) = match (rec, &instance) {
        (Some(rec), Some(instance)) => names_in(instance, rec, attr),
        _ => (b"".as_slice(), b"".as_slice()),
    };
    Ok(Group {
        words,
        keyword,
        attr,
        name,
        count: 1,
    })
}

/// The keyword of a record of an instance, and the name of one of its attributes.
fn names_in<'a>(instance: &Instance<'a>, rec: u64, attr: Option<u64>) -> (&'a [u8], &'a [u8]) {
    let keyword = instance.keyword(rec).unwrap_or(b"".as_slice());
    let name = match attr.and_then(|attr| attribute_in(instance, rec, attr)) {
        Some(found) => instance.subject.attribute_name(found),
        None => b"".as_slice(),
    };
    (keyword, name)
}

/// Counts a fault with those that it is like.
fn add<'a>(groups: &mut Vec<Group<'a>>, added: Group<'a>) -> Result<(), AllocError> {
    for group in groups.iter_mut() {
        if group.words == added.words
            && group.keyword == added.keyword
            && group.attr == added.attr
        {
            group.count = group.count.saturating_add(1);
            return Ok(());
        }
    }
    groups.push(added)?;
    Ok(())
}

/// What is wrong, by the kind of a fault, and the record and the attribute, where the fault is of one.
fn sort_of(kind: FaultKind) -> (&'static str, Option<u64>, Option<u64>) {
    match kind {
        FaultKind::BadToken => ("invalid token", None, None),
        FaultKind::Unexpected => ("unexpected token", None, None),
        FaultKind::Truncated => ("unexpected end", None, None),
        FaultKind::TooDeep => ("too many open parentheses", None, None),
        FaultKind::HeaderEntities => ("wrong header entities", None, None),
        FaultKind::WrongSchema => ("file of another schema", None, None),
        FaultKind::DuplicateName => ("repeated instance name", Some(0), None),
        FaultKind::UnknownEntity => ("unknown entity", Some(0), None),
        FaultKind::AbstractEntity => ("abstract entity", Some(0), None),
        FaultKind::BadComplex => ("invalid complex instance", Some(0), None),
        FaultKind::WrongCount { rec } => ("wrong number of values", Some(rec), None),
        FaultKind::BadAttribute { rec, attr } => ("invalid value", Some(rec), Some(attr)),
        FaultKind::MissingReference { rec, attr, .. } => {
            ("reference to a missing instance", Some(rec), Some(attr))
        }
        FaultKind::WrongReference { rec, attr, .. } => {
            (
                "reference to an instance of the wrong type",
                Some(rec),
                Some(attr),
            )
        }
        FaultKind::RepeatedReference { rec, attr } => {
            ("instance named twice", Some(rec), Some(attr))
        }
    }
}
