//! A fault of a file, explained.

ghost use Rattle.std.specs.Prelude.{◌≤◌, length, IfOk};
ghost use Rattle.std.specs.String.{string_bytes};
ghost use Rattle.p21_printed.specs.Printed.{IsPrinted};

use crate::attributes::Attribute;
use crate::faults::say_instance_fault;
use crate::grammar::{say_bad_token, say_truncated, say_unexpected};
use crate::header::{say_header_entities, say_wrong_schema};
use crate::instance::Instance;
use crate::instances::NamedInstances;
use p21_cut::{Cut, Cutter};
use p21_express::EntityDecl;
use p21_printed::{Finding, Format, Lines, Said, in_text, print_finding};
use p21_schema::Schema;
use p21_spelling::Spellings;
use p21_tree::{Fault, FaultKind};
use std::alloc::{AllocError, Global};

/// A file, and the schema that it was checked against.
#[derive(Clone, Copy)]
pub struct Subject<'a> {
    pub schema: &'a Schema,
    /// The schema's names as its text spells them; where some lack, they are in upper case.
    pub spellings: &'a Spellings,
    /// The path of the file.
    pub path: &'a str,
    pub file: &'a [u8],
    /// Where the instances are that its faults name; of others it is said that there are none.
    pub named: &'a NamedInstances,
}

impl<'a> Subject<'a> {
    /// The declaration of an entity.
    pub(crate) fn entity(self, name: &[u8]) -> Option<&'a EntityDecl> {
        let entity = self.schema.entity(name)?;
        self.schema.declared().entities.get(entity.place())
    }

    /// The name of an entity or of a type, as the schema spells it.
    pub(crate) fn name(self, name: &'a [u8]) -> &'a [u8] {
        let spelling = match (self.schema.entity(name), self.schema.type_named(name)) {
            (Some(entity), _) => self.spellings.entities.get(entity.place()),
            (None, Some(defined)) => self.spellings.types.get(defined.place()),
            (None, None) => None,
        };
        spelling.map_or(name, |it| it.as_slice())
    }

    /// The name of an attribute, as the schema spells it.
    pub(crate) fn attribute_name(self, attribute: Attribute<'a>) -> &'a [u8] {
        match self.spellings.attributes.get(attribute.id.place()) {
            Some(spelling) => spelling,
            None => &attribute.declared.name,
        }
    }
}

/// A fault of a file, explained. `kind` is the name of its kind in the report.
///
/// The file is the one that the schema was asked about, the lines are its own, and the fault is one of it; of another file or fault less is said. Of faults in
/// their order no more of a line is looked at than lies between them. No byte of the
/// file or the path is printed as it is that could be one of control. Memory alone can fail.
pub fn explain_fault(
    alloc: Global,
    subject: Subject<'_>,
    lines: &mut Lines<'_>,
    fault: &Fault,
    kind: &[u8],
    format: Format,
) -> Result<String, AllocError>
    // What is printed, as text or as an object of JSON, has no control characters but line ends, whatever the file,
    // the schema and the path hold. What it says and where its caret is, is tested.
    ensures { IfOk result (λ text. IsPrinted (string_bytes text)) }
{
    let mut said = Said::new(alloc);
    let at = in_text(subject.file, fault.at);
    let looked_at = say_fault(&mut said, subject, fault.kind, at)?;
    let found = Finding {
        path: subject.path,
        at: looked_at,
        reported: fault.at,
        what: thing_at(fault.kind),
        kind,
    };
    print_finding(alloc, lines, &found, &said, format)
}

/// What is said of a fault of an instance by a rule: by the place of the instance, the place to look at, and the name of its kind.
pub(crate) fn printed(
    alloc: Global,
    subject: Subject<'_>,
    lines: &mut Lines<'_>,
    reported: u64,
    looked_at: usize,
    kind: &[u8],
    said: &Said,
    format: Format,
) -> Result<String, AllocError>
    ensures { IfOk result (λ text. IsPrinted (string_bytes text)) }
{
    let found = Finding {
        path: subject.path,
        at: looked_at,
        reported,
        what: "instance",
        kind,
    };
    print_finding(alloc, lines, &found, said, format)
}

/// What stands at the place that the report gives of a fault.
fn thing_at(kind: FaultKind) -> &'static str {
    match kind {
        FaultKind::BadToken => "string",
        FaultKind::Unexpected | FaultKind::Truncated | FaultKind::TooDeep => "token",
        FaultKind::HeaderEntities | FaultKind::WrongSchema => "header",
        _ => "instance",
    }
}

/// The instance that begins at a place.
pub(crate) fn instance_at(
    alloc: Global,
    subject: Subject<'_>,
    at: u64,
) -> Result<Option<Instance<'_>>, AllocError> {
    match Cutter::new(subject.file, in_text(subject.file, at)).next() {
        Cut::Piece(piece) => Ok(Some(Instance::read(alloc, subject, &piece)?)),
        Cut::Tail(_) => Ok(None),
    }
}

/// Adds what is wrong; answers the place to look at.
fn say_fault(
    said: &mut Said,
    subject: Subject<'_>,
    kind: FaultKind,
    at: usize,
) -> Result<usize, AllocError>
    requires { at ≤ length subject.file.now }
{
    match kind {
        FaultKind::BadToken => return say_bad_token(said, subject.file, at),
        FaultKind::Unexpected => return say_unexpected(said, subject.file, at),
        FaultKind::Truncated => say_truncated(said, subject.file, at)?,
        FaultKind::TooDeep => said.say(
            "Here 65 parentheses are open at once; at most 64 are allowed.",
        )?,
        FaultKind::HeaderEntities => return say_header_entities(said, subject.file, at),
        FaultKind::WrongSchema => return say_wrong_schema(said, subject, at),
        _ => {
            if let Some(instance) = instance_at(said.alloc, subject, at as u64)? {
                let inside = say_instance_fault(said, &instance, kind)?;
                return Ok(instance.at.saturating_add(inside));
            }
            said.say("An instance has a fault that is not here.")?;
        }
    }
    Ok(at)
}
