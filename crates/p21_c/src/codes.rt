//! What a call answers, and the faults that it tells.

use p21_express::SchemaError;
use p21_rules::{InverseCount, NotUnique};
use p21_tree::{Fault, FaultKind};
use p21_where_findings::BrokenRule;

/// The call did what it says.
pub(crate) const OK: i32 = 0;

/// The schema or the file has a fault.
pub(crate) const FAULT: i32 = 1;

/// What was asked for is not there.
pub(crate) const NONE: i32 = 2;

/// Memory was refused.
pub(crate) const MEMORY: i32 = 3;

/// A handle is null, or one of another kind.
pub(crate) const HANDLE: i32 = 4;

/// The fault of a schema or of a file.
#[repr(C)]
#[derive(Clone, Copy)]
pub struct CFault {
    /// Its kind, by a number of its own.
    pub kind: u32,
    /// Its place, in bytes from the first byte of the text or the file.
    pub at: u64,
    /// The record, the attribute, and the name that a reference gives; 0 where the kind has none. Of a fault by a rule the number of the rule
    /// among those of its kind, 0, and the name of the earlier instance, how many refer, or 0.
    pub record: u64,
    pub attribute: u64,
    pub name: u64,
}

/// A fault with no record.
fn plain(kind: u32, at: u64) -> CFault {
    CFault {
        kind,
        at,
        record: 0,
        attribute: 0,
        name: 0,
    }
}

/// A fault of an attribute.
fn of_attribute(kind: u32, at: u64, record: u64, attribute: u64, name: u64) -> CFault {
    CFault {
        kind,
        at,
        record,
        attribute,
        name,
    }
}

/// The fault of a file, as C sees it.
pub(crate) fn file_fault(fault: Fault) -> CFault {
    let at = fault.at;
    match fault.kind {
        FaultKind::BadToken => plain(1, at),
        FaultKind::Unexpected => plain(2, at),
        FaultKind::Truncated => plain(3, at),
        FaultKind::TooDeep => plain(4, at),
        FaultKind::HeaderEntities => plain(5, at),
        FaultKind::WrongSchema => plain(6, at),
        FaultKind::DuplicateName => plain(7, at),
        FaultKind::UnknownEntity => plain(8, at),
        FaultKind::AbstractEntity => plain(9, at),
        FaultKind::BadComplex => plain(10, at),
        FaultKind::WrongCount { rec } => of_attribute(11, at, rec, 0, 0),
        FaultKind::BadAttribute { rec, attr } => of_attribute(12, at, rec, attr, 0),
        FaultKind::MissingReference { rec, attr, name } => of_attribute(13, at, rec, attr, name),
        FaultKind::WrongReference { rec, attr, name } => of_attribute(14, at, rec, attr, name),
        FaultKind::RepeatedReference { rec, attr } => of_attribute(15, at, rec, attr, 0),
    }
}

/// The fault that C was told; `None` where its kind is none of a file.
pub(crate) fn told_fault(told: CFault) -> Option<Fault> {
    let (rec, attr, name) = (told.record, told.attribute, told.name);
    let kind = match told.kind {
        1 => FaultKind::BadToken,
        2 => FaultKind::Unexpected,
        3 => FaultKind::Truncated,
        4 => FaultKind::TooDeep,
        5 => FaultKind::HeaderEntities,
        6 => FaultKind::WrongSchema,
        7 => FaultKind::DuplicateName,
        8 => FaultKind::UnknownEntity,
        9 => FaultKind::AbstractEntity,
        10 => FaultKind::BadComplex,
        11 => FaultKind::WrongCount { rec },
        12 => FaultKind::BadAttribute { rec, attr },
        13 => FaultKind::MissingReference { rec, attr, name },
        14 => FaultKind::WrongReference { rec, attr, name },
        15 => FaultKind::RepeatedReference { rec, attr },
        _ => return None,
    };
    Some(Fault { kind, at: told.at })
}

/// The fault of a schema, as C sees it; `None` where memory was refused.
pub(crate) fn schema_fault(error: SchemaError) -> Option<CFault> {
    match error {
        SchemaError::Syntax(at) => Some(plain(101, at)),
        SchemaError::NotSupported(at) => Some(plain(102, at)),
        SchemaError::Repeated(at) => Some(plain(103, at)),
        SchemaError::UnknownName(at) => Some(plain(104, at)),
        SchemaError::Cycle(at) => Some(plain(105, at)),
        SchemaError::BadRedeclaration(at) => Some(plain(106, at)),
        SchemaError::Memory => None,
    }
}

/// The fault of a schema that C was told; `None` where its kind is none of a schema.
pub(crate) fn told_schema_fault(told: &CFault) -> Option<SchemaError> {
    let at = told.at;
    match told.kind {
        101 => Some(SchemaError::Syntax(at)),
        102 => Some(SchemaError::NotSupported(at)),
        103 => Some(SchemaError::Repeated(at)),
        104 => Some(SchemaError::UnknownName(at)),
        105 => Some(SchemaError::Cycle(at)),
        106 => Some(SchemaError::BadRedeclaration(at)),
        _ => None,
    }
}

/// The name of the kind of a schema's fault in a report.
pub(crate) fn schema_kind(error: &SchemaError) -> &'static str {
    match error {
        SchemaError::Syntax(_) => "Syntax",
        SchemaError::NotSupported(_) => "NotSupported",
        SchemaError::Repeated(_) => "Repeated",
        SchemaError::UnknownName(_) => "UnknownName",
        SchemaError::Cycle(_) => "Cycle",
        SchemaError::BadRedeclaration(_) => "BadRedeclaration",
        SchemaError::Memory => "",
    }
}

/// The kinds of faults by rules.
pub(crate) const NOT_UNIQUE: u32 = 16;

pub(crate) const INVERSE_COUNT: u32 = 17;

pub(crate) const RULE_BROKEN: u32 = 18;

/// The fault of an instance by a rule UNIQUE, as C sees it.
pub(crate) fn unique_fault(fault: &NotUnique) -> CFault {
    of_attribute(NOT_UNIQUE, fault.at, fault.rule as u64, 0, fault.earlier)
}

/// The fault of an instance by an INVERSE attribute, as C sees it.
pub(crate) fn inverse_fault(fault: &InverseCount) -> CFault {
    of_attribute(INVERSE_COUNT, fault.at, fault.rule as u64, 0, fault.count)
}

/// The fault of an instance by a rule WHERE, as C sees it.
pub(crate) fn where_fault(broken: &BrokenRule) -> CFault {
    of_attribute(RULE_BROKEN, broken.at, broken.rule as u64, 0, 0)
}
