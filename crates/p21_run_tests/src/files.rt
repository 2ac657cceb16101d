//! A small schema, files of it, and what a reading of them gives.

use p21_express::read_declarations;
use p21_reader::{ReadError, Reading};
use p21_schema::{Rules, Schema};
use p21_tree::FaultKind;
use std::alloc::{AllocError, Global};
use std::test::Fail;

/// The text of the small schema.
pub(crate) const TOY: &[u8] =
    b"SCHEMA TOY; TYPE Tag = STRING(1); END_TYPE; ENTITY Mark; Text : Tag; END_ENTITY; ENTITY Row; Items : LIST [0:?] OF INTEGER; END_ENTITY; END_SCHEMA;";

/// What stands before the instances: 118 bytes.
pub(crate) const PREFACE: &[u8] =
    b"ISO-10303-21;HEADER;FILE_DESCRIPTION((''),'2;1');FILE_NAME('','',(''),(''),'','','');FILE_SCHEMA(('TOY'));ENDSEC;DATA;";

pub(crate) const TAIL: &[u8] = b"ENDSEC;END-ISO-10303-21;";

pub(crate) const TWO: &[u8] = b"#1=MARK('a');#2=MARK('a');";

pub(crate) const EIGHT: &[u8] = b"#1=MARK('a');#2=MARK('a');#3=MARK('a');#4=MARK('a');\
#5=MARK('a');#6=MARK('a');#7=MARK('a');#8=MARK('a');";

/// The table of the small schema.
pub(crate) fn toy(alloc: Global) -> Result<Schema, Fail> {
    let declarations = read_declarations(alloc, TOY).ok().ok_or("declarations")?;
    Ok(
        Schema::build(alloc, declarations, Rules::default())
            .ok()
            .ok_or("a schema")?,
    )
}

/// A file of the small schema: its preface, what stands between, and a tail.
pub(crate) fn file(alloc: Global, between: &[u8], tail: &[u8]) -> Result<Vec<u8>, AllocError> {
    let mut file = Vec::new(alloc);
    file.extend_from_slice(PREFACE)?;
    file.extend_from_slice(between)?;
    file.extend_from_slice(tail)?;
    Ok(file)
}

/// What a reading answers: how many instances there are, or the first fault and its place.
#[derive(Clone, Copy, Debug, PartialEq, Eq)]
pub(crate) enum Answer {
    Instances(usize),
    Fault(FaultKind, u64),
    Memory,
}

/// What a reading answers.
pub(crate) fn answered(reading: &Result<Reading<'_>, ReadError>) -> Answer {
    match reading {
        Ok(reading) => match &reading.answer {
            Ok(model) => Answer::Instances(model.len()),
            Err(fault) => Answer::Fault(fault.kind, fault.at),
        },
        Err(ReadError::Memory) => Answer::Memory,
    }
}
