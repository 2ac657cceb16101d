//! Complex instances of many records, some of whose entities stand after so many others of the schema that no mark is theirs.

use crate::tables::table;
use p21_check::check_local;
use p21_schema::Schema;
use p21_tree::{FaultKind, Piece, read_piece};
use std::alloc::{AllocError, Global};
use std::test::Fail;

/// More than there are marks in a table.
const ENTITIES: u64 = 16500;

/// A text with these numbers, each after the one text and before the other.
fn numbered(
    alloc: Global,
    front: &[u8],
    back: &[u8],
    from: u64,
    to: u64,
) -> Result<Vec<u8>, AllocError> {
    let mut text = Vec::new(alloc);
    for number in from..to {
        text.extend_from_slice(front)?;
        for unit in [10000, 1000, 100, 10, 1] {
            text.push(b'0' + (number / unit % 10) as u8)?;
        }
        text.extend_from_slice(back)?;
    }
    Ok(text)
}

/// The table of many entities below one, and of an abstract one and its subtype before and after them.
fn many(alloc: Global) -> Result<Schema, Fail> {
    let entities = numbered(
        alloc,
        b"ENTITY E",
        b" SUBTYPE OF (A); END_ENTITY;",
        0,
        ENTITIES,
    )?;
    let mut text = Vec::new(alloc);
    text.extend_from_slice(
        b"SCHEMA MANY; ENTITY A; END_ENTITY; ENTITY P ABSTRACT SUPERTYPE; END_ENTITY; ENTITY C SUBTYPE OF (P); END_ENTITY;",
    )?;
    text.extend_from_slice(&entities)?;
    text.extend_from_slice(
        b"ENTITY Q ABSTRACT SUPERTYPE; END_ENTITY; ENTITY D SUBTYPE OF (Q); END_ENTITY; END_SCHEMA;",
    )?;
    Ok(table(alloc, &text).ok_or("a schema")?)
}

/// The fault of an instance of the last 200 of the many entities, between these records.
fn fault(
    alloc: Global,
    schema: &Schema,
    front: &[u8],
    back: &[u8],
) -> Result<Option<FaultKind>, Fail> {
    let records = numbered(alloc, b"E", b"()", ENTITIES - 200, ENTITIES)?;
    let mut text = Vec::new(alloc);
    text.extend_from_slice(b"#1=(")?;
    text.extend_from_slice(front)?;
    text.extend_from_slice(&records)?;
    text.extend_from_slice(back)?;
    text.extend_from_slice(b");")?;
    let piece = Piece {
        number: 0,
        at: 0,
        bytes: &text,
    };
    let instance = read_piece(alloc, piece).ok().ok_or("an instance")?;
    Ok(check_local(schema, &instance).err())
}

#[test]
fn many_records(rt: HostRuntime) -> Result<(), Fail> {
    let alloc = rt.alloc();
    let schema = many(alloc)?;
    let bad = Some(FaultKind::BadComplex);
    let rows: [(&[u8], &[u8], Option<FaultKind>); 10] = [
        (b"A()", b"", None),
        (b"", b"", bad),
        (b"A()", b"E16300()", bad),
        (b"A()", b"E16499()", bad),
        (b"A()P()", b"C()", None),
        (b"A()P()", b"", bad),
        (b"A()C()", b"", bad),
        (b"A()Q()", b"D()", None),
        (b"A()Q()", b"", bad),
        (b"A()D()", b"", bad),
    ];
    for (front, back, want) in rows {
        assert_eq!(rt;
            fault(alloc, &schema, front, back)?,
            want,
            "{front:?} {back:?}"
        );
    }
    Ok(())
}
