//! References among instances that are asked themselves, one of them of no entity.

use crate::tables::table;
use p21_check::{check_local, check_references};
use p21_join::Joiner;
use p21_schema::Schema;
use p21_tree::{FaultKind, Piece, RawInstance, read_piece};
use std::alloc::Global;
use std::test::Fail;

const TOY: &[u8] = b"SCHEMA Toy;\n\
ENTITY Item; Next : OPTIONAL Item; END_ENTITY;\n\
ENTITY Special SUBTYPE OF (Item); END_ENTITY;\n\
ENTITY Owner; Owns : Special; END_ENTITY;\n\
END_SCHEMA;";

fn instance(alloc: Global, text: &[u8]) -> Option<RawInstance<'_>> {
    let piece = Piece {
        number: 0,
        at: 0,
        bytes: text,
    };
    read_piece(alloc, piece).ok()
}

/// The reference fault of the first of some instances.
fn fault<'a>(
    alloc: Global,
    schema: &Schema,
    texts: &[&'a [u8]],
) -> Result<Option<FaultKind>, Fail> {
    let mut joiner = Joiner::new(alloc);
    for text in texts {
        let read = instance(alloc, text).ok_or("an instance")?;
        joiner.add(read).ok().ok_or("an instance of a new name")?;
    }
    let model = joiner.into_model();
    let first = model.instances().first().ok_or("a first one")?;
    match check_local(schema, first) {
        Ok(()) => Ok(check_references(schema, first, &model).err()),
        Err(kind) => Err(Fail::from(kind)),
    }
}

fn missing(attr: u64, name: u64) -> Option<FaultKind> {
    Some(FaultKind::MissingReference { rec: 0, attr, name })
}

fn wrong(attr: u64, name: u64) -> Option<FaultKind> {
    Some(FaultKind::WrongReference { rec: 0, attr, name })
}

#[test]
fn references(rt: HostRuntime) -> Result<(), Fail> {
    let alloc = rt.alloc();
    let toy = table(alloc, TOY).ok_or("the schema is read and built")?;
    let rows: [(&[&[u8]], Option<FaultKind>); 4] = [
        (&[b"#1=ITEM(#2);", b"#2=SPECIAL($);"], None),
        (&[b"#1=ITEM(#8);"], missing(0, 8)),
        (&[b"#1=OWNER(#2);", b"#2=ITEM($);"], wrong(0, 2)),
        (&[b"#1=ITEM(#2);", b"#2=UNKNOWN();"], wrong(0, 2)),
    ];
    for (texts, expected) in rows {
        assert_eq!(rt; fault(alloc, &toy, texts)?, expected, "{texts:?}");
    }
    Ok(())
}
