//! Which pieces a walk answers for, and what it says of them.

use crate::tables::table;
use p21_check::{Lately, walk_piece};
use p21_schema::Schema;
use p21_tree::Piece;
use std::alloc::Global;
use std::test::Fail;

const FORMS: &[u8] = b"SCHEMA Forms;\n\
TYPE Label = STRING; END_TYPE;\n\
TYPE Count = INTEGER; END_TYPE;\n\
TYPE Color = ENUMERATION OF (Red, Green); END_TYPE;\n\
TYPE Value = SELECT (Label, Count, Point); END_TYPE;\n\
TYPE Row = LIST OF Point; END_TYPE;\n\
ENTITY Point; Coordinates : LIST [1:3] OF REAL; END_ENTITY;\n\
ENTITY Grid; Rows : LIST OF Row; END_ENTITY;\n\
ENTITY Base ABSTRACT SUPERTYPE; Held : Value; Of : OPTIONAL Point; END_ENTITY;\n\
ENTITY Holder SUBTYPE OF (Base); Hue : Color; Sure : BOOLEAN; Size : NUMBER; END_ENTITY;\n\
ENTITY Derived SUBTYPE OF (Point); DERIVE SELF\\Point.Coordinates : LIST [1:3] OF REAL := [0.0]; END_ENTITY;\n\
ENTITY Bits; Flags : BINARY; Many : ARRAY [1:2] OF OPTIONAL INTEGER; END_ENTITY;\n\
END_SCHEMA;";

/// The name, the place, the number of names and the number of references.
fn walked(alloc: Global, schema: &Schema, text: &[u8]) -> Option<(u64, u64, u64, usize)> {
    let piece = Piece {
        number: 0,
        at: 0,
        bytes: text,
    };
    let found = walk_piece(alloc, schema, &mut Lately::new(), piece).ok()??;
    Some((
        found.name,
        found.at,
        found.written,
        found.references.as_slice().len(),
    ))
}

#[test]
fn walks(rt: HostRuntime) -> Result<(), Fail> {
    let alloc = rt.alloc();
    let forms = table(alloc, FORMS).ok_or("the schema is read and built")?;
    let rows: [(&[u8], Option<(u64, u64, u64, usize)>); 17] = [
        (b"#1=POINT((0.,1.5E2,-3.));", Some((1, 0, 0, 0))),
        (b" #2 = GRID(((#1,#3),(#4)));", Some((2, 1, 3, 3))),
        (b"#3=HOLDER(LABEL('x'),#1,.RED.,.T.,1);", Some((3, 0, 1, 1))),
        (
            b"#4=HOLDER(COUNT(7),$,.GREEN.,.F.,1.5);",
            Some((4, 0, 0, 0)),
        ),
        (b"#5=HOLDER(#9,#9,.RED.,.T.,1);", Some((5, 0, 2, 2))),
        (b"#6=DERIVED(*);", Some((6, 0, 0, 0))),
        (b"#7=BITS(\"0F\",($,2));", Some((7, 0, 0, 0))),
        // What has a fault is given up.
        (b"#1=POINT((0.,1.,2.,3.));", None),
        (b"#1=POINT((0));", None),
        (b"#1=POINT($);", None),
        (b"#1=POINT((0.)) #2;", None),
        (b"#1=HOLDER(COUNT('x'),$,.RED.,.T.,1);", None),
        (b"#1=HOLDER(LABEL('x'),$,.BLUE.,.T.,1);", None),
        (b"#1=BASE(LABEL('x'),$);", None),
        (b"#1=NONE();", None),
        (b"#1=POINT((0.)", None),
        // And so is what is complex.
        (b"#1=(POINT((0.))GRID(((#1))));", None),
    ];
    for (text, expected) in rows {
        assert_eq!(rt; walked(alloc, &forms, text), expected, "{text:?}");
    }
    Ok(())
}
