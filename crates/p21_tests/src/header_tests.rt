//! Headers by example.

use crate::tables::table;
use p21_check::check_header;
use p21_schema::Schema;
use p21_tree::{FaultKind, read_preface};
use std::alloc::{AllocError, Global};
use std::test::Fail;

const TOY: &[u8] = b"SCHEMA Toy; TYPE Label = STRING; END_TYPE; END_SCHEMA;";

/// The texts, one after the other.
fn joined(alloc: Global, parts: &[&[u8]]) -> Result<Vec<u8>, AllocError> {
    let mut text = Vec::new(alloc);
    for part in parts {
        text.extend_from_slice(part)?;
    }
    Ok(text)
}

/// What is wrong with a preface of these header entities.
fn fault(alloc: Global, schema: &Schema, entities: &[&[u8]]) -> Result<Option<FaultKind>, Fail> {
    let entities = joined(alloc, entities)?;
    let text = joined(
        alloc,
        &[b"ISO-10303-21;HEADER;", &entities, b"ENDSEC;DATA;"],
    )?;
    let preface = read_preface(alloc, &text).ok().ok_or("a preface")?;
    Ok(check_header(schema, &preface).err())
}

const DESCRIPTION: &[u8] = b"FILE_DESCRIPTION((''),'2;1');";

const NAME: &[u8] = b"FILE_NAME('','',(''),(''),'','','');";

const SCHEMA: &[u8] = b"FILE_SCHEMA(('TOY'));";

#[test]
fn header_entities(rt: HostRuntime) -> Result<(), Fail> {
    let alloc = rt.alloc();
    let toy = table(alloc, TOY).ok_or("the schema is read and built")?;
    let entities = Some(FaultKind::HeaderEntities);
    let rows: [(&[&[u8]], Option<FaultKind>); 18] = [
        (&[DESCRIPTION, NAME, SCHEMA], None),
        (
            &[DESCRIPTION, NAME, SCHEMA, b"FILE_POPULATION('OTHER');"],
            None,
        ),
        (
            &[DESCRIPTION, NAME, SCHEMA, b"FILE_SCHEMA(('OTHER'));"],
            None,
        ),
        (&[b"FILE_DESCRIPTION();FILE_NAME();", SCHEMA], None),
        (&[], entities),
        (&[DESCRIPTION, NAME], entities),
        (&[DESCRIPTION, SCHEMA], entities),
        (&[DESCRIPTION, b"FILE_SCHEMA(('OTHER'));"], entities),
        (&[NAME, DESCRIPTION, SCHEMA], entities),
        (&[DESCRIPTION, SCHEMA, NAME], entities),
        (
            &[DESCRIPTION, NAME, b"FILE_POPULATION();", SCHEMA],
            entities,
        ),
        (&[DESCRIPTION, b"!FILE_NAME();", SCHEMA], entities),
        (
            &[DESCRIPTION, NAME, b"FILE_SCHEMA(('TOY','TOY'));"],
            entities,
        ),
        (&[DESCRIPTION, NAME, b"FILE_SCHEMA(('TOY'),$);"], entities),
        (&[DESCRIPTION, NAME, b"FILE_SCHEMA(());"], entities),
        (&[DESCRIPTION, NAME, b"FILE_SCHEMA();"], entities),
        (&[DESCRIPTION, NAME, b"FILE_SCHEMA('TOY');"], entities),
        (&[DESCRIPTION, NAME, b"FILE_SCHEMA((.TOY.));"], entities),
    ];
    for (header, expected) in rows {
        assert_eq!(rt; fault(alloc, &toy, header)?, expected);
    }
    Ok(())
}

#[test]
fn schema_name(rt: HostRuntime) -> Result<(), Fail> {
    let alloc = rt.alloc();
    let toy = table(alloc, TOY).ok_or("the schema is read and built")?;
    let other = Some(FaultKind::WrongSchema);
    let rows: [(&[u8], Option<FaultKind>); 18] = [
        (b"toy { 1 0 }", None),
        (b"ToY{1}", None),
        (b"TOY OTHER", None),
        (b"\\X\\54OY", None),
        (b"to\\X2\\0079\\X0\\", None),
        (b"T\nOY", None),
        (b"TOY\\X\\20S", None),
        (b"\\PB\\TOY", None),
        (b"OTHER", other),
        (b"", other),
        (b" TOY", other),
        (b"{TOY}", other),
        (b"TO", other),
        (b"TOYS", other),
        (b"T\\X\\20OY", other),
        (b"\\PB\\\\S\\TOY", other),
        (b"TOY''", other),
        (b"T\\X\\F6Y", other),
    ];
    for (name, expected) in rows {
        let found = fault(
            alloc,
            &toy,
            &[DESCRIPTION, NAME, b"FILE_SCHEMA(('", name, b"'));"],
        )?;
        assert_eq!(rt; found, expected);
    }
    Ok(())
}
