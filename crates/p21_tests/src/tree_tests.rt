//! The grammar by example: each row is a file, and what it gives.

use p21_tree::{
    Fault, FaultKind, Few, InstanceReader, Param, Piece, Preface, RawInstance, Record, TreeError,
    read_piece, read_preface, read_tail, read_whole,
};
use std::alloc::{AllocError, Global};
use std::process::Abort;
use std::test::Fail;

const PREFACE: &[u8] =
    b"ISO-10303-21;HEADER;FILE_DESCRIPTION((''),'2;1');FILE_NAME('','',(''),(''),'','','');FILE_SCHEMA(('TOY'));ENDSEC;DATA;";

const TAIL: &[u8] = b"ENDSEC;END-ISO-10303-21;";

/// What reading a whole file gives: how many instances, or its fault.
fn whole(alloc: Global, between: &[u8]) -> Result<Result<usize, TreeError>, AllocError> {
    let mut file = Vec::new(alloc);
    file.extend_from_slice(PREFACE)?;
    file.extend_from_slice(between)?;
    file.extend_from_slice(TAIL)?;
    Ok(read_whole(alloc, &file).map(|read| read.1.len()))
}

#[test]
fn whole_files(rt: HostRuntime) -> Result<(), Fail> {
    let rows: [(&[u8], Result<usize, TreeError>); 2] = [
        (b"#1=MARK(';');/*;#9='*/#2=(A(1)B('#;/*'));", Ok(2)),
        (b"#1=MARK('a');/*", Err(grammar(FaultKind::BadToken, 131))),
    ];
    for (between, want) in rows {
        assert_eq!(rt; whole(rt.alloc(), between)?, want, "{between:?}");
    }
    Ok(())
}

fn check_preface(rt: &impl Abort, preface: &Preface<'_>) {
    assert_eq!(rt; preface.header_at, 13);
    assert_eq!(rt; preface.data_at, 118);
    assert_eq!(rt; preface.entities.len(), 3);
    assert!(rt; preface.entities[0].keyword == b"FILE_DESCRIPTION".as_slice());
}

/// Why a file has no preface.
fn preface_error(alloc: Global, file: &[u8]) -> Option<TreeError> {
    read_preface(alloc, file).err()
}

#[test]
fn places_of_the_preface(rt: HostRuntime) -> Result<(), Fail> {
    let preface = read_preface(rt.alloc(), PREFACE)?;
    check_preface(&rt, &preface);
    Ok(())
}

#[test]
fn header_entity_named_endsec(rt: HostRuntime) {
    let file = b"ISO-10303-21;HEADER;ENDSEC('');ENDSEC;DATA;";
    let fault = preface_error(rt.alloc(), file);
    assert_eq!(rt; fault, Some(grammar(FaultKind::Unexpected, 26)));
}

fn grammar(kind: FaultKind, at: u64) -> TreeError {
    TreeError::Grammar(Fault { kind, at })
}

fn piece(bytes: &'static [u8]) -> Piece<'static> {
    Piece {
        number: 0,
        at: 118,
        bytes: &bytes[..bytes.len().min(1000)],
    }
}

/// Why a piece is no instance.
fn piece_error(alloc: Global, bytes: &'static [u8]) -> Option<TreeError> {
    read_piece(alloc, piece(bytes)).err()
}

#[test]
fn pieces(rt: HostRuntime) {
    let rows: [(&'static [u8], FaultKind, u64); 4] = [
        (b"#1=A(1", FaultKind::Truncated, 124),
        (b"#1=A(1);#2", FaultKind::Unexpected, 126),
        (b"#1=();", FaultKind::Unexpected, 122),
        (b"A(1);", FaultKind::Unexpected, 118),
    ];
    for (bytes, kind, at) in rows {
        let fault = piece_error(rt.alloc(), bytes);
        assert_eq!(rt; fault, Some(grammar(kind, at)), "{bytes:?}");
    }
}

/// Whether it is typed by LABEL, with a list of two inside.
fn is_label_of_two(param: &Param<'_>) -> bool {
    match param {
        Param::Typed(keyword, inner) => *keyword == b"LABEL".as_slice() && is_list_of_two(inner),
        _ => false,
    }
}

fn is_list_of_two(param: &Param<'_>) -> bool {
    match param {
        Param::Items(items) => items.len() == 2,
        _ => false,
    }
}

fn check_parameters(rt: &impl Abort, record: &Record<'_>) {
    assert!(rt; record.keyword == b"!A".as_slice());
    assert_eq!(rt; record.params.len(), 4);
    let params = record.params.as_slice();
    assert!(rt; matches!(params[0], Param::Absent));
    assert!(rt; matches!(params[1], Param::Derived));
    assert!(rt; is_label_of_two(&params[3]));
}

fn check_tree(rt: &impl Abort, read: &RawInstance<'_>) {
    assert_eq!(rt; read.name, 7);
    assert_eq!(rt; read.at, 119);
    assert!(rt; !read.complex);
    assert_eq!(rt; read.records.len(), 1);
    check_parameters(rt, &read.records.as_slice()[0]);
}

#[test]
fn tree_of_an_instance(rt: HostRuntime) -> Result<(), Fail> {
    let read = read_piece(rt.alloc(), piece(b" #7=!A($,*,-1,LABEL((#2,'x')));"))?;
    check_tree(&rt, &read);
    Ok(())
}

/// Whether it is the integer of this spelling.
fn is_integer(param: &Param<'_>, spelled: &[u8]) -> bool {
    match param {
        Param::Int(text) => *text == spelled,
        _ => false,
    }
}

/// Whether it is the list `(6,$)`.
fn is_six_and_none(param: &Param<'_>) -> bool {
    match param {
        Param::Items(items) => {
            items.len() == 2 && is_integer(&items[0], b"6") && matches!(items[1], Param::Absent)
        }
        _ => false,
    }
}

/// Whether it is `D(*)`.
fn is_derived_d(param: &Param<'_>) -> bool {
    match param {
        Param::Typed(keyword, inner) => {
            *keyword == b"D".as_slice() && matches!(&**inner, Param::Derived)
        }
        _ => false,
    }
}

fn check_second_parameters(rt: &impl Abort, record: &Record<'_>) {
    assert!(rt; record.keyword == b"C".as_slice());
    assert_eq!(rt; record.params.len(), 3);
    let params = record.params.as_slice();
    assert!(rt; is_integer(&params[0], b"5"));
    assert!(rt; is_six_and_none(&params[1]));
    assert!(rt; is_derived_d(&params[2]));
}

fn check_second_piece(rt: &impl Abort, read: &RawInstance<'_>) {
    assert_eq!(rt; read.name, 2);
    assert_eq!(rt; read.at, 118);
    assert!(rt; !read.complex);
    assert_eq!(rt; read.records.len(), 1);
    check_second_parameters(rt, &read.records.as_slice()[0]);
}

#[test]
fn one_reader_for_two_pieces(rt: HostRuntime) -> Result<(), Fail> {
    let mut reader = InstanceReader::new(rt.alloc());
    let refused = reader.read(piece(b"#1=A((1,B((2,3 4))));")).err();
    assert_eq!(rt; refused, Some(grammar(FaultKind::Unexpected, 133)));
    let read = reader.read(piece(b"#2=C(5,(6,$),D(*));"))?;
    check_second_piece(&rt, &read);
    Ok(())
}

/// Whether the instance of a text is complex, and how many records it has.
fn form(alloc: Global, bytes: &'static [u8]) -> Result<(bool, usize), TreeError> {
    let read = read_piece(alloc, piece(bytes))?;
    Ok((read.complex, read.records.len()))
}

/// The records of the instance of a text, in a vector.
fn records(alloc: Global, bytes: &'static [u8]) -> Result<Vec<Record<'static>>, Fail> {
    let read = read_piece(alloc, piece(bytes))?;
    Ok(read.records.into_vec(alloc)?)
}

fn check_two_records(rt: &impl Abort, records: &[Record<'_>]) {
    assert_eq!(rt; records.len(), 2);
    assert!(rt; records[0].keyword == b"A".as_slice());
    assert!(rt; records[1].keyword == b"B".as_slice());
}

#[test]
fn records_of_a_complex_instance(rt: HostRuntime) -> Result<(), Fail> {
    let text = b"#1=(A(1)B());";
    assert_eq!(rt; form(rt.alloc(), text)?, (true, 2));
    let listed = records(rt.alloc(), text)?;
    check_two_records(&rt, &listed);
    let again = Few::from_vec(listed);
    check_two_records(&rt, again.as_slice());
    Ok(())
}

fn check_record(rt: &impl Abort, records: &[Record<'_>]) {
    assert_eq!(rt; records.len(), 1);
    assert!(rt; records[0].keyword == b"A".as_slice());
    assert_eq!(rt; records[0].params.len(), 1);
    assert!(rt; is_integer(&records[0].params.as_slice()[0], b"1"));
}

#[test]
fn record_of_a_simple_instance(rt: HostRuntime) -> Result<(), Fail> {
    let listed = records(rt.alloc(), b"#1=A(1);")?;
    check_record(&rt, &listed);
    Ok(())
}

/// The records of the instance of a text, in a vector, or nothing for lack of memory.
fn records_or_none(
    rt: &impl Abort,
    alloc: Global,
    bytes: &'static [u8],
) -> Option<Vec<Record<'static>>> {
    match read_piece(alloc, piece(bytes)) {
        Ok(read) => read.records.into_vec(alloc).ok(),
        Err(error) => {
            assert_eq!(rt; error, TreeError::Memory);
            None
        }
    }
}

#[test]
fn memory_or_the_answer(rt: HostRuntime) {
    if let Some(listed) = records_or_none(&rt, rt.alloc(), b"#1=A(1);") {
        check_record(&rt, &listed);
    }
    if let Some(listed) = records_or_none(&rt, rt.alloc(), b"#1=(A(1)B());") {
        check_two_records(&rt, &listed);
    }
}

#[test]
fn size_of_an_instance(rt: HostRuntime) {
    assert_eq!(rt; size_of::<RawInstance<'static>>(), 88);
}

#[test]
fn tails(rt: HostRuntime) {
    let rows: [(&'static [u8], usize, Option<(FaultKind, u64)>); 5] = [
        (b"ENDSEC;END-ISO-10303-21;", 0, None),
        (b"x ENDSEC;END-ISO-10303-21; /* */", 1, None),
        (
            b"ENDSEC;END-ISO-10303-21;A",
            0,
            Some((FaultKind::Unexpected, 24)),
        ),
        (
            b"ENDSEC;END-ISO-10303-21",
            0,
            Some((FaultKind::Truncated, 23)),
        ),
        (
            b"#1=A(1);ENDSEC;END-ISO-10303-21;",
            0,
            Some((FaultKind::Unexpected, 0)),
        ),
    ];
    for (file, at, want) in rows {
        let at = at.min(file.len());
        let want = want.map(|(kind, at)| Fault { kind, at });
        assert_eq!(rt; read_tail(file, at).err(), want, "{file:?}");
    }
}
