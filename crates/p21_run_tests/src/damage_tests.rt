//! Cut and damaged files: one thread and lanes answer the same.

use crate::files::{Answer, answered};
use crate::lanes_tests::read_in;
use crate::memory_tests::toy;
use p21_crew::OpenGate;
use p21_reader::read_serial;
use p21_schema::Schema;
use std::alloc::Global;
use std::sync::Wait;
use std::test::Fail;
use std::thread::Threads;

/// A file of three instances.
const FILE: [u8; 208] =
    *b"ISO-10303-21;HEADER;FILE_DESCRIPTION((''),'2;1');FILE_NAME('','',(''),(''),'','','');FILE_SCHEMA(('TOY'));ENDSEC;DATA;#1=ITEM('A001',$,#3);#2=PROP(LABEL('x'));#3=SPECIAL('A003','t',$);ENDSEC;END-ISO-10303-21;";

/// The bytes to which others are set: of no token, the ends of a string and of an instance, the begin of a directive, of no text.
const DAMAGES: [u8; 5] = [0, 39, 59, 92, 255];

/// What one thread answers to a file, and what two lanes do.
fn both_answers<R: Threads + Wait + Sync>(
    rt: &R,
    alloc: Global,
    schema: &Schema,
    file: &[u8],
) -> Result<(Answer, Answer), Fail> {
    let serial = answered(&read_serial(alloc, schema, file));
    let lanes = read_in(rt, alloc, schema, &OpenGate, file, 2)?;
    Ok((serial, lanes.answer))
}

#[test]
fn each_front(rt: HostRuntime) -> Result<(), Fail> {
    let schema = toy(rt.alloc()).ok_or("a schema")?;
    for end in 0..=FILE.len() {
        let (serial, lanes) = both_answers(&rt, rt.alloc(), &schema, &FILE[..end])?;
        assert_eq!(rt; serial, lanes, "of the first {end}");
    }
    Ok(())
}

#[test]
fn each_byte_damaged(rt: HostRuntime) -> Result<(), Fail> {
    let schema = toy(rt.alloc()).ok_or("a schema")?;
    for at in 0..FILE.len() {
        for damage in DAMAGES {
            let mut file = FILE;
            file[at] = damage;
            let (serial, lanes) = both_answers(&rt, rt.alloc(), &schema, &file)?;
            assert_eq!(rt; serial, lanes, "of {damage} at {at}");
        }
    }
    Ok(())
}
