//! A run that tells all faults, over a writer that fails.

use crate::streams::{Bytes, Text, Turn, Turns};
use p21_crew::OpenGate;
use p21_desk::LaneCount;
use p21_lanes::Capacity;
use p21_run::{Outcome, run};
use p21_schema::Rules;
use std::alloc::Global;
use std::sync::Wait;
use std::test::Fail;
use std::thread::Threads;

const SCHEMA: &[u8] = b"SCHEMA s; ENTITY a; x : INTEGER; END_ENTITY; END_SCHEMA;";

/// Two faulty instances.
const FILE: &[u8] =
    b"ISO-10303-21;HEADER;FILE_DESCRIPTION((''),'2;1');FILE_NAME('','',(''),(''),'','','');FILE_SCHEMA(('S'));ENDSEC;DATA;#1=A($);#2=B();ENDSEC;END-ISO-10303-21;";

const LINES: &[u8] = b"fault 12 BadAttribute at 116 rec 0 attr 0\nfault 8 UnknownEntity at 124\n";

/// A run by two lanes of one place each.
fn run_with_all<R: Threads + Wait + Sync>(rt: &R, alloc: Global, out: &mut Text) -> Outcome {
    let (Some(lanes), Some(capacity)) = (LaneCount::new(2), Capacity::new(1)) else {
        return Outcome::Memory;
    };
    run(
        rt,
        alloc,
        &OpenGate,
        &mut Bytes::new(SCHEMA),
        &mut Bytes::new(FILE),
        out,
        lanes,
        capacity,
        true,
        Rules::default(),
    )
}

#[test]
fn writer_of_all_faults_that_fails(rt: HostRuntime) -> Result<(), Fail> {
    for calls in 0..=LINES.len() {
        let mut out = Text::in_steps(rt.alloc(), 1, Turns::until(calls as u64, Turn::Fails));
        let outcome = run_with_all(&rt, rt.alloc(), &mut out);
        let writes_all = calls == LINES.len();
        assert_eq!(rt; outcome == Outcome::Faulty, writes_all, "after {calls}");
        assert_eq!(rt; out.as_slice(), &LINES[..calls], "after {calls}");
    }
    Ok(())
}
