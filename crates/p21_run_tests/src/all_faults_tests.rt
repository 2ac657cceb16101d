//! Readings by lanes that tell all faults, by example: each row is a file, read by one lane and by two.

ghost use Rattle.std.specs.Prelude.{◌<◌};

use crate::files::{EIGHT, TAIL, TWO, file, toy};
use p21_crew::{Gate, OpenGate};
use p21_crew_tests::Meeting;
use p21_desk::LaneCount;
use p21_lanes::Capacity;
use p21_reader::{AllFaults, ReadError, read_all_faults};
use p21_schema::Schema;
use p21_tree::{Fault, FaultKind};
use std::alloc::Global;
use std::sync::Wait;
use std::test::Fail;
use std::thread::Threads;
use std::time::Clock;

/// At most three faults.
pub(crate) type Three = [Option<Fault>; 3];

/// What a reading answers: how many instances there are, or all faults.
#[derive(Clone, Copy, Debug, PartialEq, Eq)]
pub(crate) enum Answer {
    Instances(usize),
    Faults(Three),
    More,
    Memory,
}

fn three(faults: &[Fault]) -> Answer {
    match faults {
        [one] => Answer::Faults([Some(*one), None, None]),
        [one, two] => Answer::Faults([Some(*one), Some(*two), None]),
        [one, two, three] => Answer::Faults([Some(*one), Some(*two), Some(*three)]),
        _ => Answer::More,
    }
}

fn answered(all: &Result<AllFaults<'_>, ReadError>) -> Answer {
    match all {
        Ok(all) => match &all.answer {
            Ok(model) => Answer::Instances(model.len()),
            Err(faults) => three(faults.as_slice()),
        },
        Err(ReadError::Memory) => Answer::Memory,
    }
}

/// What lanes of one place each answer with all faults.
pub(crate) fn read_in<G: Gate + Sync, R: Threads + Wait + Sync>(
    rt: &R,
    alloc: Global,
    schema: &Schema,
    gate: &G,
    file: &[u8],
    lanes: u32,
) -> Result<Answer, Fail> {
    let lanes = LaneCount::new(lanes).ok_or("1 to 64 lanes")?;
    let capacity = Capacity::new(1).ok_or("a capacity of 1 to 4096")?;
    let all = read_all_faults(rt, alloc, schema, gate, file, lanes, capacity);
    Ok(answered(&all))
}

pub(crate) fn fault(kind: FaultKind, at: u64) -> Option<Fault> {
    Some(Fault { kind, at })
}

#[test]
fn all_faults(rt: HostRuntime) -> Result<(), Fail> {
    let alloc = rt.alloc();
    let schema = toy(alloc)?;
    let bad = FaultKind::BadAttribute { rec: 0, attr: 0 };
    let rows: [(&[u8], Three); 4] = [
        (
            b"#1=MARK($);#1=MARK('a');#2=MARK('a';",
            [
                fault(bad, 118),
                fault(FaultKind::DuplicateName, 129),
                fault(FaultKind::Unexpected, 153),
            ],
        ),
        (
            b"#1=MARK('a');#1=MARK($);#1=MARK('a');",
            [
                fault(FaultKind::DuplicateName, 131),
                fault(FaultKind::DuplicateName, 142),
                None,
            ],
        ),
        (
            b"#1=MARK('a';#2=MARK($);#3=MARK('a';",
            [fault(FaultKind::Unexpected, 129), None, None],
        ),
        (
            b"#1=MARK($);ENDSEC;#2=MARK($);",
            [fault(bad, 118), fault(FaultKind::Unexpected, 136), None],
        ),
    ];
    for (between, want) in rows {
        let file = file(alloc, between, TAIL)?;
        for lanes in [1, 2] {
            assert_eq!(rt;
                read_in(&rt, alloc, &schema, &OpenGate, &file, lanes)?,
                Answer::Faults(want)
            );
        }
    }
    Ok(())
}

/// What is read where each piece meets all others at a gate.
fn read_meeting<R: Threads + Wait + Clock + Sync>(
    rt: &R,
    alloc: Global,
    schema: &Schema,
    file: &[u8],
    pieces: u32,
) -> Result<(Answer, bool), Fail>
    requires { pieces < 64 }
{
    let gate = Meeting::of(rt, pieces);
    let answer = read_in(rt, alloc, schema, &gate, file, pieces)?;
    Ok((answer, gate.is_met()))
}

#[test]
fn two_at_once_with_all(rt: HostRuntime) -> Result<(), Fail> {
    let alloc = rt.alloc();
    let schema = toy(alloc)?;
    for (pieces, between) in [(2, TWO), (8, EIGHT)] {
        let file = file(alloc, between, TAIL)?;
        assert_eq!(rt;
            read_meeting(&rt, alloc, &schema, &file, pieces)?,
            (Answer::Instances(pieces as usize), true)
        );
    }
    Ok(())
}
