//! Readings by lanes: what each lane received, and how its workers stand to one another.

ghost use Rattle.std.specs.Prelude.{◌<◌};
ghost use Rattle.p21_reader.specs.Lanes.{FindsEachFault};

use crate::files::Answer::{Fault, Instances};
use crate::files::{Answer, EIGHT, PREFACE, TAIL, TWO, answered, file, toy};
use crate::judges::MeetingReader;
use p21_crew::{Gate, OpenGate};
use p21_crew_tests::{Meeting, Window};
use p21_desk::LaneCount;
use p21_lanes::Capacity;
use p21_reader::{Judge, LocalReader, Reading, read_lanes, read_lanes_by};
use p21_schema::Schema;
use p21_tree::FaultKind;
use std::alloc::Global;
use std::sync::Wait;
use std::test::Fail;
use std::thread::Threads;
use std::time::Clock;

/// A reading by lanes, in numbers.
#[derive(Clone, Copy, Debug, PartialEq, Eq)]
pub(crate) struct Numbers {
    pub(crate) answer: Answer,
    receipts: usize,
    dealt: usize,
}

/// How many pieces were dealt to a lane.
pub(crate) fn share(dealt: &[u32], lane: usize) -> u64 {
    dealt.iter().filter(|of| **of as usize == lane).count() as u64
}

/// Whether each piece was dealt to one of the lanes that there are receipts of, and each lane received as many as were dealt to it.
fn is_settled(reading: &Reading<'_>) -> bool {
    let lanes = reading.receipts.len();
    let is_dealt = reading.dealt.iter().all(|lane| (*lane as usize) < lanes);
    let dealt = reading.dealt.as_slice();
    let mut receipts = reading.receipts.iter().enumerate();
    is_dealt && receipts.all(|(lane, receipt)| receipt.count() == share(dealt, lane))
}

/// What lanes of one place each read.
pub(crate) fn read_in<G: Gate + Sync, R: Threads + Wait + Sync>(
    rt: &R,
    alloc: Global,
    schema: &Schema,
    gate: &G,
    file: &[u8],
    lanes: u32,
) -> Result<Numbers, Fail> {
    let lanes = LaneCount::new(lanes).ok_or("1 to 64 lanes")?;
    let capacity = Capacity::new(1).ok_or("a capacity of 1 to 4096")?;
    let reading = read_lanes(rt, alloc, schema, gate, file, lanes, capacity);
    let answer = answered(&reading);
    let reading = reading.ok().ok_or("memory for a reading")?;
    if !is_settled(&reading) {
        return Err("each lane received what was dealt to it")?;
    }
    Ok(Numbers {
        answer,
        receipts: reading.receipts.len(),
        dealt: reading.dealt.len(),
    })
}

/// What lanes of one place each answer, whose workers ask a judge.
pub(crate) fn read_by<J: Judge + Sync, G: Gate + Sync, R: Threads + Wait + Sync>(
    rt: &R,
    alloc: Global,
    schema: &Schema,
    judge: &J,
    gate: &G,
    file: &[u8],
    lanes: u32,
) -> Result<Answer, Fail>
    requires { FindsEachFault (J.judges judge.now) schema.now }
{
    let lanes = LaneCount::new(lanes).ok_or("1 to 64 lanes")?;
    let capacity = Capacity::new(1).ok_or("a capacity of 1 to 4096")?;
    let reading = read_lanes_by(rt, alloc, schema, judge, gate, file, lanes, capacity);
    Ok(answered(&reading))
}

#[test]
fn receipts_by_lanes(rt: HostRuntime) -> Result<(), Fail> {
    let alloc = rt.alloc();
    let schema = toy(alloc)?;
    let three = b"#1=MARK('a');#2=MARK('b');#3=MARK('c');";
    let three = file(alloc, three, TAIL)?;
    let none = file(alloc, b"", TAIL)?;
    let cut = &PREFACE[..113];
    let rows: [(&[u8], u32, Answer, usize, usize); 5] = [
        (&three, 1, Instances(3), 1, 3),
        (&three, 2, Instances(3), 2, 3),
        (&three, 64, Instances(3), 64, 3),
        (&none, 64, Instances(0), 64, 0),
        (cut, 2, Fault(FaultKind::Truncated, 113), 0, 0),
    ];
    for (file, lanes, answer, receipts, dealt) in rows {
        let want = Numbers {
            answer,
            receipts,
            dealt,
        };
        assert_eq!(rt; read_in(&rt, alloc, &schema, &OpenGate, file, lanes)?, want);
    }
    Ok(())
}

/// What is read where each piece meets all others in the judge itself.
fn read_meeting_within<R: Threads + Wait + Clock + Sync>(
    rt: &R,
    alloc: Global,
    schema: &Schema,
    file: &[u8],
    pieces: u32,
) -> Result<(Answer, bool), Fail>
    requires { pieces < 64 }
{
    let meeting = Meeting::of(rt, pieces);
    let judge = MeetingReader {
        local: LocalReader { schema },
        meeting: &meeting,
    };
    let answer = read_by(rt, alloc, schema, &judge, &OpenGate, file, pieces)?;
    Ok((answer, meeting.is_met()))
}

/// What is read where each piece meets all others: at a gate, at a gate before a judge, and in the judge itself.
fn read_meeting<R: Threads + Wait + Clock + Sync>(
    rt: &R,
    alloc: Global,
    schema: &Schema,
    file: &[u8],
    pieces: u32,
) -> Result<[(Answer, bool); 3], Fail>
    requires { pieces < 64 }
{
    let gate = Meeting::of(rt, pieces);
    let alone = read_in(rt, alloc, schema, &gate, file, pieces)?.answer;
    let gate_by = Meeting::of(rt, pieces);
    let by = read_by(
        rt,
        alloc,
        schema,
        &LocalReader { schema },
        &gate_by,
        file,
        pieces,
    )?;
    let within = read_meeting_within(rt, alloc, schema, file, pieces)?;
    Ok([(alone, gate.is_met()), (by, gate_by.is_met()), within])
}

#[test]
fn two_at_once(rt: HostRuntime) -> Result<(), Fail> {
    let alloc = rt.alloc();
    let schema = toy(alloc)?;
    for (pieces, between) in [(2, TWO), (8, EIGHT)] {
        let file = file(alloc, between, TAIL)?;
        let want = (Instances(pieces as usize), true);
        assert_eq!(rt;
            read_meeting(&rt, alloc, &schema, &file, pieces)?,
            [want; 3]
        );
    }
    Ok(())
}

#[test]
fn window(rt: HostRuntime) -> Result<(), Fail> {
    let alloc = rt.alloc();
    let schema = toy(alloc)?;
    let file = file(alloc, EIGHT, TAIL)?;
    let gate = Window::up_to(&rt, 1);
    let read = read_in(&rt, alloc, &schema, &gate, &file, 2)?;
    assert!(rt; gate.is_kept());
    assert_eq!(rt; read.answer, Instances(8));
    Ok(())
}
