//! Checks by lanes, and runs, which go by them: how their workers stand to one another.

ghost use Rattle.std.specs.Prelude.{◌<◌};

use crate::files::{TAIL, TOY, file, toy};
use crate::gates::{LanesMeeting, Stopwatch};
use crate::streams::{Bytes, Text};
use p21_checker::{Counts, check_all_faults, check_lanes};
use p21_crew::Gate;
use p21_crew_tests::Window;
use p21_desk::LaneCount;
use p21_lanes::Capacity;
use p21_run::{Outcome, run};
use p21_schema::Rules;
use std::alloc::Global;
use std::sync::Wait;
use std::test::Fail;
use std::thread::Threads;
use std::time::Clock;

/// A file of so many instances.
fn marks(alloc: Global, count: u64) -> Result<Vec<u8>, Fail> {
    let mut marks = Vec::new(alloc);
    for name in 1..=count {
        let mark = format!(in alloc; "#{name}=MARK('a');")?;
        marks.extend_from_slice(mark.as_bytes())?;
    }
    Ok(file(alloc, marks.as_slice(), TAIL)?)
}

/// How many instances a check counts, by lanes of so many places each, with the first fault or with all; none of a file with a fault.
fn check_in<G: Gate + Sync, R: Threads + Wait + Sync>(
    rt: &R,
    alloc: Global,
    gate: &G,
    file: &[u8],
    lanes: u32,
    capacity: u32,
    all: bool,
) -> Result<Option<u64>, Fail> {
    let schema = toy(alloc)?;
    let lanes = LaneCount::new(lanes).ok_or("1 to 64 lanes")?;
    let capacity = Capacity::new(capacity).ok_or("a capacity of 1 to 4096")?;
    if all {
        let check = check_all_faults(rt, alloc, &schema, gate, file, lanes, capacity);
        Ok(counted(&check.ok().ok_or("memory for a check")?.answer))
    } else {
        let check = check_lanes(rt, alloc, &schema, gate, file, lanes, capacity);
        Ok(counted(&check.ok().ok_or("memory for a check")?.answer))
    }
}

fn counted<F>(answer: &Result<Counts<'_>, F>) -> Option<u64> {
    match answer {
        Ok(counts) => Some(counts.instances),
        Err(_) => None,
    }
}

/// How a run over the small schema ends.
fn run_in<G: Gate + Sync, R: Threads + Wait + Sync>(
    rt: &R,
    alloc: Global,
    gate: &G,
    file: &[u8],
    lanes: u32,
    capacity: u32,
    all: bool,
) -> Result<Outcome, Fail> {
    let lanes = LaneCount::new(lanes).ok_or("1 to 64 lanes")?;
    let capacity = Capacity::new(capacity).ok_or("a capacity of 1 to 4096")?;
    Ok(run(
        rt,
        alloc,
        gate,
        &mut Bytes::new(TOY),
        &mut Bytes::new(file),
        &mut Text::new(alloc),
        lanes,
        capacity,
        all,
        Rules::default(),
    ))
}

/// What a check counts whose lanes must meet, and whether they do.
fn check_meeting<R: Threads + Wait + Clock + Sync>(
    rt: &R,
    alloc: Global,
    file: &[u8],
    lanes: u32,
    capacity: u32,
    all: bool,
) -> Result<(Option<u64>, bool), Fail>
    requires { lanes < 64 }
{
    let gate = LanesMeeting::of(rt, lanes);
    let count = check_in(rt, alloc, &gate, file, lanes, capacity, all)?;
    Ok((count, gate.is_met()))
}

// A lane of one place is dealt one piece; one of eight places is dealt two lists of two pieces before the next lane gets one.
#[test]
fn two_at_once(rt: HostRuntime) -> Result<(), Fail> {
    let alloc = rt.alloc();
    for (lanes, capacity, pieces) in [(2, 1, 2), (2, 8, 8), (8, 1, 8), (8, 8, 32)] {
        let file = marks(alloc, pieces)?;
        for all in [false, true] {
            assert_eq!(rt;
                check_meeting(&rt, alloc, &file, lanes, capacity, all)?,
                (Some(pieces), true)
            );
        }
    }
    Ok(())
}

/// How a run ends whose lanes must meet, and whether they do.
fn run_meeting<R: Threads + Wait + Clock + Sync>(
    rt: &R,
    alloc: Global,
    file: &[u8],
    lanes: u32,
    capacity: u32,
    all: bool,
) -> Result<(Outcome, bool), Fail>
    requires { lanes < 64 }
{
    let gate = LanesMeeting::of(rt, lanes);
    let outcome = run_in(rt, alloc, &gate, file, lanes, capacity, all)?;
    Ok((outcome, gate.is_met()))
}

#[test]
fn two_at_once_in_a_run(rt: HostRuntime) -> Result<(), Fail> {
    let alloc = rt.alloc();
    for (lanes, capacity, pieces) in [(2, 1, 2), (2, 8, 8), (8, 1, 8), (8, 8, 32)] {
        let file = marks(alloc, pieces)?;
        for all in [false, true] {
            assert_eq!(rt;
                run_meeting(&rt, alloc, &file, lanes, capacity, all)?,
                (Outcome::Complete, true)
            );
        }
    }
    Ok(())
}

// Of a lane no more pieces are out than its capacity: at most four lists of a quarter of it, or as many lists of one piece as a smaller
// capacity has places. A lane whose worker reads none is dealt two lists. So while the first piece is held, at most six lists are dealt to two
// lanes of four places and more, of one piece for each four places, and this is the first piece of the last of them.
#[test]
fn window(rt: HostRuntime) -> Result<(), Fail> {
    let alloc = rt.alloc();
    let file = marks(alloc, 32)?;
    for (capacity, last) in [(1, 1), (4, 5), (8, 10)] {
        for all in [false, true] {
            let gate = Window::up_to(&rt, last);
            let count = check_in(&rt, alloc, &gate, &file, 2, capacity, all)?;
            assert!(rt; gate.is_kept());
            assert_eq!(rt; count, Some(32));
        }
    }
    Ok(())
}

/// A file of two instances, the first of which has so many numbers.
fn long_and_short(alloc: Global, numbers: u64) -> Result<Vec<u8>, Fail> {
    let mut rows = Vec::new(alloc);
    rows.extend_from_slice(b"#1=ROW((0")?;
    for _ in 1..numbers {
        rows.extend_from_slice(b",0")?;
    }
    rows.extend_from_slice(b"));#2=ROW(());")?;
    Ok(file(alloc, rows.as_slice(), TAIL)?)
}

// So many numbers are read in some 30 milliseconds; that the list is handed on takes a tenth of one, also without optimization.
#[test]
fn worker_checks_its_lists(rt: HostRuntime) -> Result<(), Fail> {
    let alloc = rt.alloc();
    let file = long_and_short(alloc, 200_000)?;
    for all in [false, true] {
        let gate = Stopwatch::new(&rt);
        let count = check_in(&rt, alloc, &gate, &file, 1, 2, all)?;
        assert!(rt; gate.taken_micros() >= 1000);
        assert_eq!(rt; count, Some(2));
    }
    Ok(())
}
