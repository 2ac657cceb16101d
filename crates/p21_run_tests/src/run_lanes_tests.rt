//! Runs of lanes: what their judges said of the pieces, what each lane received and returned, and how its workers stand to one
//! another.

ghost use Rattle.std.specs.Prelude.{◌<◌};

use crate::files::{EIGHT, PREFACE, TAIL, TWO, file, toy};
use crate::judges::MeetingNumbers;
use crate::lanes_tests::share;
use p21_crew::{Gate, OpenGate};
use p21_crew_tests::{Meeting, Window};
use p21_desk::LaneCount;
use p21_lanes::{Capacity, Receipt};
use p21_reader::{Judge, Judged, LocalReader, Run, run_lanes};
use p21_schema::Schema;
use std::alloc::Global;
use std::sync::Wait;
use std::test::Fail;
use std::thread::Threads;
use std::time::Clock;

/// A run of lanes, in numbers.
#[derive(Clone, Copy, Debug, PartialEq, Eq)]
struct Numbers {
    outs: usize,
    receipts: usize,
    returned: usize,
    dealt: usize,
    tail: u64,
}

impl Numbers {
    /// The run of so many lanes over pieces of 13 bytes each.
    fn of(lanes: u32, pieces: usize) -> Numbers {
        Numbers {
            outs: pieces,
            receipts: lanes as usize,
            returned: lanes as usize,
            dealt: pieces,
            tail: (pieces as u64).wrapping_mul(13).wrapping_add(118),
        }
    }
}

/// The number of the piece that was judged: its fault has it as its place, or its instance the one after it as its name.
fn number(judged: &Judged<'_>) -> u64 {
    match judged {
        Judged::Grammar(fault) => fault.at,
        Judged::Whole(instance, _) => instance.name.wrapping_sub(1),
    }
}

/// Whether each lane passed on as many as were dealt to it.
fn are_shares<T: Drop>(receipts: &[Receipt<T>], dealt: &[u32]) -> bool {
    let mut receipts = receipts.iter().enumerate();
    receipts.all(|(lane, receipt)| receipt.count() == share(dealt, lane))
}

/// Whether the pieces stand in file order, and each lane received and returned as many as were dealt to it.
fn is_settled(run: &Run<'_>) -> bool {
    let mut outs = run.outs.iter().enumerate();
    outs.all(|(i, judged)| number(judged) == i as u64)
        && are_shares(&run.receipts, &run.dealt)
        && are_shares(&run.returned, &run.dealt)
}

/// What lanes of one place each give, whose workers ask a judge.
fn run_by<J: Judge + Sync, G: Gate + Sync, R: Threads + Wait + Sync>(
    rt: &R,
    alloc: Global,
    judge: &J,
    gate: &G,
    file: &[u8],
    lanes: u32,
) -> Result<Numbers, Fail> {
    let lanes = LaneCount::new(lanes).ok_or("1 to 64 lanes")?;
    let capacity = Capacity::new(1).ok_or("a capacity of 1 to 4096")?;
    let at = PREFACE.len();
    if file.len() < at {
        return Err("a file with a preface")?;
    }
    let run = run_lanes(rt, alloc, judge, gate, file, at, lanes, capacity)?;
    if !is_settled(&run) {
        return Err("each lane received and returned what was dealt to it, in order")?;
    }
    Ok(Numbers {
        outs: run.outs.len(),
        receipts: run.receipts.len(),
        returned: run.returned.len(),
        dealt: run.dealt.len(),
        tail: run.tail,
    })
}

#[test]
fn receipts_by_lanes(rt: HostRuntime) -> Result<(), Fail> {
    let alloc = rt.alloc();
    let schema = toy(alloc)?;
    let local = LocalReader { schema: &schema };
    let eight = file(alloc, EIGHT, TAIL)?;
    let none = file(alloc, b"", TAIL)?;
    let rows: [(&[u8], u32, usize); 5] = [
        (&eight, 1, 8),
        (&eight, 2, 8),
        (&eight, 64, 8),
        (&none, 64, 0),
        (&none, 1, 0),
    ];
    for (file, lanes, pieces) in rows {
        assert_eq!(rt;
            run_by(&rt, alloc, &local, &OpenGate, file, lanes)?,
            Numbers::of(lanes, pieces)
        );
    }
    Ok(())
}

/// What lanes give where each piece meets all others, and whether it does: at a gate, and in the judge itself.
fn run_meeting<R: Threads + Wait + Clock + Sync>(
    rt: &R,
    alloc: Global,
    schema: &Schema,
    file: &[u8],
    pieces: u32,
) -> Result<[(Numbers, bool); 2], Fail>
    requires { pieces < 64 }
{
    let local = LocalReader { schema };
    let gate = Meeting::of(rt, pieces);
    let at_gate = run_by(rt, alloc, &local, &gate, file, pieces)?;
    let meeting = Meeting::of(rt, pieces);
    let judge = MeetingNumbers { meeting: &meeting };
    let in_judge = run_by(rt, alloc, &judge, &OpenGate, file, pieces)?;
    Ok([(at_gate, gate.is_met()), (in_judge, meeting.is_met())])
}

#[test]
fn two_at_once(rt: HostRuntime) -> Result<(), Fail> {
    let alloc = rt.alloc();
    let schema = toy(alloc)?;
    for (pieces, between) in [(2, TWO), (8, EIGHT)] {
        let file = file(alloc, between, TAIL)?;
        let want = (Numbers::of(pieces, pieces as usize), true);
        assert_eq!(rt; run_meeting(&rt, alloc, &schema, &file, pieces)?, [want; 2]);
    }
    Ok(())
}

#[test]
fn window(rt: HostRuntime) -> Result<(), Fail> {
    let alloc = rt.alloc();
    let schema = toy(alloc)?;
    let local = LocalReader { schema: &schema };
    let file = file(alloc, EIGHT, TAIL)?;
    let gate = Window::up_to(&rt, 1);
    let run = run_by(&rt, alloc, &local, &gate, &file, 2)?;
    assert!(rt; gate.is_kept());
    assert_eq!(rt; run, Numbers::of(2, 8));
    Ok(())
}
