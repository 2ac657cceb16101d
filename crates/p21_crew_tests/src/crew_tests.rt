//! Crews that read numbers.
ghost use Rattle.std.specs.Prelude.{◌≡◌, [], ◌∷◌, ◌++◌, IfOk};

use crate::meeting::Meeting;
use crate::window::Window;
use p21_crew::{Cuts, Gate, Gathers, Next, OpenGate, Run, Work, run_crew};
use p21_desk::LaneCount;
use p21_lanes::Capacity;
use std::alloc::{AllocError, Global};
use std::sync::Wait;
use std::test::Fail;
use std::thread::Threads;
use std::time::Clock;

/// The numbers from `next` on, and below `end`.
#[derive(Clone, Copy)]
struct Numbers {
    next: u64,
    end: u64,
}

impl Cuts for Numbers {
    type Piece = u64;

    ghost use Rattle.std.specs.Prelude.{ℕ, List, ◌-◌};

    ghost cuts = { λ c pieces tail. Unit {0} };

    ghost left = { λ c. c.end - c.next };

    fn next(&mut self) -> Next<u64> {
        if self.next < self.end {
            self.next += 1;
            Next::Piece(self.next - 1)
        } else {
            Next::Tail(self.end)
        }
    }
}

/// Answers the number after each, or waits at a gate first.
struct Following;

impl Work<u64> for Following {
    type Out = u64;

    type Kept = ();

    ghost use Rattle.std.specs.Prelude.{◌≡◌, ◌+◌, ◌%◌, ◌^◌};

    ghost stated = { λ w p o. o ≡ (p + 1) % 2 ^ 64 };

    fn number(&self, piece: &u64) -> u64 {
        *piece
    }

    fn begin(&self, _alloc: Global) {}

    fn read(&self, _alloc: Global, _kept: &mut (), piece: u64) -> Result<u64, AllocError> {
        Ok(piece.wrapping_add(1))
    }
}

#[derive(Drop)]
struct Answers {
    all: Vec<u64>,
}

impl Gathers<u64> for Answers {
    ghost use Rattle.std.specs.Prelude.{◌≡◌};

    ghost holds = { λ g outs. g.all.items ≡ outs };

    fn gather(&mut self, out: u64) -> Result<(), AllocError> {
        self.all.push(out)?;
        Ok(())
    }
}

fn run_numbers<G: Gate + Sync, R: Threads + Wait + Sync>(
    rt: &R,
    alloc: Global,
    gate: &G,
    end: u64,
    lanes: u32,
    capacity: u32,
) -> Result<Run<u64, u64, Answers>, Fail> {
    let lanes = LaneCount::new(lanes).ok_or("1 to 64 lanes")?;
    let capacity = Capacity::new(capacity).ok_or("a capacity of 1 to 4096")?;
    let cutter = Numbers { next: 0, end };
    let answers = Answers {
        all: Vec::new(alloc),
    };
    Ok(run_crew(
        rt, alloc, &Following, gate, cutter, answers, lanes, capacity,
    )?)
}

/// Whether the answers are the numbers from 1 up to the end, all of them in order, and the receipts count them.
fn is_whole(run: &Run<u64, u64, Answers>, end: u64, lanes: usize) -> bool {
    let mut received = 0u64;
    for receipt in &run.receipts {
        received = received.saturating_add(receipt.count());
    }
    let mut returned = 0u64;
    for receipt in &run.returned {
        returned = returned.saturating_add(receipt.count());
    }
    let in_order = run
        .gatherer
        .all
        .iter()
        .enumerate()
        .all(|(i, answer)| *answer as usize == i + 1);
    run.tail == end
        && in_order
        && run.gatherer.all.len() as u64 == end
        && run.dealt.len() as u64 == end
        && received == end
        && returned == end
        && run.receipts.len() == lanes
        && run.returned.len() == lanes
}

#[test]
fn numbers_in_order(rt: HostRuntime) -> Result<(), Fail> {
    for (end, lanes, capacity) in [
        (0, 64, 256),
        (3, 1, 1),
        (1000, 2, 1),
        (1000, 4, 256),
        (5000, 64, 4096),
        (777, 3, 7),
    ] {
        let run = run_numbers(&rt, rt.alloc(), &OpenGate, end, lanes, capacity)?;
        assert!(rt;
            is_whole(&run, end, lanes as usize),
            "{end} numbers, {lanes} lanes, capacity {capacity}"
        );
    }
    Ok(())
}

#[test]
fn two_at_once(rt: HostRuntime) -> Result<(), Fail> {
    for pieces in [2, 8] {
        let gate = Meeting::of(&rt, pieces);
        let run = run_numbers(&rt, rt.alloc(), &gate, u64::from(pieces), pieces, 1)?;
        assert!(rt; gate.is_met());
        assert!(rt; is_whole(&run, u64::from(pieces), pieces as usize));
    }
    Ok(())
}

#[test]
fn window(rt: HostRuntime) -> Result<(), Fail> {
    let gate = Window::up_to(&rt, 1);
    let run = run_numbers(&rt, rt.alloc(), &gate, 8, 2, 1)?;
    assert!(rt; gate.is_kept());
    assert!(rt; is_whole(&run, 8, 2));
    Ok(())
}
