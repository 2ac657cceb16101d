//! The loop of a worker.
ghost use Rattle.std.specs.Prelude.{◌≡◌, [], true, false};
ghost use Rattle.p21_lanes.specs.LaneIn.{accepted, was_ended, SameIn};
ghost use Rattle.p21_lanes.specs.LaneOut.{taken, took_end, SameOut};
ghost use Rattle.p21_crew.specs.Worker.{IsReturned, IsDone};

use crate::gate::Gate;
use crate::outbox::Outbox;
use crate::rest::{Rest, Waker};
use crate::returned::Returned;
use crate::work::Work;
use p21_lanes::{LaneIn, LaneOut, Taken};
use std::alloc::Global;
use std::sync::Wait;

/// What a worker hands back when it has ended: its ends of the two rings of its lane.
#[derive(Drop)]
pub(crate) struct Worked<P, O> {
    pub(crate) pieces: LaneOut<P>,
    pub(crate) results: LaneIn<Returned<O>>,
}

/// Reads the pieces of a lane until their end, and sends back one result for each, and then the end. Results are sent so many together,
/// and where no piece is there. It rests where the lane is empty, and wakes the dealer when it has sent results.
pub(crate) fn work_lane<P: Drop, O: Drop, K: Drop, W: Work<P, Out = O, Kept = K>, G: Gate, R: Wait>(
    rt: &R,
    alloc: Global,
    work: &W,
    gate: &G,
    lane: u32,
    together: usize,
    rest: Rest,
    dealer: Waker,
    pieces: LaneOut<P>,
    results: LaneIn<Returned<O>>,
) -> Worked<P, O>
    requires pieces { (taken pieces ≡ []) × (took_end pieces ≡ false) }
    requires results { (accepted results ≡ []) × (was_ended results ≡ false) }
    ensures { IsDone (W.stated work.now) pieces results result.pieces result.results }
{
    let mut pieces = pieces;
    let mut outbox = Outbox::new(alloc, results, together);
    let mut rest = rest;
    let mut kept = work.begin(alloc);
    let mut has_memory = true;
    for _ in rt.forever() {
        let is_sent = match pieces.take() {
            Taken::Item(piece) => {
                gate.enter(lane, work.number(&piece));
                let answer = read_piece(alloc, work, &mut kept, has_memory, piece);
                has_memory = matches!(answer, Returned::Value(_));
                rest.interrupt();
                outbox.put(rt, answer)
            }
            Taken::Nothing => {
                let is_sent = outbox.send_all(rt);
                rest.rest_unless(rt, is_sent);
                is_sent
            }
            Taken::Ended => {
                let results = outbox.end(rt);
                return Worked { pieces, results };
            }
        };
        dealer.wake_if(is_sent);
    }
    unreachable!()
}

/// What is read of a piece; where memory is or was refused, the mark.
fn read_piece<P: Drop, O, K, W: Work<P, Out = O, Kept = K>>(
    alloc: Global,
    work: &W,
    kept: &mut K,
    has_memory: bool,
    piece: P,
) -> Returned<O>
    ensures { IsReturned (W.stated work.now) piece result }
{
    if !has_memory {
        return Returned::NoMemory;
    }
    match work.read(alloc, kept, piece) {
        Ok(out) => Returned::Value(out),
        Err(_) => Returned::NoMemory,
    }
}
