//! A lane whose worker runs in a thread of its own.
ghost use Rattle.std.specs.Prelude.{◌≡◌, [], false, true, IfOk, IsTrue};
ghost use Rattle.p21_lanes.specs.Lane.{IsLane};
ghost use Rattle.p21_lanes.specs.LaneIn.{accepted, was_ended};
ghost use Rattle.p21_lanes.specs.LaneOut.{taken, took_end, SameOut};
ghost use Rattle.p21_crew.specs.Worker.{IsDone};

use crate::gate::Gate;
use crate::rest::{Rest, Waker};
use crate::returned::Returned;
use crate::sending::send_end;
use crate::work::Work;
use crate::worker::{Worked, work_lane};
use crossbeam_utils::Backoff;
use p21_lanes::{Capacity, LaneIn, LaneOut, Receipt, Taken, lane, settle};
use std::alloc::{AllocError, Global};
use std::snapshot::Snapshot;
use std::sync::Wait;
use std::thread::{Promise, PromisedHandle, Scope, Threads};

/// What a worker was given, and what it promises of it.
#[derive(Drop)]
pub(crate) struct Given<P, O, W> {
    pub(crate) work: Snapshot<W>,
    pub(crate) pieces: Snapshot<LaneOut<P>>,
    pub(crate) results: Snapshot<LaneIn<Returned<O>>>,
}

impl<P, O, W: Work<P, Out = O>> Promise<Worked<P, O>> for Given<P, O, W> {
    ghost kept_by = { λ given done. IsDone (W.stated given.work.value) given.pieces.value given.results.value done.pieces done.results };
}

/// A lane whose worker runs: the dealer's ends of its two rings, and what it takes to join the worker.
///
/// It has to be landed: a worker whose lane is let go waits for its end for ever. So it is no `Drop`, and code that lets one go
/// does not compile.
pub(crate) struct Flight<P, O, W: Work<P, Out = O>> {
    pub(crate) pieces: LaneIn<P>,
    pub(crate) results: LaneOut<Returned<O>>,
    /// Wakes the worker.
    pub(crate) waker: Waker,
    pub(crate) worker: PromisedHandle<Worked<P, O>, Given<P, O, W>>,
    ghost is_open: { was_ended pieces ≡ false },
    ghost pieces_lane: { IsLane pieces worker.promise.pieces.value },
    ghost results_lane: { IsLane worker.promise.results.value results },
}

/// Makes the two rings of a lane and starts its worker. An error means that memory, or a thread, was refused.
pub(crate) fn launch<
    's,
    E,
    P: Drop + Send + 's,
    O: Drop + Send + 's,
    K: Drop + Send + 's,
    W: Work<P, Out = O, Kept = K> + Sync + 's,
    G: Gate + Sync + 's,
    R: Wait + Sync + 's,
>(
    scope: &Scope<'s, E>,
    rt: &'s R,
    alloc: Global,
    work: &'s W,
    gate: &'s G,
    number: u32,
    capacity: Capacity,
    together: usize,
    dealer: &Rest,
) -> Result<Flight<P, O, W>, AllocError>
    ensures pieces { IfOk result (λ flight. accepted flight.pieces ≡ []) }
    ensures results { IfOk result (λ flight. (taken flight.results ≡ []) × (took_end flight.results ≡ false)) }
    ensures work { IfOk result (λ flight. flight.worker.promise.work.value ≡ work.now) }
{
    let rest = Rest::new(alloc, dealer.patience())?;
    let waker = rest.waker()?;
    let dealer = dealer.waker()?;
    let (pieces_in, pieces_out) = lane(alloc, capacity)?;
    let (results_in, results_out) = lane(alloc, capacity)?;
    let given = Given {
        work: Snapshot::of(work),
        pieces: Snapshot::of(&pieces_out),
        results: Snapshot::of(&results_in),
    };
    let worker = scope.spawn_with(
        given,
        move || -> Worked<P, O>
            requires pieces { (taken pieces_out ≡ []) × (took_end pieces_out ≡ false) }
            requires results { (accepted results_in ≡ []) × (was_ended results_in ≡ false) }
            ensures { IsDone (W.stated work.entry.now) pieces_out results_in result.pieces result.results }
        {
            work_lane(
                rt, alloc, work, gate, number, together, rest, dealer, pieces_out, results_in,
            )
        },
    )?;
    Ok(Flight {
        pieces: pieces_in,
        results: results_out,
        waker,
        worker,
    })
}

/// A lane whose worker has ended.
#[derive(Drop)]
pub(crate) struct Landed<P, O> {
    /// What the worker received.
    pub(crate) receipt: Receipt<P>,
    /// What it sent back.
    pub(crate) returned: Receipt<Returned<O>>,
    /// Whether the dealer had taken each result before.
    pub(crate) is_clean: bool,
}

impl<P: Drop, O: Drop, W: Work<P, Out = O>> Flight<P, O, W> {
    ghost use Rattle.std.specs.Prelude.{◌≡◌, IsTrue};
    ghost use Rattle.std.specs.List.{AllZip};
    ghost use Rattle.p21_lanes.specs.LaneIn.{accepted};
    ghost use Rattle.p21_lanes.specs.LaneOut.{taken};
    ghost use Rattle.p21_lanes.specs.Receipt.{passed};
    ghost use Rattle.p21_crew.specs.Worker.{IsReturned};

    /// Ends the lane, takes its results to their end, joins its worker and settles both rings.
    pub(crate) fn land<R: Threads + Wait>(self, rt: &R) -> Landed<P, O>
        ensures receipt { passed result.receipt ≡ accepted self.pieces }
        ensures returned { IsTrue result.is_clean → passed result.returned ≡ taken self.results }
        ensures read { AllZip (IsReturned (W.stated self.worker.promise.work.value)) (passed result.receipt) (passed result.returned) }
    {
        let Flight {
            mut pieces,
            mut results,
            waker,
            worker,
        } = self;
        send_end(rt, &mut pieces);
        waker.wake();
        let is_clean = drain(rt, &mut results);
        let worked = worker.join(rt);
        let Ok(receipt) = settle(pieces, worked.pieces) else {
            unreachable!()
        };
        let Ok(returned) = settle(worked.results, results) else {
            unreachable!()
        };
        Landed {
            receipt,
            returned,
            is_clean,
        }
    }
}

/// Takes the results of a lane to their end. The answer is whether there was none before it.
fn drain<T: Drop, R: Wait>(rt: &R, results: &mut LaneOut<T>) -> bool
    ensures lane { SameOut results.old results.new × (took_end results.new ≡ true) }
    ensures clean { IsTrue result → taken results.new ≡ taken results.old }
{
    let mut is_clean = true;
    let backoff = Backoff::new();
    for _ in rt.forever() {
        match results.take() {
            Taken::Ended => return is_clean,
            Taken::Item(_) => is_clean = false,
            Taken::Nothing => backoff.snooze(),
        }
    }
    unreachable!()
}
