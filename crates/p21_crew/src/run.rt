//! The run of a crew.
ghost use Rattle.std.specs.Prelude.{◌≡◌, ℕ, List, [], ◌∷◌, ◌++◌, vec_len, IfOk, OnOk, IsOk};
ghost use Rattle.p21_crew.specs.Each.{EachAt};
ghost use Rattle.p21_crew.specs.Run.{IsRun};
ghost use Rattle.p21_crew.specs.Fresh.{IsFresh};

use crate::cuts::Cuts;
use crate::dealer::Dealer;
use crate::flight::{Flight, launch};
use crate::gate::Gate;
use crate::gathers::Gathers;
use crate::landing::land_all;
use crate::rest::{Patience, Rest};
use crate::returned::Returned;
use crate::work::Work;
use p21_desk::{Desk, LaneCount};
use p21_lanes::{Capacity, Receipt};
use std::alloc::{AllocError, Global};
use std::sync::Wait;
use std::thread;
use std::thread::{Scope, Threads};

/// What the run of a crew leaves.
#[derive(Drop)]
pub struct Run<P, O, A> {
    /// What each lane received, by its number.
    pub receipts: Vec<Receipt<P>>,
    /// What each lane returned, by its number.
    pub returned: Vec<Receipt<Returned<O>>>,
    /// The lane of each piece.
    pub dealt: Vec<u32>,
    /// Where the tail begins.
    pub tail: u64,
    /// What gathered the results.
    pub gatherer: A,
}

/// Reads the pieces of a text by as many workers as there are lanes, each in a thread of its own, and gathers what they return
/// in the order of the pieces.
///
/// On no lane are more pieces out at a time than the capacity. An error means that memory or a thread was refused, here or to
/// a worker; all workers have ended all the same.
///
/// No clause speaks of moments inside a run: that the workers read at one time, and that no more pieces are out on a
/// lane than the capacity, is tested.
pub fn run_crew<
    P: Drop + Send,
    O: Drop + Send,
    K: Drop + Send,
    W: Work<P, Out = O, Kept = K> + Sync,
    G: Gate + Sync,
    C: Cuts<Piece = P> + Drop,
    A: Gathers<O> + Drop,
    R: Threads + Wait + Sync,
>(
    rt: &R,
    alloc: Global,
    work: &W,
    gate: &G,
    cutter: C,
    gatherer: A,
    lanes: LaneCount,
    capacity: Capacity,
) -> Result<Run<P, O, A>, AllocError>
    requires { A.holds gatherer [] }
    // Over any source of pieces, work, gate and gatherer: the pieces are those that the source gives before its tail.
    // Each was dealt to exactly one lane (`dealing`). Each lane received exactly its share of the pieces, once, in
    // order (`shares`), then its end and nothing after it (`ended`), and so returned its share of the results
    // (`results`, `returned_ended`). The results are stated of the pieces, one by one (`values`), and were gathered
    // in the order of the pieces.
    ensures { IfOk result (λ run. (pieces : List P) × (outs : List O) × C.cuts cutter pieces run.tail
        × IsRun (W.stated work.now) lanes pieces outs run.dealt.items run.receipts.items run.returned.items
        × A.holds run.gatherer outs) }
{
    thread::scope(
        thread::scope_env(),
        rt,
        |scope| -> Result<Run<P, O, A>, AllocError>
            requires { A.holds gatherer [] }
            ensures { IfOk result (λ run. (pieces : List P) × (outs : List O) × C.cuts cutter pieces run.tail
                × IsRun (W.stated work.entry.now) lanes pieces outs run.dealt.items run.receipts.items run.returned.items
                × A.holds run.gatherer outs) }
        {
            run_in(
                scope, rt, alloc, work, gate, cutter, gatherer, lanes, capacity,
            )
        },
    )
}

/// The run of a crew whose workers are started in a scope.
fn run_in<
    's,
    E,
    P: Drop + Send + 's,
    O: Drop + Send + 's,
    K: Drop + Send + 's,
    W: Work<P, Out = O, Kept = K> + Sync + 's,
    G: Gate + Sync + 's,
    C: Cuts<Piece = P> + Drop,
    A: Gathers<O> + Drop,
    R: Threads + Wait + Sync + 's,
>(
    scope: &Scope<'s, E>,
    rt: &'s R,
    alloc: Global,
    work: &'s W,
    gate: &'s G,
    cutter: C,
    gatherer: A,
    lanes: LaneCount,
    capacity: Capacity,
) -> Result<Run<P, O, A>, AllocError>
    requires { A.holds gatherer [] }
    ensures { IfOk result (λ run. (pieces : List P) × (outs : List O) × C.cuts cutter pieces run.tail
        × IsRun (W.stated work.now) lanes pieces outs run.dealt.items run.receipts.items run.returned.items
        × A.holds run.gatherer outs) }
{
    let together = most_together(capacity);
    let batch = Vec::with_capacity(alloc, together)?;
    let desk = Desk::new(alloc, lanes, capacity)?;
    let at_first = lanes_at_first(rt);
    let mut rest = Rest::new(alloc, patience(rt, lanes.get().min(at_first)))?;
    let flights = launch_all(
        scope, rt, alloc, work, gate, lanes, capacity, together, &rest,
    )?;
    let mut dealer = Dealer {
        flights,
        desk,
        cutter,
        batch,
        together,
        alloc,
        tail: None,
        gatherer,
    };
    let dealt = dealer.run(rt, &mut rest, at_first);
    let Dealer {
        flights,
        desk,
        cutter: _,
        batch: _,
        together: _,
        alloc: _,
        tail: _,
        gatherer,
    } = dealer;
    let landed = land_all(rt, alloc, flights);
    let tail = dealt?;
    let landed = landed?;
    Ok(Run {
        receipts: landed.receipts,
        returned: landed.returned,
        dealt: desk.into_dealt(),
        tail,
        gatherer,
    })
}

/// How many lanes are dealt to at first: as many as there are processors but the dealer's own, and two at least, since these do not take
/// the whole of its time.
fn lanes_at_first<R: Threads>(rt: &R) -> u32 {
    match thread::available_parallelism(rt) {
        Ok(processors) => (processors.get().min(64) as u32).saturating_sub(1).max(2),
        Err(_) => u32::MAX,
    }
}

/// How long threads look again before they sleep, where the workers of so many lanes and the dealer are awake.
fn patience<R: Threads>(rt: &R, awake: u32) -> Patience {
    match thread::available_parallelism(rt) {
        Ok(processors) if processors.get() > awake as usize => Patience::LONG,
        _ => Patience::SHORT,
    }
}

/// How many pieces are dealt at once, and how many results are sent together.
fn most_together(capacity: Capacity) -> usize {
    (capacity.get() as usize / 4).max(1)
}

/// Starts the workers of all lanes. Where one is refused, those that were started are landed.
fn launch_all<
    's,
    E,
    P: Drop + Send + 's,
    O: Drop + Send + 's,
    K: Drop + Send + 's,
    W: Work<P, Out = O, Kept = K> + Sync + 's,
    G: Gate + Sync + 's,
    R: Threads + Wait + Sync + 's,
>(
    scope: &Scope<'s, E>,
    rt: &'s R,
    alloc: Global,
    work: &'s W,
    gate: &'s G,
    lanes: LaneCount,
    capacity: Capacity,
    together: usize,
    dealer: &Rest,
) -> Result<Vec<Flight<P, O, W>>, AllocError>
    ensures count { IfOk result (λ flights. vec_len flights ≡ lanes) }
    ensures fresh { IfOk result (λ flights. EachAt (λ lane flight. IsFresh work.now flight) 0 flights.items) }
{
    let mut flights = Vec::new(alloc);
    for number in 0..lanes.get() {
        let started = launch(
            scope, rt, alloc, work, gate, number, capacity, together, dealer,
        );
        if let Err(refused) = join_crew(rt, &mut flights, started) {
            let _ = land_all(rt, alloc, flights);
            return Err(refused);
        }
    }
    Ok(flights)
}

/// Puts a lane after the others. Where it was not started, or memory is refused, it is landed.
fn join_crew<P: Drop, O: Drop, W: Work<P, Out = O>, R: Threads + Wait>(
    rt: &R,
    flights: &mut Vec<Flight<P, O, W>>,
    started: Result<Flight<P, O, W>, AllocError>,
) -> Result<(), AllocError>
    ensures joined { OnOk result (IfOk started (λ flight. flights.new.items ≡ flights.old.items ++ flight ∷ [])) }
    ensures started { OnOk result (IsOk started) }
{
    match flights.push(started?) {
        Ok(()) => Ok(()),
        Err(refused) => {
            let _ = refused.value.land(rt);
            Err(AllocError)
        }
    }
}
