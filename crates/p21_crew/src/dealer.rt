//! The thread that deals pieces to the workers and gathers their results.
ghost use Rattle.std.specs.Prelude.{◌≡◌, ◌+◌, ◌<◌, ◌≤◌, ◌++◌, false, replicate, vec_len, OnOk};
ghost use Rattle.p21_lanes.specs.LaneIn.{accepted, was_ended, SameIn};
ghost use Rattle.p21_desk.specs.Dealt.{waiting_at};

use crate::cuts::{Cuts, Next};
use crate::flight::Flight;
use crate::gathers::Gathers;
use crate::rest::Rest;
use crate::returned::Returned;
use crate::sending::send_together;
use crate::work::Work;
use p21_desk::Desk;
use p21_lanes::{LaneIn, Taken};
use std::alloc::{AllocError, Global};
use std::mem;
use std::sync::Wait;

/// How many results are gathered at most before pieces are dealt again: few, so that workers seldom wait for pieces meanwhile.
const AT_ONCE: u32 = 64;

/// Deals the pieces of a text to the lanes, and gathers what the workers return, in the order of the pieces.
pub(crate) struct Dealer<P, O, W: Work<P, Out = O>, C, A> {
    pub(crate) flights: Vec<Flight<P, O, W>>,
    pub(crate) desk: Desk,
    pub(crate) cutter: C,
    /// Pieces that were cut and not yet dealt.
    pub(crate) batch: Vec<P>,
    /// How many pieces are dealt at once.
    pub(crate) together: usize,
    pub(crate) alloc: Global,
    /// Where the tail begins, once it was found.
    pub(crate) tail: Option<u64>,
    pub(crate) gatherer: A,
    ghost lanes: { vec_len flights ≡ desk.lanes },
}

impl<P: Drop, O: Drop, W: Work<P, Out = O>, C: Cuts<Piece = P>, A: Gathers<O>> Dealer<
    P,
    O,
    W,
    C,
    A,
> {
    ghost use Rattle.std.specs.Prelude.{◌≡◌, ◌<◌, [], OnOk, IfOk, IsTrue, IfSome};
    ghost use Rattle.p21_crew.specs.Underway.{Goes, HasRoom, IsWhole};

    /// Deals all pieces and gathers what is returned for them; the answer is where the tail begins. It rests where nothing can be dealt
    /// and no result is there. It deals to so many lanes at first, and to any before it would sleep: so a worker seldom takes the dealer's
    /// processor, and a gate at which pieces of several lanes must meet opens. An error is lack of memory, here or of a worker.
    pub(crate) fn run<R: Wait>(
        &mut self,
        rt: &R,
        rest: &mut Rest,
        at_first: u32,
    ) -> Result<u64, AllocError>
        ensures goes { OnOk result (Goes C.cuts A.holds self.old self.new) }
        ensures whole { IfOk result (λ tail. IsWhole self.new tail) }
    {
        for _ in rt.forever() {
            let gathered = self.gather()?;
            self.cut()?;
            if let Some(tail) = self.whole() {
                return Ok(tail);
            }
            let lanes = if rest.is_long() { u32::MAX } else { at_first };
            let dealt = self.deal(rt, lanes)?;
            rest.rest_unless(rt, gathered || dealt);
        }
        unreachable!()
    }

    /// Where the tail begins, if all pieces are dealt and all results gathered.
    fn whole(&self) -> Option<u64>
        ensures { IfSome result (IsWhole self.now) }
    {
        if self.batch.is_empty() && self.desk.next_lane().is_none() {
            self.tail
        } else {
            None
        }
    }

    /// Cuts pieces until there are as many as are dealt at once, or the tail is found.
    fn cut(&mut self) -> Result<(), AllocError>
        ensures { OnOk result (Goes C.cuts A.holds self.old self.new) }
    {
        if self.tail.is_some() {
            return Ok(());
        }
        while self.batch.len() < self.together {
            match self.cutter.next() {
                Next::Piece(piece) => self.batch.push(piece)?,
                Next::Tail(at) => {
                    self.tail = Some(at);
                    return Ok(());
                }
            }
        }
        Ok(())
    }

    /// Gathers results that are there, as many as `AT_ONCE` at most. The answer is whether there was one.
    fn gather(&mut self) -> Result<bool, AllocError>
        ensures { OnOk result (Goes C.cuts A.holds self.old self.new) }
    {
        let mut some = false;
        for _ in 0..AT_ONCE {
            if !self.gather_next()? {
                break;
            }
            some = true;
        }
        Ok(some)
    }

    /// Gathers the result of the first piece that is still out, where it is there. The answer is whether it is.
    fn gather_next(&mut self) -> Result<bool, AllocError>
        ensures { OnOk result (Goes C.cuts A.holds self.old self.new) }
    {
        let Some(lane) = self.desk.next_lane() else {
            return Ok(false);
        };
        match self.flights[lane as usize].results.take() {
            Taken::Item(Returned::Value(out)) => {
                self.gatherer.gather(out)?;
                self.desk.joined();
                Ok(true)
            }
            Taken::Nothing => Ok(false),
            Taken::Item(Returned::NoMemory) | Taken::Ended => Err(AllocError),
        }
    }

    /// Deals the batch to one of so many lanes that has little to read, where one has room for it. The answer is whether one has.
    fn deal<R: Wait>(&mut self, rt: &R, lanes: u32) -> Result<bool, AllocError>
        ensures { OnOk result (Goes C.cuts A.holds self.old self.new) }
    {
        let Some(lane) = self.free_lane(lanes) else {
            return Ok(false);
        };
        let next = Vec::with_capacity(self.alloc, self.together)?;
        deal_pieces(&mut self.desk, lane, self.batch.len())?;
        let batch = mem::replace(&mut self.batch, next);
        let flight = &mut self.flights[lane as usize];
        send_together(rt, &mut flight.pieces, batch);
        flight.waker.wake();
        Ok(true)
    }

    /// The first of so many lanes that has less than two lists to read, and room for the batch: so no more workers are kept awake than
    /// there is work for.
    fn free_lane(&mut self, lanes: u32) -> Option<u32>
        ensures goes { Goes C.cuts A.holds self.old self.new }
        ensures lane { IfSome result (HasRoom self.new) }
    {
        for lane in 0..self.desk.lanes().get().min(lanes) {
            if self.has_little(lane) && self.has_room(lane) {
                return Some(lane);
            }
        }
        None
    }

    /// Whether there are pieces to deal, and a lane has room for them.
    fn has_room(&self, lane: u32) -> bool
        requires { lane < self.now.desk.lanes }
        ensures { IsTrue result → HasRoom self.now lane }
    {
        let room = u64::from(self.desk.capacity().get()) - self.desk.waiting(lane);
        !self.batch.is_empty() && self.batch.len() as u64 <= room
    }

    /// Whether a lane has less than two lists to read. Its results are looked at only where that hangs on them, since the worker is
    /// writing there.
    fn has_little(&mut self, lane: u32) -> bool
        requires { lane < self.old.desk.lanes }
        ensures goes { Goes C.cuts A.holds self.old self.new }
        ensures desk { self.new.desk ≡ self.old.desk }
    {
        let enough = (self.together as u64).saturating_mul(2);
        let waiting = self.desk.waiting(lane);
        waiting < enough || waiting - self.ready(lane).min(waiting) < enough
    }

    /// How many results may stand in the ring of a lane: as many in each of its places as are sent together.
    fn ready(&mut self, lane: u32) -> u64
        requires { lane < self.old.desk.lanes }
        ensures goes { Goes C.cuts A.holds self.old self.new }
        ensures desk { self.new.desk ≡ self.old.desk }
    {
        let places = self.flights[lane as usize].results.ready() as u64;
        places.saturating_mul(self.together as u64)
    }
}

/// Deals so many pieces to one lane. An error is lack of memory.
fn deal_pieces(desk: &mut Desk, lane: u32, count: usize) -> Result<(), AllocError>
    requires lane { lane < desk.old.lanes }
    requires window { waiting_at desk.old lane + count ≤ desk.old.capacity }
    ensures lanes { desk.new.lanes ≡ desk.old.lanes }
    ensures dealt { OnOk result (desk.new ≡ record desk.old { dealt = desk.old.dealt ++ replicate count lane }) }
{
    for _ in 0..count {
        desk.deal(lane)?;
    }
    Ok(())
}
