//! The results of a worker on their way to the dealer.
ghost use Rattle.std.specs.Prelude.{◌≡◌, ◌≤◌, false, vec_len};
ghost use Rattle.p21_lanes.specs.LaneIn.{was_ended};

use crate::returned::Returned;
use crate::sending::{send, send_end, send_together};
use p21_lanes::LaneIn;
use std::alloc::Global;
use std::mem;
use std::sync::Wait;

/// The results of a worker on their way to the dealer. Some are sent together, since each place of a lane costs both of its ends the same,
/// whatever it holds.
#[derive(Drop)]
pub(crate) struct Outbox<O> {
    pub(crate) lane: LaneIn<Returned<O>>,
    /// Results that were not sent yet.
    pub(crate) unsent: Vec<Returned<O>>,
    /// How many results are sent together.
    together: usize,
    alloc: Global,
    ghost is_open: { was_ended lane ≡ false },
    ghost few: { vec_len unsent ≤ together },
}

impl<O: Drop> Outbox<O> {
    ghost use Rattle.std.specs.Prelude.{◌≡◌, [], ◌∷◌, ◌++◌, true, false, OnOk, IfErr};
    ghost use Rattle.p21_lanes.specs.LaneIn.{accepted, was_ended, SameIn};
    ghost use Rattle.p21_crew.specs.Outbox.{results_of};

    /// The results that go to a lane, so many together. This takes no memory.
    pub(crate) fn new(alloc: Global, lane: LaneIn<Returned<O>>, together: usize) -> Outbox<O>
        requires { was_ended lane ≡ false }
        ensures lane { result.lane ≡ lane }
        ensures results { results_of result ≡ accepted lane }
    {
        Outbox {
            lane,
            unsent: Vec::new(alloc),
            together,
            alloc,
        }
    }

    /// Puts a result after the others. The answer is whether some were sent.
    pub(crate) fn put<R: Wait>(&mut self, rt: &R, answer: Returned<O>) -> bool
        ensures lane { SameIn self.old.lane self.new.lane }
        ensures results { results_of self.new ≡ results_of self.old ++ answer ∷ [] }
        ensures told { result ≡ false → accepted self.new.lane ≡ accepted self.old.lane }
    {
        match self.keep(answer) {
            Ok(()) if self.unsent.len() < self.together => false,
            Ok(()) => self.send_all(rt),
            Err(back) => {
                self.send_all(rt);
                send(rt, &mut self.lane, back);
                true
            }
        }
    }

    /// Keeps a result to be sent together with others, or hands it back: where each is sent alone, where there are as many already, or
    /// where memory is refused.
    fn keep(&mut self, answer: Returned<O>) -> Result<(), Returned<O>>
        ensures lane { self.new.lane ≡ self.old.lane }
        ensures kept { OnOk result (self.new.unsent.items ≡ self.old.unsent.items ++ answer ∷ []) }
        ensures refused { IfErr result (λ back. (back ≡ answer) × (self.new.unsent.items ≡ self.old.unsent.items)) }
    {
        if self.together < 2 || self.unsent.len() >= self.together {
            return Err(answer);
        }
        if self.unsent.is_empty() && self.unsent.reserve(self.together).is_err() {
            return Err(answer);
        }
        match self.unsent.push(answer) {
            Ok(()) => Ok(()),
            Err(refused) => Err(refused.value),
        }
    }

    /// Sends what was not sent yet. The answer is whether there was something.
    pub(crate) fn send_all<R: Wait>(&mut self, rt: &R) -> bool
        ensures lane { SameIn self.old.lane self.new.lane }
        ensures results { results_of self.new ≡ results_of self.old }
        ensures told { result ≡ false → accepted self.new.lane ≡ accepted self.old.lane }
        ensures sent { self.new.unsent.items ≡ [] }
    {
        if self.unsent.is_empty() {
            return false;
        }
        let answers = mem::replace(&mut self.unsent, Vec::new(self.alloc));
        send_together(rt, &mut self.lane, answers);
        true
    }

    /// Sends what was not sent yet, and then the end.
    pub(crate) fn end<R: Wait>(mut self, rt: &R) -> LaneIn<Returned<O>>
        ensures lane { SameIn self.lane result × (was_ended result ≡ true) }
        ensures accepted { accepted result ≡ results_of self }
    {
        self.send_all(rt);
        let Outbox { mut lane, .. } = self;
        send_end(rt, &mut lane);
        lane
    }
}
