//! The receiving end of a lane.
ghost use Rattle.std.specs.Prelude.{◌≡◌};
ghost use Rattle.rtrb.specs.Ring.{received as popped};
ghost use Rattle.std.specs.Vec.Iter.{into_iter_items};
ghost use Rattle.p21_lanes.specs.History.{messages_in, has_end, EndIsLast, EndsWith};

use crate::history::{EndComesLast, Parcel};
use crate::lane_in::LaneIn;
use rtrb::{Consumer, PopError};
use std::alloc::Global;
use std::vec::IntoIter;

/// What `LaneOut::take` found.
#[derive(Debug, Drop, PartialEq, Eq)]
pub enum Taken<T> {
    /// The oldest item that was not taken yet.
    Item(T),
    /// The end: nothing comes after it.
    Ended,
    /// No message yet. The other end may send more.
    Nothing,
}

/// The end of a lane that takes items. It can move to another thread.
#[derive(Drop)]
pub struct LaneOut<T> {
    consumer: Consumer<Parcel<T>, Global, EndComesLast>,
    // Items that left the ring together and were not taken yet.
    together: IntoIter<T>,
    ended: bool,
    ghost history: { EndIsLast (messages_in (popped consumer)) },
    ghost end_taken: { ended ≡ has_end (messages_in (popped consumer)) },
    ghost kept: { EndsWith (messages_in (popped consumer)) (into_iter_items together) },
}

impl<T: Drop> LaneOut<T> {
    ghost use Rattle.std.specs.Prelude.{◌≡◌, List, [], ◌++◌, true};
    ghost use Rattle.rtrb.specs.Ring.{received as popped};
    ghost use Rattle.p21_lanes.specs.History.{Message, EndIsLast};
    ghost use Rattle.p21_lanes.specs.declared.lane_out.Taken.TheVariants.{Ended};
    ghost use Rattle.p21_lanes.specs.LaneIn.{sent, IsUnchangedIn};
    ghost use Rattle.p21_lanes.specs.LaneOut.{received, took_end, SameOut, IsUnchangedOut, Took};
    ghost use Rattle.p21_lanes.specs.Lane.{IsLane};

    // The end over the consumer of a new ring. This takes no memory.
    pub(crate) fn over(
        alloc: Global,
        consumer: Consumer<Parcel<T>, Global, EndComesLast>,
    ) -> LaneOut<T>
        requires { popped consumer ≡ [] }
        ensures consumer { result.consumer ≡ consumer }
        ensures received { received result ≡ [] }
    {
        LaneOut {
            consumer,
            together: Vec::new(alloc).into_iter(),
            ended: false,
        }
    }

    /// Takes the oldest message, if this end sees one. Once the end was taken, the answer stays `Ended`.
    #[inline(always)]
    pub fn take(&mut self) -> Taken<T>
        // The lane stays the same.
        ensures lane { SameOut self.old self.new }
        // A message goes to the end of what was received, or the result is Nothing and nothing changes. `settle` says
        // that these are the first messages that were sent.
        ensures took { Took result self.old self.new }
        // After the end it is the end again.
        ensures again { took_end self.old ≡ true
            → (result ≡ Ended) × (received self.new ≡ received self.old) }
    {
        if let Some(item) = self.together.next() {
            return Taken::Item(item);
        }
        if self.ended {
            return Taken::Ended;
        }
        match self.consumer.pop() {
            Ok(Parcel::One(item)) => Taken::Item(item),
            Ok(Parcel::Together(items)) => {
                self.together = items.into_iter();
                match self.together.next() {
                    Some(item) => Taken::Item(item),
                    None => Taken::Nothing,
                }
            }
            Ok(Parcel::Last) => {
                self.ended = true;
                Taken::Ended
            }
            Err(PopError::Empty) => Taken::Nothing,
        }
    }

    /// How many places this end sees taken: each by an item, by items that were offered together, or by the end. The other end may have
    /// sent more.
    pub fn ready(&mut self) -> usize
        // To look changes nothing.
        ensures { IsUnchangedOut self.old self.new }
    {
        self.consumer.slots()
    }

    // Looks at what the other end sent. Only a thread that holds both ends can know that it sees all of it.
    pub(crate) fn look_beside(&mut self, lane_in: &mut LaneIn<T>)
        requires { IsLane lane_in.old self.old }
        ensures lane_in { IsUnchangedIn lane_in.old lane_in.new }
        ensures lane_out { IsUnchangedOut self.old self.new }
        ensures form { EndIsLast (received self.new) }
        ensures in_order { (rest : List (Message T)) × (sent lane_in.new ≡ received self.new ++ rest) }
    {
        self.consumer.slots_beside(&mut lane_in.producer);
    }

    // Whether the end was taken.
    pub(crate) fn took_end(&self) -> bool
        ensures { result ≡ took_end self.now }
    {
        self.ended
    }
}
