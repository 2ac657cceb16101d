//! The sending end of a lane.
ghost use Rattle.std.specs.Prelude.{◌≡◌, ◌+◌, ◌≤◌, length};
ghost use Rattle.rtrb.specs.Ring.{sent as pushed, known_free, producer_capacity};
ghost use Rattle.p21_lanes.specs.History.{messages_in, items_of, has_end, EndIsLast};

use crate::history::{EndComesLast, Parcel};
use rtrb::{Producer, PushError};
use std::alloc::Global;
use std::error::Error;
use std::fmt;

/// The lane had no free place for the end.
#[derive(Debug, Clone, Copy, PartialEq, Eq)]
pub struct Full;

impl Error for Full {}

impl fmt::Display for Full {
    ghost use Rattle.std.specs.Prelude.{Some, codes};

    ghost output = { λ _. Some (codes "the lane has no free place") };

    fn fmt<W: fmt::Write>(&self, f: &mut fmt::Formatter<W>) -> fmt::Result {
        f.write_str("the lane has no free place")
    }
}

/// The end of a lane that offers items. It can move to another thread.
#[derive(Drop)]
pub struct LaneIn<T> {
    pub(crate) producer: Producer<Parcel<T>, Global, EndComesLast>,
    ended: bool,
    items: u64,
    ghost history: { EndIsLast (messages_in (pushed producer)) },
    ghost end_sent: { ended ≡ has_end (messages_in (pushed producer)) },
    ghost counted: { items ≡ length (items_of (messages_in (pushed producer))) },
    // Nothing that takes a place is empty.
    ghost filled: { length (pushed producer) ≤ length (messages_in (pushed producer)) },
    // The producer knows each place to be free that was not taken since the lane was made.
    ghost room: { producer_capacity producer ≤ known_free producer + length (pushed producer) },
    ghost small: { producer_capacity producer ≤ 4096 },
}

impl<T: Drop> LaneIn<T> {
    ghost use Rattle.std.specs.Prelude.{◌≡◌, ◌+◌, ◌-◌, ◌^◌, ◌<◌, ◌≤◌, ◌⊎◌, [], ◌∷◌, ◌++◌, length, true, false, IsOk, OnOk, OnErr, IfErr};
    ghost use Rattle.rtrb.specs.Ring.{sent as pushed, known_free, producer_capacity};
    ghost use Rattle.p21_lanes.specs.LaneIn.{sent, accepted, was_ended, message_count, lane_capacity, SameIn};
    ghost use Rattle.p21_lanes.specs.History.{Item, End, messages, EndIsLast};

    // The end over the producer of a new ring.
    pub(crate) fn over(producer: Producer<Parcel<T>, Global, EndComesLast>) -> LaneIn<T>
        requires empty { pushed producer ≡ [] }
        requires free { known_free producer ≡ producer_capacity producer }
        requires small { producer_capacity producer ≤ 4096 }
        ensures { result.producer ≡ producer }
    {
        LaneIn {
            producer,
            ended: false,
            items: 0,
        }
    }

    /// Sends an item, or hands it back: where the lane was ended, where this end sees no free place, or where 2^64 - 1
    /// items were accepted. A refused offer changes nothing. The first offers to a lane, as many as its capacity,
    /// always find their places.
    ///
    /// The clauses count messages, each item of a list as one, though a list takes one place: so after a list they let an
    /// offer be refused while places are free.
    #[tactic(auto, using(crate::proofs::ParcelLemmas::one_more_place))]
    pub fn offer(&mut self, item: T) -> Result<(), T>
        // The lane stays the same.
        ensures lane { SameIn self.old self.new }

        // An accepted item goes to the end of what was sent.
        ensures sent { OnOk result (sent self.new ≡ sent self.old ++ Item item ∷ []) }
        // So it does of the items that were accepted.
        ensures accepted { OnOk result (accepted self.new ≡ accepted self.old ++ item ∷ []) }
        // An item is accepted only where the lane was not ended.
        ensures open { OnOk result ((was_ended self.old ≡ false) × (was_ended self.new ≡ false)) }
        ensures counted { OnOk result (length (accepted self.old) < 2 ^ 64 - 1) }
        // The end stays the last message.
        ensures history { EndIsLast (sent self.new) }

        // A refusal hands the item back and changes nothing.
        ensures refused { IfErr result (λ back. (back ≡ item) × (sent self.new ≡ sent self.old)) }
        // An offer to a lane that was not ended is refused only where as many messages as the capacity were accepted
        // since the lane was made, each item of a list counting as a message although a list takes one place; or 2^64
        // - 1 items.
        ensures only { OnErr result
            ((was_ended self.old ≡ true)
            ⊎ ((lane_capacity self.old ≤ message_count self.old)
            ⊎ (length (accepted self.old) ≡ 2 ^ 64 - 1))) }
        // As long as fewer messages were accepted, a lane that was not ended refuses nothing.
        ensures first { was_ended self.old ≡ false → message_count self.old < lane_capacity self.old
            → IsOk result }
    {
        if self.ended || self.items == u64::MAX {
            return Err(item);
        }
        match self.producer.push(Parcel::One(item)) {
            Ok(()) => {
                self.items += 1;
                Ok(())
            }
            Err(PushError::Full(Parcel::One(back))) => Err(back),
            Err(PushError::Full(_)) => unreachable!(),
        }
    }

    /// Sends all items of a list in order, which take one place together, or hands the list back: where the lane was ended, where this
    /// end sees no free place, or where more than 2^64 - 1 items would have been accepted. A refused offer changes nothing. A list
    /// without items sends nothing, and finds its place in any lane that was not ended.
    #[tactic(auto, using(crate::proofs::ParcelLemmas::one_more_place))]
    pub fn offer_all(&mut self, items: Vec<T>) -> Result<(), Vec<T>>
        ensures lane { SameIn self.old self.new }

        // All items of an accepted list go to the end of what was sent, in order.
        ensures sent { OnOk result (sent self.new ≡ sent self.old ++ messages items.items false) }
        ensures accepted { OnOk result (accepted self.new ≡ accepted self.old ++ items.items) }
        ensures open { OnOk result ((was_ended self.old ≡ false) × (was_ended self.new ≡ false)) }
        ensures history { EndIsLast (sent self.new) }
        // A list with no item is never refused by a lane that was not ended.
        ensures empty { items.items ≡ [] → was_ended self.old ≡ false → IsOk result }

        // A refusal hands the list back and changes nothing.
        ensures refused { IfErr result (λ back. (back ≡ items) × (sent self.new ≡ sent self.old)) }
        // It is refused, to a lane that was not ended, only where as many messages as the capacity were accepted
        // since the lane was made, or where more than 2^64 - 1 items would have been.
        ensures only { OnErr result
            ((was_ended self.old ≡ true)
            ⊎ ((lane_capacity self.old ≤ message_count self.old)
            ⊎ (2 ^ 64 - 1 < length (accepted self.old) + length items.items))) }
    {
        let count = items.len() as u64;
        if self.ended || u64::MAX - self.items < count {
            return Err(items);
        }
        if count == 0 {
            return Ok(());
        }
        match self.producer.push(Parcel::Together(items)) {
            Ok(()) => {
                self.items += count;
                Ok(())
            }
            Err(PushError::Full(Parcel::Together(back))) => Err(back),
            Err(PushError::Full(_)) => unreachable!(),
        }
    }

    /// Sends the end, which takes one place. Where it was sent before, this is `Ok` and sends nothing. It is refused
    /// where this end sees no free place, and then changes nothing.
    #[tactic(auto, using(crate::proofs::ParcelLemmas::one_more_place))]
    pub fn end(&mut self) -> Result<(), Full>
        ensures lane { SameIn self.old self.new }
        // After a success the end was sent.
        ensures ended { OnOk result (was_ended self.new ≡ true) }
        // No item is sent.
        ensures accepted { accepted self.new ≡ accepted self.old }

        // The end follows what was sent, where it was not sent before.
        ensures first { OnOk result (was_ended self.old ≡ false → sent self.new ≡ sent self.old ++ End ∷ []) }
        // Where it was, nothing happens.
        ensures again { was_ended self.old ≡ true → (result ≡ Ok tt) × (sent self.new ≡ sent self.old) }
        ensures history { EndIsLast (sent self.new) }

        // A refusal changes nothing.
        ensures refused { OnErr result ((was_ended self.old ≡ false) × (sent self.new ≡ sent self.old)) }
        // A first end is refused only where as many messages as the capacity were accepted.
        ensures only { OnErr result (lane_capacity self.old ≤ message_count self.old) }
    {
        if self.ended {
            return Ok(());
        }
        if self.producer.push(Parcel::Last).is_err() {
            return Err(Full);
        }
        self.ended = true;
        Ok(())
    }

    /// Whether the end was sent.
    pub fn is_ended(&self) -> bool
        ensures { result ≡ was_ended self.now }
    {
        self.ended
    }

    // How many items were accepted.
    pub(crate) fn accepted_count(&self) -> u64
        ensures { result ≡ length (accepted self.now) }
    {
        self.items
    }
}
