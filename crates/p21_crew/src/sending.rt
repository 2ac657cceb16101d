//! Sending into a lane, as soon as there is a place.
ghost use Rattle.std.specs.Prelude.{◌≡◌, [], ◌∷◌, ◌++◌, true, false};
ghost use Rattle.p21_lanes.specs.LaneIn.{accepted, was_ended, SameIn};

use crossbeam_utils::Backoff;
use p21_lanes::LaneIn;
use std::sync::Wait;

/// Sends an item, as soon as there is a place for it.
pub(crate) fn send<T: Drop, R: Wait>(rt: &R, lane: &mut LaneIn<T>, item: T)
    requires { was_ended lane.old ≡ false }
    ensures lane { SameIn lane.old lane.new × (was_ended lane.new ≡ false) }
    ensures accepted { accepted lane.new ≡ accepted lane.old ++ item ∷ [] }
{
    let mut item = item;
    let backoff = Backoff::new();
    for _ in rt.forever() {
        match lane.offer(item) {
            Ok(()) => return,
            Err(back) => item = back,
        }
        backoff.snooze();
    }
    unreachable!()
}

/// Sends items together, as soon as there is a place for them.
pub(crate) fn send_together<T: Drop, R: Wait>(rt: &R, lane: &mut LaneIn<T>, items: Vec<T>)
    requires { was_ended lane.old ≡ false }
    ensures lane { SameIn lane.old lane.new × (was_ended lane.new ≡ false) }
    ensures accepted { accepted lane.new ≡ accepted lane.old ++ items.items }
{
    let mut items = items;
    let backoff = Backoff::new();
    for _ in rt.forever() {
        match lane.offer_all(items) {
            Ok(()) => return,
            Err(back) => items = back,
        }
        backoff.snooze();
    }
    unreachable!()
}

/// Sends the end, as soon as there is a place for it.
pub(crate) fn send_end<T: Drop, R: Wait>(rt: &R, lane: &mut LaneIn<T>)
    ensures lane { SameIn lane.old lane.new × (was_ended lane.new ≡ true) }
    ensures accepted { accepted lane.new ≡ accepted lane.old }
{
    let backoff = Backoff::new();
    for _ in rt.forever() {
        if lane.end().is_ok() {
            return;
        }
        backoff.snooze();
    }
    unreachable!()
}
