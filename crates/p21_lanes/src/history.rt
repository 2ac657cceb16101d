//! What is sent through a lane: items, and then its end.
ghost use Rattle.std.specs.Prelude.{◌≡◌, List, [], ◌∷◌, ◌++◌, false};
ghost use Rattle.p21_lanes.specs.History.{Message, messages_in, has_end, EndIsLast};

use rtrb::Protocol;

/// What takes one place of a lane's ring: an item, items that were offered together, or the end, which comes last.
#[derive(Drop)]
pub(crate) enum Parcel<T> {
    One(T),
    Together(Vec<T>),
    Last,
}

/// What a lane's ring is promised: nothing follows the end.
#[derive(Clone, Copy)]
pub(crate) struct EndComesLast;

impl<T> Protocol<Parcel<T>> for EndComesLast {
    ghost allows = { λ before _. has_end (messages_in before) ≡ false };
}

/// A law of a lane's history: no message follows the end, so that there is one end at most.
#[tactic(auto, using(crate::proofs::HistoryLemmas::no_end_before))]
pub fn nothing_follows_the_end<T>()
    ensures { (before : List (Message T)) (last : Message T)
        → EndIsLast (before ++ last ∷ []) → has_end before ≡ false }
{}
