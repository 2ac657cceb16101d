//! Ending a lane: proof that all that was sent was received.
ghost use Rattle.std.specs.Prelude.{◌≡◌, ◌⊎◌, true, false, OnOk, OnErr, IfOk, IfErr};
ghost use Rattle.p21_lanes.specs.History.{IsHistory};
ghost use Rattle.p21_lanes.specs.Lane.{IsLane};
ghost use Rattle.p21_lanes.specs.LaneIn.{sent, accepted, was_ended, IsUnchangedIn};
ghost use Rattle.p21_lanes.specs.LaneOut.{received, taken, took_end, IsUnchangedOut};
ghost use Rattle.p21_lanes.specs.Receipt.{passed};

use crate::lane_in::LaneIn;
use crate::lane_out::LaneOut;
use crate::receipt::Receipt;

/// The two ends of a lane.
#[derive(Drop)]
pub struct Pair<T> {
    pub lane_in: LaneIn<T>,
    pub lane_out: LaneOut<T>,
}

/// Settles a lane whose two ends are back in one thread. It succeeds exactly where the lane was ended and the end was
/// taken: then all items that were accepted were taken, in order. Otherwise it hands both ends back unchanged.
#[tactic(auto, using(crate::proofs::HistoryLemmas::all_received))]
pub fn settle<T: Drop>(lane_in: LaneIn<T>, lane_out: LaneOut<T>) -> Result<Receipt<T>, Pair<T>>
    requires { IsLane lane_in lane_out }

    // What was received is a prefix of what was sent.
    ensures history { IsHistory (sent lane_in) (received lane_out) }

    // It succeeds only where the lane was ended and its end taken.
    ensures ended { OnOk result ((was_ended lane_in ≡ true) × (took_end lane_out ≡ true)) }
    // What was taken is what was accepted, in order. That the end was sent and received after it, and nothing more,
    // are facts of the type `Receipt` (`ended`, `all_received`).
    ensures settled { IfOk result
        (λ receipt. (passed receipt ≡ accepted lane_in) × (passed receipt ≡ taken lane_out)) }

    // It fails only where not.
    ensures refused { OnErr result ((was_ended lane_in ≡ false) ⊎ (took_end lane_out ≡ false)) }
    // Otherwise both ends are handed back.
    ensures unchanged { IfErr result
        (λ ends. IsUnchangedIn lane_in ends.lane_in
        × IsUnchangedOut lane_out ends.lane_out
        × IsLane ends.lane_in ends.lane_out) }
{
    let mut lane_in = lane_in;
    let mut lane_out = lane_out;
    lane_out.look_beside(&mut lane_in);
    if lane_in.is_ended() && lane_out.took_end() {
        Ok(Receipt { lane_in, lane_out })
    } else {
        Err(Pair { lane_in, lane_out })
    }
}
