//! What is known of a lane that has ended: all that was sent was received.
ghost use Rattle.std.specs.Prelude.{◌≡◌, true};
ghost use Rattle.p21_lanes.specs.History.{messages};
ghost use Rattle.p21_lanes.specs.LaneIn.{sent, accepted};
ghost use Rattle.p21_lanes.specs.LaneOut.{received};

use crate::lane_in::LaneIn;
use crate::lane_out::LaneOut;

/// The two ends of a settled lane: all items that were accepted were taken, in order, and then the end, and nothing after it.
/// `settle` is its only maker.
#[derive(Drop)]
pub struct Receipt<T> {
    pub(crate) lane_in: LaneIn<T>,
    pub(crate) lane_out: LaneOut<T>,
    /// The items that were accepted were sent, and then the end.
    pub ghost ended: { sent lane_in ≡ messages (accepted lane_in) true },
    /// What was sent was received, and nothing more.
    pub ghost all_received: { received lane_out ≡ sent lane_in },
}

impl<T: Drop> Receipt<T> {
    ghost use Rattle.std.specs.Prelude.{◌≡◌, length};
    ghost use Rattle.p21_lanes.specs.Receipt.{passed};

    /// How many items went through the lane.
    pub fn count(&self) -> u64
        ensures { result ≡ length (passed self.now) }
    {
        self.lane_in.accepted_count()
    }
}
