//! A bounded lane from one thread to one other, which can be settled.
//!
//! One end of a lane offers items and then the end, and the other takes them, each in a thread of its own. No call
//! waits. Once both ends are back in one thread, `settle` gives a `Receipt`: all items that were accepted were taken, in
//! order, and nothing came after the end.
#![tactic(auto)]

ghost use Rattle.std.specs.Prelude.{◌≡◌, [], IfOk};
ghost use Rattle.p21_lanes.specs.LaneIn.{sent, lane_capacity};
ghost use Rattle.p21_lanes.specs.LaneOut.{received};
ghost use Rattle.p21_lanes.specs.Lane.{IsLane};

mod capacity;
mod history;
mod lane_in;
mod lane_out;
mod receipt;
mod settling;

pub use capacity::Capacity;
use history::EndComesLast;
pub use history::nothing_follows_the_end;
pub use lane_in::{Full, LaneIn};
pub use lane_out::{LaneOut, Taken};
pub use receipt::Receipt;
use rtrb::RingBuffer;
pub use settling::{Pair, settle};
use std::alloc::{AllocError, Global};

/// A lane of `capacity` places, empty and open. Its two ends may go to two threads.
///
/// All the memory that the lane needs is taken here: an error means that this was refused.
pub fn lane<T: Drop>(
    alloc: Global,
    capacity: Capacity,
) -> Result<(LaneIn<T>, LaneOut<T>), AllocError>
    // The two ends are of one lane.
    ensures lane { IfOk result (λ ends. IsLane ends.0 ends.1) }
    // Nothing was sent or received.
    ensures empty { IfOk result (λ ends. (sent ends.0 ≡ []) × (received ends.1 ≡ [])) }
    // Its capacity is this.
    ensures room { IfOk result (λ ends. lane_capacity ends.0 ≡ capacity) }
{
    let (producer, consumer) = RingBuffer::with_protocol::<Global, EndComesLast>(
        alloc,
        capacity.get() as usize,
    )?;
    Ok((LaneIn::over(producer), LaneOut::over(alloc, consumer)))
}
