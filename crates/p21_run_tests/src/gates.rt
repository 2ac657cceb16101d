//! Gates of the tests.

ghost use Rattle.std.specs.Prelude.{◌<◌};

use p21_crew::Gate;
use p21_crew_tests::Meeting;
use std::sync::atomic::{AtomicU64, Ordering};
use std::thread;
use std::time::{Clock, Duration};

/// A gate at which lanes must meet: it is passed in time only where each lane is given a list, in a thread of its own.
#[derive(Drop)]
pub(crate) struct LanesMeeting<'r, R> {
    meeting: Meeting<'r, R>,
}

impl<'r, R: Clock> LanesMeeting<'r, R> {
    /// A gate for so many lanes, at most 63.
    pub(crate) fn of(rt: &'r R, lanes: u32) -> LanesMeeting<'r, R>
        requires { lanes < 64 }
    {
        LanesMeeting {
            meeting: Meeting::of(rt, lanes),
        }
    }

    /// Whether each lane entered, and none waited in vain.
    pub(crate) fn is_met(&self) -> bool {
        self.meeting.is_met()
    }
}

impl<R: Clock> Gate for LanesMeeting<'_, R> {
    fn enter(&self, lane: u32, _number: u64) {
        self.meeting.enter(lane, u64::from(lane));
    }
}

/// A gate that shows how long a worker takes for its first piece: it holds the worker until the next one is dealt, and sees when it comes for
/// that. A worker that only hands pieces on comes at once.
#[derive(Drop)]
pub(crate) struct Stopwatch<'r, R> {
    rt: &'r R,
    /// When the worker went with the first piece, in microseconds.
    went: AtomicU64,
    /// When it came for the second.
    came: AtomicU64,
}

impl<'r, R: Clock> Stopwatch<'r, R> {
    pub(crate) fn new(rt: &'r R) -> Stopwatch<'r, R> {
        Stopwatch {
            rt,
            went: AtomicU64::new(0),
            came: AtomicU64::new(0),
        }
    }

    /// How many microseconds the worker took for its first piece.
    pub(crate) fn taken_micros(&self) -> u64 {
        let came = self.came.load(Ordering::SeqCst);
        came.saturating_sub(self.went.load(Ordering::SeqCst))
    }

    /// Microseconds of the clock, or 0 where it fails.
    fn now(&self) -> u64 {
        match self.rt.monotonic() {
            Ok(now) => u64::try_from(now.as_micros()).unwrap_or(0),
            Err(_) => 0,
        }
    }
}

impl<R: Clock> Gate for Stopwatch<'_, R> {
    fn enter(&self, _lane: u32, number: u64) {
        if number == 0 {
            thread::sleep(self.rt, Duration::from_millis(200));
            self.went.store(self.now(), Ordering::SeqCst);
        } else if number == 1 {
            self.came.store(self.now(), Ordering::SeqCst);
        }
    }
}
