//! A gate at which pieces must meet.

ghost use Rattle.std.specs.Prelude.{◌<◌};

use p21_crew::Gate;
use std::sync::atomic::{AtomicBool, AtomicU64, Ordering};
use std::thread;
use std::time::{Clock, Duration};

/// How often a worker looks for the others, a millisecond apart.
const TURNS: u32 = 10_000;

/// A gate at which each piece waits until all pieces have entered: it is passed in time only where each piece of the file is
/// read by a thread of its own.
#[derive(Drop)]
pub struct Meeting<'r, R> {
    rt: &'r R,
    /// A bit for each piece, by its number.
    all: u64,
    entered: AtomicU64,
    missed: AtomicBool,
}

impl<'r, R: Clock> Meeting<'r, R> {
    /// A gate for so many pieces, at most 63.
    pub fn of(rt: &'r R, pieces: u32) -> Meeting<'r, R>
        requires { pieces < 64 }
    {
        Meeting {
            rt,
            all: (1 << pieces) - 1,
            entered: AtomicU64::new(0),
            missed: AtomicBool::new(false),
        }
    }

    /// Whether each piece entered, and none waited in vain.
    pub fn is_met(&self) -> bool {
        self.entered.load(Ordering::SeqCst) == self.all && !self.missed.load(Ordering::SeqCst)
    }

    fn wait(&self) {
        for _ in 0..TURNS {
            if self.entered.load(Ordering::SeqCst) == self.all {
                return;
            }
            thread::sleep(self.rt, Duration::from_millis(1));
        }
        self.missed.store(true, Ordering::SeqCst);
    }
}

impl<R: Clock> Gate for Meeting<'_, R> {
    fn enter(&self, _lane: u32, number: u64) {
        if number < 64 {
            self.entered.fetch_or(1 << number, Ordering::SeqCst);
        }
        self.wait();
    }
}
