//! A gate that shows how far the dealing goes.

use p21_crew::Gate;
use std::sync::atomic::{AtomicBool, AtomicU64, Ordering};
use std::thread;
use std::time::{Clock, Duration};

/// A gate at which the first piece waits for 200 milliseconds, and looks whether one after the window has entered meanwhile.
#[derive(Drop)]
pub struct Window<'r, R> {
    rt: &'r R,
    /// The greatest number that may enter before the first piece is read.
    last: u64,
    greatest: AtomicU64,
    is_passed: AtomicBool,
}

impl<'r, R: Clock> Window<'r, R> {
    /// A gate where no number above `last` may enter before the first piece is read.
    pub fn up_to(rt: &'r R, last: u64) -> Window<'r, R> {
        Window {
            rt,
            last,
            greatest: AtomicU64::new(0),
            is_passed: AtomicBool::new(false),
        }
    }

    /// Whether no piece after the window entered too early, while others entered at last.
    pub fn is_kept(&self) -> bool {
        !self.is_passed.load(Ordering::SeqCst) && self.greatest.load(Ordering::SeqCst) > self.last
    }
}

impl<R: Clock> Gate for Window<'_, R> {
    fn enter(&self, _lane: u32, number: u64) {
        self.greatest.fetch_max(number, Ordering::SeqCst);
        if number == 0 {
            thread::sleep(self.rt, Duration::from_millis(200));
            if self.greatest.load(Ordering::SeqCst) > self.last {
                self.is_passed.store(true, Ordering::SeqCst);
            }
        }
    }
}
