//! How threads sleep and wake each other.

use crossbeam_utils::sync::{Parker, Unparker};
use std::alloc::{AllocError, Global};
use std::hint;
use std::sync::Wait;

/// How many pauses of the processor stand between two looks: a microsecond or less, since each look costs instructions and what it waits
/// for takes its maker longer.
const PAUSES: u32 = 16;

/// How often a thread that has nothing to do looks again before it sleeps.
#[derive(Clone, Copy)]
pub(crate) struct Patience {
    looks: u32,
}

impl Patience {
    /// That of a thread with a processor of its own: to be woken costs both sides more than many looks.
    pub(crate) const LONG: Patience = Patience { looks: 64 };

    /// That of a thread whose processor others of the crew may want.
    pub(crate) const SHORT: Patience = Patience { looks: 4 };
}

/// Where a thread waits that has nothing to do: it looks again for some microseconds, and then sleeps until it is woken. It never yields
/// its processor: where other programs want it, it would come back only after their whole turn, and whoever sleeps is woken sooner.
#[derive(Drop)]
pub(crate) struct Rest {
    patience: Patience,
    /// How often it looked in vain.
    looks: u32,
    parker: Parker,
}

/// Wakes the thread that rests somewhere. One that does not sleep yet will not fall asleep before it has looked again.
#[derive(Drop)]
pub(crate) struct Waker {
    unparker: Unparker,
}

impl Rest {
    /// A place to rest at. An error means that memory was refused.
    pub(crate) fn new(alloc: Global, patience: Patience) -> Result<Rest, AllocError> {
        Ok(Rest {
            patience,
            looks: 0,
            parker: Parker::new(alloc)?,
        })
    }

    /// How often whoever rests here looks again.
    pub(crate) fn patience(&self) -> Patience {
        self.patience
    }

    /// What wakes whoever rests here.
    pub(crate) fn waker(&self) -> Result<Waker, AllocError> {
        Ok(Waker {
            unparker: self.parker.unparker().clone()?,
        })
    }

    /// Whether it has looked so often in vain that it sleeps where nothing is done this time either.
    pub(crate) fn is_long(&self) -> bool {
        self.looks >= self.patience.looks
    }

    /// Something was done.
    pub(crate) fn interrupt(&mut self) {
        self.looks = 0;
    }

    /// Rests where nothing was done: the longer so, the longer.
    pub(crate) fn rest_unless<R: Wait>(&mut self, rt: &R, busy: bool) {
        if busy {
            self.interrupt();
        } else if self.looks < self.patience.looks {
            for _ in 0..PAUSES {
                hint::spin_loop();
            }
            self.looks += 1;
        } else {
            self.parker.park(rt);
        }
    }
}

impl Waker {
    /// Wakes the thread.
    pub(crate) fn wake(&self) {
        self.unparker.unpark();
    }

    /// Wakes the thread where there is something for it.
    pub(crate) fn wake_if(&self, something: bool) {
        if something {
            self.wake();
        }
    }
}
