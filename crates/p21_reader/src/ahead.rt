//! Touching memory before it is used, so that threads do not wait for the system.
//!
//! The C library makes memory ready for a thread a page at a time, each by a call of the system, after which every thread waits that
//! touches a new page. What it made ready for a larger block stays ready when the block is given back.

use std::alloc::{AllocError, Global};

/// The size of the blocks, in bytes: below that from which on each block is the system's own.
const BLOCK: usize = 120_000;

/// How many bytes of a file are read between two blocks. Their instances take three to four times as much.
const TEXT: usize = 32_768;

/// How much of a file may be read with what was taken. No answer hangs on it.
#[derive(Clone, Copy)]
pub(crate) struct Ahead {
    left: usize,
}

impl Ahead {
    /// Nothing was read. This takes no memory: a thread begins with some.
    pub(crate) fn new() -> Ahead {
        Ahead { left: TEXT }
    }

    /// Takes a block and gives it back, where so many bytes of the file are more than is left. It is no matter if there is none.
    pub(crate) fn read(&mut self, alloc: Global, bytes: usize) {
        if self.left < bytes {
            let _block = block(alloc);
            self.left = TEXT;
        }
        self.left = self.left.saturating_sub(bytes);
    }
}

/// A block. It stands by itself so that it is taken, although nobody writes in it.
#[inline(never)]
fn block(alloc: Global) -> Result<Vec<u8>, AllocError> {
    Vec::with_capacity(alloc, BLOCK)
}
