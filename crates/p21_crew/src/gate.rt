//! What a worker passes before each piece: a place to stop or to watch it.

/// What a worker passes before it reads a piece. The workers share it by reference.
///
/// A gate may wait, but for no piece that can be dealt only when results of this worker are joined: it may have kept as many as it sends
/// together, a quarter of the capacity.
pub trait Gate {
    /// Called by the worker of a lane before it reads the piece of a number.
    ///
    /// No clause says that it is called.
    fn enter(&self, lane: u32, number: u64);

    /// Called when all workers have ended, by a reading that goes on with what they read: where no instance has a fault by itself, the
    /// references are looked at next. Where it is not written out, it does nothing.
    ///
    /// No clause says that it is called.
    fn close(&self) {}
}

/// The gate that lets each worker pass at once.
#[derive(Debug, Clone, Copy)]
pub struct OpenGate;

impl Gate for OpenGate {
    fn enter(&self, _lane: u32, _number: u64) {}
}
