//! What a worker sends back for a piece.

/// What a worker sends back for a piece.
#[derive(Debug, Drop)]
pub enum Returned<O> {
    /// What it read.
    Value(O),
    /// The mark of a worker that was refused memory, for this piece or an earlier one.
    NoMemory,
}
