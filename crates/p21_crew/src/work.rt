//! What a worker does with a piece.
ghost use Rattle.std.specs.Prelude.{IfOk};

use std::alloc::{AllocError, Global};

/// What a worker does with the pieces of its lane. The workers share it by reference.
///
/// Its ghost `stated` says what it may answer for a piece.
pub trait Work<P> {
    /// What is read of a piece.
    type Out: Drop;
    /// What one worker keeps from piece to piece.
    type Kept: Drop;

    /// `stated w p o` says that `o` is an answer of `w` for the piece `p`.
    ghost stated: { Self → P → Self.Out → Type 0 };

    /// The number of a piece, by which a gate knows it.
    fn number(&self, piece: &P) -> u64;

    /// What a worker begins with. This takes no memory.
    fn begin(&self, alloc: Global) -> Self::Kept;

    /// Reads a piece. An error is lack of memory.
    fn read(&self, alloc: Global, kept: &mut Self::Kept, piece: P) -> Result<Self::Out, AllocError>
        // A result that the work may state of the piece.
        ensures { IfOk result (λ out. stated self.now piece out) };
}
