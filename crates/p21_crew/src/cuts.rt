//! What gives the pieces, one after the other: the interface of a source of pieces.
ghost use Rattle.std.specs.Prelude.{◌<◌, ℕ, List};
ghost use Rattle.p21_crew.specs.Cuts.{CutsNext, LeavesLess};

/// What a cutter gives next.
#[derive(Debug, Drop)]
pub enum Next<P> {
    /// A piece.
    Piece(P),
    /// No further piece; where the tail begins.
    Tail(u64),
}

/// What cuts a text into pieces, one after the other.
///
/// Its ghost `cuts` says which pieces it gives from now on and where the tail begins, and `left` how much is left.
pub trait Cuts {
    type Piece;

    /// `cuts c pieces tail` says that `c` gives these pieces from now on, and then the tail.
    ghost cuts: { Self → List Self.Piece → ℕ → Type 0 };

    /// How many bytes are left to cut, or another number that falls with each piece.
    ghost left: { Self → ℕ };

    /// The next piece, or the tail.
    fn next(&mut self) -> Next<Self::Piece>
        // The first of the pieces that are left, or the tail.
        ensures next { CutsNext cuts self.old result self.new }
        // With each piece less is left.
        ensures less { LeavesLess left self.old result self.new };
}
