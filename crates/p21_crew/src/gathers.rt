//! What takes the results in file order: the interface of whoever puts them together.
ghost use Rattle.std.specs.Prelude.{◌∷◌, ◌++◌, [], List, OnOk};

use std::alloc::AllocError;

/// What gathers results, in the order of the pieces.
///
/// Its ghost `holds` lists the results that were gathered, in order.
pub trait Gathers<O> {
    /// `holds g outs` says that `g` gathered these results, in order.
    ghost holds: { Self → List O → Type 0 };

    /// Gathers one more result. An error is lack of memory.
    fn gather(&mut self, out: O) -> Result<(), AllocError>
        // The result comes after those that were gathered.
        ensures { OnOk result ((outs : List O) → holds self.old outs → holds self.new (outs ++ out ∷ [])) };
}
