//! Reading instances one after the other.

ghost use Rattle.std.specs.Prelude.{ℕ, IfOk, IfErr};
ghost use Rattle.p21_tree.specs.Views.{plain_instance};
ghost use Rattle.p21_tree.specs.Texts.{IsPieceText, HasPieceFault, OnGrammar};

use crate::faults::TreeError;
use crate::full_texts::single;
use crate::instances::RawInstance;
use crate::nest::Nest;
use crate::pieces::Piece;
use crate::source::Source;
use std::alloc::Global;

/// Reads pieces one after the other. The memory that it needs while it reads is kept from one to the next.
#[derive(Drop)]
pub struct InstanceReader<'a> {
    alloc: Global,
    nest: Nest<'a>,
}

impl<'a> InstanceReader<'a> {
    /// A reader that has read nothing. It takes no memory.
    pub fn new(alloc: Global) -> Self {
        InstanceReader {
            alloc,
            nest: Nest::new(alloc),
        }
    }

    /// Reads a part of a file that is to be one instance. What was read before it, also with an error, is of no account.
    ///
    /// Places are counted in the file. An error is the part's first grammar fault, or lack of memory.
    ///
    /// The result is that of `read_piece`, whatever was read before. That memory is used again is known by review.
    pub fn read(&mut self, piece: Piece<'a>) -> Result<RawInstance<'a>, TreeError>
        ensures ok { IfOk result (λ r. IsPieceText piece.entry (plain_instance r)) }
        ensures fault { IfErr result (λ e. OnGrammar e (HasPieceFault piece.entry)) }
    {
        let source = Source {
            text: piece.bytes,
            base: piece.at,
        };
        single(self.alloc, &mut self.nest, source)
    }
}
