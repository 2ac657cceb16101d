//! Reading files, and parts of them.

ghost use Rattle.std.specs.Prelude.{ℕ, ◌≤◌, length, map, IfOk, IfErr, OnOk};
ghost use Rattle.p21_tree.specs.Views.{plain_instance, plain_preface};
ghost use Rattle.p21_tree.specs.Fault.{files, tails};
ghost use Rattle.p21_tree.specs.Texts.{IsFileText, BeginsPreface, HasTail, IsPieceText, HasFault, HasPieceFault, HasPrefaceFault, OnGrammar};

use crate::data_section::behind_endsec;
use crate::faults::{Fault, TreeError};
use crate::full_texts::whole;
use crate::header_section::preface;
use crate::headers::Preface;
use crate::instance_reader::InstanceReader;
use crate::instances::RawInstance;
use crate::nest::Nest;
use crate::pieces::Piece;
use crate::source::Source;
use crate::terminals::Terminal;
use crate::tokens::expect;
use std::alloc::Global;

/// Reads what stands before the instances of a file, up to and including `DATA;`.
///
/// An error is the first grammar fault of the file, which stands in its preface, or lack of memory.
pub fn read_preface<'a>(alloc: Global, file: &'a [u8]) -> Result<Preface<'a>, TreeError>
    // The tokens from the beginning are this preface, with places in the file.
    ensures ok { IfOk result (λ r. BeginsPreface file.now (plain_preface r)) }
    // The place after it is in the file.
    ensures within { IfOk result (λ r. r.data_at ≤ length file.now) }
    // This is the fault of the file, and no prefix of the tokens of the file is a preface.
    ensures fault { IfErr result (λ e. OnGrammar e (HasPrefaceFault file.now)) }
{
    let source = Source {
        text: file,
        base: 0,
    };
    let (read, _after) = preface(alloc, &mut Nest::new(alloc), source)?;
    Ok(read)
}

/// Reads a part of a file that is to be one instance.
///
/// Places are counted in the file. An error is the part's first grammar fault, or lack of memory.
///
/// Places are those in the file.
pub fn read_piece<'a>(alloc: Global, piece: Piece<'a>) -> Result<RawInstance<'a>, TreeError>
    ensures ok { IfOk result (λ r. IsPieceText piece.entry (plain_instance r)) }
    ensures fault { IfErr result (λ e. OnGrammar e (HasPieceFault piece.entry)) }
{
    InstanceReader::new(alloc).read(piece)
}

/// Reads the end of a file from a place on: `ENDSEC;`, `END-ISO-10303-21;` and separators alone. `at` is at most the
/// file's length.
///
/// An error is the first grammar fault from that place on.
///
/// Places are those in the file.
pub fn read_tail(file: &[u8], at: usize) -> Result<(), Fault>
    requires { at ≤ length file.now }
    ensures ok { OnOk result (HasTail file.now at) }
    ensures fault { IfErr result (HasFault tails file.now at) }
{
    let source = Source {
        text: file,
        base: 0,
    };
    let endsec = expect(source, at, Terminal::EndSec)?;
    behind_endsec(source, endsec.after)
}

/// Reads a whole file: its preface, and its instances in their order.
///
/// An error is the first grammar fault of the file, or lack of memory.
pub fn read_whole<'a>(
    alloc: Global,
    file: &'a [u8],
) -> Result<(Preface<'a>, Vec<RawInstance<'a>>), TreeError>
    // The tokens of the text are the sentence of this tree.
    ensures ok { IfOk result (λ r. IsFileText file.now (plain_preface r.0) (map plain_instance r.1.items)) }
    // The tokens of the text have this grammar fault: its kind and its place.
    ensures fault { IfErr result (λ e. OnGrammar e (HasFault files file.now 0)) }
{
    let source = Source {
        text: file,
        base: 0,
    };
    whole(alloc, source)
}
