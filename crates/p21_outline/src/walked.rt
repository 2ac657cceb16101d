//! Instances that a walk passed, so that they were never built.

ghost use Rattle.std.specs.Prelude.{OnErr, OnOk};
ghost use Rattle.p21_tree.specs.declared.instances.RawInstance.{RawInstance};
ghost use Rattle.p21_check.specs.WalkPiece.{IsWalked};
ghost use Rattle.p21_outline.specs.Columns.{Adds, IsAsItWas};

use crate::columns::Columns;
use crate::let_go::LetGo;
use p21_check::Walked;
use p21_schema::Schema;
use p21_tree::{Piece, RawInstance};
use std::alloc::AllocError;
use std::marker::PhantomData;

/// What a walk found of a piece, by a schema.
#[derive(Drop)]
struct Found<'s, 'p> {
    schema: &'s Schema,
    piece: Piece<'p>,
    walked: Walked,
}

/// The instance that the walk passed.
fn passed<'a>(found: &Found<'_, '_>) -> LetGo<RawInstance<'a>>
    requires { (i : RawInstance) × IsWalked found.now.schema.now found.now.piece i found.now.walked }
    ensures { IsWalked found.now.schema.now found.now.piece result.value found.now.walked }
{
    let _ = found;
    LetGo {
        marker: PhantomData,
    }
}

/// Puts what is kept of an instance that a walk passed after others. Where it is refused, what is kept is as it was.
#[inline(always)]
pub(crate) fn push_passed<'a>(
    columns: &mut Columns<'a>,
    schema: &Schema,
    piece: Piece<'a>,
    walked: Walked,
) -> Result<(), AllocError>
    requires { (i : RawInstance) × IsWalked schema.now piece i walked }
    ensures ok { OnOk result ((i : RawInstance) × IsWalked schema.now piece.entry i walked × Adds schema.now columns.old i columns.new) }
    ensures err { OnErr result (IsAsItWas columns.old columns.new) }
{
    let found = Found {
        schema,
        piece,
        walked,
    };
    let gone = passed(&found);
    let references = found.walked.references.as_slice();
    columns.push_simple(found.walked.written, found.walked.entity, references, gone)
}
