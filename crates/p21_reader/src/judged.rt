//! What a worker finds in a piece: an instance, or its fault.

ghost use Rattle.std.specs.Prelude.{IfOk};
ghost use Rattle.p21_express.specs.Schema.{Schema};
ghost use Rattle.p21_tree.specs.declared.pieces.Piece.{Piece};
ghost use Rattle.p21_reader.specs.Values.{IsJudged};
ghost use Rattle.p21_reader.specs.Judged.{HasOwnEntity, value_of};
ghost use Rattle.p21_reader.specs.declared.judged.Judged.{Judged};

use p21_check::{check_local_entity, simple_entity};
use p21_schema::{EntityId, Schema};
use p21_tree::{Fault, FaultKind, InstanceReader, Piece, RawInstance, TreeError};
use std::alloc::AllocError;

/// What a piece is by itself.
#[derive(Debug, Drop)]
pub enum Judged<'a> {
    /// No instance: its first grammar fault.
    Grammar(Fault),
    /// An instance, and the kind of the fault that it has by itself, or none.
    Whole(RawInstance<'a>, Option<FaultKind>),
}

/// Judges pieces by themselves.
///
/// Its ghost `judges` says what it may say of a piece; of `LocalReader`, what the piece is by itself.
pub trait Judge {
    /// What a piece may be judged to be.
    ghost judges: { Self → Piece → Judged → Type 0 };

    /// Judges a piece by itself. The reader may have read any pieces before. An error is lack of memory.
    fn judge<'a>(
        &self,
        reader: &mut InstanceReader<'a>,
        piece: Piece<'a>,
    ) -> Result<Judged<'a>, AllocError>
        // What the judge may say of the piece. `LocalReader` says its grammar fault; or its instance, with the fault
        // that it has by itself or none.
        ensures { IfOk result (λ judged. judges self.now piece.entry judged) };
}

/// Reads a piece as an instance, and checks it by itself against a schema.
#[derive(Clone, Copy)]
pub struct LocalReader<'s> {
    /// The schema.
    pub schema: &'s Schema,
}

impl Judge for LocalReader<'_> {
    ghost judges = { λ reader piece judged. IsJudged reader.schema.now piece (value_of judged) };

    fn judge<'a>(
        &self,
        reader: &mut InstanceReader<'a>,
        piece: Piece<'a>,
    ) -> Result<Judged<'a>, AllocError> {
        Ok(judge_local(self.schema, reader, piece)?.judged)
    }
}

/// What a piece is by itself, and the entity of its instance.
#[derive(Drop)]
pub struct Judgement<'a> {
    /// What the piece is by itself.
    pub judged: Judged<'a>,
    /// The entity of the instance; none of a complex one, nor where its keyword names none.
    pub entity: Option<EntityId>,
}

/// Reads a piece as an instance, and checks it by itself against a schema. The keyword of an instance without a fault is looked
/// up once.
#[inline(always)]
pub(crate) fn judge_local<'a>(
    schema: &Schema,
    reader: &mut InstanceReader<'a>,
    piece: Piece<'a>,
) -> Result<Judgement<'a>, AllocError>
    ensures judged { IfOk result (λ judgement. IsJudged schema.now piece.entry (value_of judgement.judged)) }
    ensures entity { IfOk result (HasOwnEntity schema.now) }
{
    let instance = match reader.read(piece) {
        Ok(instance) => instance,
        Err(TreeError::Grammar(fault)) => {
            return Ok(Judgement {
                judged: Judged::Grammar(fault),
                entity: None,
            });
        }
        Err(TreeError::Memory) => return Err(AllocError),
    };
    let (own, entity) = match check_local_entity(schema, &instance) {
        Ok(entity) => (None, entity),
        Err(kind) => (Some(kind), simple_entity(schema, &instance)),
    };
    Ok(Judgement {
        judged: Judged::Whole(instance, own),
        entity,
    })
}

/// Judges pieces by themselves, and finds the entity of each instance in a schema.
pub(crate) trait EntityJudge {
    /// What a piece may be judged to be against a schema.
    ghost judges: { Self → Schema → Piece → Judged → Type 0 };

    /// Judges a piece by itself, and finds the entity of its instance. The reader may have read any pieces before. An error is
    /// lack of memory.
    fn judge_entity<'a>(
        &self,
        schema: &Schema,
        reader: &mut InstanceReader<'a>,
        piece: Piece<'a>,
    ) -> Result<Judgement<'a>, AllocError>
        ensures judged { IfOk result (λ judgement. judges self.now schema.now piece.entry judgement.judged) }
        ensures entity { IfOk result (HasOwnEntity schema.now) };
}

/// Judges pieces as a `LocalReader` of the schema does; the keyword of a simple instance without a fault is looked up once.
#[derive(Clone, Copy)]
pub(crate) struct Locally;

impl EntityJudge for Locally {
    ghost judges = { λ judge schema piece judged. IsJudged schema piece (value_of judged) };

    #[inline(always)]
    fn judge_entity<'a>(
        &self,
        schema: &Schema,
        reader: &mut InstanceReader<'a>,
        piece: Piece<'a>,
    ) -> Result<Judgement<'a>, AllocError> {
        judge_local(schema, reader, piece)
    }
}

/// Judges pieces as any judge does, and looks the keywords of their instances up.
#[derive(Clone, Copy)]
pub(crate) struct ByJudge<'r, J> {
    pub(crate) judge: &'r J,
}

impl<J: Judge> EntityJudge for ByJudge<'_, J> {
    ghost judges = { λ by schema piece judged. J.judges by.judge.now piece judged };

    #[inline(always)]
    fn judge_entity<'a>(
        &self,
        schema: &Schema,
        reader: &mut InstanceReader<'a>,
        piece: Piece<'a>,
    ) -> Result<Judgement<'a>, AllocError> {
        let judged = self.judge.judge(reader, piece)?;
        let entity = match &judged {
            Judged::Grammar(_) => None,
            Judged::Whole(instance, _) => simple_entity(schema, instance),
        };
        Ok(Judgement { judged, entity })
    }
}
