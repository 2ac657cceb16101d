//! Judges of the tests.

ghost use Rattle.std.specs.Prelude.{IfOk};
ghost use Rattle.p21_tree.specs.declared.pieces.Piece.{Piece};
ghost use Rattle.p21_reader.specs.declared.judged.Judged.{Judged};
ghost use Rattle.p21_run_tests.specs.Judges.{MissesNoFault};

use p21_crew::Gate;
use p21_crew_tests::Meeting;
use p21_reader::{Judge, Judged, LocalReader};
use p21_tree::{Fault, FaultKind, InstanceReader, Piece};
use std::alloc::AllocError;
use std::time::Clock;

/// Judges as a schema asks, and gives the second piece a fault besides.
#[derive(Clone, Copy)]
pub(crate) struct SecondAtFault<'s>(pub(crate) LocalReader<'s>);

impl Judge for SecondAtFault<'_> {
    ghost judges = { λ judge piece judged. MissesNoFault judge.0.schema.now judged };

    fn judge<'a>(
        &self,
        reader: &mut InstanceReader<'a>,
        piece: Piece<'a>,
    ) -> Result<Judged<'a>, AllocError> {
        let second = piece.number == 1;
        match self.0.judge(reader, piece)? {
            Judged::Whole(instance, _) if second => Ok(Judged::Whole(
                instance,
                Some(FaultKind::BadAttribute { rec: 0, attr: 0 }),
            )),
            judged => Ok(judged),
        }
    }
}

/// Judges as a schema asks, once all pieces are being judged.
#[derive(Clone, Copy)]
pub(crate) struct MeetingReader<'s, 'm, R> {
    pub(crate) local: LocalReader<'s>,
    pub(crate) meeting: &'m Meeting<'m, R>,
}

impl<R: Clock> Judge for MeetingReader<'_, '_, R> {
    ghost judges = { λ judge piece judged. MissesNoFault judge.local.schema.now judged };

    fn judge<'a>(
        &self,
        reader: &mut InstanceReader<'a>,
        piece: Piece<'a>,
    ) -> Result<Judged<'a>, AllocError> {
        self.meeting.enter(0, piece.number);
        self.local.judge(reader, piece)
    }
}

/// Tells of each piece a fault at its number, once all pieces are being judged.
#[derive(Clone, Copy)]
pub(crate) struct MeetingNumbers<'m, R> {
    pub(crate) meeting: &'m Meeting<'m, R>,
}

impl<R: Clock> Judge for MeetingNumbers<'_, R> {
    ghost use Rattle.std.specs.Prelude.{⊤};

    ghost judges = { λ judge piece judged. ⊤ };

    fn judge<'a>(
        &self,
        _reader: &mut InstanceReader<'a>,
        piece: Piece<'a>,
    ) -> Result<Judged<'a>, AllocError> {
        self.meeting.enter(0, piece.number);
        Ok(Judged::Grammar(Fault {
            kind: FaultKind::BadToken,
            at: piece.number,
        }))
    }
}
