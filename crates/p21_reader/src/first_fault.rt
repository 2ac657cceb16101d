//! Joining what pieces are by themselves, in the order of the file.

ghost use Rattle.std.specs.Prelude.{◌≡◌, ◌≤◌, List, [], ◌∷◌, ◌++◌, Contains, length, map, None, Ok, Err, IfOk, IfErr, OnOk, IsSome};
ghost use Rattle.p21_express.specs.Schema.{Schema};
ghost use Rattle.p21_tree.specs.Texts.{HasTail};
ghost use Rattle.p21_tree.specs.Views.{plain_instance};
ghost use Rattle.p21_join.specs.Joined.{joined};
ghost use Rattle.p21_join.specs.Model.{instances_of, plain_instances};
ghost use Rattle.p21_reader.specs.Steps.{AddsValue};
ghost use Rattle.p21_reader.specs.Judged.{entities_of, value_of, values_of};
ghost use Rattle.p21_reader.specs.Names.{AreNames};
ghost use Rattle.p21_reader.specs.Values.{HaveInstances, IsAnswerTo, IsCarriedFault};
ghost use Rattle.p21_reader.specs.declared.judged.Judgement.{Judgement};

use crate::judged::{Judged, Judgement};
use crate::stop::Stop;
use p21_crew::Gathers;
use p21_join::{JoinError, Joiner, Model};
use p21_schema::{EntityId, Schema};
use p21_tree::{Fault, FaultKind, RawInstance, read_tail};
use std::alloc::{AllocError, Global};

/// What was gathered of the pieces of a file, judged in their order: their instances, or their first fault.
#[derive(Drop)]
pub(crate) struct Gathering<'a> {
    joiner: Joiner<'a>,
    /// The entity of each instance, at its place.
    entities: Vec<Option<EntityId>>,
    /// The first fault. Where there is one, the instances are of no account.
    fault: Option<Fault>,
}

impl<'a> Gathering<'a> {
    ghost use Rattle.p21_reader.specs.FirstFault.{IsGathered, fault_of};

    /// Nothing is gathered yet. Names are hashed by the key of the schema. This takes no memory.
    pub(crate) fn new(alloc: Global, schema: &Schema) -> Gathering<'a>
        ensures { IsGathered result [] }
    {
        Gathering {
            joiner: Joiner::with_key(alloc, schema.hash_key()),
            entities: Vec::new(alloc),
            fault: None,
        }
    }

    /// Gathers the next piece. Behind a fault it is let go.
    ///
    /// An error is lack of memory; then the gathering is of no further account.
    pub(crate) fn gather(&mut self, judgement: Judgement<'a>) -> Result<(), AllocError>
        ensures gathered { OnOk result ((js : List Judgement) → IsGathered self.old js → IsGathered self.new (js ++ judgement.entry ∷ [])) }
        ensures behind { IsSome (fault_of self.old) → (result ≡ Ok tt) × (self.new ≡ self.old) }
    {
        if self.fault.is_some() {
            return Ok(());
        }
        match add_value(&mut self.joiner, &mut self.entities, judgement) {
            Ok(()) => Ok(()),
            Err(Stop::Fault(fault)) => {
                self.fault = Some(fault);
                Ok(())
            }
            Err(Stop::Memory) => Err(AllocError),
        }
    }

    /// The model of all pieces and the entity of each instance, where neither they nor the tail, which begins at this place, have
    /// a fault; else the first fault.
    pub(crate) fn conclude(
        self,
        file: &[u8],
        tail: usize,
    ) -> Result<(Model<'a>, Vec<Option<EntityId>>), Fault>
        requires { tail ≤ length file.now }
        ensures instances { IfOk result (λ r. (js : List Judgement) → IsGathered self.entry js → HaveInstances (values_of js) (plain_instances (instances_of r.0))) }
        ensures entities { IfOk result (λ r. (js : List Judgement) → IsGathered self.entry js → r.1.items ≡ entities_of js) }
        ensures tail { OnOk result (HasTail file.now tail) }
        ensures fault { IfErr result (λ fault. (s : Schema) → (js : List Judgement) → IsGathered self.entry js → IsAnswerTo s file.now tail (values_of js) (Err fault)) }
    {
        if let Some(fault) = self.fault {
            return Err(fault);
        }
        read_tail(file, tail)?;
        Ok((self.joiner.into_model(), self.entities))
    }
}

impl<'a> Gathers<Judgement<'a>> for Gathering<'a> {
    ghost use Rattle.p21_reader.specs.FirstFault.{IsGathered};

    ghost holds = { IsGathered };

    fn gather(&mut self, out: Judgement<'a>) -> Result<(), AllocError> {
        Gathering::gather(self, out)
    }
}

/// Joins the instance of a piece, where it has no fault after those before it, and puts its entity after theirs. Otherwise the
/// fault is told.
#[inline(always)]
pub(crate) fn add_value<'a>(
    joiner: &mut Joiner<'a>,
    entities: &mut Vec<Option<EntityId>>,
    judgement: Judgement<'a>,
) -> Result<(), Stop>
    ensures adds { AddsValue (plain_instances (joined joiner.old)) (value_of judgement.entry.judged) result (plain_instances (joined joiner.new)) }
    ensures entities { OnOk result (entities.new.items ≡ entities.old.items ++ judgement.entry.entity ∷ []) }
{
    let Judgement { judged, entity } = judgement;
    match judged {
        Judged::Grammar(fault) => Err(Stop::Fault(fault)),
        Judged::Whole(instance, own) => {
            add_whole(joiner, instance, own)?;
            entities.push(entity)?;
            Ok(())
        }
    }
}

/// Joins an instance that has this fault by itself, or none. A repeated name is told before that fault.
#[inline(always)]
fn add_whole<'a>(
    joiner: &mut Joiner<'a>,
    instance: RawInstance<'a>,
    own: Option<FaultKind>,
) -> Result<(), Stop>
    ensures { AddsValue (plain_instances (joined joiner.old)) (value_of (Judged.Whole instance.entry own)) result (plain_instances (joined joiner.new)) }
{
    let at = instance.at;
    match join_whole(joiner, instance, own)? {
        None => Ok(()),
        Some(kind) => Err(Stop::Fault(Fault { kind, at })),
    }
}

/// Joins an instance that has this fault by itself, or none, unless its name is there. The answer is the fault that it has after
/// the others: a repeated name before its own.
#[inline(always)]
pub(crate) fn join_whole<'a>(
    joiner: &mut Joiner<'a>,
    instance: RawInstance<'a>,
    own: Option<FaultKind>,
) -> Result<Option<FaultKind>, AllocError>
    ensures fault { IfOk result (IsCarriedFault (plain_instances (joined joiner.old)) (record { instance = plain_instance instance.entry; own = own })) }
    ensures joined { result ≡ Ok None → joined joiner.new ≡ joined joiner.old ++ instance.entry ∷ [] }
    ensures names { OnOk result (AreNames (Contains (map (λ i. i.name) (joined joiner.new))) (plain_instances (joined joiner.old) ++ plain_instance instance.entry ∷ [])) }
{
    match joiner.add(instance) {
        Ok(()) => Ok(own),
        Err(JoinError::Duplicate(_)) => Ok(Some(FaultKind::DuplicateName)),
        Err(JoinError::Memory(_)) => Err(AllocError),
    }
}
