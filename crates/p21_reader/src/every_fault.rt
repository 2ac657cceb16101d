//! Gathering what pieces are by themselves, in the order of the file, with all their faults.

ghost use Rattle.std.specs.Prelude.{◌≡◌, ◌≤◌, ◌≢◌, List, [], ◌∷◌, ◌++◌, length, false, IfOk, MatchResult, OnOk, Option};
ghost use Rattle.p21_schema.specs.declared.ids.EntityId.{EntityId};
ghost use Rattle.p21_tree.specs.Texts.{HasTail};
ghost use Rattle.p21_tree.specs.Sentence.{Instance};
ghost use Rattle.p21_join.specs.InstanceNames.{IsAmong};
ghost use Rattle.p21_join.specs.declared.instance_names.InstanceNames.{InstanceNames};
ghost use Rattle.p21_join.specs.Model.{instances_of, plain_instances};
ghost use Rattle.p21_reader.specs.AllByValues.{AreFaultsOfValues};
ghost use Rattle.p21_reader.specs.EveryFault.{AreFaultsGathered, GathersFaults};
ghost use Rattle.p21_reader.specs.Judged.{entities_of, values_of};
ghost use Rattle.p21_reader.specs.Names.{AreNames};
ghost use Rattle.p21_reader.specs.Values.{HaveInstances, IsCarriedFault};
ghost use Rattle.p21_reader.specs.declared.judged.Judged.TheVariants as judged_as;
ghost use Rattle.p21_reader.specs.declared.judged.Judgement.{Judgement};

use crate::first_fault::join_whole;
use crate::judged::{Judged, Judgement};
use p21_crew::Gathers;
use p21_join::{InstanceNames, Joiner, Model};
use p21_schema::{EntityId, Schema};
use p21_tree::{Fault, FaultKind, RawInstance, read_tail};
use std::alloc::{AllocError, Global};
use std::mem;

/// What was gathered of the pieces of a file, judged in their order: their instances, or all their faults.
///
/// With the first fault the instances are let go, and of each only the name is kept.
#[derive(Drop)]
pub(crate) struct FaultGathering<'a> {
    alloc: Global,
    /// The instances, while there is no fault.
    joiner: Joiner<'a>,
    /// The entity of each instance, at its place.
    entities: Vec<Option<EntityId>>,
    /// The names of all instances, once there is a fault.
    names: InstanceNames,
    faults: Vec<Fault>,
    /// Whether the last fault is one of the grammar. Behind it nothing is looked at.
    ended: bool,
}

/// The model of a file and the entity of each instance, or all faults of its pieces and its tail.
pub(crate) type Gathered<'a> = Result<(Model<'a>, Vec<Option<EntityId>>), Vec<Fault>>;

impl<'a> FaultGathering<'a> {
    /// Nothing is gathered yet. Names are hashed by the key of the schema. This takes no memory.
    pub(crate) fn new(alloc: Global, schema: &Schema) -> FaultGathering<'a>
        ensures { AreFaultsGathered result [] }
    {
        let key = schema.hash_key();
        FaultGathering {
            alloc,
            joiner: Joiner::with_key(alloc, key),
            entities: Vec::new(alloc),
            names: InstanceNames::with_key(alloc, key),
            faults: Vec::new(alloc),
            ended: false,
        }
    }

    /// Joins an instance after others that have no fault, as none has by now. The fault that it has by itself is told after a
    /// repeated name.
    fn join(
        &mut self,
        instance: RawInstance<'a>,
        own: Option<FaultKind>,
        entity: Option<EntityId>,
    ) -> Result<(), AllocError>
        requires going { self.old.ended ≡ false }
        requires sound { self.old.faults.items ≡ [] }
        ensures { OnOk result ((js : List Judgement) → AreFaultsGathered self.old js → AreFaultsGathered self.new (js ++ record { judged = judged_as.Whole instance.entry own; entity = entity } ∷ [])) }
    {
        let at = instance.at;
        match join_whole(&mut self.joiner, instance, own)? {
            None => self.entities.push(entity)?,
            Some(kind) => {
                self.faults.push(Fault { kind, at })?;
                let joiner = mem::replace(&mut self.joiner, Joiner::new(self.alloc));
                self.names = InstanceNames::of(joiner);
                self.entities = Vec::new(self.alloc);
            }
        }
        Ok(())
    }

    /// Notes the name and the fault of an instance after others of which one has a fault.
    fn note(&mut self, instance: &RawInstance<'a>, own: Option<FaultKind>) -> Result<(), AllocError>
        requires going { self.old.ended ≡ false }
        requires faulty { self.old.faults.items ≢ [] }
        ensures { OnOk result ((js : List Judgement) (entity : Option EntityId) → AreFaultsGathered self.old js → AreFaultsGathered self.new (js ++ record { judged = judged_as.Whole instance.now own; entity = entity } ∷ [])) }
    {
        let at = instance.at;
        match add_name(&mut self.names, instance.name, own)? {
            None => Ok(()),
            Some(kind) => {
                self.faults.push(Fault { kind, at })?;
                Ok(())
            }
        }
    }

    /// The model of all pieces and the entity of each instance, where neither they nor the tail, which begins at this place, have
    /// a fault; else all faults. An error is lack of memory.
    pub(crate) fn conclude(self, file: &[u8], tail: usize) -> Result<Gathered<'a>, AllocError>
        requires { tail ≤ length file.now }
        ensures { (js : List Judgement) → AreFaultsGathered self.entry js → IfOk result (λ found. MatchResult found
            (λ r. HaveInstances (values_of js) (plain_instances (instances_of r.0)) × (r.1.items ≡ entities_of js) × HasTail file.now tail)
            (λ faults. AreFaultsOfValues file.now tail (values_of js) faults.items × (faults.items ≢ []))) }
    {
        let FaultGathering {
            alloc: _,
            joiner,
            entities,
            names: _names,
            faults,
            ended,
        } = self;
        let faults = with_tail(faults, ended, file, tail)?;
        if faults.is_empty() {
            Ok(Ok((joiner.into_model(), entities)))
        } else {
            Ok(Err(faults))
        }
    }
}

impl<'a> Gathers<Judgement<'a>> for FaultGathering<'a> {
    ghost holds = { AreFaultsGathered };

    /// Behind a grammar fault a piece is let go.
    fn gather(&mut self, out: Judgement<'a>) -> Result<(), AllocError> {
        if self.ended {
            return Ok(());
        }
        let Judgement { judged, entity } = out;
        match judged {
            Judged::Grammar(fault) => {
                self.faults.push(fault)?;
                self.ended = true;
                Ok(())
            }
            Judged::Whole(instance, own) if self.faults.is_empty() => {
                self.join(instance, own, entity)
            }
            Judged::Whole(instance, own) => self.note(&instance, own),
        }
    }
}

/// Adds the name of an instance after others that have these names. The answer is the fault that it has after them: a repeated
/// name before its own.
fn add_name(
    names: &mut InstanceNames,
    name: u64,
    own: Option<FaultKind>,
) -> Result<Option<FaultKind>, AllocError>
    ensures fault { IfOk result (λ fault. (is : List Instance) (i : Instance) → i.name ≡ name → AreNames (IsAmong names.old) is → IsCarriedFault is (record { instance = i; own = own }) fault) }
    ensures names { OnOk result ((is : List Instance) (i : Instance) → i.name ≡ name → AreNames (IsAmong names.old) is → AreNames (IsAmong names.new) (is ++ i ∷ [])) }
{
    if names.add(name)? {
        Ok(own)
    } else {
        Ok(Some(FaultKind::DuplicateName))
    }
}

/// The faults of all pieces, and after them that of the tail, where none of the grammar stands before it.
fn with_tail(
    mut faults: Vec<Fault>,
    ended: bool,
    file: &[u8],
    tail: usize,
) -> Result<Vec<Fault>, AllocError>
    requires { tail ≤ length file.now }
    ensures all { (js : List Judgement) (is : List Instance) (entities : List (Option EntityId)) (names : InstanceNames) → GathersFaults js is entities names faults.items ended → IfOk result (λ all. AreFaultsOfValues file.now tail (values_of js) all.items) }
    ensures none { IfOk result (λ all. all.items ≡ [] → faults.items ≡ []) }
{
    if ended {
        return Ok(faults);
    }
    match read_tail(file, tail) {
        Ok(()) => Ok(faults),
        Err(fault) => {
            faults.push(fault)?;
            Ok(faults)
        }
    }
}
