//! Gathering what pieces are by themselves, in the order of the file: outlines of their instances, or all their faults.

ghost use Rattle.std.specs.Prelude.{◌≡◌, ◌<◌, ◌≤◌, ◌≢◌, ◌⊎◌, ℕ, List, [], ◌∷◌, ◌++◌, false, get_or, length, map, take, All, None, IfOk, MatchResult, OnOk};
ghost use Rattle.p21_express.specs.Schema.{Schema};
ghost use Rattle.p21_tree.specs.Sentence.{Instance};
ghost use Rattle.p21_tree.specs.Texts.{HasTail};
ghost use Rattle.p21_tree.specs.declared.instances.RawInstance.{RawInstance};
ghost use Rattle.p21_join.specs.InstanceNames.{IsAmong};
ghost use Rattle.p21_join.specs.Model.{plain_instances};
ghost use Rattle.p21_outline.specs.Outline.{AreOutlined, outlined_instances};
ghost use Rattle.p21_outline.specs.OutlineList.{AreListed, listed_instances};
ghost use Rattle.p21_outline.specs.PlacedName.{placed_name};
ghost use Rattle.p21_outline.specs.declared.outline_list.OutlineList.{OutlineList};
ghost use Rattle.p21_reader.specs.AllByValues.{AreFaultsOfValues};
ghost use Rattle.p21_reader.specs.Names.{AreNames};
ghost use Rattle.p21_reader.specs.EveryFault.{HaveFaults};
ghost use Rattle.p21_reader.specs.Values.{HaveInstances, IsCarriedFault, Value, Whole, whole};
ghost use Rattle.p21_checker.specs.Begin.{BeginWithFault, HasFault};
ghost use Rattle.p21_checker.specs.Checked.{outlines_of, sound_value, value_of, values_of};
ghost use Rattle.p21_checker.specs.Gathering.{GathersFaults, HasFaultBehind, HasGathered, IsGathered};
ghost use Rattle.p21_checker.specs.declared.checked.Checked.TheVariants as checked;
ghost use Rattle.p21_checker.specs.declared.checked_list.CheckedList.{CheckedList};
ghost use Rattle.p21_join.specs.declared.instance_names.InstanceNames.{InstanceNames};

use crate::checked::{Checked, CheckedInstance};
use crate::checked_list::CheckedList;
use p21_crew::Gathers;
use p21_hash::HashKey;
use p21_join::InstanceNames;
use p21_outline::{Extended, Outline, OutlineList, PlacedName};
use p21_tree::{Fault, FaultKind, read_tail};
use std::alloc::{AllocError, Global};
use std::mem;

/// What was gathered of the pieces of a file, checked in their order: the outlines of their instances, or all their faults.
///
/// With the first fault the outlines are let go, and of each instance only the name is kept.
#[derive(Drop)]
pub(crate) struct Gathering<'a> {
    alloc: Global,
    /// The outlines of all instances, while there is no fault.
    outline: Outline<'a>,
    /// The names of all instances, once there is a fault.
    names: InstanceNames,
    faults: Vec<Fault>,
    /// Whether the last fault is one of the grammar. Behind it nothing is looked at.
    ended: bool,
}

impl<'a> Gathering<'a> {
    /// Nothing is gathered yet. Names are hashed by this key. This takes no memory.
    pub(crate) fn new(alloc: Global, key: HashKey) -> Gathering<'a>
        ensures { IsGathered result [] }
    {
        Gathering {
            alloc,
            outline: Outline::new(alloc, key),
            names: InstanceNames::with_key(alloc, key),
            faults: Vec::new(alloc),
            ended: false,
        }
    }

    /// Puts outlines of instances after those of others that have no fault, as none has by now. Where one of them has the name of
    /// another before it, that is its fault.
    fn join(&mut self, list: OutlineList<'a>) -> Result<(), AllocError>
        requires going { self.old.ended ≡ false }
        requires sound { self.old.faults.items ≡ [] }
        ensures { OnOk result ((vs : List Value) (ls : List OutlineList) → HasGathered self.old vs ls → HasGathered self.new (vs ++ map sound_value (listed_instances list.entry)) (ls ++ list.entry ∷ [])) }
    {
        let empty = Outline::new(self.alloc, HashKey::default());
        let outline = mem::replace(&mut self.outline, empty);
        match outline.extend(list)? {
            Extended::Whole(outline) => {
                self.outline = outline;
                Ok(())
            }
            Extended::Repeated(names, list, place) => {
                self.names = names;
                self.note_repeated(list.names(), place)
            }
        }
    }

    /// Notes the first fault, that the instance at this place has the name of one before it, and the names of those after it. The names of
    /// those before it are known.
    fn note_repeated(&mut self, names: &[PlacedName], place: usize) -> Result<(), AllocError>
        requires going { self.old.ended ≡ false }
        requires sound { self.old.faults.items ≡ [] }
        requires within { place < length names.now }
        ensures { OnOk result ((vs : List Value) (ls : List OutlineList) (is : List RawInstance) → names.now ≡ map placed_name is → HaveFaults (vs ++ map sound_value (take place is)) self.old.names [] → ((d : RawInstance) → IsAmong self.old.names (get_or is place d).name) → HasGathered self.new (vs ++ map sound_value is) ls) }
    {
        let (_, rest) = names.split_at(place);
        self.faults.push(Fault {
            kind: FaultKind::DuplicateName,
            at: rest[0].at,
        })?;
        self.note_names(&rest[1..])
    }

    /// Notes the names of instances that have no fault by themselves, after a fault.
    fn note_names(&mut self, names: &[PlacedName]) -> Result<(), AllocError>
        requires going { self.old.ended ≡ false }
        requires faulty { self.old.faults.items ≢ [] }
        ensures { OnOk result ((vs : List Value) (ls : List OutlineList) (is : List RawInstance) → names.now ≡ map placed_name is → HasGathered self.old vs ls → HasGathered self.new (vs ++ map sound_value is) ls) }
    {
        for named in names {
            self.note(named.name, named.at, None)?;
        }
        Ok(())
    }

    /// Gathers instances that have no fault by themselves.
    fn gather_sound(&mut self, list: OutlineList<'a>) -> Result<(), AllocError>
        requires { self.old.ended ≡ false }
        ensures { OnOk result ((vs : List Value) (ls : List OutlineList) → HasGathered self.old vs ls → HasGathered self.new (vs ++ map sound_value (listed_instances list.entry)) (ls ++ list.entry ∷ [])) }
    {
        if self.faults.is_empty() {
            self.join(list)
        } else {
            self.note_names(list.names())
        }
    }

    /// Gathers the pieces of a list from the first that has a fault by itself on.
    fn gather_rest(&mut self, rest: Vec<Checked<'a>>) -> Result<(), AllocError>
        ensures { OnOk result ((vs : List Value) (ls : List OutlineList) → BeginWithFault rest.entry.items → HasGathered self.old vs ls → HasGathered self.new (vs ++ map value_of rest.entry.items) ls) }
    {
        let mut left = rest.into_iter();
        while let Some(one) = left.next() {
            self.gather_one(one)?;
        }
        left.destroy_empty();
        Ok(())
    }

    /// Gathers a piece that has a fault by itself, or stands after a fault. Behind one of the grammar it is let go.
    fn gather_one(&mut self, one: Checked<'a>) -> Result<(), AllocError>
        ensures { OnOk result ((vs : List Value) (ls : List OutlineList) → (self.old.faults.items ≢ []) ⊎ HasFault one.entry → HasGathered self.old vs ls → HasGathered self.new (vs ++ value_of one.entry ∷ []) ls × (self.new.faults.items ≢ [])) }
    {
        if self.ended {
            return Ok(());
        }
        match one {
            Checked::Grammar(fault) => {
                self.faults.push(fault)?;
                self.ended = true;
                Ok(())
            }
            Checked::Whole(one) => self.note_checked(&one),
        }
    }

    /// Gathers an instance that has a fault by itself, or stands after a fault.
    fn note_checked(&mut self, one: &CheckedInstance<'a>) -> Result<(), AllocError>
        requires { self.old.ended ≡ false }
        ensures { OnOk result ((vs : List Value) (ls : List OutlineList) → (self.old.faults.items ≢ []) ⊎ (one.now.own ≢ None) → HasGathered self.old vs ls → HasGathered self.new (vs ++ value_of (checked.Whole one.now) ∷ []) ls × (self.new.faults.items ≢ [])) }
    {
        self.note(one.name, one.at, one.own)
    }

    /// Notes the name of an instance, and the fault that it has after the others: a repeated name before its own.
    fn note(&mut self, name: u64, at: u64, own: Option<FaultKind>) -> Result<(), AllocError>
        requires going { self.old.ended ≡ false }
        ensures going { self.new.ended ≡ self.old.ended }
        ensures noted { OnOk result ((vs : List Value) (ls : List OutlineList) (w : Whole) → w.instance.name ≡ name → w.instance.at ≡ at → w.own ≡ own → HasGathered self.old vs ls → HasFaultBehind self.old w → HasGathered self.new (vs ++ whole w ∷ []) ls × (self.new.faults.items ≢ [])) }
    {
        self.begin_faults();
        match add_name(&mut self.names, name, own)? {
            None => Ok(()),
            Some(kind) => {
                self.faults.push(Fault { kind, at })?;
                Ok(())
            }
        }
    }

    /// Lets the outlines go with the first fault, and keeps the names.
    fn begin_faults(&mut self)
        ensures faults { self.new.faults ≡ self.old.faults }
        ensures ended { self.new.ended ≡ self.old.ended }
        ensures gathered { (vs : List Value) (ls : List OutlineList) → self.old.ended ≡ false → HasGathered self.old vs ls → HaveFaults vs self.new.names self.old.faults.items }
    {
        if !self.faults.is_empty() {
            return;
        }
        let empty = Outline::new(self.alloc, HashKey::default());
        let outline = mem::replace(&mut self.outline, empty);
        self.names = outline.into_names();
    }

    /// The outline of all instances, where neither pieces nor the tail, which begins at this place, have a fault; else all faults. An
    /// error is lack of memory.
    pub(crate) fn conclude(
        self,
        file: &[u8],
        tail: usize,
    ) -> Result<Result<Outline<'a>, Vec<Fault>>, AllocError>
        requires { tail ≤ length file.now }
        ensures { (outs : List CheckedList) → IsGathered self.entry outs → IfOk result (λ found. MatchResult found
            (λ outline. HaveInstances (values_of outs) (plain_instances (outlined_instances outline)) × ((s : Schema) → All (AreListed s) (outlines_of outs) → AreOutlined s outline) × HasTail file.now tail)
            (λ faults. AreFaultsOfValues file.now tail (values_of outs) faults.items × (faults.items ≢ []))) }
    {
        let Gathering {
            alloc: _,
            outline,
            names: _names,
            faults,
            ended,
        } = self;
        let faults = with_tail(faults, ended, file, tail)?;
        if faults.is_empty() {
            Ok(Ok(outline))
        } else {
            Ok(Err(faults))
        }
    }
}

impl<'a> Gathers<CheckedList<'a>> for Gathering<'a> {
    ghost use Rattle.p21_checker.specs.Gathering.{IsGathered};

    ghost holds = { IsGathered };

    /// Behind a grammar fault a list is let go.
    fn gather(&mut self, out: CheckedList<'a>) -> Result<(), AllocError> {
        if self.ended {
            return Ok(());
        }
        let CheckedList { sound, rest } = out;
        self.gather_sound(sound)?;
        self.gather_rest(rest)
    }
}

/// Adds the name of an instance after others that have these names. The answer is the fault that it has after them: a repeated
/// name before its own.
fn add_name(
    names: &mut InstanceNames,
    name: u64,
    own: Option<FaultKind>,
) -> Result<Option<FaultKind>, AllocError>
    ensures fault { IfOk result (λ fault. (is : List Instance) (i : Instance) → i.name ≡ name → AreNames (IsAmong names.old) is → IsCarriedFault is (record { instance = i; own = own }) fault) }
    ensures names { OnOk result ((is : List Instance) (i : Instance) → i.name ≡ name → AreNames (IsAmong names.old) is → AreNames (IsAmong names.new) (is ++ i ∷ [])) }
    ensures own { IfOk result (λ fault. own ≢ None → fault ≢ None) }
{
    if names.add(name)? {
        Ok(own)
    } else {
        Ok(Some(FaultKind::DuplicateName))
    }
}

/// The faults of all pieces, and after them that of the tail, where none of the grammar stands before it.
fn with_tail(
    mut faults: Vec<Fault>,
    ended: bool,
    file: &[u8],
    tail: usize,
) -> Result<Vec<Fault>, AllocError>
    requires { tail ≤ length file.now }
    ensures all { IfOk result (λ all. (vs : List Value) (is : List Instance) (names : InstanceNames) → GathersFaults vs is names faults.items ended → AreFaultsOfValues file.now tail vs all.items) }
    ensures none { IfOk result (λ all. all.items ≡ [] → faults.items ≡ []) }
{
    if ended {
        return Ok(faults);
    }
    match read_tail(file, tail) {
        Ok(()) => Ok(faults),
        Err(fault) => {
            faults.push(fault)?;
            Ok(faults)
        }
    }
}
