//! What a worker finds in a list of pieces.

ghost use Rattle.p21_checker.specs.Begin.{BeginWithFault, BeginWithFault-prop};

use crate::checked::{Checked, CheckedInstance};
use p21_check::{Walked, check_local_entity};
use p21_outline::OutlineList;
use p21_schema::Schema;
use p21_tree::{Piece, RawInstance};
use std::alloc::{AllocError, Global};

/// What the pieces of a list are by themselves, in their order.
#[derive(Drop)]
pub struct CheckedList<'a> {
    /// The instances before the first piece that has a fault by itself.
    pub(crate) sound: OutlineList<'a>,
    /// That piece and those after it.
    pub(crate) rest: Vec<Checked<'a>>,
    ghost first: { BeginWithFault rest.items } by { BeginWithFault-prop rest.items },
}

impl<'a> CheckedList<'a> {
    ghost use Rattle.std.specs.Prelude.{◌≡◌, ◌≢◌, ◌⊎◌, ◌++◌, ◌∷◌, List, [], IfOk, OnOk};
    ghost use Rattle.p21_tree.specs.Views.{plain_instance};
    ghost use Rattle.p21_reader.specs.Values.{Value, whole};
    ghost use Rattle.p21_check.specs.LocalFault.{IsLocalFault};
    ghost use Rattle.p21_checker.specs.Begin.{HasFault};
    ghost use Rattle.p21_tree.specs.declared.instances.RawInstance.{RawInstance};
    ghost use Rattle.p21_check.specs.WalkPiece.{IsWalked};
    ghost use Rattle.p21_checker.specs.Checked.{Adds, IsEmpty, sound_value, value_of};

    /// No piece yet, with room for so many. It is refused for lack of memory alone.
    pub(crate) fn with_capacity(alloc: Global, count: usize) -> Result<CheckedList<'a>, AllocError>
        ensures { IfOk result IsEmpty }
    {
        Ok(CheckedList {
            sound: OutlineList::with_capacity(alloc, count)?,
            rest: Vec::new(alloc),
        })
    }

    /// Puts an instance after the others, with the fault that it has by itself. It is refused for lack of memory alone.
    #[inline(always)]
    pub(crate) fn push_instance(
        &mut self,
        schema: &Schema,
        instance: RawInstance<'a>,
    ) -> Result<(), AllocError>
        ensures { OnOk result ((own : _) × IsLocalFault schema.now (plain_instance instance.entry) own × Adds schema.now self.old (whole (record { instance = plain_instance instance.entry; own = own })) self.new) }
    {
        match check_local_entity(schema, &instance) {
            Ok(entity) if self.rest.is_empty() => self.sound.push(schema, entity, instance),
            Ok(_) => self.push(Checked::Whole(CheckedInstance::of(&instance, None))),
            Err(kind) => self.push(Checked::Whole(CheckedInstance::of(&instance, Some(kind)))),
        }
    }

    /// Puts an instance after the others, none of which has a fault by itself, where a walk over this piece passed it. It is refused for lack
    /// of memory alone.
    #[inline(always)]
    pub(crate) fn push_walked(
        &mut self,
        schema: &Schema,
        piece: Piece<'a>,
        walked: Walked,
    ) -> Result<(), AllocError>
        requires sound { self.old.rest.items ≡ [] }
        requires walked { (i : RawInstance) × IsWalked schema.now piece i walked }
        ensures { OnOk result ((i : RawInstance) × IsWalked schema.now piece.entry i walked × Adds schema.now self.old (sound_value i) self.new) }
    {
        self.sound.push_walked(schema, piece, walked)
    }

    /// Puts a piece after the others, which has a fault by itself or stands after one that has. It is refused for lack of memory alone.
    pub(crate) fn push(&mut self, one: Checked<'a>) -> Result<(), AllocError>
        requires { (self.old.rest.items ≢ []) ⊎ HasFault one }
        ensures { OnOk result ((s : _) → Adds s self.old (value_of one.entry) self.new) }
    {
        self.rest.push(one)?;
        Ok(())
    }
}
