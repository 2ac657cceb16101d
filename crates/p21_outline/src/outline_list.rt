//! The outlines of some instances on their way into those of a file.

ghost use Rattle.std.specs.Prelude.{◌≡◌, [], None, Some, OnErr, OnOk, map};
ghost use Rattle.p21_counts.specs.Counts.{capped, record_references};
ghost use Rattle.p21_check.specs.EntityOf.{IsSimpleEntity};
ghost use Rattle.p21_check.specs.LocalFault.{IsLocalFault};
ghost use Rattle.p21_check.specs.Referred.{AreReferencesOf};
ghost use Rattle.p21_tree.specs.Views.{plain_instance};
ghost use Rattle.p21_outline.specs.Columns.{Adds, IsAsItWas, instances_in};
ghost use Rattle.p21_outline.specs.PlacedName.{placed_name};

use crate::columns::Columns;
use crate::let_go::LetGo;
use crate::walked::push_passed;
use p21_check::{References, Walked, push_references};
use p21_counts::references_in;
use p21_schema::{EntityId, Schema};
use p21_tree::{Piece, RawInstance};
use smallvec::SmallVec;
use std::alloc::{AllocError, Global};

/// The name of an instance, and where it stands.
#[derive(Clone, Copy)]
pub struct PlacedName {
    /// The number of the name.
    pub name: u64,
    /// The place of the name, in bytes from the file's first byte.
    pub at: u64,
}

/// The outlines of instances that stand one after the other in a file, of which two may have one name.
#[derive(Drop)]
pub struct OutlineList<'a> {
    alloc: Global,
    names: Vec<PlacedName>,
    pub(crate) columns: Columns<'a>,
    ghost named: { names.items ≡ map placed_name (instances_in columns) },
}

impl<'a> OutlineList<'a> {
    ghost use Rattle.std.specs.Prelude.{◌∷◌, ◌++◌, IfOk};
    ghost use Rattle.p21_express.specs.Schema.{Schema};
    ghost use Rattle.p21_outline.specs.OutlineList.{AreListed, listed_instances};
    ghost use Rattle.p21_tree.specs.declared.instances.RawInstance.{RawInstance};
    ghost use Rattle.p21_check.specs.WalkPiece.{IsWalked};

    /// No outline yet, with room for so many. It is refused for lack of memory alone.
    pub fn with_capacity(alloc: Global, count: usize) -> Result<OutlineList<'a>, AllocError>
        ensures instances { IfOk result (λ list. listed_instances list ≡ []) }
        ensures fits { IfOk result (λ list. (s : Schema) → AreListed s list) }
    {
        Ok(OutlineList {
            alloc,
            names: Vec::with_capacity(alloc, count)?,
            columns: Columns::with_capacity(alloc, count)?,
        })
    }

    /// Puts the outline of an instance after the others. Its entity (`None` of a complex one) is known by the schema, and it has no fault
    /// by itself. A simple instance is let go; a complex one is kept whole. It is refused for lack of memory alone, as is an instance of an
    /// entity after 2^32 others of the schema, or one with which 2^32 references are kept; then what is kept is as it was.
    ///
    /// Cost: The names that are written in the instance, and, where there are any, as `push_references`. A list takes
    /// 60 bytes for each piece, and 16 for each reference that it has more than two for each of them.
    #[inline(always)]
    pub fn push(
        &mut self,
        schema: &Schema,
        entity: Option<EntityId>,
        instance: RawInstance<'a>,
    ) -> Result<(), AllocError>
        requires entity { IsSimpleEntity schema.now (plain_instance instance) entity }
        requires local { IsLocalFault schema.now (plain_instance instance) None }
        // The instance goes last.
        ensures instances { OnOk result (listed_instances self.new ≡ listed_instances self.old ++ instance.entry ∷ []) }
        // What was listed by this schema is so with it.
        ensures fits { OnOk result (AreListed schema.now self.old → AreListed schema.now self.new) }
        // A refusal leaves the instances as they were.
        ensures refused { OnErr result (listed_instances self.new ≡ listed_instances self.old) }
        // And what was listed by a schema is so still.
        ensures kept { OnErr result ((s : Schema) → AreListed s self.old → AreListed s self.new) }
    {
        self.names.reserve(1)?;
        let named = PlacedName {
            name: instance.name,
            at: instance.at,
        };
        push_instance(self.alloc, &mut self.columns, schema, entity, instance)?;
        self.names.push_reserved(named);
        Ok(())
    }

    /// Puts the outline of a simple instance after the others, which a walk over this piece passed, so that it was never built. It is refused
    /// as `push` refuses one; then what is kept is as it was.
    #[inline(always)]
    pub fn push_walked(
        &mut self,
        schema: &Schema,
        piece: Piece<'a>,
        walked: Walked,
    ) -> Result<(), AllocError>
        requires { (i : RawInstance) × IsWalked schema.now piece i walked }
        // The instance that the piece is goes last.
        ensures instances { OnOk result ((i : RawInstance) × IsWalked schema.now piece.entry i walked × (listed_instances self.new ≡ listed_instances self.old ++ i ∷ [])) }
        // What was listed by this schema is so with it.
        ensures fits { OnOk result (AreListed schema.now self.old → AreListed schema.now self.new) }
        // A refusal leaves the instances as they were.
        ensures refused { OnErr result (listed_instances self.new ≡ listed_instances self.old) }
        // And what was listed by a schema is so still.
        ensures kept { OnErr result ((s : Schema) → AreListed s self.old → AreListed s self.new) }
    {
        self.names.reserve(1)?;
        let named = PlacedName {
            name: walked.name,
            at: walked.at,
        };
        push_passed(&mut self.columns, schema, piece, walked)?;
        self.names.push_reserved(named);
        Ok(())
    }

    /// The names of the instances, in their order.
    pub fn names(&self) -> &[PlacedName]
        ensures { result.now ≡ map placed_name (listed_instances self.now) }
    {
        self.names.as_slice()
    }

    /// What is kept of them.
    pub(crate) fn into_columns(self) -> Columns<'a>
        ensures { result ≡ self.entry.columns }
    {
        let OutlineList {
            alloc: _,
            names: _names,
            columns,
        } = self;
        columns
    }
}

/// Puts what is kept of an instance after others: of a simple one its entity and its references; else the whole instance. Where it is
/// refused, what is kept is as it was.
#[inline(always)]
fn push_instance<'a>(
    alloc: Global,
    columns: &mut Columns<'a>,
    schema: &Schema,
    entity: Option<EntityId>,
    instance: RawInstance<'a>,
) -> Result<(), AllocError>
    requires entity { IsSimpleEntity schema.now (plain_instance instance) entity }
    requires local { IsLocalFault schema.now (plain_instance instance) None }
    ensures ok { OnOk result (Adds schema.now columns.old instance.entry columns.new) }
    ensures err { OnErr result (IsAsItWas columns.old columns.new) }
{
    let written = references_in(&instance);
    let Some(own) = entity else {
        return columns.push_whole(written, instance);
    };
    let mut references = SmallVec::new(alloc);
    push_written(schema, own, written, &instance, &mut references)?;
    let gone = LetGo::of(&instance);
    columns.push_simple(written, own, references.as_slice(), gone)
}

/// Adds the references of a simple instance of this entity, in which so many instance names are written, to none. Where no name is written,
/// as in points and directions, the schema is not asked.
fn push_written(
    schema: &Schema,
    own: EntityId,
    written: u64,
    instance: &RawInstance<'_>,
    into: &mut References,
) -> Result<(), AllocError>
    requires own { IsSimpleEntity schema.now (plain_instance instance.now) (Some own) }
    requires local { IsLocalFault schema.now (plain_instance instance.now) None }
    requires counted { written ≡ capped (record_references (plain_instance instance.now).records) }
    requires empty { into.old.items ≡ [] }
    ensures { OnOk result (AreReferencesOf schema.now (plain_instance instance.now) into.new.items) }
{
    if written == 0 {
        return Ok(());
    }
    push_references(schema, own, instance, into)
}
