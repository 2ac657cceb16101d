//! The reference faults of the instances of an outline.

ghost use Rattle.std.specs.Prelude.{◌<◌, IfOk, MatchResult, None, Some, length};
ghost use Rattle.p21_tree.specs.Views.{plain_instance};
ghost use Rattle.p21_check.specs.LocalFault.{IsLocalFault};
ghost use Rattle.p21_check.specs.References.{IsReferenceFault, named_in};
ghost use Rattle.p21_join.specs.Model.{plain_instances};
ghost use Rattle.p21_outline.specs.Faultiness.{AreFaultinesses, IsFaultinessAt};

use crate::outline::Outline;
use crate::view::OutlineView;
use p21_check::{check_references_among, simple_entity};
use p21_schema::Schema;
use p21_tree::{FaultKind, RawInstance};
use rayon::prelude::*;
use std::alloc::{AllocError, Global};
use std::thread::Threads;

impl<'a> Outline<'a> {
    ghost use Rattle.p21_outline.specs.Outline.{AreOutlined, outlined_instances};

    /// Whether each instance has a reference fault among all of them, in their order, looked for by as many threads as there are
    /// processors. The outline was made by this schema. It is refused for lack of memory alone.
    pub fn faultiness<R: Threads + Sync>(
        &self,
        rt: &R,
        alloc: Global,
        schema: &Schema,
    ) -> Result<Vec<bool>, AllocError>
        requires { AreOutlined schema.now self.now }
        ensures { IfOk result (λ faulty. AreFaultinesses schema.now (plain_instances (outlined_instances self.now)) faulty.items) }
    {
        let view = OutlineView::of(schema, self);
        (0..self.len())
            .into_par_iter()
            .map(
                move |place: usize| -> bool
                    requires { AreOutlined view.schema.now view.outline.now × (place < length (outlined_instances view.outline.now)) }
                    ensures { IsFaultinessAt view.entry.schema.now (plain_instances (outlined_instances view.entry.outline.now)) place result }
                { view.is_faulty(place) },
            )
            .collect(rt, alloc)
    }

    /// The first reference of an instance that is at fault among the instances of the outline, as `check_references` finds it. The
    /// instance has no fault by itself, and the outline was made by this schema.
    pub fn reference_fault(
        &self,
        schema: &Schema,
        instance: &RawInstance<'_>,
    ) -> Result<(), FaultKind>
        requires outlined { AreOutlined schema.now self.now }
        requires local { IsLocalFault schema.now (plain_instance instance.now) None }
        // By the order of record, attribute and place; none exactly where each reference is answered.
        ensures { MatchResult result
            (λ _. IsReferenceFault schema.now (named_in (plain_instances (outlined_instances self.now))) (plain_instance instance.now) None)
            (λ kind. IsReferenceFault schema.now (named_in (plain_instances (outlined_instances self.now))) (plain_instance instance.now) (Some kind)) }
    {
        let view = OutlineView::of(schema, self);
        check_references_among(schema, simple_entity(schema, instance), instance, &view)
    }
}
