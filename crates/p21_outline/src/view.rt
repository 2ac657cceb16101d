//! An outline with the schema by which it was made.

ghost use Rattle.std.specs.Prelude.{All};
ghost use Rattle.p21_outline.specs.Rows.{AreRows-prop, IsRow};

use crate::columns::{Held, entity_at};
use crate::outline::Outline;
use p21_check::{EntityOf, Named, Reference, check_references_among, references_decide};
use p21_schema::Schema;

/// The instances of an outline with their entities by a schema, all of them borrowed. It is made at no cost, where threads share its
/// parts.
#[derive(Clone, Copy)]
pub(crate) struct OutlineView<'s, 'o, 'a> {
    pub(crate) schema: &'s Schema,
    pub(crate) outline: &'o Outline<'a>,
    ghost known: { All (IsRow schema.now outline.now.columns.wholes.items) outline.now.columns.rows.items } by { AreRows-prop schema.now outline.now.columns.wholes.items outline.now.columns.rows.items },
}

impl<'s, 'o, 'a> OutlineView<'s, 'o, 'a> {
    ghost use Rattle.std.specs.Prelude.{◌≡◌};
    ghost use Rattle.p21_check.specs.EntityOf.{IsKnownAs};
    ghost use Rattle.p21_check.specs.References.{named_in};
    ghost use Rattle.p21_join.specs.Model.{plain_instances};
    ghost use Rattle.p21_outline.specs.Outline.{AreOutlined, outlined_instances};

    /// An outline with the schema by which it was made.
    pub(crate) fn of(schema: &'s Schema, outline: &'o Outline<'a>) -> OutlineView<'s, 'o, 'a>
        requires { AreOutlined schema.now outline.now }
        ensures schema { result.schema.now ≡ schema.entry.now }
        ensures outline { result.outline.now ≡ outline.entry.now }
    {
        OutlineView { schema, outline }
    }

    /// What is known of the instance of a name.
    pub(crate) fn named(self, name: u64) -> Named<'o, 'a>
        ensures { IsKnownAs self.entry.schema.now (named_in (plain_instances (outlined_instances self.entry.outline.now)) name) result }
    {
        let Some(place) = self.outline.places.place(name) else {
            return Named::Missing;
        };
        let columns = &self.outline.columns;
        match columns.rows[place].held {
            Held::Simple(entity) => Named::Simple(entity_at(self.schema, entity)),
            Held::Whole(at) => Named::Other(&columns.wholes[at as usize]),
        }
    }
}

/// Whether instances have a reference fault.
impl OutlineView<'_, '_, '_> {
    ghost use Rattle.std.specs.Prelude.{◌<◌, ◌↔◌, All, Any, IsTrue, MatchBool, length};
    ghost use Rattle.p21_check.specs.References.{named_in};
    ghost use Rattle.p21_check.specs.Referred.{IsReferenceOf, plain_reference};
    ghost use Rattle.p21_check.specs.Walk.{IsAnswered};
    ghost use Rattle.p21_join.specs.Model.{plain_instances};
    ghost use Rattle.p21_outline.specs.Faultiness.{IsFaultinessAt};
    ghost use Rattle.p21_outline.specs.Outline.{AreOutlined, outlined_instances};

    /// Whether the instance at a place has a reference fault.
    pub(crate) fn is_faulty(self, place: usize) -> bool
        requires outlined { AreOutlined self.schema.now self.outline.now }
        requires within { place < length (outlined_instances self.outline.now) }
        ensures { IsFaultinessAt self.entry.schema.now (plain_instances (outlined_instances self.entry.outline.now)) place result }
    {
        references_decide();
        let columns = &self.outline.columns;
        match columns.rows[place].held {
            Held::Simple(_) => !self.are_answered(columns.references_at(place)),
            Held::Whole(at) => {
                let whole = &columns.wholes[at as usize];
                check_references_among(self.schema, None, whole, &self).is_err()
            }
        }
    }

    /// Whether each of some references is answered as it is wanted.
    fn are_answered(self, references: &[Reference]) -> bool
        requires { All (IsReferenceOf self.schema.now) references.now }
        ensures { MatchBool result
            (All (λ r. IsAnswered self.entry.schema.now (named_in (plain_instances (outlined_instances self.entry.outline.now))) (plain_reference self.entry.schema.now r)) references.now)
            (Any (λ r. ¬ (IsAnswered self.entry.schema.now (named_in (plain_instances (outlined_instances self.entry.outline.now))) (plain_reference self.entry.schema.now r))) references.now) }
    {
        for reference in references {
            if !self.is_answered(reference) {
                return false;
            }
        }
        true
    }

    /// Whether a reference is answered as it is wanted.
    fn is_answered(self, reference: &Reference) -> bool
        requires { IsReferenceOf self.schema.now reference.now }
        ensures { IsTrue result ↔ IsAnswered self.entry.schema.now (named_in (plain_instances (outlined_instances self.entry.outline.now))) (plain_reference self.entry.schema.now reference.now) }
    {
        reference.is_answered(self.schema, self.named(reference.name))
    }
}

impl<'a> EntityOf<'a> for OutlineView<'_, '_, 'a> {
    ghost use Rattle.p21_check.specs.References.{named_in};
    ghost use Rattle.p21_join.specs.Model.{plain_instances};
    ghost use Rattle.p21_outline.specs.Outline.{outlined_instances};

    ghost table = { λ view. view.schema.now };

    ghost named = { λ view. named_in (plain_instances (outlined_instances view.outline.now)) };

    fn entity_of(&self, name: u64) -> Named<'_, 'a> {
        self.named(name)
    }
}
