//! Which entity or SELECT a type asks for, where a parameter has a reference.

ghost use Rattle.std.specs.Prelude.{◌≡◌, ◌↔◌, true, List, ℕ, Some, None, IsTrue, map};
ghost use Rattle.p21_express.specs.Schema.{Schema, Expr, named};
ghost use Rattle.p21_tree.specs.Sentence.{Instance};
ghost use Rattle.p21_tree.specs.Views.{plain_instance, plain_record};
ghost use Rattle.p21_schema.specs.Place.{IsEntityOf, IsTypeOf, type_name};
ghost use Rattle.p21_check.specs.EntityOf.{IsKnownAs, IsSimpleEntity};
ghost use Rattle.p21_check.specs.Wanted.{by_names, is_name, IsAsked, IsAskedBy, IsAskedOfElements, IsAskedInside, Admits, IsNamed, IsMetBy, IsMetFrom};

use crate::entity_of::Named;
use p21_schema::{EntityId, Resolved, ResolvedExpr, Schema, Target, TypeId};
use p21_tree::{RawInstance, Record};

/// What a type asks of the references in a parameter.
#[derive(Clone, Copy)]
pub(crate) enum Wanted<'s> {
    /// There are none.
    Nothing,
    /// The parameter names an instance of the entity.
    Entity(EntityId),
    /// The parameter names an instance of an entity that the SELECT reaches, or is typed.
    Select(TypeId),
    /// The parameter is a list, and its elements are of the type.
    Elements(&'s ResolvedExpr),
}

/// What a type asks.
pub(crate) fn wanted_by<'s>(schema: &'s Schema, texpr: &'s ResolvedExpr) -> Wanted<'s>
    requires { (x : Expr) × (by_names schema.now texpr.now ≡ Some x) }
    ensures { (x : Expr) → by_names schema.entry.now texpr.entry.now ≡ Some x → IsAskedBy schema.entry.now x result }
{
    schema.fits();
    match texpr {
        ResolvedExpr::Named(target) => match *target {
            Target::Entity(entity) => Wanted::Entity(entity),
            Target::Defined(defined) => wanted_under(schema, defined),
        },
        _ => plainly_wanted(texpr),
    }
}

/// What stands under a type asks.
pub(crate) fn wanted_under(schema: &Schema, defined: TypeId) -> Wanted<'_>
    requires { IsTypeOf schema.now defined }
    ensures { IsAskedBy schema.entry.now (named (type_name schema.entry.now defined)) result }
{
    schema.fits();
    match schema.under(defined) {
        Resolved::Items(_) => Wanted::Nothing,
        Resolved::Select(_) => Wanted::Select(defined),
        Resolved::Plain(texpr) => plainly_wanted(texpr),
    }
}

/// What a type that is no name asks.
fn plainly_wanted(texpr: &ResolvedExpr) -> Wanted<'_>
    ensures { (s : Schema) (x : Expr) → by_names s texpr.entry.now ≡ Some x → ((n : List ℕ) → ¬ (x ≡ named n)) → IsAskedBy s x result }
{
    match texpr {
        ResolvedExpr::Array { item, .. }
        | ResolvedExpr::List { item, .. }
        | ResolvedExpr::Set { item, .. }
        | ResolvedExpr::Bag { item, .. } => Wanted::Elements(item),
        _ => Wanted::Nothing,
    }
}

impl<'s> Wanted<'s> {
    ghost use Rattle.p21_check.specs.declared.wanted.Wanted.TheVariants as asked;

    /// What is asked of the elements of a list.
    pub(crate) fn elements(self, schema: &'s Schema) -> Wanted<'s>
        requires { IsAsked schema.now self }
        ensures { IsAskedOfElements schema.entry.now self.entry result }
    {
        match self {
            Wanted::Elements(texpr) => wanted_by(schema, texpr),
            _ => Wanted::Nothing,
        }
    }

    /// What is asked of the parameter in a typed one.
    pub(crate) fn inside(self, schema: &'s Schema, keyword: &[u8]) -> Wanted<'s>
        requires { IsAsked schema.now self }
        ensures { IsAskedInside schema.entry.now self.entry result keyword.now }
    {
        match self {
            Wanted::Select(select) => match schema.select_has(select, keyword) {
                Some(defined) => wanted_under(schema, defined),
                None => Wanted::Nothing,
            },
            _ => Wanted::Nothing,
        }
    }

    /// Whether nothing is asked for.
    #[inline]
    pub(crate) fn is_nothing(self) -> bool
        ensures { IsTrue result ↔ (self.entry ≡ asked.Nothing) }
    {
        matches!(self, Wanted::Nothing)
    }

    /// Whether an instance name is asked for.
    #[inline]
    pub(crate) fn is_name(self) -> bool
        ensures { result ≡ is_name self.entry }
    {
        matches!(self, Wanted::Entity(_) | Wanted::Select(_))
    }

    /// Whether the instance of a name is of an entity that is wanted. None is wanted where no instance name is asked for.
    pub(crate) fn admits(self, schema: &Schema, named: Named<'_, '_>) -> bool
        requires asked { IsAsked schema.now self }
        requires known { (i : Instance) × IsKnownAs schema.now (Some i) named }
        ensures { (i : Instance) → IsKnownAs schema.now (Some i) named.entry → (IsTrue result ↔ Admits schema.now self.entry i) }
    {
        if !self.is_name() {
            return true;
        }
        schema.fits();
        match named {
            Named::Missing => false,
            Named::Simple(own) => self.is_met_from(schema, own),
            Named::Other(instance) => self.admits_records(schema, instance),
        }
    }

    /// Whether the instance is of an entity that is wanted, by its records: one of a complex instance names it, and the keyword
    /// of a simple one names no entity.
    fn admits_records(self, schema: &Schema, instance: &RawInstance<'_>) -> bool
        requires asked { IsAsked schema.now self }
        requires name { is_name self ≡ true }
        requires other { IsSimpleEntity schema.now (plain_instance instance.now) None }
        ensures { IsTrue result ↔ Admits schema.now self.entry (plain_instance instance.now) }
    {
        schema.fits();
        instance.complex && self.is_named(schema, instance.records.as_slice())
    }

    /// Whether one of the records names an entity that is wanted.
    fn is_named(self, schema: &Schema, records: &[Record<'_>]) -> bool
        requires { IsAsked schema.now self }
        ensures { IsTrue result ↔ IsNamed schema.now self.entry (map (λ e. e.keyword) (map plain_record records.now)) }
    {
        for record in records {
            if self.is_met_by(schema, record.keyword) {
                return true;
            }
        }
        false
    }

    /// Whether this is the name of an entity that is wanted.
    fn is_met_by(self, schema: &Schema, name: &[u8]) -> bool
        requires { IsAsked schema.now self }
        ensures { IsTrue result ↔ IsMetBy schema.now self.entry name.now }
    {
        schema.one_id();
        match schema.entity(name) {
            Some(own) => match self {
                Wanted::Entity(entity) => own == entity,
                Wanted::Select(select) => schema.select_reaches(select, own),
                _ => false,
            },
            None => false,
        }
    }

    /// Whether the entity or an ancestor of it is wanted.
    fn is_met_from(self, schema: &Schema, own: EntityId) -> bool
        requires asked { IsAsked schema.now self }
        requires own { IsEntityOf schema.now own }
        ensures { IsTrue result ↔ IsMetFrom schema.now self.entry own }
    {
        match self {
            Wanted::Entity(entity) => schema.is_a(own, entity),
            Wanted::Select(select) => schema.select_admits(select, own),
            _ => false,
        }
    }
}
