//! Whether an instance name leads to an instance of a type that is asked for.

ghost use Rattle.std.specs.Prelude.{◌≡◌, ℕ, Option, None};
ghost use Rattle.p21_express.specs.Schema.{Schema as Declared};
ghost use Rattle.p21_tree.specs.Sentence.{Instance};
ghost use Rattle.p21_tree.specs.Tree.{reference};
ghost use Rattle.p21_check.specs.EntityOf.{IsKnownAs};
ghost use Rattle.p21_check.specs.Wanted.{Asks, IsAsked};
ghost use Rattle.p21_check.specs.Walk.{FindsBad};

use crate::entity_of::{EntityOf, Named, by_keyword};
use crate::references::TypeOf;
use crate::walk::{Bad, FirstBad, NameJudge};
use crate::wanted::Wanted;
use p21_schema::Schema;
use std::marker::PhantomData;

/// Instances by their names, with their entities.
#[derive(Drop)]
pub(crate) struct Entities<'m, 'a, M> {
    pub(crate) among: &'m M,
    pub(crate) texts: PhantomData<&'a [u8]>,
}

impl<'m, 'a: 'm, M: EntityOf<'a>> NameJudge for Entities<'m, 'a, M> {
    ghost table = { λ a. M.table a.among.now };

    ghost named = { λ a. M.named a.among.now };

    #[inline]
    fn judge(
        &self,
        schema: &Schema,
        first: Wanted<'_>,
        second: Wanted<'_>,
        name: u64,
    ) -> Result<(), FirstBad> {
        judged(schema, first, second, name, self.among.entity_of(name))
    }
}

/// Instances by their names, whose entities are looked up by keyword.
#[derive(Drop)]
pub(crate) struct Keywords<'m, 'a, M> {
    pub(crate) schema: &'m Schema,
    pub(crate) model: &'m M,
    pub(crate) texts: PhantomData<&'a [u8]>,
}

impl<'m, 'a: 'm, M: TypeOf<'a>> NameJudge for Keywords<'m, 'a, M> {
    ghost table = { λ a. a.schema.now };

    ghost named = { λ a. M.named a.model.now };

    fn judge(
        &self,
        schema: &Schema,
        first: Wanted<'_>,
        second: Wanted<'_>,
        name: u64,
    ) -> Result<(), FirstBad> {
        let named = by_keyword(self.schema, self.model.find(name));
        judged(schema, first, second, name, named)
    }
}

/// Whether the name is answered as two types ask, by what is known of its instance.
fn judged(
    schema: &Schema,
    first: Wanted<'_>,
    second: Wanted<'_>,
    name: u64,
    named: Named<'_, '_>,
) -> Result<(), FirstBad>
    requires first { IsAsked schema.now first }
    requires second { IsAsked schema.now second }
    requires known { (found : Option Instance) × IsKnownAs schema.now found named }
    ensures { (by_name : ℕ → Option Instance) → IsKnownAs schema.now (by_name name) named.entry → FindsBad schema.now by_name (Asks schema.now first.entry (reference name)) (Asks schema.now second.entry (reference name)) result }
{
    if let Named::Missing = named {
        return missing(first, second, name);
    }
    let bad = Bad::Wrong(name);
    if !first.admits(schema, named) {
        return Err(FirstBad { bad, second: false });
    }
    if !second.admits(schema, named) {
        return Err(FirstBad { bad, second: true });
    }
    Ok(())
}

/// Where no instance has the name: the fault, if one of the two asks for the name.
fn missing(first: Wanted<'_>, second: Wanted<'_>, name: u64) -> Result<(), FirstBad>
    ensures { (s : Declared) (named : ℕ → Option Instance) → named name ≡ None → FindsBad s named (Asks s first.entry (reference name)) (Asks s second.entry (reference name)) result }
{
    let bad = Bad::Missing(name);
    if first.is_name() {
        return Err(FirstBad { bad, second: false });
    }
    if second.is_name() {
        return Err(FirstBad { bad, second: true });
    }
    Ok(())
}
