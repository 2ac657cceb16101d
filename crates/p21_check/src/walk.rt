//! The references in a parameter, from the left.

ghost use Rattle.std.specs.Prelude.{◌≡◌, ℕ, false, Option};
ghost use Rattle.p21_express.specs.Schema.{Schema as Declared};
ghost use Rattle.p21_tree.specs.Plain.{plain};
ghost use Rattle.p21_tree.specs.Sentence.{Instance};
ghost use Rattle.p21_tree.specs.Tree.{reference};
ghost use Rattle.p21_check.specs.References.{name_count};
ghost use Rattle.p21_check.specs.Wanted.{Asks, IsAsked};
ghost use Rattle.p21_check.specs.Walk.{FindsBad};

use crate::wanted::Wanted;
use p21_schema::Schema;
use p21_tree::{FaultKind, Param};

/// A reference that is at fault.
#[derive(Clone, Copy)]
pub(crate) enum Bad {
    /// No instance has the name.
    Missing(u64),
    /// The instance that has the name is of no entity that is wanted.
    Wrong(u64),
}

impl Bad {
    ghost use Rattle.p21_check.specs.Asked.{kind_at};

    /// The fault of a parameter, by its record and its place in it.
    pub(crate) fn at(self, rec: u64, attr: u64) -> FaultKind
        ensures { result ≡ kind_at rec attr self }
    {
        match self {
            Bad::Missing(name) => FaultKind::MissingReference { rec, attr, name },
            Bad::Wrong(name) => FaultKind::WrongReference { rec, attr, name },
        }
    }
}

/// The first reference that is at fault against one of two types.
#[derive(Clone, Copy)]
pub(crate) struct FirstBad {
    pub(crate) bad: Bad,
    /// Whether it is against the second type alone.
    pub(crate) second: bool,
}

/// What judges an instance name. `walk` calls itself, so its bound names no lifetime.
pub(crate) trait NameJudge {
    ghost table: { Self → Declared };

    ghost named: { Self → ℕ → Option Instance };

    /// Whether the name is answered as two types ask.
    fn judge(
        &self,
        schema: &Schema,
        first: Wanted<'_>,
        second: Wanted<'_>,
        name: u64,
    ) -> Result<(), FirstBad>
        requires table { table self.now ≡ schema.now }
        requires first { IsAsked schema.now first }
        requires second { IsAsked schema.now second }
        ensures { FindsBad schema.now (named self.now) (Asks schema.now first.entry (reference name)) (Asks schema.now second.entry (reference name)) result };
}

/// Looks for the first reference in a parameter that is at fault against one of two types.
pub(crate) fn walk<'s, J: NameJudge>(
    schema: &'s Schema,
    judge: &J,
    first: Wanted<'s>,
    second: Wanted<'s>,
    param: &Param<'_>,
) -> Result<(), FirstBad>
    requires table { J.table judge.now ≡ schema.now }
    requires first { IsAsked schema.now first }
    requires second { IsAsked schema.now second }
    ensures { FindsBad schema.entry.now (J.named judge.now) (Asks schema.entry.now first.entry (plain param.now)) (Asks schema.entry.now second.entry (plain param.now)) result }
{
    if first.is_nothing() && second.is_nothing() {
        return Ok(());
    }
    match param {
        Param::Ref(name) => judge.judge(schema, first, second, *name),
        Param::Items(items) => {
            let of_first = first.elements(schema);
            let of_second = second.elements(schema);
            // Lists of numbers are many and long.
            if of_first.is_nothing() && of_second.is_nothing() {
                return Ok(());
            }
            for item in items {
                if let Err(found) = walk(schema, judge, of_first, of_second, item) {
                    return Err(found);
                }
            }
            Ok(())
        }
        Param::Typed(keyword, inner) => {
            let in_first = first.inside(schema, keyword);
            let in_second = second.inside(schema, keyword);
            walk(schema, judge, in_first, in_second, inner)
        }
        _ => Ok(()),
    }
}

/// Whether an instance name may stand in the parameter.
pub(crate) fn may_refer(param: &Param<'_>) -> bool
    ensures { result ≡ false → name_count (plain param.now) ≡ 0 }
{
    matches!(param, Param::Ref(_) | Param::Items(_) | Param::Typed(_, _))
}
