//! Which declaration of a redeclared attribute counts for an instance.

ghost use Rattle.std.specs.Prelude.{◌++◌, ◌∷◌, [], List};
ghost use Rattle.p21_schema.specs.Declaration.{Declaration as Declared, AreResolvedIn, IsResolvedDeclaration};
ghost use Rattle.p21_check.specs.Sets.{HasEntity, IsSetOf};
ghost use Rattle.p21_check.specs.Bound.{IsBound};

use crate::entity_set::{EntitySet, is_below, is_in_set};
use p21_schema::{Declaration, Form, Schema};

/// What binds an attribute in an instance.
#[derive(Clone, Copy)]
pub(crate) enum Binding<'s> {
    /// An entity of the instance's set declares it in DERIVE.
    Derived,
    /// No entity of the set does, and this declaration stands below each other by one of the set.
    By(&'s Declaration),
    /// No entity of the set declares it.
    Free,
    /// No entity of the set declares it in DERIVE; its declarations have to be looked at one by one.
    Unsaid,
}

/// What binds an attribute of these declarations in an instance with this entity set, by one look at each declaration.
pub(crate) fn binding_of<'s>(
    schema: &Schema,
    set: &EntitySet<'_, '_>,
    declarations: &'s [Declaration],
) -> Binding<'s>
    requires set { IsSetOf schema.now set.now }
    requires declarations { (ds : List Declared) × AreResolvedIn schema.now declarations.now ds }
    ensures { (ds : List Declared) → AreResolvedIn schema.now declarations.entry.now ds → IsBound schema.now (HasEntity schema.now set.now) ds result }
{
    let mut so_far = Binding::Free;
    for declaration in declarations {
        so_far = with_next(schema, set, so_far, declaration);
    }
    so_far
}

/// What binds an attribute, with the next of its declarations. It is unsaid from the first two on that do not stand one below the
/// other.
fn with_next<'s>(
    schema: &Schema,
    set: &EntitySet<'_, '_>,
    so_far: Binding<'s>,
    next: &'s Declaration,
) -> Binding<'s>
    requires set { IsSetOf schema.now set.now }
    requires so_far { (ds : List Declared) × IsBound schema.now (HasEntity schema.now set.now) ds so_far }
    requires next { (d : Declared) × IsResolvedDeclaration schema.now next.now d }
    ensures { (ds : List Declared) → (d : Declared) → IsBound schema.now (HasEntity schema.now set.now) ds so_far.entry → IsResolvedDeclaration schema.now next.entry.now d → IsBound schema.now (HasEntity schema.now set.now) (ds ++ d ∷ []) result }
{
    if !is_in_set(schema, set, next.entity) {
        return so_far;
    }
    if let Form::Derived = next.form {
        return Binding::Derived;
    }
    match so_far {
        Binding::Free => Binding::By(next),
        Binding::By(lowest) => {
            if is_below(schema, next.entity, lowest.entity) {
                Binding::By(next)
            } else if is_below(schema, lowest.entity, next.entity) {
                so_far
            } else {
                Binding::Unsaid
            }
        }
        Binding::Derived => Binding::Derived,
        Binding::Unsaid => Binding::Unsaid,
    }
}
