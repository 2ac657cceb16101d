//! The schemas, models, rules and mended texts that handles lead to.

ghost use Rattle.std.specs.Prelude.{◌≡◌, IfSome};
ghost use Rattle.p21_c.specs.declared.held.Held.TheVariants as held;

use crate::handle::Handle;
use crate::held::{Held, HeldModel, HeldRules, HeldSchema};
use p21_mend::MendedText;

/// The model that a handle leads to; `None` where it leads to none.
pub(crate) fn model_in(handle: Handle) -> Option<&'static HeldModel>
    ensures { IfSome result (λ m. handle.held ≡ held.Model m.now) }
{
    match handle.get() {
        Some(Held::Model(held)) => Some(held),
        _ => None,
    }
}

/// The schema that a handle leads to; `None` where it leads to none.
pub(crate) fn schema_in(handle: Handle) -> Option<&'static HeldSchema> {
    match handle.get() {
        Some(Held::Schema(held)) => Some(held),
        _ => None,
    }
}

/// The rules that a handle leads to; `None` where it leads to none.
pub(crate) fn rules_in(handle: Handle) -> Option<&'static HeldRules> {
    match handle.get() {
        Some(Held::Rules(held)) => Some(held),
        _ => None,
    }
}

/// The mended text that a handle leads to; `None` where it leads to none.
pub(crate) fn mended_in(handle: Handle) -> Option<&'static MendedText> {
    match handle.get() {
        Some(Held::Mended(held)) => Some(held),
        _ => None,
    }
}
