//! Handles: what C holds of a schema or a model.

ghost use Rattle.std.specs.Prelude.{◌≡◌, IfSome};
ghost use denote.RawPtr.{Testable};
ghost use Rattle.p21_c.specs.contracts.held.Held.{the_row};
ghost use Rattle.p21_c.specs.declared.held.Held.{Held};

use crate::held::Held;
use std::marker::{Model, Send};

/// The place of what a handle leads to, or null. For the time of a call, C lends what is there.
#[repr(C)]
#[derive(Drop)]
pub struct Handle {
    at: *const u8,
    pub ghost held: { Held } by { the_row.coded },
    pub ghost comparable: { Testable at },
}

impl Model for Handle {
    ghost use Rattle.p21_c.specs.contracts.held.Held.{the_row};
    ghost use Rattle.p21_c.specs.Lent.{lent};

    ghost also_owns = { λ h. lent the_row h.at h.held };
}

// What it leads to may be looked at by several threads at once.
unsafe impl Send for Handle {}

impl Handle {
    /// What it leads to; `None` where it is null.
    pub(crate) fn get(self) -> Option<&'static Held>
        ensures { IfSome result (λ held. held.now ≡ self.held) }
    {
        let Handle { at } = self;
        if at == std::ptr::null() {
            return None;
        }
        Some(unsafe { &*(at as *const Held) })
    }
}
