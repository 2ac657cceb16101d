//! What C gives back.

ghost use Rattle.std.specs.Prelude.{◌≡◌, IfSome};
ghost use denote.RawPtr.{Testable};
ghost use Rattle.p21_c.specs.contracts.held.Held.{the_row};
ghost use Rattle.p21_c.specs.declared.held.Held.{Held};

use crate::held::Held;
use std::marker::Model;

/// The place of what a handle leads to, or null. C gives up what is there.
#[repr(C)]
#[derive(Drop)]
pub struct Owner {
    at: *mut u8,
    pub ghost held: { Held } by { the_row.coded },
    pub ghost comparable: { Testable at },
}

impl Model for Owner {
    ghost use Rattle.p21_c.specs.contracts.held.Held.{the_row};
    ghost use Rattle.p21_c.specs.Lent.{given};

    ghost also_owns = { λ o. given the_row o.at o.held };
}

impl Owner {
    /// What it leads to; `None` where it is null.
    pub(crate) fn get(self) -> Option<&'static mut Held>
        ensures { IfSome result (λ held. held.now ≡ self.held) }
    {
        let Owner { at } = self;
        if at == std::ptr::null_mut() {
            return None;
        }
        Some(unsafe { &mut *(at as *mut Held) })
    }
}
