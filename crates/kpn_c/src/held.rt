//! A box as a pointer that C keeps.
ghost use Rattle.std.specs.Prelude.{◌≡◌, Option, Some, None, IsSome};
ghost use Rattle.std.specs.Coded.{codes};
ghost use Rattle.kpn_lang.specs.Codes.{parts_code};
ghost use Rattle.kpn_c.specs.declared.slot.Slot.{Slot as Kept};

use crate::loose::Loose;
use crate::slot::Slot;
use std::alloc::Global;
use std::marker::Model;

/// A pointer to a box, or to nothing.
#[repr(C)]
#[derive(Drop)]
pub struct Held {
    at: *mut u8,
    alloc: Global,
    pub(crate) ghost slot: { Option Kept } by { Prim.hlevel (codes, parts_code) },
}

impl Model for Held {
    ghost use Rattle.kpn_c.specs.Holding.{owns_slot};

    ghost also_owns = { λ h. owns_slot h.alloc h.at h.slot };
}

impl Held {
    /// The pointer to a box.
    pub(crate) fn of(loose: Loose<Slot, Global>) -> Held
        ensures { result.slot ≡ Some loose.value }
    {
        let Loose { at, alloc } = loose;
        Held {
            at: at as *mut u8,
            alloc,
        }
    }

    /// The box again.
    pub(crate) fn into_loose(self) -> Loose<Slot, Global>
        requires { IsSome self.slot }
        ensures { Some result.value ≡ self.slot }
    {
        let Held { at, alloc } = self;
        Loose {
            at: at as *mut Slot,
            alloc,
        }
    }
}
