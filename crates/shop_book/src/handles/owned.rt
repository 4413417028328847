//! The pointer that C holds.
ghost use Rattle.std.specs.Prelude.{◌≡◌, None, Some, Option, IsTrue, is_some};
ghost use Rattle.std.specs.Coded.{coded_option};
ghost use Rattle.shop_book.specs.Holding.{held_at};
ghost use Rattle.shop_book.specs.declared.handles.kept.Kept.{Kept};

use crate::handles::kept::Kept;
use crate::handles::loose::Loose;
use std::alloc::Global;
use std::marker::Model;
use std::ptr::null_mut;

/// The pointer of a box that C holds, or none. It is taken apart by the calls of this library alone, and never let go
/// while it is a box.
#[repr(C)]
#[derive(Drop)]
pub struct Owned {
    at: *mut u8,
    pub ghost held: { Option Kept },
}

impl Model for Owned {
    ghost use Rattle.shop_book.specs.Holding.{held_at};

    ghost also_owns = { λ o. held_at o.held o.at };
}

impl Owned {
    /// The pointer of a box.
    pub fn of(loose: Loose<Kept, Global>) -> Owned
        ensures { result.held ≡ Some loose.value }
    {
        let Loose { at, alloc: _ } = loose;
        Owned { at: at as *mut u8 }
    }

    /// The box that it is.
    pub fn into_loose(self, alloc: Global) -> Loose<Kept, Global>
        requires { IsTrue (is_some self.held) }
        ensures { self.held ≡ Some result.value }
    {
        let Owned { at } = self;
        Loose {
            at: at as *mut Kept,
            alloc,
        }
    }

    /// No box.
    pub fn none() -> Owned
        ensures { result.held ≡ None }
    {
        Owned { at: null_mut() }
    }
}
