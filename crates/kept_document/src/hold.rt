//! What a box of a document owns, or nothing, behind a pointer whose type C may see.
ghost use Rattle.std.specs.Prelude.{◌≡◌, Option, None, Some, IsSome};
ghost use Rattle.kept_document.specs.Held.{Held, hold_owns, held_coded};

use crate::kept::Kept;
use boxed_parts::Parts;
use std::alloc::Global;
use std::marker::Model;

/// A box of a document, taken apart, or nothing.
#[repr(C)]
#[derive(Drop)]
pub struct Hold {
    at: *mut u8,
    alloc: Global,
    pub ghost kept: { Option Held } by { held_coded },
}

impl Model for Hold {
    ghost also_owns = { λ h. hold_owns h.alloc h.at h.kept };
}

impl Hold {
    /// Returns a hold of nothing.
    pub fn none(alloc: Global) -> Hold
        ensures { result.kept ≡ None }
    {
        Hold {
            at: std::ptr::null_mut(),
            alloc,
        }
    }

    fn of_parts(parts: Parts<Kept, Global>) -> Hold
        ensures { result.kept ≡ Some parts.value }
    {
        let Parts { ptr, alloc } = parts;
        Hold {
            at: ptr as *mut u8,
            alloc,
        }
    }

    fn into_parts(self) -> Parts<Kept, Global>
        requires { IsSome self.kept }
        ensures { self.kept ≡ Some result.value }
    {
        let Hold { at, alloc } = self;
        Parts {
            ptr: at as *mut Kept,
            alloc,
        }
    }

    /// Returns a hold of what a box owns.
    pub fn of(kept: Box<Kept>) -> Hold
        ensures { result.kept ≡ Some kept.value }
    {
        Hold::of_parts(Parts::of(kept))
    }

    /// Returns the box again.
    pub fn into_box(self) -> Box<Kept>
        requires { IsSome self.kept }
        ensures { self.kept ≡ Some result.value }
    {
        self.into_parts().into_box()
    }
}
