//! The caller's room for one document, which C sees as a number and an address.
ghost use Rattle.std.specs.Prelude.{◌≡◌, Option, None, Some, IsSome, is_some, ◌==◌};

use crate::hold::Hold;
use crate::kept::Kept;
use std::alloc::Global;
use std::mem;

/// The caller's room for one document. All bytes zero is a closed handle. Its holder copies no open
/// one, and reads and writes no member.
#[repr(C)]
#[derive(Drop)]
pub struct Handle {
    is_open: u64,
    pub hold: Hold,
    pub ghost agrees: { is_some hold.kept ≡ (is_open == 1) },
}

impl Handle {
    /// Returns a closed handle.
    pub fn closed(alloc: Global) -> Handle
        ensures { result.hold.kept ≡ None }
    {
        Handle {
            is_open: 0,
            hold: Hold::none(alloc),
        }
    }

    /// Returns `true` if it has a document.
    pub fn is_open(&self) -> bool
        ensures { result ≡ is_some self.now.hold.kept }
    {
        self.is_open == 1
    }

    /// Puts a document into a closed handle.
    pub fn fill(&mut self, kept: Box<Kept>)
        requires { self.old.hold.kept ≡ None }
        ensures { self.new.hold.kept ≡ Some kept.value }
    {
        let old = mem::replace(&mut self.hold, Hold::of(kept));
        self.is_open = 1;
        drop(old);
    }

    /// Takes the document out of an open handle, which is closed then.
    pub fn take(&mut self, alloc: Global) -> Box<Kept>
        requires { IsSome self.old.hold.kept }
        ensures value { self.old.hold.kept ≡ Some result.value }
        ensures closed { self.new.hold.kept ≡ None }
    {
        let hold = mem::replace(&mut self.hold, Hold::none(alloc));
        self.is_open = 0;
        hold.into_box()
    }
}
