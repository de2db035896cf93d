//! Closing a root, which becomes an entry of its arena at once.
ghost use Rattle.std.specs.Prelude.{◌≡◌, [], ◌∷◌, OnOk, OnErr, string_bytes};
ghost use Rattle.rowan_green.specs.Term.{tree_of};
ghost use Rattle.rowan_green.specs.Arena.{IsGrowing, items_in, terms_at, terms_over};
ghost use Rattle.rowan_green.specs.FlatNode.{IsLast};
ghost use Rattle.rowan_green.specs.declared.utility_types.NodeOrToken.TheVariants.{Node};

use crate::arena::{Arena, Entry, Record};
use std::alloc::AllocError;

/// The maximum number of entries and of records.
const MOST: usize = u32::MAX as usize;

impl Arena {
    /// Replaces `done` by a node with all of it as children, and with a record. The children become
    /// entries of the arena, and the node becomes its last entry.
    ///
    /// # Errors
    ///
    /// [`AllocError`] if an allocation fails, or if the arena would hold 2^32 entries or records.
    ///
    /// On error, the terms are unchanged.
    #[cold]
    #[inline(never)]
    pub(crate) fn close_root(&mut self, done: &mut Vec<Entry>, kind: u16) -> Result<(), AllocError>
        requires growing { IsGrowing self.old done.old.items }
        ensures growing { IsGrowing self.new done.new.items }
        ensures text { string_bytes self.new.text ≡ string_bytes self.old.text }
        ensures used { self.new.used ≡ self.old.used }
        ensures ok { OnOk result (terms_over self.new done.new.items
            ≡ Node (tree_of kind (terms_over self.old done.old.items)) ∷ []) }
        ensures last { OnOk result (IsLast (terms_at (items_in self.new))
            (Node (tree_of kind (terms_over self.old done.old.items)))) }
        ensures err { OnErr result
            (terms_over self.new done.new.items ≡ terms_over self.old done.old.items) }
    {
        let number = self.records.len();
        let first = self.entries.len();
        let count = done.len();
        if number >= MOST || count >= MOST - first {
            return Err(AllocError);
        }
        let record = Record {
            start: 0,
            len: self.used,
            first: first as u32,
            count: count as u32,
        };
        done.reserve(1)?;
        self.records.reserve(1)?;
        self.entries.reserve(count + 1)?;
        self.entries.extend_from_slice(done)?;
        let root = Entry::Many(kind, number as u32);
        self.entries.push(root)?;
        self.records.push(record)?;
        done.clear();
        done.push(root)?;
        Ok(())
    }
}
