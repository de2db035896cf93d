//! Growing an arena: by a token, or by the children of a node that is closed.
ghost use Rattle.std.specs.Prelude.{◌≡◌, ◌+◌, ◌≤◌, ◌<◌, ◌^◌, ◌++◌, [], ◌∷◌, length, take, drop, OnOk, OnErr, IfOk, string_bytes, slice_get};
ghost use Rattle.rowan_green.specs.Term.{tree_of, texts_of};
ghost use Rattle.rowan_green.specs.Arena.{IsSound, IsGrowing, IsWhole, items_in, terms_at, terms_over};
ghost use Rattle.rowan_green.specs.declared.utility_types.NodeOrToken.TheVariants.{Node, Token};

use crate::arena::{Arena, Entry, Record};
use std::alloc::{AllocError, Global};

/// The maximum number of bytes, of entries and of records.
const MOST: usize = u32::MAX as usize;

/// The maximum number of children of an [`Entry::Few`].
const MOST_FEW: usize = 255;

/// The maximum number of steps from an [`Entry::Few`] down to an entry that stores an end of its
/// text.
const MOST_STEPS: u32 = 8;

/// Appends `done[first..]` to `entries`. Most nodes have one child, which is pushed alone.
#[inline(always)]
fn push_rest(entries: &mut Vec<Entry>, done: &[Entry], first: usize) -> Result<(), AllocError>
    requires { first < length done.now }
    ensures ok { OnOk result (entries.new.items ≡ entries.old.items ++ drop first done.now) }
    ensures err { OnErr result (entries.new.items ≡ entries.old.items) }
{
    if done.len() - first == 1 {
        entries.push(done[first])?;
        return Ok(());
    }
    entries.extend_from_slice(&done[first..])?;
    Ok(())
}

impl Arena {
    /// Returns an arena without entries.
    pub(crate) fn new(alloc: Global) -> Arena
        ensures growing { IsGrowing result [] }
        ensures whole { IsWhole result }
    {
        Arena {
            text: String::new(alloc),
            entries: Vec::new(alloc),
            records: Vec::new(alloc),
            used: 0,
        }
    }

    /// Appends a token: its text to the arena's text, its entry to `done`, the entries that have no
    /// parent yet.
    ///
    /// # Errors
    ///
    /// [`AllocError`] if an allocation fails, or if the arena would hold 2^32 bytes or records.
    ///
    /// On error, the terms are unchanged.
    pub(crate) fn push_token(
        &mut self,
        done: &mut Vec<Entry>,
        kind: u16,
        text: &str,
    ) -> Result<(), AllocError>
        requires growing { IsGrowing self.old done.old.items }
        requires whole { IsWhole self.old }
        ensures growing { IsGrowing self.new done.new.items }
        ensures whole { IsWhole self.new }
        ensures ok { OnOk result (terms_over self.new done.new.items
            ≡ terms_over self.old done.old.items
            ++ Token (record { kind = kind; text = text.now }) ∷ []) }
        ensures err { OnErr result
            (terms_over self.new done.new.items ≡ terms_over self.old done.old.items) }
        ensures kept { OnErr result (terms_at (items_in self.new) ≡ terms_at (items_in self.old)) }
    {
        if text.len() > MOST - self.text.len() {
            return Err(AllocError);
        }
        if text.len() < 256 {
            self.push_short(done, kind, text)
        } else {
            self.push_long(done, kind, text)
        }
    }

    /// Appends a token of less than 256 bytes.
    fn push_short(&mut self, done: &mut Vec<Entry>, kind: u16, text: &str) -> Result<(), AllocError>
        requires growing { IsGrowing self.old done.old.items }
        requires whole { IsWhole self.old }
        requires short { length text.now < 256 }
        requires fits { length (string_bytes self.old.text) + length text.now < 2 ^ 32 }
        ensures growing { IsGrowing self.new done.new.items }
        ensures whole { IsWhole self.new }
        ensures ok { OnOk result (terms_over self.new done.new.items
            ≡ terms_over self.old done.old.items
            ++ Token (record { kind = kind; text = text.now }) ∷ []) }
        ensures err { OnErr result
            (terms_over self.new done.new.items ≡ terms_over self.old done.old.items) }
        ensures kept { OnErr result (terms_at (items_in self.new) ≡ terms_at (items_in self.old)) }
    {
        done.reserve(1)?;
        let start = self.text.len() as u32;
        self.text.push_str(text)?;
        let used = self.text.len() as u32;
        self.used = used;
        done.push(Entry::Short(text.len() as u8, kind, start))?;
        Ok(())
    }

    /// Appends a token with a record.
    #[cold]
    #[inline(never)]
    fn push_long(&mut self, done: &mut Vec<Entry>, kind: u16, text: &str) -> Result<(), AllocError>
        requires growing { IsGrowing self.old done.old.items }
        requires whole { IsWhole self.old }
        requires fits { length (string_bytes self.old.text) + length text.now < 2 ^ 32 }
        ensures growing { IsGrowing self.new done.new.items }
        ensures whole { IsWhole self.new }
        ensures ok { OnOk result (terms_over self.new done.new.items
            ≡ terms_over self.old done.old.items
            ++ Token (record { kind = kind; text = text.now }) ∷ []) }
        ensures err { OnErr result
            (terms_over self.new done.new.items ≡ terms_over self.old done.old.items) }
        ensures kept { OnErr result (terms_at (items_in self.new) ≡ terms_at (items_in self.old)) }
    {
        if self.records.len() >= MOST {
            return Err(AllocError);
        }
        done.reserve(1)?;
        self.records.reserve(1)?;
        let number = self.records.len() as u32;
        let record = Record {
            start: self.text.len() as u32,
            len: text.len() as u32,
            first: 0,
            count: 0,
        };
        self.text.push_str(text)?;
        let used = self.text.len() as u32;
        self.used = used;
        self.records.push(record)?;
        done.push(Entry::Long(kind, number))?;
        Ok(())
    }

    /// Replaces `done[first..]` by a node that has them as children. They become entries of the
    /// arena.
    ///
    /// # Errors
    ///
    /// [`AllocError`] if an allocation fails, or if the arena would hold 2^32 entries or records.
    ///
    /// On error, the terms are unchanged.
    #[inline(always)]
    pub(crate) fn close(
        &mut self,
        done: &mut Vec<Entry>,
        kind: u16,
        first: usize,
    ) -> Result<(), AllocError>
        requires growing { IsGrowing self.old done.old.items }
        requires within { first ≤ length done.old.items }
        ensures growing { IsGrowing self.new done.new.items }
        ensures text { string_bytes self.new.text ≡ string_bytes self.old.text }
        ensures used { self.new.used ≡ self.old.used }
        ensures ok { OnOk result (terms_over self.new done.new.items
            ≡ take first (terms_over self.old done.old.items)
            ++ Node (tree_of kind (drop first (terms_over self.old done.old.items))) ∷ []) }
        ensures err { OnErr result
            (terms_over self.new done.new.items ≡ terms_over self.old done.old.items) }
    {
        let count = done.len() - first;
        if count > MOST - self.entries.len() {
            return Err(AllocError);
        }
        if count > 0 && count <= MOST_FEW && self.has_near_ends(&done[first..]) {
            self.close_few(done, kind, first)
        } else {
            self.close_many(done, kind, first)
        }
    }

    /// Appends `done[at]`, a root, to the arena's entries, and returns its number there.
    ///
    /// # Errors
    ///
    /// [`AllocError`] if an allocation fails, or if the arena would hold 2^32 entries.
    ///
    /// On error, the arena's entries are unchanged.
    pub(crate) fn push_root(&mut self, done: &[Entry], at: usize) -> Result<u32, AllocError>
        requires growing { IsGrowing self.old done.now }
        requires within { at < length done.now }
        ensures growing { IsGrowing self.new done.now }
        ensures terms { terms_over self.new done.now ≡ terms_over self.old done.now }
        ensures root { IfOk result (λ n. slice_get (terms_at (items_in self.new)) n
            ≡ slice_get (terms_over self.old done.now) at) }
        ensures last { IfOk result (λ n. length self.new.entries.items ≡ n + 1) }
        ensures err { OnErr result (self.new.entries.items ≡ self.old.entries.items) }
    {
        let number = self.entries.len();
        if number >= MOST {
            return Err(AllocError);
        }
        self.entries.push(done[at])?;
        Ok(number as u32)
    }

    /// Releases the spare capacity.
    pub(crate) fn shrink(&mut self)
        requires { IsSound self.old [] }
        ensures sound { IsSound self.new [] }
        ensures terms { terms_at (items_in self.new) ≡ terms_at (items_in self.old) }
    {
        self.text.shrink_to_fit();
        self.entries.shrink_to_fit();
        self.records.shrink_to_fit();
    }

    /// Closes a node of 1 to 255 children without a record.
    #[inline(always)]
    fn close_few(
        &mut self,
        done: &mut Vec<Entry>,
        kind: u16,
        first: usize,
    ) -> Result<(), AllocError>
        requires growing { IsGrowing self.old done.old.items }
        requires some { first < length done.old.items }
        requires few { length done.old.items ≤ first + 255 }
        requires fits { length self.old.entries.items + length done.old.items < first + 2 ^ 32 }
        ensures growing { IsGrowing self.new done.new.items }
        ensures text { string_bytes self.new.text ≡ string_bytes self.old.text }
        ensures used { self.new.used ≡ self.old.used }
        ensures ok { OnOk result (terms_over self.new done.new.items
            ≡ take first (terms_over self.old done.old.items)
            ++ Node (tree_of kind (drop first (terms_over self.old done.old.items))) ∷ []) }
        ensures err { OnErr result
            (terms_over self.new done.new.items ≡ terms_over self.old done.old.items) }
    {
        let count = (done.len() - first) as u8;
        let at = self.entries.len() as u32;
        push_rest(&mut self.entries, done, first)?;
        done.truncate(first + 1);
        done[first] = Entry::Few(count, kind, at);
        Ok(())
    }

    /// Closes a node with a record.
    #[cold]
    #[inline(never)]
    fn close_many(
        &mut self,
        done: &mut Vec<Entry>,
        kind: u16,
        first: usize,
    ) -> Result<(), AllocError>
        requires growing { IsGrowing self.old done.old.items }
        requires within { first ≤ length done.old.items }
        requires fits { length self.old.entries.items + length done.old.items < first + 2 ^ 32 }
        ensures growing { IsGrowing self.new done.new.items }
        ensures text { string_bytes self.new.text ≡ string_bytes self.old.text }
        ensures used { self.new.used ≡ self.old.used }
        ensures ok { OnOk result (terms_over self.new done.new.items
            ≡ take first (terms_over self.old done.old.items)
            ++ Node (tree_of kind (drop first (terms_over self.old done.old.items))) ∷ []) }
        ensures err { OnErr result
            (terms_over self.new done.new.items ≡ terms_over self.old done.old.items) }
    {
        let number = self.records.len();
        if number >= MOST {
            return Err(AllocError);
        }
        let record = self.node_record(done, first);
        done.reserve(1)?;
        self.records.reserve(1)?;
        self.entries.extend_from_slice(&done[first..])?;
        self.records.push(record)?;
        done.truncate(first);
        done.push(Entry::Many(kind, number as u32))?;
        Ok(())
    }

    /// Returns the record of a node that has `done[first..]` as its children.
    fn node_record(&self, done: &[Entry], first: usize) -> Record
        requires growing { IsGrowing self.now done.now }
        requires within { first ≤ length done.now }
        requires fits { length self.now.entries.items + length done.now < first + 2 ^ 32 }
        ensures start { result.start
            ≡ length (texts_of (take first (terms_over self.now done.now))) }
        ensures end { result.start + result.len ≡ self.now.used }
        ensures first { result.first ≡ length self.now.entries.items }
        ensures count { result.count + first ≡ length done.now }
    {
        let start = self.start_from(done, first);
        let len = self.used - start;
        let count = done.len() - first;
        Record {
            start,
            len,
            first: self.entries.len() as u32,
            count: count as u32,
        }
    }

    /// Returns the offset, in the arena's text, at which the text of `done[first..]` starts.
    fn start_from(&self, done: &[Entry], first: usize) -> u32
        requires growing { IsGrowing self.now done.now }
        requires within { first ≤ length done.now }
        ensures { result ≡ length (texts_of (take first (terms_over self.now done.now))) }
    {
        if first < done.len() {
            self.start_of(done[first])
        } else {
            self.used
        }
    }

    /// Returns `true` if a node of these children would be at most [`MOST_STEPS`] steps away from
    /// both ends of its text.
    #[inline(always)]
    fn has_near_ends(&self, children: &[Entry]) -> bool
        requires sound { IsSound self.now children.now }
        requires some { 1 ≤ length children.now }
    {
        let near = self.is_start_near(children[0]);
        near && self.is_end_near(children[children.len() - 1])
    }

    /// Returns `true` if fewer than [`MOST_STEPS`] steps down first children lead to an entry that
    /// stores the start of its text.
    fn is_start_near(&self, entry: Entry) -> bool
        requires { IsSound self.now (entry ∷ []) }
    {
        let mut at = entry;
        'steps: for _step in 0..MOST_STEPS {
            match at {
                Entry::Few(_, _, first) => at = self.entries[first as usize],
                _ => return true,
            }
        }
        false
    }

    /// Returns `true` if fewer than [`MOST_STEPS`] steps down last children lead to an entry that
    /// stores the end of its text.
    fn is_end_near(&self, entry: Entry) -> bool
        requires { IsSound self.now (entry ∷ []) }
    {
        let mut at = entry;
        'steps: for _step in 0..MOST_STEPS {
            match at {
                Entry::Few(count, _, first) => {
                    let last = first as usize + count as usize - 1;
                    at = self.entries[last];
                }
                _ => return true,
            }
        }
        false
    }
}
