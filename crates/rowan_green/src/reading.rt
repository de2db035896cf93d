//! Reading an entry of an arena.
ghost use Rattle.std.specs.Prelude.{ℕ, ◌≡◌, ◌≤◌, ◌<◌, ◌^◌, ◌∷◌, [], length, take, slice_get};
ghost use Rattle.rowan_green.specs.Term.{kind_of, term_len, text_of, texts_of};
ghost use Rattle.rowan_green.specs.ChildAt.{IsChildAt};
ghost use Rattle.rowan_green.specs.Arena.{IsSound, IsRow, IsChildRange, item_in, items_in, items_over, item_end, term_in, terms_at, terms_over, child_terms};

use crate::arena::{Arena, Entry};
use crate::element_search::Place;

impl Arena {
    /// Returns the kind of an entry.
    pub(crate) fn kind(&self, entry: Entry) -> u16
        ensures { result ≡ kind_of (term_in self.now entry) }
    {
        match entry {
            Entry::Short(_, kind, _) => kind,
            Entry::Few(_, kind, _) => kind,
            Entry::Long(kind, _) => kind,
            Entry::Many(kind, _) => kind,
        }
    }

    /// Returns the offset, in the arena's text, at which the text of an entry starts.
    pub(crate) fn start_of(&self, entry: Entry) -> u32
        requires { IsSound self.now (entry ∷ []) }
        ensures { result ≡ (item_in self.now entry).start }
    {
        let mut at = entry;
        'down: loop {
            match at {
                Entry::Short(_, _, start) => return start,
                Entry::Few(_, _, first) => at = self.entries[first as usize],
                Entry::Long(_, number) => {
                    let record = self.records[number as usize];
                    return record.start;
                }
                Entry::Many(_, number) => {
                    let record = self.records[number as usize];
                    return record.start;
                }
            }
        }
    }

    /// Returns the offset, in the arena's text, at which the text of an entry ends.
    pub(crate) fn end_of(&self, entry: Entry) -> u32
        requires { IsSound self.now (entry ∷ []) }
        ensures { result ≡ item_end (item_in self.now entry) }
    {
        let mut at = entry;
        'down: loop {
            match at {
                Entry::Short(len, _, start) => return start + len as u32,
                Entry::Few(count, _, first) => {
                    let last = first as usize + count as usize - 1;
                    at = self.entries[last];
                }
                Entry::Long(_, number) => {
                    let record = self.records[number as usize];
                    return record.end();
                }
                Entry::Many(_, number) => {
                    let record = self.records[number as usize];
                    return record.end();
                }
            }
        }
    }

    /// Returns the length of the text of an entry, in bytes.
    pub(crate) fn text_len(&self, entry: Entry) -> u32
        requires { IsSound self.now (entry ∷ []) }
        ensures { result ≡ term_len (term_in self.now entry) }
    {
        let start = self.start_of(entry);
        self.end_of(entry) - start
    }

    /// Returns the text of an entry.
    pub(crate) fn text(&self, entry: Entry) -> &str
        requires { IsSound self.now (entry ∷ []) }
        ensures { result.now ≡ text_of (term_in self.now entry) }
    {
        let start = self.start_of(entry) as usize;
        let end = self.end_of(entry) as usize;
        &self.text.as_str()[start..end]
    }

    /// Returns the entry number of the first child, and the number of children. A token has none.
    pub(crate) fn child_range(&self, entry: Entry) -> (usize, usize)
        requires { IsSound self.now (entry ∷ []) }
        ensures { IsChildRange self.now entry result.0 result.1 }
    {
        match entry {
            Entry::Short(_, _, _) => (0, 0),
            Entry::Few(count, _, first) => (first as usize, count as usize),
            Entry::Long(_, _) => (0, 0),
            Entry::Many(_, number) => {
                let record = self.records[number as usize];
                (record.first as usize, record.count as usize)
            }
        }
    }

    /// Returns the children of an entry. A token has none.
    pub(crate) fn children(&self, entry: Entry) -> &[Entry]
        requires { IsSound self.now (entry ∷ []) }
        ensures sound { IsSound self.now result.now }
        ensures children { terms_over self.now result.now ≡ child_terms (term_in self.now entry) }
        ensures row { IsRow (item_in self.now entry).start (items_over self.now result.now) }
        ensures count { length result.now < 2 ^ 32 }
    {
        let (first, count) = self.child_range(entry);
        &self.entries[first..first + count]
    }

    /// Returns the entry at `number`.
    pub(crate) fn entry(&self, number: u32) -> Entry
        requires sound { IsSound self.now [] }
        requires within { number < length self.now.entries.items }
        ensures sound { IsSound self.now (result ∷ []) }
        ensures term { slice_get (terms_at (items_in self.now)) number
            ≡ Some (term_in self.now result) }
    {
        self.entries[number as usize]
    }

    /// Returns the offset of a child's text in the text of its node, in bytes. That text starts at
    /// `start`.
    pub(crate) fn child_start(&self, children: &[Entry], start: u32, index: usize) -> u32
        requires sound { IsSound self.now children.now }
        requires row { IsRow start (items_over self.now children.now) }
        requires within { index < length children.now }
        ensures { result ≡ length (texts_of (take index (terms_over self.now children.now))) }
    {
        let child_start = self.start_of(children[index]);
        child_start - start
    }

    /// Returns the place of the child whose text has the byte at `offset` of the children's joined
    /// text. That text starts at `start` in the arena's text. Each step halves the range of
    /// children and reads one start.
    pub(crate) fn find_child(&self, children: &[Entry], start: u32, offset: u32) -> Place
        requires sound { IsSound self.now children.now }
        requires row { IsRow start (items_over self.now children.now) }
        requires count { length children.now < 2 ^ 32 }
        requires inside { offset < length (texts_of (terms_over self.now children.now)) }
        ensures place { IsChildAt (terms_over self.now children.now) offset
            result.index result.start }
        ensures looks { (digits : ℕ) → length children.now ≤ 2 ^ digits → result.looks ≤ digits }
    {
        let target = start + offset;
        let mut low = 0;
        let mut low_start = start;
        let mut high = children.len();
        let mut looks = 0;
        'halve: while high - low > 1 {
            let middle = low + (high - low) / 2;
            let middle_start = self.start_of(children[middle]);
            looks += 1;
            if middle_start <= target {
                low = middle;
                low_start = middle_start;
                continue;
            }
            high = middle;
        }
        Place {
            index: low,
            start: low_start - start,
            looks,
        }
    }
}
