//! Runs: adjacent entries of an arena, as a leaf of a list of children.
ghost use Rattle.std.specs.Prelude.{ℕ, ◌≡◌, ◌+◌, ◌<◌, ◌≤◌, ◌^◌, length, take, IfOk, slice_index_or};
ghost use Rattle.rowan_green.specs.Term.{texts_of};
ghost use Rattle.rowan_green.specs.ChildAt.{IsChildAt};
ghost use Rattle.rowan_green.specs.Arena.{IsSound, items_in, items_over, piece};
ghost use Rattle.rowan_green.specs.Run.{IsRun, HasHeight, AreHalves, run_terms};

use crate::arena::{Arena, Entry};
use crate::element_list::height_for;
use crate::element_ref::GreenElementRef;
use crate::element_search::Place;
use crate::flat_ref::element_at;
use std::alloc::AllocError;
use std::marker::Model;
use std::rc::Rc;

/// The nodes and tokens of `count` adjacent entries of an arena, whose texts are adjacent too.
/// Model: the terms, and the height of a balanced list of as many.
#[derive(Drop)]
pub(crate) struct Run {
    height: u8,
    first: u32,
    count: u32,
    arena: Rc<Arena>,
}

impl Model for Run {
    ghost use Rattle.std.specs.Prelude.{ℕ, List};
    ghost use Rattle.std.specs.Coded.{codes};
    ghost use Rattle.rowan_green.specs.Forest.{tree_code};
    ghost use Rattle.rowan_green.specs.Term.{Term};

    ghost Value = { List Term × ℕ };

    ghost coded = { Prim.hlevel (codes, tree_code) };

    ghost use Rattle.rowan_green.specs.Run.{run_terms, IsRun, HasHeight};

    ghost view = { λ r. (run_terms r.arena.value r.first r.count, r.height) };

    ghost invariant = { λ r. IsRun r.arena.value r.first r.count × HasHeight r.count r.height };
}

impl Run {
    /// Returns the run of `count` entries, from number `first` on.
    pub(crate) fn of(arena: Rc<Arena>, first: usize, count: usize) -> Run
        requires run { IsRun arena.value first count }
        requires many { 8 ≤ count }
        ensures terms { result.0 ≡ run_terms arena.value first count }
        ensures height { HasHeight (length result.0) result.1 }
    {
        Run {
            height: height_for(count),
            first: first as u32,
            count: count as u32,
            arena,
        }
    }

    /// Returns the number of elements.
    pub(crate) fn len(&self) -> usize
        ensures { result ≡ length self.now.0 }
    {
        self.count as usize
    }

    /// Returns the number of times that the run can be halved.
    pub(crate) fn height(&self) -> u8
        ensures height { result ≡ self.now.1 }
        ensures fits { HasHeight (length self.now.0) self.now.1 }
        ensures low { self.now.1 < 32 }
    {
        self.height
    }

    /// Returns the length of the text of all elements, in bytes.
    pub(crate) fn text_len(&self) -> u32
        ensures { result ≡ length (texts_of self.now.0) }
    {
        self.arena.run_text_len(self.first, self.count)
    }

    /// Returns the element at `index`.
    pub(crate) fn at(&self, index: usize) -> GreenElementRef<'_>
        requires { index < length self.now.0 }
        ensures { result ≡ slice_index_or self.now.0 index result }
    {
        element_at(&self.arena, self.first + index as u32)
    }

    /// Returns the offset, in bytes, of the text of the element at `index` in the run's text.
    pub(crate) fn start_of(&self, index: usize) -> u32
        requires { index < length self.now.0 }
        ensures { result ≡ length (texts_of (take index self.now.0)) }
    {
        self.arena.run_start_of(self.first, self.count, index)
    }

    /// Returns the place of the element whose text has the byte at `offset`.
    pub(crate) fn place_at(&self, offset: u32) -> Place
        requires { offset < length (texts_of self.now.0) }
        ensures place { IsChildAt self.now.0 offset result.index result.start }
        ensures looks { result.looks ≤ self.now.1 + 4 }
    {
        self.arena.find_in_run(self.first, self.count, offset)
    }

    /// Returns the two halves of a run, which share the arena.
    ///
    /// # Errors
    ///
    /// [`AllocError`] if the reference count overflows.
    pub(crate) fn halves(&self) -> Result<(Run, Run), AllocError>
        requires { 1 ≤ self.now.1 }
        ensures { IfOk result (λ s. AreHalves self.now s.0 s.1) }
    {
        let half = self.count / 2;
        let front = Run {
            height: self.height - 1,
            first: self.first,
            count: half,
            arena: self.arena.clone()?,
        };
        let back = Run {
            height: self.height - 1,
            first: self.first + half,
            count: self.count - half,
            arena: self.arena.clone()?,
        };
        Ok((front, back))
    }
}

impl Arena {
    /// Returns the entries of a run.
    fn run_entries(&self, first: u32, count: u32) -> &[Entry]
        requires { IsRun self.now first count }
        ensures sound { IsSound self.now result.now }
        ensures items { items_over self.now result.now ≡ piece (items_in self.now) first count }
        ensures count { length result.now ≡ count }
    {
        let start = first as usize;
        &self.entries[start..start + count as usize]
    }

    /// Returns the length of the text of a run, in bytes.
    fn run_text_len(&self, first: u32, count: u32) -> u32
        requires run { IsRun self.now first count }
        requires some { 1 ≤ count }
        ensures { result ≡ length (texts_of (run_terms self.now first count)) }
    {
        let entries = self.run_entries(first, count);
        let start = self.start_of(entries[0]);
        self.end_of(entries[entries.len() - 1]) - start
    }

    /// Returns the offset, in bytes, of the text of an entry of a run in the text of the run.
    fn run_start_of(&self, first: u32, count: u32, index: usize) -> u32
        requires run { IsRun self.now first count }
        requires within { index < count }
        ensures { result ≡ length (texts_of (take index (run_terms self.now first count))) }
    {
        let entries = self.run_entries(first, count);
        let start = self.start_of(entries[0]);
        self.child_start(entries, start, index)
    }

    /// Returns the place of the entry of a run whose text has the byte at `offset` of the text of
    /// the run.
    fn find_in_run(&self, first: u32, count: u32, offset: u32) -> Place
        requires run { IsRun self.now first count }
        requires some { 1 ≤ count }
        requires inside { offset < length (texts_of (run_terms self.now first count)) }
        ensures place { IsChildAt (run_terms self.now first count) offset
            result.index result.start }
        ensures looks { (digits : ℕ) → count ≤ 2 ^ digits → result.looks ≤ digits }
    {
        let entries = self.run_entries(first, count);
        let start = self.start_of(entries[0]);
        self.find_child(entries, start, offset)
    }
}
