//! An iterator over the children of a node of an arena.
ghost use Rattle.std.specs.Prelude.{◌≡◌, ◌+◌, ◌≤◌, [], length, IfSome};
ghost use Rattle.std.specs.Iterator.{UpTo, at_most};
ghost use Rattle.std.specs.Iterator.SizeHint.{IsWithinCount};
ghost use Rattle.rowan_green.specs.Arena.{IsSound};
ghost use Rattle.rowan_green.specs.FlatRef.{terms_between};

use crate::arena::Arena;
use crate::element_ref::GreenElementRef;
use crate::flat_ref::element_at;
use std::iter::{DoubleEndedIterator, ExactSizeIterator, FusedIterator};
use std::marker::Model;
use std::rc::Rc;

/// A double-ended iterator over the children of a node of an arena, in order. Model: the remaining
/// children, which are the entries from number `start` to before `end`.
#[derive(Drop)]
pub(crate) struct FlatChildren<'a> {
    start: u32,
    end: u32,
    arena: &'a Rc<Arena>,
}

const _: () = prove!(size_of::<FlatChildren<'static>>() == 16);

impl<'a> Model for FlatChildren<'a> {
    ghost use Rattle.std.specs.Prelude.{List};
    ghost use Rattle.std.specs.Coded.{codes};
    ghost use Rattle.rowan_green.specs.Forest.{tree_code};
    ghost use Rattle.rowan_green.specs.Term.{Term};
    ghost use Rattle.rowan_green.specs.FlatRef.{IsEntryRange, terms_between};

    ghost Value = { List Term };

    ghost coded = { Prim.hlevel (codes, tree_code) };

    ghost view = { λ c. terms_between c.arena.now.value c.start c.end };

    ghost invariant = { λ c. IsEntryRange c.arena.now.value c.start c.end };
}

impl<'a> FlatChildren<'a> {
    /// Returns an iterator over the elements of `count` entries, from number `first` on.
    pub(crate) fn of(arena: &'a Rc<Arena>, first: usize, count: usize) -> FlatChildren<'a>
        requires sound { IsSound arena.now.value [] }
        requires within { first + count ≤ length arena.now.value.entries.items }
        ensures { result ≡ terms_between arena.now.value first (first + count) }
    {
        FlatChildren {
            start: first as u32,
            end: (first + count) as u32,
            arena,
        }
    }
}

impl<'a> Iterator for FlatChildren<'a> {
    type Item = GreenElementRef<'a>;

    ghost use Rattle.std.specs.Iterator.{YieldsFirst, item_count};

    ghost next_gives = { YieldsFirst (λ s. s) };

    ghost remaining = { item_count (λ s. s) };

    fn next(&mut self) -> Option<GreenElementRef<'a>> {
        if self.start >= self.end {
            return None;
        }
        let first = element_at(self.arena, self.start);
        self.start += 1;
        Some(first)
    }

    fn size_hint(&self) -> (usize, Option<usize>)
        ensures lower { IsWithinCount result.0 (at_most (length self.now)) }
        ensures upper { IfSome result.1 (UpTo (at_most (length self.now))) }
        ensures exact { (result.0 ≡ length self.now) × (result.1 ≡ Some (length self.now)) }
    {
        let len = self.len();
        (len, Some(len))
    }
}

impl<'a> DoubleEndedIterator for FlatChildren<'a> {
    ghost use Rattle.std.specs.Iterator.{YieldsLast};

    ghost next_back_gives = { YieldsLast (λ s. s) };

    fn next_back(&mut self) -> Option<GreenElementRef<'a>> {
        if self.start >= self.end {
            return None;
        }
        self.end -= 1;
        Some(element_at(self.arena, self.end))
    }
}

impl<'a> ExactSizeIterator for FlatChildren<'a> {
    fn len(&self) -> usize {
        (self.end - self.start) as usize
    }
}

impl<'a> FusedIterator for FlatChildren<'a> {}
