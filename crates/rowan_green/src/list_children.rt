//! An iterator over the elements of a list.
ghost use Rattle.std.specs.Prelude.{◌≡◌, length, IfSome};
ghost use Rattle.std.specs.Iterator.{UpTo, at_most};
ghost use Rattle.std.specs.Iterator.SizeHint.{IsWithinCount};

use crate::element_list::ElementList;
use crate::element_ref::GreenElementRef;
use std::iter::{DoubleEndedIterator, ExactSizeIterator, FusedIterator};
use std::marker::Model;

/// A double-ended iterator over the elements of a list, in order. Model: the remaining elements.
#[derive(Drop)]
pub(crate) struct ListChildren<'a> {
    all: &'a ElementList,
    start: usize,
    end: usize,
}

impl<'a> Model for ListChildren<'a> {
    ghost use Rattle.std.specs.Prelude.{List, ◌≤◌, length, take, drop};
    ghost use Rattle.std.specs.Coded.{codes};
    ghost use Rattle.rowan_green.specs.Forest.{tree_code};
    ghost use Rattle.rowan_green.specs.Term.{Term};

    ghost Value = { List Term };

    ghost coded = { Prim.hlevel (codes, tree_code) };

    ghost view = { λ c. drop c.start (take c.end c.all.now.0) };

    ghost invariant = { λ c. (c.start ≤ c.end) × (c.end ≤ length c.all.now.0) };
}

impl<'a> ListChildren<'a> {
    /// Returns an iterator over the elements of a list.
    pub(crate) fn of(children: &'a ElementList) -> ListChildren<'a>
        ensures { result ≡ children.entry.now.0 }
    {
        ListChildren {
            all: children,
            start: 0,
            end: children.len(),
        }
    }
}

impl<'a> Iterator for ListChildren<'a> {
    type Item = GreenElementRef<'a>;

    ghost use Rattle.std.specs.Iterator.{YieldsFirst, item_count};

    ghost next_gives = { YieldsFirst (λ s. s) };

    ghost remaining = { item_count (λ s. s) };

    fn next(&mut self) -> Option<GreenElementRef<'a>> {
        if self.start >= self.end {
            return None;
        }
        let first = self.all.at(self.start);
        self.start += 1;
        Some(first)
    }

    fn size_hint(&self) -> (usize, Option<usize>)
        ensures lower { IsWithinCount result.0 (at_most (length self.now)) }
        ensures upper { IfSome result.1 (UpTo (at_most (length self.now))) }
        ensures exact { (result.0 ≡ length self.now) × (result.1 ≡ Some (length self.now)) }
    {
        let len = self.len();
        (len, Some(len))
    }
}

impl<'a> DoubleEndedIterator for ListChildren<'a> {
    ghost use Rattle.std.specs.Iterator.{YieldsLast};

    ghost next_back_gives = { YieldsLast (λ s. s) };

    fn next_back(&mut self) -> Option<GreenElementRef<'a>> {
        if self.start >= self.end {
            return None;
        }
        self.end -= 1;
        Some(self.all.at(self.end))
    }
}

impl<'a> ExactSizeIterator for ListChildren<'a> {
    fn len(&self) -> usize {
        self.end - self.start
    }
}

impl<'a> FusedIterator for ListChildren<'a> {}
