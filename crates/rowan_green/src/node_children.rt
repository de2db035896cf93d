//! An iterator over the children of a node.
ghost use Rattle.std.specs.Prelude.{◌≡◌, length, IfSome};
ghost use Rattle.std.specs.Iterator.{UpTo, at_most};
ghost use Rattle.std.specs.Iterator.SizeHint.{IsWithinCount};

use crate::element_ref::GreenElementRef;
use crate::flat_children::FlatChildren;
use crate::list_children::ListChildren;
use std::iter::{DoubleEndedIterator, ExactSizeIterator, FusedIterator};
use std::marker::Model;

/// A double-ended iterator over the children of a node, in order. Model: the remaining children.
#[derive(Drop)]
pub struct Children<'a> {
    rest: Rest<'a>,
}

/// The remaining children, in the form of their node.
#[derive(Drop)]
enum Rest<'a> {
    Flat(FlatChildren<'a>),
    Data(ListChildren<'a>),
}

impl<'a> Model for Children<'a> {
    ghost use Rattle.std.specs.Prelude.{List};
    ghost use Rattle.std.specs.Coded.{codes};
    ghost use Rattle.rowan_green.specs.Forest.{tree_code};
    ghost use Rattle.rowan_green.specs.Term.{Term};

    ghost Value = { List Term };

    ghost coded = { Prim.hlevel (codes, tree_code) };

    ghost use Rattle.rowan_green.specs.Rest.{terms_left};

    ghost view = { λ c. terms_left c.rest };
}

impl<'a> Children<'a> {
    /// Returns an iterator over the children of a node of an arena.
    pub(crate) fn of_flat(children: FlatChildren<'a>) -> Children<'a>
        ensures { result ≡ children.entry }
    {
        Children {
            rest: Rest::Flat(children),
        }
    }

    /// Returns an iterator over the elements of a list.
    pub(crate) fn of_list(children: ListChildren<'a>) -> Children<'a>
        ensures { result ≡ children.entry }
    {
        Children {
            rest: Rest::Data(children),
        }
    }
}

impl<'a> Iterator for Children<'a> {
    type Item = GreenElementRef<'a>;

    ghost use Rattle.std.specs.Iterator.{YieldsFirst, item_count};

    ghost next_gives = { YieldsFirst (λ s. s) };

    ghost remaining = { item_count (λ s. s) };

    fn next(&mut self) -> Option<GreenElementRef<'a>> {
        match &mut self.rest {
            Rest::Flat(children) => children.next(),
            Rest::Data(children) => children.next(),
        }
    }

    fn size_hint(&self) -> (usize, Option<usize>)
        ensures lower { IsWithinCount result.0 (at_most (length self.now)) }
        ensures upper { IfSome result.1 (UpTo (at_most (length self.now))) }
        ensures exact { (result.0 ≡ length self.now) × (result.1 ≡ Some (length self.now)) }
    {
        let len = self.len();
        (len, Some(len))
    }
}

impl<'a> DoubleEndedIterator for Children<'a> {
    ghost use Rattle.std.specs.Iterator.{YieldsLast};

    ghost next_back_gives = { YieldsLast (λ s. s) };

    fn next_back(&mut self) -> Option<GreenElementRef<'a>> {
        match &mut self.rest {
            Rest::Flat(children) => children.next_back(),
            Rest::Data(children) => children.next_back(),
        }
    }
}

impl<'a> ExactSizeIterator for Children<'a> {
    fn len(&self) -> usize {
        match &self.rest {
            Rest::Flat(children) => children.len(),
            Rest::Data(children) => children.len(),
        }
    }
}

impl<'a> FusedIterator for Children<'a> {}
