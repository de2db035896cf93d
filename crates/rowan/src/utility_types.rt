//! Events of a walk, directions, and the tokens at an offset.
ghost use Rattle.std.specs.Prelude.{◌≡◌, ⊤};
ghost use Rattle.rowan.specs.Walk.{MatchEvent};
ghost use Rattle.rowan.specs.Touching.{MatchTokens, MapsTokens, leftmost, rightmost};

use std::iter::{ExactSizeIterator, FusedIterator};
use std::mem;

/// An event of a walk: the walk enters an element, or leaves it.
#[derive(Clone, Copy, PartialEq, Eq, Hash, Debug, Drop)]
pub enum WalkEvent<T> {
    Enter(T),
    Leave(T),
}

impl<T> WalkEvent<T> {
    /// Returns the event with `f` applied to its element.
    pub fn map<U, F: FnOnce(T) -> U>(self, f: F) -> WalkEvent<U>
        requires { MatchEvent self (F.pre f) (F.pre f) }
        ensures { MatchEvent self (λ x. MatchEvent result (F.post f x) (λ _. ⊥))
            (λ x. MatchEvent result (λ _. ⊥) (F.post f x)) }
    {
        match self {
            WalkEvent::Enter(element) => WalkEvent::Enter(f(element)),
            WalkEvent::Leave(element) => WalkEvent::Leave(f(element)),
        }
    }
}

/// The direction in which siblings are visited.
#[derive(Clone, Copy, PartialEq, Eq, Hash, Debug)]
pub enum Direction {
    Next,
    Prev,
}

/// The tokens at an offset: none, one, or two with the offset between them. As an iterator it
/// yields them in order.
#[derive(Clone, Debug, Drop)]
pub enum TokenAtOffset<T> {
    None,
    Single(T),
    Between(T, T),
}

impl<T> TokenAtOffset<T> {
    /// Returns the tokens with `f` applied to each of them.
    pub fn map<U, F: Fn(T) -> U>(self, f: F) -> TokenAtOffset<U>
        requires { MatchTokens self ⊤ (F.pre f) (λ x y. F.pre f x × F.pre f y) }
        ensures { MapsTokens (F.post f) self result }
    {
        match self {
            TokenAtOffset::None => TokenAtOffset::None,
            TokenAtOffset::Single(token) => TokenAtOffset::Single(f(token)),
            TokenAtOffset::Between(left, right) => TokenAtOffset::Between(f(left), f(right)),
        }
    }

    /// Returns the only token, or the right one of two.
    pub fn right_biased(self) -> Option<T>
    where
        T: Drop,
        ensures { result ≡ rightmost self }
    {
        match self {
            TokenAtOffset::None => None,
            TokenAtOffset::Single(token) => Some(token),
            TokenAtOffset::Between(_, right) => Some(right),
        }
    }

    /// Returns the only token, or the left one of two.
    pub fn left_biased(self) -> Option<T>
    where
        T: Drop,
        ensures { result ≡ leftmost self }
    {
        match self {
            TokenAtOffset::None => None,
            TokenAtOffset::Single(token) => Some(token),
            TokenAtOffset::Between(left, _) => Some(left),
        }
    }
}

impl<T: Drop> Iterator for TokenAtOffset<T> {
    type Item = T;

    ghost use Rattle.std.specs.Prelude.{◌≡◌, length, Some, IfSome};
    ghost use Rattle.std.specs.Iterator.{YieldsFirst, item_count, UpTo, at_most};
    ghost use Rattle.std.specs.Iterator.SizeHint.{IsWithinCount};
    ghost use Rattle.rowan.specs.Touching.{listed};

    ghost next_gives = { YieldsFirst listed };

    ghost remaining = { item_count listed };

    fn next(&mut self) -> Option<T> {
        match mem::replace(self, TokenAtOffset::None) {
            TokenAtOffset::None => None,
            TokenAtOffset::Single(token) => Some(token),
            TokenAtOffset::Between(left, right) => {
                *self = TokenAtOffset::Single(right);
                Some(left)
            }
        }
    }

    fn size_hint(&self) -> (usize, Option<usize>)
        ensures lower { IsWithinCount result.0 (at_most (length (listed self.now))) }
        ensures upper { IfSome result.1 (UpTo (at_most (length (listed self.now)))) }
        ensures exact { (result.0 ≡ length (listed self.now))
            × (result.1 ≡ Some (length (listed self.now))) }
    {
        let len = self.len();
        (len, Some(len))
    }
}

impl<T: Drop> ExactSizeIterator for TokenAtOffset<T> {
    fn len(&self) -> usize {
        match self {
            TokenAtOffset::None => 0,
            TokenAtOffset::Single(_) => 1,
            TokenAtOffset::Between(_, _) => 2,
        }
    }
}

impl<T: Drop> FusedIterator for TokenAtOffset<T> {}
