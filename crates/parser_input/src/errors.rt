//! The lexing errors of a text.

ghost use Rattle.std.specs.Prelude.{◌≡◌, ◌<◌, ◌+◌, [], ◌∷◌, MatchOption, length};
ghost use Rattle.parser_input.specs.Faults.{faults_from};
ghost use Rattle.parser_input.specs.Messages.{wording};

use crate::lexed_str::StoredLeaf;
use crate::message::Message;
use std::marker::Model;

// Returns the index and the error of the first leaf with an error, from index `start` on.
fn next_fault(leaves: &[StoredLeaf], start: usize) -> Option<(usize, Message)>
    ensures { MatchOption result (faults_from start leaves.now ≡ []) (λ f. (f.0 < length leaves.now)
        × (faults_from start leaves.now ≡ (f.0, wording f.1) ∷ faults_from (f.0 + 1) leaves.now)) }
{
    for i in start..leaves.len() {
        if let Some(message) = leaves[i].message {
            return Some((i, message));
        }
    }
    None
}

/// An iterator over the lexing errors of a text, in source order: the index of a leaf and its error
/// message. Model: the remaining items.
#[derive(Drop)]
pub struct Errors<'a> {
    leaves: &'a [StoredLeaf],
    next: usize,
}

impl<'a> Model for Errors<'a> {
    ghost use Rattle.std.specs.Prelude.{List, ℕ};
    ghost use Rattle.parser_input.specs.Faults.{faults_from};

    ghost Value = { List (ℕ × List ℕ) };

    ghost view = { λ e. faults_from e.next e.leaves.now };
}

impl<'a> Errors<'a> {
    pub(crate) fn of(leaves: &'a [StoredLeaf]) -> Errors<'a>
        ensures { result ≡ faults_from 0 leaves.entry.now }
    {
        Errors { leaves, next: 0 }
    }
}

impl<'a> Iterator for Errors<'a> {
    type Item = (usize, &'static str);

    ghost use Rattle.std.specs.Iterator.{YieldsFirstBy, item_count};
    ghost use Rattle.parser_input.specs.Faults.{fault_of};

    ghost next_gives = { YieldsFirstBy fault_of (λ e. e) };

    ghost remaining = { item_count (λ e. e) };

    fn next(&mut self) -> Option<(usize, &'static str)> {
        match next_fault(self.leaves, self.next) {
            Some((leaf, message)) => {
                self.next = leaf + 1;
                Some((leaf, message.text()))
            }
            None => {
                self.next = self.leaves.len();
                None
            }
        }
    }
}
