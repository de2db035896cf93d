//! Numbers that distinguish trees.
ghost use Rattle.std.specs.Prelude.{◌≡◌, ◌+◌, ◌^◌, IfOk, IfErr};

use crate::error::Spent;
use std::marker::Model;

/// A source of tree numbers, which returns each number once, up to 4,294,967,295. Model: the next
/// number, or 2^32 if none is left.
#[derive(Debug, Drop)]
pub struct TreeIds {
    next: u64,
}

impl Model for TreeIds {
    ghost use Rattle.std.specs.Prelude.{ℕ, ◌≤◌, ◌^◌};

    ghost Value = { ℕ };

    ghost view = { λ ids. ids.next };

    ghost invariant = { λ ids. ids.next ≤ 2 ^ 32 };
}

impl TreeIds {
    /// Creates a source whose first number is 1.
    pub fn new() -> TreeIds
        ensures { result ≡ 1 }
    {
        TreeIds { next: 1 }
    }

    /// Creates a source whose first number is `first`.
    pub fn starting_at(first: u32) -> TreeIds
        ensures { result ≡ first }
    {
        TreeIds {
            next: u64::from(first),
        }
    }

    /// Returns the next number, which is never returned again.
    ///
    /// # Errors
    ///
    /// Returns [`Spent`] if no tree number is left. On error, the source is unchanged.
    pub fn next(&mut self) -> Result<u32, Spent>
        ensures given { IfOk result (λ n. (n ≡ self.old) × (self.new ≡ self.old + 1)) }
        ensures spent { IfErr result (λ _. (self.old ≡ 2 ^ 32) × (self.new ≡ self.old)) }
    {
        if self.next > u64::from(u32::MAX) {
            return Err(Spent);
        }
        let number = self.next as u32;
        self.next += 1;
        Ok(number)
    }
}
