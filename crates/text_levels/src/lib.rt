//! A bound on the levels that the reading of a text takes, counted over its tokens before it is read.
//!
//! Reading recurses where a token opens a level: a bracket, an operator, a keyword. A text that
//! would need more levels than [`LEVELS`] should not be read on a small stack: 2 MiB suffice for those
//! that need no more.
#![tactic(auto)]

ghost use Rattle.std.specs.Prelude.{◌≡◌, chars, nat_lt, IfOk};
ghost use Rattle.text_levels.specs.Levels.{LEVELS, levels};

mod counter;
mod token;

use counter::Counter;
use parser_input::{Edition, LexedStr};
use std::alloc::{AllocError, Global};

/// The greatest number of levels of a text that 2 MiB of stack suffice for.
pub const LEVELS: u64 = 5000;

/// Returns a bound on the levels that reading `text` takes.
///
/// # Errors
///
/// [`AllocError`] if an allocation fails.
#[tactic(auto, unfolding(crate::specs::Levels::levels))]
pub fn levels_of(alloc: Global, edition: Edition, text: &str) -> Result<u64, AllocError>
    ensures { IfOk result (λ found. found ≡ levels edition (chars text.now)) }
{
    let leaves = LexedStr::new(alloc, edition, text)?;
    let mut counter = Counter::new(alloc);
    for i in 0..leaves.len() {
        counter.count(leaves.kind(i))?;
    }
    Ok(counter.greatest())
}

/// Returns `true` if reading `text` may take more than [`LEVELS`] levels.
///
/// # Errors
///
/// [`AllocError`] if an allocation fails.
pub fn is_too_deep(alloc: Global, edition: Edition, text: &str) -> Result<bool, AllocError>
    ensures { IfOk result (λ deep. deep ≡ nat_lt LEVELS (levels edition (chars text.now))) }
{
    Ok(levels_of(alloc, edition, text)? > LEVELS)
}
