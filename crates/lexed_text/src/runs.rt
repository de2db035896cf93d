//! Runs of tokens, an index for finding a token boundary by its offset.

ghost use Rattle.std.specs.Prelude.{◌≡◌, ℕ, ◌+◌, ◌<◌, ◌≤◌, ◌^◌, [], take, drop, length, IfOk};
ghost use Rattle.std.specs.List.{sum_by};
ghost use Rattle.lexed_text.specs.Inside.{taken};
ghost use Rattle.lexed_text.specs.Runs.{run_tokens, RunsFrom};

use crate::replace::replace;
use rustc_lexer::Token;
use std::alloc::{AllocError, Global};

/// The number of tokens of a run; the last run of [`cut_runs`] has any number below twice as
/// many.
const RUN_TOKENS: usize = 1024;

/// A run of consecutive tokens.
#[derive(Clone, Copy)]
pub(crate) struct Run {
    /// The number of tokens.
    pub(crate) tokens: usize,

    /// The number of bytes of the tokens.
    pub(crate) bytes: usize,
}

/// A boundary between runs.
#[derive(Clone, Copy)]
pub(crate) struct RunPlace {
    /// The number of runs before it.
    pub(crate) run: usize,

    /// The number of tokens before it.
    pub(crate) count: usize,
}

/// Returns the last run boundary with at most `most` tokens before it.
pub(crate) fn last_within(runs: &[Run], most: usize) -> RunPlace
    ensures within { result.run ≤ length runs.now }
    ensures is_count { result.count ≡ run_tokens result.run runs.now }
    ensures low { result.count ≤ most }
{
    let mut at = RunPlace { run: 0, count: 0 };
    for run in runs {
        if run.tokens > most - at.count {
            return at;
        }
        at.run += 1;
        at.count += run.tokens;
    }
    at
}

/// Returns the first run boundary from `from` on with at least `least` tokens before it, or the
/// last boundary if there is none.
pub(crate) fn first_past(runs: &[Run], from: RunPlace, least: usize) -> RunPlace
    requires within { from.run ≤ length runs.now }
    requires is_count { from.count ≡ run_tokens from.run runs.now }
    requires fits { (i : ℕ) → i ≤ length runs.now → run_tokens i runs.now < 2 ^ 64 }
    ensures onward { from.run ≤ result.run }
    ensures within { result.run ≤ length runs.now }
    ensures is_count { result.count ≡ run_tokens result.run runs.now }
    ensures past { result.run < length runs.now → least ≤ result.count }
{
    let mut at = from;
    'runs: while at.run < runs.len() && at.count < least {
        at.count += runs[at.run].tokens;
        at.run += 1;
    }
    at
}

/// Returns the sum of the lengths of `tokens`, in bytes.
fn bytes_of(tokens: &[Token]) -> usize
    requires { sum_by (λ t. t.len) tokens.now < 2 ^ 64 }
    ensures { result ≡ sum_by (λ t. t.len) tokens.now }
{
    tokens.iter().map(|token| token.len).sum()
}

/// Reserves capacity for the runs of `lexed` tokens and of the tokens around them, in `runs` and in
/// the empty vector that it returns.
///
/// # Errors
///
/// [`AllocError`] if an allocation fails. The items of `runs` are unchanged in any case.
pub(crate) fn room_for(
    alloc: Global,
    runs: &mut Vec<Run>,
    lexed: usize,
) -> Result<Vec<Run>, AllocError>
    ensures room { IfOk result (λ v. v.items ≡ []) }
    ensures runs { runs.new.items ≡ runs.old.items }
{
    // (the tokens around fill fewer than seven)
    let count = lexed / RUN_TOKENS + 8;
    let room = Vec::with_capacity(alloc, count)?;
    runs.try_reserve(count)?;
    Ok(room)
}

/// Returns the runs of the tokens from `from` up to `to`, in the empty vector `room`.
///
/// # Errors
///
/// [`AllocError`] if an allocation fails.
pub(crate) fn cut_runs(
    room: Vec<Run>,
    tokens: &[Token],
    from: usize,
    to: usize,
) -> Result<Vec<Run>, AllocError>
    requires room { room.items ≡ [] }
    requires in_order { from ≤ to }
    requires within { to ≤ length tokens.now }
    requires fits { taken (length tokens.now) tokens.now < 2 ^ 64 }
    ensures runs { IfOk result (λ r. RunsFrom from (taken from tokens.now) r.items tokens.now) }
    ensures whole { IfOk result (λ r. from + run_tokens (length r.items) r.items ≡ to) }
{
    let mut runs = room;
    let mut at = from;
    'runs: while at < to {
        let end = if to - at < 2 * RUN_TOKENS {
            to
        } else {
            at + RUN_TOKENS
        };
        let bytes = bytes_of(&tokens[at..end]);
        let tokens = end - at;
        runs.push(Run { tokens, bytes })?;
        at = end;
    }
    Ok(runs)
}

/// Replaces the runs from `first` up to `next` with new runs of the tokens from `first` up to `to`.
/// If an allocation fails, drops the runs from `first` on: tokens without a run are searched one
/// by one. No allocation is needed if [`room_for`] reserved the capacity.
pub(crate) fn renew_runs(
    room: Vec<Run>,
    runs: &mut Vec<Run>,
    tokens: &[Token],
    first: RunPlace,
    next: RunPlace,
    to: usize,
)
    requires room { room.items ≡ [] }
    requires in_order { first.run ≤ next.run }
    requires within { next.run ≤ length runs.old.items }
    requires is_count { first.count ≡ run_tokens first.run runs.old.items }
    requires onward { first.count ≤ to }
    requires ends { to ≤ length tokens.now }
    requires fits { taken (length tokens.now) tokens.now < 2 ^ 64 }
    requires front { RunsFrom 0 0 (take first.run runs.old.items) tokens.now }
    requires back { RunsFrom to (taken to tokens.now) (drop next.run runs.old.items) tokens.now }
    ensures { RunsFrom 0 0 runs.new.items tokens.now }
{
    if let Ok(fresh) = cut_runs(room, tokens, first.count, to) {
        if let Ok(()) = replace(runs, first.run, next.run, &fresh) {
            return;
        }
    }
    runs.truncate(first.run);
}
