//! Whether a parser's steps are those of one tree over the leaves of a text.

ghost use Rattle.std.specs.Prelude.{◌≡◌, ◌≤◌, ◌<◌, ◌+◌, ◌==◌, ◌&&◌, ℕ, List, ◌∷◌, MatchOption, false, true, chars, drop, length, map};
ghost use Rattle.parser_input.specs.Input.{ends_in_dot};
ghost use Rattle.parser_input.specs.Kind.{raw_of};
ghost use Rattle.parser_input.specs.Kinds.{FLOAT_NUMBER};
ghost use Rattle.parser_input.specs.Lexed.{leaves_of};
ghost use Rattle.parser_events.specs.Fits.{covers, has_one_root, is_split_at, is_unbroken, leaves_root};
ghost use Rattle.parser_events.specs.Fitting.{Leads, Misfits};
ghost use Rattle.parser_events.specs.Seen.{step_of};
ghost use Rattle.parser_events.specs.Steps as steps;

use crate::step::Step;
use crate::step_list::Steps;
use crate::trivia::pending_end;
use parser_input::lexed_str::LexedStr;
use parser_input::syntax_kind::SyntaxKind;

/// Whether a step may be the first one of a tree with one root.
fn is_enter(step: Step) -> bool
    ensures { (rest : List steps.Step) → has_one_root (step_of step ∷ rest)
        ≡ (result && leaves_root 0 rest) }
{
    match step {
        Step::Enter { kind: _ } => true,
        Step::Token {
            kind: _,
            n_input_tokens: _,
        } => false,
        Step::FloatSplit { ends_in_dot: _ } => false,
        Step::Exit => false,
        Step::Error { msg: _ } => false,
    }
}

/// Returns `true` if the steps inside a root leave it by the last of them alone.
fn leaves_root(mut steps: Steps<'_>) -> bool
    ensures { result ≡ leaves_root 0 (map step_of steps.entry) }
{
    // There are no more levels than steps.
    let _most = steps.len();
    let mut level = 0usize;
    'steps: while let Some(step) = steps.take_first() {
        match step {
            Step::Enter { kind: _ } => level += 1,
            Step::Exit => {
                if level == 0 {
                    return steps.len() == 0;
                }
                level -= 1;
            }
            Step::FloatSplit { ends_in_dot: _ } => {
                if level == 0 {
                    return false;
                }
                level -= 1;
            }
            Step::Token {
                kind: _,
                n_input_tokens: _,
            } => {}
            Step::Error { msg: _ } => {}
        }
    }
    false
}

/// Returns `true` if one node is around all steps.
pub(crate) fn has_one_root(mut steps: Steps<'_>) -> bool
    ensures { result ≡ has_one_root (map step_of steps.entry) }
{
    match steps.take_first() {
        Some(first) => {
            if !is_enter(first) {
                return false;
            }
            leaves_root(steps)
        }
        None => false,
    }
}

/// Returns the index of the leaf after the `n` leaves from `start` on; `None` if one of them is
/// trivia or fewer than `n` are left.
fn unbroken_end(lexed: &LexedStr<'_>, start: usize, n: usize) -> Option<usize>
    requires { start ≤ length lexed.now.leaves }
    ensures { MatchOption result (is_unbroken n (drop start (leaves_of lexed.now.leaves)) ≡ false)
        (λ end. (end ≡ start + n)
        × (is_unbroken n (drop start (leaves_of lexed.now.leaves)) ≡ true)) }
{
    let mut end = start;
    let mut left = n;
    'leaves: while 0 < left {
        if end == lexed.len() {
            return None;
        }
        if lexed.kind(end).is_trivia() {
            return None;
        }
        left -= 1;
        end += 1;
    }
    Some(end)
}

fn is_float(kind: SyntaxKind) -> bool
    ensures { result ≡ (raw_of kind == FLOAT_NUMBER) }
{
    matches!(kind, SyntaxKind::FLOAT_NUMBER)
}

fn ends_in_dot(text: &str) -> bool
    ensures { result ≡ ends_in_dot (chars text.now) }
{
    text.ends_with('.')
}

/// Whether a leaf is a float that ends in a dot just where this says so.
fn is_split_at(lexed: &LexedStr<'_>, expected: bool, i: usize) -> bool
    requires { i < length lexed.now.leaves }
    ensures { result ≡ is_split_at expected (drop i (leaves_of lexed.now.leaves)) }
{
    if !is_float(lexed.kind(i)) {
        return false;
    }
    if expected {
        return ends_in_dot(lexed.text(i));
    }
    !ends_in_dot(lexed.text(i))
}

/// Returns the index of the leaf after a token of `n` leaves, with the trivia from `start` on
/// skipped before it. Returns `None` if trivia is between the `n` leaves, or if fewer than `n` are
/// left.
fn after_token(lexed: &LexedStr<'_>, n: usize, start: usize) -> Option<usize>
    requires { start ≤ length lexed.now.leaves }
    ensures { MatchOption result ((kind : ℕ) → Misfits lexed.now.leaves (steps.Token kind n) start)
        (λ next. (kind : ℕ) → Leads lexed.now.leaves (steps.Token kind n) start next) }
{
    let first = pending_end(lexed, start);
    match unbroken_end(lexed, first, n) {
        Some(end) => Some(end),
        None => None,
    }
}

/// The leaf that a split leads to, from one on; none where the float that it is for does not stand
/// there.
fn after_split(lexed: &LexedStr<'_>, expected: bool, start: usize) -> Option<usize>
    requires { start ≤ length lexed.now.leaves }
    ensures { MatchOption result (Misfits lexed.now.leaves (steps.FloatSplit expected) start)
        (λ next. Leads lexed.now.leaves (steps.FloatSplit expected) start next) }
{
    let first = pending_end(lexed, start);
    if first == lexed.len() {
        return None;
    }
    if !is_split_at(lexed, expected, first) {
        return None;
    }
    Some(first + 1)
}

/// The leaf that a step leads to, from one on; none where the step does not fit the leaves there.
fn after_step(lexed: &LexedStr<'_>, step: Step, start: usize) -> Option<usize>
    requires { start ≤ length lexed.now.leaves }
    ensures { MatchOption result (Misfits lexed.now.leaves (step_of step) start)
        (λ next. Leads lexed.now.leaves (step_of step) start next) }
{
    match step {
        Step::Token {
            kind: _,
            n_input_tokens,
        } => after_token(lexed, n_input_tokens, start),
        Step::FloatSplit { ends_in_dot } => after_split(lexed, ends_in_dot, start),
        Step::Enter { kind: _ } => Some(start),
        Step::Exit => Some(start),
        Step::Error { msg: _ } => Some(start),
    }
}

/// Returns `true` if the steps take the tokens of a text one after another, all of them, with no
/// whitespace or comment inside a leaf, and split each float as its text says.
pub(crate) fn covers(mut steps: Steps<'_>, lexed: &LexedStr<'_>) -> bool
    ensures { result ≡ covers (map step_of steps.entry) (leaves_of lexed.now.leaves) }
{
    let mut next = 0;
    'steps: while let Some(step) = steps.take_first() {
        match after_step(lexed, step, next) {
            Some(place) => next = place,
            None => return false,
        }
    }
    pending_end(lexed, next) == lexed.len()
}
