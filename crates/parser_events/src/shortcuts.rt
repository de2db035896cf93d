//! A parser's trees with their text: what a sink is given of it.

ghost use Rattle.std.specs.Prelude.{◌≡◌, ◌≤◌, ◌+◌, ◌++◌, List, [], ◌∷◌, MatchOption, true, chars, length, drop, map, slice_range, OnOk, IfOk, IfErr};
ghost use Rattle.parser_input.specs.Kind.{raw_of};
ghost use Rattle.parser_input.specs.Leaf.{Leaf};
ghost use Rattle.parser_input.specs.Lexed.{leaves_of};
ghost use Rattle.parser_events.specs.Dress.{dress_root, next_text, reach};
ghost use Rattle.parser_events.specs.Fits.{fits, IsRooted};
ghost use Rattle.parser_events.specs.Forest.{Forest};
ghost use Rattle.parser_events.specs.Laying.{Lays, after, place_at, put_around, put_by, put_inside};
ghost use Rattle.parser_events.specs.Seen.{message_of, step_of};
ghost use Rattle.parser_events.specs.Sinks.{TakesAll, FailsAtOne};
ghost use Rattle.parser_events.specs.Steps as steps;
ghost use Rattle.parser_events.specs.TextSteps.{leaf_steps, text_step_of};
ghost use Rattle.parser_events.specs.TextSteps as text_steps;

use crate::float_parts::put_float;
use crate::message::Message;
use crate::output::Output;
use crate::step::Step;
use crate::step_list::Steps;
use crate::str_sink::StrSink;
use crate::str_step::StrStep;
use crate::trivia::{attached_from, pending_end};
use parser_input::lexed_str::LexedStr;
use parser_input::syntax_kind::SyntaxKind;

/// Gives a sink these steps.
pub(crate) fn put_all<S: StrSink>(steps: &[StrStep<'_>], sink: &mut S) -> Result<(), S::Error>
    ensures taken { OnOk result (TakesAll S.takes sink.old (map text_step_of steps.now) sink.new) }
    ensures refused { IfErr result
        (λ error. FailsAtOne S.takes S.fails_at sink.old
        (map text_step_of steps.now) error sink.new) }
{
    for i in 0..steps.len() {
        match sink.step(steps[i]) {
            Ok(()) => {}
            Err(error) => return Err(error),
        }
    }
    Ok(())
}

/// Gives a sink this step.
#[inline(always)]
fn put_one<S: StrSink>(step: StrStep<'_>, sink: &mut S) -> Result<(), S::Error>
    ensures taken { OnOk result
        (TakesAll S.takes sink.old (text_step_of step.entry ∷ []) sink.new) }
    ensures refused { IfErr result
        (λ error. FailsAtOne S.takes S.fails_at sink.old
        (text_step_of step.entry ∷ []) error sink.new) }
{
    match sink.step(step) {
        Ok(()) => Ok(()),
        Err(error) => Err(error),
    }
}

/// Gives a sink the leaves from one number to another, as they are. Most often there is none.
#[inline(always)]
pub(crate) fn put_leaves<S: StrSink>(
    lexed: &LexedStr<'_>,
    start: usize,
    end: usize,
    sink: &mut S,
) -> Result<(), S::Error>
    requires order { start ≤ end }
    requires within { end ≤ length lexed.now.leaves }
    ensures taken { OnOk result (TakesAll S.takes sink.old
        (leaf_steps (slice_range (leaves_of lexed.now.leaves) start end)) sink.new) }
    ensures refused { IfErr result (λ error. FailsAtOne S.takes S.fails_at sink.old
        (leaf_steps (slice_range (leaves_of lexed.now.leaves) start end)) error sink.new) }
{
    if start == end {
        return Ok(());
    }
    put_each(lexed, start, end, sink)
}

/// Gives a sink the leaves from one number to another, one by one.
#[inline(never)]
fn put_each<S: StrSink>(
    lexed: &LexedStr<'_>,
    start: usize,
    end: usize,
    sink: &mut S,
) -> Result<(), S::Error>
    requires order { start ≤ end }
    requires within { end ≤ length lexed.now.leaves }
    ensures taken { OnOk result (TakesAll S.takes sink.old
        (leaf_steps (slice_range (leaves_of lexed.now.leaves) start end)) sink.new) }
    ensures refused { IfErr result (λ error. FailsAtOne S.takes S.fails_at sink.old
        (leaf_steps (slice_range (leaves_of lexed.now.leaves) start end)) error sink.new) }
{
    for i in start..end {
        let leaf = StrStep::Token {
            kind: lexed.kind(i),
            text: lexed.text(i),
        };
        match sink.step(leaf) {
            Ok(()) => {}
            Err(error) => return Err(error),
        }
    }
    Ok(())
}

/// Where a leaf starts, in bytes; after the last one, where the text ends.
pub(crate) fn start_of(lexed: &LexedStr<'_>, i: usize) -> usize
    requires { i ≤ length lexed.now.leaves }
    ensures { result ≡ (place_at lexed.now.leaves i).bytes }
{
    lexed.range_text(0..i).len()
}

/// Returns the index of the leaf after the next `n` tokens of the input, from leaf `start` on.
/// Trivia counts as no token. If fewer than `n` are left, that is the end.
pub(crate) fn token_end(lexed: &LexedStr<'_>, start: usize, n: usize) -> usize
    requires { start ≤ length lexed.now.leaves }
    ensures end { result ≡ start + reach n (drop start (leaves_of lexed.now.leaves)) }
    ensures within { result ≤ length lexed.now.leaves }
{
    let mut end = start;
    let mut left = n;
    'tokens: while 0 < left {
        if end == lexed.len() {
            return end;
        }
        if !lexed.kind(end).is_trivia() {
            left -= 1;
        }
        end += 1;
    }
    end
}

/// Puts a leaf over the next tokens.
#[inline(always)]
pub(crate) fn put_token<S: StrSink>(
    lexed: &LexedStr<'_>,
    kind: SyntaxKind,
    n: usize,
    start: usize,
    sink: &mut S,
) -> Result<usize, S::Error>
    requires { start ≤ length lexed.now.leaves }
    ensures taken { IfOk result (λ next. Lays S.takes lexed.now.leaves
        (steps.Token (raw_of kind) n) start sink.old next sink.new) }
    ensures refused { IfErr result (λ error. FailsAtOne S.takes S.fails_at sink.old
        (put_by (steps.Token (raw_of kind) n) (place_at lexed.now.leaves start)) error sink.new) }
{
    let first = pending_end(lexed, start);
    let end = token_end(lexed, first, n);
    let text = lexed.range_text(first..end);
    match put_leaves(lexed, start, first, sink) {
        Ok(()) => {}
        Err(error) => return Err(error),
    }
    match put_one(StrStep::Token { kind, text }, sink) {
        Ok(()) => Ok(end),
        Err(error) => Err(error),
    }
}

/// Enters a node.
#[inline(always)]
pub(crate) fn put_enter<S: StrSink>(
    lexed: &LexedStr<'_>,
    kind: SyntaxKind,
    start: usize,
    sink: &mut S,
) -> Result<usize, S::Error>
    requires { start ≤ length lexed.now.leaves }
    ensures taken { IfOk result
        (λ next. Lays S.takes lexed.now.leaves
        (steps.Enter (raw_of kind)) start sink.old next sink.new) }
    ensures refused { IfErr result (λ error. FailsAtOne S.takes S.fails_at sink.old
        (put_by (steps.Enter (raw_of kind)) (place_at lexed.now.leaves start)) error sink.new) }
{
    let end = pending_end(lexed, start);
    let first = attached_from(lexed, kind, start, end);
    match put_leaves(lexed, start, first, sink) {
        Ok(()) => {}
        Err(error) => return Err(error),
    }
    match put_one(StrStep::Enter { kind }, sink) {
        Ok(()) => {}
        Err(error) => return Err(error),
    }
    match put_leaves(lexed, first, end, sink) {
        Ok(()) => Ok(end),
        Err(error) => Err(error),
    }
}

/// The text of a leaf; none after the last one.
fn text_at<'a>(lexed: &LexedStr<'a>, i: usize) -> &'a str
    ensures { chars result.now ≡ next_text (drop i (leaves_of lexed.now.leaves)) }
{
    if i < lexed.len() {
        return lexed.text(i);
    }
    ""
}

/// The number of the leaf after one; after the last one, the same.
fn after_one(lexed: &LexedStr<'_>, i: usize) -> usize
    requires { i ≤ length lexed.now.leaves }
    ensures place { place_at lexed.now.leaves result ≡ after 1 (place_at lexed.now.leaves i) }
    ensures within { result ≤ length lexed.now.leaves }
{
    if i < lexed.len() {
        return i + 1;
    }
    i
}

/// Puts the float that ends the field access entered last.
#[inline(never)]
fn put_split<S: StrSink>(
    lexed: &LexedStr<'_>,
    ends_in_dot: bool,
    start: usize,
    sink: &mut S,
) -> Result<usize, S::Error>
    requires { start ≤ length lexed.now.leaves }
    ensures taken { IfOk result (λ next. Lays S.takes lexed.now.leaves
        (steps.FloatSplit ends_in_dot) start sink.old next sink.new) }
    ensures refused { IfErr result (λ error. FailsAtOne S.takes S.fails_at sink.old
        (put_by (steps.FloatSplit ends_in_dot) (place_at lexed.now.leaves start)) error sink.new) }
{
    let first = pending_end(lexed, start);
    let text = text_at(lexed, first);
    let pos = start_of(lexed, first);
    let end = after_one(lexed, first);
    match put_leaves(lexed, start, first, sink) {
        Ok(()) => {}
        Err(error) => return Err(error),
    }
    match put_float(text, ends_in_dot, pos, sink) {
        Ok(()) => Ok(end),
        Err(error) => Err(error),
    }
}

/// Leaves the node entered last.
#[inline(always)]
fn put_exit<S: StrSink>(lexed: &LexedStr<'_>, start: usize, sink: &mut S) -> Result<usize, S::Error>
    requires { start ≤ length lexed.now.leaves }
    ensures taken { IfOk result
        (λ next. Lays S.takes lexed.now.leaves steps.Exit start sink.old next sink.new) }
    ensures refused { IfErr result (λ error. FailsAtOne S.takes S.fails_at sink.old
        (put_by steps.Exit (place_at lexed.now.leaves start)) error sink.new) }
{
    match put_one(StrStep::Exit, sink) {
        Ok(()) => Ok(start),
        Err(error) => Err(error),
    }
}

/// Passes `msg` to the sink, at the offset where leaf `start` begins.
#[inline(never)]
fn put_message<S: StrSink>(
    lexed: &LexedStr<'_>,
    msg: Message,
    start: usize,
    sink: &mut S,
) -> Result<usize, S::Error>
    requires { start ≤ length lexed.now.leaves }
    ensures taken { IfOk result (λ next. Lays S.takes lexed.now.leaves
        (steps.Error (message_of msg)) start sink.old next sink.new) }
    ensures refused { IfErr result (λ error. FailsAtOne S.takes S.fails_at sink.old
        (put_by (steps.Error (message_of msg)) (place_at lexed.now.leaves start)) error sink.new) }
{
    let pos = start_of(lexed, start);
    match put_one(StrStep::Error { msg, pos }, sink) {
        Ok(()) => Ok(start),
        Err(error) => Err(error),
    }
}

/// Puts what a step puts, from a leaf on, and gives the number of the leaf that it leads to.
#[inline(always)]
fn put_step<S: StrSink>(
    lexed: &LexedStr<'_>,
    step: Step,
    start: usize,
    sink: &mut S,
) -> Result<usize, S::Error>
    requires { start ≤ length lexed.now.leaves }
    ensures taken { IfOk result (λ next. Lays S.takes lexed.now.leaves
        (step_of step) start sink.old next sink.new) }
    ensures refused { IfErr result (λ error. FailsAtOne S.takes S.fails_at sink.old
        (put_by (step_of step) (place_at lexed.now.leaves start)) error sink.new) }
{
    match step {
        Step::Token {
            kind,
            n_input_tokens,
        } => put_token(lexed, kind, n_input_tokens, start, sink),
        Step::FloatSplit { ends_in_dot } => put_split(lexed, ends_in_dot, start, sink),
        Step::Enter { kind } => put_enter(lexed, kind, start, sink),
        Step::Exit => put_exit(lexed, start, sink),
        Step::Error { msg } => put_message(lexed, msg, start, sink),
    }
}

/// Puts all leaves that are left, and leaves the root.
#[inline(never)]
fn put_end<S: StrSink>(lexed: &LexedStr<'_>, start: usize, sink: &mut S) -> Result<(), S::Error>
    requires { start ≤ length lexed.now.leaves }
    ensures taken { OnOk result (TakesAll S.takes sink.old
        (leaf_steps (drop start (leaves_of lexed.now.leaves)) ++ text_steps.Exit ∷ []) sink.new) }
    ensures refused { IfErr result (λ error. FailsAtOne S.takes S.fails_at sink.old
        (leaf_steps (drop start (leaves_of lexed.now.leaves)) ++ text_steps.Exit
        ∷ []) error sink.new) }
{
    match put_leaves(lexed, start, lexed.len(), sink) {
        Ok(()) => {}
        Err(error) => return Err(error),
    }
    match put_one(StrStep::Exit, sink) {
        Ok(()) => Ok(()),
        Err(error) => Err(error),
    }
}

/// Puts what the steps after the root's first one put.
fn put_inside<S: StrSink>(
    lexed: &LexedStr<'_>,
    mut steps: Steps<'_>,
    sink: &mut S,
) -> Result<(), S::Error>
    ensures taken { OnOk result (TakesAll S.takes sink.old
        (put_inside (map step_of steps.entry) (place_at lexed.now.leaves 0)) sink.new) }
    ensures refused { IfErr result (λ error. FailsAtOne S.takes S.fails_at sink.old
        (put_inside (map step_of steps.entry) (place_at lexed.now.leaves 0)) error sink.new) }
{
    let mut next = 0;
    'steps: while let Some(step) = steps.take_first() {
        if steps.len() == 0 {
            return put_end(lexed, next, sink);
        }
        match put_step(lexed, step, next, sink) {
            Ok(place) => next = place,
            Err(error) => return Err(error),
        }
    }
    Ok(())
}

/// The kind of the node that a step enters.
fn entered(step: Step) -> Option<SyntaxKind>
    ensures { MatchOption result
        ((rest : List steps.Step) → (own : List Leaf) → put_around (step_of step ∷ rest) own ≡ [])
        (λ kind. step_of step ≡ steps.Enter (raw_of kind)) }
{
    match step {
        Step::Enter { kind } => Some(kind),
        Step::Token {
            kind: _,
            n_input_tokens: _,
        } => None,
        Step::FloatSplit { ends_in_dot: _ } => None,
        Step::Exit => None,
        Step::Error { msg: _ } => None,
    }
}

/// Gives a sink what the steps of an output put of a text.
fn put_output<S: StrSink>(
    lexed: &LexedStr<'_>,
    output: &Output,
    sink: &mut S,
) -> Result<(), S::Error>
    ensures taken { OnOk result
        (TakesAll S.takes sink.old
        (put_around output.now.steps (leaves_of lexed.now.leaves)) sink.new) }
    ensures refused { IfErr result (λ error. FailsAtOne S.takes S.fails_at sink.old
        (put_around output.now.steps (leaves_of lexed.now.leaves)) error sink.new) }
{
    let mut steps = output.iter();
    let first = match steps.take_first() {
        Some(first) => first,
        None => return Ok(()),
    };
    let kind = match entered(first) {
        Some(kind) => kind,
        None => return Ok(()),
    };
    match put_one(StrStep::Enter { kind }, sink) {
        Ok(()) => {}
        Err(error) => return Err(error),
    }
    match put_inside(lexed, steps, sink) {
        Ok(()) => Ok(()),
        Err(error) => Err(error),
    }
}

/// Passes the steps of a parser's trees, with a text, to the sink. Trivia, the parts of floats and
/// the offsets of messages are added between the steps of the trees, as the leaves of the text
/// require. If the steps fit the text and are those of one node, the sink gets the steps of that
/// node, dressed with the text.
///
/// # Errors
///
/// The error of the sink, if it fails at a step. The sink took the steps before that one, in order.
pub fn intersperse_trivia<S: StrSink>(
    lexed: &LexedStr<'_>,
    output: &Output,
    sink: &mut S,
) -> Result<(), S::Error>
    ensures taken { OnOk result
        (TakesAll S.takes sink.old
        (put_around output.now.steps (leaves_of lexed.now.leaves)) sink.new) }
    ensures tree { OnOk result ((f : Forest) → IsRooted f → output.now.steps ≡ steps.steps f
        → fits output.now.steps (leaves_of lexed.now.leaves) ≡ true → TakesAll S.takes sink.old
        (text_steps.text_steps (dress_root f (leaves_of lexed.now.leaves))) sink.new) }
    ensures refused { IfErr result (λ error. FailsAtOne S.takes S.fails_at sink.old
        (put_around output.now.steps (leaves_of lexed.now.leaves)) error sink.new) }
{
    match put_output(lexed, output, sink) {
        Ok(()) => Ok(()),
        Err(error) => Err(error),
    }
}
