//! Incremental lexing: finds the tokens to keep and lexes the others.

ghost use Rattle.std.specs.Prelude.{◌≡◌, ◌+◌, ◌<◌, ◌≤◌, ◌^◌, [], chars, take, length, IfOk, MatchOption, OnErr};
ghost use Rattle.rustc_lexer.specs.Tokens.{token_list};
ghost use Rattle.lexed_text.specs.Runs.{RunsFrom};
ghost use Rattle.lexed_text.specs.Inside.{left, taken, EndsWithin, FrontFound, LacksLast, LacksTwo, Meets, Passes, Renewed};

use crate::kept::Kept;
use crate::replace::replace;
use crate::runs::{Run, first_past, last_within, renew_runs, room_for};
use rustc_lexer::{Cursor, Token};
use std::alloc::{AllocError, Global};

/// A token boundary.
#[derive(Clone, Copy)]
pub(crate) struct Place {
    /// The number of tokens before it.
    pub(crate) count: usize,

    /// The number of bytes before it, or after it, as the function says.
    pub(crate) bytes: usize,
}

/// Returns `text` without its last character, or `None` if it is empty.
fn without_last(text: &str) -> Option<&str>
    ensures { MatchOption result (chars text.now ≡ []) (λ rest. LacksLast text.now rest.now) }
{
    let mut rest = text.chars();
    match rest.next_back() {
        Some(_) => Some(rest.as_str()),
        None => None,
    }
}

/// Returns the length of `text` without its last two characters, in bytes; `None` if it has fewer.
fn without_two(text: &str) -> Option<usize>
    ensures { MatchOption result (length (chars text.now) < 2) (LacksTwo text.now) }
{
    match without_last(text) {
        Some(one) => match without_last(one) {
            Some(two) => Some(two.len()),
            None => None,
        },
        None => None,
    }
}

/// Returns the last token boundary with at most `limit` bytes before it; searches run by run, then
/// token by token.
fn ends_within(runs: &[Run], tokens: &[Token], limit: usize) -> Place
    requires { RunsFrom 0 0 runs.now tokens.now }
    ensures { EndsWithin tokens.now limit result.count result.bytes }
{
    let mut end = Place { count: 0, bytes: 0 };
    for run in runs {
        if run.bytes > limit - end.bytes {
            break;
        }
        end.count += run.tokens;
        end.bytes += run.bytes;
    }
    'tokens: while end.count < tokens.len() {
        let len = tokens[end.count].len;
        if len > limit - end.bytes {
            return end;
        }
        end.count += 1;
        end.bytes += len;
    }
    end
}

/// Returns the end of the front of an edit that follows the text `before`: the last boundary at
/// least two characters before the edit, with the bytes before it.
pub(crate) fn find_front(runs: &[Run], tokens: &[Token], before: &str) -> Place
    requires { RunsFrom 0 0 runs.now tokens.now }
    ensures { FrontFound tokens.now (chars before.now) result.count result.bytes }
{
    match without_two(before) {
        Some(limit) => ends_within(runs, tokens, limit),
        None => Place { count: 0, bytes: 0 },
    }
}

/// Returns the first token boundary from `from` on with at most `most` bytes after it. A [`Place`]
/// counts the bytes after it here.
fn pass(tokens: &[Token], from: Place, most: usize) -> Place
    requires within { from.count ≤ length tokens.now }
    requires is_left { from.bytes ≡ left from.count tokens.now }
    ensures { Passes tokens.now from.count most result.count result.bytes }
{
    let mut at = from;
    'tokens: while at.bytes > most {
        at.bytes -= tokens[at.count].len;
        at.count += 1;
    }
    at
}

/// The tokens of a new text up to the boundary at which it meets the old one.
#[derive(Drop)]
struct Lexing {
    tokens: Vec<Token>,

    /// The number of tokens that were lexed.
    lexed: usize,

    /// The number of old tokens before the boundary at which the two texts meet.
    stop: usize,
}

/// Lexes `text` up to the first boundary with at most `most` bytes after it that matches a boundary
/// of `old` from `front` on: as many bytes follow both.
fn lex(
    alloc: Global,
    old: &[Token],
    front: Place,
    text: &str,
    most: usize,
) -> Result<Lexing, AllocError>
    requires within { front.count ≤ length old.now }
    requires is_left { front.bytes ≡ left front.count old.now }
    ensures tokens { IfOk result
        (λ l. l.tokens.items ≡ take l.lexed (token_list (chars text.now))) }
    ensures meets { IfOk result
        (λ l. Meets old.now (token_list (chars text.now)) front.count most l.lexed l.stop) }
{
    let mut cursor = Cursor::new(text);
    let mut tokens = Vec::new(alloc);
    let mut lexed = 0;
    let mut at = front;
    'lexing: loop {
        let after = cursor.remaining();
        if after <= most {
            at = pass(old, at, after);
            if at.bytes == after {
                break;
            }
        }
        tokens.push(cursor.advance_token())?;
        lexed += 1;
    }
    Ok(Lexing {
        tokens,
        lexed,
        stop: at.count,
    })
}

/// Lexes `text`, the new text after the front, up to the boundary at which it meets the old tokens,
/// and replaces the old tokens before that boundary. `front.bytes` and `most` are the numbers of
/// bytes of the old text after the front and after the edit.
///
/// # Errors
///
/// [`AllocError`] if an allocation fails. On error, `tokens` and `runs` are unchanged.
pub(crate) fn renew(
    alloc: Global,
    tokens: &mut Vec<Token>,
    runs: &mut Vec<Run>,
    front: Place,
    text: &str,
    most: usize,
) -> Result<Kept, AllocError>
    requires within { front.count ≤ length tokens.old.items }
    requires is_left { front.bytes ≡ left front.count tokens.old.items }
    requires fits { taken front.count tokens.old.items + length text.now < 2 ^ 64 }
    requires runs { RunsFrom 0 0 runs.old.items tokens.old.items }
    ensures renewed { IfOk result
        (Renewed tokens.old.items (token_list (chars text.now)) front.count most tokens.new.items) }
    ensures refused { OnErr result (tokens.new.items ≡ tokens.old.items) }
    ensures runs { RunsFrom 0 0 runs.new.items tokens.new.items }
{
    let lexing = lex(alloc, tokens.as_slice(), front, text, most)?;
    let lexed = lexing.lexed;
    let stop = lexing.stop;
    let back = tokens.len() - stop;
    let first = last_within(runs.as_slice(), front.count);
    let next = first_past(runs.as_slice(), first, stop);
    let room = room_for(alloc, runs, lexed)?;
    replace(tokens, front.count, stop, &lexing.tokens)?;
    let to = if next.run < runs.len() {
        front.count + lexed + (next.count - stop)
    } else {
        tokens.len()
    };
    renew_runs(room, runs, tokens.as_slice(), first, next, to);
    Ok(Kept {
        front: front.count,
        lexed,
        back,
    })
}
