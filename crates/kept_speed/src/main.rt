//! Replaces one name of a text and restores it, over and over, and prints what the edits moved and
//! lexed.
//!
//! Standard input is the text. The arguments are the number of times it is lexed whole before, the
//! number of times the name is replaced and restored, the position of the name in hundredths of the
//! text, and the replacement. Nothing is timed here: the times of two runs differ by the lexings,
//! or the edits, that only one of them makes (`bench/kept`).
#![tactic(auto)]

use anyhow::{Context, bail};
use lexed_text::LexedText;
use rustc_lexer::TokenKind;
use std::alloc::Global;
use std::ops::Range;
use std::{env, io};

/// The sums over all edits.
#[derive(Clone, Copy)]
struct Sum {
    /// The number of edits.
    edits: usize,

    /// Bytes of text that edits moved: those after an edit that changes the text's length.
    bytes_moved: usize,

    /// Tokens that edits moved: those kept after an edit that changes their number.
    tokens_moved: usize,

    /// Tokens that were lexed.
    tokens_lexed: usize,
}

/// Replaces `range` with `put`, and returns `sum` with that edit added.
fn edit(text: &mut LexedText, range: Range<usize>, put: &str, sum: Sum) -> anyhow::Result<Sum> {
    let start = range.start;
    let end = range.end;
    if !text.can_edit(start..end, put.len()) {
        bail!("the edit is none of the text");
    }
    let len = text.text().len();
    let tokens = text.tokens().len();
    let kept = text.edit(start..end, put)?;
    let bytes_moved = if text.text().len() == len {
        0
    } else {
        len.wrapping_sub(end)
    };
    let tokens_moved = if text.tokens().len() == tokens {
        0
    } else {
        kept.back
    };
    Ok(Sum {
        edits: sum.edits.wrapping_add(1),
        bytes_moved: sum.bytes_moved.wrapping_add(bytes_moved),
        tokens_moved: sum.tokens_moved.wrapping_add(tokens_moved),
        tokens_lexed: sum.tokens_lexed.wrapping_add(kept.lexed),
    })
}

/// Returns the range of the last name that starts within the first `bytes` bytes, or of the first
/// name if none does.
fn name_within(text: &LexedText, bytes: usize) -> Option<Range<usize>> {
    let mut found = None;
    let mut start: usize = 0;
    for token in text.tokens() {
        let end = start.wrapping_add(token.len);
        if token.kind == TokenKind::Ident && (found.is_none() || start <= bytes) {
            found = Some(start..end);
        }
        start = end;
    }
    found
}

/// Replaces `name` with `put` and restores it, `rounds` times.
fn edit_often(
    alloc: Global,
    text: &mut LexedText,
    name: Range<usize>,
    put: &str,
    rounds: usize,
) -> anyhow::Result<Sum> {
    let start = name.start;
    let end = name.end;
    let old = text.text().get(start..end).context("the name is cut")?;
    let old = String::from_str(alloc, old)?;
    let mut sum = Sum {
        edits: 0,
        bytes_moved: 0,
        tokens_moved: 0,
        tokens_lexed: 0,
    };
    for _ in 0..rounds {
        sum = edit(text, start..end, put, sum)?;
        let put_end = start.wrapping_add(put.len());
        sum = edit(text, start..put_end, old.as_str(), sum)?;
    }
    Ok(sum)
}

/// Returns the argument at `index` as a number.
fn number_at(words: &[String], index: usize) -> anyhow::Result<usize> {
    let word = words.get(index).context("an argument is missing")?;
    Ok(word.as_str().parse::<usize>()?)
}

fn main(rt: HostRuntime) -> anyhow::Result<()> {
    let alloc: Global = rt.alloc();
    let words: Vec<String> = env::args(&rt)?.collect(alloc)?;
    let put = words.get(4).context("an argument is missing")?;
    let source = io::read_to_string(alloc, rt.reader())?;
    let mut text = LexedText::new(alloc, source.as_str())?;
    for _ in 0..number_at(&words, 1)? {
        text = LexedText::new(alloc, source.as_str())?;
    }
    let within = source.len().wrapping_mul(number_at(&words, 3)?) / 100;
    let name = name_within(&text, within).context("the text has no name")?;
    let rounds = number_at(&words, 2)?;
    let sum = edit_often(alloc, &mut text, name, put.as_str(), rounds)?;
    let (bytes, tokens) = (text.text().len(), text.tokens().len());
    println!(rt;
        "{bytes} bytes, {tokens} tokens, {} edits: moved {} bytes and {} tokens, lexed {} tokens",
        sum.edits, sum.bytes_moved, sum.tokens_moved, sum.tokens_lexed
    )?;
    Ok(())
}
