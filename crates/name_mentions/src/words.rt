//! Names that are words of a text.

ghost use Rattle.std.specs.Prelude.{◌≡◌, ◌<◌, ◌+◌, ◌^◌, ◌++◌, OnOk, drop, length};
ghost use Rattle.name_mentions.specs.Words.{begins_with, can_start, continues_word, is_name, is_word, mention_if, names_in};

use crate::place::{Mention, MentionPlace};
use std::alloc::AllocError;

/// Returns `true` if `byte` is a letter, a digit or `_` of ASCII.
fn is_word(byte: u8) -> bool
    ensures { result ≡ is_word byte }
{
    matches!(byte, b'0'..=b'9' | b'A'..=b'Z' | b'a'..=b'z' | b'_')
}

/// Returns `true` if `text` goes on with a word.
fn continues_word(text: &[u8]) -> bool
    ensures { result ≡ continues_word text.now }
{
    match text {
        [] => false,
        [byte, ..] => is_word(*byte),
    }
}

/// Returns `true` if `text` begins with `name` as a whole word.
fn begins_with(name: &[u8], text: &[u8]) -> bool
    ensures { result ≡ begins_with name.now text.now }
{
    text.starts_with(name) && !continues_word(&text[name.len()..])
}

/// Returns `true` if a word may start behind these two bytes.
fn can_start(second: u8, last: u8) -> bool
    ensures { result ≡ can_start second last }
{
    !is_word(last) || second == b'\\'
}

/// Returns `true` if `name` is a word at the start of `text`, which is behind these two bytes.
fn is_name(name: &[u8], second: u8, last: u8, text: &[u8]) -> bool
    ensures { result ≡ is_name name.now second last text.now }
{
    can_start(second, last) && begins_with(name, text)
}

/// Appends the mention at an offset, if it is one.
fn push_mention(
    is_mention: bool,
    place: MentionPlace,
    offset: usize,
    found: &mut Vec<Mention>,
) -> Result<(), AllocError>
    ensures { OnOk result (found.new.items
        ≡ found.old.items ++ mention_if is_mention place offset) }
{
    if is_mention {
        found.push(Mention { place, offset })?;
    }
    Ok(())
}

/// Appends the places where `name` is a word of `text`, which starts at the offset `start`.
pub(crate) fn push_names(
    name: &[u8],
    place: MentionPlace,
    text: &[u8],
    start: usize,
    found: &mut Vec<Mention>,
) -> Result<(), AllocError>
    requires { start + length text.now < 2 ^ 64 }
    ensures { OnOk result (found.new.items
        ≡ found.old.items ++ names_in name.now place start text.now) }
{
    let mut second = 0;
    let mut last = 0;
    for (i, byte) in text.iter().enumerate() {
        let is_mention = is_name(name, second, last, &text[i..]);
        push_mention(is_mention, place, start + i, found)?;
        second = last;
        last = *byte;
    }
    Ok(())
}
