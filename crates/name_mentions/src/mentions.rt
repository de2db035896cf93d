//! What the tokens of a text say of a name.

ghost use Rattle.std.specs.Prelude.{◌≡◌, ◌<◌, ◌+◌, ◌^◌, ◌++◌, OnOk, IfOk, chars, count_by, encode_utf8_all, length};
ghost use Rattle.parser_input.specs.Kind.{raw_of};
ghost use Rattle.parser_input.specs.Lexed.{lexed};
ghost use Rattle.name_mentions.specs.Mentions.{has_name, is_identifier, mentions_by, mentions_from, mentions_in, place_of};

use crate::place::{Mention, place_of};
use crate::words::push_names;
use parser_input::{Edition, LexedStr, SyntaxKind};
use std::alloc::{AllocError, Global};

/// What the tokens of a text say of a name.
#[derive(Debug, Drop)]
pub struct Mentions {
    /// The number of identifiers that are the name.
    pub identifiers: usize,
    /// The places that spell it otherwise, in order.
    pub others: Vec<Mention>,
}

/// Returns `true` if a token with this kind and text is the identifier `name`.
fn has_name(kind: SyntaxKind, text: &str, name: &str) -> bool
    ensures { result ≡ has_name name.now (raw_of kind) text.now }
{
    kind == SyntaxKind::IDENT && text == name
}

/// Returns the number of tokens that are the identifier `name`.
fn identifiers_in(tokens: &LexedStr<'_>, name: &str) -> usize
    ensures { result ≡ count_by (is_identifier name.now) tokens.now.leaves }
{
    let mut count = 0;
    for i in 0..tokens.len() {
        if has_name(tokens.kind(i), tokens.text(i), name) {
            count += 1;
        }
    }
    count
}

/// Appends the places where a token that starts at the offset `start` spells `name`.
fn push_token(
    name: &[u8],
    kind: SyntaxKind,
    text: &[u8],
    start: usize,
    found: &mut Vec<Mention>,
) -> Result<(), AllocError>
    requires { start + length text.now < 2 ^ 64 }
    ensures { OnOk result (found.new.items ≡ found.old.items
        ++ mentions_by (place_of (raw_of kind) text.now) name.now start text.now) }
{
    match place_of(kind, text) {
        None => Ok(()),
        Some(place) => push_names(name, place, text, start, found),
    }
}

/// Returns the places where tokens spell `name` but are not the identifier, in order.
fn others_in(alloc: Global, tokens: &LexedStr<'_>, name: &str) -> Result<Vec<Mention>, AllocError>
    ensures { IfOk result (λ found. found.items ≡ mentions_from name.now 0 tokens.now.leaves) }
{
    let mut found = Vec::new(alloc);
    for i in 0..tokens.len() {
        let range = tokens.text_range(i);
        let text = tokens.text(i).as_bytes();
        push_token(
            name.as_bytes(),
            tokens.kind(i),
            text,
            range.start,
            &mut found,
        )?;
    }
    Ok(found)
}

/// Returns what the tokens of `text` say of `name`: the number of identifiers that are the name, and
/// the places where literals, comments, lifetimes and raw identifiers spell it as a word of its own. A
/// word ends where no letter, digit or `_` of ASCII follows.
///
/// # Errors
///
/// Out of memory.
pub fn mentions_of(
    alloc: Global,
    edition: Edition,
    text: &str,
    name: &str,
) -> Result<Mentions, AllocError>
    ensures identifiers { IfOk result (λ mentions. mentions.identifiers
        ≡ count_by (is_identifier name.now) (lexed edition (chars text.now))) }
    ensures others { IfOk result (λ mentions. mentions.others.items
        ≡ mentions_in name.now edition text.now) }
{
    let tokens = LexedStr::new(alloc, edition, text)?;
    let others = others_in(alloc, &tokens, name)?;
    Ok(Mentions {
        identifiers: identifiers_in(&tokens, name),
        others,
    })
}
