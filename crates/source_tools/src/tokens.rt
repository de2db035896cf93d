//! The tokens of a document as rows.

ghost use Rattle.std.specs.Prelude.{◌≡◌, ◌++◌, OnOk, chars, codes, slice_range};
ghost use Rattle.std.specs.List.{flat_map};
ghost use Rattle.rust_document.specs.Tokens.{span_of, tokens_of};
ghost use Rattle.source_tools.specs.Json.{file_object};
ghost use Rattle.source_tools.specs.Texts.{item_of_token, row_of_token};

use crate::json::{push_object, push_token_item};
use crate::rows::{push_range, push_text};
use rust_document::{Document, LexedToken};
use std::alloc::{AllocError, Global};

/// Returns the bytes from `start` to just before `end`, as far as there are any.
pub(crate) fn part(bytes: &[u8], start: usize, end: usize) -> &[u8]
    ensures { result.now ≡ slice_range bytes.now start end }
{
    let end = end.min(bytes.len());
    let start = start.min(end);
    &bytes[start..end]
}

/// Appends the row of a token of `text`.
fn push_token(
    alloc: Global,
    text: &str,
    token: LexedToken,
    rows: &mut Vec<u8>,
) -> Result<(), AllocError>
    ensures { OnOk result
        (rows.new.items ≡ rows.old.items ++ row_of_token text.now (span_of token)) }
{
    let start = usize::from(token.range.start());
    let end = usize::from(token.range.end());
    push_range(alloc, token.kind.name(), start, end, rows)?;
    push_text(part(text.as_bytes(), start, end), rows)?;
    Ok(())
}

/// Appends the rows of the tokens of `document`.
pub(crate) fn push_tokens(
    alloc: Global,
    document: &Document,
    rows: &mut Vec<u8>,
) -> Result<(), AllocError>
    ensures { OnOk result (rows.new.items ≡ rows.old.items
        ++ flat_map (row_of_token document.now.text)
        (tokens_of document.now.edition (chars document.now.text))) }
{
    let text = document.text();
    for token in document.tokens() {
        push_token(alloc, text, token, rows)?;
    }
    Ok(())
}

/// Appends the item of a token.
fn push_item(alloc: Global, token: LexedToken, items: &mut Vec<u8>) -> Result<(), AllocError>
    ensures { OnOk result (items.new.items ≡ items.old.items ++ item_of_token (span_of token)) }
{
    let start = usize::from(token.range.start());
    let end = usize::from(token.range.end());
    push_token_item(alloc, token.kind.name(), start, end, items)?;
    Ok(())
}

/// Appends the items of the tokens of `document`.
fn push_token_items(
    alloc: Global,
    document: &Document,
    items: &mut Vec<u8>,
) -> Result<(), AllocError>
    ensures { OnOk result (items.new.items ≡ items.old.items ++ flat_map item_of_token
        (tokens_of document.now.edition (chars document.now.text))) }
{
    for token in document.tokens() {
        push_item(alloc, token, items)?;
    }
    Ok(())
}

/// Appends the object of the tokens of `document`.
pub(crate) fn push_token_list(
    alloc: Global,
    path: &str,
    document: &Document,
    rows: &mut Vec<u8>,
) -> Result<(), AllocError>
    ensures { OnOk result (rows.new.items ≡ rows.old.items ++ file_object path.now (codes "tokens")
        (flat_map item_of_token (tokens_of document.now.edition (chars document.now.text)))) }
{
    let mut items = Vec::new(alloc);
    push_token_items(alloc, document, &mut items)?;
    push_object(alloc, path, "tokens", items.as_slice(), rows)?;
    Ok(())
}
