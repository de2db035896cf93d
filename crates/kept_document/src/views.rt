//! What each export writes of a document.
ghost use Rattle.std.specs.Prelude.{◌≡◌, ◌≢◌, None, IfOk, IfSome, map};
ghost use Rattle.document_rows.specs.Rows.{element_rows_of, message_rows_of, message_words_of, range_row, token_rows};
ghost use Rattle.kept_document.specs.Buffers.{AreWritten, IsPut, IsWritten};

use crate::handle::Handle;
use crate::put::{put, put_both};
use crate::reason::Reason;
use document_rows::{
    ElementRow, MessageRow, RangeRow, TokenRow, element_rows, message_rows, token_rows,
};
use rowan_green::TextRange;
use rust_document::Document;
use std::alloc::{AllocError, Global};

/// Writes the text.
pub fn text(alloc: Global, handle: &mut Handle, out: &mut [u8], written: &mut usize) -> u32
    ensures text { IfSome handle.old.hold.kept
        (λ kept. IsPut kept.document.text result out.old out.new written.new) }
    ensures not_open { handle.old.hold.kept ≡ None
        → (result ≡ 7) × (out.new ≡ out.old) × (written.new ≡ 0) }
    ensures kept { handle.new.hold.kept ≡ handle.old.hold.kept }
{
    if !handle.is_open() {
        *written = 0;
        return Reason::NotOpen.code();
    }
    let kept = handle.take(alloc);
    let code = put(kept.document.text().as_bytes(), out, written);
    handle.fill(kept);
    code
}

/// Writes the tokens of a document.
fn put_tokens(alloc: Global, document: &Document, out: &mut [TokenRow], written: &mut usize) -> u32
    ensures { IsWritten (token_rows document.now) result out.old out.new written.new }
{
    match token_rows(alloc, document) {
        Ok(rows) => put(&rows, out, written),
        Err(_) => {
            *written = 0;
            Reason::NoMemory.code()
        }
    }
}

/// Writes the tokens.
pub fn tokens(alloc: Global, handle: &mut Handle, out: &mut [TokenRow], written: &mut usize) -> u32
    ensures rows { IfSome handle.old.hold.kept (λ kept. IsWritten
        (token_rows kept.document) result out.old out.new written.new) }
    ensures not_open { handle.old.hold.kept ≡ None
        → (result ≡ 7) × (out.new ≡ out.old) × (written.new ≡ 0) }
    ensures kept { handle.new.hold.kept ≡ handle.old.hold.kept }
{
    if !handle.is_open() {
        *written = 0;
        return Reason::NotOpen.code();
    }
    let kept = handle.take(alloc);
    let code = put_tokens(alloc, &kept.document, out, written);
    handle.fill(kept);
    code
}

/// Writes the elements of the tree of a document.
fn put_tree(alloc: Global, document: &Document, out: &mut [ElementRow], written: &mut usize) -> u32
    ensures { IsWritten (element_rows_of document.now) result out.old out.new written.new }
{
    match element_rows(alloc, document) {
        Ok(rows) => put(&rows, out, written),
        Err(_) => {
            *written = 0;
            Reason::NoMemory.code()
        }
    }
}

/// Writes the elements of the tree.
pub fn tree(alloc: Global, handle: &mut Handle, out: &mut [ElementRow], written: &mut usize) -> u32
    ensures rows { IfSome handle.old.hold.kept (λ kept. IsWritten
        (element_rows_of kept.document) result out.old out.new written.new) }
    ensures not_open { handle.old.hold.kept ≡ None
        → (result ≡ 7) × (out.new ≡ out.old) × (written.new ≡ 0) }
    ensures kept { handle.new.hold.kept ≡ handle.old.hold.kept }
{
    if !handle.is_open() {
        *written = 0;
        return Reason::NotOpen.code();
    }
    let kept = handle.take(alloc);
    let code = put_tree(alloc, &kept.document, out, written);
    handle.fill(kept);
    code
}

/// Returns a row for each range.
fn range_rows(alloc: Global, ranges: &[TextRange]) -> Result<Vec<RangeRow>, AllocError>
    ensures { IfOk result (λ rows. rows.items ≡ map range_row ranges.now) }
{
    let mut rows = Vec::with_capacity(alloc, ranges.len())?;
    for range in ranges {
        rows.push(RangeRow {
            start: u32::from(range.start()),
            end: u32::from(range.end()),
        })?;
    }
    Ok(rows)
}

/// Writes ranges.
fn put_ranges(alloc: Global, ranges: &[TextRange], out: &mut [RangeRow], written: &mut usize) -> u32
    ensures { IsWritten (map range_row ranges.now) result out.old out.new written.new }
{
    match range_rows(alloc, ranges) {
        Ok(rows) => put(&rows, out, written),
        Err(_) => {
            *written = 0;
            Reason::NoMemory.code()
        }
    }
}

/// Writes the ranges that the last accepted commit inserted.
pub fn changed(alloc: Global, handle: &mut Handle, out: &mut [RangeRow], written: &mut usize) -> u32
    ensures rows { IfSome handle.old.hold.kept (λ kept. IsWritten
        (map range_row kept.changed.items) result out.old out.new written.new) }
    ensures not_open { handle.old.hold.kept ≡ None
        → (result ≡ 7) × (out.new ≡ out.old) × (written.new ≡ 0) }
    ensures kept { handle.new.hold.kept ≡ handle.old.hold.kept }
{
    if !handle.is_open() {
        *written = 0;
        return Reason::NotOpen.code();
    }
    let kept = handle.take(alloc);
    let code = put_ranges(alloc, &kept.changed, out, written);
    handle.fill(kept);
    code
}

/// Writes the messages of a document and their words.
fn put_messages(
    alloc: Global,
    document: &Document,
    out: &mut [MessageRow],
    written: &mut usize,
    words: &mut [u8],
    words_written: &mut usize,
) -> u32
    ensures { AreWritten (message_rows_of document.now) (message_words_of document.now) result
        out.old out.new written.new words.old words.new words_written.new }
{
    match message_rows(alloc, document) {
        Ok(messages) => {
            let (rows, bytes) = (&messages.rows, messages.words.as_bytes());
            *written = rows.len();
            *words_written = bytes.len();
            put_both(rows, out, bytes, words)
        }
        Err(_) => {
            *written = 0;
            *words_written = 0;
            Reason::NoMemory.code()
        }
    }
}

/// Writes the messages and their words.
pub fn errors(
    alloc: Global,
    handle: &mut Handle,
    out: &mut [MessageRow],
    written: &mut usize,
    words: &mut [u8],
    words_written: &mut usize,
) -> u32
    ensures rows { IfSome handle.old.hold.kept (λ kept. AreWritten
        (message_rows_of kept.document) (message_words_of kept.document) result
        out.old out.new written.new words.old words.new words_written.new) }
    ensures not_open { handle.old.hold.kept ≡ None → (result ≡ 7) × (out.new ≡ out.old)
        × (words.new ≡ words.old) × (written.new ≡ 0) × (words_written.new ≡ 0) }
    ensures kept { handle.new.hold.kept ≡ handle.old.hold.kept }
{
    if !handle.is_open() {
        *written = 0;
        *words_written = 0;
        return Reason::NotOpen.code();
    }
    let kept = handle.take(alloc);
    let code = put_messages(alloc, &kept.document, out, written, words, words_written);
    handle.fill(kept);
    code
}
