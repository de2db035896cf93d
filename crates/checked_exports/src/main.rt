//! The exports of the library for C, Rust and Python, as functions of a program: the checked
//! library is made of it (`gate/fast_library.py`). The program itself calls each export once.
//! `tevondimby_c` has the same functions with their contracts.
#![tactic(auto)]

mod tour;

use document_rows::{ElementRow, MessageRow, RangeRow, TokenRow};
use kept_document::{Handle, calls, texts, views};
use std::alloc::Global;
use std::io;

/// Answers a request as `document_tool` does. A request with too deep a text is not run.
#[unsafe(no_mangle)]
pub extern "C" fn tevondimby_run(
    alloc: Global,
    request: &[u8],
    out: &mut [u8],
    written: &mut usize,
    status: &mut u8,
) -> u32 {
    texts::run(alloc, request, out, written, status)
}

/// Counts the messages of a text.
#[unsafe(no_mangle)]
pub extern "C" fn tevondimby_check(
    alloc: Global,
    text: &[u8],
    edition: u32,
    grammar: u32,
    count: &mut usize,
) -> u32 {
    texts::check(alloc, text, edition, grammar, count)
}

/// Writes the name of a kind.
#[unsafe(no_mangle)]
pub extern "C" fn tevondimby_kind_name(kind: u32, out: &mut [u8], written: &mut usize) -> u32 {
    texts::kind_name(kind, out, written)
}

/// Opens a document in a closed handle.
#[unsafe(no_mangle)]
pub extern "C" fn tevondimby_open(
    alloc: Global,
    handle: &mut Handle,
    text: &[u8],
    edition: u32,
    grammar: u32,
) -> u32 {
    calls::open(alloc, handle, text, edition, grammar)
}

/// Closes an open handle and frees its document.
#[unsafe(no_mangle)]
pub extern "C" fn tevondimby_free(alloc: Global, handle: &mut Handle) -> u32 {
    calls::free(alloc, handle)
}

/// Replaces the bytes from `start` to just before `end` with `text`.
#[unsafe(no_mangle)]
pub extern "C" fn tevondimby_edit(
    alloc: Global,
    handle: &mut Handle,
    start: usize,
    end: usize,
    text: &[u8],
) -> u32 {
    calls::edit(alloc, handle, start, end, text)
}

/// Makes the changes of one commit, given as JSON.
#[unsafe(no_mangle)]
pub extern "C" fn tevondimby_commit(alloc: Global, handle: &mut Handle, command: &[u8]) -> u32 {
    calls::commit(alloc, handle, command)
}

/// Renames each identifier `old` to `new`.
#[unsafe(no_mangle)]
pub extern "C" fn tevondimby_rename(
    alloc: Global,
    handle: &mut Handle,
    old: &[u8],
    new: &[u8],
) -> u32 {
    calls::rename(alloc, handle, old, new)
}

/// Writes the text.
#[unsafe(no_mangle)]
pub extern "C" fn tevondimby_text(
    alloc: Global,
    handle: &mut Handle,
    out: &mut [u8],
    written: &mut usize,
) -> u32 {
    views::text(alloc, handle, out, written)
}

/// Writes the tokens.
#[unsafe(no_mangle)]
pub extern "C" fn tevondimby_tokens(
    alloc: Global,
    handle: &mut Handle,
    out: &mut [TokenRow],
    written: &mut usize,
) -> u32 {
    views::tokens(alloc, handle, out, written)
}

/// Writes the elements of the tree.
#[unsafe(no_mangle)]
pub extern "C" fn tevondimby_tree(
    alloc: Global,
    handle: &mut Handle,
    out: &mut [ElementRow],
    written: &mut usize,
) -> u32 {
    views::tree(alloc, handle, out, written)
}

/// Writes the messages and their words.
#[unsafe(no_mangle)]
pub extern "C" fn tevondimby_errors(
    alloc: Global,
    handle: &mut Handle,
    out: &mut [MessageRow],
    written: &mut usize,
    words: &mut [u8],
    words_written: &mut usize,
) -> u32 {
    views::errors(alloc, handle, out, written, words, words_written)
}

/// Writes the ranges that the last accepted commit inserted.
#[unsafe(no_mangle)]
pub extern "C" fn tevondimby_changed(
    alloc: Global,
    handle: &mut Handle,
    out: &mut [RangeRow],
    written: &mut usize,
) -> u32 {
    views::changed(alloc, handle, out, written)
}

fn main(rt: HostRuntime) -> io::Result<()> {
    tour::codes(rt)
}
