//! Opens the text on standard input as a document five times, edits a name in its middle four
//! times, and commits another name for its last one. Prints whether the commit succeeded and the
//! number of bytes of the text, or the error of opening; then edits lists of tokens, and prints how
//! many were replaced. The times go to standard error, in microseconds.
#![tactic(auto)]

use parser_input::edition::Edition;
use parser_input::syntax_kind::SyntaxKind;
use rowan_green::TextRange;
use rust_document::{Committed, Document, OpenError, PayloadEntry, SyntaxEditor, payload};
use std::alloc::Global;
use std::io;
use std::time::Instant;
use syntax_tree::{SyntaxElement, TreeIds};

mod edits;

/// The number of times that a text is opened before its last name is replaced.
const AGAIN: usize = 4;

/// Returns the range of the last name of the text.
fn last_name(document: &Document) -> Option<TextRange> {
    let mut last = None;
    for token in document.tokens() {
        if token.kind == SyntaxKind::IDENT {
            last = Some(token.range);
        }
    }
    last
}

/// Returns the range of the first name in the second half of the text.
fn middle_name(document: &Document) -> Option<TextRange> {
    let half = document.text().len() / 2;
    for token in document.tokens() {
        if token.kind == SyntaxKind::IDENT && usize::from(token.range.start()) >= half {
            return Some(token.range);
        }
    }
    None
}

/// Returns the last name of the text as an element of the tree.
fn target(alloc: Global, document: &Document) -> Option<SyntaxElement> {
    let range = last_name(document)?;
    document.find(alloc, SyntaxKind::IDENT, range).ok()?
}

/// Returns an editor that replaces the last name with `renamed`.
fn editor(alloc: Global, document: &Document, ids: &mut TreeIds) -> Option<SyntaxEditor> {
    let old = target(alloc, document)?;
    let edition = document.edition();
    let new = payload(alloc, PayloadEntry::Token, edition, "renamed", ids).ok()?;
    let mut editor = document.editor(alloc).ok()?;
    editor.replace(alloc, &old, &new).ok()?;
    Some(editor)
}

fn commit(alloc: Global, document: &mut Document, ids: &mut TreeIds) -> Option<Committed> {
    let editor = editor(alloc, document, ids)?;
    document.commit(alloc, editor, ids).ok()
}

fn opened(
    rt: &HostRuntime,
    text: &str,
    ids: &mut TreeIds,
) -> io::Result<Result<Document, OpenError>> {
    let start = Instant::now(rt)?;
    let opened = Document::open(rt.alloc(), Edition::Edition2021, text, ids);
    let micros = start.elapsed(rt)?.as_micros();
    eprintln!(rt; "open: {} bytes, {micros} microseconds", text.len())?;
    Ok(opened)
}

/// Replaces a name in the middle of the text with `renamed`.
fn edit(rt: &HostRuntime, document: &mut Document, ids: &mut TreeIds) -> io::Result<()> {
    let Some(range) = middle_name(document) else {
        return Ok(());
    };
    if !document.can_edit(range) {
        return Ok(());
    }
    let start = Instant::now(rt)?;
    let edited = document.edit(rt.alloc(), range, "renamed", ids).is_ok();
    let micros = start.elapsed(rt)?.as_micros();
    eprintln!(rt; "edit of a name in the middle: {micros} microseconds, {edited}")
}

fn measured(rt: &HostRuntime, text: &str) -> io::Result<()> {
    let mut ids = TreeIds::new();
    // The first opening pays for memory that the process was never given before.
    for _ in 0..AGAIN {
        if let Ok(mut document) = opened(rt, text, &mut ids)? {
            edit(rt, &mut document, &mut ids)?;
        }
    }
    let mut document = match opened(rt, text, &mut ids)? {
        Ok(document) => document,
        Err(error) => return println!(rt; "{error}"),
    };
    let start = Instant::now(rt)?;
    let committed = commit(rt.alloc(), &mut document, &mut ids).is_some();
    let micros = start.elapsed(rt)?.as_micros();
    eprintln!(rt; "find, replace and commit: {micros} microseconds")?;
    println!(rt; "{committed} {}", document.text().len())
}

fn main(rt: HostRuntime) -> io::Result<()> {
    let text = io::read_to_string(rt.alloc(), rt.reader())?;
    measured(&rt, text.as_str())?;
    edits::measure(&rt, 10_000)?;
    edits::measure(&rt, 100_000)
}
