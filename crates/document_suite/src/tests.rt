//! Tests of documents and trees from a caller's view: calls succeed while allocations succeed, and
//! the worked cases.
//!
//! A test asserts when what it made is dropped already, and helpers join facts by `&`: each way out of a function is proved, with
//! all that is dropped on it.
mod annotated;
mod comments;
mod commits;
mod differences;
mod edits;
mod grammars;
mod guide;
mod kept;
mod merged;
mod no_text;
mod opening;
mod payloads;
mod recording;
mod refused_memory;
mod renames;
mod rewrites;
mod trees;
mod tries;
mod without_messages;

use parser_input::edition::Edition;
use parser_input::syntax_kind::SyntaxKind;
use ra_parser::TopEntryPoint;
use rowan_green::{TextRange, TextSize};
use rust_document::{Document, EditError, Edited, OpenError, PayloadEntry, SyntaxEditor, payload};
use std::alloc::{AllocError, Global};
use std::test::Fail;
use syntax_tree::{SyntaxElement, TreeIds};

/// An element by its kind and range.
type Place = (SyntaxKind, u32, u32);

/// A text of edition 2021, whose tree has the number 1.
fn open(alloc: Global, text: &str) -> Result<Document, OpenError> {
    Document::open(alloc, Edition::Edition2021, text, &mut TreeIds::new())
}

fn has_text(document: &Document, text: &str) -> bool {
    document.text() == text
}

fn range(start: u32, end: u32) -> TextRange {
    if end < start {
        return TextRange::empty(TextSize::new(start));
    }
    TextRange::new(TextSize::new(start), TextSize::new(end))
}

/// The element at a place.
fn found(alloc: Global, document: &Document, place: Place) -> Result<SyntaxElement, Fail> {
    let (kind, start, end) = place;
    match document.find(alloc, kind, range(start, end))? {
        Some(element) => Ok(element),
        None => Err(Fail::new("not found")),
    }
}

/// Returns an editor that replaces the element at a place with a new one.
fn replacing(
    alloc: Global,
    document: &Document,
    place: Place,
    new: &SyntaxElement,
) -> Result<SyntaxEditor, Fail> {
    let target = found(alloc, document, place)?;
    let mut editor = document.editor(alloc)?;
    editor.replace(alloc, &target, new)?;
    Ok(editor)
}

/// Returns an editor that deletes an element.
fn deleting(
    alloc: Global,
    document: &Document,
    target: &SyntaxElement,
) -> Result<SyntaxEditor, Fail> {
    let mut editor = document.editor(alloc)?;
    editor.delete(alloc, target)?;
    Ok(editor)
}

/// Returns an editor with what two editors recorded.
fn merging(mut editor: SyntaxEditor, second: SyntaxEditor) -> Result<SyntaxEditor, Fail> {
    if editor.merge(second).is_err() {
        return Err(Fail::new("not merged"));
    }
    Ok(editor)
}

/// Returns the expression that a text of edition 2021 is.
fn expression(alloc: Global, text: &str, ids: &mut TreeIds) -> Result<SyntaxElement, Fail> {
    let entry = PayloadEntry::Top(TopEntryPoint::Expr);
    Ok(payload(alloc, entry, Edition::Edition2021, text, ids)?)
}

/// Returns what a document answers to an edit. A range that no edit may have fails the test.
fn edit(
    alloc: Global,
    document: &mut Document,
    at: TextRange,
    text: &str,
    ids: &mut TreeIds,
) -> Result<Result<Edited, EditError>, Fail> {
    if !document.can_edit(at) {
        return Err(Fail::new("no range that can be edited"));
    }
    Ok(document.edit(alloc, at, text, ids))
}

/// Returns `count` spaces.
fn spaces(alloc: Global, count: usize) -> Result<String, AllocError> {
    let mut text = String::with_capacity(alloc, count)?;
    for _ in 0..count {
        text.push(' ')?;
    }
    Ok(text)
}

/// The name in `struct S;`.
const IDENT: Place = (SyntaxKind::IDENT, 7, 8);

/// The whitespace in `struct S;`.
const SPACE: Place = (SyntaxKind::WHITESPACE, 6, 7);

/// The end of `struct S;`.
const SEMICOLON: Place = (SyntaxKind::SEMICOLON, 8, 9);

/// The root of `struct S;`.
const ROOT: Place = (SyntaxKind::SOURCE_FILE, 0, 9);

/// The structs of `struct S; struct T;`, of which the first is that of `struct S;` too.
const FIRST: Place = (SyntaxKind::STRUCT, 0, 9);

const SECOND: Place = (SyntaxKind::STRUCT, 10, 19);

/// The literals of `fn f() { g(1, 2); }`, and the only one of `fn f() { g(1); }`.
const ONE: Place = (SyntaxKind::LITERAL, 11, 12);

const TWO: Place = (SyntaxKind::LITERAL, 14, 15);
