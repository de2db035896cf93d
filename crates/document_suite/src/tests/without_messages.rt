//! Commits that ask for texts without messages.
use super::{Place, SEMICOLON, deleting, expression, found, has_text, replacing};
use parser_input::edition::Edition;
use parser_input::syntax_kind::SyntaxKind;
use rust_document::{CommitError, Document, SyntaxEditor, WithoutMessagesError};
use std::alloc::Global;
use std::test::Fail;
use syntax_tree::TreeIds;

/// A change of one element, which becomes an expression or is deleted.
#[derive(Clone, Copy)]
struct Row {
    text: &'static str,
    place: Place,
    new: Option<&'static str>,
    refusal: Option<WithoutMessagesError>,
    /// The text after a commit that allows messages.
    committed: &'static str,
}

/// Returns an editor with the change of a row.
fn recorded(
    alloc: Global,
    document: &Document,
    row: &Row,
    ids: &mut TreeIds,
) -> Result<SyntaxEditor, Fail> {
    match row.new {
        Some(new) => {
            let new = expression(alloc, new, ids)?;
            replacing(alloc, document, row.place, &new)
        }
        None => {
            let target = found(alloc, document, row.place)?;
            deleting(alloc, document, &target)
        }
    }
}

/// Returns why a commit without messages is refused, if it is.
fn refusal(
    alloc: Global,
    document: &mut Document,
    row: &Row,
    ids: &mut TreeIds,
) -> Result<Option<WithoutMessagesError>, Fail> {
    let editor = recorded(alloc, document, row, ids)?;
    Ok(document.commit_without_messages(alloc, editor, ids).err())
}

/// Returns `true` if both commits do what a row says: the first changes nothing if it is refused.
fn is_answered(alloc: Global, row: &Row) -> Result<bool, Fail> {
    let mut ids = TreeIds::new();
    let mut document = Document::open(alloc, Edition::Edition2021, row.text, &mut ids)?;
    let is_right = refusal(alloc, &mut document, row, &mut ids)? == row.refusal;
    if row.refusal.is_none() {
        return Ok(is_right & has_text(&document, row.committed));
    }
    let is_kept = has_text(&document, row.text);
    let editor = recorded(alloc, &document, row, &mut ids)?;
    let is_accepted = document.commit(alloc, editor, &mut ids).is_ok();
    Ok(is_right & is_kept & is_accepted & has_text(&document, row.committed))
}

const ROWS: &[Row] = &[
    Row {
        text: "fn f() { g(1 + 2); }",
        place: (SyntaxKind::BIN_EXPR, 11, 16),
        new: Some("3"),
        refusal: None,
        committed: "fn f() { g(3); }",
    },
    // A label is not read: the present text has messages.
    Row {
        text: "fn f() { 'a: while g(1 + 2) {} }",
        place: (SyntaxKind::BIN_EXPR, 21, 26),
        new: Some("3"),
        refusal: Some(WithoutMessagesError::Messages),
        committed: "fn f() { 'a: while g(3) {} }",
    },
    // A struct without its end reads as one, with a message.
    Row {
        text: "struct S;",
        place: SEMICOLON,
        new: None,
        refusal: Some(WithoutMessagesError::Messages),
        committed: "struct S",
    },
];

#[test]
fn texts_without_messages(rt: HostRuntime) -> Result<(), Fail> {
    for row in ROWS {
        assert!(rt; is_answered(rt.alloc(), row)?, "{}", row.text);
    }
    Ok(())
}

/// What the verdict says comes first, whatever messages the text has.
#[test]
fn unfaithful_comes_first(rt: HostRuntime) -> Result<(), Fail> {
    let alloc = rt.alloc();
    let mut ids = TreeIds::new();
    let row = Row {
        text: "fn f() { g(1 + 2); } }",
        place: (SyntaxKind::LITERAL, 11, 12),
        new: Some("3 == 4"),
        refusal: Some(WithoutMessagesError::Refused(CommitError::Unfaithful)),
        committed: "",
    };
    let mut document = Document::open(alloc, Edition::Edition2021, row.text, &mut ids)?;
    let is_right = refusal(alloc, &mut document, &row, &mut ids)? == row.refusal;
    let is_kept = has_text(&document, row.text);
    drop(document);
    assert!(rt; is_right & is_kept);
    Ok(())
}
