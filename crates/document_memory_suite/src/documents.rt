//! Documents that are opened, edited and committed.
use crate::differences::{difference, payload_read, range, whole_input};
use anyhow::bail;
use memory_table::row::{Ask, Row};
use memory_table::shown::all_shown;
use parser_input::{Edition, SyntaxKind};
use ra_parser::TopEntryPoint;
use rowan_green::TextRange;
use rust_document::{
    CommitError, Committed, Document, EditError, OpenError, PayloadEntry, SyntaxEditor,
    WithoutMessagesError, payload,
};
use std::alloc::{AllocError, Global};
use syntax_tree::{Position, SyntaxElement, TreeIds};

/// The calls of `rust_document`.
#[derive(Clone, Copy)]
pub(crate) enum DocumentCall {
    /// Opens a text.
    Open(Edition, &'static str),
    /// Replaces bytes of a text.
    Edit(&'static str, u32, u32, &'static str),
    /// Commits changes of a text.
    Commit(&'static str, Changes),
    /// Commits changes, unless a text has messages.
    CommitWithoutMessages(&'static str, Changes),
    /// Tells the first difference that changes make.
    Difference(&'static str, Changes),
    /// Tries a commit of changes.
    Try(&'static str, Changes),
    Payload,
    Find,
    Editor,
    WholeInput,
}

/// The changes of one commit.
#[derive(Clone, Copy)]
pub(crate) enum Changes {
    /// The name of `struct S;` becomes `Tee`.
    Name,
    /// The first of two structs is deleted, and another inserted behind it.
    Structs,
    /// The name of `struct S;` becomes a keyword.
    Keyword,
    /// Both arguments of a call become one literal.
    Arguments,
    /// An argument becomes another, and so does the call around it.
    Inside,
    /// An argument becomes another, and the statement around it is deleted.
    Nested,
    /// Two editors delete a struct each, and are merged.
    Merged,
}

/// An element by its kind and range.
type Place = (SyntaxKind, u32, u32);

/// The kinds and ends of a document's tokens.
fn tokens(alloc: Global, document: &Document) -> Result<String, AllocError> {
    let mut out = String::new(alloc);
    for token in document.tokens() {
        let name = token.kind.name();
        out.push_str(format!(in alloc; "{name} {} ", token.range.end().0)?.as_str())?;
    }
    Ok(out)
}

/// The offsets and words of a document's messages.
fn messages(alloc: Global, document: &Document) -> Result<String, AllocError> {
    let mut out = String::new(alloc);
    for error in document.errors() {
        out.push_str(format!(in alloc; "{} {error}; ", error.offset)?.as_str())?;
    }
    Ok(out)
}

/// All that a document says: its text, the number and the elements of its tree, its tokens and its
/// messages.
fn state(alloc: Global, document: &Document) -> Result<String, AllocError> {
    let elements = all_shown(alloc, document.root().descendants_with_tokens(alloc)?)?;
    let (tokens, messages) = (tokens(alloc, document)?, messages(alloc, document)?);
    let number = document.root().tree();
    format!(in alloc;
        "{}|{number} {elements}|{tokens}|{messages}",
        document.text()
    )
}

/// Opens a text, a second time if it runs out of memory: the tree has the number that it has without a
/// refusal.
fn open(
    alloc: Global,
    (edition, text): (Edition, &str),
    ids: &mut TreeIds,
    refused: &mut u32,
) -> anyhow::Result<Document> {
    match Document::open(alloc, edition, text, ids) {
        Err(OpenError::NoMemory) => {
            *refused = refused.saturating_add(1);
            Ok(Document::open(alloc, edition, text, ids)?)
        }
        opened => Ok(opened?),
    }
}

/// Edits a document, a second time if it runs out of memory: the document is as it was then.
fn edit(
    alloc: Global,
    document: &mut Document,
    (at, text): (TextRange, &str),
    ids: &mut TreeIds,
    refused: &mut u32,
) -> anyhow::Result<String> {
    let before = state(alloc, document)?;
    for _ in 0..2 {
        if !document.can_edit(at) {
            bail!("no edit");
        }
        match document.edit(alloc, at, text, ids) {
            Err(EditError::NoMemory) => *refused = refused.saturating_add(1),
            answer => {
                let edited = answer?;
                let (front, lexed, back) = (edited.front, edited.lexed, edited.back);
                let is_kept = edited.steps == 0;
                let now = state(alloc, document)?;
                return Ok(format!(in alloc; "{front} {lexed} {back} {is_kept} {now}")?);
            }
        }
        if state(alloc, document)?.as_str() != before.as_str() {
            bail!("a refused edit changed the document");
        }
    }
    bail!("refused twice")
}

/// The element at a place.
fn found(alloc: Global, document: &Document, place: Place) -> anyhow::Result<SyntaxElement> {
    let (kind, start, end) = place;
    match document.find(alloc, kind, range(start, end))? {
        Some(element) => Ok(element),
        None => bail!("not found"),
    }
}

pub(crate) fn read(
    alloc: Global,
    entry: TopEntryPoint,
    text: &str,
    ids: &mut TreeIds,
) -> anyhow::Result<SyntaxElement> {
    Ok(payload(
        alloc,
        PayloadEntry::Top(entry),
        Edition::Edition2021,
        text,
        ids,
    )?)
}

/// An editor that deletes an element.
fn deleting(alloc: Global, document: &Document, place: Place) -> anyhow::Result<SyntaxEditor> {
    let target = found(alloc, document, place)?;
    let mut editor = document.editor(alloc)?;
    editor.delete(alloc, &target)?;
    Ok(editor)
}

/// The editor with one more replacement.
fn replacing(
    alloc: Global,
    mut editor: SyntaxEditor,
    target: SyntaxElement,
    new: &SyntaxElement,
) -> anyhow::Result<SyntaxEditor> {
    editor.replace(alloc, &target, new)?;
    Ok(editor)
}

const FIRST: Place = (SyntaxKind::STRUCT, 0, 9);

const SECOND: Place = (SyntaxKind::STRUCT, 10, 19);

const ONE: Place = (SyntaxKind::LITERAL, 11, 12);

const TWO: Place = (SyntaxKind::LITERAL, 14, 15);

/// An editor that deletes the first struct, and inserts another behind it.
fn structs(alloc: Global, document: &Document, ids: &mut TreeIds) -> anyhow::Result<SyntaxEditor> {
    let item = read(alloc, TopEntryPoint::SourceFile, "struct U;", ids)?;
    let SyntaxElement::Node(file) = item else {
        bail!("no file");
    };
    let Some(item) = file.nth_child_or_token(alloc, 0)? else {
        bail!("no item");
    };
    let first = found(alloc, document, FIRST)?;
    let mut editor = deleting(alloc, document, FIRST)?;
    editor.insert(alloc, Position::after(&first)?, &item)?;
    Ok(editor)
}

/// An editor that deletes both structs, merged of one for each.
fn merged(alloc: Global, document: &Document) -> anyhow::Result<SyntaxEditor> {
    let mut editor = deleting(alloc, document, FIRST)?;
    match editor.merge(deleting(alloc, document, SECOND)?) {
        Ok(()) => Ok(editor),
        Err(unmerged) => Err(unmerged.error.into()),
    }
}

/// An editor that replaces an element by a token.
fn renaming(
    alloc: Global,
    document: &Document,
    name: &str,
    ids: &mut TreeIds,
) -> anyhow::Result<SyntaxEditor> {
    let new = payload(alloc, PayloadEntry::Token, Edition::Edition2021, name, ids)?;
    let target = found(alloc, document, (SyntaxKind::IDENT, 7, 8))?;
    replacing(alloc, document.editor(alloc)?, target, &new)
}

/// An editor that replaces both arguments by one element, or one argument and what is around it.
fn arguments(
    alloc: Global,
    changes: Changes,
    document: &Document,
    ids: &mut TreeIds,
) -> anyhow::Result<SyntaxEditor> {
    let new = read(alloc, TopEntryPoint::Expr, "3", ids)?;
    let editor = match changes {
        Changes::Arguments => {
            let editor = document.editor(alloc)?;
            replacing(alloc, editor, found(alloc, document, TWO)?, &new)?
        }
        Changes::Inside => {
            let call = read(alloc, TopEntryPoint::Expr, "h()", ids)?;
            let around = found(alloc, document, (SyntaxKind::CALL_EXPR, 9, 13))?;
            replacing(alloc, document.editor(alloc)?, around, &call)?
        }
        _ => deleting(alloc, document, (SyntaxKind::EXPR_STMT, 9, 14))?,
    };
    replacing(alloc, editor, found(alloc, document, ONE)?, &new)
}

/// Returns an editor with changes recorded.
pub(crate) fn recorded(
    alloc: Global,
    changes: Changes,
    document: &Document,
    ids: &mut TreeIds,
) -> anyhow::Result<SyntaxEditor> {
    match changes {
        Changes::Name => renaming(alloc, document, "Tee", ids),
        Changes::Keyword => renaming(alloc, document, "struct", ids),
        Changes::Structs => structs(alloc, document, ids),
        Changes::Merged => merged(alloc, document),
        _ => arguments(alloc, changes, document, ids),
    }
}

/// The text of a document and the ranges that a commit changed, or the number of the refusal.
fn told(
    alloc: Global,
    document: &Document,
    answer: Result<Committed, WithoutMessagesError>,
) -> Result<String, AllocError> {
    let committed = match answer {
        Ok(committed) => committed,
        Err(WithoutMessagesError::Messages) => return String::from_str(alloc, "messages"),
        Err(WithoutMessagesError::Refused(refusal)) => {
            return format!(in alloc; "refused {}", refusal as u32);
        }
    };
    let mut out = format!(in alloc; "{}", document.text())?;
    for range in &committed.changed {
        let (start, end) = (range.start().0, range.end().0);
        out.push_str(format!(in alloc; " {start}..{end}")?.as_str())?;
    }
    Ok(out)
}

/// Commits what an editor recorded. `may_have_messages` says by which call.
fn committed(
    alloc: Global,
    document: &mut Document,
    may_have_messages: bool,
    editor: SyntaxEditor,
    ids: &mut TreeIds,
) -> Result<Committed, WithoutMessagesError> {
    if may_have_messages {
        return Ok(document.commit(alloc, editor, ids)?);
    }
    document.commit_without_messages(alloc, editor, ids)
}

/// Commits changes, which are recorded a second time if it runs out of memory: the document is as it
/// was then.
fn commit(
    alloc: Global,
    document: &mut Document,
    (may_have_messages, changes): (bool, Changes),
    ids: &mut TreeIds,
    refused: &mut u32,
) -> anyhow::Result<String> {
    let before = state(alloc, document)?;
    for _ in 0..2 {
        let editor = recorded(alloc, changes, document, ids)?;
        match committed(alloc, document, may_have_messages, editor, ids) {
            Err(WithoutMessagesError::Refused(CommitError::NoMemory)) => {
                *refused = refused.saturating_add(1);
            }
            answer => return Ok(told(alloc, document, answer)?),
        }
        if state(alloc, document)?.as_str() != before.as_str() {
            bail!("a refused commit changed the document");
        }
    }
    bail!("refused twice")
}

impl DocumentCall {
    /// Returns the edition and the text of the document that the call is made on.
    fn source(self) -> (Edition, &'static str) {
        match self {
            DocumentCall::Open(edition, text) => (edition, text),
            DocumentCall::Edit(text, _, _, _)
            | DocumentCall::Commit(text, _)
            | DocumentCall::CommitWithoutMessages(text, _)
            | DocumentCall::Difference(text, _)
            | DocumentCall::Try(text, _) => (Edition::Edition2021, text),
            _ => (Edition::Edition2021, "struct S;"),
        }
    }
}

/// Returns the answer of an opened document.
fn asked(
    alloc: Global,
    call: DocumentCall,
    document: &mut Document,
    ids: &mut TreeIds,
    refused: &mut u32,
) -> anyhow::Result<String> {
    match call {
        DocumentCall::Edit(_, start, end, put) => {
            edit(alloc, document, (range(start, end), put), ids, refused)
        }
        DocumentCall::Commit(_, changes) => {
            commit(alloc, document, (true, changes), ids, refused)
        }
        DocumentCall::CommitWithoutMessages(_, changes) => {
            commit(alloc, document, (false, changes), ids, refused)
        }
        DocumentCall::Difference(_, changes) => {
            let editor = recorded(alloc, changes, document, ids)?;
            difference(alloc, document, &editor)
        }
        DocumentCall::Try(_, changes) => {
            let editor = recorded(alloc, changes, document, ids)?;
            Ok(document.try_commit(alloc, &editor)?)
        }
        DocumentCall::Find => {
            let name = found(alloc, document, (SyntaxKind::NAME, 7, 8))?;
            Ok(format!(in alloc; "{}", name.green()?)?)
        }
        DocumentCall::Editor => {
            Ok(format!(in alloc; "{}", document.editor(alloc)?.root().tree())?)
        }
        _ => Ok(state(alloc, document)?),
    }
}

impl Ask for DocumentCall {
    fn answer(self, alloc: Global, refused: &mut u32) -> anyhow::Result<String> {
        let mut ids = TreeIds::new();
        match self {
            DocumentCall::Payload => payload_read(alloc),
            DocumentCall::WholeInput => whole_input(alloc),
            _ => {
                let mut document = open(alloc, self.source(), &mut ids, refused)?;
                asked(alloc, self, &mut document, &mut ids, refused)
            }
        }
    }
}

/// `struct S;` as it is opened.
const STRUCT: &str =
    "struct S;|1 SOURCE_FILE@0..9 STRUCT@0..9 STRUCT_KW@0..6 WHITESPACE@6..7 NAME@7..8 IDENT@7..8 SEMICOLON@8..9 |STRUCT_KW 6 WHITESPACE 7 IDENT 8 SEMICOLON 9 |";

/// `#"a"` before and in the edition that keeps the prefix for later.
const ATTRIBUTE: &str =
    "#\"a\"|1 SOURCE_FILE@0..4 ERROR@0..1 ATTR@0..1 POUND@0..1 ERROR@1..4 STRING@1..4 |POUND 1 STRING 4 |1 expected L_BRACK; 1 expected META; 1 expected R_BRACK; 1 expected an item; 1 expected an item; ";

const GUARDED: &str =
    "#\"a\"|1 SOURCE_FILE@0..4 ERROR@0..2 ERROR@0..2 ERROR@2..3 PATH@2..3 PATH_SEGMENT@2..3 NAME_REF@2..3 IDENT@2..3 ERROR@3..4 STRING@3..4 |ERROR 2 IDENT 3 STRING 4 |0 expected an item; 3 expected an item; 3 expected an item; 0 guarded prefix; 2 unknown prefix; 3 unterminated literal; ";

/// `fn f() { x.0.1; }` without the `1`: parsed again.
const FLOAT: &str =
    "10 1 3 false fn f() { x.0.; }|2 SOURCE_FILE@0..16 FN@0..16 FN_KW@0..2 WHITESPACE@2..3 NAME@3..4 IDENT@3..4 PARAM_LIST@4..6 L_PAREN@4..5 R_PAREN@5..6 WHITESPACE@6..7 BLOCK_EXPR@7..16 STMT_LIST@7..16 L_CURLY@7..8 WHITESPACE@8..9 EXPR_STMT@9..14 FIELD_EXPR@9..13 FIELD_EXPR@9..12 PATH_EXPR@9..10 PATH@9..10 PATH_SEGMENT@9..10 NAME_REF@9..10 IDENT@9..10 DOT@10..11 NAME_REF@11..12 INT_NUMBER@11..12 DOT@12..13 SEMICOLON@13..14 WHITESPACE@14..15 R_CURLY@15..16 |FN_KW 2 WHITESPACE 3 IDENT 4 L_PAREN 5 R_PAREN 6 WHITESPACE 7 L_CURLY 8 WHITESPACE 9 IDENT 10 DOT 11 FLOAT_NUMBER 13 SEMICOLON 14 WHITESPACE 15 R_CURLY 16 |13 expected field name or number; ";

/// A comment with another letter: not parsed again.
const COMMENT: &str =
    "5 1 0 true struct S; // b|2 SOURCE_FILE@0..14 STRUCT@0..9 STRUCT_KW@0..6 WHITESPACE@6..7 NAME@7..8 IDENT@7..8 SEMICOLON@8..9 WHITESPACE@9..10 COMMENT@10..14 |STRUCT_KW 6 WHITESPACE 7 IDENT 8 SEMICOLON 9 WHITESPACE 10 COMMENT 14 |";

const STRUCTS: &str = "struct S; struct T;";

pub(crate) const ROWS: &[Row<DocumentCall>] = &[
    (
        "rust_document::Document::open",
        DocumentCall::Open(Edition::Edition2021, "struct S;"),
        STRUCT,
    ),
    (
        "rust_document::Document::open",
        DocumentCall::Open(Edition::Edition2021, "#\"a\""),
        ATTRIBUTE,
    ),
    (
        "rust_document::Document::open",
        DocumentCall::Open(Edition::Edition2024, "#\"a\""),
        GUARDED,
    ),
    (
        "rust_document::Document::edit",
        DocumentCall::Edit("fn f() { x.0.1; }", 13, 14, ""),
        FLOAT,
    ),
    (
        "rust_document::Document::edit",
        DocumentCall::Edit("struct S; // a", 13, 14, "b"),
        COMMENT,
    ),
    (
        "rust_document::Document::commit",
        DocumentCall::Commit("struct S;", Changes::Keyword),
        "refused 5",
    ),
    (
        "rust_document::Document::commit",
        DocumentCall::Commit("struct S;", Changes::Name),
        "struct Tee; 7..10",
    ),
    (
        "rust_document::Document::commit",
        DocumentCall::Commit(STRUCTS, Changes::Structs),
        "struct U; struct T; 0..9",
    ),
    (
        "rust_document::Document::commit",
        DocumentCall::Commit("fn f() { g(1, 2); }", Changes::Arguments),
        "fn f() { g(3, 3); } 11..12 14..15",
    ),
    (
        "rust_document::Document::commit",
        DocumentCall::Commit("fn f() { g(1); }", Changes::Inside),
        "refused 3",
    ),
    (
        "rust_document::Document::commit",
        DocumentCall::Commit("fn f() { g(1); }", Changes::Nested),
        "fn f() {  }",
    ),
    (
        "rust_document::Document::commit",
        DocumentCall::Commit(STRUCTS, Changes::Merged),
        " ",
    ),
    (
        "rust_document::Document::commit_without_messages",
        DocumentCall::CommitWithoutMessages("struct S;", Changes::Name),
        "struct Tee; 7..10",
    ),
    (
        "rust_document::Document::commit_without_messages",
        DocumentCall::CommitWithoutMessages("struct S; }", Changes::Name),
        "messages",
    ),
    (
        "rust_document::Document::difference",
        DocumentCall::Difference("struct S;", Changes::Name),
        "none",
    ),
    (
        "rust_document::Document::difference",
        DocumentCall::Difference("struct S;", Changes::Keyword),
        "7..13 NAME -",
    ),
    (
        "rust_document::Document::try_commit",
        DocumentCall::Try("struct S;", Changes::Name),
        "struct Tee;",
    ),
    ("rust_document::payload", DocumentCall::Payload, "1 1 + 2"),
    ("rust_document::Document::find", DocumentCall::Find, "S"),
    ("rust_document::Document::editor", DocumentCall::Editor, "1"),
    ("ra_parser::Grammar::input", DocumentCall::WholeInput, "3"),
];
