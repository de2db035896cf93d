//! Commits: what is changed, and what is refused and changes nothing.
use super::{IDENT, Place, ROOT, SPACE, found, has_text, open, range, replacing, spaces};
use parser_input::edition::Edition;
use rowan_green::TextRange;
use rust_document::{
    CommitError, Committed, Document, MAX_TEXT, PayloadEntry, SyntaxEditor, payload,
};
use std::alloc::Global;
use std::test::Fail;
use syntax_tree::TreeIds;

/// The only range that a commit tells.
fn only_range(committed: &Committed) -> Option<TextRange> {
    match committed.changed.as_slice() {
        [changed] => Some(*changed),
        _ => None,
    }
}

/// What a document answers to an editor: the range that is changed, if there is just one.
pub(super) fn commit(
    alloc: Global,
    document: &mut Document,
    editor: SyntaxEditor,
    ids: &mut TreeIds,
) -> Result<Option<TextRange>, CommitError> {
    let committed = document.commit(alloc, editor, ids)?;
    Ok(only_range(&committed))
}

/// An editor that puts a token for an element.
pub(super) fn put(
    alloc: Global,
    document: &Document,
    place: Place,
    (edition, text): (Edition, &str),
    ids: &mut TreeIds,
) -> Result<SyntaxEditor, Fail> {
    let new = payload(alloc, PayloadEntry::Token, edition, text, ids)?;
    replacing(alloc, document, place, &new)
}

/// A token of an edition that is put for the name in `struct S;` of another; the range that is changed, and the text.
#[derive(Clone, Copy)]
struct Row {
    edition: Edition,
    token: (Edition, &'static str),
    answer: Result<(u32, u32), CommitError>,
    text: &'static str,
    number: u32,
}

/// Returns `true` if an answer is the expected one: the start and the end of the changed range, or an error.
pub(super) fn is_answer(
    answer: Result<Option<TextRange>, CommitError>,
    expected: Result<(u32, u32), CommitError>,
) -> bool {
    match expected {
        Ok((start, end)) => answer == Ok(Some(range(start, end))),
        Err(error) => answer == Err(error),
    }
}

/// Whether a commit does what its row says.
fn is_answered(alloc: Global, row: &Row) -> Result<bool, Fail> {
    let mut ids = TreeIds::new();
    let mut document = Document::open(alloc, row.edition, "struct S;", &mut ids)?;
    let editor = put(alloc, &document, IDENT, row.token, &mut ids)?;
    let answer = commit(alloc, &mut document, editor, &mut ids);
    let number = document.root().tree() == row.number;
    Ok(is_answer(answer, row.answer) & number & has_text(&document, row.text))
}

const OLD: Edition = Edition::Edition2015;

const NEW: Edition = Edition::Edition2021;

const TOKENS: &[Row] = &[
    Row {
        edition: NEW,
        token: (NEW, "Tee"),
        answer: Ok((7, 10)),
        text: "struct Tee;",
        number: 3,
    },
    Row {
        edition: OLD,
        token: (OLD, "async"),
        answer: Ok((7, 12)),
        text: "struct async;",
        number: 3,
    },
    Row {
        edition: NEW,
        token: (NEW, "struct"),
        answer: Err(CommitError::Unfaithful),
        text: "struct S;",
        number: 1,
    },
    Row {
        edition: NEW,
        token: (OLD, "async"),
        answer: Err(CommitError::Unfaithful),
        text: "struct S;",
        number: 1,
    },
];

#[test]
fn tokens_for_a_name(rt: HostRuntime) -> Result<(), Fail> {
    for row in TOKENS {
        assert!(rt; is_answered(rt.alloc(), row)?, "{}", row.token.1);
    }
    Ok(())
}

/// What an editor with nothing recorded makes of a text whose tree has the number 1, with these numbers left.
fn untouched(alloc: Global, ids: &mut TreeIds) -> Result<(Option<CommitError>, u32), Fail> {
    let mut document = open(alloc, "struct S; s")?;
    let editor = document.editor(alloc)?;
    let answer = commit(alloc, &mut document, editor, ids);
    Ok((answer.err(), document.root().tree()))
}

#[test]
fn nothing_recorded(rt: HostRuntime) -> Result<(), Fail> {
    let mut ids = TreeIds::starting_at(u32::MAX);
    assert!(rt; untouched(rt.alloc(), &mut ids)? == (None, u32::MAX));
    assert!(rt; untouched(rt.alloc(), &mut ids)? == (Some(CommitError::NoTreeNumber), 1));
    Ok(())
}

/// Returns the result of replacing the space in front of the name of `struct S; // t`: the error,
/// and whether the text is the new one.
fn commented(alloc: Global, token: &'static str) -> Result<(Option<CommitError>, bool), Fail> {
    let mut ids = TreeIds::starting_at(2);
    let mut document = open(alloc, "struct S; // t")?;
    let new = (Edition::Edition2021, token);
    let editor = put(alloc, &document, SPACE, new, &mut ids)?;
    let answer = commit(alloc, &mut document, editor, &mut ids);
    Ok((answer.err(), document.text() == "struct/* s */S; // t"))
}

/// A comment may stand where a space did, and what it would swallow is no longer there.
#[test]
fn comments_for_a_space(rt: HostRuntime) -> Result<(), Fail> {
    assert!(rt; commented(rt.alloc(), "/* s */")? == (None, true));
    assert!(rt; commented(rt.alloc(), "// s")? == (Some(CommitError::Unfaithful), false));
    Ok(())
}

/// What a document answers to an editor, and then to an older one.
fn older(alloc: Global) -> Result<(Option<CommitError>, Option<CommitError>, u32), Fail> {
    let mut ids = TreeIds::starting_at(2);
    let mut document = open(alloc, "struct S;")?;
    let older = document.editor(alloc)?;
    let editor = document.editor(alloc)?;
    let first = commit(alloc, &mut document, editor, &mut ids);
    let second = commit(alloc, &mut document, older, &mut ids);
    Ok((first.err(), second.err(), document.root().tree()))
}

#[test]
fn an_older_editor(rt: HostRuntime) -> Result<(), Fail> {
    assert!(rt; older(rt.alloc())? == (None, Some(CommitError::Foreign), 2));
    Ok(())
}

/// Returns the result of replacing the space of `struct S;` with `count` spaces: the error, and the
/// length of the text.
fn spaced(alloc: Global, count: usize) -> Result<(Option<CommitError>, usize), Fail> {
    let mut ids = TreeIds::starting_at(2);
    let text = spaces(alloc, count)?;
    let mut document = open(alloc, "struct S;")?;
    let token = (Edition::Edition2021, text.as_str());
    let editor = put(alloc, &document, SPACE, token, &mut ids)?;
    let answer = commit(alloc, &mut document, editor, &mut ids);
    Ok((answer.err(), document.text().len()))
}

#[test]
fn the_limit(rt: HostRuntime) -> Result<(), Fail> {
    assert!(rt; spaced(rt.alloc(), MAX_TEXT - 8)? == (None, MAX_TEXT));
    assert!(rt; spaced(rt.alloc(), MAX_TEXT - 7)? == (Some(CommitError::TooLong), 9));
    Ok(())
}

/// Returns the result of replacing the root of `struct S;` with itself: the changed range, and the
/// number of the tree.
fn put_again(alloc: Global) -> Result<(Result<Option<TextRange>, CommitError>, u32), Fail> {
    let mut document = open(alloc, "struct S;")?;
    let root = found(alloc, &document, ROOT)?;
    let editor = replacing(alloc, &document, ROOT, &root)?;
    let answer = commit(alloc, &mut document, editor, &mut TreeIds::starting_at(7));
    Ok((answer, document.root().tree()))
}

#[test]
fn the_root_by_itself(rt: HostRuntime) -> Result<(), Fail> {
    assert!(rt; put_again(rt.alloc())? == (Ok(Some(range(0, 9))), 7));
    Ok(())
}
