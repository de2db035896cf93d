//! A node without text: insertions into it, and why it cannot be deleted.
use super::opening::{Row, is_row};
use super::{deleting, merging, open};
use parser_input::edition::Edition;
use parser_input::syntax_kind::SyntaxKind;
use rust_document::{CommitError, Document, PayloadEntry, SyntaxEditor, payload};
use std::alloc::Global;
use std::test::Fail;
use syntax_tree::{Position, SyntaxElement, TreeIds};

/// No bounds, after the space, and then no items.
const TRAIT: Row = Row {
    text: "trait T: {}",
    tree: &[
        ((SyntaxKind::SOURCE_FILE, 0, 11), &[]),
        ((SyntaxKind::TRAIT, 0, 11), &[0]),
        ((SyntaxKind::TRAIT_KW, 0, 5), &[0, 0]),
        ((SyntaxKind::NAME, 6, 7), &[0, 2]),
        ((SyntaxKind::COLON, 7, 8), &[0, 3]),
        ((SyntaxKind::WHITESPACE, 8, 9), &[0, 4]),
        ((SyntaxKind::ASSOC_ITEM_LIST, 9, 11), &[0, 6]),
    ],
    tokens: &[
        (SyntaxKind::TRAIT_KW, 0, 5),
        (SyntaxKind::WHITESPACE, 5, 6),
        (SyntaxKind::IDENT, 6, 7),
        (SyntaxKind::COLON, 7, 8),
        (SyntaxKind::WHITESPACE, 8, 9),
        (SyntaxKind::L_CURLY, 9, 10),
        (SyntaxKind::R_CURLY, 10, 11),
    ],
    errors: &[],
};

/// The list of bounds in it. It has no byte to be searched by.
fn bounds(alloc: Global, document: &Document) -> Result<SyntaxElement, Fail> {
    match document.root().element_at(alloc, &[5, 0])? {
        Some(element) if element.kind() == SyntaxKind::TYPE_BOUND_LIST => Ok(element),
        _ => Err(Fail::new("no list of bounds")),
    }
}

/// Records that a name comes first in a list.
fn put_name(
    alloc: Global,
    editor: &mut SyntaxEditor,
    list: SyntaxElement,
    ids: &mut TreeIds,
) -> Result<(), Fail> {
    let Some(list) = list.into_node() else {
        return Err(Fail::new("no node"));
    };
    let name = payload(alloc, PayloadEntry::Token, Edition::Edition2021, "A", ids)?;
    editor.insert(alloc, Position::first_child_of(&list)?, &name)?;
    Ok(())
}

/// An editor that puts a name first in the list.
fn naming(alloc: Global, document: &Document, ids: &mut TreeIds) -> Result<SyntaxEditor, Fail> {
    let list = bounds(alloc, document)?;
    let mut editor = document.editor(alloc)?;
    put_name(alloc, &mut editor, list, ids)?;
    Ok(editor)
}

/// Returns an editor that deletes the list.
fn deleting_list(alloc: Global, document: &Document) -> Result<SyntaxEditor, Fail> {
    let list = bounds(alloc, document)?;
    deleting(alloc, document, &list)
}

/// Returns two merged editors, each of which deletes the list.
fn deleting_twice(alloc: Global, document: &Document) -> Result<SyntaxEditor, Fail> {
    let editor = deleting_list(alloc, document)?;
    let second = deleting_list(alloc, document)?;
    merging(editor, second)
}

/// A change of the list.
#[derive(Clone, Copy)]
enum Change {
    Named,
    Deleted,
    DeletedTwice,
}

/// Why a document refuses a change of its list.
fn refusal(
    alloc: Global,
    document: &mut Document,
    change: Change,
) -> Result<Option<CommitError>, Fail> {
    let mut ids = TreeIds::starting_at(2);
    let editor = match change {
        Change::Named => naming(alloc, document, &mut ids)?,
        Change::Deleted => deleting_list(alloc, document)?,
        Change::DeletedTwice => deleting_twice(alloc, document)?,
    };
    Ok(document.commit(alloc, editor, &mut ids).err())
}

/// Whether a change is refused so, and the document stays.
fn is_refused(alloc: Global, (change, expected): &(Change, CommitError)) -> Result<bool, Fail> {
    let mut document = open(alloc, TRAIT.text)?;
    let refused = refusal(alloc, &mut document, *change)?;
    Ok(is_row(alloc, &document, &TRAIT)? & (refused == Some(*expected)))
}

/// A name is read as a bound, no single token; a text of no bounds is read with the list all the same; two deletions of one node collide,
/// also where it has no text.
const REFUSED: &[(Change, CommitError)] = &[
    (Change::Named, CommitError::Unfaithful),
    (Change::Deleted, CommitError::Unfaithful),
    (Change::DeletedTwice, CommitError::Intersecting),
];

#[test]
fn a_list_of_no_bounds_stays(rt: HostRuntime) -> Result<(), Fail> {
    for row in REFUSED {
        assert!(rt; is_refused(rt.alloc(), row)?);
    }
    Ok(())
}
