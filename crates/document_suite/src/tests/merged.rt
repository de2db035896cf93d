//! Merged editors of one document.
use super::{FIRST, Place, SECOND, deleting, found, merging, open};
use rust_document::{CommitError, Document, SyntaxEditor};
use std::alloc::Global;
use std::test::Fail;
use syntax_tree::TreeIds;

/// Returns an editor that deletes the element at a place.
fn deleting_at(alloc: Global, document: &Document, place: Place) -> Result<SyntaxEditor, Fail> {
    let target = found(alloc, document, place)?;
    deleting(alloc, document, &target)
}

/// Returns an editor that deletes two elements, merged from one editor for each.
fn merged(
    alloc: Global,
    document: &Document,
    (one, other): (Place, Place),
) -> Result<SyntaxEditor, Fail> {
    let editor = deleting_at(alloc, document, one)?;
    let second = deleting_at(alloc, document, other)?;
    merging(editor, second)
}

/// Returns `true` if committing two merged editors, each of which deletes a struct, returns
/// `refusal` and leaves the text `becomes`.
fn is_answered(
    alloc: Global,
    places: (Place, Place),
    refusal: Option<CommitError>,
    becomes: &str,
) -> Result<bool, Fail> {
    let mut ids = TreeIds::starting_at(2);
    let mut document = open(alloc, "struct S; struct T;")?;
    let editor = merged(alloc, &document, places)?;
    let refused = document.commit(alloc, editor, &mut ids).err();
    Ok((refused == refusal) & (document.text() == becomes))
}

#[test]
fn merged_editors(rt: HostRuntime) -> Result<(), Fail> {
    let alloc = rt.alloc();
    let collide = Some(CommitError::Intersecting);
    assert!(rt; is_answered(alloc, (FIRST, FIRST), collide, "struct S; struct T;")?);
    assert!(rt; is_answered(alloc, (FIRST, SECOND), None, " ")?);
    Ok(())
}
