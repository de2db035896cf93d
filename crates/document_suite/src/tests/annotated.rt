//! Annotated elements, found again where a commit put them.
use super::{ONE, Place, TWO, expression, found, open, range};
use rust_document::{Annotations, Committed, Document, SyntaxAnnotation, SyntaxEditor};
use std::alloc::Global;
use std::test::Fail;
use syntax_tree::{SyntaxElement, TreeIds};

/// Records that an element is put for the one at a place of a document.
fn put_at(
    alloc: Global,
    document: &Document,
    editor: &mut SyntaxEditor,
    place: Place,
    new: &SyntaxElement,
) -> Result<(), Fail> {
    let target = found(alloc, document, place)?;
    Ok(editor.replace(alloc, &target, new)?)
}

/// Records that an annotated element is put for both literals.
fn record(
    alloc: Global,
    document: &Document,
    editor: &mut SyntaxEditor,
    new: &SyntaxElement,
    mark: SyntaxAnnotation,
) -> Result<(), Fail> {
    put_at(alloc, document, editor, ONE, new)?;
    put_at(alloc, document, editor, TWO, new)?;
    editor.add_annotation(new, mark)?;
    Ok(())
}

/// Returns an editor that replaces both literals with one annotated expression.
fn recorded(
    alloc: Global,
    document: &Document,
    put: &str,
    mark: SyntaxAnnotation,
    ids: &mut TreeIds,
) -> Result<SyntaxEditor, Fail> {
    let new = expression(alloc, put, ids)?;
    let mut editor = document.editor(alloc)?;
    record(alloc, document, &mut editor, &new, mark)?;
    Ok(editor)
}

/// What a commit tells that does so.
fn committed(alloc: Global, put: &str, mark: SyntaxAnnotation) -> Result<Committed, Fail> {
    let mut ids = TreeIds::starting_at(2);
    let mut document = open(alloc, "fn f() { g(1, 2); }")?;
    let editor = recorded(alloc, &document, put, mark, &mut ids)?;
    Ok(document.commit(alloc, editor, &mut ids)?)
}

/// One payload that is inserted twice is found twice, in the order of the tree.
#[test]
fn payloads_are_found_where_they_stand(rt: HostRuntime) -> Result<(), Fail> {
    let mark = Annotations::new().next()?;
    let committed = committed(rt.alloc(), "34", mark)?;
    let expected = [(range(11, 13), mark), (range(15, 17), mark)];
    let is_found = committed.annotated.as_slice() == expected.as_slice();
    drop(committed);
    assert!(rt; is_found);
    Ok(())
}
