//! Merges of editors of one tree.
use crate::tests::doing::show;
use crate::tests::tree::{Tree, root};
use std::alloc::Global;
use std::test::Fail;
use syntax_editor::{SyntaxEditor, Unmerged};
use syntax_tree::{SyntaxNode, TreeIds};

/// Returns an editor of the tree of `root` that deletes the child at index `child`.
fn deleting(
    alloc: Global,
    root: &SyntaxNode,
    child: usize,
    ids: &mut TreeIds,
) -> Result<SyntaxEditor, Fail> {
    let Some(element) = root.element_at(alloc, &[child])? else {
        return Err(Fail::new("no such child"));
    };
    let (mut editor, _root) = SyntaxEditor::new(alloc, root.clone()?, ids)?;
    editor.delete(alloc, &element)?;
    Ok(editor)
}

/// Returns an editor of a new tree that deletes the child at index `child`.
fn deleting_in(
    alloc: Global,
    tree: Tree,
    child: usize,
    ids: &mut TreeIds,
) -> Result<SyntaxEditor, Fail> {
    let root = root(alloc, tree, ids)?;
    deleting(alloc, &root, child, ids)
}

/// Finishes the editor; returns the new text with the ranges that changed, or the error.
pub(crate) fn finished(
    alloc: Global,
    editor: SyntaxEditor,
    ids: &mut TreeIds,
) -> Result<String, Fail> {
    let mut out = String::new(alloc);
    match editor.finish(alloc, ids) {
        Ok(edit) => show(alloc, &mut out, &edit)?,
        Err(error) => out = format!(in alloc; "{error}")?,
    }
    Ok(out)
}

/// Merges two editors that delete one child each, and returns the outcome.
pub(crate) fn merged(alloc: Global, one: usize, other: usize) -> Result<String, Fail> {
    let mut ids = TreeIds::new();
    let root = root(alloc, Tree::Args, &mut ids)?;
    let first = deleting(alloc, &root, one, &mut ids)?;
    let second = deleting(alloc, &root, other, &mut ids)?;
    put_together(alloc, first, second, &mut ids)
}

fn put_together(
    alloc: Global,
    mut first: SyntaxEditor,
    second: SyntaxEditor,
    ids: &mut TreeIds,
) -> Result<String, Fail> {
    match first.merge(second) {
        Ok(()) => finished(alloc, first, ids),
        Err(unmerged) => Ok(format!(in alloc; "{}", unmerged.error)?),
    }
}

/// Returns the error of merging editors of two trees with the same number, and the outcome of each.
pub(crate) fn unmerged(alloc: Global) -> Result<String, Fail> {
    let mut ids = TreeIds::new();
    let mut others = TreeIds::new();
    let mut first = deleting_in(alloc, Tree::Args, 1, &mut ids)?;
    let second = deleting_in(alloc, Tree::Lines, 0, &mut others)?;
    match first.merge(second) {
        Ok(()) => Err(Fail::new("merged")),
        Err(unmerged) => show_both(alloc, (first, &mut ids), (unmerged, &mut others)),
    }
}

/// Returns the error of a failed merge, and the outcome of each editor.
fn show_both(
    alloc: Global,
    (first, ids): (SyntaxEditor, &mut TreeIds),
    (unmerged, others): (Unmerged, &mut TreeIds),
) -> Result<String, Fail> {
    let mut out = format!(in alloc; "{}", unmerged.error)?;
    show_finished(alloc, &mut out, first, ids)?;
    show_finished(alloc, &mut out, unmerged.editor, others)?;
    Ok(out)
}

/// Appends the outcome of an editor.
fn show_finished(
    alloc: Global,
    out: &mut String,
    editor: SyntaxEditor,
    ids: &mut TreeIds,
) -> Result<(), Fail> {
    let text = finished(alloc, editor, ids)?;
    out.push_str("; ")?;
    Ok(out.push_str(text.as_str())?)
}
