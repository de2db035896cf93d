//! Edits of a copy of a node that is not a root.
use crate::tests::doing::{node_at, show};
use crate::tests::tree::{Tree, payload, root};
use std::alloc::Global;
use std::test::Fail;
use syntax_editor::{Annotations, SyntaxEdit, SyntaxEditor};
use syntax_tree::{Position, SyntaxElement, SyntaxNode, TreeIds};

/// Annotates an element alone, and then twice in a list.
fn mark(alloc: Global, editor: &mut SyntaxEditor, new: &SyntaxElement) -> Result<(), Fail> {
    let mut marks = Annotations::new();
    editor.add_annotation(new, marks.next()?)?;
    let twice = vec![in alloc; new.clone()?, new.clone()?]?;
    editor.add_annotation_all(alloc, &twice, marks.next()?)?;
    Ok(())
}

/// Records the insertion of an annotated token before the children of a node.
fn put(
    alloc: Global,
    editor: &mut SyntaxEditor,
    copy: SyntaxNode,
    ids: &mut TreeIds,
) -> Result<(), Fail> {
    let new = payload(alloc, "-", ids)?;
    mark(alloc, editor, &new)?;
    editor.insert(alloc, Position::first_child_of(&copy)?, &new)?;
    Ok(())
}

/// Returns the second argument.
fn literal(alloc: Global, ids: &mut TreeIds) -> Result<SyntaxNode, Fail> {
    let root = root(alloc, Tree::Args, ids)?;
    node_at(alloc, &root, &[4])
}

/// Returns an editor of a copy of the second argument that inserts an annotated token first in it.
fn editor(alloc: Global, ids: &mut TreeIds) -> Result<SyntaxEditor, Fail> {
    let (mut editor, copy) = SyntaxEditor::new(alloc, literal(alloc, ids)?, ids)?;
    put(alloc, &mut editor, copy, ids)?;
    Ok(editor)
}

/// Returns the text of the rewritten tree.
fn rewritten_text(alloc: Global, editor: &SyntaxEditor, ids: &mut TreeIds) -> Result<String, Fail> {
    let rewritten = SyntaxNode::new_root(alloc, editor.rewritten(alloc)?.green, ids)?;
    let text = rewritten.cursor().text()?;
    Ok(format!(in alloc; "{text}")?)
}

fn show_copy(alloc: Global, edit: &SyntaxEdit, rewritten: &str) -> Result<String, Fail> {
    let old = edit.old_root().cursor().text()?;
    let mut out = format!(in alloc; "{old} {rewritten} {} ", edit.origins().len())?;
    show(alloc, &mut out, edit)?;
    Ok(out)
}

/// Returns the text of the old tree, that of the rewritten tree, the number of its elements, its
/// text once more, and the ranges that changed.
pub(crate) fn edited_copy(alloc: Global) -> Result<String, Fail> {
    let mut ids = TreeIds::new();
    let editor = editor(alloc, &mut ids)?;
    let rewritten = rewritten_text(alloc, &editor, &mut ids)?;
    let edit = editor.finish(alloc, &mut ids)?;
    show_copy(alloc, &edit, rewritten.as_str())
}
