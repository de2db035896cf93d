//! Elements that are inserted with whitespace around them.
use crate::tests::doing::{Gap, node_at};
use crate::tests::merge::finished;
use crate::tests::tree::{Tree, payload, root};
use std::alloc::Global;
use std::test::Fail;
use syntax_editor::SyntaxEditor;
use syntax_tree::{Position, SyntaxElement, TreeIds};

/// Inserts elements with whitespace; returns the new text with the ranges that changed, or the
/// error.
pub(crate) fn spaced(
    alloc: Global,
    ids: &mut TreeIds,
    tree: Tree,
    gap: Gap<'_>,
    texts: &[&str],
) -> Result<String, Fail> {
    let root = root(alloc, tree, ids)?;
    let (parent, index) = gap;
    let parent = node_at(alloc, &root, parent)?;
    let new = payloads(alloc, ids, texts)?;
    let place = Position { parent, index };
    put(alloc, SyntaxEditor::of_root(alloc, root), place, new, ids)
}

/// Returns the elements of `texts`.
fn payloads(alloc: Global, ids: &mut TreeIds, texts: &[&str]) -> Result<Vec<SyntaxElement>, Fail> {
    let mut new = Vec::new(alloc);
    for text in texts {
        new.push(payload(alloc, *text, ids)?)?;
    }
    Ok(new)
}

/// Inserts `new` at `place` with whitespace, and returns the outcome.
fn put(
    alloc: Global,
    mut editor: SyntaxEditor,
    place: Position,
    new: Vec<SyntaxElement>,
    ids: &mut TreeIds,
) -> Result<String, Fail> {
    let recorded = match new.as_slice() {
        [one] => editor.insert_with_whitespace(alloc, place, one, ids),
        _ => editor.insert_all_with_whitespace(alloc, place, new, ids),
    };
    match recorded {
        Ok(()) => finished(alloc, editor, ids),
        Err(error) => Ok(format!(in alloc; "{error}")?),
    }
}
