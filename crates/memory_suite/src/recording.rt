//! Changes that are recorded on a tree, each a second time if it runs out of memory.
ghost use Rattle.std.specs.Prelude.{◌≡◌, [], IfOk};

use crate::editors::EditorCall;
use crate::trees::{element, node, root, word};
use anyhow::bail;
use std::alloc::Global;
use syntax_editor::{
    Annotations, MergeError, RecordError, SyntaxAnnotation, SyntaxEditor, WhitespaceError,
};
use syntax_tree::{Position, SyntaxElement, SyntaxMappingBuilder, SyntaxNode, TreeIds};

/// Makes a call that records on an editor, a second time if it answers out of memory.
macro_rules! again {
    ($refused:ident, $call:expr) => {
        match $call {
            Err(RecordError::NoMemory) => {
                *$refused = $refused.saturating_add(1);
                $call?
            }
            first => first?,
        }
    };
}

fn gap(editor: &SyntaxEditor, index: usize) -> anyhow::Result<Position> {
    let parent = editor.root().clone()?;
    Ok(Position { parent, index })
}

/// The child of an index of the edited root.
pub(crate) fn child(
    alloc: Global,
    editor: &SyntaxEditor,
    index: usize,
) -> anyhow::Result<SyntaxElement> {
    element(alloc, editor.root(), &[index])
}

/// Two copies of an element.
fn twice(alloc: Global, new: &SyntaxElement) -> anyhow::Result<Vec<SyntaxElement>> {
    Ok(vec![in alloc; new.clone()?, new.clone()?]?)
}

fn insert(
    alloc: Global,
    call: EditorCall,
    editor: &mut SyntaxEditor,
    new: &SyntaxElement,
    refused: &mut u32,
) -> anyhow::Result<()> {
    match call {
        EditorCall::Insert => again!(refused, editor.insert(alloc, gap(editor, 0)?, new)),
        _ => again!(
            refused,
            editor.insert_all(alloc, gap(editor, 6)?, twice(alloc, new)?)
        ),
    }
    Ok(())
}

/// Inserts with whitespace. The error of the call itself comes inside.
fn insert_spaced(
    alloc: Global,
    call: EditorCall,
    editor: &mut SyntaxEditor,
    new: &SyntaxElement,
    ids: &mut TreeIds,
) -> anyhow::Result<Result<(), WhitespaceError>> {
    let place = gap(editor, 5)?;
    let elements = twice(alloc, new)?;
    Ok(match call {
        EditorCall::InsertWithWhitespace => {
            editor.insert_with_whitespace(alloc, place, new, ids)
        }
        _ => editor.insert_all_with_whitespace(alloc, place, elements, ids),
    })
}

fn delete(
    alloc: Global,
    call: EditorCall,
    editor: &mut SyntaxEditor,
    refused: &mut u32,
) -> anyhow::Result<()> {
    let first = child(alloc, editor, 1)?;
    let last = child(alloc, editor, 2)?;
    match call {
        EditorCall::DeleteAll => again!(refused, editor.delete_all(alloc, &first, &last)),
        _ => again!(refused, editor.delete(alloc, &first)),
    }
    Ok(())
}

fn replace(
    alloc: Global,
    call: EditorCall,
    editor: &mut SyntaxEditor,
    new: &SyntaxElement,
    refused: &mut u32,
) -> anyhow::Result<()> {
    let first = child(alloc, editor, 1)?;
    let last = child(alloc, editor, 3)?;
    match call {
        EditorCall::ReplaceWithMany => again!(
            refused,
            editor.replace_with_many(alloc, &first, twice(alloc, new)?)
        ),
        EditorCall::ReplaceAll => again!(
            refused,
            editor.replace_all(alloc, &first, &last, twice(alloc, new)?)
        ),
        _ => again!(refused, editor.replace(alloc, &first, new)),
    }
    Ok(())
}

fn mark() -> anyhow::Result<SyntaxAnnotation> {
    Ok(Annotations::new().next()?)
}

/// Replaces the first literal by an element that is annotated, once or twice.
fn annotate(
    alloc: Global,
    call: EditorCall,
    editor: &mut SyntaxEditor,
    new: &SyntaxElement,
    refused: &mut u32,
) -> anyhow::Result<()> {
    let mark = mark()?;
    match call {
        EditorCall::AddAnnotationAll => {
            let elements = twice(alloc, new)?;
            if editor.add_annotation_all(alloc, &elements, mark).is_err() {
                *refused = refused.saturating_add(1);
                editor.add_annotation_all(alloc, &elements, mark)?;
            }
        }
        _ => {
            if editor.add_annotation(new, mark).is_err() {
                *refused = refused.saturating_add(1);
                editor.add_annotation(new, mark)?;
            }
        }
    }
    replace(alloc, EditorCall::Replace, editor, new, refused)
}

/// Merges an editor of the same tree that deletes its second literal, handed back if memory is
/// refused.
fn merge(alloc: Global, editor: &mut SyntaxEditor, refused: &mut u32) -> anyhow::Result<()> {
    let mut other = SyntaxEditor::of_root(alloc, copy_of(editor)?);
    other.delete(alloc, &child(alloc, &other, 4)?)?;
    let Err(unmerged) = editor.merge(other) else {
        return Ok(());
    };
    if unmerged.error != MergeError::NoMemory {
        bail!("not merged");
    }
    *refused = refused.saturating_add(1);
    match editor.merge(unmerged.editor) {
        Ok(()) => Ok(()),
        Err(_) => bail!("not merged"),
    }
}

/// Replaces the second literal by an argument list, to whose second literal it is mapped, and
/// inserts an element first in it.
fn nest(
    alloc: Global,
    editor: &mut SyntaxEditor,
    new: &SyntaxElement,
    ids: &mut TreeIds,
) -> anyhow::Result<()> {
    let list = root(alloc, ids)?;
    let literal = node(alloc, editor.root(), &[4])?;
    let mut builder = SyntaxMappingBuilder::new(alloc, list.clone()?)?;
    builder.map_node(alloc, literal.clone()?, node(alloc, &list, &[4])?)?;
    builder.finish(editor.mappings())?;
    let old = SyntaxElement::Node(literal.clone()?);
    editor.replace(alloc, &old, &SyntaxElement::Node(list))?;
    editor.insert(alloc, Position::first_child_of(&literal)?, new)?;
    Ok(())
}

fn copy_of(editor: &SyntaxEditor) -> anyhow::Result<SyntaxNode>
    ensures { IfOk result (λ r. r.place.up ≡ []) }
{
    Ok(editor.root().clone()?)
}

/// Records what a call records.
pub(crate) fn record(
    alloc: Global,
    call: EditorCall,
    editor: &mut SyntaxEditor,
    ids: &mut TreeIds,
    refused: &mut u32,
) -> anyhow::Result<()> {
    let new = SyntaxElement::Token(word(alloc, ids)?);
    match call {
        EditorCall::Insert | EditorCall::InsertAll => insert(alloc, call, editor, &new, refused),
        EditorCall::InsertWithWhitespace | EditorCall::InsertAllWithWhitespace => {
            let first = insert_spaced(alloc, call, editor, &new, ids)?;
            if first == Err(WhitespaceError::NoMemory) {
                *refused = refused.saturating_add(1);
                return Ok(insert_spaced(alloc, call, editor, &new, ids)??);
            }
            Ok(first?)
        }
        EditorCall::Delete | EditorCall::DeleteAll => delete(alloc, call, editor, refused),
        EditorCall::AddAnnotation | EditorCall::AddAnnotationAll | EditorCall::AnnotatedIn => {
            annotate(alloc, call, editor, &new, refused)
        }
        EditorCall::RewrittenNested => nest(alloc, editor, &new, ids),
        EditorCall::Merge => {
            replace(alloc, call, editor, &new, refused)?;
            merge(alloc, editor, refused)
        }
        _ => replace(alloc, call, editor, &new, refused),
    }
}
