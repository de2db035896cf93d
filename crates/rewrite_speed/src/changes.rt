//! Changes and annotations of all structs of a text.

use anyhow::{Context, bail};
use rust_document::{
    Annotations, Document, PayloadEntry, SyntaxEditor, SyntaxElement, SyntaxKind, SyntaxNode,
    TopEntryPoint, TreeIds,
};
use std::alloc::Global;
use syntax_tree::SyntaxMappingBuilder;

/// Returns an editor by which each struct has an annotation of its own.
fn annotated(alloc: Global, document: &Document) -> anyhow::Result<SyntaxEditor> {
    let mut marks = Annotations::new();
    let mut editor = document.editor(alloc)?;
    for item in document.root().children(alloc)? {
        editor.add_annotation(&SyntaxElement::Node(item?), marks.next()?)?;
    }
    Ok(editor)
}

/// Annotates each struct, finishes the editor, and returns the number of annotated elements of the
/// new tree.
pub(crate) fn finish_annotations(
    alloc: Global,
    document: &Document,
    ids: &mut TreeIds,
) -> anyhow::Result<usize> {
    let edit = annotated(alloc, document)?.finish(alloc, ids)?;
    Ok(edit.annotated().len())
}

/// Annotates each struct, commits, and returns the number of annotated elements of the new tree.
pub(crate) fn commit_annotations(
    alloc: Global,
    document: &mut Document,
    ids: &mut TreeIds,
) -> anyhow::Result<usize> {
    let editor = annotated(alloc, document)?;
    let committed = document.commit(alloc, editor, ids)?;
    Ok(committed.annotated.len())
}

/// Returns the name that each struct gets.
fn other_name(
    alloc: Global,
    document: &Document,
    ids: &mut TreeIds,
) -> anyhow::Result<SyntaxElement> {
    Ok(document.payload(alloc, PayloadEntry::Token, "T", ids)?)
}

/// Records that a struct gets the name `new`.
fn rename(
    alloc: Global,
    editor: &mut SyntaxEditor,
    item: &SyntaxNode,
    new: &SyntaxElement,
) -> anyhow::Result<()> {
    let name = item.child(alloc, SyntaxKind::NAME)?.context("no name")?;
    let old = name.first_token(alloc)?.context("no identifier")?;
    editor.replace(alloc, &SyntaxElement::Token(old), new)?;
    Ok(())
}

/// Returns a new module with a struct.
fn module(alloc: Global, document: &Document, ids: &mut TreeIds) -> anyhow::Result<SyntaxNode> {
    let file = PayloadEntry::Top(TopEntryPoint::SourceFile);
    let SyntaxElement::Node(file) = document.payload(alloc, file, "mod a{struct S;}", ids)? else {
        bail!("no file");
    };
    file.child(alloc, SyntaxKind::MODULE)?.context("no module")
}

/// Records that a struct is replaced by `module`, whose own struct stands for it.
fn wrap(
    alloc: Global,
    editor: &mut SyntaxEditor,
    item: SyntaxNode,
    module: SyntaxNode,
) -> anyhow::Result<()> {
    let list = module
        .child(alloc, SyntaxKind::ITEM_LIST)?
        .context("no list")?;
    let inside = list.child(alloc, SyntaxKind::STRUCT)?.context("no struct")?;
    let mut builder = SyntaxMappingBuilder::new(alloc, list)?;
    builder.map_node(alloc, item.clone()?, inside)?;
    builder.finish(editor.mappings())?;
    editor.replace(
        alloc,
        &SyntaxElement::Node(item),
        &SyntaxElement::Node(module),
    )?;
    Ok(())
}

/// Wraps each struct in a module of its own, renames it, commits, and returns the number of changed
/// ranges.
pub(crate) fn commit_wraps(
    alloc: Global,
    document: &mut Document,
    ids: &mut TreeIds,
) -> anyhow::Result<usize> {
    let name = other_name(alloc, document, ids)?;
    let mut editor = document.editor(alloc)?;
    for item in document.root().children(alloc)? {
        let item = item?;
        rename(alloc, &mut editor, &item, &name)?;
        let module = module(alloc, document, ids)?;
        wrap(alloc, &mut editor, item, module)?;
    }
    let committed = document.commit(alloc, editor, ids)?;
    Ok(committed.changed.len())
}

/// Renames each struct by an editor of its own, merges these into one, commits, and returns the
/// number of changed ranges.
pub(crate) fn commit_merges(
    alloc: Global,
    document: &mut Document,
    ids: &mut TreeIds,
) -> anyhow::Result<usize> {
    let name = other_name(alloc, document, ids)?;
    let mut editor = document.editor(alloc)?;
    for item in document.root().children(alloc)? {
        let mut single = document.editor(alloc)?;
        rename(alloc, &mut single, &item?, &name)?;
        if editor.merge(single).is_err() {
            bail!("not merged");
        }
    }
    let committed = document.commit(alloc, editor, ids)?;
    Ok(committed.changed.len())
}
