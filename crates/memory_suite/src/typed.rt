//! Typed nodes and their editors.
use crate::trees::raw;
use anyhow::bail;
use memory_table::row::{Ask, Row};
use parser_input::SyntaxKind;
use rowan_green::{GreenNode, GreenNodeBuilder};
use std::alloc::{AllocError, Global};
use syntax_editor::{
    AttrsOwnerEdit, Fn, ItemList, RecordError, SourceFile, StmtList, Struct, SyntaxEditor, Use,
};
use syntax_tree::{AstNode, SyntaxNode, TreeIds};

/// The calls on typed nodes.
#[derive(Clone, Copy)]
pub(crate) enum TypedCall {
    CloneFile,
    CloneStruct,
    CloneFn,
    CloneUse,
    CloneItems,
    CloneStatements,
    WithAstNode,
    RemoveAttrs,
}

/// A node of a kind, of a comment, a space and a semicolon.
fn green(alloc: Global, kind: SyntaxKind) -> anyhow::Result<GreenNode> {
    let mut builder = GreenNodeBuilder::new(alloc);
    builder.start_node(raw(kind))?;
    builder.token(raw(SyntaxKind::COMMENT), "// a")?;
    builder.token(raw(SyntaxKind::WHITESPACE), "\n")?;
    builder.token(raw(SyntaxKind::SEMICOLON), ";")?;
    builder.finish_node()?;
    match builder.finish() {
        Ok(node) => Ok(node),
        Err(unfinished) => Err(unfinished.error.into()),
    }
}

/// The text of a clone.
fn cloned<N: AstNode + Clone + Drop>(alloc: Global, root: SyntaxNode) -> anyhow::Result<String> {
    let Some(node) = N::cast(root) else {
        bail!("of another type");
    };
    let copy = node.clone()?;
    Ok(format!(in alloc; "{}", copy.syntax().cursor().text()?)?)
}

/// The text of a struct without its documentation.
fn stripped(
    alloc: Global,
    root: SyntaxNode,
    ids: &mut TreeIds,
    refused: &mut u32,
) -> anyhow::Result<String> {
    let (mut editor, copy) = SyntaxEditor::new(alloc, root, ids)?;
    let Some(documented) = Struct::cast(copy) else {
        bail!("of another type");
    };
    let first = documented.remove_attrs_and_docs(alloc, &mut editor);
    if first == Err(RecordError::NoMemory) {
        *refused = refused.saturating_add(1);
        documented.remove_attrs_and_docs(alloc, &mut editor)?;
    } else {
        first?;
    }
    let edit = editor.finish(alloc, ids)?;
    Ok(format!(in alloc; "{}", edit.new_root().cursor().text()?)?)
}

/// The number and the text of the tree of an editor of a typed node.
fn edited(alloc: Global, root: SyntaxNode, ids: &mut TreeIds) -> anyhow::Result<String> {
    let Some(node) = Struct::cast(root) else {
        bail!("of another type");
    };
    let (editor, typed) = SyntaxEditor::with_ast_node(alloc, &node, ids)?;
    let text = typed.syntax().cursor().text()?;
    Ok(format!(in alloc; "{} {text}", editor.root().tree())?)
}

fn kind(call: TypedCall) -> SyntaxKind {
    match call {
        TypedCall::CloneFile => SyntaxKind::SOURCE_FILE,
        TypedCall::CloneFn => SyntaxKind::FN,
        TypedCall::CloneUse => SyntaxKind::USE,
        TypedCall::CloneItems => SyntaxKind::ITEM_LIST,
        TypedCall::CloneStatements => SyntaxKind::STMT_LIST,
        _ => SyntaxKind::STRUCT,
    }
}

impl Ask for TypedCall {
    fn answer(self, alloc: Global, refused: &mut u32) -> anyhow::Result<String> {
        let mut ids = TreeIds::new();
        let root = SyntaxNode::new_root(alloc, green(alloc, kind(self))?, &mut ids)?;
        match self {
            TypedCall::CloneFile => cloned::<SourceFile>(alloc, root),
            TypedCall::CloneStruct => cloned::<Struct>(alloc, root),
            TypedCall::CloneFn => cloned::<Fn>(alloc, root),
            TypedCall::CloneUse => cloned::<Use>(alloc, root),
            TypedCall::CloneItems => cloned::<ItemList>(alloc, root),
            TypedCall::CloneStatements => cloned::<StmtList>(alloc, root),
            TypedCall::WithAstNode => edited(alloc, root, &mut ids),
            TypedCall::RemoveAttrs => stripped(alloc, root, &mut ids, refused),
        }
    }
}

/// The text of each of these nodes.
const TEXT: &str = "// a\n;";

pub(crate) const ROWS: &[Row<TypedCall>] = &[
    (
        "syntax_editor::SourceFile::clone",
        TypedCall::CloneFile,
        TEXT,
    ),
    ("syntax_editor::Struct::clone", TypedCall::CloneStruct, TEXT),
    ("syntax_editor::Fn::clone", TypedCall::CloneFn, TEXT),
    ("syntax_editor::Use::clone", TypedCall::CloneUse, TEXT),
    (
        "syntax_editor::ItemList::clone",
        TypedCall::CloneItems,
        TEXT,
    ),
    (
        "syntax_editor::StmtList::clone",
        TypedCall::CloneStatements,
        TEXT,
    ),
    (
        "syntax_editor::SyntaxEditor::with_ast_node",
        TypedCall::WithAstNode,
        "1 // a\n;",
    ),
    (
        "syntax_editor::AttrsOwnerEdit::remove_attrs_and_docs",
        TypedCall::RemoveAttrs,
        ";",
    ),
];
