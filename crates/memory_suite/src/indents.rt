//! Nodes whose lines are indented or dedented.
use crate::trees::{node, raw};
use anyhow::bail;
use memory_table::row::{Ask, Row};
use parser_input::SyntaxKind;
use rowan_green::{GreenNode, GreenNodeBuilder};
use std::alloc::{AllocError, Global};
use syntax_editor::{IndentLevel, StmtList};
use syntax_tree::{AstNode, SyntaxElement, SyntaxMapping, SyntaxNode, TreeIds};
use tree_indent::{AstNodeEdit, dedent, indent, indent_with_mapping, reset_indent};

/// The calls of `tree_indent`, and those of `syntax_editor` that read a level.
#[derive(Clone, Copy)]
pub(crate) enum IndentCall {
    FromElement,
    FromNode,
    FromToken,
    Indent,
    IndentWithMapping,
    Dedent,
    ResetIndent,
    TypedLevel,
    TypedIndent,
    TypedIndentWithMapping,
    TypedDedent,
    TypedResetIndent,
}

/// A file with a line feed and four spaces, and after them a path in braces, on a line of its own.
fn green(alloc: Global) -> anyhow::Result<GreenNode> {
    let mut builder = GreenNodeBuilder::new(alloc);
    builder.start_node(raw(SyntaxKind::SOURCE_FILE))?;
    builder.token(raw(SyntaxKind::WHITESPACE), "\n    ")?;
    builder.start_node(raw(SyntaxKind::STMT_LIST))?;
    builder.token(raw(SyntaxKind::L_CURLY), "{")?;
    builder.token(raw(SyntaxKind::WHITESPACE), "\n        ")?;
    builder.start_node(raw(SyntaxKind::PATH))?;
    builder.token(raw(SyntaxKind::IDENT), "a")?;
    builder.finish_node()?;
    builder.token(raw(SyntaxKind::WHITESPACE), "\n    ")?;
    builder.token(raw(SyntaxKind::R_CURLY), "}")?;
    builder.finish_node()?;
    builder.finish_node()?;
    match builder.finish() {
        Ok(node) => Ok(node),
        Err(unfinished) => Err(unfinished.error.into()),
    }
}

fn list(alloc: Global, ids: &mut TreeIds) -> anyhow::Result<SyntaxNode> {
    let root = SyntaxNode::new_root(alloc, green(alloc)?, ids)?;
    node(alloc, &root, &[1])
}

fn level_of(alloc: Global, call: IndentCall, list: SyntaxNode) -> anyhow::Result<IndentLevel> {
    match call {
        IndentCall::FromNode => Ok(IndentLevel::from_node(alloc, &list)?),
        IndentCall::FromToken => match list.nth_child_or_token(alloc, 1)? {
            Some(SyntaxElement::Token(token)) => Ok(IndentLevel::from_token(alloc, &token)?),
            _ => bail!("no token"),
        },
        _ => Ok(IndentLevel::from_element(alloc, &SyntaxElement::Node(list))?),
    }
}

/// The number of a node's tree, and its text.
fn read(alloc: Global, node: &SyntaxNode) -> Result<String, AllocError> {
    format!(in alloc; "{} {}", node.tree(), node.cursor().text()?)
}

/// Shifts a list. Where nothing is mapped, the mapping stays empty.
fn shifted(
    alloc: Global,
    call: IndentCall,
    list: &SyntaxNode,
    mapping: &mut SyntaxMapping,
    ids: &mut TreeIds,
) -> anyhow::Result<SyntaxNode> {
    let level = IndentLevel(1);
    match call {
        IndentCall::Indent => Ok(indent(alloc, list, level, ids)?),
        IndentCall::Dedent => Ok(dedent(alloc, list, level, ids)?),
        IndentCall::ResetIndent => Ok(reset_indent(alloc, list, ids)?),
        _ => Ok(indent_with_mapping(alloc, list, level, mapping, ids)?),
    }
}

fn typed_shifted(
    alloc: Global,
    call: IndentCall,
    list: &StmtList,
    mapping: &mut SyntaxMapping,
    ids: &mut TreeIds,
) -> anyhow::Result<SyntaxNode> {
    let level = IndentLevel(1);
    let list = match call {
        IndentCall::TypedIndent => list.indent(alloc, level, ids)?,
        IndentCall::TypedDedent => list.dedent(alloc, level, ids)?,
        IndentCall::TypedResetIndent => list.reset_indent(alloc, ids)?,
        _ => list.indent_with_mapping(alloc, level, mapping, ids)?,
    };
    Ok(list.syntax().clone()?)
}

/// The number and the text of a shifted list, and how many of its nodes are mapped. The list is
/// shifted a second time if it runs out of memory: the number and the mapping are as before then.
fn read_shifted(
    alloc: Global,
    call: IndentCall,
    list: &SyntaxNode,
    ids: &mut TreeIds,
    refused: &mut u32,
) -> anyhow::Result<String> {
    let mut mapping = SyntaxMapping::new(alloc);
    let root = match shifted(alloc, call, list, &mut mapping, ids) {
        Ok(root) => root,
        Err(_) => {
            *refused = refused.saturating_add(1);
            shifted(alloc, call, list, &mut mapping, ids)?
        }
    };
    Ok(format!(in alloc; "{} {}", read(alloc, &root)?, mapping.len())?)
}

fn read_typed(
    alloc: Global,
    call: IndentCall,
    list: &StmtList,
    ids: &mut TreeIds,
    refused: &mut u32,
) -> anyhow::Result<String> {
    if matches!(call, IndentCall::TypedLevel) {
        return Ok(format!(in alloc; "{}", list.indent_level(alloc)?.0)?);
    }
    let mut mapping = SyntaxMapping::new(alloc);
    let root = match typed_shifted(alloc, call, list, &mut mapping, ids) {
        Ok(root) => root,
        Err(_) => {
            *refused = refused.saturating_add(1);
            typed_shifted(alloc, call, list, &mut mapping, ids)?
        }
    };
    Ok(format!(in alloc; "{} {}", read(alloc, &root)?, mapping.len())?)
}

impl Ask for IndentCall {
    fn answer(self, alloc: Global, refused: &mut u32) -> anyhow::Result<String> {
        let mut ids = TreeIds::new();
        let list = list(alloc, &mut ids)?;
        match self {
            IndentCall::FromElement | IndentCall::FromNode | IndentCall::FromToken => {
                Ok(format!(in alloc; "{}", level_of(alloc, self, list)?.0)?)
            }
            IndentCall::Indent
            | IndentCall::IndentWithMapping
            | IndentCall::Dedent
            | IndentCall::ResetIndent => read_shifted(alloc, self, &list, &mut ids, refused),
            _ => match StmtList::cast(list) {
                Some(list) => read_typed(alloc, self, &list, &mut ids, refused),
                None => bail!("of another type"),
            },
        }
    }
}

const INDENTED: &str = "2 {\n            a\n        } 0";

const MAPPED: &str = "2 {\n            a\n        } 1";

const DEDENTED: &str = "2 {\n    a\n} 0";

pub(crate) const ROWS: &[Row<IndentCall>] = &[
    (
        "syntax_editor::IndentLevel::from_element",
        IndentCall::FromElement,
        "1",
    ),
    (
        "syntax_editor::IndentLevel::from_node",
        IndentCall::FromNode,
        "1",
    ),
    (
        "syntax_editor::IndentLevel::from_token",
        IndentCall::FromToken,
        "2",
    ),
    ("tree_indent::indent", IndentCall::Indent, INDENTED),
    (
        "tree_indent::indent_with_mapping",
        IndentCall::IndentWithMapping,
        MAPPED,
    ),
    ("tree_indent::dedent", IndentCall::Dedent, DEDENTED),
    (
        "tree_indent::reset_indent",
        IndentCall::ResetIndent,
        DEDENTED,
    ),
    (
        "tree_indent::AstNodeEdit::indent_level",
        IndentCall::TypedLevel,
        "1",
    ),
    (
        "tree_indent::AstNodeEdit::indent",
        IndentCall::TypedIndent,
        INDENTED,
    ),
    (
        "tree_indent::AstNodeEdit::indent_with_mapping",
        IndentCall::TypedIndentWithMapping,
        MAPPED,
    ),
    (
        "tree_indent::AstNodeEdit::dedent",
        IndentCall::TypedDedent,
        DEDENTED,
    ),
    (
        "tree_indent::AstNodeEdit::reset_indent",
        IndentCall::TypedResetIndent,
        DEDENTED,
    ),
];
