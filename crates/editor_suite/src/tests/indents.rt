//! Calls succeed while allocations succeed, on hand-made trees.
use parser_input::SyntaxKind;
use rowan_green::{GreenNode, GreenNodeBuilder};
use std::alloc::Global;
use std::test::Fail;
use syntax_editor::{IndentLevel, SourceFile, StmtList};
use syntax_tree::{AstNode, SyntaxElement, SyntaxMapping, SyntaxNode, TreeIds};
use tree_indent::{AstNodeEdit, dedent, indent, indent_with_mapping, reset_indent};

/// The kind and the text of a token.
type Leaf = (SyntaxKind, &'static str);

/// The tokens of a match block. Each arm is a single token here.
const ARMS: &[Leaf] = &[
    (SyntaxKind::L_CURLY, "{"),
    (SyntaxKind::WHITESPACE, "\n    "),
    (SyntaxKind::MATCH_ARM, "_ => (),"),
    (SyntaxKind::WHITESPACE, "\n    "),
    (SyntaxKind::MATCH_ARM, "_ => (),"),
    (SyntaxKind::WHITESPACE, "\n"),
    (SyntaxKind::R_CURLY, "}"),
];

const BLOCK: &[Leaf] = &[
    (SyntaxKind::L_CURLY, "{"),
    (SyntaxKind::WHITESPACE, "\n        "),
    (SyntaxKind::IDENT, "a"),
    (SyntaxKind::WHITESPACE, "\n    "),
    (SyntaxKind::R_CURLY, "}"),
];

fn raw(kind: SyntaxKind) -> rowan_green::SyntaxKind {
    rowan_green::SyntaxKind(kind.to_raw())
}

fn push(builder: &mut GreenNodeBuilder<'_>, kind: SyntaxKind, leaves: &[Leaf]) -> Result<(), Fail> {
    builder.start_node(raw(kind))?;
    for (kind, text) in leaves {
        builder.token(raw(*kind), text)?;
    }
    Ok(builder.finish_node()?)
}

/// Returns a statement list with these tokens.
fn list(alloc: Global, leaves: &[Leaf]) -> Result<GreenNode, Fail> {
    let mut builder = GreenNodeBuilder::new(alloc);
    push(&mut builder, SyntaxKind::STMT_LIST, leaves)?;
    Ok(builder.finish()?)
}

/// Returns a file that starts with a line feed and four spaces, followed by a statement list with
/// these tokens.
fn file(alloc: Global, leaves: &[Leaf]) -> Result<GreenNode, Fail> {
    let mut builder = GreenNodeBuilder::new(alloc);
    builder.start_node(raw(SyntaxKind::SOURCE_FILE))?;
    builder.token(raw(SyntaxKind::WHITESPACE), "\n    ")?;
    push(&mut builder, SyntaxKind::STMT_LIST, leaves)?;
    builder.finish_node()?;
    Ok(builder.finish()?)
}

fn text_of(alloc: Global, node: &SyntaxNode) -> Result<String, Fail> {
    Ok(format!(in alloc; "{}", node.cursor().text()?)?)
}

fn set_in(alloc: Global) -> Result<String, Fail> {
    let mut ids = TreeIds::new();
    let root = SyntaxNode::new_root(alloc, list(alloc, ARMS)?, &mut ids)?;
    text_of(alloc, &indent(alloc, &root, IndentLevel(2), &mut ids)?)
}

fn set_out(alloc: Global) -> Result<String, Fail> {
    let mut ids = TreeIds::new();
    let root = SyntaxNode::new_root(alloc, list(alloc, BLOCK)?, &mut ids)?;
    text_of(alloc, &dedent(alloc, &root, IndentLevel(1), &mut ids)?)
}

fn inner(alloc: Global, ids: &mut TreeIds) -> Result<SyntaxNode, Fail> {
    let root = SyntaxNode::new_root(alloc, file(alloc, BLOCK)?, ids)?;
    match root.element_at(alloc, &[1])? {
        Some(SyntaxElement::Node(node)) => Ok(node),
        _ => Err(Fail::new("no list")),
    }
}

fn reset(alloc: Global) -> Result<String, Fail> {
    let mut ids = TreeIds::new();
    let node = inner(alloc, &mut ids)?;
    text_of(alloc, &reset_indent(alloc, &node, &mut ids)?)
}

/// Indents a typed node by its own level, which is one, and dedents it by that level.
fn typed(alloc: Global) -> Result<String, Fail> {
    let mut ids = TreeIds::new();
    let Some(list) = StmtList::cast(inner(alloc, &mut ids)?) else {
        return Err(Fail::new("of another type"));
    };
    let level = list.indent_level(alloc)?;
    let set_in = list.indent(alloc, level, &mut ids)?;
    text_of(alloc, set_in.dedent(alloc, level, &mut ids)?.syntax())
}

/// Dedents a typed node by its own level.
fn typed_reset(alloc: Global) -> Result<String, Fail> {
    let mut ids = TreeIds::new();
    let Some(list) = StmtList::cast(inner(alloc, &mut ids)?) else {
        return Err(Fail::new("of another type"));
    };
    text_of(alloc, list.reset_indent(alloc, &mut ids)?.syntax())
}

/// Indents a file by one level, as a typed node, and maps its statement list.
fn typed_mapped(alloc: Global) -> Result<String, Fail> {
    let mut ids = TreeIds::new();
    let root = SyntaxNode::new_root(alloc, file(alloc, BLOCK)?, &mut ids)?;
    let Some(file) = SourceFile::cast(root) else {
        return Err(Fail::new("of another type"));
    };
    let mut mapping = SyntaxMapping::new(alloc);
    let new = file.indent_with_mapping(alloc, IndentLevel(1), &mut mapping, &mut ids)?;
    if mapping.len() != 1 {
        return Err(Fail::new("not mapped"));
    }
    text_of(alloc, new.syntax())
}

/// Indents a file by one level, and maps its statement list.
fn mapped(alloc: Global) -> Result<String, Fail> {
    let mut ids = TreeIds::new();
    let root = SyntaxNode::new_root(alloc, file(alloc, BLOCK)?, &mut ids)?;
    let mut mapping = SyntaxMapping::new(alloc);
    let new = indent_with_mapping(alloc, &root, IndentLevel(1), &mut mapping, &mut ids)?;
    if mapping.len() != 1 {
        return Err(Fail::new("not mapped"));
    }
    text_of(alloc, &new)
}

#[test]
fn child_nodes_are_mapped(rt: HostRuntime) -> Result<(), Fail> {
    assert!(rt; mapped(rt.alloc())?.as_str() == "\n        {\n            a\n        }");
    Ok(())
}

#[test]
fn lines_are_set_in(rt: HostRuntime) -> Result<(), Fail> {
    assert!(rt;
        set_in(rt.alloc())?.as_str() == "{\n            _ => (),\n            _ => (),\n        }"
    );
    Ok(())
}

#[test]
fn lines_are_set_out(rt: HostRuntime) -> Result<(), Fail> {
    assert!(rt; set_out(rt.alloc())?.as_str() == "{\n    a\n}");
    Ok(())
}

#[test]
fn lines_are_set_out_by_their_own_level(rt: HostRuntime) -> Result<(), Fail> {
    assert!(rt; reset(rt.alloc())?.as_str() == "{\n    a\n}");
    Ok(())
}

#[test]
fn typed_nodes_are_set_in_and_out(rt: HostRuntime) -> Result<(), Fail> {
    assert!(rt; typed(rt.alloc())?.as_str() == "{\n        a\n    }");
    Ok(())
}

#[test]
fn typed_nodes_are_set_out_by_their_own_level(rt: HostRuntime) -> Result<(), Fail> {
    assert!(rt; typed_reset(rt.alloc())?.as_str() == "{\n    a\n}");
    Ok(())
}

#[test]
fn child_nodes_of_typed_nodes_are_mapped(rt: HostRuntime) -> Result<(), Fail> {
    assert!(rt; typed_mapped(rt.alloc())?.as_str() == "\n        {\n            a\n        }");
    Ok(())
}
