//! Debug output of trees.
use super::{Node, tree};
use rowan::SyntaxNode;
use rowan_green::{GreenError, GreenNode, GreenNodeBuilder, SyntaxKind};
use std::alloc::Global;
use std::test::Fail;

const LINES: &str =
    "ROOT@0..3\n  WORD@0..2 \"ab\"\n  LIST@2..3\n    COMMA@2..3 \",\"\n  LIST@3..3\n";

fn have_lines(alloc: Global) -> Result<bool, Fail> {
    let root = tree(alloc, "{ ab ( , ) ( ) }")?;
    Ok(root.debug_tree(alloc)?.as_str() == LINES)
}

#[test]
fn elements_have_a_line_each(rt: HostRuntime) -> Result<(), Fail> {
    assert!(rt; have_lines(rt.alloc())?);
    Ok(())
}

/// Returns a root with one token.
fn one(alloc: Global, text: &str) -> Result<GreenNode, GreenError> {
    let mut builder = GreenNodeBuilder::new(alloc);
    builder.start_node(SyntaxKind(1))?;
    builder.token(SyntaxKind(3), text)?;
    builder.finish_node()?;
    match builder.finish() {
        Ok(node) => Ok(node),
        Err(unfinished) => Err(unfinished.error),
    }
}

fn line_of(alloc: Global, text: &str) -> Result<String, Fail> {
    let root: Node = SyntaxNode::new_root(alloc, one(alloc, text)?)?;
    Ok(root.debug_tree(alloc)?)
}

/// The text of a token, and the expected line.
const CUT: &[(&str, &str)] = &[
    (
        "abcdefghijklmnopqrstuvwx",
        "  WORD@0..24 \"abcdefghijklmnopqrstuvwx\"\n",
    ),
    (
        "abcdefghijklmnopqrstuvwxy",
        "  WORD@0..25 \"abcdefghijklmnopqrstu ...\"\n",
    ),
    (
        "abcdefghijklmnopqrst\u{e9}uvw",
        "  WORD@0..25 \"abcdefghijklmnopqrst\u{e9} ...\"\n",
    ),
    ("a\"b\n", "  WORD@0..4 \"a\\\"b\\n\"\n"),
    ("", "  WORD@0..0 \"\"\n"),
];

fn has_line(alloc: Global, text: &str, line: &str) -> Result<bool, Fail> {
    Ok(line_of(alloc, text)?.as_str().ends_with(line))
}

#[test]
fn long_texts_are_cut(rt: HostRuntime) -> Result<(), Fail> {
    for (text, line) in CUT {
        assert!(rt; has_line(rt.alloc(), text, line)?, "{line}");
    }
    Ok(())
}
