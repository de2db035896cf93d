//! Deep trees: a call for each level would need more than the default stack.
use super::Node;
use rowan_green::{GreenError, GreenNode, GreenNodeBuilder, SyntaxKind, TextSize};
use std::alloc::{AllocError, Global};
use std::hash::{DefaultHasher, Hasher};
use std::test::Fail;

/// How many nodes are in one another.
const LEVELS: usize = 200_000;

fn open_and_close(builder: &mut GreenNodeBuilder<'_>) -> Result<(), GreenError> {
    for _ in 0..LEVELS {
        builder.start_node(SyntaxKind(2))?;
    }
    for _ in 0..LEVELS {
        builder.token(SyntaxKind(4), ",")?;
        builder.finish_node()?;
    }
    Ok(())
}

/// Returns nodes in one another, each with a token `,` as its last child.
fn nested(alloc: Global) -> Result<GreenNode, GreenError> {
    let mut builder = GreenNodeBuilder::new(alloc);
    open_and_close(&mut builder)?;
    match builder.finish() {
        Ok(node) => Ok(node),
        Err(unfinished) => Err(unfinished.error),
    }
}

/// Returns the first child that is a node, or the node itself if it has none.
fn child_of(alloc: Global, node: Node) -> Result<Node, AllocError> {
    match node.first_child(alloc)? {
        Some(child) => Ok(child),
        None => Ok(node),
    }
}

/// Returns the innermost of the nested nodes.
fn innermost(alloc: Global) -> Result<Node, GreenError> {
    let mut node = Node::new_root(alloc, nested(alloc)?)?;
    for _ in 0..LEVELS {
        node = child_of(alloc, node)?;
    }
    Ok(node)
}

fn hash_of(node: &Node) -> u64 {
    let mut state = DefaultHasher::new();
    node.hash_way(&mut state);
    state.finish()
}

/// Returns `true` if two nodes with equal paths, in two trees, are equal and hash alike.
fn are_alike(alloc: Global) -> Result<bool, GreenError> {
    let (one, two) = (innermost(alloc)?, innermost(alloc)?);
    Ok((one == two) & one.has_way_of(&two) & (hash_of(&one) == hash_of(&two)))
}

/// Returns whether the nodes have their text, and its first character.
fn has_text(alloc: Global) -> Result<bool, GreenError> {
    let root = Node::new_root(alloc, nested(alloc)?)?;
    let mut commas = String::new(alloc);
    for _ in 0..LEVELS {
        commas.push(',')?;
    }
    let text = root.text()?;
    Ok(text.eq_str(commas.as_str()) & (text.char_at(TextSize(0)) == Some(',')))
}

#[test]
fn deep_cursors_are_compared_and_dropped(rt: HostRuntime) -> Result<(), Fail> {
    assert!(rt; are_alike(rt.alloc())?);
    Ok(())
}

#[test]
fn deep_texts_are_compared(rt: HostRuntime) -> Result<(), Fail> {
    assert!(rt; has_text(rt.alloc())?);
    Ok(())
}
