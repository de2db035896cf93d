//! Trees that are the same, whitespace, comments and the commas of lists aside.

use crate::texts::Span;
use rowan_green::{GreenElementRef, GreenNodeRef, NodeOrToken};
use std::alloc::{AllocError, Global};
use tree_patterns::bones::is_bone;

/// Returns the children of a node that are compared.
pub fn bones_of<'a>(
    alloc: Global,
    node: &GreenNodeRef<'a>,
) -> Result<Vec<GreenElementRef<'a>>, AllocError> {
    let kind = node.kind().0;
    let mut bones = Vec::new(alloc);
    for child in node.children() {
        if is_bone(kind, child.kind().0) {
            bones.push(child)?;
        }
    }
    Ok(bones)
}

/// Returns `true` if two nodes are the same.
#[tactic(auto, using(tree_patterns::proofs::LeafLists::child_facts))]
fn are_same_nodes(
    alloc: Global,
    one: &GreenNodeRef<'_>,
    other: &GreenNodeRef<'_>,
) -> Result<bool, AllocError> {
    let kind = one.kind().0;
    if kind != other.kind().0 {
        return Ok(false);
    }
    let mut others = bones_of(alloc, other)?.into_iter();
    for child in one.children() {
        if !is_bone(kind, child.kind().0) {
            continue;
        }
        let is_same = match (child, others.next()) {
            (NodeOrToken::Node(child), Some(NodeOrToken::Node(other))) => {
                are_same_nodes(alloc, &child, &other)?
            }
            (NodeOrToken::Token(child), Some(NodeOrToken::Token(other))) => child == other,
            _ => false,
        };
        if !is_same {
            return Ok(false);
        }
    }
    Ok(others.next().is_none())
}

/// Returns `true` if two elements are the same.
pub fn are_same(
    alloc: Global,
    one: &GreenElementRef<'_>,
    other: &GreenElementRef<'_>,
) -> Result<bool, AllocError> {
    match (one, other) {
        (NodeOrToken::Node(one), NodeOrToken::Node(other)) => are_same_nodes(alloc, one, other),
        (NodeOrToken::Token(one), NodeOrToken::Token(other)) => Ok(one == other),
        _ => Ok(false),
    }
}

/// What takes the place of a node in a tree.
#[derive(Drop)]
pub struct Change<'a> {
    /// The bytes of the node, counted as those of the tree are.
    pub span: Span,
    /// Its raw kind.
    pub kind: u16,
    pub new: GreenNodeRef<'a>,
}

/// Returns `true` if `read` is the node `old`, which begins at the byte `at`, with a change.
#[tactic(auto, using(tree_patterns::proofs::LeafLists::child_facts))]
pub fn is_changed(
    alloc: Global,
    old: &GreenNodeRef<'_>,
    at: usize,
    change: &Change<'_>,
    read: &GreenNodeRef<'_>,
) -> Result<bool, AllocError> {
    let kind = old.kind().0;
    let end = at.saturating_add(usize::from(old.text_len()));
    if kind == change.kind && change.span == (Span { start: at, end }) {
        return are_same_nodes(alloc, &change.new, read);
    }
    if kind != read.kind().0 {
        return Ok(false);
    }
    let mut others = bones_of(alloc, read)?.into_iter();
    let mut at = at;
    for child in old.children() {
        let start = at;
        at = start.saturating_add(usize::from(child.text_len()));
        if !is_bone(kind, child.kind().0) {
            continue;
        }
        let is_same = match (child, others.next()) {
            (NodeOrToken::Node(child), Some(NodeOrToken::Node(other))) => {
                is_changed(alloc, &child, start, change, &other)?
            }
            (NodeOrToken::Token(child), Some(NodeOrToken::Token(other))) => child == other,
            _ => false,
        };
        if !is_same {
            return Ok(false);
        }
    }
    Ok(others.next().is_none())
}
