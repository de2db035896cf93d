//! Edits of a node of a million children, and a walk over the children of a root with many.

use crate::statements::{IDENTIFIER, ROOT, Statements};
use rowan::{ElementExt, SyntaxNode};
use rowan_green::{GreenError, GreenNode, GreenNodeBuilder, GreenToken, NodeOrToken, TextSize};
use std::alloc::{AllocError, Global};

/// Returns a node of `children` tokens of one byte.
pub(crate) fn node_of(alloc: Global, children: u32) -> Result<GreenNode, GreenError> {
    let mut builder = GreenNodeBuilder::new(alloc);
    builder.start_node(ROOT)?;
    for _ in 0..children {
        builder.token(IDENTIFIER, "a")?;
    }
    builder.finish_node()?;
    Ok(builder.finish()?)
}

/// Replaces the child at index `number` with `token`, inserts `token` there once more, and removes
/// one of the two.
fn edited(
    alloc: Global,
    node: &GreenNode,
    token: &GreenToken,
    number: usize,
) -> Result<GreenNode, GreenError> {
    if number >= node.children().len() {
        return Ok(node.clone()?);
    }
    let replaced = node.replace_child(alloc, number, NodeOrToken::Token(token.clone()?))?;
    if number > replaced.children().len() {
        return Ok(replaced);
    }
    let longer = replaced.insert_child(alloc, number, NodeOrToken::Token(token.clone()?))?;
    if number >= longer.children().len() {
        return Ok(longer);
    }
    longer.remove_child(alloc, number)
}

/// Returns the node after `rounds` rounds of these three edits, spread over its children.
pub(crate) fn edited_often(
    alloc: Global,
    node: GreenNode,
    rounds: usize,
) -> Result<GreenNode, GreenError> {
    let token = GreenToken::new(alloc, IDENTIFIER, "bc")?;
    let count = node.children().len();
    let mut node = node;
    for round in 0..rounds {
        let number = round.wrapping_mul(7919).checked_rem(count).unwrap_or(0);
        node = edited(alloc, &node, &token, number)?;
    }
    Ok(node)
}

/// Returns the sum of the indices of the children that are found at `searches` offsets, spread over
/// the text.
pub(crate) fn found(node: &GreenNode, searches: u32) -> u64 {
    let len = node.text_len().0;
    let mut sum: u64 = 0;
    for search in 0..searches {
        let offset = search.wrapping_mul(7919).checked_rem(len).unwrap_or(0);
        if let Some(child) = node.child_at_offset(TextSize(offset)) {
            sum = sum.wrapping_add(child.index as u64);
        }
    }
    sum
}

/// Returns the sum of the end offsets of the children.
pub(crate) fn ends(alloc: Global, root: &SyntaxNode<Statements>) -> Result<u64, AllocError> {
    let mut sum: u64 = 0;
    for child in root.children_with_tokens(alloc)? {
        sum = sum.wrapping_add(u64::from(child?.text_range().end().0));
    }
    Ok(sum)
}
