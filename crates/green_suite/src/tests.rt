//! Tests what contracts leave open: that calls succeed while allocations do, worked cases, and that
//! a call whose allocation fails returns `NoMemory` and changes nothing.
mod builders;
mod deep;
mod ranges;

use rowan_green::{GreenElement, GreenError, GreenNode, GreenToken, SyntaxKind, TextSize};
use std::alloc::{AllocError, Global};
use std::hash::{DefaultHasher, Hash, Hasher};
use std::iter::{DoubleEndedIterator, ExactSizeIterator};
use std::test::Fail;

fn token(alloc: Global, kind: u16, text: &str) -> Result<GreenElement, GreenError> {
    Ok(GreenElement::from(GreenToken::new(alloc, SyntaxKind(kind), text)?))
}

fn node(alloc: Global, kind: u16, children: Vec<GreenElement>) -> Result<GreenElement, GreenError> {
    let node = GreenNode::new(alloc, SyntaxKind(kind), children.into_iter())?;
    Ok(GreenElement::from(node))
}

fn node_of_one(alloc: Global, kind: u16, child: GreenElement) -> Result<GreenElement, GreenError> {
    node(alloc, kind, vec![in alloc; child]?)
}

fn node_of_two(
    alloc: Global,
    kind: u16,
    first: GreenElement,
    second: GreenElement,
) -> Result<GreenElement, GreenError> {
    node(alloc, kind, vec![in alloc; first, second]?)
}

/// Returns a node of kind 1 with the tokens `a` and `b`, of kinds 2 and 3.
fn pair(alloc: Global) -> Result<GreenElement, GreenError> {
    node_of_two(alloc, 1, token(alloc, 2, "a")?, token(alloc, 3, "b")?)
}

fn pair_node(alloc: Global) -> Result<GreenNode, GreenError> {
    pair(alloc)?.into_node().ok_or(GreenError::Unbalanced)
}

fn hash_of<T: Hash>(value: &T) -> u64 {
    let mut state = DefaultHasher::new();
    value.hash(&mut state);
    state.finish()
}

/// Returns whether the accessors of a node and of a token have the expected values.
fn reads(node: &GreenElement, token: &GreenElement) -> [bool; 6] {
    [
        node.kind() == SyntaxKind(1) && node.text_len() == TextSize(2),
        token.kind() == SyntaxKind(2) && token.text_len() == TextSize(1),
        node.as_node().is_some() && node.as_token().is_none(),
        token.as_token().is_some() && token.as_node().is_none(),
        node.as_node()
            .is_some_and(|node| node.children().len() == 2),
        token.as_token().is_some_and(|token| token.text() == "a"),
    ]
}

#[test]
fn elements(rt: HostRuntime) -> Result<(), Fail> {
    let alloc = rt.alloc();
    let (pair, a) = (pair(alloc)?, token(alloc, 2, "a")?);
    for read in reads(&pair, &a) {
        assert!(rt; read);
    }
    let (copy, b) = (pair.clone()?, token(alloc, 2, "b")?);
    for equal in [
        pair == copy && hash_of(&pair) == hash_of(&copy),
        a != b && a != pair,
        hash_of(&a) != hash_of(&b),
        pair.into_token().is_none() && copy.into_node().is_some(),
        a.into_node().is_none() && b.into_token().is_some(),
    ] {
        assert!(rt; equal);
    }
    Ok(())
}

#[test]
fn children_come_from_both_ends(rt: HostRuntime) -> Result<(), Fail> {
    let node = pair_node(rt.alloc())?;
    let mut children = node.children();
    assert!(rt; children.size_hint() == (2, Some(2)));
    let (last, first) = (children.next_back(), children.next());
    assert!(rt; last == node.child(1) && first == node.child(0));
    assert!(rt; children.next().is_none() && children.next_back().is_none());
    assert!(rt; children.next().is_none() && node.child(2).is_none());
    Ok(())
}

#[test]
fn lent_children_become_owned(rt: HostRuntime) -> Result<(), Fail> {
    let node = pair_node(rt.alloc())?;
    let first = node.child(0).ok_or("no child")?;
    assert!(rt; first.kind() == SyntaxKind(2) && first.text_len() == TextSize(1));
    assert!(rt; first.to_owned()? == token(rt.alloc(), 2, "a")?);
    Ok(())
}

/// Returns a node with a token for each of `texts`.
fn row_of(alloc: Global, texts: &[&str]) -> Result<GreenNode, GreenError> {
    let mut children = Vec::new(alloc);
    for text in texts {
        children.push(token(alloc, 2, text)?)?;
    }
    GreenNode::new(alloc, SyntaxKind(1), children.into_iter())
}

fn place_at(node: &GreenNode, offset: u32) -> Option<(usize, u32)> {
    let child = node.child_at_offset(TextSize(offset))?;
    Some((child.index, child.start.0))
}

#[test]
fn children_at_offsets(rt: HostRuntime) -> Result<(), Fail> {
    let node = row_of(rt.alloc(), &["ab", "", "c"])?;
    assert!(rt; place_at(&node, 0) == Some((0, 0)));
    assert!(rt; place_at(&node, 1) == Some((0, 0)));
    assert!(rt; place_at(&node, 2) == Some((2, 2)));
    assert!(rt; place_at(&node, 3).is_none());
    assert!(rt; node.child_start(2) == Some(TextSize(2)) && node.child_start(3).is_none());
    assert!(rt; place_at(&row_of(rt.alloc(), &[])?, 0).is_none());
    let letters = ["a"; 1000];
    let many = row_of(rt.alloc(), &letters)?;
    assert!(rt; place_at(&many, 999) == Some((999, 999)));
    let last = many.child_at_offset(TextSize(999)).ok_or("no child")?;
    assert!(rt; last.looks <= 22);
    Ok(())
}

/// Returns a node of two children after the edit with number `edit`.
fn edited(alloc: Global, node: &GreenNode, edit: u8) -> Result<GreenNode, GreenError> {
    if node.children().len() != 2 {
        return Err(GreenError::Unbalanced);
    }
    let c = token(alloc, 4, "c")?;
    match edit {
        0 => node.replace_child(alloc, 0, c),
        1 => node.insert_child(alloc, 2, c),
        2 => node.remove_child(alloc, 0),
        _ => node.splice_children(alloc, 1..2, vec![in alloc; c.clone()?, c]?.into_iter()),
    }
}

/// Returns `true` if `node` prints as `text`.
fn prints(alloc: Global, node: &GreenNode, text: &str) -> Result<bool, AllocError> {
    Ok(format!(in alloc; "{node}")?.as_str() == text)
}

fn is_edited(alloc: Global, node: &GreenNode, edit: u8, text: &str) -> Result<bool, Fail> {
    let edited = edited(alloc, node, edit)?;
    Ok(prints(alloc, &edited, text)?)
}

#[test]
fn edits(rt: HostRuntime) -> Result<(), Fail> {
    let node = pair_node(rt.alloc())?;
    for (edit, text) in [(0, "cb"), (1, "abc"), (2, "b"), (3, "acc")] {
        assert!(rt; is_edited(rt.alloc(), &node, edit, text)?, "{text}");
    }
    Ok(())
}

/// Returns a node of 1000 tokens `a` after the edit with number `edit` of its children from 499 on.
fn edited_row(alloc: Global, row: &GreenNode, edit: u8) -> Result<GreenNode, GreenError> {
    if row.children().len() != 1000 {
        return Err(GreenError::Unbalanced);
    }
    let b = token(alloc, 3, "bc")?;
    match edit {
        0 => row.replace_child(alloc, 499, b),
        1 => row.insert_child(alloc, 499, b),
        2 => row.remove_child(alloc, 499),
        _ => row.splice_children(alloc, 499..999, vec![in alloc; b.clone()?, b]?.into_iter()),
    }
}

/// The number of an edit of that node; the expected numbers of children and bytes; and the index
/// and start of the child at byte 500.
type RowEdit = (u8, usize, u32, (usize, u32));

const ROW_EDITS: &[RowEdit] = &[
    (0, 1000, 1001, (499, 499)),
    (1, 1001, 1002, (499, 499)),
    (2, 999, 999, (500, 500)),
    (3, 502, 504, (499, 499)),
];

/// Returns the length of the text that `node` prints, in bytes.
fn printed_length(alloc: Global, node: &GreenNode) -> Result<usize, AllocError> {
    Ok(format!(in alloc; "{node}")?.len())
}

fn is_edited_row(
    alloc: Global,
    row: &GreenNode,
    (edit, count, len, place): &RowEdit,
) -> Result<bool, Fail> {
    let edited = edited_row(alloc, row, *edit)?;
    let has_size = (edited.children().len() == *count) & (edited.text_len() == TextSize(*len));
    let is_placed = place_at(&edited, 500) == Some(*place);
    Ok(has_size & is_placed & (printed_length(alloc, &edited)? == *len as usize))
}

#[test]
fn edits_of_many_children(rt: HostRuntime) -> Result<(), Fail> {
    let row = row_of(rt.alloc(), &["a"; 1000])?;
    for edit in ROW_EDITS {
        assert!(rt; is_edited_row(rt.alloc(), &row, edit)?, "edit {}", edit.0);
    }
    Ok(())
}

/// Returns a node with the token `x` and a pair.
fn outer(alloc: Global) -> Result<GreenElement, GreenError> {
    node_of_two(alloc, 5, token(alloc, 2, "x")?, pair(alloc)?)
}

fn outer_prints(alloc: Global, text: &str) -> Result<bool, Fail> {
    let outer = outer(alloc)?;
    Ok(format!(in alloc; "{outer}")?.as_str() == text)
}

fn refusal_prints(alloc: Global, refusal: GreenError, text: &str) -> Result<bool, AllocError> {
    Ok(format!(in alloc; "{refusal}")?.as_str() == text)
}

#[test]
fn values_print_their_texts(rt: HostRuntime) -> Result<(), Fail> {
    assert!(rt; outer_prints(rt.alloc(), "xab")?);
    assert!(rt; refusal_prints(rt.alloc(), GreenError::TooLong, "too long")?);
    Ok(())
}

#[test]
fn a_length_past_u32_is_too_long(rt: HostRuntime) -> Result<(), Fail> {
    let alloc = rt.alloc();
    let mut element = token(alloc, 1, "a")?;
    for _ in 0..31 {
        element = node_of_two(alloc, 2, element.clone()?, element)?;
    }
    assert!(rt; element.text_len() == TextSize(1 << 31));
    let refused = node_of_two(alloc, 2, element.clone()?, element);
    assert!(rt; refused.err() == Some(GreenError::TooLong));
    Ok(())
}
