//! Comparing bytes with texts of trees, without a copy.
ghost use Rattle.std.specs.Prelude.{◌≡◌, ◌+◌, ◌≤◌, ◌&&◌, max, take, drop, length};
ghost use Rattle.std.specs.Str.{bytes_eq};
ghost use Rattle.rowan_green.specs.Forest.{tree_text, tree_count};
ghost use Rattle.rowan_green.specs.Term.{text_of, term_len, term_count};
ghost use Rattle.rowan.specs.Matching.{outcome, pending_count};

use crate::child_parts::{ChildPart, ChildParts};
use rowan_green::{GreenElementRef, GreenNodeRef, NodeOrToken};

/// The result of comparing bytes with a text, or the node on whose text after an offset it depends,
/// with the expected bytes.
#[derive(Drop)]
enum Matching<'a> {
    Different,
    Same,
    Pending(GreenNodeRef<'a>, usize, &'a [u8]),
}

/// Returns `true` if the node's text has these bytes after the first `skip`. Reads only the nodes
/// that would have them.
///
/// A loop continues with one child; calls compare the others. Those have at most half of the bytes
/// each, so the calls nest to the logarithm of the number of bytes.
#[cycle(has_bytes)]
pub(crate) fn has_bytes<'a>(node: GreenNodeRef<'a>, skip: usize, bytes: &'a [u8]) -> bool
    ensures { result
        ≡ bytes_eq (take (length bytes.now) (drop skip (tree_text node.entry))) bytes.now }
{
    let mut inside = node;
    let mut offset = skip;
    let mut left = bytes;
    'down: loop {
        match children_have(&inside, offset, left) {
            Matching::Different => return false,
            Matching::Same => return true,
            Matching::Pending(child, start, part) => {
                inside = child;
                offset = start;
                left = part;
            }
        }
    }
}

/// Returns `true` if the text has these bytes after the first `skip`.
fn text_has_bytes(text: &[u8], skip: usize, bytes: &[u8]) -> bool
    ensures { result ≡ bytes_eq (take (length bytes.now) (drop skip text.now)) bytes.now }
{
    let rest = &text[skip.min(text.len())..];
    &rest[..bytes.len().min(rest.len())] == bytes
}

/// Compares the bytes with the texts of the children that would have them, except the text of one
/// node.
#[cycle(has_bytes)]
fn children_have<'a>(node: &GreenNodeRef<'a>, skip: usize, bytes: &'a [u8]) -> Matching<'a>
    ensures outcome { outcome result
        ≡ bytes_eq (take (length bytes.now) (drop skip (tree_text node.now))) bytes.now }
    ensures below { pending_count result + 1 ≤ tree_count node.now }
{
    if let Some(text) = node.flat_text() {
        return if text_has_bytes(text.as_bytes(), skip, bytes) {
            Matching::Same
        } else {
            Matching::Different
        };
    }
    let mut matching = Matching::Same;
    let mut left = bytes;
    for part in ChildParts::of(node, skip, bytes.len()) {
        let ChildPart { child, start, len } = part;
        let (here, after) = left.split_at(len);
        matching = with_child(matching, child, start, here);
        if let Matching::Different = matching {
            return Matching::Different;
        }
        left = after;
    }
    if left.is_empty() {
        matching
    } else {
        Matching::Different
    }
}

/// Compares bytes with one more child's text.
#[cycle(has_bytes)]
fn with_child<'a>(
    matching: Matching<'a>,
    child: GreenElementRef<'a>,
    skip: usize,
    bytes: &'a [u8],
) -> Matching<'a>
    requires { skip + length bytes.now ≤ term_len child }
    ensures outcome { outcome result ≡ (outcome matching.entry
        && bytes_eq (take (length bytes.now) (drop skip (text_of child.entry))) bytes.now) }
    ensures below { pending_count result
        ≤ max (pending_count matching.entry) (term_count child.entry) }
{
    match child {
        NodeOrToken::Node(node) => with_node(matching, node, skip, bytes),
        NodeOrToken::Token(token) => {
            if &token.text().as_bytes()[skip..skip + bytes.len()] == bytes {
                matching
            } else {
                Matching::Different
            }
        }
    }
}

/// Compares bytes with one more node's text. If a node is pending already, makes the comparison
/// with fewer bytes.
#[cycle(has_bytes)]
fn with_node<'a>(
    matching: Matching<'a>,
    node: GreenNodeRef<'a>,
    skip: usize,
    bytes: &'a [u8],
) -> Matching<'a>
    ensures outcome { outcome result ≡ (outcome matching.entry
        && bytes_eq (take (length bytes.now) (drop skip (tree_text node.entry))) bytes.now) }
    ensures below { pending_count result
        ≤ max (pending_count matching.entry) (tree_count node.entry) }
{
    match matching {
        Matching::Different => Matching::Different,
        Matching::Same => Matching::Pending(node, skip, bytes),
        Matching::Pending(other, start, part) => {
            if bytes.len() <= part.len() {
                if has_bytes(node, skip, bytes) {
                    Matching::Pending(other, start, part)
                } else {
                    Matching::Different
                }
            } else if has_bytes(other, start, part) {
                Matching::Pending(node, skip, bytes)
            } else {
                Matching::Different
            }
        }
    }
}
