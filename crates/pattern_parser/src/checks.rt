//! What is checked of a pattern's tree.

use crate::spelling::StandIn;
use rowan_green::{GreenNodeRef, GreenTokenRef, NodeOrToken};
use std::alloc::{AllocError, Global};
use tree_patterns::leaves::leaves_of;
use tree_patterns::place::Place;

/// Returns the number of places in the tree of a pattern.
pub fn count_places(alloc: Global, tree: &GreenNodeRef<'_>) -> Result<usize, AllocError> {
    let mut count = 0usize;
    for leaf in leaves_of(alloc, tree)? {
        if Place::from_raw(leaf.kind().0).is_some() {
            count = count.saturating_add(1);
        }
    }
    Ok(count)
}

/// Returns `true` if a name is a sequence in one place and one element in another.
pub fn is_mixed(stand_ins: &[StandIn]) -> bool {
    for one in stand_ins {
        for other in stand_ins {
            if one.name.as_str() == other.name.as_str()
                && one.is_sequence != other.is_sequence
                && one.name.as_str() != "_"
            {
                return true;
            }
        }
    }
    false
}

/// Returns `true` if a leaf of a pattern's tree is a sequence.
fn is_sequence(leaf: &GreenTokenRef<'_>) -> bool {
    match Place::from_raw(leaf.kind().0) {
        Some(place) => place.is_sequence(),
        None => false,
    }
}

/// Returns `true` if a list of the pattern has two sequences.
#[tactic(auto, using(tree_patterns::proofs::LeafLists::child_facts))]
pub fn has_two_sequences(node: &GreenNodeRef<'_>) -> bool {
    let mut has_one = false;
    for child in node.children() {
        match child {
            NodeOrToken::Node(child) => {
                if has_two_sequences(&child) {
                    return true;
                }
            }
            NodeOrToken::Token(leaf) => {
                if is_sequence(&leaf) {
                    if has_one {
                        return true;
                    }
                    has_one = true;
                }
            }
        }
    }
    false
}
