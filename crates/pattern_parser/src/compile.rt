//! The tree of a pattern: bones, with a leaf of its own kind for each place.

use crate::error::PatternError;
use crate::spelling::StandIn;
use crate::stand_ins::{may_be_spelled, only_stand_in, stand_in_of};
use parser_input::SyntaxKind;
use rowan_green::{GreenElement, GreenError, GreenNode, GreenNodeRef, GreenToken, NodeOrToken};
use std::alloc::Global;
use tree_patterns::bones::is_bone;
use tree_patterns::kinds::{LISTS, is_among};
use tree_patterns::place::Place;

/// Returns the leaf of a place in a pattern's tree, with the name of its metavariable.
fn place_leaf(alloc: Global, place: Place, name: &str) -> Result<GreenElement, PatternError> {
    let kind = rowan_green::SyntaxKind(place.to_raw());
    match GreenToken::new(alloc, kind, name) {
        Ok(token) => Ok(NodeOrToken::Token(token)),
        Err(GreenError::TooLong) => Err(PatternError::TooLong),
        Err(_) => Err(PatternError::NoMemory),
    }
}

/// Returns the place that a child of a node of kind `parent` is, with the number of its metavariable.
fn place_of(
    alloc: Global,
    stand_ins: &[StandIn],
    parent: u16,
    node: &GreenNodeRef<'_>,
) -> Result<Option<(Place, usize)>, PatternError> {
    let kind = node.kind().0;
    if is_among(&LISTS, parent) {
        if let Some(number) = only_stand_in(alloc, stand_ins, node, may_be_spelled(kind))? {
            if number < stand_ins.len() && stand_ins[number].is_sequence {
                return Ok(Some((Place::of_list(parent), number)));
            }
        }
    }
    let Some(place) = Place::of_node(kind) else {
        return Ok(None);
    };
    match only_stand_in(alloc, stand_ins, node, false)? {
        Some(number) if number < stand_ins.len() && !stand_ins[number].is_sequence => {
            Ok(Some((place, number)))
        }
        _ => Ok(None),
    }
}

/// Returns the leaf of a pattern that a leaf in a node of kind `parent` is.
fn compiled_leaf(
    alloc: Global,
    stand_ins: &[StandIn],
    parent: u16,
    leaf: &rowan_green::GreenTokenRef<'_>,
) -> Result<GreenElement, PatternError> {
    let Some(number) = stand_in_of(stand_ins, leaf) else {
        return Ok(NodeOrToken::Token(leaf.to_owned()?));
    };
    if parent != SyntaxKind::TOKEN_TREE.to_raw() || number >= stand_ins.len() {
        return Err(PatternError::Place);
    }
    let stand_in = &stand_ins[number];
    let place = if stand_in.is_sequence {
        Place::Sequence
    } else {
        Place::Token
    };
    place_leaf(alloc, place, stand_in.name.as_str())
}

/// Returns the leaf of a pattern that a node in one of kind `parent` is, if it is a place.
fn placed(
    alloc: Global,
    stand_ins: &[StandIn],
    parent: u16,
    node: &GreenNodeRef<'_>,
) -> Result<Option<GreenElement>, PatternError> {
    match place_of(alloc, stand_ins, parent, node)? {
        Some((place, number)) if number < stand_ins.len() => {
            let leaf = place_leaf(alloc, place, stand_ins[number].name.as_str())?;
            Ok(Some(leaf))
        }
        _ => Ok(None),
    }
}

/// Returns the node of a pattern that a node is.
#[tactic(auto, using(tree_patterns::proofs::LeafLists::child_facts))]
fn compiled_node(
    alloc: Global,
    stand_ins: &[StandIn],
    node: &GreenNodeRef<'_>,
) -> Result<GreenElement, PatternError> {
    let kind = node.kind();
    let mut children = Vec::new(alloc);
    for child in node.children() {
        if is_bone(kind.0, child.kind().0) {
            let element = match child {
                NodeOrToken::Token(leaf) => compiled_leaf(alloc, stand_ins, kind.0, &leaf)?,
                NodeOrToken::Node(inner) => match placed(alloc, stand_ins, kind.0, &inner)? {
                    Some(leaf) => leaf,
                    None => compiled_node(alloc, stand_ins, &inner)?,
                },
            };
            children.push(element)?;
        }
    }
    match GreenNode::new(alloc, kind, children.into_iter()) {
        Ok(node) => Ok(NodeOrToken::Node(node)),
        Err(GreenError::TooLong) => Err(PatternError::TooLong),
        Err(_) => Err(PatternError::NoMemory),
    }
}

/// Returns the element of a pattern that the node of a fragment is.
pub fn compiled(
    alloc: Global,
    stand_ins: &[StandIn],
    node: &GreenNodeRef<'_>,
) -> Result<GreenElement, PatternError> {
    match placed(alloc, stand_ins, 0, node)? {
        Some(leaf) => Ok(leaf),
        None => compiled_node(alloc, stand_ins, node),
    }
}
