//! Where the places of a tree stand.

use parser_input::SyntaxKind;
use rowan_green::{GreenNodeRef, NodeOrToken};
use std::alloc::{AllocError, Global};
use tree_patterns::kinds::is_among;
use tree_patterns::place::Place;

/// Where a place stands: the raw kinds of the node around it and of what is beside it there, 0 for nothing.
#[derive(Clone, Copy, Debug, PartialEq, Eq)]
pub struct Spot {
    pub parent: u16,
    pub before: u16,
    pub after: u16,
}

const OPENS: [SyntaxKind; 5] = [
    SyntaxKind::L_PAREN,
    SyntaxKind::L_BRACK,
    SyntaxKind::L_CURLY,
    SyntaxKind::L_ANGLE,
    SyntaxKind::PIPE,
];

const CLOSES: [SyntaxKind; 5] = [
    SyntaxKind::R_PAREN,
    SyntaxKind::R_BRACK,
    SyntaxKind::R_CURLY,
    SyntaxKind::R_ANGLE,
    SyntaxKind::PIPE,
];

/// What a sequence of tokens may be beside.
const FENCES: [SyntaxKind; 8] = [
    SyntaxKind::L_PAREN,
    SyntaxKind::R_PAREN,
    SyntaxKind::L_BRACK,
    SyntaxKind::R_BRACK,
    SyntaxKind::L_CURLY,
    SyntaxKind::R_CURLY,
    SyntaxKind::COMMA,
    SyntaxKind::SEMICOLON,
];

impl Spot {
    /// Returns `true` if the place is all between two delimiters.
    pub fn is_alone(self) -> bool {
        is_among(&OPENS, self.before) && is_among(&CLOSES, self.after)
    }

    /// Returns `true` if the place is between delimiters, commas or semicolons.
    pub fn is_fenced(self) -> bool {
        is_among(&FENCES, self.before) && is_among(&FENCES, self.after)
    }
}

/// Adds the spots of the places below a node, in order.
#[tactic(auto, using(tree_patterns::proofs::LeafLists::child_facts))]
pub fn push_spots(node: &GreenNodeRef<'_>, spots: &mut Vec<Spot>) -> Result<(), AllocError> {
    let parent = node.kind().0;
    let mut before = 0u16;
    let mut last = usize::MAX;
    for child in node.children() {
        let kind = child.kind().0;
        if last < spots.len() {
            spots[last].after = kind;
        }
        last = usize::MAX;
        match child {
            NodeOrToken::Node(inner) => push_spots(&inner, spots)?,
            NodeOrToken::Token(leaf) => {
                if Place::from_raw(leaf.kind().0).is_some() {
                    last = spots.len();
                    spots.push(Spot {
                        parent,
                        before,
                        after: 0,
                    })?;
                }
            }
        }
        before = kind;
    }
    Ok(())
}

/// Returns the spots of the places below a node, in order.
pub fn spots_of(alloc: Global, node: &GreenNodeRef<'_>) -> Result<Vec<Spot>, AllocError> {
    let mut spots = Vec::new(alloc);
    push_spots(node, &mut spots)?;
    Ok(spots)
}
