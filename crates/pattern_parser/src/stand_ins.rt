//! Stand-ins in trees.

use crate::spelling::{Spelling, StandIn};
use parser_input::SyntaxKind;
use rowan_green::{GreenNodeRef, GreenTokenRef, NodeOrToken};
use std::alloc::{AllocError, Global};
use tree_patterns::bones::is_trivia;
use tree_patterns::kinds::{LISTS, SPELLED, SPELLING, is_among};
use tree_patterns::leaves::leaves_of;

/// Returns the number of the stand-in that a leaf is.
pub fn stand_in_of(stand_ins: &[StandIn], leaf: &GreenTokenRef<'_>) -> Option<usize> {
    if leaf.kind().0 != SyntaxKind::IDENT.to_raw() {
        return None;
    }
    for (number, stand_in) in stand_ins.iter().enumerate() {
        if stand_in.word.as_str() == leaf.text() {
            return Some(number);
        }
    }
    None
}

/// Returns the number of the stand-in that is the only token of a node, if there is one; with
/// `spelled`, beside tokens with which an element of a list is spelled.
pub fn only_stand_in(
    alloc: Global,
    stand_ins: &[StandIn],
    node: &GreenNodeRef<'_>,
    spelled: bool,
) -> Result<Option<usize>, AllocError> {
    let mut only = None;
    for leaf in leaves_of(alloc, node)? {
        if is_trivia(leaf.kind().0) || spelled && is_among(&SPELLING, leaf.kind().0) {
            continue;
        }
        let Some(number) = stand_in_of(stand_ins, &leaf) else {
            return Ok(None);
        };
        match only {
            None => only = Some(number),
            Some(other) if spelled && other == number => {}
            Some(_) => return Ok(None),
        }
    }
    Ok(only)
}

/// Returns `true` if an element of a list may be spelled with more than the stand-in.
pub fn may_be_spelled(kind: u16) -> bool {
    is_among(&SPELLED, kind)
}

/// Returns how a sequence is spelled in a node of kind `kind`, in one of kind `parent`; `around` is
/// how it is spelled around that.
fn spelling_in(parent: u16, kind: u16, around: Spelling) -> Spelling {
    if kind == SyntaxKind::PARAM_LIST.to_raw() {
        if parent == SyntaxKind::FN.to_raw() {
            return Spelling::Typed;
        }
        return Spelling::Name;
    }
    if kind == SyntaxKind::RECORD_FIELD_LIST.to_raw() {
        return Spelling::Typed;
    }
    if kind == SyntaxKind::MATCH_ARM_LIST.to_raw() {
        return Spelling::Arm;
    }
    if kind == SyntaxKind::ITEM_LIST.to_raw() || kind == SyntaxKind::ASSOC_ITEM_LIST.to_raw() {
        return Spelling::Item;
    }
    if is_among(&LISTS, kind) {
        return Spelling::Name;
    }
    around
}

/// Notes how the sequences among the children of a node are spelled. `spelling` is that of the list
/// around them.
#[tactic(auto, using(tree_patterns::proofs::LeafLists::child_facts))]
fn note_spellings(
    stand_ins: &[StandIn],
    node: &GreenNodeRef<'_>,
    spelling: Spelling,
    spellings: &mut Vec<Spelling>,
) {
    let kind = node.kind().0;
    for child in node.children() {
        match child {
            NodeOrToken::Node(child) => {
                let inner = spelling_in(kind, child.kind().0, spelling);
                note_spellings(stand_ins, &child, inner, spellings);
            }
            NodeOrToken::Token(leaf) => note_spelling(stand_ins, &leaf, spelling, spellings),
        }
    }
}

/// Notes how the sequence that a leaf is is spelled.
fn note_spelling(
    stand_ins: &[StandIn],
    leaf: &GreenTokenRef<'_>,
    spelling: Spelling,
    spellings: &mut Vec<Spelling>,
) {
    let Some(number) = stand_in_of(stand_ins, leaf) else {
        return;
    };
    if number < stand_ins.len() && number < spellings.len() && stand_ins[number].is_sequence {
        spellings[number] = spelling;
    }
}

/// Returns how each metavariable is spelled as an element of its list in the tree of a text.
pub fn spellings(
    alloc: Global,
    stand_ins: &[StandIn],
    root: &GreenNodeRef<'_>,
) -> Result<Vec<Spelling>, AllocError> {
    let mut spellings = Vec::new(alloc);
    for _stand_in in stand_ins {
        spellings.push(Spelling::Name)?;
    }
    note_spellings(stand_ins, root, Spelling::Name, &mut spellings);
    Ok(spellings)
}
