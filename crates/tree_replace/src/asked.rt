//! Parentheses that rustc asks for, though a text reads the same without them.

use parser_input::SyntaxKind;
use rowan_green::{GreenNodeRef, NodeOrToken};
use std::alloc::{AllocError, Global};
use syntax_tree::SyntaxNode;
use tree_patterns::bones::is_trivia;
use tree_patterns::kinds::is_among;

const COMPARISONS: [SyntaxKind; 6] = [
    SyntaxKind::EQ2,
    SyntaxKind::NEQ,
    SyntaxKind::L_ANGLE,
    SyntaxKind::R_ANGLE,
    SyntaxKind::LTEQ,
    SyntaxKind::GTEQ,
];

const LAZY: [SyntaxKind; 2] = [SyntaxKind::AMP2, SyntaxKind::PIPE2];

const WITHOUT_PLUS: [SyntaxKind; 3] = [
    SyntaxKind::REF_TYPE,
    SyntaxKind::PTR_TYPE,
    SyntaxKind::CAST_EXPR,
];

/// Returns `true` if a node is of a kind.
fn is_of(node: &GreenNodeRef<'_>, kind: SyntaxKind) -> bool {
    node.kind().0 == kind.to_raw()
}

/// Returns `true` if a child of a node is of one of some kinds.
fn has_child_among(node: &GreenNodeRef<'_>, kinds: &[SyntaxKind]) -> bool {
    for child in node.children() {
        if is_among(kinds, child.kind().0) {
            return true;
        }
    }
    false
}

/// Returns `true` if a node is a comparison.
fn is_comparison(node: &GreenNodeRef<'_>) -> bool {
    is_of(node, SyntaxKind::BIN_EXPR) && has_child_among(node, &COMPARISONS)
}

/// Returns `true` if a node is a type of several bounds.
fn has_plus(node: &GreenNodeRef<'_>) -> bool {
    if !is_of(node, SyntaxKind::DYN_TRAIT_TYPE) && !is_of(node, SyntaxKind::IMPL_TRAIT_TYPE) {
        return false;
    }
    for child in node.children() {
        if let NodeOrToken::Node(bounds) = child {
            if is_of(&bounds, SyntaxKind::TYPE_BOUND_LIST)
                && has_child_among(&bounds, &[SyntaxKind::PLUS])
            {
                return true;
            }
        }
    }
    false
}

/// Returns `true` if the last token of a node is a closing brace.
#[tactic(auto, using(tree_patterns::proofs::LeafLists::child_facts))]
fn ends_with_brace(node: &GreenNodeRef<'_>) -> bool {
    let mut ends = false;
    for child in node.children() {
        match child {
            NodeOrToken::Node(inner) => ends = ends_with_brace(&inner),
            NodeOrToken::Token(leaf) => {
                if !is_trivia(leaf.kind().0) {
                    ends = leaf.kind().0 == SyntaxKind::R_CURLY.to_raw();
                }
            }
        }
    }
    ends
}

/// Returns `true` if a node is right before the `else` of a `let`, but for whitespace and comments.
fn ends_initializer(alloc: Global, place: &SyntaxNode) -> Result<bool, AllocError> {
    for ancestor in place.ancestors()? {
        let ancestor = ancestor?;
        let Some(parent) = ancestor.parent()? else {
            return Ok(false);
        };
        let mut is_behind = false;
        let mut next = None;
        for child in parent.children_with_tokens(alloc)? {
            let child = child?;
            let kind = child.kind();
            if is_behind && !is_trivia(kind.to_raw()) && next.is_none() {
                next = Some(kind);
            }
            if child.text_range() == ancestor.text_range() && kind == ancestor.kind() {
                is_behind = true;
            }
        }
        if parent.kind() == SyntaxKind::LET_STMT {
            return Ok(next == Some(SyntaxKind::LET_ELSE));
        }
        if next.is_some() {
            return Ok(false);
        }
    }
    Ok(false)
}

/// Returns `true` if a node is the result of a function type.
fn is_result_of_type(parent: &SyntaxNode) -> Result<bool, AllocError> {
    if parent.kind() != SyntaxKind::RET_TYPE {
        return Ok(false);
    }
    Ok(match parent.parent()? {
        Some(around) => {
            around.kind() != SyntaxKind::FN && around.kind() != SyntaxKind::CLOSURE_EXPR
        }
        None => false,
    })
}

/// Returns `true` if rustc asks for parentheses around `new` where `place` is.
pub fn is_asked(
    alloc: Global,
    place: &SyntaxNode,
    new: &GreenNodeRef<'_>,
) -> Result<bool, AllocError> {
    let Some(parent) = place.parent()? else {
        return Ok(false);
    };
    let kind = parent.kind();
    let around = parent.cursor().green().as_ref();
    if is_comparison(&around) && is_comparison(new) {
        return Ok(true);
    }
    if kind == SyntaxKind::RANGE_EXPR && is_of(new, SyntaxKind::RANGE_EXPR) {
        return Ok(true);
    }
    let takes_no_plus = is_among(&WITHOUT_PLUS, kind.to_raw()) || is_result_of_type(&parent)?;
    if takes_no_plus && has_plus(new) {
        return Ok(true);
    }
    if kind == SyntaxKind::REF_PAT && is_of(new, SyntaxKind::RANGE_PAT) {
        return Ok(true);
    }
    let is_irrefutable = kind == SyntaxKind::LET_STMT || kind == SyntaxKind::PARAM;
    if is_irrefutable && is_of(new, SyntaxKind::OR_PAT) {
        return Ok(true);
    }
    let is_lazy = is_of(new, SyntaxKind::BIN_EXPR) && has_child_among(new, &LAZY);
    if !ends_with_brace(new) && !(is_lazy && kind == SyntaxKind::LET_STMT) {
        return Ok(false);
    }
    ends_initializer(alloc, place)
}

/// Returns `true` if rustc would lex a token across an end of an expression: `<-`, or `>` before `>`.
pub fn is_glued(before: &str, text: &str, after: &str) -> bool {
    before.ends_with("<") && text.starts_with("-") || text.ends_with(">") && after.starts_with(">")
}
