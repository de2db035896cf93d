//! Cursors one after another.
use crate::cursors::{comma, list, root};
use memory_table::row::{Ask, Row};
use memory_table::shown::{Element, Node, Token, all_shown};
use rowan::{Direction, ElementExt, Preorder, PreorderWithTokens, support};
use rowan_suite::{ListNode, Lists};
use std::alloc::{AllocError, Global};

/// The iterators of `rowan`.
#[derive(Clone, Copy)]
pub(crate) enum WalkCall {
    Ancestors,
    Children,
    ChildrenWithTokens,
    Siblings,
    SiblingsWithTokens,
    Preorder,
    PreorderWithTokens,
    SkipSubtree,
    SkipSubtreeWithTokens,
    Descendants,
    DescendantsWithTokens,
    AncestorsOfToken,
    SiblingsOfToken,
    AncestorsOfElement,
    TypedChildren,
}

/// Skips the rest of the subtree of the first child that a walk enters, a second time if it runs out of memory.
macro_rules! skip_first_child {
    ($walk:ident, $refused:ident) => {
        for _ in 0..2 {
            if let Some(event) = $walk.next() {
                drop(event?);
            }
        }
        if $walk.skip_subtree().is_err() {
            *$refused = $refused.saturating_add(1);
            $walk.skip_subtree()?;
        }
    };
}

/// Returns a walk from after the subtree of the first child on.
fn skipped(mut walk: Preorder<Lists>, refused: &mut u32) -> Result<Preorder<Lists>, AllocError> {
    skip_first_child!(walk, refused);
    Ok(walk)
}

fn skipped_with_tokens(
    mut walk: PreorderWithTokens<Lists>,
    refused: &mut u32,
) -> Result<PreorderWithTokens<Lists>, AllocError> {
    skip_first_child!(walk, refused);
    Ok(walk)
}

fn of_node(
    alloc: Global,
    call: WalkCall,
    node: &Node,
    refused: &mut u32,
) -> Result<String, AllocError> {
    match call {
        WalkCall::Ancestors => all_shown(alloc, node.ancestors()?),
        WalkCall::Children => all_shown(alloc, node.children(alloc)?),
        WalkCall::ChildrenWithTokens => all_shown(alloc, node.children_with_tokens(alloc)?),
        WalkCall::Siblings => all_shown(alloc, node.siblings(alloc, Direction::Next)?),
        WalkCall::SiblingsWithTokens => {
            all_shown(alloc, node.siblings_with_tokens(alloc, Direction::Prev)?)
        }
        WalkCall::Preorder => all_shown(alloc, node.preorder(alloc)?),
        WalkCall::PreorderWithTokens => all_shown(alloc, node.preorder_with_tokens(alloc)?),
        WalkCall::Descendants => all_shown(alloc, node.descendants(alloc)?),
        WalkCall::SkipSubtree => all_shown(alloc, skipped(node.preorder(alloc)?, refused)?),
        WalkCall::SkipSubtreeWithTokens => {
            all_shown(
                alloc,
                skipped_with_tokens(node.preorder_with_tokens(alloc)?, refused)?,
            )
        }
        _ => all_shown(alloc, node.descendants_with_tokens(alloc)?),
    }
}

fn of_token(alloc: Global, call: WalkCall, token: &Token) -> Result<String, AllocError> {
    match call {
        WalkCall::AncestorsOfToken => all_shown(alloc, token.parent_ancestors()?),
        _ => all_shown(alloc, token.siblings_with_tokens(alloc, Direction::Next)?),
    }
}

fn of_element(alloc: Global, element: &Element) -> Result<String, AllocError> {
    all_shown(alloc, element.ancestors()?)
}

fn typed(alloc: Global, root: &Node) -> Result<String, AllocError> {
    all_shown(alloc, support::children::<ListNode>(alloc, root)?)
}

impl Ask for WalkCall {
    fn answer(self, alloc: Global, refused: &mut u32) -> anyhow::Result<String> {
        match self {
            WalkCall::AncestorsOfToken | WalkCall::SiblingsOfToken => {
                Ok(of_token(alloc, self, &comma(alloc)?)?)
            }
            WalkCall::AncestorsOfElement => Ok(of_element(alloc, &Element::from(comma(alloc)?))?),
            WalkCall::TypedChildren => Ok(typed(alloc, &root(alloc)?)?),
            _ => Ok(of_node(alloc, self, &list(alloc)?, refused)?),
        }
    }
}

/// The walk through the first list, with tokens.
const WALK: &str =
    "+LIST@2..5 +COMMA@2..3 -COMMA@2..3 +LIST@3..3 -LIST@3..3 +WORD@3..5 -WORD@3..5 -LIST@2..5 ";

/// What is left of that walk behind the subtree of its second element.
const REST: &str = "-COMMA@2..3 +LIST@3..3 -LIST@3..3 +WORD@3..5 -WORD@3..5 -LIST@2..5 ";

pub(crate) const ROWS: &[Row<WalkCall>] = &[
    (
        "rowan::SyntaxNode::ancestors",
        WalkCall::Ancestors,
        "LIST@2..5 ROOT@0..7 ",
    ),
    (
        "rowan::SyntaxNode::children",
        WalkCall::Children,
        "LIST@3..3 ",
    ),
    (
        "rowan::SyntaxNode::children_with_tokens",
        WalkCall::ChildrenWithTokens,
        "COMMA@2..3 LIST@3..3 WORD@3..5 ",
    ),
    (
        "rowan::SyntaxNode::siblings",
        WalkCall::Siblings,
        "LIST@2..5 LIST@6..7 LIST@7..7 ",
    ),
    (
        "rowan::SyntaxNode::siblings_with_tokens",
        WalkCall::SiblingsWithTokens,
        "LIST@2..5 WORD@0..2 ",
    ),
    (
        "rowan::SyntaxNode::preorder",
        WalkCall::Preorder,
        "+LIST@2..5 +LIST@3..3 -LIST@3..3 -LIST@2..5 ",
    ),
    (
        "rowan::SyntaxNode::preorder_with_tokens",
        WalkCall::PreorderWithTokens,
        WALK,
    ),
    (
        "rowan::Preorder::skip_subtree",
        WalkCall::SkipSubtree,
        "-LIST@3..3 -LIST@2..5 ",
    ),
    (
        "rowan::PreorderWithTokens::skip_subtree",
        WalkCall::SkipSubtreeWithTokens,
        REST,
    ),
    (
        "rowan::SyntaxNode::descendants",
        WalkCall::Descendants,
        "LIST@2..5 LIST@3..3 ",
    ),
    (
        "rowan::SyntaxNode::descendants_with_tokens",
        WalkCall::DescendantsWithTokens,
        "LIST@2..5 COMMA@2..3 LIST@3..3 WORD@3..5 ",
    ),
    (
        "rowan::SyntaxToken::parent_ancestors",
        WalkCall::AncestorsOfToken,
        "LIST@2..5 ROOT@0..7 ",
    ),
    (
        "rowan::SyntaxToken::siblings_with_tokens",
        WalkCall::SiblingsOfToken,
        "COMMA@2..3 LIST@3..3 WORD@3..5 ",
    ),
    (
        "rowan::ElementExt::ancestors",
        WalkCall::AncestorsOfElement,
        "LIST@2..5 ROOT@0..7 ",
    ),
    (
        "rowan::support::children",
        WalkCall::TypedChildren,
        "LIST@2..5 LIST@6..7 LIST@7..7 ",
    ),
];
