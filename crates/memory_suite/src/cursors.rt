//! Steps from cursors to those next to them.
use memory_table::row::{Ask, Row};
use memory_table::shown::{Element, Node, Token, one_shown};
use rowan::ElementExt;
use rowan_green::{GreenError, GreenNode, GreenNodeBuilder, SyntaxKind};
use std::alloc::{AllocError, Global};

/// The words of the tree: `ab`, a list of `,`, an empty list and `cd`, then `;`, a list of `e`, an
/// empty list.
const SAMPLE: &str = "{ ab ( , ( ) cd ) ; ( e ) ( ) }";

/// The elements that the words stand for, put after those of a builder.
fn put_all(builder: &mut GreenNodeBuilder<'_>, words: &str) -> Result<(), GreenError> {
    for word in words.split(' ') {
        match word {
            "{" => builder.start_node(SyntaxKind(1))?,
            "(" => builder.start_node(SyntaxKind(2))?,
            ")" | "}" => builder.finish_node()?,
            "," | ";" => builder.token(SyntaxKind(4), word)?,
            _ => builder.token(SyntaxKind(3), word)?,
        }
    }
    Ok(())
}

/// The tree that words stand for.
pub(crate) fn green(alloc: Global, words: &str) -> Result<GreenNode, GreenError> {
    let mut builder = GreenNodeBuilder::new(alloc);
    put_all(&mut builder, words)?;
    match builder.finish() {
        Ok(node) => Ok(node),
        Err(unfinished) => Err(unfinished.error),
    }
}

/// The root of the sample.
pub(crate) fn root(alloc: Global) -> Result<Node, GreenError> {
    Ok(Node::new_root(alloc, green(alloc, SAMPLE)?)?)
}

/// The first list of the sample.
pub(crate) fn list(alloc: Global) -> Result<Node, GreenError> {
    match root(alloc)?.first_child(alloc)? {
        Some(node) => Ok(node),
        None => Err(GreenError::Unbalanced),
    }
}

/// The `,` in that list.
pub(crate) fn comma(alloc: Global) -> Result<Token, GreenError> {
    match list(alloc)?.first_token(alloc)? {
        Some(token) => Ok(token),
        None => Err(GreenError::Unbalanced),
    }
}

/// The steps of `rowan` that give one cursor.
#[derive(Clone, Copy)]
pub(crate) enum StepCall {
    NewRoot,
    CloneNode,
    Parent,
    TreeTop,
    FirstChild,
    LastChild,
    FirstChildOrToken,
    NthChildOrToken,
    LastChildOrToken,
    NextSibling,
    PrevSibling,
    NextSiblingOrToken,
    PrevSiblingOrToken,
    FirstToken,
    LastToken,
    CloneSubtree,
    CloneToken,
    TokenParent,
    TokenTreeTop,
    NextOfToken,
    PrevOfToken,
    NextToken,
    PrevToken,
    CloneElement,
    ElementParent,
    ElementTreeTop,
    NextOfElement,
    PrevOfElement,
}

fn from_node(alloc: Global, call: StepCall, node: &Node) -> Result<String, AllocError> {
    match call {
        StepCall::CloneNode => one_shown(alloc, node.clone()),
        StepCall::Parent => one_shown(alloc, node.parent()),
        StepCall::TreeTop => one_shown(alloc, node.tree_top()),
        StepCall::FirstChild => one_shown(alloc, node.first_child(alloc)),
        StepCall::LastChild => one_shown(alloc, node.last_child(alloc)),
        StepCall::FirstChildOrToken => one_shown(alloc, node.first_child_or_token(alloc)),
        StepCall::NthChildOrToken => one_shown(alloc, node.nth_child_or_token(alloc, 2)),
        StepCall::LastChildOrToken => one_shown(alloc, node.last_child_or_token(alloc)),
        StepCall::NextSibling => one_shown(alloc, node.next_sibling(alloc)),
        StepCall::PrevSibling => one_shown(alloc, node.prev_sibling(alloc)),
        StepCall::NextSiblingOrToken => one_shown(alloc, node.next_sibling_or_token(alloc)),
        StepCall::PrevSiblingOrToken => one_shown(alloc, node.prev_sibling_or_token(alloc)),
        StepCall::FirstToken => one_shown(alloc, node.first_token(alloc)),
        StepCall::LastToken => one_shown(alloc, node.last_token(alloc)),
        _ => one_shown(alloc, node.clone_subtree(alloc)),
    }
}

fn from_token(alloc: Global, call: StepCall, token: &Token) -> Result<String, AllocError> {
    match call {
        StepCall::CloneToken => one_shown(alloc, token.clone()),
        StepCall::TokenParent => one_shown(alloc, token.parent()),
        StepCall::TokenTreeTop => one_shown(alloc, token.tree_top()),
        StepCall::NextOfToken => one_shown(alloc, token.next_sibling_or_token(alloc)),
        StepCall::PrevOfToken => one_shown(alloc, token.prev_sibling_or_token(alloc)),
        StepCall::NextToken => one_shown(alloc, token.next_token(alloc)),
        _ => one_shown(alloc, token.prev_token(alloc)),
    }
}

fn from_element(alloc: Global, call: StepCall, element: &Element) -> Result<String, AllocError> {
    match call {
        StepCall::CloneElement => one_shown(alloc, element.clone()),
        StepCall::ElementParent => one_shown(alloc, element.parent()),
        StepCall::ElementTreeTop => one_shown(alloc, element.tree_top()),
        StepCall::NextOfElement => one_shown(alloc, element.next_sibling_or_token(alloc)),
        _ => one_shown(alloc, element.prev_sibling_or_token(alloc)),
    }
}

impl Ask for StepCall {
    fn answer(self, alloc: Global, _refused: &mut u32) -> anyhow::Result<String> {
        match self {
            StepCall::NewRoot => Ok(one_shown(alloc, Ok(root(alloc)?))?),
            StepCall::CloneToken
            | StepCall::TokenParent
            | StepCall::TokenTreeTop
            | StepCall::NextOfToken
            | StepCall::PrevOfToken
            | StepCall::NextToken
            | StepCall::PrevToken => Ok(from_token(alloc, self, &comma(alloc)?)?),
            StepCall::CloneElement
            | StepCall::ElementParent
            | StepCall::ElementTreeTop
            | StepCall::NextOfElement
            | StepCall::PrevOfElement => {
                Ok(from_element(alloc, self, &Element::from(comma(alloc)?))?)
            }
            _ => Ok(from_node(alloc, self, &list(alloc)?)?),
        }
    }
}

pub(crate) const ROWS: &[Row<StepCall>] = &[
    (
        "rowan::SyntaxNode::new_root",
        StepCall::NewRoot,
        "ROOT@0..7 ",
    ),
    (
        "rowan::SyntaxNode::clone",
        StepCall::CloneNode,
        "LIST@2..5 ",
    ),
    ("rowan::SyntaxNode::parent", StepCall::Parent, "ROOT@0..7 "),
    (
        "rowan::SyntaxNode::tree_top",
        StepCall::TreeTop,
        "ROOT@0..7 ",
    ),
    (
        "rowan::SyntaxNode::first_child",
        StepCall::FirstChild,
        "LIST@3..3 ",
    ),
    (
        "rowan::SyntaxNode::last_child",
        StepCall::LastChild,
        "LIST@3..3 ",
    ),
    (
        "rowan::SyntaxNode::first_child_or_token",
        StepCall::FirstChildOrToken,
        "COMMA@2..3 ",
    ),
    (
        "rowan::SyntaxNode::nth_child_or_token",
        StepCall::NthChildOrToken,
        "WORD@3..5 ",
    ),
    (
        "rowan::SyntaxNode::last_child_or_token",
        StepCall::LastChildOrToken,
        "WORD@3..5 ",
    ),
    (
        "rowan::SyntaxNode::next_sibling",
        StepCall::NextSibling,
        "LIST@6..7 ",
    ),
    (
        "rowan::SyntaxNode::prev_sibling",
        StepCall::PrevSibling,
        "none ",
    ),
    (
        "rowan::SyntaxNode::next_sibling_or_token",
        StepCall::NextSiblingOrToken,
        "COMMA@5..6 ",
    ),
    (
        "rowan::SyntaxNode::prev_sibling_or_token",
        StepCall::PrevSiblingOrToken,
        "WORD@0..2 ",
    ),
    (
        "rowan::SyntaxNode::first_token",
        StepCall::FirstToken,
        "COMMA@2..3 ",
    ),
    (
        "rowan::SyntaxNode::last_token",
        StepCall::LastToken,
        "WORD@3..5 ",
    ),
    (
        "rowan::SyntaxNode::clone_subtree",
        StepCall::CloneSubtree,
        "LIST@0..3 ",
    ),
    (
        "rowan::SyntaxToken::clone",
        StepCall::CloneToken,
        "COMMA@2..3 ",
    ),
    (
        "rowan::SyntaxToken::parent",
        StepCall::TokenParent,
        "LIST@2..5 ",
    ),
    (
        "rowan::SyntaxToken::tree_top",
        StepCall::TokenTreeTop,
        "ROOT@0..7 ",
    ),
    (
        "rowan::SyntaxToken::next_sibling_or_token",
        StepCall::NextOfToken,
        "LIST@3..3 ",
    ),
    (
        "rowan::SyntaxToken::prev_sibling_or_token",
        StepCall::PrevOfToken,
        "none ",
    ),
    (
        "rowan::SyntaxToken::next_token",
        StepCall::NextToken,
        "WORD@3..5 ",
    ),
    (
        "rowan::SyntaxToken::prev_token",
        StepCall::PrevToken,
        "WORD@0..2 ",
    ),
    (
        "rowan::SyntaxToken::clone",
        StepCall::CloneElement,
        "COMMA@2..3 ",
    ),
    (
        "rowan::ElementExt::parent",
        StepCall::ElementParent,
        "LIST@2..5 ",
    ),
    (
        "rowan::ElementExt::tree_top",
        StepCall::ElementTreeTop,
        "ROOT@0..7 ",
    ),
    (
        "rowan::ElementExt::next_sibling_or_token",
        StepCall::NextOfElement,
        "LIST@3..3 ",
    ),
    (
        "rowan::ElementExt::prev_sibling_or_token",
        StepCall::PrevOfElement,
        "none ",
    ),
];
