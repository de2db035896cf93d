//! The nodes and tokens around a node, a token or an element.
use crate::trees::{element, root};
use memory_table::row::{Ask, Row};
use memory_table::shown::{all_shown, one_shown};
use parser_input::SyntaxKind;
use std::alloc::{AllocError, Global};
use syntax_tree::{SyntaxElement, SyntaxNode, SyntaxToken, TreeIds};

/// The calls of `syntax_tree` that lead from one element to others.
#[derive(Clone, Copy)]
pub(crate) enum AroundCall {
    Text,
    FirstToken,
    LastToken,
    FirstChild,
    LastChild,
    NextSibling,
    PrevSibling,
    NextToken,
    PrevToken,
    NextElement,
    PrevElement,
    Descendants,
    ChildrenOf,
    Child,
    ChildToken,
}

/// Returns what is written for a token.
fn token_shown(
    alloc: Global,
    token: Result<Option<SyntaxToken>, AllocError>,
) -> Result<String, AllocError> {
    match token? {
        Some(token) => one_shown(alloc, Ok(SyntaxElement::Token(token))),
        None => String::from_str(alloc, "none "),
    }
}

fn of_node(alloc: Global, call: AroundCall, node: &SyntaxNode) -> Result<String, AllocError> {
    match call {
        AroundCall::Text => format!(in alloc; "{}", node.text()?),
        AroundCall::FirstToken => token_shown(alloc, node.first_token(alloc)),
        AroundCall::LastToken => token_shown(alloc, node.last_token(alloc)),
        AroundCall::FirstChild => one_shown(alloc, node.first_child(alloc)),
        AroundCall::LastChild => one_shown(alloc, node.last_child(alloc)),
        AroundCall::NextSibling => one_shown(alloc, node.next_sibling(alloc)),
        AroundCall::PrevSibling => one_shown(alloc, node.prev_sibling(alloc)),
        AroundCall::ChildrenOf => {
            all_shown(alloc, node.children_of(alloc, SyntaxKind::LITERAL)?)
        }
        AroundCall::Child => one_shown(alloc, node.child(alloc, SyntaxKind::LITERAL)),
        AroundCall::ChildToken => token_shown(alloc, node.child_token(alloc, SyntaxKind::COMMA)),
        _ => all_shown(alloc, node.descendants(alloc)?),
    }
}

fn of_token(alloc: Global, call: AroundCall, token: &SyntaxToken) -> Result<String, AllocError> {
    match call {
        AroundCall::NextToken => token_shown(alloc, token.next_token(alloc)),
        _ => token_shown(alloc, token.prev_token(alloc)),
    }
}

fn of_element(
    alloc: Global,
    call: AroundCall,
    element: &SyntaxElement,
) -> Result<String, AllocError> {
    match call {
        AroundCall::NextElement => one_shown(alloc, element.next_sibling_or_token(alloc)),
        AroundCall::PrevElement => one_shown(alloc, element.prev_sibling_or_token(alloc)),
        _ => match element {
            SyntaxElement::Node(node) => of_node(alloc, call, node),
            SyntaxElement::Token(token) => of_token(alloc, call, token),
        },
    }
}

impl AroundCall {
    /// Returns the up-path of the element that the call is made on.
    fn up_path(self) -> &'static [usize] {
        match self {
            AroundCall::NextSibling | AroundCall::NextElement => &[1],
            AroundCall::PrevSibling | AroundCall::PrevElement => &[4],
            AroundCall::NextToken | AroundCall::PrevToken => &[2],
            _ => &[],
        }
    }
}

impl Ask for AroundCall {
    fn answer(self, alloc: Global, _refused: &mut u32) -> anyhow::Result<String> {
        let mut ids = TreeIds::new();
        let root = root(alloc, &mut ids)?;
        let element = element(alloc, &root, self.up_path())?;
        Ok(of_element(alloc, self, &element)?)
    }
}

pub(crate) const ROWS: &[Row<AroundCall>] = &[
    ("syntax_tree::SyntaxNode::text", AroundCall::Text, "(1, 2)"),
    (
        "syntax_tree::SyntaxNode::first_token",
        AroundCall::FirstToken,
        "L_PAREN@0..1 ",
    ),
    (
        "syntax_tree::SyntaxNode::last_token",
        AroundCall::LastToken,
        "R_PAREN@5..6 ",
    ),
    (
        "syntax_tree::SyntaxNode::first_child",
        AroundCall::FirstChild,
        "LITERAL@1..2 ",
    ),
    (
        "syntax_tree::SyntaxNode::last_child",
        AroundCall::LastChild,
        "LITERAL@4..5 ",
    ),
    (
        "syntax_tree::SyntaxNode::next_sibling",
        AroundCall::NextSibling,
        "LITERAL@4..5 ",
    ),
    (
        "syntax_tree::SyntaxNode::prev_sibling",
        AroundCall::PrevSibling,
        "LITERAL@1..2 ",
    ),
    (
        "syntax_tree::SyntaxToken::next_token",
        AroundCall::NextToken,
        "WHITESPACE@3..4 ",
    ),
    (
        "syntax_tree::SyntaxToken::prev_token",
        AroundCall::PrevToken,
        "INT_NUMBER@1..2 ",
    ),
    (
        "syntax_tree::SyntaxElement::next_sibling_or_token",
        AroundCall::NextElement,
        "COMMA@2..3 ",
    ),
    (
        "syntax_tree::SyntaxElement::prev_sibling_or_token",
        AroundCall::PrevElement,
        "WHITESPACE@3..4 ",
    ),
    (
        "syntax_tree::SyntaxNode::descendants",
        AroundCall::Descendants,
        "ARG_LIST@0..6 LITERAL@1..2 LITERAL@4..5 ",
    ),
    (
        "syntax_tree::SyntaxNode::children_of",
        AroundCall::ChildrenOf,
        "LITERAL@1..2 LITERAL@4..5 ",
    ),
    (
        "syntax_tree::SyntaxNode::child",
        AroundCall::Child,
        "LITERAL@1..2 ",
    ),
    (
        "syntax_tree::SyntaxNode::child_token",
        AroundCall::ChildToken,
        "COMMA@2..3 ",
    ),
];
