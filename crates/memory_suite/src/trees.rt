//! Numbered trees and their handles.
ghost use Rattle.std.specs.Prelude.{◌≡◌, [], IfOk};

use anyhow::bail;
use memory_table::row::{Ask, Row};
use memory_table::shown::{all_shown, list_shown, one_shown};
use parser_input::SyntaxKind;
use rowan_green::{GreenNode, GreenNodeBuilder, GreenToken, TextRange, TextSize};
use std::alloc::{AllocError, Global};
use syntax_tree::{
    Element, Position, PositionError, SyntaxElement, SyntaxNode, SyntaxToken, TreeIds, elements,
};

pub(crate) fn raw(kind: SyntaxKind) -> rowan_green::SyntaxKind {
    rowan_green::SyntaxKind(kind.to_raw())
}

/// A node of one token.
fn put_literal(builder: &mut GreenNodeBuilder<'_>, text: &str) -> anyhow::Result<()> {
    builder.start_node(raw(SyntaxKind::LITERAL))?;
    builder.token(raw(SyntaxKind::INT_NUMBER), text)?;
    Ok(builder.finish_node()?)
}

/// `(1, 2)`: an argument list, whose children 1 and 4 are literals.
pub(crate) fn green(alloc: Global) -> anyhow::Result<GreenNode> {
    let mut builder = GreenNodeBuilder::new(alloc);
    builder.start_node(raw(SyntaxKind::ARG_LIST))?;
    builder.token(raw(SyntaxKind::L_PAREN), "(")?;
    put_literal(&mut builder, "1")?;
    builder.token(raw(SyntaxKind::COMMA), ",")?;
    builder.token(raw(SyntaxKind::WHITESPACE), " ")?;
    put_literal(&mut builder, "2")?;
    builder.token(raw(SyntaxKind::R_PAREN), ")")?;
    builder.finish_node()?;
    match builder.finish() {
        Ok(node) => Ok(node),
        Err(unfinished) => Err(unfinished.error.into()),
    }
}

/// Its root, under the next number.
pub(crate) fn root(alloc: Global, ids: &mut TreeIds) -> anyhow::Result<SyntaxNode>
    ensures { IfOk result (λ r. r.place.up ≡ []) }
{
    Ok(SyntaxNode::new_root(alloc, green(alloc)?, ids)?)
}

/// A token as the only child of its root.
pub(crate) fn word(alloc: Global, ids: &mut TreeIds) -> anyhow::Result<SyntaxToken> {
    let green = GreenToken::new(alloc, raw(SyntaxKind::IDENT), "x")?;
    Ok(SyntaxToken::detached(alloc, green, ids)?)
}

/// The element at an up-path: the innermost index first.
pub(crate) fn element(
    alloc: Global,
    root: &SyntaxNode,
    up_path: &[usize],
) -> anyhow::Result<SyntaxElement> {
    match root.element_at(alloc, up_path)? {
        Some(element) => Ok(element),
        None => bail!("no such element"),
    }
}

/// The node at an up-path.
pub(crate) fn node(
    alloc: Global,
    root: &SyntaxNode,
    up_path: &[usize],
) -> anyhow::Result<SyntaxNode> {
    match root.element_at(alloc, up_path)? {
        Some(SyntaxElement::Node(node)) => Ok(node),
        _ => bail!("no such node"),
    }
}

/// The token at an up-path.
fn token(alloc: Global, root: &SyntaxNode, up_path: &[usize]) -> anyhow::Result<SyntaxToken> {
    match root.element_at(alloc, up_path)? {
        Some(SyntaxElement::Token(token)) => Ok(token),
        _ => bail!("no such token"),
    }
}

/// The calls of `syntax_tree` on nodes, tokens and elements.
#[derive(Clone, Copy)]
pub(crate) enum TreeCall {
    NewRoot,
    CloneSubtree,
    Detached,
    GreenToken,
    NodeWay,
    NodePath,
    NodeAt,
    NodeParent,
    NodeClone,
    Find,
    ElementAt,
    Ancestors,
    NthChild,
    Children,
    ChildrenWithTokens,
    Descendants,
    NodeElement,
    NodeRefElement,
    TokenWay,
    TokenPath,
    TokenAt,
    TokenParent,
    TokenClone,
    TokenElement,
    TokenRefElement,
    ElementWay,
    ElementPath,
    ElementIsAt,
    ElementParent,
    ElementGreen,
    ElementClone,
    ElementAncestors,
    ElementElement,
    ElementRefElement,
    After,
    Before,
    FirstChildOf,
    LastChildOf,
}

fn numbers(alloc: Global, numbers: &[usize]) -> Result<String, AllocError> {
    let mut out = String::new(alloc);
    for number in numbers {
        out.push_str(format!(in alloc; "{number} ")?.as_str())?;
    }
    Ok(out)
}

/// The number of a tree, and an element of it.
fn numbered(alloc: Global, element: SyntaxElement) -> Result<String, AllocError> {
    let element = list_shown(alloc, &[element])?;
    Ok(element)
}

fn is_at(alloc: Global, is_at: bool) -> Result<String, AllocError> {
    format!(in alloc; "{is_at}")
}

fn of_node(alloc: Global, call: TreeCall, node: &SyntaxNode) -> Result<String, AllocError> {
    match call {
        TreeCall::NodeWay => numbers(alloc, &node.way(alloc)?),
        TreeCall::NodePath => numbers(alloc, &node.path(alloc)?),
        TreeCall::NodeAt => is_at(alloc, node.stands_at(&[4])?),
        TreeCall::NodeParent => one_shown(alloc, node.parent()),
        TreeCall::NodeClone => one_shown(alloc, node.clone()),
        TreeCall::Ancestors => all_shown(alloc, node.ancestors()?),
        TreeCall::NodeRefElement => one_shown(alloc, node.syntax_element()),
        _ => one_shown(alloc, node.clone()?.syntax_element()),
    }
}

fn of_root(alloc: Global, call: TreeCall, root: &SyntaxNode) -> Result<String, AllocError> {
    match call {
        TreeCall::Find => {
            let range = TextRange::at(TextSize(4), TextSize(1));
            one_shown(alloc, root.find(alloc, SyntaxKind::INT_NUMBER, range))
        }
        TreeCall::ElementAt => one_shown(alloc, root.element_at(alloc, &[0, 4])),
        TreeCall::NthChild => one_shown(alloc, root.nth_child_or_token(alloc, 2)),
        TreeCall::Children => all_shown(alloc, root.children(alloc)?),
        TreeCall::ChildrenWithTokens => all_shown(alloc, root.children_with_tokens(alloc)?),
        _ => all_shown(alloc, root.descendants_with_tokens(alloc)?),
    }
}

fn of_token(alloc: Global, call: TreeCall, token: &SyntaxToken) -> Result<String, AllocError> {
    match call {
        TreeCall::TokenWay => numbers(alloc, &token.way(alloc)?),
        TreeCall::TokenPath => numbers(alloc, &token.path(alloc)?),
        TreeCall::TokenAt => is_at(alloc, token.stands_at(&[0, 4])?),
        TreeCall::TokenParent => one_shown(alloc, token.parent()),
        TreeCall::TokenClone => one_shown(alloc, Ok(SyntaxElement::Token(token.clone()?))),
        TreeCall::TokenRefElement => one_shown(alloc, token.syntax_element()),
        _ => one_shown(alloc, token.clone()?.syntax_element()),
    }
}

fn gap(alloc: Global, gap: Position) -> Result<String, AllocError> {
    format!(in alloc; "{}", gap.index)
}

/// Returns the index of a gap at an end of the children of a node.
fn inside(alloc: Global, call: TreeCall, node: &SyntaxNode) -> Result<String, AllocError> {
    match call {
        TreeCall::FirstChildOf => gap(alloc, Position::first_child_of(node)?),
        _ => gap(alloc, Position::last_child_of(node)?),
    }
}

fn beside(alloc: Global, call: TreeCall, element: &SyntaxElement) -> Result<String, PositionError> {
    match call {
        TreeCall::After => Ok(gap(alloc, Position::after(element)?)?),
        _ => Ok(gap(alloc, Position::before(element)?)?),
    }
}

fn of_element(
    alloc: Global,
    call: TreeCall,
    element: &SyntaxElement,
) -> Result<String, AllocError> {
    match call {
        TreeCall::ElementWay => numbers(alloc, &element.way(alloc)?),
        TreeCall::ElementPath => numbers(alloc, &element.path(alloc)?),
        TreeCall::ElementIsAt => is_at(alloc, element.stands_at(1, &[4])?),
        TreeCall::ElementParent => one_shown(alloc, element.parent()),
        TreeCall::ElementGreen => format!(in alloc; "{}", element.green()?),
        TreeCall::ElementClone => one_shown(alloc, element.clone()),
        TreeCall::ElementAncestors => all_shown(alloc, element.ancestors()?),
        TreeCall::ElementRefElement => one_shown(alloc, element.syntax_element()),
        _ => one_shown(alloc, element.clone()?.syntax_element()),
    }
}

/// An element of a tree of a new number.
fn made(
    alloc: Global,
    call: TreeCall,
    root: &SyntaxNode,
    ids: &mut TreeIds,
) -> anyhow::Result<SyntaxElement> {
    match call {
        TreeCall::NewRoot => {
            let root = SyntaxNode::new_root(alloc, green(alloc)?, ids)?;
            Ok(SyntaxElement::Node(root))
        }
        TreeCall::CloneSubtree => {
            let literal = node(alloc, root, &[4])?;
            Ok(SyntaxElement::Node(literal.clone_subtree(alloc, ids)?))
        }
        _ => Ok(SyntaxElement::Token(word(alloc, ids)?)),
    }
}

/// The number of a new tree, and its element. It is made a second time if it runs out of memory: no
/// number is used up then.
fn read_made(alloc: Global, call: TreeCall, refused: &mut u32) -> anyhow::Result<String> {
    let mut ids = TreeIds::new();
    let root = root(alloc, &mut ids)?;
    let element = match made(alloc, call, &root, &mut ids) {
        Ok(element) => element,
        Err(_) => {
            *refused = refused.saturating_add(1);
            made(alloc, call, &root, &mut ids)?
        }
    };
    let number = element.tree();
    Ok(format!(in alloc; "{number} {}", numbered(alloc, element)?)?)
}

impl Ask for TreeCall {
    fn answer(self, alloc: Global, refused: &mut u32) -> anyhow::Result<String> {
        let mut ids = TreeIds::new();
        match self {
            TreeCall::NewRoot | TreeCall::CloneSubtree | TreeCall::Detached => {
                read_made(alloc, self, refused)
            }
            TreeCall::GreenToken => {
                let token = elements::token(alloc, SyntaxKind::IDENT, "x")?;
                Ok(format!(in alloc; "{token}")?)
            }
            TreeCall::Find
            | TreeCall::ElementAt
            | TreeCall::NthChild
            | TreeCall::Children
            | TreeCall::ChildrenWithTokens
            | TreeCall::Descendants => Ok(of_root(alloc, self, &root(alloc, &mut ids)?)?),
            TreeCall::TokenWay
            | TreeCall::TokenPath
            | TreeCall::TokenAt
            | TreeCall::TokenParent
            | TreeCall::TokenClone
            | TreeCall::TokenElement
            | TreeCall::TokenRefElement => {
                let root = root(alloc, &mut ids)?;
                Ok(of_token(alloc, self, &token(alloc, &root, &[0, 4])?)?)
            }
            _ => below(alloc, self, &root(alloc, &mut ids)?),
        }
    }
}

/// What is asked of the second literal.
fn below(alloc: Global, call: TreeCall, root: &SyntaxNode) -> anyhow::Result<String> {
    match call {
        TreeCall::After | TreeCall::Before => {
            Ok(beside(alloc, call, &element(alloc, root, &[4])?)?)
        }
        TreeCall::ElementWay
        | TreeCall::ElementPath
        | TreeCall::ElementIsAt
        | TreeCall::ElementParent
        | TreeCall::ElementGreen
        | TreeCall::ElementClone
        | TreeCall::ElementAncestors
        | TreeCall::ElementElement
        | TreeCall::ElementRefElement => {
            Ok(of_element(alloc, call, &element(alloc, root, &[4])?)?)
        }
        TreeCall::FirstChildOf | TreeCall::LastChildOf => {
            Ok(inside(alloc, call, &node(alloc, root, &[4])?)?)
        }
        _ => Ok(of_node(alloc, call, &node(alloc, root, &[4])?)?),
    }
}

/// The children of the argument list.
const CHILDREN: &str =
    "L_PAREN@0..1 LITERAL@1..2 COMMA@2..3 WHITESPACE@3..4 LITERAL@4..5 R_PAREN@5..6 ";

/// All its elements.
const ELEMENTS: &str =
    "ARG_LIST@0..6 L_PAREN@0..1 LITERAL@1..2 INT_NUMBER@1..2 COMMA@2..3 WHITESPACE@3..4 LITERAL@4..5 INT_NUMBER@4..5 R_PAREN@5..6 ";

pub(crate) const ROWS: &[Row<TreeCall>] = &[
    (
        "syntax_tree::SyntaxNode::new_root",
        TreeCall::NewRoot,
        "2 ARG_LIST@0..6 ",
    ),
    (
        "syntax_tree::SyntaxNode::clone_subtree",
        TreeCall::CloneSubtree,
        "2 LITERAL@0..1 ",
    ),
    (
        "syntax_tree::SyntaxToken::detached",
        TreeCall::Detached,
        "2 IDENT@0..1 ",
    ),
    ("syntax_tree::elements::token", TreeCall::GreenToken, "x"),
    ("syntax_tree::SyntaxNode::way", TreeCall::NodeWay, "4 "),
    ("syntax_tree::SyntaxNode::path", TreeCall::NodePath, "4 "),
    (
        "syntax_tree::SyntaxNode::stands_at",
        TreeCall::NodeAt,
        "true",
    ),
    (
        "syntax_tree::SyntaxNode::parent",
        TreeCall::NodeParent,
        "ARG_LIST@0..6 ",
    ),
    (
        "syntax_tree::SyntaxNode::clone",
        TreeCall::NodeClone,
        "LITERAL@4..5 ",
    ),
    (
        "syntax_tree::SyntaxNode::find",
        TreeCall::Find,
        "INT_NUMBER@4..5 ",
    ),
    (
        "syntax_tree::SyntaxNode::element_at",
        TreeCall::ElementAt,
        "INT_NUMBER@4..5 ",
    ),
    (
        "syntax_tree::SyntaxNode::ancestors",
        TreeCall::Ancestors,
        "LITERAL@4..5 ARG_LIST@0..6 ",
    ),
    (
        "syntax_tree::SyntaxNode::nth_child_or_token",
        TreeCall::NthChild,
        "COMMA@2..3 ",
    ),
    (
        "syntax_tree::SyntaxNode::children",
        TreeCall::Children,
        "LITERAL@1..2 LITERAL@4..5 ",
    ),
    (
        "syntax_tree::SyntaxNode::children_with_tokens",
        TreeCall::ChildrenWithTokens,
        CHILDREN,
    ),
    (
        "syntax_tree::SyntaxNode::descendants_with_tokens",
        TreeCall::Descendants,
        ELEMENTS,
    ),
    (
        "syntax_tree::SyntaxNode::syntax_element",
        TreeCall::NodeElement,
        "LITERAL@4..5 ",
    ),
    (
        "syntax_tree::&SyntaxNode::syntax_element",
        TreeCall::NodeRefElement,
        "LITERAL@4..5 ",
    ),
    ("syntax_tree::SyntaxToken::way", TreeCall::TokenWay, "0 4 "),
    (
        "syntax_tree::SyntaxToken::path",
        TreeCall::TokenPath,
        "4 0 ",
    ),
    (
        "syntax_tree::SyntaxToken::stands_at",
        TreeCall::TokenAt,
        "true",
    ),
    (
        "syntax_tree::SyntaxToken::parent",
        TreeCall::TokenParent,
        "LITERAL@4..5 ",
    ),
    (
        "syntax_tree::SyntaxToken::clone",
        TreeCall::TokenClone,
        "INT_NUMBER@4..5 ",
    ),
    (
        "syntax_tree::SyntaxToken::syntax_element",
        TreeCall::TokenElement,
        "INT_NUMBER@4..5 ",
    ),
    (
        "syntax_tree::&SyntaxToken::syntax_element",
        TreeCall::TokenRefElement,
        "INT_NUMBER@4..5 ",
    ),
    (
        "syntax_tree::SyntaxElement::way",
        TreeCall::ElementWay,
        "4 ",
    ),
    (
        "syntax_tree::SyntaxElement::path",
        TreeCall::ElementPath,
        "4 ",
    ),
    (
        "syntax_tree::SyntaxElement::stands_at",
        TreeCall::ElementIsAt,
        "true",
    ),
    (
        "syntax_tree::SyntaxElement::parent",
        TreeCall::ElementParent,
        "ARG_LIST@0..6 ",
    ),
    (
        "syntax_tree::SyntaxElement::green",
        TreeCall::ElementGreen,
        "2",
    ),
    (
        "syntax_tree::SyntaxElement::clone",
        TreeCall::ElementClone,
        "LITERAL@4..5 ",
    ),
    (
        "syntax_tree::SyntaxElement::ancestors",
        TreeCall::ElementAncestors,
        "LITERAL@4..5 ARG_LIST@0..6 ",
    ),
    (
        "syntax_tree::SyntaxElement::syntax_element",
        TreeCall::ElementElement,
        "LITERAL@4..5 ",
    ),
    (
        "syntax_tree::&SyntaxElement::syntax_element",
        TreeCall::ElementRefElement,
        "LITERAL@4..5 ",
    ),
    ("syntax_tree::Position::after", TreeCall::After, "5"),
    ("syntax_tree::Position::before", TreeCall::Before, "4"),
    (
        "syntax_tree::Position::first_child_of",
        TreeCall::FirstChildOf,
        "0",
    ),
    (
        "syntax_tree::Position::last_child_of",
        TreeCall::LastChildOf,
        "1",
    ),
];
