//! Steps from nodes, tokens and elements to their neighbours.
use super::{Element, Node, SAMPLE, Token, comma, first_list, hash_of, show_all, show_item, tree};
use crate::Kind;
use rowan::{Direction, ElementExt};
use rowan_green::NodeOrToken;
use std::alloc::{AllocError, Global};
use std::test::Fail;

/// A question about the sample.
#[derive(Clone, Copy)]
enum Ask {
    ChildSteps,
    SiblingSteps,
    TokenSteps,
    ElementSteps,
    Children,
    ChildNodes,
    Siblings,
    SiblingsBack,
    SiblingsAndTokens,
    SiblingsOfToken,
    Ancestors,
    AncestorsOfToken,
    AncestorsOfElement,
    Tokens,
    EmptyNodes,
}

/// A question and the expected answer.
type Row = (Ask, &'static str);

fn child_steps(alloc: Global, out: &mut String, node: &Node) -> Result<(), Fail> {
    show_item(alloc, out, node.first_child(alloc))?;
    show_item(alloc, out, node.last_child(alloc))?;
    show_item(alloc, out, node.first_child_or_token(alloc))?;
    show_item(alloc, out, node.last_child_or_token(alloc))
}

fn sibling_steps(alloc: Global, out: &mut String, node: &Node) -> Result<(), Fail> {
    show_item(alloc, out, node.prev_sibling(alloc))?;
    show_item(alloc, out, node.next_sibling(alloc))?;
    show_item(alloc, out, node.prev_sibling_or_token(alloc))?;
    show_item(alloc, out, node.next_sibling_or_token(alloc))
}

fn token_steps(alloc: Global, out: &mut String, token: &Token) -> Result<(), Fail> {
    show_item(alloc, out, token.prev_sibling_or_token(alloc))?;
    show_item(alloc, out, token.next_sibling_or_token(alloc))?;
    show_item(alloc, out, token.parent())?;
    show_item(alloc, out, token.tree_top())
}

fn element_steps(alloc: Global, out: &mut String, element: &Element) -> Result<(), Fail> {
    show_item(alloc, out, element.prev_sibling_or_token(alloc))?;
    show_item(alloc, out, element.next_sibling_or_token(alloc))?;
    show_item(alloc, out, element.parent())?;
    show_item(alloc, out, element.tree_top())
}

/// Appends the neighbours of the second token of `node`, and its last token.
fn tokens(alloc: Global, out: &mut String, node: &Node) -> Result<(), Fail> {
    match node.first_token(alloc)? {
        Some(first) => tokens_from(alloc, out, &first)?,
        None => out.push_str("none ")?,
    }
    show_item(alloc, out, node.last_token(alloc))
}

fn tokens_from(alloc: Global, out: &mut String, first: &Token) -> Result<(), Fail> {
    match first.next_token(alloc)? {
        Some(second) => tokens_around(alloc, out, &second)?,
        None => out.push_str("none ")?,
    }
    show_item(alloc, out, first.prev_token(alloc))
}

fn tokens_around(alloc: Global, out: &mut String, token: &Token) -> Result<(), Fail> {
    show_item(alloc, out, token.next_token(alloc))?;
    show_item(alloc, out, token.prev_token(alloc))
}

fn answer_of_node(alloc: Global, out: &mut String, ask: Ask, node: &Node) -> Result<(), Fail> {
    match ask {
        Ask::SiblingSteps => sibling_steps(alloc, out, node),
        Ask::Siblings => show_all(alloc, out, node.siblings(alloc, Direction::Next)?),
        Ask::SiblingsBack => show_all(alloc, out, node.siblings(alloc, Direction::Prev)?),
        _ => show_all(
            alloc,
            out,
            node.siblings_with_tokens(alloc, Direction::Prev)?,
        ),
    }
}

fn answer_of_token(alloc: Global, out: &mut String, ask: Ask, token: &Token) -> Result<(), Fail> {
    match ask {
        Ask::TokenSteps => token_steps(alloc, out, token),
        Ask::SiblingsOfToken => {
            show_all(
                alloc,
                out,
                token.siblings_with_tokens(alloc, Direction::Next)?,
            )
        }
        _ => show_all(alloc, out, token.parent_ancestors()?),
    }
}

fn answer_of_element(
    alloc: Global,
    out: &mut String,
    ask: Ask,
    element: &Element,
) -> Result<(), Fail> {
    match ask {
        Ask::ElementSteps => element_steps(alloc, out, element),
        _ => show_all(alloc, out, element.ancestors()?),
    }
}

fn answer_of_root(alloc: Global, out: &mut String, ask: Ask, root: &Node) -> Result<(), Fail> {
    match ask {
        Ask::ChildSteps => child_steps(alloc, out, root),
        Ask::Children => show_all(alloc, out, root.children_with_tokens(alloc)?),
        Ask::ChildNodes => show_all(alloc, out, root.children(alloc)?),
        Ask::Ancestors => show_all(alloc, out, root.ancestors()?),
        _ => tokens(alloc, out, root),
    }
}

fn answer_of_list(alloc: Global, out: &mut String, ask: Ask) -> Result<(), Fail> {
    let list = first_list(alloc)?;
    answer_of_node(alloc, out, ask, &list)
}

fn answer_of_comma(alloc: Global, out: &mut String, ask: Ask) -> Result<(), Fail> {
    let comma = comma(alloc)?;
    answer_of_token(alloc, out, ask, &comma)
}

fn answer_of_comma_element(alloc: Global, out: &mut String, ask: Ask) -> Result<(), Fail> {
    let comma = Element::from(comma(alloc)?);
    answer_of_element(alloc, out, ask, &comma)
}

fn first_of_empty(alloc: Global, out: &mut String) -> Result<(), Fail> {
    let root = tree(alloc, "{ ( ) a }")?;
    show_item(alloc, out, root.first_token(alloc))
}

fn answer_of_sample(alloc: Global, out: &mut String, ask: Ask) -> Result<(), Fail> {
    let root = tree(alloc, SAMPLE)?;
    answer_of_root(alloc, out, ask, &root)
}

fn answer(alloc: Global, out: &mut String, ask: Ask) -> Result<(), Fail> {
    match ask {
        Ask::SiblingSteps | Ask::Siblings | Ask::SiblingsBack | Ask::SiblingsAndTokens => {
            answer_of_list(alloc, out, ask)
        }
        Ask::TokenSteps | Ask::SiblingsOfToken | Ask::AncestorsOfToken => {
            answer_of_comma(alloc, out, ask)
        }
        Ask::ElementSteps | Ask::AncestorsOfElement => answer_of_comma_element(alloc, out, ask),
        Ask::EmptyNodes => first_of_empty(alloc, out),
        _ => answer_of_sample(alloc, out, ask),
    }
}

fn is_met(alloc: Global, (ask, expected): &Row) -> Result<bool, Fail> {
    let mut out = String::new(alloc);
    answer(alloc, &mut out, *ask)?;
    Ok(out.as_str() == *expected)
}

const STEPS: &[Row] = &[
    (Ask::ChildSteps, "LIST@2..5 LIST@7..7 WORD@0..2 LIST@7..7 "),
    (Ask::SiblingSteps, "none LIST@6..7 WORD@0..2 COMMA@5..6 "),
    (Ask::TokenSteps, "none LIST@3..3 LIST@2..5 ROOT@0..7 "),
    (Ask::ElementSteps, "none LIST@3..3 LIST@2..5 ROOT@0..7 "),
    (
        Ask::Children,
        "WORD@0..2 LIST@2..5 COMMA@5..6 LIST@6..7 LIST@7..7 ",
    ),
    (Ask::ChildNodes, "LIST@2..5 LIST@6..7 LIST@7..7 "),
    (Ask::Siblings, "LIST@2..5 LIST@6..7 LIST@7..7 "),
    (Ask::SiblingsBack, "LIST@2..5 "),
    (Ask::SiblingsAndTokens, "LIST@2..5 WORD@0..2 "),
    (Ask::SiblingsOfToken, "COMMA@2..3 LIST@3..3 WORD@3..5 "),
    (Ask::Ancestors, "ROOT@0..7 "),
    (Ask::AncestorsOfToken, "LIST@2..5 ROOT@0..7 "),
    (Ask::AncestorsOfElement, "LIST@2..5 ROOT@0..7 "),
    (Ask::Tokens, "WORD@3..5 WORD@0..2 none WORD@6..7 "),
    (Ask::EmptyNodes, "WORD@0..1 "),
];

#[test]
fn steps(rt: HostRuntime) -> Result<(), Fail> {
    for row in STEPS {
        assert!(rt; is_met(rt.alloc(), row)?, "{}", row.1);
    }
    Ok(())
}

/// Returns the kind, the index and the start of `token` if its text and its green text are `text`.
fn reading(token: &Token, text: &str) -> Option<(Kind, usize, u32)> {
    let same = (token.text() == text) & (token.green().text() == text);
    same.then_some((token.kind(), token.index(), token.text_range().start().0))
}

fn number_of_comma(alloc: Global) -> Result<usize, Fail> {
    Ok(Element::from(comma(alloc)?).index())
}

fn reading_of_comma(alloc: Global) -> Result<Option<(Kind, usize, u32)>, Fail> {
    let comma = comma(alloc)?;
    Ok(reading(&comma, ","))
}

#[test]
fn readings(rt: HostRuntime) -> Result<(), Fail> {
    assert!(rt; reading_of_comma(rt.alloc())? == Some((Kind(4), 0, 2)));
    assert!(rt; number_of_comma(rt.alloc())? == 0);
    Ok(())
}

/// Returns `true` if two nodes are equal and hash alike, and differ from a copy of the subtree of
/// the first.
fn nodes_agree(alloc: Global, node: &Node, same: &Node) -> Result<bool, AllocError> {
    let subtree = node.clone_subtree(alloc)?;
    let alike = (node == same) & (hash_of(node) == hash_of(same));
    Ok(alike & (subtree != *node) & (subtree.index() == 0) & (node.index() == 1))
}

/// Returns `true` if two tokens are equal and hash alike, and the next token differs from them.
fn tokens_agree(alloc: Global, token: &Token, same: &Token) -> Result<bool, AllocError> {
    let alike = (token == same) & (hash_of(token) == hash_of(same));
    match token.next_token(alloc)? {
        Some(next) => Ok(alike & (next != *token)),
        None => Ok(false),
    }
}

fn lists_agree(alloc: Global) -> Result<bool, Fail> {
    let list = first_list(alloc)?;
    let same = first_list(alloc)?;
    Ok(nodes_agree(alloc, &list, &same)?)
}

fn commas_agree(alloc: Global) -> Result<bool, Fail> {
    let token = comma(alloc)?;
    let same = comma(alloc)?;
    Ok(tokens_agree(alloc, &token, &same)?)
}

#[test]
fn cursors_are_equal_by_place(rt: HostRuntime) -> Result<(), Fail> {
    assert!(rt; lists_agree(rt.alloc())?);
    assert!(rt; commas_agree(rt.alloc())?);
    Ok(())
}
