//! Cursors that are found by offset, range and kind, and texts of nodes.
use crate::cursors::{comma, green, list, root};
use anyhow::bail;
use memory_table::row::{Ask, Row};
use memory_table::shown::{Node, Shown, Token, one_shown};
use rowan::{AstNode, AstPtr, CursorError, SyntaxNodePtr, support};
use rowan_green::{GreenError, GreenToken, SyntaxKind, TextRange, TextSize};
use rowan_suite::{Kind, ListNode, Lists};
use std::alloc::{AllocError, Global};

/// The calls of `rowan` that find something, or read a text.
#[derive(Clone, Copy)]
pub(crate) enum FindCall {
    ChildAtRange,
    Covering,
    TokenAtOffset,
    Pointer,
    TryPointer,
    TypedPointer,
    TryTypedPointer,
    TypedChild,
    TypedClone,
    Token,
    ReplaceNode,
    ReplaceToken,
    Text,
    Slice,
    DebugTree,
}

fn range(start: u32, end: u32) -> TextRange {
    if end < start {
        return TextRange::empty(TextSize(start));
    }
    TextRange::new(TextSize(start), TextSize(end))
}

fn covering(alloc: Global, root: &Node) -> Result<String, AllocError> {
    let (whole, range) = (root.text_range(), range(2, 3));
    if (range.start().0 < whole.start().0) | (whole.end().0 < range.end().0) {
        return Ok(String::new(alloc));
    }
    one_shown(alloc, root.covering_element(alloc, range))
}

/// The tokens that touch the end of the first word.
fn touching(alloc: Global, root: &Node) -> Result<String, AllocError> {
    let mut out = String::new(alloc);
    let whole = root.text_range();
    if (2 < whole.start().0) | (whole.end().0 < 2) {
        return Ok(out);
    }
    for token in root.token_at_offset(alloc, TextSize(2))? {
        token.show(alloc, &mut out)?;
    }
    Ok(out)
}

fn pointed(alloc: Global, call: FindCall, list: &Node, root: &Node) -> Result<String, CursorError> {
    let pointer = SyntaxNodePtr::new(list);
    match call {
        FindCall::Pointer => Ok(one_shown(alloc, Ok(pointer.to_node(alloc, root)?))?),
        _ => Ok(one_shown(alloc, pointer.try_to_node(alloc, root))?),
    }
}

/// The node of a typed list.
fn typed_shown(alloc: Global, list: Option<ListNode>) -> Result<String, AllocError> {
    let mut out = String::new(alloc);
    match list {
        Some(list) => list.syntax().show(alloc, &mut out)?,
        None => out.push_str("none ")?,
    }
    Ok(out)
}

fn typed_pointed(
    alloc: Global,
    call: FindCall,
    list: &ListNode,
    root: &Node,
) -> Result<String, CursorError> {
    let found = match call {
        FindCall::TypedPointer => Some(AstPtr::new(list).to_node(alloc, root)?),
        FindCall::TryTypedPointer => AstPtr::new(list).try_to_node(alloc, root)?,
        _ => Some(list.clone_subtree(alloc)?),
    };
    Ok(typed_shown(alloc, found)?)
}

fn typed(alloc: Global, call: FindCall) -> anyhow::Result<String> {
    let Some(list) = ListNode::cast(list(alloc)?) else {
        bail!("no list");
    };
    Ok(typed_pointed(alloc, call, &list, &root(alloc)?)?)
}

/// The tree with the first list emptied, and the list as it was.
fn replaced_node(alloc: Global, node: &Node) -> Result<String, GreenError> {
    let empty = green(alloc, "( )")?;
    if node.green().kind().0 != empty.kind().0 {
        return Ok(String::new(alloc));
    }
    let changed = node.replace_with(alloc, empty)?;
    Ok(format!(in alloc; "{changed} {node}")?)
}

fn replaced_token(alloc: Global, token: &Token) -> Result<String, GreenError> {
    let dot = GreenToken::new(alloc, SyntaxKind(4), ".")?;
    if token.green().kind().0 != dot.kind().0 {
        return Ok(String::new(alloc));
    }
    let changed = token.replace_with(alloc, dot)?;
    Ok(format!(in alloc; "{changed} {token}")?)
}

/// The text of a node, or the whole of it as a slice.
fn text(alloc: Global, call: FindCall, node: &Node) -> Result<String, AllocError> {
    let text = node.text()?;
    match call {
        FindCall::Slice => {
            let whole = TextRange::new(TextSize(0), text.len());
            format!(in alloc; "{}", text.slice(whole)?)
        }
        _ => format!(in alloc; "{text}"),
    }
}

fn of_root(alloc: Global, call: FindCall, root: &Node) -> Result<String, AllocError> {
    match call {
        FindCall::ChildAtRange => {
            one_shown(alloc, root.child_or_token_at_range(alloc, range(3, 5)))
        }
        FindCall::Covering => covering(alloc, root),
        FindCall::TokenAtOffset => touching(alloc, root),
        FindCall::TypedChild => typed_shown(alloc, support::child::<ListNode>(alloc, root)?),
        FindCall::Token => one_shown(alloc, support::token(alloc, root, Kind(4))),
        _ => root.debug_tree(alloc),
    }
}

impl Ask for FindCall {
    fn answer(self, alloc: Global, _refused: &mut u32) -> anyhow::Result<String> {
        match self {
            FindCall::Pointer | FindCall::TryPointer => {
                Ok(pointed(alloc, self, &list(alloc)?, &root(alloc)?)?)
            }
            FindCall::TypedPointer | FindCall::TryTypedPointer | FindCall::TypedClone => {
                typed(alloc, self)
            }
            FindCall::ReplaceNode => Ok(replaced_node(alloc, &list(alloc)?)?),
            FindCall::ReplaceToken => Ok(replaced_token(alloc, &comma(alloc)?)?),
            FindCall::Text | FindCall::Slice => Ok(text(alloc, self, &list(alloc)?)?),
            _ => Ok(of_root(alloc, self, &root(alloc)?)?),
        }
    }
}

/// The whole sample, a line for each element.
const TREE: &str =
    "ROOT@0..7\n  WORD@0..2 \"ab\"\n  LIST@2..5\n    COMMA@2..3 \",\"\n    LIST@3..3\n    WORD@3..5 \"cd\"\n  COMMA@5..6 \";\"\n  LIST@6..7\n    WORD@6..7 \"e\"\n  LIST@7..7\n";

pub(crate) const ROWS: &[Row<FindCall>] = &[
    (
        "rowan::SyntaxNode::child_or_token_at_range",
        FindCall::ChildAtRange,
        "LIST@2..5 ",
    ),
    (
        "rowan::SyntaxNode::covering_element",
        FindCall::Covering,
        "COMMA@2..3 ",
    ),
    (
        "rowan::SyntaxNode::token_at_offset",
        FindCall::TokenAtOffset,
        "WORD@0..2 COMMA@2..3 ",
    ),
    (
        "rowan::SyntaxNodePtr::to_node",
        FindCall::Pointer,
        "LIST@2..5 ",
    ),
    (
        "rowan::SyntaxNodePtr::try_to_node",
        FindCall::TryPointer,
        "LIST@2..5 ",
    ),
    (
        "rowan::AstPtr::to_node",
        FindCall::TypedPointer,
        "LIST@2..5 ",
    ),
    (
        "rowan::AstPtr::try_to_node",
        FindCall::TryTypedPointer,
        "LIST@2..5 ",
    ),
    ("rowan::support::child", FindCall::TypedChild, "LIST@2..5 "),
    (
        "rowan::AstNode::clone_subtree",
        FindCall::TypedClone,
        "LIST@0..3 ",
    ),
    ("rowan::support::token", FindCall::Token, "COMMA@5..6 "),
    (
        "rowan::SyntaxNode::replace_with",
        FindCall::ReplaceNode,
        "ab;e ,cd",
    ),
    (
        "rowan::SyntaxToken::replace_with",
        FindCall::ReplaceToken,
        "ab.cd;e ,",
    ),
    ("rowan::SyntaxNode::text", FindCall::Text, ",cd"),
    ("rowan::SyntaxText::slice", FindCall::Slice, ",cd"),
    ("rowan::SyntaxNode::debug_tree", FindCall::DebugTree, TREE),
];
