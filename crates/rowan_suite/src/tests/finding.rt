//! Nodes and tokens that are found by offset, range and kind, and trees with one of them replaced.
use super::{Node, SAMPLE, Shown, Token, comma, first_list, green, hash_of, show_item, tree};
use crate::{Kind, ListNode, Lists};
use rowan::{AstNode, AstPtr, CursorError, SyntaxNodePtr, TokenAtOffset, WalkEvent, support};
use rowan_green::{GreenToken, SyntaxKind, TextRange, TextSize};
use std::alloc::{AllocError, Global};
use std::test::Fail;

#[test]
fn what_is_found_is_mapped(rt: HostRuntime) {
    let both = TokenAtOffset::Between(6u8, 8u8);
    let left = both.map(|n| n / 2).left_biased();
    let both = TokenAtOffset::Between(6u8, 8u8);
    let right = both.map(|n| n / 2).right_biased();
    let leave = WalkEvent::Leave(6u8).map(|n| n / 2);
    assert!(rt; (leave == WalkEvent::Leave(3)) & (left == Some(3)) & (right == Some(4)));
}

/// A question about a tree.
#[derive(Clone, Copy)]
enum Ask {
    TokensAt(u32),
    ChildAt(u32, u32),
    Nth(usize),
    Covering(u32, u32),
    FirstList,
    NotFromRoot,
    LastList,
    TypedPointer,
    TypedChild,
    TypedChildren,
    TypedNotFound,
    ReplacedNode,
    ReplacedToken,
    WordBeforeAll,
    NotFound,
}

/// A question and the expected answer.
type Row = (Ask, &'static str);

/// Appends the tokens that touch `offset`.
fn tokens_at(alloc: Global, out: &mut String, root: &Node, offset: u32) -> Result<(), Fail> {
    let range = root.text_range();
    if (offset < range.start().0) | (range.end().0 < offset) {
        return Ok(out.push_str("outside ")?);
    }
    for token in root.token_at_offset(alloc, TextSize(offset))? {
        token.show(alloc, out)?;
    }
    Ok(())
}

fn covering(alloc: Global, out: &mut String, root: &Node, range: TextRange) -> Result<(), Fail> {
    let whole = root.text_range();
    if (range.start().0 < whole.start().0) | (whole.end().0 < range.end().0) {
        return Ok(out.push_str("outside ")?);
    }
    show_item(alloc, out, root.covering_element(alloc, range))
}

/// Returns the range from `start` to `end`, or the empty range at `start` if `end` is less.
fn range(start: u32, end: u32) -> TextRange {
    if end < start {
        return TextRange::empty(TextSize(start));
    }
    TextRange::new(TextSize(start), TextSize(end))
}

fn of_words(alloc: Global, out: &mut String, ask: Ask, root: &Node) -> Result<(), Fail> {
    match ask {
        Ask::TokensAt(offset) => tokens_at(alloc, out, root, offset),
        Ask::Covering(start, end) => covering(alloc, out, root, range(start, end)),
        Ask::ChildAt(start, end) => show_item(
            alloc,
            out,
            root.child_or_token_at_range(alloc, range(start, end)),
        ),
        Ask::Nth(number) => show_item(alloc, out, root.nth_child_or_token(alloc, number)),
        _ => Ok(()),
    }
}

fn found(alloc: Global, out: &mut String, node: &Node, root: &Node) -> Result<(), Fail> {
    let pointer = SyntaxNodePtr::new(node);
    show_item(alloc, out, pointer.try_to_node(alloc, root))
}

fn last_found(alloc: Global, out: &mut String, root: &Node) -> Result<(), Fail> {
    match root.last_child(alloc)? {
        Some(last) => found(alloc, out, &last, root),
        None => Ok(out.push_str("none ")?),
    }
}

fn typed_found(alloc: Global, out: &mut String, node: Node, root: &Node) -> Result<(), Fail> {
    match ListNode::cast(node) {
        Some(list) => show_list(alloc, out, AstPtr::new(&list).try_to_node(alloc, root)?),
        None => Ok(out.push_str("no list ")?),
    }
}

fn show_list(alloc: Global, out: &mut String, list: Option<ListNode>) -> Result<(), Fail> {
    match list {
        Some(list) => {
            list.syntax().show(alloc, out)?;
            list.clone_subtree(alloc)?.syntax().show(alloc, out)
        }
        None => Ok(out.push_str("none ")?),
    }
}

/// Appends the text of the tree after `node`, a list, is replaced with an empty one, and the text
/// of `node`, which is unchanged.
fn replaced_node(alloc: Global, out: &mut String, node: &Node) -> Result<(), Fail> {
    let empty = green(alloc, "( )")?;
    if node.green().kind().0 != empty.kind().0 {
        return Ok(());
    }
    let changed = node.replace_with(alloc, empty)?;
    let texts = format!(in alloc; "{changed}{node}")?;
    Ok(out.push_str(texts.as_str())?)
}

fn replaced_token(alloc: Global, out: &mut String, token: &Token) -> Result<(), Fail> {
    let dot = GreenToken::new(alloc, SyntaxKind(4), ".")?;
    if token.green().kind().0 != dot.kind().0 {
        return Ok(());
    }
    let changed = token.replace_with(alloc, dot)?;
    let texts = format!(in alloc; "{changed}{token}")?;
    Ok(out.push_str(texts.as_str())?)
}

fn not_found(alloc: Global, out: &mut String, root: &Node) -> Result<(), Fail> {
    let pointer = SyntaxNodePtr::<Lists> {
        kind: Kind(3),
        range: TextRange::new(TextSize(2), TextSize(5)),
    };
    match pointer.to_node(alloc, root) {
        Ok(node) => node.show(alloc, out),
        Err(e) => show_not_found(alloc, out, e),
    }
}

/// Appends the node that a pointer to `list` finds in the tree of `root`, or the error.
fn typed_found_in(
    alloc: Global,
    out: &mut String,
    list: &ListNode,
    root: &Node,
) -> Result<(), Fail> {
    match AstPtr::new(list).to_node(alloc, root) {
        Ok(found) => found.syntax().show(alloc, out),
        Err(e) => show_not_found(alloc, out, e),
    }
}

fn show_not_found(alloc: Global, out: &mut String, error: CursorError) -> Result<(), Fail> {
    let word = format!(in alloc; "{error}")?;
    Ok(out.push_str(word.as_str())?)
}

/// Looks up a pointer to `list` in another tree.
fn typed_not_found(alloc: Global, out: &mut String, list: Node) -> Result<(), Fail> {
    let Some(list) = ListNode::cast(list) else {
        return Ok(out.push_str("no list ")?);
    };
    let other = tree(alloc, "{ ab cd }")?;
    typed_found_in(alloc, out, &list, &other)
}

fn typed_children(alloc: Global, out: &mut String, root: &Node) -> Result<(), Fail> {
    for list in support::children::<ListNode>(alloc, root)? {
        list?.syntax().show(alloc, out)?;
    }
    Ok(())
}

fn first_found(alloc: Global, out: &mut String, root: &Node) -> Result<(), Fail> {
    let list = first_list(alloc)?;
    found(alloc, out, &list, root)
}

fn first_typed_found(alloc: Global, out: &mut String, root: &Node) -> Result<(), Fail> {
    typed_found(alloc, out, first_list(alloc)?, root)
}

fn typed_child(alloc: Global, out: &mut String, root: &Node) -> Result<(), Fail> {
    show_list(alloc, out, support::child::<ListNode>(alloc, root)?)
}

fn first_not_found(alloc: Global, out: &mut String) -> Result<(), Fail> {
    typed_not_found(alloc, out, first_list(alloc)?)
}

fn of_sample(alloc: Global, out: &mut String, ask: Ask, root: &Node) -> Result<(), Fail> {
    match ask {
        Ask::FirstList => first_found(alloc, out, root),
        Ask::LastList => last_found(alloc, out, root),
        Ask::TypedPointer => first_typed_found(alloc, out, root),
        Ask::TypedChild => typed_child(alloc, out, root),
        Ask::TypedChildren => typed_children(alloc, out, root),
        Ask::TypedNotFound => first_not_found(alloc, out),
        Ask::WordBeforeAll => show_item(alloc, out, support::token(alloc, root, Kind(3))),
        Ask::NotFound => not_found(alloc, out, root),
        _ => Ok(()),
    }
}

fn of_list(alloc: Global, out: &mut String, ask: Ask, list: &Node) -> Result<(), Fail> {
    match ask {
        Ask::NotFromRoot => found(alloc, out, list, list),
        _ => replaced_node(alloc, out, list),
    }
}

fn answer_of_tree(alloc: Global, out: &mut String, ask: Ask, words: &str) -> Result<(), Fail> {
    let root = tree(alloc, words)?;
    match ask {
        Ask::TokensAt(_) | Ask::ChildAt(_, _) | Ask::Nth(_) | Ask::Covering(_, _) => {
            of_words(alloc, out, ask, &root)
        }
        _ => of_sample(alloc, out, ask, &root),
    }
}

fn answer_of_list(alloc: Global, out: &mut String, ask: Ask) -> Result<(), Fail> {
    let list = first_list(alloc)?;
    of_list(alloc, out, ask, &list)
}

fn answer_of_comma(alloc: Global, out: &mut String) -> Result<(), Fail> {
    let comma = comma(alloc)?;
    replaced_token(alloc, out, &comma)
}

fn answer(alloc: Global, out: &mut String, ask: Ask) -> Result<(), Fail> {
    match ask {
        Ask::TokensAt(_) | Ask::ChildAt(_, _) | Ask::Nth(_) | Ask::Covering(_, _) => {
            answer_of_tree(alloc, out, ask, "{ ab cd }")
        }
        Ask::NotFromRoot | Ask::ReplacedNode => answer_of_list(alloc, out, ask),
        Ask::ReplacedToken => answer_of_comma(alloc, out),
        _ => answer_of_tree(alloc, out, ask, SAMPLE),
    }
}

fn is_met(alloc: Global, (ask, expected): &Row) -> Result<bool, Fail> {
    let mut out = String::new(alloc);
    answer(alloc, &mut out, *ask)?;
    Ok(out.as_str() == *expected)
}

const FINDING: &[Row] = &[
    (Ask::TokensAt(2), "WORD@0..2 WORD@2..4 "),
    (Ask::TokensAt(3), "WORD@2..4 "),
    (Ask::ChildAt(2, 2), "WORD@0..2 "),
    (Ask::ChildAt(1, 3), "none "),
    (Ask::Nth(1), "WORD@2..4 "),
    (Ask::Nth(2), "none "),
    (Ask::Covering(2, 2), "WORD@0..2 "),
    (Ask::Covering(1, 3), "ROOT@0..4 "),
    (Ask::FirstList, "LIST@2..5 "),
    (Ask::NotFromRoot, "none "),
    (Ask::LastList, "LIST@7..7 "),
    (Ask::TypedPointer, "LIST@2..5 LIST@0..3 "),
    (Ask::TypedChild, "LIST@2..5 LIST@0..3 "),
    (Ask::TypedChildren, "LIST@2..5 LIST@6..7 LIST@7..7 "),
    (Ask::TypedNotFound, "not found"),
    (Ask::ReplacedNode, "ab;e,cd"),
    (Ask::ReplacedToken, "ab.cd;e,"),
    (Ask::WordBeforeAll, "WORD@0..2 "),
    (Ask::NotFound, "not found"),
];

#[test]
fn finding(rt: HostRuntime) -> Result<(), Fail> {
    for row in FINDING {
        assert!(rt; is_met(rt.alloc(), row)?, "{}", row.1);
    }
    Ok(())
}

/// Returns `true` if a pointer to the first list has its kind and range, and equals the untyped
/// pointer after a cast.
fn pointers_agree(list: &ListNode) -> bool {
    let pointer = AstPtr::new(list);
    let reads = (pointer.kind() == Kind(2)) & (pointer.text_range().start().0 == 2);
    let alike = hash_of(&pointer) == hash_of(&AstPtr::new(list));
    let plain = pointer.syntax_node_ptr().cast::<ListNode>();
    reads & alike & (plain == Some(pointer))
}

/// Returns `true` if `list` and pointers to it cast to a list, and `root` does not.
fn casts_by_kind(list: Node, root: Node) -> bool {
    let can = ListNode::can_cast(Kind(2)) & !ListNode::can_cast(Kind(1));
    let none = ListNode::cast(root).is_none();
    match ListNode::cast(list) {
        Some(list) => {
            let again = AstPtr::new(&list).cast::<ListNode>().is_some();
            can & none & again & pointers_agree(&list)
        }
        None => false,
    }
}

fn list_casts_by_kind(alloc: Global) -> Result<bool, Fail> {
    let list = first_list(alloc)?;
    Ok(casts_by_kind(list, tree(alloc, SAMPLE)?))
}

#[test]
fn kinds_are_told_apart(rt: HostRuntime) -> Result<(), Fail> {
    assert!(rt; list_casts_by_kind(rt.alloc())?);
    Ok(())
}
