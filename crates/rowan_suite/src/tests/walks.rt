//! Walks through a tree.
use super::{Element, Node, Shown, first_list, show_all};
use crate::Lists;
use rowan::{Preorder, PreorderWithTokens};
use std::alloc::{AllocError, Global};
use std::test::Fail;

/// A question about the first list of the sample.
#[derive(Clone, Copy)]
enum Ask {
    WithTokens,
    Nodes,
    Descendants,
    DescendantsWithTokens,
    SkippedSubtree,
    SkippedWalk,
}

/// A question and the expected answer.
type Row = (Ask, &'static str);

/// Returns the rest of a walk after the subtree of its second element.
fn after_second(
    mut walk: PreorderWithTokens<Lists>,
) -> Result<PreorderWithTokens<Lists>, AllocError> {
    drop(walk.next());
    drop(walk.next());
    walk.skip_subtree()?;
    Ok(walk)
}

fn skipped(mut walk: Preorder<Lists>) -> Result<Preorder<Lists>, AllocError> {
    walk.skip_subtree()?;
    Ok(walk)
}

fn answer(alloc: Global, out: &mut String, ask: Ask) -> Result<(), Fail> {
    let list = first_list(alloc)?;
    answer_of(alloc, out, ask, &list)
}

fn answer_of(alloc: Global, out: &mut String, ask: Ask, list: &Node) -> Result<(), Fail> {
    match ask {
        Ask::WithTokens => show_all(alloc, out, list.preorder_with_tokens(alloc)?),
        Ask::Nodes => show_all(alloc, out, list.preorder(alloc)?),
        Ask::Descendants => show_all(alloc, out, list.descendants(alloc)?),
        Ask::DescendantsWithTokens => show_all(alloc, out, list.descendants_with_tokens(alloc)?),
        Ask::SkippedSubtree => show_after_second(alloc, out, list),
        Ask::SkippedWalk => show_skipped(alloc, out, list),
    }
}

fn show_after_second(alloc: Global, out: &mut String, list: &Node) -> Result<(), Fail> {
    let walk = list.preorder_with_tokens(alloc)?;
    show_all(alloc, out, after_second(walk)?)
}

fn show_skipped(alloc: Global, out: &mut String, list: &Node) -> Result<(), Fail> {
    let walk = list.preorder(alloc)?;
    show_all(alloc, out, skipped(walk)?)
}

fn is_met(alloc: Global, (ask, expected): &Row) -> Result<bool, Fail> {
    let mut out = String::new(alloc);
    answer(alloc, &mut out, *ask)?;
    Ok(out.as_str() == *expected)
}

const WALKS: &[Row] = &[
    (
        Ask::WithTokens,
        "+LIST@2..5 +COMMA@2..3 -COMMA@2..3 +LIST@3..3 -LIST@3..3 +WORD@3..5 -WORD@3..5 -LIST@2..5 ",
    ),
    (Ask::Nodes, "+LIST@2..5 +LIST@3..3 -LIST@3..3 -LIST@2..5 "),
    (Ask::Descendants, "LIST@2..5 LIST@3..3 "),
    (
        Ask::DescendantsWithTokens,
        "LIST@2..5 COMMA@2..3 LIST@3..3 WORD@3..5 ",
    ),
    (
        Ask::SkippedSubtree,
        "-COMMA@2..3 +LIST@3..3 -LIST@3..3 +WORD@3..5 -WORD@3..5 -LIST@2..5 ",
    ),
    (Ask::SkippedWalk, ""),
];

#[test]
fn walks(rt: HostRuntime) -> Result<(), Fail> {
    for row in WALKS {
        assert!(rt; is_met(rt.alloc(), row)?, "{}", row.1);
    }
    Ok(())
}
