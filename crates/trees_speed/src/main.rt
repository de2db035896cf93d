//! Builds a tree of a million tokens, counts its tokens, walks through it with cursors and drops
//! it, once with few names that recur and once with a new name in each statement. With the argument
//! `lists` it then edits and searches a node of a million children, and walks over the children of
//! roots. With `tenth` all trees have a tenth of that. The counts go to standard output, the times
//! to standard error.
#![tactic(auto)]

use rowan::{SyntaxNode, WalkEvent};
use rowan_green::{GreenNode, GreenNodeRef, NodeOrToken};
use statements::{Statements, tree};
use std::alloc::{AllocError, Global};
use std::time::Instant;
use std::{env, io};

mod lists;
mod statements;

/// The number of blocks of a tree, of 100 tokens each.
const BLOCKS: u32 = 10_000;

/// The number of children of the node that is edited, and of searches in it.
const CHILDREN: u32 = 1_000_000;

/// The number of rounds of edits.
const ROUNDS: usize = 1000;

/// What to measure.
#[derive(Clone, Copy)]
struct Plan {
    blocks: u32,
    children: u32,
    wants_lists: bool,
}

/// Returns the number of tokens below `node`.
fn tokens_below(node: &GreenNodeRef<'_>) -> u64 {
    let mut tokens: u64 = 0;
    for child in node.children() {
        let more = match child {
            NodeOrToken::Node(inner) => tokens_below(&inner),
            NodeOrToken::Token(_) => 1,
        };
        tokens = tokens.wrapping_add(more);
    }
    tokens
}

/// Returns the number of events of a walk through the tree, and the bytes of the tokens it enters.
fn walked(alloc: Global, root: &SyntaxNode<Statements>) -> Result<(u64, u64), AllocError> {
    let mut events: u64 = 0;
    let mut bytes: u64 = 0;
    for event in root.preorder_with_tokens(alloc)? {
        if let WalkEvent::Enter(NodeOrToken::Token(token)) = event? {
            bytes = bytes.wrapping_add(token.text().len() as u64);
        }
        events = events.wrapping_add(1);
    }
    Ok((events, bytes))
}

/// Returns the number of nodes of the tree.
fn nodes_of(alloc: Global, root: &SyntaxNode<Statements>) -> Result<u64, AllocError> {
    let mut nodes: u64 = 0;
    for node in root.descendants(alloc)? {
        let _node = node?;
        nodes = nodes.wrapping_add(1);
    }
    Ok(nodes)
}

/// Walks through the tree and prints the counts.
fn walk(rt: &HostRuntime, green: GreenNode) -> io::Result<()> {
    let root = SyntaxNode::new_root(rt.alloc(), green)?;
    let start = Instant::now(rt)?;
    let (events, bytes) = walked(rt.alloc(), &root)?;
    let walked = start.elapsed(rt)?.as_micros();
    let nodes = nodes_of(rt.alloc(), &root)?;
    let counted = start.elapsed(rt)?.as_micros().saturating_sub(walked);
    let start = Instant::now(rt)?;
    drop(root);
    let dropped = start.elapsed(rt)?.as_micros();
    eprintln!(rt;
        "{events} events in {walked}, {nodes} nodes in {counted}, dropped in {dropped} microseconds"
    )?;
    println!(rt; "{events} {bytes} {nodes}")
}

fn measure(rt: &HostRuntime, blocks: u32, names: u32) -> io::Result<()> {
    let start = Instant::now(rt)?;
    let Ok(green) = tree(rt.alloc(), blocks, names) else {
        return println!(rt; "out of memory");
    };
    let built = start.elapsed(rt)?.as_micros();
    let tokens = tokens_below(&green.as_ref());
    let counted = start.elapsed(rt)?.as_micros().saturating_sub(built);
    eprintln!(rt; "{names} names: built in {built}, {tokens} tokens in {counted} microseconds")?;
    println!(rt; "{tokens}")?;
    walk(rt, green)
}

/// Edits a node of many children, searches it as often, and walks over children of a root.
fn measure_lists(rt: &HostRuntime, children: u32) -> io::Result<()> {
    let Ok(wide) = lists::node_of(rt.alloc(), children) else {
        return println!(rt; "out of memory");
    };
    let start = Instant::now(rt)?;
    let Ok(edited) = lists::edited_often(rt.alloc(), wide, ROUNDS) else {
        return println!(rt; "out of memory");
    };
    let made = start.elapsed(rt)?.as_micros();
    let sum = lists::found(&edited, children);
    let searched = start.elapsed(rt)?.as_micros().saturating_sub(made);
    eprintln!(rt;
        "{children} children: {ROUNDS} times three edits in {made}, as many searches as children in {searched} microseconds"
    )?;
    println!(rt; "{} {sum}", edited.text_len().0)?;
    walk_children(rt, children / 10)?;
    walk_children(rt, children)
}

/// Walks over the children of a root with `children` children.
fn walk_children(rt: &HostRuntime, children: u32) -> io::Result<()> {
    let Ok(green) = lists::node_of(rt.alloc(), children) else {
        return println!(rt; "out of memory");
    };
    let root = SyntaxNode::new_root(rt.alloc(), green)?;
    let start = Instant::now(rt)?;
    let sum = lists::ends(rt.alloc(), &root)?;
    let walked = start.elapsed(rt)?.as_micros();
    eprintln!(rt; "ranges of {children} children in {walked} microseconds")?;
    println!(rt; "{sum}")
}

/// Returns what the arguments ask for.
fn planned(rt: &HostRuntime) -> io::Result<Plan> {
    let mut plan = Plan {
        blocks: BLOCKS,
        children: CHILDREN,
        wants_lists: false,
    };
    for word in env::args(rt)? {
        if word.as_str() == "lists" {
            plan.wants_lists = true;
        }
        if word.as_str() == "tenth" {
            plan.blocks = BLOCKS / 10;
            plan.children = CHILDREN / 10;
        }
    }
    Ok(plan)
}

fn main(rt: HostRuntime) -> io::Result<()> {
    let plan = planned(&rt)?;
    measure(&rt, plan.blocks, 100)?;
    measure(&rt, plan.blocks, 0)?;
    if plan.wants_lists {
        measure_lists(&rt, plan.children)?;
    }
    Ok(())
}
