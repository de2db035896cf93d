//! The leaves of a tree.
ghost use Rattle.std.specs.Prelude.{◌≡◌, ◌++◌, reverse, IfOk, OnOk};
ghost use Rattle.rowan_green.specs.Term.{children_of};
ghost use Rattle.tree_patterns.specs.Leaves.{leaves};

use rowan_green::{GreenElementRef, GreenNodeRef, GreenTokenRef, NodeOrToken};
use std::alloc::{AllocError, Global};

/// Returns the children of a node, in order.
fn children_of<'a>(
    alloc: Global,
    node: &GreenNodeRef<'a>,
) -> Result<Vec<GreenElementRef<'a>>, AllocError>
    ensures { IfOk result (λ v. v.items ≡ children_of node.now) }
{
    let mut children = Vec::new(alloc);
    for child in node.children() {
        children.push(child)?;
    }
    Ok(children)
}

/// Puts the children of a node on a stack, the first on top.
#[tactic(auto, using(crate::proofs::Stacks::moved))]
fn push_children<'a>(
    alloc: Global,
    node: &GreenNodeRef<'a>,
    stack: &mut Vec<GreenElementRef<'a>>,
) -> Result<(), AllocError>
    ensures { OnOk result (stack.new.items ≡ stack.old.items ++ reverse (children_of node.now)) }
{
    let mut children = children_of(alloc, node)?;
    'children: while let Some(child) = children.pop() {
        stack.push(child)?;
    }
    Ok(())
}

/// Returns the leaves of a node, in order.
#[tactic(auto, using(crate::proofs::LeafLists::node_steps))]
pub fn leaves_of<'a>(
    alloc: Global,
    node: &GreenNodeRef<'a>,
) -> Result<Vec<GreenTokenRef<'a>>, AllocError>
    ensures { IfOk result (λ v. v.items ≡ leaves node.now.forest) }
{
    let mut leaves = Vec::new(alloc);
    let mut stack = Vec::new(alloc);
    push_children(alloc, node, &mut stack)?;
    'stack: while let Some(element) = stack.pop() {
        match element {
            NodeOrToken::Node(node) => push_children(alloc, &node, &mut stack)?,
            NodeOrToken::Token(token) => leaves.push(token)?,
        }
    }
    Ok(leaves)
}
