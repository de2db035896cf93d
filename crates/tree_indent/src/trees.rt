//! Indents and dedents green trees.
ghost use Rattle.std.specs.Prelude.{◌≡◌, IfOk, IfErr, OnOk};
ghost use Rattle.rowan_green.specs.Refusal.{RefusesUnless};
ghost use Rattle.rowan_green.specs.Term.{tree_of, FitsNode};
ghost use Rattle.tree_indent.specs.Shifted.{shifted_tree, FitsTree};

use crate::shift::{Shift, shifted_token};
use rowan_green::{GreenElement, GreenError, GreenNode, GreenNodeRef, NodeOrToken, SyntaxKind};
use std::alloc::Global;

/// Returns the tree with each of its whitespace tokens indented or dedented by `shift`.
pub(crate) fn shifted_tree(
    alloc: Global,
    node: &GreenNodeRef<'_>,
    shift: Shift,
) -> Result<GreenNode, GreenError>
    ensures ok { IfOk result (λ n. n ≡ shifted_tree shift node.now) }
    ensures fits { OnOk result (FitsTree (shifted_tree shift node.now)) }
    ensures refused { IfErr result (RefusesUnless (FitsTree (shifted_tree shift node.now))) }
{
    let mut children = Vec::new(alloc);
    for child in node.children() {
        let new = match child {
            NodeOrToken::Node(inner) => NodeOrToken::Node(shifted_tree(alloc, &inner, shift)?),
            NodeOrToken::Token(token) => NodeOrToken::Token(shifted_token(alloc, &token, shift)?),
        };
        children.push(new)?;
    }
    node_of(alloc, node.kind(), children)
}

/// Creates a node of kind `kind` with children `children`.
fn node_of(
    alloc: Global,
    kind: SyntaxKind,
    children: Vec<GreenElement>,
) -> Result<GreenNode, GreenError>
    ensures ok { IfOk result (λ n. n ≡ tree_of kind.0 children.items) }
    ensures fits { OnOk result (FitsNode children.items) }
    ensures refused { IfErr result (RefusesUnless (FitsNode children.items)) }
{
    GreenNode::new(alloc, kind, children.into_iter())
}
