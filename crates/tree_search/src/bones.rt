//! Elements, and the children that a match compares.
ghost use Rattle.std.specs.Prelude.{◌≡◌, IfOk};
ghost use Rattle.rowan.specs.Place.{kind_at};
ghost use Rattle.syntax_tree.specs.Handle.{element_of};
ghost use Rattle.tree_search.specs.Elements.{bones_of, children_of, kind_of};

use std::alloc::{AllocError, Global};
use syntax_tree::{SyntaxElement, SyntaxNode};
use tree_patterns::bones::is_bone;

/// Returns the raw number of an element's kind.
pub(crate) fn raw_kind(element: &SyntaxElement) -> u16
    ensures { result ≡ kind_of element.now }
{
    match element {
        SyntaxElement::Node(node) => node.cursor().green().kind().0,
        SyntaxElement::Token(token) => token.cursor().green().kind().0,
    }
}

/// Returns the children of a node, in order.
pub(crate) fn children_of(
    alloc: Global,
    node: &SyntaxNode,
) -> Result<Vec<SyntaxElement>, AllocError>
    ensures { IfOk result (λ v. v.items ≡ children_of node.now) }
{
    let mut children = Vec::new(alloc);
    for child in node.children_with_tokens(alloc)? {
        children.push(child?)?;
    }
    Ok(children)
}

/// Returns the children of a node that a match compares, in order.
pub(crate) fn bones_of(alloc: Global, node: &SyntaxNode) -> Result<Vec<SyntaxElement>, AllocError>
    ensures { IfOk result (λ v. v.items ≡ bones_of node.now) }
{
    let kind = node.cursor().green().kind().0;
    let mut bones = Vec::new(alloc);
    for child in node.children_with_tokens(alloc)? {
        let child = child?;
        if is_bone(kind, raw_kind(&child)) {
            bones.push(child)?;
        }
    }
    Ok(bones)
}
