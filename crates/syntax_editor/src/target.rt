//! The elements of the edited tree that handles name.
ghost use Rattle.std.specs.Prelude.{◌≡◌, true, ◌&&◌, [], Some, is_some, map, option_map, IfOk, IfSome};
ghost use Rattle.rowan.specs.Place.{kind_at};
ghost use Rattle.rowan_green.specs.Term.{kind_of};
ghost use Rattle.syntax_tree.specs.Element.{term_of, element_at};
ghost use Rattle.syntax_tree.specs.Handle.{element_of};
ghost use Rattle.tree_rewrite.specs.Change.{IsOneNode};
ghost use Rattle.tree_rewrite.specs.Moved.{same_kind};
ghost use Rattle.syntax_editor.specs.Recording.{is_target, anchor, is_gap, is_one_node, are_in_order};
ghost use Rattle.syntax_editor.specs.Inside.{standing};

use std::alloc::{AllocError, Global};
use syntax_tree::{Position, SyntaxElement, SyntaxNode};

/// Returns the raw number of the element's kind.
pub(crate) fn raw_kind(element: &SyntaxElement) -> u16
    ensures kind { result ≡ kind_at (element_of element.now).place }
    ensures stands { option_map kind_of (term_of (element_of element.now)) ≡ Some result }
{
    match element {
        SyntaxElement::Node(node) => node.cursor().green().kind().0,
        SyntaxElement::Token(token) => token.cursor().green().kind().0,
    }
}

/// Returns `true` if two elements have the same kind.
pub(crate) fn same_kind(one: &SyntaxElement, other: &SyntaxElement) -> bool
    ensures { result ≡ same_kind (term_of (element_of one.now)) (term_of (element_of other.now)) }
{
    raw_kind(one) == raw_kind(other)
}

/// Returns the element of the tree of `root` that a handle names: the handle has that tree's
/// number, and its path leads to an element of its kind there.
pub(crate) fn target(
    alloc: Global,
    root: &SyntaxNode,
    element: &SyntaxElement,
) -> Result<Option<SyntaxElement>, AllocError>
    ensures tested { IfOk result (λ t. is_some t ≡ is_target root.now (element_of element.now)) }
    ensures stands { IfOk result (λ t. IfSome t (λ e. element_of e ≡
        element_at root.now.number root.now.place.root (element_of element.now).place.up)) }
{
    if element.tree() != root.tree() {
        return Ok(None);
    }
    let way = element.way(alloc)?;
    let Some(own) = root.element_at(alloc, &way)? else {
        return Ok(None);
    };
    if !same_kind(&own, element) {
        return Ok(None);
    }
    Ok(Some(own))
}

/// Returns `true` if `elements` are one node.
pub(crate) fn is_one_node(elements: &[SyntaxElement]) -> bool
    ensures test { result ≡ is_one_node (map element_of elements.now) }
    ensures means { result ≡ true → IsOneNode (map element_of elements.now) }
{
    match elements {
        [element] => element.is_node(),
        _ => false,
    }
}

/// Returns `true` if two paths lead to children of one parent, the second not before the first.
pub(crate) fn are_in_order(first: &[usize], last: &[usize]) -> bool
    ensures { result ≡ are_in_order first.now last.now }
{
    match (first.split_first(), last.split_first()) {
        (Some((index, above)), Some((number, up))) => above == up && *index <= *number,
        _ => false,
    }
}

/// Returns the element before `position`, or the parent if it is before all children; `None` if the
/// parent has no such child.
fn anchor(alloc: Global, position: &Position) -> Result<Option<SyntaxElement>, AllocError>
    ensures { IfOk result (λ r. option_map element_of r
        ≡ standing (anchor position.now.parent position.now.index)) }
{
    if position.index == 0 {
        return Ok(Some(SyntaxElement::Node(position.parent.clone()?)));
    }
    let mut way = vec![in alloc; position.index - 1]?;
    let mut above = position.parent.way(alloc)?;
    way.append(&mut above)?;
    position.parent.element_at(alloc, &way)
}

/// Returns the parent of `position`, if the gap is in the tree of `root`.
pub(crate) fn gap(
    alloc: Global,
    root: &SyntaxNode,
    position: &Position,
) -> Result<Option<SyntaxNode>, AllocError>
    ensures tested { IfOk result
        (λ t. is_some t ≡ is_gap root.now position.now.parent position.now.index) }
    ensures stands { IfOk result (λ t. IfSome t (λ e. e ≡
        element_at root.now.number root.now.place.root position.now.parent.place.up)) }
{
    let Some(anchor) = anchor(alloc, position)? else {
        return Ok(None);
    };
    if target(alloc, root, &anchor)?.is_none() {
        return Ok(None);
    }
    let way = position.parent.way(alloc)?;
    match root.element_at(alloc, &way)? {
        Some(SyntaxElement::Node(parent)) => {
            // (the contract of `green`: the element is in its tree)
            let _stands = parent.cursor().green();
            Ok(Some(parent))
        }
        Some(SyntaxElement::Token(token)) => {
            // (the contract of `green`: it is a leaf, which is no parent of a gap)
            let _leaf = token.cursor().green();
            Ok(None)
        }
        None => Ok(None),
    }
}
