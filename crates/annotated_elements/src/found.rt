//! The elements of a rewritten tree that were copied from a given one.
ghost use Rattle.std.specs.Prelude.{◌≡◌, [], ◌∷◌, ◌++◌, map, if◌then◌else◌, IfOk, OnOk};
ghost use Rattle.std.specs.List.{zip};
ghost use Rattle.rowan_green.specs.Forest.{Tree};
ghost use Rattle.syntax_tree.specs.Element.{same_element, element_at};
ghost use Rattle.syntax_tree.specs.Handle.{element_of};
ghost use Rattle.syntax_tree.specs.Search.{elements};
ghost use Rattle.tree_rewrite.specs.Marked.{Marked};
ghost use Rattle.annotated_elements.specs.Found.{picked, found, AreOrigins};

use std::alloc::{AllocError, Global};
use syntax_tree::{SyntaxElement, SyntaxNode};

/// Appends the element if `is_there`.
pub(crate) fn push_if(
    is_there: bool,
    element: SyntaxElement,
    to: &mut Vec<SyntaxElement>,
) -> Result<(), AllocError>
    ensures { OnOk result (to.new.items ≡ to.old.items ++ (if is_there then element ∷ [] else [])) }
{
    if is_there {
        to.push(element)?;
    }
    Ok(())
}

/// Returns the elements at and below `root` whose origin is `origin`, in preorder. `origins` has the
/// origins of these elements, in preorder; elements past the last origin are left out.
fn beside(
    alloc: Global,
    root: &SyntaxNode,
    origins: &[SyntaxElement],
    origin: &SyntaxElement,
) -> Result<Vec<SyntaxElement>, AllocError>
    ensures { IfOk result (λ v. v.items
        ≡ picked (λ e. same_element e (element_of origin.now))
        (zip (elements root.now) (map element_of origins.now))) }
{
    let way = origin.way(alloc)?;
    let mut found = Vec::new(alloc);
    let mut rest = origins;
    let mut left = root.descendants_with_tokens(alloc)?;
    while let Some(element) = left.next() {
        let element = element?;
        let Some((first, others)) = rest.split_first() else {
            return Ok(found);
        };
        let is_there = first.stands_at(origin.tree(), &way)?;
        push_if(is_there, element, &mut found)?;
        rest = others;
    }
    Ok(found)
}

/// Returns the elements of the tree of `root` that were copied from `origin`, in preorder.
/// `origins` has the origins of the elements of the tree, in preorder.
pub fn found(
    alloc: Global,
    root: &SyntaxNode,
    origins: &[SyntaxElement],
    origin: &SyntaxElement,
) -> Result<Vec<SyntaxElement>, AllocError>
    ensures side_by_side { IfOk result (λ v. v.items
        ≡ picked (λ e. same_element e (element_of origin.now))
        (zip (elements root.now) (map element_of origins.now))) }
    ensures found { (m : Marked) → AreOrigins m root.now (map element_of origins.now) → IfOk result
        (λ v. map element_of v.items
        ≡ map (element_at root.now.number root.now.place.root) (found m (element_of origin.now))) }
{
    let found = beside(alloc, root, origins, origin)?;
    Ok(found)
}
