//! The inserted elements of a rewritten tree.
ghost use Rattle.std.specs.Prelude.{◌≡◌, map, IfOk};
ghost use Rattle.std.specs.List.{zip};
ghost use Rattle.syntax_tree.specs.Element.{element_at};
ghost use Rattle.syntax_tree.specs.Handle.{element_of};
ghost use Rattle.syntax_tree.specs.Search.{elements};
ghost use Rattle.tree_rewrite.specs.Marked.{Marked, changed};
ghost use Rattle.annotated_elements.specs.Changed.{ArePutMarks};
ghost use Rattle.annotated_elements.specs.Found.{picked};

use crate::found::push_if;
use std::alloc::{AllocError, Global};
use syntax_tree::{SyntaxElement, SyntaxNode};

/// Returns the elements at and below `root` whose mark is `true`, in preorder. `marks` has the marks
/// of these elements, in preorder; elements past the last mark are left out.
fn marked(
    alloc: Global,
    root: &SyntaxNode,
    marks: &[bool],
) -> Result<Vec<SyntaxElement>, AllocError>
    ensures { IfOk result (λ v. v.items ≡ picked (λ b. b) (zip (elements root.now) marks.now)) }
{
    let mut marked = Vec::new(alloc);
    let mut rest = marks;
    let mut left = root.descendants_with_tokens(alloc)?;
    while let Some(element) = left.next() {
        let element = element?;
        let Some((is_marked, others)) = rest.split_first() else {
            return Ok(marked);
        };
        push_if(*is_marked, element, &mut marked)?;
        rest = others;
    }
    Ok(marked)
}

/// Returns the elements of the tree of `root` that the outermost changes inserted, in preorder.
/// `put` has a mark for each element of the tree, in preorder: `true` if it is inserted.
pub fn changed(
    alloc: Global,
    root: &SyntaxNode,
    put: &[bool],
) -> Result<Vec<SyntaxElement>, AllocError>
    ensures side_by_side { IfOk result
        (λ v. v.items ≡ picked (λ b. b) (zip (elements root.now) put.now)) }
    ensures changed { (m : Marked) → ArePutMarks m root.now put.now → IfOk result
        (λ v. map element_of v.items
        ≡ map (element_at root.now.number root.now.place.root) (changed m)) }
{
    let changed = marked(alloc, root, put)?;
    Ok(changed)
}
