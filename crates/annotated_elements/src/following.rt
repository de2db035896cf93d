//! The end to which a mapping leads an element.
ghost use Rattle.std.specs.Prelude.{◌≡◌, ◌++◌, option_map, IfOk};
ghost use Rattle.rowan_green.specs.Forest.{Tree};
ghost use Rattle.syntax_tree.specs.Handle.{element_of, standing_at};
ghost use Rattle.annotated_elements.specs.Following.{lead_at, followed};
ghost use Rattle.annotated_elements.specs.Nearest.{lead_by};

use std::alloc::{AllocError, Global};
use syntax_tree::{SyntaxElement, SyntaxMapping, SyntaxNode};
use tree_rewrite::mapped::MappedNodes;

/// Returns the image of the nearest mapped node at or above an up-path in the tree of this number,
/// and the part of the up-path below that node; `None` if no such node is mapped.
fn nearest<'m, 'w>(
    mapping: &MappedNodes<'m>,
    tree: u32,
    way: &'w [usize],
) -> Result<Option<(&'m SyntaxNode, &'w [usize])>, AllocError>
    ensures { (t : Tree) → IfOk result (λ r. lead_by r ≡ lead_at mapping.now tree t way.now) }
{
    let mut images = mapping.images(tree, way)?;
    let mut below = 0;
    loop {
        if let Some(image) = images.pop().flatten() {
            return Ok(Some((image, &way[..below])));
        }
        if below == way.len() {
            return Ok(None);
        }
        below += 1;
    }
}

/// Returns the element at an up-path below `node`, or `None` if there is no element.
fn element_below(
    alloc: Global,
    node: &SyntaxNode,
    way: &[usize],
) -> Result<Option<SyntaxElement>, AllocError>
    ensures { IfOk result (λ r. option_map element_of r
        ≡ standing_at node.now (way.now ++ node.now.place.up)) }
{
    let mut whole = Vec::from_slice(alloc, way)?;
    let mut above = node.way(alloc)?;
    whole.append(&mut above)?;
    node.element_at(alloc, &whole)
}

/// Returns the end to which a mapping leads an element.
///
/// A step goes from the nearest mapped node at or above the element to the image of that node, and
/// then down again by the same child indices. Steps are repeated until no node at or above the
/// element is mapped. Returns `None` if a step leads to no element, or if there are more steps than
/// the mapping has entries; with outputs in trees of greater numbers there are never more.
pub fn followed(
    alloc: Global,
    mapping: &SyntaxMapping,
    element: &SyntaxElement,
) -> Result<Option<SyntaxElement>, AllocError>
    ensures { IfOk result
        (λ r. option_map element_of r ≡ followed mapping.now (element_of element.now)) }
{
    let mapped = MappedNodes::new(alloc, mapping)?;
    end_of(alloc, &mapped, element)
}

/// Variant of `followed` for a mapping with an index, which serves many elements.
pub(crate) fn end_of(
    alloc: Global,
    mapping: &MappedNodes<'_>,
    element: &SyntaxElement,
) -> Result<Option<SyntaxElement>, AllocError>
    ensures { IfOk result
        (λ r. option_map element_of r ≡ followed mapping.now (element_of element.now)) }
{
    let mut at = element.clone()?;
    let mut left = mapping.len();
    loop {
        let way = at.way(alloc)?;
        let Some((image, below)) = nearest(mapping, at.tree(), &way)? else {
            return Ok(Some(at));
        };
        let Some(next) = element_below(alloc, image, below)? else {
            return Ok(None);
        };
        if left == 0 {
            return Ok(None);
        }
        left -= 1;
        at = next;
    }
}
