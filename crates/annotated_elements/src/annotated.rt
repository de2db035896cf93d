//! Annotated elements in a rewritten tree.
ghost use Rattle.std.specs.Prelude.{◌≡◌, ◌++◌, map, IfOk, OnOk};
ghost use Rattle.syntax_tree.specs.Handle.{element_of};
ghost use Rattle.tree_rewrite.specs.Marked.{Marked};
ghost use Rattle.annotated_elements.specs.Found.{AreOrigins};
ghost use Rattle.annotated_elements.specs.Annotated.{annotated, elements_of, elements_at};
ghost use Rattle.annotated_elements.specs.Groups.{ends_of, collected};

use crate::following::end_of;
use crate::groups::Groups;
use std::alloc::{AllocError, Global};
use syntax_tree::{SyntaxElement, SyntaxMapping, SyntaxNode};
use tree_rewrite::mapped::MappedNodes;

/// Returns the ends of annotated elements, each with the annotation. An element that leads nowhere
/// has none.
fn ends_of<A: Copy>(
    alloc: Global,
    mapping: &SyntaxMapping,
    annotations: &[(SyntaxElement, A)],
) -> Result<Vec<(SyntaxElement, A)>, AllocError>
    ensures { IfOk result (λ v. elements_of v.items
        ≡ ends_of mapping.now (elements_of annotations.now)) }
{
    let mut ends = Vec::new(alloc);
    // Without annotations an index is of no use.
    if annotations.is_empty() {
        return Ok(ends);
    }
    let mapped = MappedNodes::new(alloc, mapping)?;
    for (element, annotation) in annotations {
        let Some(end) = end_of(alloc, &mapped, element)? else {
            continue;
        };
        ends.push((end, *annotation))?;
    }
    Ok(ends)
}

/// Appends elements, each with this annotation.
fn push_all<A: Copy>(
    elements: &[SyntaxElement],
    annotation: A,
    to: &mut Vec<(SyntaxElement, A)>,
) -> Result<(), AllocError>
    ensures { OnOk result (to.new.items ≡ to.old.items ++ map (λ e. (e, annotation)) elements.now) }
{
    for element in elements {
        to.push((element.clone()?, annotation))?;
    }
    Ok(())
}

/// Returns the elements of the groups of these ends, each with the end's annotation, in the order
/// of the ends.
fn collected<A: Copy>(
    alloc: Global,
    groups: &Groups,
    ends: &[(SyntaxElement, A)],
) -> Result<Vec<(SyntaxElement, A)>, AllocError>
    ensures { IfOk result (λ v. v.items ≡ collected groups.now ends.now) }
{
    let mut all = Vec::new(alloc);
    for (end, annotation) in ends {
        let group = groups.group(alloc, end)?;
        push_all(group, *annotation, &mut all)?;
    }
    Ok(all)
}

/// Returns the annotated elements of a rewritten tree, each with its annotation, in the order of
/// the annotations, then in preorder.
///
/// Each annotated element is followed by the mapping to its end, and found at all elements of the
/// tree of `root` that were copied from that end. `origins` has the origins of the elements of that
/// tree, in preorder. The tree is walked once, and not at all if no annotated element has an end.
pub fn annotated<A: Copy>(
    alloc: Global,
    mapping: &SyntaxMapping,
    annotations: &[(SyntaxElement, A)],
    root: &SyntaxNode,
    origins: &[SyntaxElement],
) -> Result<Vec<(SyntaxElement, A)>, AllocError>
    ensures { (m : Marked) → AreOrigins m root.now (map element_of origins.now)
        → IfOk result (λ v. elements_of v.items
        ≡ elements_at root.now (annotated mapping.now (elements_of annotations.now) m)) }
{
    let ends = ends_of(alloc, mapping, annotations)?;
    if ends.is_empty() {
        return Ok(Vec::new(alloc));
    }
    let mut groups = Groups::new(alloc, &ends)?;
    groups.add_tree(alloc, root, origins)?;
    let all = collected(alloc, &groups, &ends)?;
    Ok(all)
}
