//! Elements by their annotations.
ghost use Rattle.std.specs.Prelude.{◌≡◌, ◌==◌, ◌++◌, ◌∷◌, [], ℕ, map, if◌then◌else◌, IfOk, OnOk};
ghost use Rattle.syntax_tree.specs.Handle.{element_of};
ghost use Rattle.syntax_editor.specs.Edit.{of_annotation};
ghost use Rattle.syntax_editor.specs.Groups.{group_of};
ghost use Rattle.syntax_editor.specs.Inside.{annotated};

use crate::annotation::SyntaxAnnotation;
use std::alloc::{AllocError, Global};
use std::collections::HashMap;
use syntax_tree::SyntaxElement;

/// The elements of each annotation, by its number.
pub(crate) type Groups = HashMap<u32, Vec<SyntaxElement>>;

/// Returns the elements of the annotation with this number.
pub(crate) fn group_of(groups: &Groups, number: u32) -> &[SyntaxElement]
    ensures { result.now ≡ group_of groups.now number }
{
    match groups.get(&number) {
        Some(elements) => elements,
        None => &[],
    }
}

/// Appends an element to those of the annotation with this number.
fn push_to(
    alloc: Global,
    number: u32,
    element: SyntaxElement,
    groups: &mut Groups,
) -> Result<(), AllocError>
    ensures { (n : ℕ) → OnOk result
        (group_of groups.new n ≡ group_of groups.old n
        ++ (if number == n then element ∷ [] else [])) }
{
    let mut elements = groups.remove(&number).unwrap_or(Vec::new(alloc));
    elements.push(element)?;
    groups.insert(number, elements)?;
    Ok(())
}

/// Groups annotated elements by their annotations; the elements of one keep their order.
pub(crate) fn grouped(
    alloc: Global,
    found: &[(SyntaxElement, SyntaxAnnotation)],
) -> Result<Groups, AllocError>
    ensures { (n : ℕ) → IfOk result (λ g. map element_of (group_of g n)
        ≡ of_annotation n (map annotated found.now)) }
{
    let mut groups = HashMap::new(alloc);
    for (element, annotation) in found {
        let copy = element.clone()?;
        push_to(alloc, annotation.number, copy, &mut groups)?;
    }
    Ok(groups)
}
