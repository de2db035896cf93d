//! The steps of a walk through a tree.
ghost use Rattle.std.specs.Prelude.{◌≡◌, ◌∷◌, true, false, IfOk};
ghost use Rattle.rowan.specs.Around.{Cursor};
ghost use Rattle.rowan.specs.Walk.{skipped};
ghost use Rattle.rowan.specs.Left.{left_at, left_by, event_of};

use crate::cursor::SyntaxElement;
use crate::cursor_step::{next_sibling_of, parent_of};
use rowan_green::NodeOrToken;
use std::alloc::{AllocError, Global};

/// The next element to enter or leave, and its depth below the start of the walk.
#[derive(Drop)]
pub struct Step {
    pub element: SyntaxElement,
    pub leaving: bool,
    pub depth: u64,
}

/// Returns the step after the one that enters `element`, or leaves it if `leaving`.
///
/// # Errors
///
/// [`AllocError`] if an allocation fails, a reference count overflows, or the depth would exceed
/// `u64::MAX`.
pub fn step_after(
    alloc: Global,
    element: &SyntaxElement,
    leaving: bool,
    depth: u64,
) -> Result<Option<Step>, AllocError>
    ensures { IfOk result (λ s. left_at leaving element.now depth
        ≡ event_of leaving element.now ∷ left_by s) }
{
    if leaving {
        step_after_leaving(alloc, element, depth)
    } else {
        step_after_entering(alloc, element, depth)
    }
}

fn step_after_entering(
    alloc: Global,
    element: &SyntaxElement,
    depth: u64,
) -> Result<Option<Step>, AllocError>
    ensures { IfOk result
        (λ s. left_at false element.now depth ≡ event_of false element.now ∷ left_by s) }
{
    let node = match element {
        NodeOrToken::Node(node) => node,
        NodeOrToken::Token(token) => {
            prove!(token.green().text_len().0 <= u32::MAX);
            return Ok(Some(Step {
                element: NodeOrToken::Token(token.clone()?),
                leaving: true,
                depth,
            }));
        }
    };
    let Some(child) = node.first_child_or_token(alloc)? else {
        return Ok(Some(Step {
            element: NodeOrToken::Node(node.clone()?),
            leaving: true,
            depth,
        }));
    };
    let Some(depth) = depth.checked_add(1) else {
        return Err(AllocError);
    };
    Ok(Some(Step {
        element: child,
        leaving: false,
        depth,
    }))
}

fn step_after_leaving(
    alloc: Global,
    element: &SyntaxElement,
    depth: u64,
) -> Result<Option<Step>, AllocError>
    ensures { IfOk result
        (λ s. left_at true element.now depth ≡ event_of true element.now ∷ left_by s) }
{
    let Some(above) = depth.checked_sub(1) else {
        return Ok(None);
    };
    if let Some(sibling) = next_sibling_of(element, alloc)? {
        return Ok(Some(Step {
            element: sibling,
            leaving: false,
            depth,
        }));
    }
    match parent_of(element) {
        Some(parent) => Ok(Some(Step {
            element: NodeOrToken::Node(parent.clone()?),
            leaving: true,
            depth: above,
        })),
        None => Ok(None),
    }
}

/// Returns the step that replaces the one that would enter `element`: the step that leaves its
/// parent, or `None` at the start of the walk.
///
/// # Errors
///
/// [`AllocError`] if a reference count overflows.
pub fn step_past(element: &SyntaxElement, depth: u64) -> Result<Option<Step>, AllocError>
    ensures { IfOk result (λ s. left_by s ≡ skipped 0 (left_at false element.now depth)) }
{
    let Some(above) = depth.checked_sub(1) else {
        return Ok(None);
    };
    match parent_of(element) {
        Some(parent) => Ok(Some(Step {
            element: NodeOrToken::Node(parent.clone()?),
            leaving: true,
            depth: above,
        })),
        None => Ok(None),
    }
}
