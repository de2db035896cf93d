//! Queries on recorded changes, and copies of them.
ghost use Rattle.std.specs.Prelude.{◌≡◌, map, IfOk};
ghost use Rattle.std.specs.List.{All, list_any};
ghost use Rattle.syntax_tree.specs.Element.{Element};
ghost use Rattle.syntax_tree.specs.Handle.{element_of};
ghost use Rattle.tree_rewrite.specs.Recorded.{recorded, IsOrdered};
ghost use Rattle.tree_rewrite.specs.Rewrite.{payload_of};
ghost use Rattle.syntax_editor.specs.Noted.{is_deletion_of};
ghost use Rattle.syntax_editor.specs.Recording.{is_empty};
ghost use Rattle.syntax_editor.specs.Inside.{IsOwn};

use crate::by_way::has_way_of;
use crate::target::same_kind;
use std::alloc::{AllocError, Global};
use syntax_tree::{Position, SyntaxElement};
use tree_rewrite::change::Change;

/// Returns `true` if the change inserts no element.
pub(crate) fn puts_nothing(change: &Change) -> bool
    ensures { result ≡ is_empty (payload_of (recorded change.now)) }
{
    match change {
        Change::Insert { new, .. } => new.is_empty(),
        Change::Replace { new, .. } => new.is_empty(),
    }
}

/// Returns `true` if the change deletes the element that has the path of `element`, named alone,
/// and both have the same kind.
fn deletes(element: &SyntaxElement, change: &Change) -> bool
    ensures { result ≡ is_deletion_of element.now change.now }
{
    match change {
        Change::Insert { .. } => false,
        Change::Replace {
            first,
            new,
            single,
            ..
        } => *single && has_way_of(first, element) && new.is_empty() && same_kind(first, element),
    }
}

/// Returns `true` if one of the changes deletes the element that has the path of `element`, named
/// alone, and both have the same kind.
pub(crate) fn has_deletion_of(element: &SyntaxElement, changes: &[Change]) -> bool
    ensures { result ≡ list_any (is_deletion_of element.now) changes.now }
{
    changes.iter().any(|change| deletes(element, change))
}

/// Returns copies of `elements`.
pub(crate) fn copies(
    alloc: Global,
    elements: &[SyntaxElement],
) -> Result<Vec<SyntaxElement>, AllocError>
    ensures { IfOk result (λ v. v.items ≡ elements.now) }
{
    let mut copies = Vec::new(alloc);
    for element in elements {
        copies.push(element.clone()?)?;
    }
    Ok(copies)
}

/// Returns a copy of `change`.
pub(crate) fn copy(alloc: Global, change: &Change) -> Result<Change, AllocError>
    ensures same { IfOk result (λ c. recorded c ≡ recorded change.now) }
    ensures ordered { IfOk result (λ c. IsOrdered change.now → IsOrdered c) }
    ensures own { (top : Element) → IfOk result (λ c. IsOwn top change.now → IsOwn top c) }
{
    match change {
        Change::Insert { place, new } => {
            let place = Position {
                parent: place.parent.clone()?,
                index: place.index,
            };
            let new = copies(alloc, new)?;
            Ok(Change::Insert { place, new })
        }
        Change::Replace {
            first,
            last,
            new,
            single,
        } => Ok(Change::Replace {
            first: first.clone()?,
            last: last.clone()?,
            new: copies(alloc, new)?,
            single: *single,
        }),
    }
}

/// Returns copies of `changes`.
pub(crate) fn copied(alloc: Global, changes: &[Change]) -> Result<Vec<Change>, AllocError>
    requires { All IsOrdered changes.now }
    ensures same { IfOk result (λ v. map recorded v.items ≡ map recorded changes.now) }
    ensures ordered { IfOk result (λ v. All IsOrdered v.items) }
{
    let mut copies = Vec::new(alloc);
    for change in changes {
        copies.push(copy(alloc, change)?)?;
    }
    Ok(copies)
}
