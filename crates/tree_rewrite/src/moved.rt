//! The places, in a payload that replaces a node by a node, of the changes inside that node.
ghost use Rattle.std.specs.Prelude.{◌≡◌, ◌+◌, [], ◌∷◌, option_map, IfOk};
ghost use Rattle.rowan_green.specs.Term.{children_of};
ghost use Rattle.rowan.specs.Place.{term_by, children_in, first_number};
ghost use Rattle.tree_rewrite.specs.Recorded.{change_of};
ghost use Rattle.tree_rewrite.specs.Rewrite.{payload_of};
ghost use Rattle.tree_rewrite.specs.Moved.{carried, same_kind, same_kinds, has_gap, way_above, change_below, change_in};

use crate::climb::way_to;
use crate::mapped::MappedNodes;
use crate::nesting::element_by;
use crate::tree_change::{Target, TreeChange};
use rowan_green::{GreenElementRef, GreenNode, GreenNodeRef, NodeOrToken};
use std::alloc::{AllocError, Global};
use syntax_tree::SyntaxNode;

/// Returns `way`, which ends with the up-path `replaced`, with that end replaced by `to`.
fn carried(
    alloc: Global,
    replaced: &[usize],
    to: &[usize],
    way: &[usize],
) -> Result<Vec<usize>, AllocError>
    ensures { IfOk result (λ v. v.items ≡ carried replaced.now to.now way.now) }
{
    let count = way.len().saturating_sub(replaced.len());
    let mut moved = Vec::from_slice(alloc, &way[..count])?;
    moved.extend_from_slice(to)?;
    Ok(moved)
}

/// Returns `true` if `new` is a node of the kind of `old` that has a gap `index`.
fn has_gap(old: Option<GreenElementRef<'_>>, new: Option<GreenElementRef<'_>>, index: usize) -> bool
    ensures { result ≡ has_gap old.entry new.entry index }
{
    let Some(NodeOrToken::Node(node)) = new else {
        return false;
    };
    let Some(old) = old else {
        return false;
    };
    old.kind() == node.kind() && index <= node.children().len()
}

/// Returns `true` if both children exist and have the same kind.
fn same_kind(old: Option<GreenElementRef<'_>>, new: Option<GreenElementRef<'_>>) -> bool
    ensures { result ≡ same_kind old.entry new.entry }
{
    match (old, new) {
        (Some(old), Some(new)) => old.kind() == new.kind(),
        _ => false,
    }
}

/// Returns `true` if the child at `start` and the `more` children after it exist in both nodes,
/// with the same kinds.
fn same_kinds(old: &GreenNodeRef<'_>, new: &GreenNodeRef<'_>, start: usize, more: usize) -> bool
    ensures { result ≡ same_kinds (children_of old.now) (children_of new.now) start (more + 1) }
{
    let count = old.children().len();
    let mut index = start;
    let mut left = more;
    while index < count {
        if !same_kind(old.child(index), new.child(index)) {
            return false;
        }
        if left == 0 {
            return true;
        }
        left -= 1;
        index += 1;
    }
    false
}

/// Returns the index of an element among its siblings and the up-path of its parent; for the root,
/// 0 and its own up-path.
fn number_and_parent(way: &[usize]) -> (usize, &[usize])
    ensures number { result.0 ≡ first_number way.now }
    ensures parent { result.1.now ≡ way_above way.now }
{
    match way.split_first() {
        Some((number, above)) => (*number, above),
        None => (0, way),
    }
}

/// Variant of `same_kinds` for optional elements. Tokens have no children.
fn same_children(
    old: Option<GreenElementRef<'_>>,
    new: Option<GreenElementRef<'_>>,
    start: usize,
    more: usize,
) -> bool
    ensures { result ≡ same_kinds (children_in old.entry) (children_in new.entry) start (more + 1) }
{
    match (old, new) {
        (Some(NodeOrToken::Node(old)), Some(NodeOrToken::Node(new))) => {
            same_kinds(&old, &new, start, more)
        }
        _ => false,
    }
}

/// A node that is replaced by a node: its up-path, and its payload.
#[derive(Clone, Copy)]
pub struct Replacement<'a> {
    pub way: &'a [usize],
    pub payload: &'a SyntaxNode,
}

/// Returns `change`, which is inside a replaced node, as a change of the payload, where that node
/// has become the one at up-path `to`. Returns `None` if the payload has no such gap or elements.
fn change_below(
    alloc: Global,
    root: &GreenNode,
    replacement: Replacement<'_>,
    to: &[usize],
    change: &TreeChange,
) -> Result<Option<TreeChange>, AllocError>
    ensures { IfOk result (λ r. r ≡ change_below root.now replacement.entry.way.now
        replacement.entry.payload.now to.now change.now) }
{
    let green = replacement.payload.cursor().green();
    match change.target() {
        Target::Gap { parent, index } => {
            let way = carried(alloc, replacement.way, to, parent)?;
            let exists = has_gap(element_by(root, parent), element_by(green, &way), *index);
            let target = Target::Gap {
                parent: way,
                index: *index,
            };
            moved_if(alloc, change, exists.then_some(target))
        }
        Target::Slots {
            first,
            more,
            single,
        } => {
            let (number, above) = number_and_parent(first);
            let way = carried(alloc, replacement.way, to, above)?;
            let exist = same_children(
                element_by(root, above),
                element_by(green, &way),
                number,
                *more,
            );
            let target = Target::Slots {
                first: with_number(alloc, number, &way)?,
                more: *more,
                single: *single,
            };
            moved_if(alloc, change, exist.then_some(target))
        }
    }
}

/// Returns a change of `target`, if any, with the inserted elements of `change`.
fn moved_if(
    alloc: Global,
    change: &TreeChange,
    target: Option<Target>,
) -> Result<Option<TreeChange>, AllocError>
    ensures { IfOk result (λ r. r ≡ option_map (λ t. change_of t (payload_of change.now)) target) }
{
    let Some(target) = target else {
        return Ok(None);
    };
    Ok(Some(change.moved_to(alloc, target)?))
}

/// Returns the up-path of child `number` of the node at up-path `way`.
fn with_number(alloc: Global, number: usize, way: &[usize]) -> Result<Vec<usize>, AllocError>
    ensures { IfOk result (λ v. v.items ≡ number ∷ way.now) }
{
    let mut below = vec![in alloc; number]?;
    below.extend_from_slice(way)?;
    Ok(below)
}

/// Returns `change`, which is inside a replaced node, as a change of the payload of that node;
/// `None` if it has no place there.
pub fn change_in(
    alloc: Global,
    root: &SyntaxNode,
    mapping: &MappedNodes<'_>,
    replacement: Replacement<'_>,
    change: &TreeChange,
) -> Result<Option<TreeChange>, AllocError>
    requires { root.now.place.up ≡ [] }
    ensures { IfOk result (λ r. r ≡ change_in root.now mapping.now replacement.entry.way.now
        replacement.entry.payload.now change.now) }
{
    let Replacement { way, payload } = replacement;
    let green = root.cursor().green();
    match way_to(alloc, mapping, payload, root.tree(), way)? {
        Some(to) => change_below(alloc, green, replacement, &to, change),
        None => Ok(None),
    }
}
