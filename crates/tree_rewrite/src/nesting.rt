//! Nested changes: which changes are inside replaced elements, and which of them are discarded.
ghost use Rattle.std.specs.Prelude.{◌≡◌, ◌∷◌, ◌&&◌, ℕ, Some, true, false, if◌then◌else◌, not, slice_get, IfOk};
ghost use Rattle.std.specs.List.{list_any};
ghost use Rattle.std.specs.Option.{option_copied};
ghost use Rattle.rowan_green.specs.Forest.{Tree};
ghost use Rattle.syntax_tree.specs.Element.{Way, is_node};
ghost use Rattle.rowan.specs.Place.{term_by};
ghost use Rattle.tree_rewrite.specs.Change.{replaces, is_node_by_node, is_dropped, holder_of, owner_of, has_collision};
ghost use Rattle.tree_rewrite.specs.Held.{Holds, replacing, leads_through, splits};
ghost use Rattle.tree_rewrite.specs.Walk.{node_in, children_below, names_node};
ghost use Rattle.tree_rewrite.specs.Rewrite.{first_way};
ghost use Rattle.tree_rewrite.specs.WayTrie.{node_at};

use crate::tree_change::{Target, TreeChange};
use crate::way_trie::WayTrie;
use crate::ways::{covers, is_between};
use rowan_green::{GreenElementRef, GreenNode, GreenNodeRef, NodeOrToken};
use std::alloc::{AllocError, Global};

impl TreeChange {
    /// Returns `true` if it replaces the element at up-path `way`.
    pub fn replaces(&self, way: &[usize]) -> bool
        ensures { result ≡ replaces self.now way.now }
    {
        match self.target() {
            Target::Gap { .. } => false,
            Target::Slots { first, more, .. } => covers(first, *more, way),
        }
    }

    /// Returns `true` if gap `index` of the node at up-path `parent` is between two elements that
    /// it replaces.
    pub fn splits(&self, parent: &[usize], index: usize) -> bool
        ensures { result ≡ splits parent.now index self.now }
    {
        match self.target() {
            Target::Gap { .. } => false,
            Target::Slots { first, more, .. } => is_between(first, *more, parent, index),
        }
    }
}

/// Returns the change that replaces the element of a trie node, if any.
fn change_of<'a>(
    changes: &'a [TreeChange],
    held: &WayTrie,
    node: Option<usize>,
) -> Option<&'a TreeChange>
    requires { Holds held.now changes.now }
    ensures { (w : Way) → node ≡ node_at held.now w → option_copied result
        ≡ replacing w changes.now }
{
    let number = held.number(node)?;
    changes.get(number)
}

/// Returns the change that replaces the element at up-path `way`, if any.
pub(crate) fn change_at<'a>(
    changes: &'a [TreeChange],
    held: &WayTrie,
    way: &[usize],
) -> Option<&'a TreeChange>
    requires { Holds held.now changes.now }
    ensures { option_copied result ≡ replacing way.now changes.now }
{
    change_of(changes, held, held.node_at(way))
}

/// Returns `true` if a change replaces the element of a trie node.
fn is_replaced(changes: &[TreeChange], held: &WayTrie, node: Option<usize>) -> bool
    requires { Holds held.now changes.now }
    ensures { (w : Way) → node ≡ node_at held.now w → result
        ≡ list_any (λ r. replaces r w) changes.now }
{
    change_of(changes, held, node).is_some()
}

/// Returns `way` if its element is replaced, else `above`.
fn nearer<'a>(
    is_replaced: bool,
    way: &'a [usize],
    above: Option<&'a [usize]>,
) -> Option<&'a [usize]>
    ensures { option_copied result
        ≡ (if is_replaced then Some way.now else option_copied above.entry) }
{
    if is_replaced { Some(way) } else { above }
}

/// Returns the up-path of the innermost replaced element at or above `way`.
pub fn holder_of<'a>(
    changes: &[TreeChange],
    held: &WayTrie,
    way: &'a [usize],
) -> Option<&'a [usize]>
    requires { Holds held.now changes.now }
    ensures { option_copied result ≡ holder_of changes.now way.now }
{
    let mut depth = way.len();
    let mut node = WayTrie::ROOT;
    let mut holder = nearer(is_replaced(changes, held, node), &way[depth..], None);
    while depth > 0 {
        depth -= 1;
        node = held.child(node, way[depth]);
        holder = nearer(is_replaced(changes, held, node), &way[depth..], holder);
    }
    holder
}

/// Returns the up-path of the replaced element whose payload contains `change`, if `change` is not
/// discarded; `None` if it applies to the tree itself.
pub fn owner_of<'a>(
    changes: &[TreeChange],
    held: &WayTrie,
    change: &'a TreeChange,
) -> Option<&'a [usize]>
    requires { Holds held.now changes.now }
    ensures { option_copied result ≡ owner_of changes.now change.now }
{
    match change.target() {
        Target::Gap { parent, .. } => holder_of(changes, held, parent),
        Target::Slots { first, .. } => {
            let (_, above) = first.split_first()?;
            holder_of(changes, held, above)
        }
    }
}

/// Returns the child at index `index`, if it is a node.
fn child_node<'a>(parent: &Option<GreenNodeRef<'a>>, index: usize) -> Option<GreenNodeRef<'a>>
    ensures { result ≡ node_in (slice_get (children_below parent.now) index) }
{
    let Some(parent) = parent else {
        return None;
    };
    match parent.child(index)? {
        NodeOrToken::Node(node) => Some(node),
        NodeOrToken::Token(_) => None,
    }
}

/// Returns the node at up-path `way`, borrowed from the tree.
fn node_by<'a>(root: &'a GreenNode, way: &[usize]) -> Option<GreenNodeRef<'a>>
    ensures { result ≡ node_in (term_by root.now way.now) }
{
    let mut node = Some(root.as_ref());
    let mut depth = way.len();
    while depth > 0 {
        depth -= 1;
        node = child_node(&node, way[depth]);
    }
    node
}

/// Returns the element at up-path `way`, borrowed from the tree.
pub fn element_by<'a>(root: &'a GreenNode, way: &[usize]) -> Option<GreenElementRef<'a>>
    ensures { result ≡ term_by root.now way.now }
{
    let Some((index, up)) = way.split_first() else {
        return Some(NodeOrToken::Node(root.as_ref()));
    };
    node_by(root, up)?.child(*index)
}

/// Returns `true` if `change` names a single element, which is a node of the tree, and replaces it
/// by one node.
pub fn is_node_by_node(root: &GreenNode, change: &TreeChange) -> bool
    ensures { result ≡ is_node_by_node root.now change.now }
{
    let Target::Slots { first, single, .. } = change.target() else {
        return false;
    };
    let [new] = change.payload() else {
        return false;
    };
    *single && new.is_node() && matches!(element_by(root, first), Some(NodeOrToken::Node(_)))
}

/// Returns `true` if the element at up-path `way` is replaced, except for a node that is replaced
/// by a node.
fn is_gone(root: &GreenNode, changes: &[TreeChange], held: &WayTrie, way: &[usize]) -> bool
    requires apart { has_collision changes.now ≡ false }
    requires holds { Holds held.now changes.now }
    ensures { result ≡ list_any
        (λ r. replaces r way.now && not (is_node_by_node root.now r)) changes.now }
{
    match change_at(changes, held, way) {
        Some(change) => !is_node_by_node(root, change),
        None => false,
    }
}

/// Returns `true` if `change` names a single element and replaces it by one node.
fn names_node(change: &TreeChange) -> bool
    ensures { result ≡ names_node change.now }
{
    let Target::Slots { single, .. } = change.target() else {
        return false;
    };
    let [new] = change.payload() else {
        return false;
    };
    *single && new.is_node()
}

/// Returns `true` if `change` replaces children of `parent`, the first of which is a node.
fn begins_with_node(parent: &Option<GreenNodeRef<'_>>, change: &TreeChange) -> bool
    ensures { (t : Tree) (v : Way) (i : ℕ) → parent.now ≡ node_in (term_by t v)
        → replaces change.now (i ∷ v) ≡ true → result ≡ is_node (term_by t (first_way change.now)) }
{
    match change.target() {
        Target::Gap { .. } => false,
        Target::Slots { first, .. } => match first.split_first() {
            Some((index, _)) => child_node(parent, *index).is_some(),
            None => false,
        },
    }
}

/// Returns `true` if `change`, which replaces children of `parent`, names a single node and
/// replaces it by a node.
fn is_child_by_node(parent: &Option<GreenNodeRef<'_>>, change: &TreeChange) -> bool
    ensures { (t : Tree) (v : Way) (i : ℕ) → parent.now ≡ node_in (term_by t v)
        → replaces change.now (i ∷ v) ≡ true → result ≡ is_node_by_node t change.now }
{
    if !names_node(change) {
        return false;
    }
    begins_with_node(parent, change)
}

/// Returns `true` if a child of `parent`, given by its trie node, is replaced, except for a node
/// that is replaced by a node.
fn is_child_gone(
    changes: &[TreeChange],
    held: &WayTrie,
    node: Option<usize>,
    parent: &Option<GreenNodeRef<'_>>,
) -> bool
    requires apart { has_collision changes.now ≡ false }
    requires holds { Holds held.now changes.now }
    ensures { (t : Tree) (v : Way) (i : ℕ) → node ≡ node_at held.now (i ∷ v)
        → parent.now ≡ node_in (term_by t v)
        → result ≡ list_any (λ r. replaces r (i ∷ v) && not (is_node_by_node t r)) changes.now }
{
    match change_of(changes, held, node) {
        Some(change) => !is_child_by_node(parent, change),
        None => false,
    }
}

/// Returns `true` if an element at or above `way` is replaced, except for nodes that are replaced
/// by a node.
fn is_lost(root: &GreenNode, changes: &[TreeChange], held: &WayTrie, way: &[usize]) -> bool
    requires apart { has_collision changes.now ≡ false }
    requires holds { Holds held.now changes.now }
    ensures { result ≡ list_any (λ r. leads_through way.now r
        && not (is_node_by_node root.now r)) changes.now }
{
    let mut depth = way.len();
    let mut node = WayTrie::ROOT;
    let mut parent = Some(root.as_ref());
    let mut lost = is_gone(root, changes, held, &[]);
    while depth > 0 {
        depth -= 1;
        node = held.child(node, way[depth]);
        lost |= is_child_gone(changes, held, node, &parent);
        parent = child_node(&parent, way[depth]);
    }
    lost
}

/// Gap `index` of the node at up-path `parent`.
#[derive(Clone, Copy)]
struct Gap<'a> {
    parent: &'a [usize],
    index: usize,
}

/// Returns `true` if `change` replaces the elements on both sides of a gap, unless it replaces a
/// node by a node.
fn closes(root: &GreenNode, change: &TreeChange, parent: &[usize], index: usize) -> bool
    ensures { result ≡ (splits parent.now index change.now
        && not (is_node_by_node root.now change.now)) }
{
    change.splits(parent, index) && !is_node_by_node(root, change)
}

/// Returns `true` if a change replaces the elements on both sides of `gap`, unless it replaces a
/// node by a node.
fn is_closed(
    alloc: Global,
    root: &GreenNode,
    changes: &[TreeChange],
    held: &WayTrie,
    gap: Gap<'_>,
) -> Result<bool, AllocError>
    requires apart { has_collision changes.now ≡ false }
    requires holds { Holds held.now changes.now }
    ensures { IfOk result (λ b. b ≡ list_any (λ r. splits gap.entry.parent.now gap.entry.index r
        && not (is_node_by_node root.now r)) changes.now) }
{
    let Gap { parent, index } = gap;
    if index == 0 {
        return Ok(false);
    }
    let mut before = vec![in alloc; index - 1]?;
    before.extend_from_slice(parent)?;
    match change_at(changes, held, &before) {
        Some(change) => Ok(closes(root, change, parent, index)),
        None => Ok(false),
    }
}

/// Returns `true` if `change` is discarded with a replaced element that contains it.
pub fn is_dropped(
    alloc: Global,
    root: &GreenNode,
    changes: &[TreeChange],
    held: &WayTrie,
    change: &TreeChange,
) -> Result<bool, AllocError>
    requires apart { has_collision changes.now ≡ false }
    requires holds { Holds held.now changes.now }
    ensures { IfOk result (λ b. b ≡ is_dropped root.now changes.now change.now) }
{
    match change.target() {
        Target::Gap { parent, index } => {
            if is_lost(root, changes, held, parent) {
                return Ok(true);
            }
            let gap = Gap {
                parent,
                index: *index,
            };
            is_closed(alloc, root, changes, held, gap)
        }
        Target::Slots { first, .. } => {
            let Some((_, above)) = first.split_first() else {
                return Ok(false);
            };
            let lost = is_lost(root, changes, held, above);
            Ok(lost)
        }
    }
}
