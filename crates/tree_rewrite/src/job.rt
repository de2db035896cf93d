//! Planned changes, and the orders in which they may be executed one at a time.
ghost use Rattle.std.specs.Prelude.{◌≡◌, ◌&&◌, Some, ℕ, length, map};
ghost use Rattle.std.specs.List.{list_all};
ghost use Rattle.std.specs.Option.{option_copied};
ghost use Rattle.tree_rewrite.specs.Rewrite.{same_sheet, sets, first_way, payload_of};
ghost use Rattle.tree_rewrite.specs.Marked.{gap, slot};
ghost use Rattle.tree_rewrite.specs.Reach.{is_deep};
ghost use Rattle.syntax_tree.specs.Element.{Way, same_way};
ghost use Rattle.syntax_tree.specs.Handle.{element_of};
ghost use Rattle.tree_rewrite.specs.Orders.{is_owned, same_gap, may_follow, in_order, is_order};
ghost use Rattle.tree_rewrite.specs.Recorded.{way_of, target_of, level_of};
ghost use Rattle.tree_rewrite.specs.Plan.{depth_of};
ghost use Rattle.tree_rewrite.specs.Below.{IsBeyond, LeavesChild};

use crate::path::Path;
use crate::target_tree::TargetTree;
use crate::tree_change::TreeChange;
use std::marker::Model;
use syntax_tree::SyntaxElement;

/// A planned change: a change that is not discarded, with its target tree.
pub struct Job {
    /// The up-path of the replaced node whose payload is its target tree; `None` for the tree itself.
    holder: Option<Vec<usize>>,
    change: TreeChange,
    /// The up-path of the node that it replaces by a node, if it does.
    own: Option<Vec<usize>>,
}

// Not derived: a derived drop is opened field by field in each function that drops one.
impl Drop for Job {
    fn drop(self) {
        let Job {
            holder: _holder,
            change: _change,
            own: _own,
        } = self;
    }
}

impl Model for Job {
    ghost use Rattle.std.specs.Coded.{codes};
    ghost use Rattle.rowan_green.specs.Forest.{tree_code};
    ghost use Rattle.tree_rewrite.specs.Rewrite.{Job};
    ghost use Rattle.tree_rewrite.specs.Recorded.{way_of};

    ghost Value = { Job };

    ghost coded = { Prim.hlevel (codes, tree_code) };

    ghost view = { λ j. record { sheet = way_of j.holder; change = j.change; own = way_of j.own } };
}

impl Job {
    /// Creates a planned change of the payload of the replaced node at up-path `holder`, or of the
    /// tree itself; `own` is the up-path of the node that it replaces by a node.
    pub fn new(holder: Option<Vec<usize>>, change: TreeChange, own: Option<Vec<usize>>) -> Job
        ensures { result ≡ record { sheet = way_of holder; change = change; own = way_of own } }
    {
        Job {
            holder,
            change,
            own,
        }
    }

    /// Returns its target tree.
    pub(crate) fn target(&self) -> TargetTree<'_>
        ensures { target_of result ≡ self.now.sheet }
    {
        match &self.holder {
            Some(way) => TargetTree::Payload(way),
            None => TargetTree::Tree,
        }
    }

    /// Returns the elements that it inserts.
    pub(crate) fn payload(&self) -> &[SyntaxElement]
        ensures { map element_of result.now ≡ payload_of self.now.change }
    {
        self.change.payload()
    }

    /// Returns the up-path of the node that it replaces by a node, if it does.
    pub(crate) fn own(&self) -> Option<&[usize]>
        ensures { option_copied result ≡ self.now.own }
    {
        match &self.own {
            Some(way) => Some(way),
            None => None,
        }
    }

    /// Returns the length of the up-path of its target tree, or `None` for the tree itself.
    pub(crate) fn level(&self) -> Option<usize>
        ensures { level_of result ≡ depth_of self.now.sheet }
    {
        match self.target() {
            TargetTree::Payload(way) => Some(way.len()),
            TargetTree::Tree => None,
        }
    }

    /// Returns `true` if it inserts into gap `index` of the node at `path` in `target`.
    pub(crate) fn sets_gap(&self, target: TargetTree<'_>, path: &Path, index: usize) -> bool
        ensures { result ≡ (same_sheet self.now.sheet (target_of target.entry)
            && sets self.now.change (gap path.now index)) }
    {
        self.target().is_same(target) && self.change.sets_gap(path, index)
    }

    /// Returns `true` if it replaces the element at `path` in `target`.
    pub(crate) fn sets_slot(&self, target: TargetTree<'_>, path: &Path) -> bool
        ensures { result ≡ (same_sheet self.now.sheet (target_of target.entry)
            && sets self.now.change (slot path.now)) }
    {
        self.target().is_same(target) && self.change.sets_slot(path)
    }

    /// Returns `true` if it affects, in `target`, children of an element at depth
    /// `depth`, or elements below these.
    pub(crate) fn is_deep(&self, target: TargetTree<'_>, depth: usize) -> bool
        ensures { result ≡ (same_sheet self.now.sheet (target_of target.entry)
            && is_deep depth self.now.change) }
    {
        self.target().is_same(target) && self.change.is_deep(depth)
    }

    /// Returns `true` if `path` leads to the first element that it replaces; for an insertion, if
    /// `path` leads to the root.
    pub(crate) fn begins_at(&self, path: &Path) -> bool
        ensures { result ≡ same_way (first_way self.now.change) path.now }
    {
        self.change.begins_at(path)
    }

    /// Returns `true` if it applies to `target`.
    pub(crate) fn is_on(&self, target: TargetTree<'_>) -> bool
        ensures { result ≡ same_sheet self.now.sheet (target_of target.entry) }
    {
        self.target().is_same(target)
    }

    /// Returns the children that it may affect in a node at depth `depth`: the index of the first,
    /// and the number of further ones. Returns `None` if it affects none.
    pub(crate) fn row_below(&self, depth: usize) -> Option<(usize, usize)>
        ensures { (w : Way) (i : ℕ) → length w ≡ depth → IsBeyond result i
            → LeavesChild self.now.change w i }
    {
        self.change.row_below(depth)
    }

    /// Returns `true` if the target tree of `other` is the payload of this planned change.
    fn owns(&self, other: &Job) -> bool
        ensures { result ≡ is_owned self.now.own other.now }
    {
        match self.own() {
            Some(way) => other.is_on(TargetTree::Payload(way)),
            None => false,
        }
    }

    /// Returns `true` if both insert into the same gap.
    fn has_gap_of(&self, other: &Job) -> bool
        ensures { result ≡ same_gap (Some self.now) (Some other.now) }
    {
        self.is_on(other.target()) && self.change.has_gap_of(&other.change)
    }
}

/// Returns `true` if the planned change at index `b` may be executed after the one at index `a`.
fn may_follow(jobs: &[Job], a: usize, b: usize) -> bool
    ensures { result ≡ may_follow jobs.now a b }
{
    let (Some(first), Some(second)) = (jobs.get(a), jobs.get(b)) else {
        return a != b;
    };
    a != b && !first.owns(second) && (a < b || !first.has_gap_of(second))
}

/// Returns `true` if each planned change at `others` may be executed after the one at index `a`.
fn all_follow(jobs: &[Job], a: usize, others: &[usize]) -> bool
    ensures { result ≡ list_all (λ b. may_follow jobs.now a b) others.now }
{
    for b in others {
        if !may_follow(jobs, a, *b) {
            return false;
        }
    }
    true
}

/// Returns `true` if `order` consists of indices of planned changes, each of which may be followed
/// by all later ones.
fn in_order(jobs: &[Job], order: &[usize]) -> bool
    ensures { result ≡ in_order jobs.now order.now }
{
    let mut rest = order;
    while let Some((a, others)) = rest.split_first() {
        if *a >= jobs.len() || !all_follow(jobs, *a, others) {
            return false;
        }
        rest = others;
    }
    true
}

/// Returns `true` if `order` is an admitted order: the indices of all planned changes, in an order
/// in which they may be executed one at a time.
pub fn is_order(jobs: &[Job], order: &[usize]) -> bool
    ensures { result ≡ is_order jobs.now order.now }
{
    order.len() == jobs.len() && in_order(jobs, order)
}
