//! The plan of a rewrite: the planned changes, their target trees, and their admitted orders.
ghost use Rattle.std.specs.Prelude.{◌≡◌, List, [], true, false, map, length, reverse, Some, IfOk, IfErr, OnOk, ◌++◌};
ghost use Rattle.std.specs.List.{All};
ghost use Rattle.rowan_green.specs.Forest.{Tree};
ghost use Rattle.syntax_tree.specs.Handle.{element_of};
ghost use Rattle.tree_rewrite.specs.Change.{has_collision};
ghost use Rattle.tree_rewrite.specs.Held.{FitsRow};
ghost use Rattle.tree_rewrite.specs.Rewrite.{jobs, rewritten};
ghost use Rattle.tree_rewrite.specs.Orders.{is_order};
ghost use Rattle.tree_rewrite.specs.Recorded.{recorded, IsOrdered, KeepsOneRoot};
ghost use Rattle.tree_rewrite.specs.Plan.{RefusesPlan};
ghost use Rattle.tree_rewrite.specs.Pieces.{Say};
ghost use Rattle.tree_rewrite.specs.Changed.{AreChanged};
ghost use Rattle.tree_rewrite.specs.Fits.{new_fits, IsNode, RefusesRewrite};

use crate::change::Change;
use crate::changed::changed_of;
use crate::depth::deepest_first;
use crate::error::{ExecuteError, PlanError};
use crate::execute::make_all;
use crate::fill::push_standing;
use crate::green::{green_of, one_node};
use crate::held_ways::held_ways;
use crate::job::{Job, is_order};
use crate::kept::jobs_of;
use crate::lists::on_sheet;
use crate::mapped::MappedNodes;
use crate::overlay::Overlay;
use crate::piece::Piece;
use crate::tree_change::TreeChange;
use rowan_green::{GreenNode, TextRange};
use std::alloc::{AllocError, Global};
use std::marker::Model;
use syntax_tree::{SyntaxElement, SyntaxMapping, SyntaxNode};

/// A plan: the changes of a tree that are not discarded, with their target trees. Model: the tree,
/// and the planned changes in recorded order.
pub struct Plan {
    top: SyntaxNode,
    jobs: Vec<Job>,
}

// Not derived: a derived drop is opened field by field in each function that drops one.
impl Drop for Plan {
    fn drop(self) {
        let Plan {
            top: _top,
            jobs: _jobs,
        } = self;
    }
}

/// A tree with all changes of a plan applied.
#[derive(Drop)]
pub struct Rewritten {
    pub green: GreenNode,
    /// The ranges, in bytes of the new text, of the elements that outermost changes inserted, in
    /// preorder. A deletion has no range.
    pub changed: Vec<TextRange>,
    /// The pieces that the tree was built from. [`origins_of`](crate::origins::origins_of) returns
    /// the origin of each element, and whether an outermost change inserted it.
    pub pieces: Vec<Piece>,
}

impl Model for Plan {
    ghost use Rattle.std.specs.Coded.{codes};
    ghost use Rattle.rowan_green.specs.Forest.{tree_code};
    ghost use Rattle.tree_rewrite.specs.Plan.{Plan, AreDeeper, AreApart, KeepsTop};
    ghost use Rattle.std.specs.List.{All};

    ghost Value = { Plan };

    ghost coded = { Prim.hlevel (codes, tree_code) };

    ghost view = { λ p. record { top = p.top; jobs = p.jobs.items } };

    ghost invariant = { λ p. AreDeeper p.jobs.items × AreApart p.jobs.items
        × All KeepsTop p.jobs.items };
}

impl Plan {
    /// Plans the changes that were recorded on the tree of `root`, which must be a root. The ends
    /// of each replaced range must be in order. A change that replaces the root must replace it by
    /// one node.
    ///
    /// # Errors
    ///
    /// - [`PlanError::Intersecting`] if two changes replace the same element, discarded or not.
    /// - [`PlanError::MissingMapping`] if a change that is not discarded has no place in the
    ///   payload that contains it.
    /// - [`PlanError::NoMemory`] if an allocation fails.
    pub fn build(
        alloc: Global,
        root: &SyntaxNode,
        changes: Vec<Change>,
        mapping: &SyntaxMapping,
    ) -> Result<Plan, PlanError>
        requires top { root.now.place.up ≡ [] }
        requires ordered { All IsOrdered changes.items }
        requires root { All KeepsOneRoot changes.items }
        ensures top { IfOk result (λ p. p.top ≡ root.now) }
        ensures jobs { IfOk result (λ p. jobs root.now (map recorded changes.items) mapping.now
            ≡ Some p.jobs) }
        ensures apart { OnOk result (has_collision (map recorded changes.items) ≡ false) }
        ensures refused { IfErr result
            (RefusesPlan root.now (map recorded changes.items) mapping.now) }
    {
        let changes = tree_changes(alloc, changes)?;
        let Some(held) = held_ways(alloc, &changes)? else {
            return Err(PlanError::Intersecting);
        };
        let top = root.clone()?;
        let mapped = MappedNodes::new(alloc, mapping)?;
        match jobs_of(alloc, root, &changes, &held, &mapped)? {
            Some(jobs) => Ok(Plan { top, jobs }),
            None => Err(PlanError::MissingMapping),
        }
    }

    /// Returns the number of planned changes. They are numbered from 0, in recorded order.
    pub fn len(&self) -> usize
        ensures { result ≡ length self.now.jobs }
    {
        self.jobs.len()
    }

    /// Returns an admitted order: the changes of a payload come before the change that inserts it.
    pub fn order(&self, alloc: Global) -> Result<Vec<usize>, AllocError>
        ensures { IfOk result (λ order. is_order self.now.jobs order.items ≡ true) }
    {
        let order = deepest_first(alloc, &self.jobs)?;
        Ok(order)
    }

    /// Returns `true` if `order` is an admitted order: the indices of all planned changes, in an
    /// order in which they may be executed one at a time.
    pub fn is_order(&self, order: &[usize]) -> bool
        ensures { result ≡ is_order self.now.jobs order.now }
    {
        is_order(&self.jobs, order)
    }

    /// Returns the tree with all changes applied atomically. They are executed one at a time, in
    /// the admitted order `order`; every admitted order has the same result.
    ///
    /// # Errors
    ///
    /// - [`ExecuteError::TooLong`] if a new node would have 2^32 or more bytes of text, or 2^32 or
    ///   more children.
    /// - [`ExecuteError::NoMemory`] if an allocation fails.
    pub fn execute(self, alloc: Global, order: &[usize]) -> Result<Rewritten, ExecuteError>
        requires { is_order self.jobs order.now ≡ true }
        ensures green { IfOk result (λ r. IsNode (rewritten self.top (reverse self.jobs)) r.green) }
        ensures changed { IfOk result (λ r. AreChanged r.changed.items
            (rewritten self.top (reverse self.jobs))) }
        ensures says { IfOk result (λ r. Say r.pieces.items
            (rewritten self.top (reverse self.jobs))) }
        ensures fits { OnOk result (new_fits (rewritten self.top (reverse self.jobs)) ≡ true) }
        ensures refused { IfErr result (RefusesRewrite (rewritten self.top (reverse self.jobs))) }
    {
        let pieces = self.pieces(alloc, order)?;
        let elements = green_of(alloc, &pieces)?;
        let Some(green) = one_node(elements) else {
            unreachable!()
        };
        let _fits = green.text_len();
        let changed = changed_of(alloc, &pieces)?;
        Ok(Rewritten {
            green,
            changed,
            pieces,
        })
    }

    /// Returns the pieces of the tree with all changes applied atomically. They are executed one at
    /// a time, in the admitted order `order`.
    fn pieces(&self, alloc: Global, order: &[usize]) -> Result<Vec<Piece>, AllocError>
        requires { is_order self.now.jobs order.now ≡ true }
        ensures says { IfOk result
            (λ v. Say v.items (rewritten self.now.top (reverse self.now.jobs))) }
        ensures node { OnOk result ((t : Tree)
            × IsNode (rewritten self.now.top (reverse self.now.jobs)) t) }
    {
        let made = make_all(alloc, &self.jobs, order)?;
        let mut pieces = Vec::new(alloc);
        let _stands = self.top.cursor().green();
        let top = SyntaxElement::Node(self.top.clone()?);
        let overlay = Overlay::of_tree(alloc, &self.jobs, &made);
        let numbers = on_sheet(&overlay)?;
        push_standing(&overlay, &numbers, top, &mut pieces)?;
        Ok(pieces)
    }
}

/// Converts recorded changes to changes that name their elements by up-paths.
fn tree_changes(alloc: Global, changes: Vec<Change>) -> Result<Vec<TreeChange>, AllocError>
    requires { All IsOrdered changes.items }
    ensures changes { IfOk result (λ v. v.items ≡ map recorded changes.items) }
    ensures fits { IfOk result (λ v. All FitsRow v.items) }
{
    let mut made = Vec::new(alloc);
    for change in changes {
        made.push(change.into_tree_change(alloc)?)?;
    }
    Ok(made)
}
