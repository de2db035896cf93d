//! The edited tree with all recorded changes applied.
ghost use Rattle.std.specs.Prelude.{◌≡◌, ◌+◌, [], true, IfOk, IfErr, OnOk};
ghost use Rattle.std.specs.List.{All};
ghost use Rattle.tree_rewrite.specs.Changed.{AreChanged};
ghost use Rattle.tree_rewrite.specs.Fits.{IsNode, new_fits};
ghost use Rattle.tree_rewrite.specs.Pieces.{Say};
ghost use Rattle.tree_rewrite.specs.Recorded.{IsOrdered, KeepsOneRoot};
ghost use Rattle.syntax_editor.specs.Inside.{editing_of};
ghost use Rattle.syntax_editor.specs.Rewriting.{rewriting, IsPlaceable, RefusesRewriting};

use crate::editor::SyntaxEditor;
use crate::error::RewriteError;
use crate::recorded::copied;
use std::alloc::Global;
use syntax_tree::{SyntaxMapping, SyntaxNode};
use tree_rewrite::change::Change;
use tree_rewrite::error::ExecuteError;
use tree_rewrite::plan::{Plan, Rewritten};

impl SyntaxEditor {
    /// Returns the tree with all recorded changes applied, the ranges that changed in it, and the
    /// pieces that it was made of, from which the origin of each of its elements follows.
    ///
    /// # Errors
    ///
    /// - [`RewriteError::Intersecting`] if two changes replace one element.
    /// - [`RewriteError::MissingMapping`] if a change in a node that is replaced by a node has no
    ///   place in that.
    /// - [`RewriteError::TooLong`] if a node of the new tree would have a text of 2^32 bytes or
    ///   more, or 2^32 children or more.
    /// - [`RewriteError::NoMemory`] if an allocation fails.
    pub fn rewritten(&self, alloc: Global) -> Result<Rewritten, RewriteError>
        ensures placeable { OnOk result (IsPlaceable self.now) }
        ensures green { IfOk result (λ r. IsNode (rewriting self.now) r.green) }
        ensures changed { IfOk result (λ r. AreChanged r.changed.items (rewriting self.now)) }
        ensures says { IfOk result (λ r. Say r.pieces.items (rewriting self.now)) }
        ensures fits { OnOk result (new_fits (rewriting self.now) ≡ true) }
        ensures refused { IfErr result (RefusesRewriting self.now) }
    {
        let changes = copied(alloc, &self.changes)?;
        made(alloc, &self.root, changes, &self.mapping)
    }
}

/// Returns the tree of `root` with all of `changes` applied, the ranges that changed in it, and the
/// pieces that it was made of.
pub(crate) fn made(
    alloc: Global,
    root: &SyntaxNode,
    changes: Vec<Change>,
    mapping: &SyntaxMapping,
) -> Result<Rewritten, RewriteError>
    requires top { root.now.place.up ≡ [] }
    requires ordered { All IsOrdered changes.items }
    requires root { All KeepsOneRoot changes.items }
    ensures placeable { OnOk result (IsPlaceable (editing_of root.now changes.items mapping.now)) }
    ensures green { IfOk result (λ r. IsNode
        (rewriting (editing_of root.now changes.items mapping.now)) r.green) }
    ensures changed { IfOk result (λ r. AreChanged r.changed.items
        (rewriting (editing_of root.now changes.items mapping.now))) }
    ensures says { IfOk result (λ r. Say r.pieces.items
        (rewriting (editing_of root.now changes.items mapping.now))) }
    ensures fits { OnOk result (new_fits (rewriting (editing_of root.now changes.items mapping.now))
        ≡ true) }
    ensures refused { IfErr result
        (RefusesRewriting (editing_of root.now changes.items mapping.now)) }
{
    let plan = Plan::build(alloc, root, changes, mapping)?;
    let order = plan.order(alloc)?;
    match plan.execute(alloc, &order) {
        Ok(rewritten) => Ok(rewritten),
        Err(ExecuteError::TooLong) => Err(RewriteError::TooLong),
        Err(ExecuteError::NoMemory) => Err(RewriteError::NoMemory),
    }
}
