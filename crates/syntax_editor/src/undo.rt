//! Undoing recorded deletions.
ghost use Rattle.std.specs.Prelude.{◌≡◌, [], List, map, IfOk, IfErr, OnOk};
ghost use Rattle.std.specs.List.{All};
ghost use Rattle.syntax_tree.specs.Element.{Element};
ghost use Rattle.syntax_tree.specs.Handle.{element_of};
ghost use Rattle.tree_rewrite.specs.Change as specs;
ghost use Rattle.tree_rewrite.specs.Recorded.{recorded};
ghost use Rattle.syntax_editor.specs.Editing.{with_changes};
ghost use Rattle.syntax_editor.specs.Inside.{IsSound};
ghost use Rattle.syntax_editor.specs.Recording.{Recorded, replacing};
ghost use Rattle.syntax_editor.specs.Refusal.{RefusesRecord};
ghost use Rattle.syntax_editor.specs.Undo.{undone, all_undone, IsWithin, AreWithin, IsSoundUndo, Undoes, IsUndoOf};

use crate::editor::SyntaxEditor;
use crate::error::RecordError;
use crate::recorded::copy;
use std::alloc::{AllocError, Global};
use std::mem;
use syntax_tree::SyntaxElement;
use tree_rewrite::change::Change;

/// A step that undoes a recorded deletion.
#[derive(Drop)]
pub(crate) enum Undo {
    /// Removes the last change.
    Remove,
    /// Restores the change with this index.
    Restore(usize, Change),
}

/// Undoes one deletion.
fn apply(changes: &mut Vec<Change>, undo: Undo)
    requires { IsWithin undo (map recorded changes.old.items) }
    ensures undone { map recorded changes.new.items ≡ undone undo (map recorded changes.old.items) }
    ensures sound { (top : Element) → IsSoundUndo top undo → All (IsSound top) changes.old.items
        → All (IsSound top) changes.new.items }
{
    match undo {
        Undo::Remove => drop(changes.pop()),
        Undo::Restore(index, change) => drop(mem::replace(&mut changes[index], change)),
    }
}

/// Undoes deletions, the last first.
fn apply_all(changes: &mut Vec<Change>, undos: Vec<Undo>)
    requires { AreWithin undos.items (map recorded changes.old.items) }
    ensures undone { map recorded changes.new.items
        ≡ all_undone undos.items (map recorded changes.old.items) }
    ensures sound { (top : Element) → All (IsSoundUndo top) undos.items
        → All (IsSound top) changes.old.items
        → All (IsSound top) changes.new.items }
{
    let mut undos = undos;
    while let Some(undo) = undos.pop() {
        apply(changes, undo);
    }
}

impl SyntaxEditor {
    /// Returns the step that will undo a deletion of `element`, which is not recorded yet.
    fn undo_of(&mut self, alloc: Global, element: &SyntaxElement) -> Result<Undo, AllocError>
        ensures undo { IfOk result
            (λ u. IsUndoOf (element_of element.now).place.up self.old.changes u) }
        ensures sound { IfOk result (λ u. IsSoundUndo self.old.top u) }
        ensures same { self.new ≡ self.old }
    {
        let Some(index) = self.first_single(element)? else {
            return Ok(Undo::Remove);
        };
        let change = copy(alloc, &self.changes[index])?;
        Ok(Undo::Restore(index, change))
    }

    /// Records that an element is deleted, as `delete` does, and appends the step that undoes this.
    /// On error, the editor and `undos` are unchanged.
    pub(crate) fn delete_with_undo(
        &mut self,
        alloc: Global,
        element: &SyntaxElement,
        undos: &mut Vec<Undo>,
    ) -> Result<(), RecordError>
        ensures recorded { OnOk result (replacing self.old (element_of element.now) []
            ≡ Recorded self.new.changes) }
        ensures rest { OnOk result (self.new ≡ with_changes self.old self.new.changes) }
        ensures undoes { OnOk result
            ((old : List specs.Change) → Undoes self.old.top undos.old.items self.old.changes old
            → Undoes self.old.top undos.new.items self.new.changes old) }
        ensures refused { IfErr result
            (RefusesRecord (replacing self.old (element_of element.now) [])) }
        ensures kept { IfErr result (λ _. self.new ≡ self.old) }
        ensures undos { IfErr result (λ _. undos.new.items ≡ undos.old.items) }
    {
        let undo = self.undo_of(alloc, element)?;
        undos.push(undo)?;
        match self.delete(alloc, element) {
            Ok(()) => Ok(()),
            Err(error) => {
                drop(undos.pop());
                Err(error)
            }
        }
    }

    /// Undoes deletions, the last first. The next call that looks up a change of one element notes
    /// all changes again.
    pub(crate) fn undo_all(&mut self, undos: Vec<Undo>)
        requires within { AreWithin undos.items self.old.changes }
        requires sound { All (IsSoundUndo self.old.top) undos.items }
        ensures { self.new ≡ with_changes self.old (all_undone undos.items self.old.changes) }
    {
        self.singles.clear();
        self.noted = 0;
        apply_all(&mut self.changes, undos);
    }
}
