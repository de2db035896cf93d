//! Merging of editors of one tree.
ghost use Rattle.std.specs.Prelude.{◌≡◌, ◌↔◌, IsTrue, IfErr, OnOk, OnErr};
ghost use Rattle.syntax_editor.specs.Editing.{merged};
ghost use Rattle.syntax_editor.specs.Inside.{IsOf};
ghost use Rattle.syntax_editor.specs.Refusal.{RefusesMerge};

use crate::editor::SyntaxEditor;
use crate::error::MergeError;
use std::alloc::AllocError;

/// An editor that was not merged, unchanged, and the error.
#[derive(Drop)]
pub struct Unmerged {
    pub editor: SyntaxEditor,
    pub error: MergeError,
}

impl SyntaxEditor {
    /// Returns `true` if `other` is an editor of the same tree: same number, same green tree.
    fn has_tree_of(&self, other: &SyntaxEditor) -> bool
        ensures { IsTrue result ↔ IsOf self.now.top other.now.top }
    {
        other.root.tree() == self.root.tree()
            && *other.root.cursor().green() == *self.root.cursor().green()
    }

    /// Appends all that `other`, an editor of the same tree, has recorded. On error, both are
    /// unchanged.
    fn take_all_of(&mut self, other: &mut SyntaxEditor) -> Result<(), AllocError>
        requires { IsOf self.old.top other.old.top }
        ensures ok { OnOk result (self.new ≡ merged self.old other.old) }
        ensures err { OnErr result (self.new ≡ self.old) }
        ensures kept { OnErr result (other.new ≡ other.old) }
    {
        self.changes.try_reserve(other.changes.len())?;
        self.annotations.try_reserve(other.annotations.len())?;
        self.mapping.append(&mut other.mapping)?;
        // (there is room for both)
        self.changes.append(&mut other.changes)?;
        self.annotations.append(&mut other.annotations)?;
        other.singles.clear();
        other.noted = 0;
        Ok(())
    }

    /// Appends all that `other`, an editor of the same tree, has recorded to what this editor has.
    ///
    /// # Errors
    ///
    /// - [`MergeError::Foreign`] if `other` is of another tree: the number or the green tree
    ///   differs.
    /// - [`MergeError::NoMemory`] if an allocation fails.
    ///
    /// On error, the editor is unchanged, and `other` is returned unchanged.
    pub fn merge(&mut self, other: SyntaxEditor) -> Result<(), Unmerged>
        ensures ok { OnOk result (self.new ≡ merged self.old other) }
        ensures same { OnOk result (IsOf self.old.top other.top) }
        ensures err { OnErr result (self.new ≡ self.old) }
        ensures back { IfErr result (λ r. r.editor ≡ other) }
        ensures refused { IfErr result (λ r. RefusesMerge self.old.top other.top r.error) }
    {
        let mut editor = other;
        if !self.has_tree_of(&editor) {
            let error = MergeError::Foreign;
            return Err(Unmerged { editor, error });
        }
        match self.take_all_of(&mut editor) {
            Ok(()) => Ok(()),
            Err(_) => {
                let error = MergeError::NoMemory;
                Err(Unmerged { editor, error })
            }
        }
    }
}
