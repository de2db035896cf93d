//! The recorded changes of an editor, for whoever decides on them before they are applied.
ghost use Rattle.std.specs.Prelude.{◌≡◌, [], map, IfOk};
ghost use Rattle.std.specs.List.{All};
ghost use Rattle.tree_rewrite.specs.Change.{has_collision};
ghost use Rattle.tree_rewrite.specs.Recorded.{recorded};
ghost use Rattle.syntax_editor.specs.Inside.{IsSound};

use crate::editor::SyntaxEditor;
use crate::recorded::copied;
use std::alloc::{AllocError, Global};
use tree_rewrite::change::Change;
use tree_rewrite::error::PlanError;
use tree_rewrite::plan::Plan;

impl SyntaxEditor {
    /// Returns the recorded changes, the first recorded first. It allocates nothing.
    pub fn changes(&self) -> &[Change]
        ensures recorded { map recorded result.now ≡ self.now.changes }
        ensures top { self.now.top.place.up ≡ [] }
        ensures sound { All (IsSound self.now.top) result.now }
    {
        &self.changes
    }

    /// Returns `true` if two of the recorded changes replace one element.
    ///
    /// # Errors
    ///
    /// [`AllocError`] if an allocation fails.
    pub fn has_collision(&self, alloc: Global) -> Result<bool, AllocError>
        ensures { IfOk result (λ b. b ≡ has_collision self.now.changes) }
    {
        let changes = copied(alloc, &self.changes)?;
        match Plan::build(alloc, &self.root, changes, &self.mapping) {
            Ok(_) | Err(PlanError::MissingMapping) => Ok(false),
            Err(PlanError::Intersecting) => Ok(true),
            Err(PlanError::NoMemory) => Err(AllocError),
        }
    }
}
