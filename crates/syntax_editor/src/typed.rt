//! Editors of typed nodes.
ghost use Rattle.std.specs.Prelude.{◌≡◌, ◌≤◌, ◌+◌, IfOk, IfErr, OnOk};
ghost use Rattle.syntax_editor.specs.Editing.{untouched, IsEdited, next_number, RefusesEditor};

use crate::editor::SyntaxEditor;
use crate::make_error::MakeError;
use std::alloc::Global;
use syntax_tree::{AstNode, TreeIds};

impl SyntaxEditor {
    /// Returns an editor of the tree of a typed node, with nothing recorded, and the root of that
    /// tree, of the same type. A root is edited in its own tree; an inner node is cloned into a new
    /// tree, which gets the next number of `ids`.
    ///
    /// # Errors
    ///
    /// - [`MakeError::NoTreeNumber`] if `node` is not a root and no tree number is left.
    /// - [`MakeError::NoMemory`] if an allocation fails.
    ///
    /// [`MakeError::TooLong`] is never returned. On error the number of the copy may be used up;
    /// for a root, `ids` is unchanged.
    pub fn with_ast_node<T: AstNode>(
        alloc: Global,
        node: &T,
        ids: &mut TreeIds,
    ) -> Result<(SyntaxEditor, T), MakeError>
        ensures editor { IfOk result (λ r. r.0 ≡ untouched (T.stands r.1)) }
        ensures root { IfOk result (λ r. IsEdited (T.stands node.now) ids.old (T.stands r.1)) }
        ensures number { OnOk result (ids.new ≡ next_number (T.stands node.now).place.up ids.old) }
        ensures refused { IfErr result (RefusesEditor (T.stands node.now).place.up ids.old) }
        ensures forward { IfErr result (λ _. ids.old ≤ ids.new) }
        ensures within { IfErr result
            (λ _. ids.new ≤ next_number (T.stands node.now).place.up ids.old) }
    {
        let node = node.syntax().clone()?;
        let (editor, root) = SyntaxEditor::new(alloc, node, ids)?;
        Ok((editor, T::cast(root).unwrap()))
    }
}
