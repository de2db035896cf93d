//! Annotated elements of a rewritten tree.
ghost use Rattle.std.specs.Prelude.{◌≡◌, ◌↔◌, [], false, map, IfOk};
ghost use Rattle.syntax_tree.specs.Handle.{element_of};
ghost use Rattle.annotated_elements.specs.Found.{AreOrigins};
ghost use Rattle.syntax_editor.specs.Again.{annotated_at, found_again};
ghost use Rattle.syntax_editor.specs.Inside.{annotated};
ghost use Rattle.syntax_editor.specs.Rewriting.{rewriting};

use crate::annotation::SyntaxAnnotation;
use crate::editor::SyntaxEditor;
use annotated_elements::annotated::annotated;
use std::alloc::{AllocError, Global};
use syntax_tree::{SyntaxElement, SyntaxNode};

impl SyntaxEditor {
    /// Returns `true` if an element is annotated.
    pub fn is_annotated(&self) -> bool
        ensures { (result ≡ false) ↔ (self.now.annotations ≡ []) }
    {
        !self.annotations.is_empty()
    }

    /// Returns the elements of the rewritten tree that come from annotated ones, each with its
    /// annotation: by order of annotation, then of the tree. An annotated element is followed by
    /// the mapping to its end, and found at each element that was copied from there.
    ///
    /// `root` is the root of the edited tree with all recorded changes applied, as `rewritten`
    /// returns it. `origins` are the origins of its elements in preorder, as `origins_of` returns
    /// them for its pieces.
    pub fn annotated_in(
        &self,
        alloc: Global,
        root: &SyntaxNode,
        origins: &[SyntaxElement],
    ) -> Result<Vec<(SyntaxElement, SyntaxAnnotation)>, AllocError>
        ensures { AreOrigins (rewriting self.now) root.now (map element_of origins.now)
            → IfOk result (λ v. map annotated v.items
            ≡ map (annotated_at root.now) (found_again self.now)) }
    {
        annotated(alloc, &self.mapping, &self.annotations, root, origins)
    }
}
