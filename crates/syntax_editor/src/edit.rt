//! Finished edits: the new tree, and how its elements relate to the old one.
ghost use Rattle.std.specs.Prelude.{◌≡◌, ◌+◌, ℕ, true, map, IfOk, IfErr, OnOk};
ghost use Rattle.syntax_tree.specs.Element.{element_at};
ghost use Rattle.syntax_tree.specs.Handle.{element_of};
ghost use Rattle.tree_rewrite.specs.Changed.{bounds};
ghost use Rattle.tree_rewrite.specs.Fits.{new_fits};
ghost use Rattle.tree_rewrite.specs.Marked.{Marked, changed};
ghost use Rattle.annotated_elements.specs.Annotated.{annotated, elements_at, elements_of};
ghost use Rattle.annotated_elements.specs.Changed.{ArePutMarks};
ghost use Rattle.annotated_elements.specs.Found.{AreOrigins};
ghost use Rattle.syntax_editor.specs.Edit.{of_annotation};
ghost use Rattle.syntax_editor.specs.Groups.{group_of};
ghost use Rattle.syntax_editor.specs.Inside as inside;
ghost use Rattle.syntax_editor.specs.Finished.{IsFinished};
ghost use Rattle.syntax_editor.specs.Rewriting.{rewriting, IsPlaceable, RefusesFinish};

use crate::annotation::SyntaxAnnotation;
use crate::editor::SyntaxEditor;
use crate::error::FinishError;
use crate::groups::{Groups, group_of, grouped};
use crate::rewriting::made;
use annotated_elements::annotated::annotated;
use annotated_elements::changed::changed;
use rowan_green::TextRange;
use std::alloc::{AllocError, Global};
use std::marker::Model;
use syntax_tree::{SyntaxElement, SyntaxMapping, SyntaxNode, TreeIds};
use tree_rewrite::origins::{Origins, origins_of};
use tree_rewrite::plan::Rewritten;

/// A tree before and after all recorded changes are applied.
pub struct SyntaxEdit {
    old_root: SyntaxNode,
    new_root: SyntaxNode,
    changed: Vec<TextRange>,
    origins: Vec<SyntaxElement>,
    changed_elements: Vec<SyntaxElement>,
    annotated: Vec<(SyntaxElement, SyntaxAnnotation)>,
    groups: Groups,
}

// Not derived: a derived drop is opened field by field in each function that drops one.
impl Drop for SyntaxEdit {
    fn drop(self) {
        let SyntaxEdit {
            old_root: _old_root,
            new_root: _new_root,
            changed: _changed,
            origins: _origins,
            changed_elements: _changed_elements,
            annotated: _annotated,
            groups: _groups,
        } = self;
    }
}

impl Model for SyntaxEdit {
    ghost use Rattle.std.specs.Prelude.{◌≡◌, ℕ, map};
    ghost use Rattle.std.specs.Coded.{codes};
    ghost use Rattle.rowan_green.specs.Forest.{tree_code};
    ghost use Rattle.syntax_tree.specs.Handle.{element_of};
    ghost use Rattle.tree_rewrite.specs.Changed.{bounds};
    ghost use Rattle.syntax_editor.specs.Edit.{Edit, of_annotation};
    ghost use Rattle.syntax_editor.specs.Groups.{group_of};
    ghost use Rattle.syntax_editor.specs.Inside as inside;

    ghost Value = { Edit };

    ghost coded = { Prim.hlevel (codes, tree_code) };

    ghost view = { λ e.
        record {
          old_root = e.old_root;
          new_root = e.new_root;
          changed = map bounds e.changed.items;
          origins = map element_of e.origins.items;
          changed_elements = map element_of e.changed_elements.items;
          annotated = map inside.annotated e.annotated.items;
        } };

    ghost invariant = { λ e. (n : ℕ) → map element_of (group_of e.groups n)
        ≡ of_annotation n (map inside.annotated e.annotated.items) };
}

impl SyntaxEdit {
    /// Returns the root of the old tree.
    pub fn old_root(&self) -> &SyntaxNode
        ensures { result.now ≡ self.now.old_root }
    {
        &self.old_root
    }

    /// Returns the root of the new tree, with all recorded changes applied.
    pub fn new_root(&self) -> &SyntaxNode
        ensures { result.now ≡ self.now.new_root }
    {
        &self.new_root
    }

    /// Returns the byte ranges of the new text that outermost changes inserted, in the order of the
    /// tree.
    pub fn changed(&self) -> &[TextRange]
        ensures { map bounds result.now ≡ self.now.changed }
    {
        &self.changed
    }

    /// Returns the origin of each element of the new tree, in preorder.
    pub fn origins(&self) -> &[SyntaxElement]
        ensures { map element_of result.now ≡ self.now.origins }
    {
        &self.origins
    }

    /// Returns the elements of the new tree that outermost changes inserted, in the order of the
    /// tree. A deletion has none.
    pub fn changed_elements(&self) -> &[SyntaxElement]
        ensures { map element_of result.now ≡ self.now.changed_elements }
    {
        &self.changed_elements
    }

    /// Returns the elements of the new tree that come from annotated ones, each with its
    /// annotation: by order of annotation, then of the tree.
    pub fn annotated(&self) -> &[(SyntaxElement, SyntaxAnnotation)]
        ensures { map inside.annotated result.now ≡ self.now.annotated }
    {
        &self.annotated
    }

    /// Returns the elements of [`SyntaxEdit::annotated`] with this annotation, in their order.
    pub fn find_annotation(&self, annotation: SyntaxAnnotation) -> &[SyntaxElement]
        ensures { map element_of result.now ≡ of_annotation annotation.number self.now.annotated }
    {
        group_of(&self.groups, annotation.number)
    }
}

/// The changed and the annotated elements of a rewritten tree.
#[derive(Drop)]
pub(crate) struct Told {
    changed_elements: Vec<SyntaxElement>,
    annotated: Vec<(SyntaxElement, SyntaxAnnotation)>,
    groups: Groups,
}

impl Told {
    /// Collects the changed and the annotated elements of the tree of `root`, whose elements have
    /// the origins `origins`.
    pub(crate) fn of(
        alloc: Global,
        mapping: &SyntaxMapping,
        annotations: &[(SyntaxElement, SyntaxAnnotation)],
        root: &SyntaxNode,
        origins: &Origins,
    ) -> Result<Told, AllocError>
        ensures changed { (m : Marked) → ArePutMarks m root.now origins.now.put.items → IfOk result
            (λ t. map element_of t.changed_elements.items
            ≡ map (element_at root.now.number root.now.place.root) (changed m)) }
        ensures annotated { (m : Marked)
            → AreOrigins m root.now (map element_of origins.now.elements.items)
            → IfOk result
            (λ t. elements_of t.annotated.items
            ≡ elements_at root.now (annotated mapping.now (elements_of annotations.now) m)) }
        ensures groups { IfOk result (λ t. (n : ℕ) →
            map element_of (group_of t.groups n)
            ≡ of_annotation n (map inside.annotated t.annotated.items)) }
    {
        let changed_elements = changed(alloc, root, &origins.put)?;
        let annotated = annotated(alloc, mapping, annotations, root, &origins.elements)?;
        let groups = grouped(alloc, &annotated)?;
        Ok(Told {
            changed_elements,
            annotated,
            groups,
        })
    }
}

impl SyntaxEditor {
    /// Applies all recorded changes, and returns the edit, whose new tree gets the next number of
    /// `ids`.
    ///
    /// # Errors
    ///
    /// - [`FinishError::Intersecting`] if two changes replace one element.
    /// - [`FinishError::MissingMapping`] if a change in a node that is replaced by a node has no
    ///   place in that.
    /// - [`FinishError::TooLong`] if a node of the new tree would have a text of 2^32 bytes or
    ///   more, or 2^32 children or more.
    /// - [`FinishError::NoTreeNumber`] if no tree number is left.
    /// - [`FinishError::NoMemory`] if an allocation fails.
    ///
    /// On error, `ids` is unchanged.
    pub fn finish(self, alloc: Global, ids: &mut TreeIds) -> Result<SyntaxEdit, FinishError>
        ensures placeable { OnOk result (IsPlaceable self) }
        ensures finished { IfOk result (λ r. IsFinished self ids.old r) }
        ensures fits { OnOk result (new_fits (rewriting self) ≡ true) }
        ensures number { OnOk result (ids.new ≡ ids.old + 1) }
        ensures refused { IfErr result (RefusesFinish self ids.old) }
        ensures kept { IfErr result (λ _. ids.new ≡ ids.old) }
    {
        let SyntaxEditor {
            root: old_root,
            changes,
            mapping,
            annotations,
            ..
        } = self;
        let Rewritten {
            green,
            changed,
            pieces,
        } = made(alloc, &old_root, changes, &mapping)?;
        let origins = origins_of(alloc, &pieces)?;
        let new_root = SyntaxNode::new_root(alloc, green, ids)?;
        let Ok(told) = Told::of(alloc, &mapping, &annotations, &new_root, &origins) else {
            // (nothing has the number, so it is the next one again)
            *ids = TreeIds::starting_at(new_root.tree());
            return Err(FinishError::NoMemory);
        };
        let Told {
            changed_elements,
            annotated,
            groups,
        } = told;
        let Origins {
            elements: origins,
            put: _put,
        } = origins;
        Ok(SyntaxEdit {
            old_root,
            new_root,
            changed,
            origins,
            changed_elements,
            annotated,
            groups,
        })
    }
}
