//! Editors, which record changes on a tree.
ghost use Rattle.std.specs.Prelude.{◌≡◌, ◌≤◌, ◌<◌, ◌+◌, length, get_or, set, ◌++◌, ◌∷◌, [], map, IfOk, IfErr, OnOk, OnErr};
ghost use Rattle.std.specs.Borrow.{sem};
ghost use Rattle.syntax_tree.specs.Element.{Way, Element};
ghost use Rattle.syntax_tree.specs.Handle.{element_of};
ghost use Rattle.tree_rewrite.specs.Change.{IsOneNode};
ghost use Rattle.tree_rewrite.specs.Recorded.{recorded};
ghost use Rattle.syntax_editor.specs.Editing.{with_annotation, with_annotated, untouched, with_changes, IsEdited, next_number, RefusesEditor};
ghost use Rattle.syntax_editor.specs.Recording.{is_single_at, over, with_single, is_deleted};
ghost use Rattle.syntax_editor.specs.Inside.{IsOf, IsSound, annotated};
ghost use Rattle.syntax_editor.specs.Lending.{LendsMapping};
ghost use Rattle.syntax_editor.specs.Noted.{first_single};
ghost use Rattle.syntax_editor.specs.ByWay.{way_of};

use crate::annotation::{SyntaxAnnotation, marked};
use crate::by_way::{Singles, number_at};
use crate::factory::{FACTORY, SyntaxFactory};
use crate::make_error::MakeError;
use crate::noted::{is_deleted, note_all};
use crate::recorded::puts_nothing;
use std::alloc::{AllocError, Global};
use std::collections::HashMap;
use std::marker::Model;
use std::mem;
use syntax_tree::{Element, SyntaxElement, SyntaxMapping, SyntaxNode, TreeIds};
use tree_rewrite::change::Change;

/// The changes, mapped nodes and annotated elements that are recorded on a tree.
///
/// Model: the root of the tree; and the changes, the mapped nodes and the annotated elements in the
/// order in which they were recorded.
#[derive(Drop)]
pub struct SyntaxEditor {
    pub(crate) root: SyntaxNode,
    pub(crate) changes: Vec<Change>,
    pub(crate) mapping: SyntaxMapping,
    pub(crate) annotations: Vec<(SyntaxElement, SyntaxAnnotation)>,
    /// Of the first `noted` changes: the index of the first change of each element that was named
    /// alone, by the path of the element.
    pub(crate) singles: Singles,
    pub(crate) noted: usize,
}

impl Model for SyntaxEditor {
    ghost use Rattle.std.specs.Prelude.{◌≡◌, [], map};
    ghost use Rattle.std.specs.List.{All};
    ghost use Rattle.std.specs.Coded.{codes};
    ghost use Rattle.rowan_green.specs.Forest.{tree_code};
    ghost use Rattle.tree_rewrite.specs.Change.{IsOneNode};
    ghost use Rattle.tree_rewrite.specs.Recorded.{recorded};
    ghost use Rattle.syntax_editor.specs.Editing.{Editing};
    ghost use Rattle.syntax_editor.specs.Inside.{IsSound, annotated};
    ghost use Rattle.syntax_editor.specs.Noted.{AreNoted};

    ghost Value = { Editing };

    ghost coded = { Prim.hlevel (codes, tree_code) };

    ghost view = { λ e.
        record {
          top = e.root;
          changes = map recorded e.changes.items;
          mapping = e.mapping;
          annotations = map annotated e.annotations.items;
        } };

    ghost invariant = { λ e. (e.root.place.up ≡ []) × All (IsSound e.root) e.changes.items
        × AreNoted e.singles e.noted (map recorded e.changes.items) };
}

impl SyntaxEditor {
    /// Returns an editor of the tree of `root`, with nothing recorded.
    pub fn of_root(alloc: Global, root: SyntaxNode) -> SyntaxEditor
        requires { root.place.up ≡ [] }
        ensures { result ≡ untouched root }
    {
        SyntaxEditor {
            root,
            changes: Vec::new(alloc),
            mapping: SyntaxMapping::new(alloc),
            annotations: Vec::new(alloc),
            singles: HashMap::new(alloc),
            noted: 0,
        }
    }

    /// Returns an editor of the tree of `node`, with nothing recorded, and the root of that tree. A
    /// root is edited in its own tree; an inner node is cloned into a new tree, which gets the next
    /// number of `ids`.
    ///
    /// # Errors
    ///
    /// - [`MakeError::NoTreeNumber`] if `node` is not a root and no tree number is left.
    /// - [`MakeError::NoMemory`] if an allocation fails.
    ///
    /// [`MakeError::TooLong`] is never returned. On error the number of the copy may be used up;
    /// for a root, `ids` is unchanged.
    pub fn new(
        alloc: Global,
        node: SyntaxNode,
        ids: &mut TreeIds,
    ) -> Result<(SyntaxEditor, SyntaxNode), MakeError>
        ensures editor { IfOk result (λ r. r.0 ≡ untouched r.1) }
        ensures root { IfOk result (λ r. IsEdited node ids.old r.1) }
        ensures number { OnOk result (ids.new ≡ next_number node.place.up ids.old) }
        ensures refused { IfErr result (RefusesEditor node.place.up ids.old) }
        ensures forward { IfErr result (λ _. ids.old ≤ ids.new) }
        ensures within { IfErr result (λ _. ids.new ≤ next_number node.place.up ids.old) }
    {
        let root = match node.parent()? {
            None => node,
            Some(_) => node.clone_subtree(alloc, ids)?,
        };
        let copy = root.clone()?;
        Ok((SyntaxEditor::of_root(alloc, root), copy))
    }

    /// Returns the root of the tree, which stays unchanged.
    pub fn root(&self) -> &SyntaxNode
        ensures root { result.now ≡ self.now.top }
        ensures top { result.now.place.up ≡ [] }
    {
        &self.root
    }

    /// Returns the factory of tokens to be inserted.
    pub fn make(&self) -> &SyntaxFactory {
        &FACTORY
    }

    /// Returns the mapping of nodes of replaced trees.
    pub fn mappings(&mut self) -> &mut SyntaxMapping
        ensures* writes_back { sem 𝓛 (LendsMapping self.entry result) }
        ensures value { result.now ≡ self.old.mapping }
    {
        &mut self.mapping
    }

    /// Records that `element`, of any tree, is annotated. On error, the editor is unchanged.
    pub fn add_annotation<E: Element>(
        &mut self,
        element: E,
        annotation: SyntaxAnnotation,
    ) -> Result<(), AllocError>
        ensures ok { OnOk result (self.new ≡ with_annotated self.old
            (with_annotation annotation.number (element_of (E.element element)) ∷ [])) }
        ensures err { OnErr result (self.new ≡ self.old) }
    {
        let element = element.syntax_element()?;
        self.annotations.push((element, annotation))?;
        Ok(())
    }

    /// Records that `elements`, of any tree, are annotated, in their order. On error, the editor is
    /// unchanged.
    pub fn add_annotation_all(
        &mut self,
        alloc: Global,
        elements: &[SyntaxElement],
        annotation: SyntaxAnnotation,
    ) -> Result<(), AllocError>
        ensures ok { OnOk result (self.new ≡ with_annotated self.old
            (map (with_annotation annotation.number) (map element_of elements.now))) }
        ensures err { OnErr result (self.new ≡ self.old) }
    {
        let mut marked = marked(alloc, elements, annotation)?;
        self.annotations.append(&mut marked)?;
        Ok(())
    }

    /// Returns `true` if a deletion of just this element is recorded. It allocates nothing.
    pub fn deleted(&self, element: &SyntaxElement) -> bool
        ensures { result ≡ is_deleted self.now (element_of element.now) }
    {
        element.tree() == self.root.tree()
            && is_deleted(element, &self.changes, self.noted, &self.singles)
    }

    /// Appends a change. On error, the editor is unchanged.
    pub(crate) fn push(&mut self, change: Change) -> Result<(), AllocError>
        requires { IsSound self.old.top change }
        ensures ok { OnOk result (self.new
            ≡ with_changes self.old (self.old.changes ++ recorded change ∷ [])) }
        ensures err { OnErr result (self.new ≡ self.old) }
    {
        self.changes.push(change)?;
        Ok(())
    }

    /// Returns the index of the first change of the element that has the path of `element`, named
    /// alone, if any.
    pub(crate) fn first_single(
        &mut self,
        element: &SyntaxElement,
    ) -> Result<Option<usize>, AllocError>
        ensures number { IfOk result (λ n. n ≡ first_single (way_of element.now) self.old.changes) }
        ensures same { self.new ≡ self.old }
    {
        note_all(&self.changes, &mut self.noted, &mut self.singles)?;
        Ok(number_at(&self.singles, element))
    }

    /// Records that an element of the tree, named alone, becomes `new`. This replaces a recorded
    /// change of it alone, unless that is a deletion. On error, the editor is unchanged.
    pub(crate) fn put_alone(
        &mut self,
        old: SyntaxElement,
        new: Vec<SyntaxElement>,
    ) -> Result<(), AllocError>
        requires own { IsOf self.old.top (element_of old) }
        requires keeps { (element_of old).place.up ≡ [] → IsOneNode (map element_of new.items) }
        ensures ok { OnOk result (self.new ≡ with_changes self.old
            (with_single self.old.changes (element_of old).place.up (map element_of new.items))) }
        ensures err { OnErr result (self.new ≡ self.old) }
    {
        let number = self.first_single(&old)?;
        let last = old.clone()?;
        let change = Change::Replace {
            first: old,
            last,
            new,
            single: true,
        };
        match number {
            None => self.push(change),
            Some(number) => {
                self.put_over(number, change);
                Ok(())
            }
        }
    }

    /// Replaces the change with this index by `change`, unless it is a deletion.
    fn put_over(&mut self, number: usize, change: Change)
        requires within { number < length self.old.changes }
        requires sound { IsSound self.old.top change }
        requires single { (w : Way) →
            is_single_at w (recorded change)
            ≡ is_single_at w (get_or self.old.changes number (recorded change)) }
        ensures { self.new ≡ with_changes self.old
            (set self.old.changes number
            (over (get_or self.old.changes number (recorded change)) (recorded change))) }
    {
        if !puts_nothing(&self.changes[number]) {
            drop(mem::replace(&mut self.changes[number], change));
        }
    }
}
