//! Nodes without their attributes and their documentation.
ghost use Rattle.std.specs.Prelude.{◌≡◌, ◌++◌, [], ◌∷◌, map, true, if◌then◌else◌, IfOk, IfErr, OnOk};
ghost use Rattle.syntax_tree.specs.Handle.{element_of};
ghost use Rattle.syntax_editor.specs.Attrs.{is_attr_or_doc, goes, attrs_and_docs, deleting_each, removing_attrs};
ghost use Rattle.syntax_editor.specs.Editing.{with_changes};
ghost use Rattle.syntax_editor.specs.Recording.{Recorded, is_target};
ghost use Rattle.syntax_editor.specs.Refusal.{RefusesRecord};

use crate::editor::SyntaxEditor;
use crate::error::RecordError;
use crate::nodes::HasAttrs;
use crate::target::{raw_kind, target};
use crate::whitespace::is;
use parser_input::SyntaxKind;
use std::alloc::{AllocError, Global};
use syntax_tree::{SyntaxElement, SyntaxNode};

/// Returns `true` if elements of this raw kind are attributes or comments.
fn is_attr_or_doc(kind: u16) -> bool
    ensures { result ≡ is_attr_or_doc kind }
{
    is(kind, SyntaxKind::ATTR) || is(kind, SyntaxKind::COMMENT)
}

/// Returns `true` if an element of this raw kind is removed; `after`: it is right after an
/// attribute or a comment.
fn goes(after: bool, kind: u16) -> bool
    ensures { result ≡ goes after kind }
{
    is_attr_or_doc(kind) || (after && is(kind, SyntaxKind::WHITESPACE))
}

/// Appends `element` if `goes`.
fn push_if(
    goes: bool,
    elements: &mut Vec<SyntaxElement>,
    element: SyntaxElement,
) -> Result<(), AllocError>
    ensures { OnOk result (elements.new.items
        ≡ (if goes then elements.old.items ++ element ∷ [] else elements.old.items)) }
{
    if goes {
        elements.push(element)?;
    }
    Ok(())
}

/// Returns the attributes and comments among the children of a node, and the whitespace right after
/// them.
fn attrs_and_docs(alloc: Global, node: &SyntaxNode) -> Result<Vec<SyntaxElement>, AllocError>
    ensures { IfOk result (λ v. v.items ≡ attrs_and_docs node.now) }
{
    let mut gone = Vec::new(alloc);
    let mut after = false;
    for child in node.children_with_tokens(alloc)? {
        let child = child?;
        let kind = raw_kind(&child);
        push_if(goes(after, kind), &mut gone, child)?;
        after = is_attr_or_doc(kind);
    }
    Ok(gone)
}

impl SyntaxEditor {
    /// Records that each of `elements` is deleted, in their order. On error, the editor is
    /// unchanged.
    fn delete_each(&mut self, alloc: Global, elements: &[SyntaxElement]) -> Result<(), RecordError>
        ensures recorded { OnOk result (deleting_each self.old (map element_of elements.now)
            ≡ Recorded self.new.changes) }
        ensures rest { OnOk result (self.new ≡ with_changes self.old self.new.changes) }
        ensures refused { IfErr result
            (RefusesRecord (deleting_each self.old (map element_of elements.now))) }
        ensures kept { IfErr result (λ _. self.new ≡ self.old) }
    {
        let mut undos = Vec::new(alloc);
        for element in elements {
            if let Err(error) = self.delete_with_undo(alloc, element, &mut undos) {
                self.undo_all(undos);
                return Err(error);
            }
        }
        Ok(())
    }

    /// Returns `true` if `node` is in the edited tree.
    fn has(&self, alloc: Global, node: &SyntaxNode) -> Result<bool, AllocError>
        ensures { IfOk result (λ b. b ≡ is_target self.now.top node.now) }
    {
        let element = SyntaxElement::Node(node.clone()?);
        Ok(target(alloc, &self.root, &element)?.is_some())
    }

    /// Records that the attributes and comments among the children of a node are deleted, and the
    /// whitespace right after them. On error, the editor is unchanged.
    fn remove_attrs(&mut self, alloc: Global, node: &SyntaxNode) -> Result<(), RecordError>
        ensures recorded { OnOk result
            (removing_attrs self.old node.now ≡ Recorded self.new.changes) }
        ensures rest { OnOk result (self.new ≡ with_changes self.old self.new.changes) }
        ensures refused { IfErr result (RefusesRecord (removing_attrs self.old node.now)) }
        ensures kept { IfErr result (λ _. self.new ≡ self.old) }
    {
        if !self.has(alloc, node)? {
            return Err(RecordError::Foreign);
        }
        let gone = attrs_and_docs(alloc, node)?;
        self.delete_each(alloc, &gone)
    }
}

/// Typed nodes whose attributes and documentation can be removed.
pub trait AttrsOwnerEdit: HasAttrs {
    /// Records on `editor` that each attribute and each comment among the children of the node is
    /// deleted, and whitespace right after one of those, each as [`SyntaxEditor::delete`] does.
    ///
    /// # Errors
    ///
    /// - [`RecordError::Foreign`] if the node, or one of those, is not in the edited tree.
    /// - [`RecordError::NoMemory`] if an allocation fails.
    ///
    /// On error, `editor` is unchanged.
    fn remove_attrs_and_docs(
        &self,
        alloc: Global,
        editor: &mut SyntaxEditor,
    ) -> Result<(), RecordError>
        ensures recorded { OnOk result (removing_attrs editor.old (Self.stands self.now)
            ≡ Recorded editor.new.changes) }
        ensures rest { OnOk result (editor.new ≡ with_changes editor.old editor.new.changes) }
        ensures refused { IfErr result
            (RefusesRecord (removing_attrs editor.old (Self.stands self.now))) }
        ensures kept { IfErr result (λ _. editor.new ≡ editor.old) }
    {
        editor.remove_attrs(alloc, self.syntax())
    }
}

impl<N: HasAttrs> AttrsOwnerEdit for N {}
