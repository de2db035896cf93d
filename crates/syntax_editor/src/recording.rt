//! Calls that record changes.
ghost use Rattle.std.specs.Prelude.{◌≡◌, ◌++◌, [], ◌∷◌, List, map, None, IfOk, IfErr, OnOk, OnErr, IfSome};
ghost use Rattle.syntax_tree.specs.Element.{Element};
ghost use Rattle.syntax_tree.specs.Handle.{element_of};
ghost use Rattle.syntax_editor.specs.Editing.{with_changes};
ghost use Rattle.syntax_editor.specs.Recording.{Recording, Recorded, row_becomes, inserting, replacing, replacing_many, ranging, replacing_all, deleting_all};
ghost use Rattle.syntax_editor.specs.Inside.{IsOwnRow, IsRow};
ghost use Rattle.syntax_editor.specs.Refusal.{RefusesRecord};

use crate::editor::SyntaxEditor;
use crate::error::RecordError;
use crate::target::{are_in_order, gap, is_one_node, target};
use std::alloc::{AllocError, Global};
use syntax_tree::{Element, Position, SyntaxElement};
use tree_rewrite::change::Change;

/// A range of siblings of the edited tree, by its ends.
#[derive(Drop)]
struct Row {
    first: SyntaxElement,
    last: SyntaxElement,
}

impl SyntaxEditor {
    /// Records that an element is inserted into a gap, before those that were inserted there
    /// earlier.
    ///
    /// # Errors
    ///
    /// - [`RecordError::Foreign`] if `position` is not in the edited tree.
    /// - [`RecordError::NoMemory`] if an allocation fails.
    ///
    /// On error, the editor is unchanged.
    pub fn insert<E: Element>(
        &mut self,
        alloc: Global,
        position: Position,
        new: E,
    ) -> Result<(), RecordError>
        ensures recorded { OnOk result (inserting self.old position.parent position.index
            (element_of (E.element new) ∷ [])
            ≡ Recorded self.new.changes) }
        ensures rest { OnOk result (self.new ≡ with_changes self.old self.new.changes) }
        ensures refused { IfErr result (RefusesRecord
            (inserting self.old position.parent position.index (element_of (E.element new) ∷ []))) }
        ensures kept { IfErr result (λ _. self.new ≡ self.old) }
    {
        let new = vec![in alloc; new.syntax_element()?]?;
        self.insert_all(alloc, position, new)
    }

    /// Records that elements are inserted into a gap, in their order, before those that were
    /// inserted there earlier.
    ///
    /// # Errors
    ///
    /// - [`RecordError::Foreign`] if `position` is not in the edited tree.
    /// - [`RecordError::NoMemory`] if an allocation fails.
    ///
    /// On error, the editor is unchanged.
    pub fn insert_all(
        &mut self,
        alloc: Global,
        position: Position,
        new: Vec<SyntaxElement>,
    ) -> Result<(), RecordError>
        ensures recorded { OnOk result (inserting self.old position.parent position.index
            (map element_of new.items)
            ≡ Recorded self.new.changes) }
        ensures rest { OnOk result (self.new ≡ with_changes self.old self.new.changes) }
        ensures refused { IfErr result (RefusesRecord
            (inserting self.old position.parent position.index (map element_of new.items))) }
        ensures kept { IfErr result (λ _. self.new ≡ self.old) }
    {
        let Some(parent) = gap(alloc, &self.root, &position)? else {
            return Err(RecordError::Foreign);
        };
        let place = Position {
            parent,
            index: position.index,
        };
        self.push(Change::Insert { place, new })?;
        Ok(())
    }

    /// Records that an element is deleted. This replaces its recorded replacement by one element,
    /// if any.
    ///
    /// # Errors
    ///
    /// - [`RecordError::Foreign`] if `element` is not in the edited tree.
    /// - [`RecordError::BadTarget`] if `element` is the root.
    /// - [`RecordError::NoMemory`] if an allocation fails.
    ///
    /// On error, the editor is unchanged.
    pub fn delete<E: Element>(&mut self, alloc: Global, element: E) -> Result<(), RecordError>
        ensures recorded { OnOk result (replacing self.old (element_of (E.element element)) []
            ≡ Recorded self.new.changes) }
        ensures rest { OnOk result (self.new ≡ with_changes self.old self.new.changes) }
        ensures refused { IfErr result (RefusesRecord
            (replacing self.old (element_of (E.element element)) [])) }
        ensures kept { IfErr result (λ _. self.new ≡ self.old) }
    {
        let element = element.syntax_element()?;
        self.put_for(alloc, &element, Vec::new(alloc))
    }

    /// Records that an element is replaced by another one. This replaces its recorded replacement
    /// by one element, if any; a recorded deletion stays.
    ///
    /// # Errors
    ///
    /// - [`RecordError::Foreign`] if `old` is not in the edited tree.
    /// - [`RecordError::BadTarget`] if `old` is the root and `new` is a token.
    /// - [`RecordError::NoMemory`] if an allocation fails.
    ///
    /// On error, the editor is unchanged.
    pub fn replace<O: Element, N: Element + Drop>(
        &mut self,
        alloc: Global,
        old: O,
        new: N,
    ) -> Result<(), RecordError>
        ensures recorded { OnOk result (replacing self.old (element_of (O.element old))
            (element_of (N.element new) ∷ []) ≡ Recorded self.new.changes) }
        ensures rest { OnOk result (self.new ≡ with_changes self.old self.new.changes) }
        ensures refused { IfErr result (RefusesRecord
            (replacing self.old (element_of (O.element old)) (element_of (N.element new) ∷ []))) }
        ensures kept { IfErr result (λ _. self.new ≡ self.old) }
    {
        let old = old.syntax_element()?;
        let new = vec![in alloc; new.syntax_element()?]?;
        self.put_for(alloc, &old, new)
    }

    /// Records that an element, named alone, becomes `new`, of at most one element. On error, the
    /// editor is unchanged.
    fn put_for(
        &mut self,
        alloc: Global,
        old: &SyntaxElement,
        new: Vec<SyntaxElement>,
    ) -> Result<(), RecordError>
        ensures recorded { OnOk result
            (replacing self.old (element_of old.now) (map element_of new.items)
            ≡ Recorded self.new.changes) }
        ensures rest { OnOk result (self.new ≡ with_changes self.old self.new.changes) }
        ensures refused { IfErr result (RefusesRecord
            (replacing self.old (element_of old.now) (map element_of new.items))) }
        ensures kept { IfErr result (λ _. self.new ≡ self.old) }
    {
        let Some(own) = target(alloc, &self.root, old)? else {
            return Err(RecordError::Foreign);
        };
        let way = own.way(alloc)?;
        if way.is_empty() && !is_one_node(&new) {
            return Err(RecordError::BadTarget);
        }
        self.put_alone(own, new)?;
        Ok(())
    }

    /// Records that an element is replaced by elements, or by none.
    ///
    /// # Errors
    ///
    /// - [`RecordError::Foreign`] if `old` is not in the edited tree.
    /// - [`RecordError::BadTarget`] if `old` is the root.
    /// - [`RecordError::NoMemory`] if an allocation fails.
    ///
    /// On error, the editor is unchanged.
    pub fn replace_with_many<E: Element>(
        &mut self,
        alloc: Global,
        old: E,
        new: Vec<SyntaxElement>,
    ) -> Result<(), RecordError>
        ensures recorded { OnOk result (replacing_many self.old (element_of (E.element old))
            (map element_of new.items) ≡ Recorded self.new.changes) }
        ensures rest { OnOk result (self.new ≡ with_changes self.old self.new.changes) }
        ensures refused { IfErr result (RefusesRecord
            (replacing_many self.old (element_of (E.element old)) (map element_of new.items))) }
        ensures kept { IfErr result (λ _. self.new ≡ self.old) }
    {
        let old = old.syntax_element()?;
        let Some(first) = target(alloc, &self.root, &old)? else {
            return Err(RecordError::Foreign);
        };
        let way = first.way(alloc)?;
        if way.is_empty() {
            return Err(RecordError::BadTarget);
        }
        let last = first.clone()?;
        self.push(Change::Replace {
            first,
            last,
            new,
            single: false,
        })?;
        Ok(())
    }

    /// Returns the range of siblings of the edited tree from `first` to `last`; `None` if both are
    /// one element.
    ///
    /// # Errors
    ///
    /// - [`RecordError::Foreign`] if `first` or `last` is not in the edited tree.
    /// - [`RecordError::BadRange`] if they are not children of one parent in order.
    /// - [`RecordError::NoMemory`] if an allocation fails.
    fn row(
        &self,
        alloc: Global,
        first: &SyntaxElement,
        last: &SyntaxElement,
    ) -> Result<Option<Row>, RecordError>
        ensures one { IfOk result (λ r. r ≡ None → (new : List Element) (alone : Recording) →
            ranging self.now (element_of first.now) (element_of last.now) new alone ≡ alone) }
        ensures many { IfOk result (λ r. IfSome r (λ row.
            IsRow self.now (element_of first.now) (element_of last.now) (element_of row.first)
            (element_of row.last))) }
        ensures refused { (new : List Element) (alone : Recording) → IfErr result (RefusesRecord
            (ranging self.now (element_of first.now) (element_of last.now) new alone)) }
    {
        let Some(own) = target(alloc, &self.root, first)? else {
            return Err(RecordError::Foreign);
        };
        let Some(end) = target(alloc, &self.root, last)? else {
            return Err(RecordError::Foreign);
        };
        let way = own.way(alloc)?;
        let end_way = end.way(alloc)?;
        if way.as_slice() == end_way.as_slice() {
            return Ok(None);
        }
        if !are_in_order(&way, &end_way) {
            return Err(RecordError::BadRange);
        }
        Ok(Some(Row {
            first: own,
            last: end,
        }))
    }

    /// Records that a range of siblings becomes `new`. On error, the editor is unchanged.
    fn put_row(&mut self, row: Row, new: Vec<SyntaxElement>) -> Result<(), AllocError>
        requires { IsOwnRow self.old.top (element_of row.first) (element_of row.last) }
        ensures ok { OnOk result (self.new ≡ with_changes self.old
            (self.old.changes ++ row_becomes (element_of row.first) (element_of row.last)
            (map element_of new.items) ∷ [])) }
        ensures err { OnErr result (self.new ≡ self.old) }
    {
        self.push(Change::Replace {
            first: row.first,
            last: row.last,
            new,
            single: false,
        })
    }

    /// Records that a range of siblings is replaced by elements, or by none. If both ends are one
    /// element, it is [`SyntaxEditor::replace_with_many`] of that.
    ///
    /// # Errors
    ///
    /// - [`RecordError::Foreign`] if `first` or `last` is not in the edited tree.
    /// - [`RecordError::BadTarget`] if both are the root.
    /// - [`RecordError::BadRange`] if they differ, and are not children of one parent in order.
    /// - [`RecordError::NoMemory`] if an allocation fails.
    ///
    /// On error, the editor is unchanged.
    pub fn replace_all(
        &mut self,
        alloc: Global,
        first: &SyntaxElement,
        last: &SyntaxElement,
        new: Vec<SyntaxElement>,
    ) -> Result<(), RecordError>
        ensures recorded { OnOk result (replacing_all self.old (element_of first.now)
            (element_of last.now) (map element_of new.items)
            ≡ Recorded self.new.changes) }
        ensures rest { OnOk result (self.new ≡ with_changes self.old self.new.changes) }
        ensures refused { IfErr result (RefusesRecord
            (replacing_all self.old (element_of first.now) (element_of last.now)
            (map element_of new.items))) }
        ensures kept { IfErr result (λ _. self.new ≡ self.old) }
    {
        match self.row(alloc, first, last)? {
            None => self.replace_with_many(alloc, first, new),
            Some(row) => Ok(self.put_row(row, new)?),
        }
    }

    /// Records that a range of siblings is deleted. If both ends are one element, it is
    /// [`SyntaxEditor::delete`] of that.
    ///
    /// # Errors
    ///
    /// - [`RecordError::Foreign`] if `first` or `last` is not in the edited tree.
    /// - [`RecordError::BadTarget`] if both are the root.
    /// - [`RecordError::BadRange`] if they differ, and are not children of one parent in order.
    /// - [`RecordError::NoMemory`] if an allocation fails.
    ///
    /// On error, the editor is unchanged.
    pub fn delete_all(
        &mut self,
        alloc: Global,
        first: &SyntaxElement,
        last: &SyntaxElement,
    ) -> Result<(), RecordError>
        ensures recorded { OnOk result
            (deleting_all self.old (element_of first.now) (element_of last.now)
            ≡ Recorded self.new.changes) }
        ensures rest { OnOk result (self.new ≡ with_changes self.old self.new.changes) }
        ensures refused { IfErr result (RefusesRecord
            (deleting_all self.old (element_of first.now) (element_of last.now))) }
        ensures kept { IfErr result (λ _. self.new ≡ self.old) }
    {
        match self.row(alloc, first, last)? {
            None => self.delete(alloc, first),
            Some(row) => Ok(self.put_row(row, Vec::new(alloc))?),
        }
    }
}
