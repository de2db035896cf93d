//! The whitespace that begins a line, and lines that are put beside an element.
ghost use Rattle.std.specs.Prelude.{◌≡◌, ◌+◌, ◌≤◌, ℕ, List, Some, length, map, string_bytes, take_while, IfOk, IfErr, OnOk};
ghost use Rattle.syntax_tree.specs.Handle.{element_of, parent_of};
ghost use Rattle.syntax_tree.specs.Position.{RefusesPosition};
ghost use Rattle.syntax_editor.specs.Editing.{with_changes};
ghost use Rattle.rust_source.specs.declared.lines.Side.TheVariants.{After, Before};
ghost use Rattle.rust_source.specs.Changes.{OnlyInserts};
ghost use Rattle.rust_source.specs.Lines.{gap_beside, in_order, is_blank, line_break, InsertsBeside, IsIndent, IsLineIndent, IsLineStart, RefusesBeside, RefusesBreak};

use crate::error::SourceError;
use crate::source::Source;
use parser_input::SyntaxKind;
use rust_document::SyntaxEditor;
use std::alloc::{AllocError, Global};
use syntax_tree::{Position, PositionError, SyntaxElement, SyntaxToken};

/// A side of an element.
#[derive(Clone, Copy, Debug, PartialEq, Eq)]
pub enum Side {
    Before,
    After,
}

/// Returns the gap at a side of an element.
fn gap_beside(side: Side, element: &SyntaxElement) -> Result<Position, PositionError>
    ensures parent { IfOk result (λ p. parent_of (element_of element.now) ≡ Some p.parent) }
    ensures index { IfOk result (λ p. p.index ≡ gap_beside side (element_of element.now)) }
    ensures refused { IfErr result (RefusesPosition (element_of element.now)) }
{
    match side {
        Side::Before => Position::before(element),
        Side::After => Position::after(element),
    }
}

/// Returns a new element and a line break, in the order in which they come at a side of an element.
fn in_order(
    alloc: Global,
    side: Side,
    new: &SyntaxElement,
    space: SyntaxToken,
) -> Result<Vec<SyntaxElement>, AllocError>
    ensures { IfOk result (λ v. map element_of v.items
        ≡ in_order side (element_of new.now) space) }
{
    let new = new.clone()?;
    let space = SyntaxElement::Token(space);
    match side {
        Side::Before => Ok(vec![in alloc; new, space]?),
        Side::After => Ok(vec![in alloc; space, new]?),
    }
}

/// Returns the start of the line of the byte `at`.
fn line_start(text: &[u8], at: usize) -> usize
    requires { at ≤ length text.now }
    ensures { IsLineStart text.now at result }
{
    let mut start = at;
    while start > 0 {
        if text[start - 1] == b'\n' {
            break;
        }
        start -= 1;
    }
    start
}

/// Returns the spaces and tabs that a line begins with.
fn blanks(alloc: Global, line: &[u8]) -> Result<String, AllocError>
    ensures { IfOk result (λ s. string_bytes s ≡ take_while is_blank line.now) }
{
    let mut indent = String::new(alloc);
    for byte in line {
        match *byte {
            b' ' => indent.push(' ')?,
            b'\t' => indent.push('\t')?,
            _ => break,
        }
    }
    Ok(indent)
}

/// Returns the spaces and tabs that begin the line of the byte `at`, up to that byte.
pub(crate) fn indent_at(alloc: Global, text: &[u8], at: usize) -> Result<String, AllocError>
    requires { at ≤ length text.now }
    ensures { IfOk result (λ s. IsIndent text.now at (string_bytes s)) }
{
    let start = line_start(text, at);
    blanks(alloc, &text[start..at])
}

impl Source {
    /// Returns the spaces and tabs that begin the line of `element`, up to the element. It reads the
    /// line before the element.
    pub fn line_indent(&self, element: &SyntaxElement) -> Result<String, AllocError>
        ensures { IfOk result (λ s. IsLineIndent self.now.document.text (element_of element.now)
            (string_bytes s)) }
    {
        let text = self.text().as_bytes();
        let start = usize::from(element.text_range().start());
        indent_at(self.alloc, text, start.min(text.len()))
    }

    /// Returns a line feed and the indent of the line of `element`, as a token.
    fn line_break(&mut self, element: &SyntaxElement) -> Result<SyntaxToken, SourceError>
        ensures made { IfOk result (λ t. (indent : List ℕ)
            × (IsLineIndent self.old.document.text (element_of element.now) indent
            × (t ≡ line_break self.old.next indent))) }
        ensures document { self.new.document ≡ self.old.document }
        ensures alloc { self.new.alloc ≡ self.old.alloc }
        ensures number { OnOk result (self.new.next ≡ self.old.next + 1) }
        ensures refused { IfErr result (RefusesBreak self.old (element_of element.now)) }
        ensures kept { IfErr result (λ _. self.new ≡ self.old) }
    {
        let indent = self.line_indent(element).map_err(SourceError::Memory)?;
        let text = format!(in self.alloc; "\n{indent}").map_err(SourceError::Memory)?;
        let token = self.make_token(SyntaxKind::WHITESPACE, text.as_str());
        token.map_err(SourceError::Make)
    }

    /// Records in `editor` that `new`, and a line feed with the indent of the element's line, come into
    /// a gap beside `element`.
    fn insert_on_line(
        &mut self,
        editor: &mut SyntaxEditor,
        side: Side,
        element: &SyntaxElement,
        new: &SyntaxElement,
    ) -> Result<(), SourceError>
        ensures recorded { OnOk result (InsertsBeside side self.old editor.old
            (element_of element.now) (element_of new.now) editor.new.changes) }
        ensures rest { OnOk result (editor.new ≡ with_changes editor.old editor.new.changes) }
        ensures only { OnOk result (OnlyInserts editor.old → OnlyInserts editor.new) }
        ensures document { self.new.document ≡ self.old.document }
        ensures alloc { self.new.alloc ≡ self.old.alloc }
        ensures number { OnOk result (self.new.next ≡ self.old.next + 1) }
        ensures refused { IfErr result (RefusesBeside side self.old editor.old
            (element_of element.now) (element_of new.now)) }
        ensures editor { IfErr result (λ _. editor.new ≡ editor.old) }
        ensures kept { IfErr result (λ _. self.new ≡ self.old) }
    {
        let place = match gap_beside(side, element) {
            Ok(place) => place,
            Err(error) => return Err(SourceError::Position(error)),
        };
        let space = self.line_break(element)?;
        let number = space.tree();
        let all = match in_order(self.alloc, side, new, space) {
            Ok(all) => all,
            Err(error) => {
                self.give_back(number);
                return Err(SourceError::Memory(error));
            }
        };
        match editor.insert_all(self.alloc, place, all) {
            Ok(()) => Ok(()),
            Err(error) => {
                self.give_back(number);
                Err(SourceError::Record(error))
            }
        }
    }

    /// Records in `editor` that `new` comes before `element`, with a line feed and the indent of the
    /// element's line between them. What follows a line's indent then begins a line of its own.
    ///
    /// # Errors
    ///
    /// - [`SourceError::Position`] if `element` is a root.
    /// - [`SourceError::Make`] if no tree number is left.
    /// - [`SourceError::Record`] if `element` is not of the tree that is edited.
    /// - each of these and [`SourceError::Memory`] if an allocation fails.
    ///
    /// On error, `editor` and the source are unchanged.
    pub fn insert_on_line_before(
        &mut self,
        editor: &mut SyntaxEditor,
        element: &SyntaxElement,
        new: &SyntaxElement,
    ) -> Result<(), SourceError>
        ensures recorded { OnOk result (InsertsBeside Before self.old editor.old
            (element_of element.now) (element_of new.now) editor.new.changes) }
        ensures rest { OnOk result (editor.new ≡ with_changes editor.old editor.new.changes) }
        ensures only { OnOk result (OnlyInserts editor.old → OnlyInserts editor.new) }
        ensures document { self.new.document ≡ self.old.document }
        ensures alloc { self.new.alloc ≡ self.old.alloc }
        ensures number { OnOk result (self.new.next ≡ self.old.next + 1) }
        ensures refused { IfErr result (RefusesBeside Before self.old editor.old
            (element_of element.now) (element_of new.now)) }
        ensures editor { IfErr result (λ _. editor.new ≡ editor.old) }
        ensures kept { IfErr result (λ _. self.new ≡ self.old) }
    {
        self.insert_on_line(editor, Side::Before, element, new)
    }

    /// Records in `editor` that `new` comes after `element`, with a line feed and the indent of the
    /// element's line between them.
    ///
    /// # Errors
    ///
    /// As of [`Source::insert_on_line_before`].
    pub fn insert_on_line_after(
        &mut self,
        editor: &mut SyntaxEditor,
        element: &SyntaxElement,
        new: &SyntaxElement,
    ) -> Result<(), SourceError>
        ensures recorded { OnOk result (InsertsBeside After self.old editor.old
            (element_of element.now) (element_of new.now) editor.new.changes) }
        ensures rest { OnOk result (editor.new ≡ with_changes editor.old editor.new.changes) }
        ensures only { OnOk result (OnlyInserts editor.old → OnlyInserts editor.new) }
        ensures document { self.new.document ≡ self.old.document }
        ensures alloc { self.new.alloc ≡ self.old.alloc }
        ensures number { OnOk result (self.new.next ≡ self.old.next + 1) }
        ensures refused { IfErr result (RefusesBeside After self.old editor.old
            (element_of element.now) (element_of new.now)) }
        ensures editor { IfErr result (λ _. editor.new ≡ editor.old) }
        ensures kept { IfErr result (λ _. self.new ≡ self.old) }
    {
        self.insert_on_line(editor, Side::After, element, new)
    }
}
