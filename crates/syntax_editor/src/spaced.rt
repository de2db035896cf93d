//! Insertion of elements with whitespace around them.
ghost use Rattle.std.specs.Prelude.{◌≡◌, true, ◌≤◌, ◌+◌, ◌∷◌, [], map, IfOk, IfErr, OnOk};
ghost use Rattle.syntax_tree.specs.Handle.{element_of};
ghost use Rattle.syntax_editor.specs.Editing.{with_changes};
ghost use Rattle.syntax_editor.specs.Recording.{Recorded, is_gap};
ghost use Rattle.syntax_editor.specs.Spaced.{is_statement, begins_line, child, space_before, space_after, space_before_all, space_after_all, text_of, token_of, token_count, spaced, spaced_count, inserting_spaced, number_after, RefusesSpaced};

use crate::editor::SyntaxEditor;
use crate::error::WhitespaceError;
use crate::indent_level::IndentLevel;
use crate::target::{gap, raw_kind};
use crate::whitespace::{Space, is};
use parser_input::SyntaxKind;
use std::alloc::{AllocError, Global};
use syntax_tree::{Element, Position, SyntaxElement, SyntaxNode, SyntaxToken, TreeIds, elements};
use tree_rewrite::change::Change;

/// Returns `true` if elements of this raw kind are statements, or items among them.
fn is_statement(kind: u16) -> bool
    ensures { result ≡ is_statement kind }
{
    is(kind, SyntaxKind::LET_STMT)
        || is(kind, SyntaxKind::EXPR_STMT)
        || is(kind, SyntaxKind::CONST)
        || is(kind, SyntaxKind::ENUM)
        || is(kind, SyntaxKind::FN)
        || is(kind, SyntaxKind::IMPL)
        || is(kind, SyntaxKind::MACRO_CALL)
        || is(kind, SyntaxKind::MODULE)
        || is(kind, SyntaxKind::STATIC)
        || is(kind, SyntaxKind::STRUCT)
        || is(kind, SyntaxKind::TRAIT)
        || is(kind, SyntaxKind::TYPE_ALIAS)
        || is(kind, SyntaxKind::USE)
}

/// Returns `true` if an element begins a line after another in a list, by the raw kinds of the
/// three.
fn begins_line(list: u16, previous: u16, kind: u16) -> bool
    ensures { result ≡ begins_line list previous kind }
{
    is(previous, SyntaxKind::L_CURLY)
        && ((is(list, SyntaxKind::ITEM_LIST) && is(kind, SyntaxKind::USE))
            || (is(list, SyntaxKind::STMT_LIST) && is_statement(kind)))
}

/// Returns the child or token with this index, if any.
fn child(
    alloc: Global,
    parent: &SyntaxNode,
    number: usize,
) -> Result<Option<SyntaxElement>, AllocError>
    ensures { IfOk result (λ c. c ≡ child parent.now number) }
{
    parent.nth_child_or_token(alloc, number)
}

/// Returns the whitespace before an element that is inserted into the gap with this index.
fn space_before(
    alloc: Global,
    parent: &SyntaxNode,
    index: usize,
    element: &SyntaxElement,
) -> Result<Space, AllocError>
    ensures { IfOk result (λ space. space ≡ space_before parent.now index element.now) }
{
    if index == 0 {
        return Ok(Space::Nothing);
    }
    let Some(previous) = child(alloc, parent, index - 1)? else {
        return Ok(Space::Nothing);
    };
    let list = parent.cursor().green().kind().0;
    if begins_line(list, raw_kind(&previous), raw_kind(element)) {
        let level = IndentLevel::from_node(alloc, parent)? + 1;
        return Ok(Space::Line(level.0));
    }
    Space::between(alloc, &previous, element)
}

/// Returns the whitespace after an element that is inserted into the gap with this index.
fn space_after(
    alloc: Global,
    parent: &SyntaxNode,
    index: usize,
    element: &SyntaxElement,
) -> Result<Space, AllocError>
    ensures { IfOk result (λ space. space ≡ space_after parent.now index element.now) }
{
    match child(alloc, parent, index)? {
        Some(next) => Space::between(alloc, element, &next),
        None => Ok(Space::Nothing),
    }
}

/// Returns the whitespace before the first of `elements`.
fn space_before_all(
    alloc: Global,
    parent: &SyntaxNode,
    index: usize,
    elements: &[SyntaxElement],
) -> Result<Space, AllocError>
    ensures { IfOk result (λ space. space ≡ space_before_all parent.now index elements.now) }
{
    match elements.first() {
        Some(first) => space_before(alloc, parent, index, first),
        None => Ok(Space::Nothing),
    }
}

/// Returns the whitespace after the last of `elements`.
fn space_after_all(
    alloc: Global,
    parent: &SyntaxNode,
    index: usize,
    elements: &[SyntaxElement],
) -> Result<Space, AllocError>
    ensures { IfOk result (λ space. space ≡ space_after_all parent.now index elements.now) }
{
    match elements.last() {
        Some(last) => space_after(alloc, parent, index, last),
        None => Ok(Space::Nothing),
    }
}

/// Returns a list of the whitespace token, in a new tree with the next number of `ids`; the list is
/// empty for [`Space::Nothing`].
///
/// # Errors
///
/// - [`WhitespaceError::NoTreeNumber`] if no tree number is left.
/// - [`WhitespaceError::NoMemory`] if an allocation fails.
///
/// On error, the number may be used up.
fn token_of(
    alloc: Global,
    space: Space,
    ids: &mut TreeIds,
) -> Result<Vec<SyntaxElement>, WhitespaceError>
    ensures ok { IfOk result (λ v. map element_of v.items ≡ token_of ids.old (text_of space)) }
    ensures number { OnOk result (ids.new ≡ ids.old + token_count (text_of space)) }
    ensures refused { IfErr result (RefusesSpaced true (ids.old + token_count (text_of space))) }
    ensures forward { IfErr result (λ _. ids.old ≤ ids.new) }
    ensures within { IfErr result (λ _. ids.new ≤ ids.old + token_count (text_of space)) }
{
    let text = format!(in alloc; "{space}")?;
    if text.is_empty() {
        return Ok(Vec::new(alloc));
    }
    let green = elements::token(alloc, SyntaxKind::WHITESPACE, text.as_str())?;
    let token = SyntaxToken::detached(alloc, green, ids)?;
    Ok(vec![in alloc; SyntaxElement::Token(token)]?)
}

/// Returns `elements` with the whitespace that belongs around them in the gap with this index.
///
/// # Errors
///
/// - [`WhitespaceError::NoTreeNumber`] if too few tree numbers are left.
/// - [`WhitespaceError::NoMemory`] if an allocation fails.
///
/// On error, the numbers of these tokens may be used up.
fn spaced(
    alloc: Global,
    parent: &SyntaxNode,
    index: usize,
    elements: Vec<SyntaxElement>,
    ids: &mut TreeIds,
) -> Result<Vec<SyntaxElement>, WhitespaceError>
    ensures ok { IfOk result (λ v. map element_of v.items
        ≡ spaced parent.now index ids.old elements.items) }
    ensures number { OnOk result
        (ids.new ≡ ids.old + spaced_count parent.now index elements.items) }
    ensures refused { IfErr result (RefusesSpaced true
        (ids.old + spaced_count parent.now index elements.items)) }
    ensures forward { IfErr result (λ _. ids.old ≤ ids.new) }
    ensures within { IfErr result
        (λ _. ids.new ≤ ids.old + spaced_count parent.now index elements.items) }
{
    let before = space_before_all(alloc, parent, index, &elements)?;
    let after = space_after_all(alloc, parent, index, &elements)?;
    let mut all = token_of(alloc, before, ids)?;
    let mut rest = elements;
    all.append(&mut rest)?;
    let mut last = token_of(alloc, after, ids)?;
    all.append(&mut last)?;
    Ok(all)
}

impl SyntaxEditor {
    /// Records that an element is inserted into a gap with whitespace around it, as
    /// [`SyntaxEditor::insert_all_with_whitespace`] does.
    pub fn insert_with_whitespace<E: Element>(
        &mut self,
        alloc: Global,
        position: Position,
        new: E,
        ids: &mut TreeIds,
    ) -> Result<(), WhitespaceError>
        ensures recorded { OnOk result (inserting_spaced self.old position.parent position.index
            ids.old (E.element new ∷ []) ≡ Recorded self.new.changes) }
        ensures rest { OnOk result (self.new ≡ with_changes self.old self.new.changes) }
        ensures number { OnOk result (ids.new
            ≡ number_after self.old position.parent position.index ids.old (E.element new ∷ [])) }
        ensures refused { IfErr result
            (RefusesSpaced (is_gap self.old.top position.parent position.index)
            (number_after self.old position.parent position.index ids.old (E.element new ∷ []))) }
        ensures kept { IfErr result (λ _. self.new ≡ self.old) }
        ensures forward { IfErr result (λ _. ids.old ≤ ids.new) }
        ensures within { IfErr result (λ _. ids.new ≤
            number_after self.old position.parent position.index ids.old (E.element new ∷ [])) }
    {
        let new = vec![in alloc; new.syntax_element()?]?;
        self.insert_all_with_whitespace(alloc, position, new, ids)
    }

    /// Records that elements are inserted into a gap, in their order, with the whitespace that
    /// belongs between them and their neighbours there: at most one token before the first of them
    /// and one after the last, in new trees with the next numbers of `ids`.
    ///
    /// # Errors
    ///
    /// - [`WhitespaceError::Foreign`] if `position` is not in the edited tree.
    /// - [`WhitespaceError::NoTreeNumber`] if too few tree numbers are left.
    /// - [`WhitespaceError::NoMemory`] if an allocation fails.
    ///
    /// On error, the editor is unchanged, but the numbers of these tokens may be used up.
    pub fn insert_all_with_whitespace(
        &mut self,
        alloc: Global,
        position: Position,
        new: Vec<SyntaxElement>,
        ids: &mut TreeIds,
    ) -> Result<(), WhitespaceError>
        ensures recorded { OnOk result
            (inserting_spaced self.old position.parent position.index ids.old new.items
            ≡ Recorded self.new.changes) }
        ensures rest { OnOk result (self.new ≡ with_changes self.old self.new.changes) }
        ensures number { OnOk result (ids.new
            ≡ number_after self.old position.parent position.index ids.old new.items) }
        ensures refused { IfErr result
            (RefusesSpaced (is_gap self.old.top position.parent position.index)
            (number_after self.old position.parent position.index ids.old new.items)) }
        ensures kept { IfErr result (λ _. self.new ≡ self.old) }
        ensures forward { IfErr result (λ _. ids.old ≤ ids.new) }
        ensures within { IfErr result (λ _. ids.new ≤
            number_after self.old position.parent position.index ids.old new.items) }
    {
        let Some(parent) = gap(alloc, &self.root, &position)? else {
            return Err(WhitespaceError::Foreign);
        };
        let index = position.index;
        let new = spaced(alloc, &parent, index, new, ids)?;
        let place = Position { parent, index };
        self.push(Change::Insert { place, new })?;
        Ok(())
    }
}
