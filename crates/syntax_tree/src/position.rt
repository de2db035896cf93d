//! Gaps between children.
ghost use Rattle.std.specs.Prelude.{◌≡◌, ◌+◌, length, Some, None, IfOk, IfErr};
ghost use Rattle.rowan.specs.Place.{index_of, terms_below};
ghost use Rattle.syntax_tree.specs.Handle.{element_of, parent_of};
ghost use Rattle.syntax_tree.specs.Position.{RefusesPosition};

use crate::element::Element;
use crate::error::PositionError;
use crate::handle::SyntaxNode;
use std::alloc::AllocError;

/// A gap between the children of a node: before the child at `index`, or after the last child.
#[derive(Drop)]
pub struct Position {
    pub parent: SyntaxNode,
    pub index: usize,
}

impl Position {
    /// Returns the gap directly after `element`.
    ///
    /// # Errors
    ///
    /// - [`PositionError::NoParent`] if `element` is a root.
    /// - [`PositionError::NoMemory`] if an allocation fails.
    pub fn after<E: Element>(element: E) -> Result<Position, PositionError>
        ensures parent { IfOk result
            (λ p. parent_of (element_of (E.element element)) ≡ Some p.parent) }
        ensures index { IfOk result
            (λ p. p.index ≡ index_of (element_of (E.element element)).place + 1) }
        ensures refused { IfErr result (RefusesPosition (element_of (E.element element))) }
    {
        let element = element.syntax_element()?;
        let position = Position::before(&element)?;
        let index = element.next_index(&position.parent);
        Ok(Position {
            parent: position.parent,
            index,
        })
    }

    /// Returns the gap directly before `element`.
    ///
    /// # Errors
    ///
    /// - [`PositionError::NoParent`] if `element` is a root.
    /// - [`PositionError::NoMemory`] if an allocation fails.
    pub fn before<E: Element>(element: E) -> Result<Position, PositionError>
        ensures parent { IfOk result
            (λ p. parent_of (element_of (E.element element)) ≡ Some p.parent) }
        ensures index { IfOk result
            (λ p. p.index ≡ index_of (element_of (E.element element)).place) }
        ensures refused { IfErr result (RefusesPosition (element_of (E.element element))) }
    {
        let element = element.syntax_element()?;
        let Some(parent) = element.parent()? else {
            return Err(PositionError::NoParent);
        };
        Ok(Position {
            parent,
            index: element.index(),
        })
    }

    /// Returns the gap before all children of `node`.
    ///
    /// # Errors
    ///
    /// `AllocError` if the reference count overflows.
    pub fn first_child_of(node: &SyntaxNode) -> Result<Position, AllocError>
        ensures { IfOk result (λ p. p ≡ record { parent = node.now; index = 0 }) }
    {
        Ok(Position {
            parent: node.clone()?,
            index: 0,
        })
    }

    /// Returns the gap after all children of `node`.
    ///
    /// # Errors
    ///
    /// `AllocError` if the reference count overflows.
    pub fn last_child_of(node: &SyntaxNode) -> Result<Position, AllocError>
        ensures { IfOk result (λ p. p ≡
            record { parent = node.now; index = length (terms_below node.now.place) }) }
    {
        let index = node.cursor().green().children().len();
        Ok(Position {
            parent: node.clone()?,
            index,
        })
    }
}
