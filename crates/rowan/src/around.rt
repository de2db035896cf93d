//! The elements around an element, as iterators: ancestors and siblings.
ghost use Rattle.std.specs.Prelude.{◌≡◌, ◌∷◌, IfOk, List, length};
ghost use Rattle.std.specs.Coded.{codes};
ghost use Rattle.std.specs.Iterator.{at_most};
ghost use Rattle.rowan_green.specs.declared.utility_types.NodeOrToken.TheVariants.{Node, Token};
ghost use Rattle.rowan_green.specs.Forest.{tree_code};
ghost use Rattle.rowan.specs.Place.{above, Place};
ghost use Rattle.rowan.specs.Around.{ancestors, ancestors_of, siblings, sibling_nodes, Cursor};
ghost use Rattle.rowan.specs.Left.{siblings_left, sibling_nodes_left};
ghost use Rattle.rowan.specs.Yields.{YieldsOrFails};

use crate::api::{SyntaxElement, SyntaxNode, SyntaxToken, element};
use crate::cursor;
use crate::cursor_step::{next_sibling_of, prev_sibling_of};
use crate::language::Language;
use crate::utility_types::Direction;
use rowan_green::NodeOrToken;
use std::alloc::{AllocError, Global};
use std::marker::{Model, PhantomData};

/// An iterator over a node and its ancestors, up to the root. Model: the remaining nodes.
pub struct Ancestors<L> {
    next: Option<cursor::SyntaxNode>,
    language: PhantomData<L>,
}

// Not derived: a derived drop is opened field by field in each function that drops one.
impl<L> Drop for Ancestors<L> {
    fn drop(self) {
        let Ancestors {
            next: _next,
            language: _,
        } = self;
    }
}

impl<L> Model for Ancestors<L> {
    ghost Value = { List Place };

    ghost coded = { Prim.hlevel (codes, tree_code) };

    ghost view = { λ a. ancestors_of a.next };
}

impl<L: Language> Ancestors<L> {
    pub(crate) fn new(start: cursor::SyntaxNode) -> Ancestors<L>
        ensures { result ≡ ancestors start }
    {
        Ancestors {
            next: Some(start),
            language: PhantomData,
        }
    }
}

impl<L: Language> Iterator for Ancestors<L> {
    type Item = Result<SyntaxNode<L>, AllocError>;

    ghost next_gives = { YieldsOrFails };

    ghost remaining = { λ s. at_most (length s) };

    fn next(&mut self) -> Option<Result<SyntaxNode<L>, AllocError>> {
        let node = self.next.take()?;
        if let Some(parent) = node.parent() {
            match parent.clone() {
                Ok(parent) => self.next = Some(parent),
                Err(e) => return Some(Err(e)),
            }
        }
        Some(Ok(SyntaxNode::of(node)))
    }
}

/// An iterator over an element and its siblings in one direction, the nearest first. Model: the
/// remaining elements.
pub struct SiblingsWithTokens<L> {
    alloc: Global,
    direction: Direction,
    next: Option<cursor::SyntaxElement>,
    language: PhantomData<L>,
}

// Not derived: a derived drop is opened field by field in each function that drops one.
impl<L> Drop for SiblingsWithTokens<L> {
    fn drop(self) {
        let SiblingsWithTokens {
            alloc: _,
            direction: _,
            next: _next,
            language: _,
        } = self;
    }
}

impl<L> Model for SiblingsWithTokens<L> {
    ghost Value = { List Cursor };

    ghost coded = { Prim.hlevel (codes, tree_code) };

    ghost view = { λ s. siblings_left s.direction s.next };
}

impl<L: Language> SiblingsWithTokens<L> {
    pub(crate) fn new(
        alloc: Global,
        direction: Direction,
        start: cursor::SyntaxElement,
    ) -> SiblingsWithTokens<L>
        ensures { result ≡ siblings direction start }
    {
        SiblingsWithTokens {
            alloc,
            direction,
            next: Some(start),
            language: PhantomData,
        }
    }
}

impl<L: Language> Iterator for SiblingsWithTokens<L> {
    type Item = Result<SyntaxElement<L>, AllocError>;

    ghost next_gives = { YieldsOrFails };

    ghost remaining = { λ s. at_most (length s) };

    fn next(&mut self) -> Option<Result<SyntaxElement<L>, AllocError>> {
        let current = self.next.take()?;
        match beside(self.alloc, self.direction, &current) {
            Ok(next) => {
                self.next = next;
                Some(Ok(element(current)))
            }
            Err(e) => Some(Err(e)),
        }
    }
}

/// Returns the sibling next to `current` in `direction`, node or token.
fn beside(
    alloc: Global,
    direction: Direction,
    current: &cursor::SyntaxElement,
) -> Result<Option<cursor::SyntaxElement>, AllocError>
    ensures { IfOk result
        (λ r. siblings direction current.now ≡ current.now ∷ siblings_left direction r) }
{
    match direction {
        Direction::Next => next_sibling_of(current, alloc),
        Direction::Prev => prev_sibling_of(current, alloc),
    }
}

/// An iterator over a node and its siblings in one direction that are nodes, the nearest first.
/// Model: the remaining nodes.
pub struct Siblings<L> {
    alloc: Global,
    direction: Direction,
    next: Option<cursor::SyntaxNode>,
    language: PhantomData<L>,
}

// Not derived: a derived drop is opened field by field in each function that drops one.
impl<L> Drop for Siblings<L> {
    fn drop(self) {
        let Siblings {
            alloc: _,
            direction: _,
            next: _next,
            language: _,
        } = self;
    }
}

impl<L> Model for Siblings<L> {
    ghost Value = { List Place };

    ghost coded = { Prim.hlevel (codes, tree_code) };

    ghost view = { λ s. sibling_nodes_left s.direction s.next };
}

impl<L: Language> Siblings<L> {
    pub(crate) fn new(alloc: Global, direction: Direction, start: cursor::SyntaxNode) -> Siblings<L>
        ensures { result ≡ sibling_nodes direction start }
    {
        Siblings {
            alloc,
            direction,
            next: Some(start),
            language: PhantomData,
        }
    }
}

impl<L: Language> Iterator for Siblings<L> {
    type Item = Result<SyntaxNode<L>, AllocError>;

    ghost next_gives = { YieldsOrFails };

    ghost remaining = { λ s. at_most (length s) };

    fn next(&mut self) -> Option<Result<SyntaxNode<L>, AllocError>> {
        let current = self.next.take()?;
        match node_beside(self.alloc, self.direction, &current) {
            Ok(next) => {
                self.next = next;
                Some(Ok(SyntaxNode::of(current)))
            }
            Err(e) => Some(Err(e)),
        }
    }
}

/// Returns the nearest sibling of `current` in `direction` that is a node.
fn node_beside(
    alloc: Global,
    direction: Direction,
    current: &cursor::SyntaxNode,
) -> Result<Option<cursor::SyntaxNode>, AllocError>
    ensures { IfOk result (λ r. sibling_nodes direction current.now
        ≡ current.now ∷ sibling_nodes_left direction r) }
{
    match direction {
        Direction::Next => current.next_sibling(alloc),
        Direction::Prev => current.prev_sibling(alloc),
    }
}

impl<L: Language> SyntaxNode<L> {
    /// Returns an iterator over the node and its ancestors, up to the root.
    ///
    /// # Errors
    ///
    /// [`AllocError`] if a reference count overflows.
    pub fn ancestors(&self) -> Result<Ancestors<L>, AllocError>
        ensures { IfOk result (λ a. a ≡ ancestors self.now) }
    {
        Ok(Ancestors::new(self.cursor().clone()?))
    }

    /// Returns an iterator over the node, and then its siblings in `direction` that are nodes.
    ///
    /// # Errors
    ///
    /// [`AllocError`] if a reference count overflows.
    pub fn siblings(&self, alloc: Global, direction: Direction) -> Result<Siblings<L>, AllocError>
        ensures { IfOk result (λ s. s ≡ sibling_nodes direction self.now) }
    {
        Ok(Siblings::new(alloc, direction, self.cursor().clone()?))
    }

    /// Returns an iterator over the node, and then its siblings in `direction`, nodes and tokens.
    ///
    /// # Errors
    ///
    /// [`AllocError`] if a reference count overflows.
    pub fn siblings_with_tokens(
        &self,
        alloc: Global,
        direction: Direction,
    ) -> Result<SiblingsWithTokens<L>, AllocError>
        ensures { IfOk result (λ s. s ≡ siblings direction (Node self.now)) }
    {
        let start = NodeOrToken::Node(self.cursor().clone()?);
        Ok(SiblingsWithTokens::new(alloc, direction, start))
    }
}

impl<L: Language> SyntaxToken<L> {
    /// Returns an iterator over the token's ancestors: its parent, and so on up to the root.
    ///
    /// # Errors
    ///
    /// [`AllocError`] if a reference count overflows.
    pub fn parent_ancestors(&self) -> Result<Ancestors<L>, AllocError>
        ensures { IfOk result (λ a. a ≡ ancestors_of (above self.now)) }
    {
        Ok(Ancestors::new(self.cursor().parent().clone()?))
    }

    /// Returns an iterator over the token, and then its siblings in `direction`, nodes and tokens.
    ///
    /// # Errors
    ///
    /// [`AllocError`] if a reference count overflows.
    pub fn siblings_with_tokens(
        &self,
        alloc: Global,
        direction: Direction,
    ) -> Result<SiblingsWithTokens<L>, AllocError>
        ensures { IfOk result (λ s. s ≡ siblings direction (Token self.now)) }
    {
        let start = NodeOrToken::Token(self.cursor().clone()?);
        Ok(SiblingsWithTokens::new(alloc, direction, start))
    }
}
