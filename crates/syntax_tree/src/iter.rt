//! Iterators over ancestors, children and descendants.
ghost use Rattle.std.specs.Prelude.{◌≡◌, map, option_map, IfOk, List, length};
ghost use Rattle.std.specs.Coded.{codes};
ghost use Rattle.std.specs.Iterator.{at_most};
ghost use Rattle.rowan_green.specs.declared.utility_types.NodeOrToken.TheVariants.{Node};
ghost use Rattle.rowan_green.specs.Forest.{tree_code};
ghost use Rattle.rowan.specs.Place.{below};
ghost use Rattle.rowan.specs.Around.{ancestors, cursor_at, element_ancestors, children, nodes};
ghost use Rattle.rowan.specs.Walk.{walk};
ghost use Rattle.rowan.specs.Yields.{YieldsOrFails};
ghost use Rattle.syntax_tree.specs.Handle.{element_of, cursor_of, with_place, with_number, with_cursor, Walk, elements_left};
ghost use Rattle.syntax_tree.specs.Element.{Element};
ghost use Rattle.syntax_tree.specs.declared.element.SyntaxElement.{SyntaxElement};

use crate::element::SyntaxElement;
use crate::handle::{SyntaxNode, SyntaxToken};
use crate::language::RustLanguage;
use rowan_green::NodeOrToken;
use std::alloc::{AllocError, Global};
use std::marker::Model;

/// Returns the element at `cursor` in the tree with number `tree`.
pub(crate) fn numbered(tree: u32, cursor: rowan::SyntaxElement<RustLanguage>) -> SyntaxElement
    ensures { result ≡ with_cursor tree cursor }
{
    match cursor {
        NodeOrToken::Node(cursor) => SyntaxElement::Node(SyntaxNode::of(tree, cursor)),
        NodeOrToken::Token(cursor) => SyntaxElement::Token(SyntaxToken::of(tree, cursor)),
    }
}

/// Returns the element at `cursor`, if any, in the tree with number `tree`.
pub(crate) fn numbered_if(
    tree: u32,
    cursor: Option<rowan::SyntaxElement<RustLanguage>>,
) -> Option<SyntaxElement>
    ensures { result ≡ option_map (with_cursor tree) cursor }
{
    cursor.map(|cursor| numbered(tree, cursor))
}

/// An iterator over a node and its ancestors, up to the root. Model: the remaining nodes.
pub struct Ancestors {
    tree: u32,
    cursors: rowan::Ancestors<RustLanguage>,
}

// Not derived: a derived drop is opened field by field in each function that drops one.
impl Drop for Ancestors {
    fn drop(self) {
        let Ancestors {
            tree: _,
            cursors: _cursors,
        } = self;
    }
}

impl Model for Ancestors {
    ghost Value = { List Element };

    ghost coded = { Prim.hlevel (codes, tree_code) };

    ghost view = { λ c. map (with_number c.tree) c.cursors };
}

impl Iterator for Ancestors {
    type Item = Result<SyntaxNode, AllocError>;

    ghost next_gives = { YieldsOrFails };

    ghost remaining = { λ s. at_most (length s) };

    fn next(&mut self) -> Option<Result<SyntaxNode, AllocError>> {
        let node = self.cursors.next()?;
        Some(node.map(|cursor| SyntaxNode::of(self.tree, cursor)))
    }
}

/// An iterator over the child nodes of a node. Model: the remaining nodes.
pub struct SyntaxNodeChildren {
    tree: u32,
    cursors: rowan::SyntaxNodeChildren<RustLanguage>,
}

// Not derived: a derived drop is opened field by field in each function that drops one.
impl Drop for SyntaxNodeChildren {
    fn drop(self) {
        let SyntaxNodeChildren {
            tree: _,
            cursors: _cursors,
        } = self;
    }
}

impl Model for SyntaxNodeChildren {
    ghost Value = { List Element };

    ghost coded = { Prim.hlevel (codes, tree_code) };

    ghost view = { λ c. map (with_number c.tree) c.cursors };
}

impl Iterator for SyntaxNodeChildren {
    type Item = Result<SyntaxNode, AllocError>;

    ghost next_gives = { YieldsOrFails };

    ghost remaining = { λ s. at_most (length s) };

    fn next(&mut self) -> Option<Result<SyntaxNode, AllocError>> {
        let node = self.cursors.next()?;
        Some(node.map(|cursor| SyntaxNode::of(self.tree, cursor)))
    }
}

/// An iterator over the children of a node, nodes and tokens. Model: the remaining elements.
pub struct SyntaxElementChildren {
    tree: u32,
    cursors: rowan::SyntaxElementChildren<RustLanguage>,
}

// Not derived: a derived drop is opened field by field in each function that drops one.
impl Drop for SyntaxElementChildren {
    fn drop(self) {
        let SyntaxElementChildren {
            tree: _,
            cursors: _cursors,
        } = self;
    }
}

impl Model for SyntaxElementChildren {
    ghost Value = { List SyntaxElement };

    ghost coded = { Prim.hlevel (codes, tree_code) };

    ghost view = { λ c. map (with_cursor c.tree) c.cursors };
}

impl Iterator for SyntaxElementChildren {
    type Item = Result<SyntaxElement, AllocError>;

    ghost next_gives = { YieldsOrFails };

    ghost remaining = { λ s. at_most (length s) };

    fn next(&mut self) -> Option<Result<SyntaxElement, AllocError>> {
        let element = self.cursors.next()?;
        Some(element.map(|cursor| numbered(self.tree, cursor)))
    }
}

/// An iterator over a node and all elements below it, in preorder. Model: the remaining events of
/// the walk.
pub struct DescendantsWithTokens {
    tree: u32,
    cursors: rowan::DescendantsWithTokens<RustLanguage>,
}

// Not derived: a derived drop is opened field by field in each function that drops one.
impl Drop for DescendantsWithTokens {
    fn drop(self) {
        let DescendantsWithTokens {
            tree: _,
            cursors: _cursors,
        } = self;
    }
}

impl Model for DescendantsWithTokens {
    ghost Value = { Walk };

    ghost coded = { Prim.hlevel (codes, tree_code) };

    ghost view = { λ c. record { number = c.tree; events = c.cursors } };
}

impl Iterator for DescendantsWithTokens {
    type Item = Result<SyntaxElement, AllocError>;

    ghost next_gives = { λ s r t. YieldsOrFails (elements_left s) r (elements_left t) };

    ghost remaining = { λ s. at_most (length s.events) };

    fn next(&mut self) -> Option<Result<SyntaxElement, AllocError>> {
        let element = self.cursors.next()?;
        Some(element.map(|cursor| numbered(self.tree, cursor)))
    }
}

impl SyntaxElement {
    /// Returns an iterator over the ancestors, up to the root. Those of a node start with itself,
    /// those of a token with its parent.
    pub fn ancestors(&self) -> Result<Ancestors, AllocError>
        ensures { IfOk result (λ a. a ≡ map (with_number (element_of self.now).number)
            (element_ancestors (cursor_of self.now))) }
    {
        match self {
            SyntaxElement::Node(node) => node.ancestors(),
            SyntaxElement::Token(token) => Ok(Ancestors {
                tree: token.tree(),
                cursors: token.cursor().parent_ancestors()?,
            }),
        }
    }
}

impl SyntaxNode {
    /// Returns an iterator over the node and its ancestors, up to the root.
    pub fn ancestors(&self) -> Result<Ancestors, AllocError>
        ensures { IfOk result (λ a. a ≡ map (with_place self.now) (ancestors self.now.place)) }
    {
        Ok(Ancestors {
            tree: self.tree(),
            cursors: self.cursor().ancestors()?,
        })
    }

    /// Returns the child at index `number`, a node or a token, or `None` if there are not enough
    /// children. No cursor is created for the children before it.
    pub fn nth_child_or_token(
        &self,
        alloc: Global,
        number: usize,
    ) -> Result<Option<SyntaxElement>, AllocError>
        ensures { IfOk result (λ child. child ≡
            option_map (with_cursor self.now.number) (cursor_at (below self.now.place number))) }
    {
        let child = self.cursor().nth_child_or_token(alloc, number)?;
        Ok(numbered_if(self.tree(), child))
    }

    /// Returns an iterator over the child nodes, in source order.
    pub fn children(&self, alloc: Global) -> Result<SyntaxNodeChildren, AllocError>
        ensures { IfOk result
            (λ c. c ≡ map (with_place self.now) (nodes (children self.now.place))) }
    {
        Ok(SyntaxNodeChildren {
            tree: self.tree(),
            cursors: self.cursor().children(alloc)?,
        })
    }

    /// Returns an iterator over the children, nodes and tokens, in source order.
    pub fn children_with_tokens(&self, alloc: Global) -> Result<SyntaxElementChildren, AllocError>
        ensures { IfOk result
            (λ c. c ≡ map (with_cursor self.now.number) (children self.now.place)) }
    {
        Ok(SyntaxElementChildren {
            tree: self.tree(),
            cursors: self.cursor().children_with_tokens(alloc)?,
        })
    }

    /// Returns an iterator over the node and all elements below it, in preorder.
    pub fn descendants_with_tokens(
        &self,
        alloc: Global,
    ) -> Result<DescendantsWithTokens, AllocError>
        ensures { IfOk result
            (λ c. c ≡ record { number = self.now.number; events = walk (Node self.now.place) }) }
    {
        Ok(DescendantsWithTokens {
            tree: self.tree(),
            cursors: self.cursor().descendants_with_tokens(alloc)?,
        })
    }
}
