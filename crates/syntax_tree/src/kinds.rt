//! Children of one kind, and all nodes below a node.
ghost use Rattle.std.specs.Prelude.{◌≡◌, ◌<◌, length, IfOk, IsSome};
ghost use Rattle.std.specs.List.{filter};
ghost use Rattle.std.specs.Coded.{codes};
ghost use Rattle.std.specs.Iterator.{at_most};
ghost use Rattle.parser_input.specs.Kind.{raw_of};
ghost use Rattle.rowan_green.specs.declared.utility_types.NodeOrToken.TheVariants.{Node};
ghost use Rattle.rowan_green.specs.Forest.{tree_code};
ghost use Rattle.rowan.specs.Around.{first};
ghost use Rattle.rowan.specs.Walk.{walk};
ghost use Rattle.rowan.specs.Yields.{YieldsOrFails};
ghost use Rattle.syntax_tree.specs.Nodes.{child_nodes, child_tokens, is_of_kind, Wanted, wanted_nodes, nodes_left};
ghost use Rattle.syntax_tree.specs.Handle.{Walk};

use crate::element::SyntaxElement;
use crate::handle::{SyntaxNode, SyntaxToken};
use crate::iter::SyntaxNodeChildren;
use crate::language::RustLanguage;
use parser_input::SyntaxKind;
use std::alloc::{AllocError, Global};
use std::marker::Model;

/// An iterator over the child nodes of one kind. Model: the kind, and the remaining child nodes of
/// all kinds.
pub struct ChildrenOfKind {
    kind: u16,
    nodes: SyntaxNodeChildren,
}

// Not derived: a derived drop is opened field by field in each function that drops one.
impl Drop for ChildrenOfKind {
    fn drop(self) {
        let ChildrenOfKind {
            kind: _,
            nodes: _nodes,
        } = self;
    }
}

impl Model for ChildrenOfKind {
    ghost Value = { Wanted };

    ghost coded = { Prim.hlevel (codes, tree_code) };

    ghost view = { λ c. record { kind = c.kind; nodes = c.nodes } };
}

impl Iterator for ChildrenOfKind {
    type Item = Result<SyntaxNode, AllocError>;

    ghost next_gives = { λ s r t. YieldsOrFails (wanted_nodes s) r (wanted_nodes t) };

    ghost remaining = { λ s. at_most (length s.nodes) };

    fn next(&mut self) -> Option<Result<SyntaxNode, AllocError>> {
        next_of_kind(self.kind, &mut self.nodes)
    }
}

/// Returns the next of `nodes` whose raw kind is `kind`.
fn next_of_kind(kind: u16, nodes: &mut SyntaxNodeChildren) -> Option<Result<SyntaxNode, AllocError>>
    ensures gives { YieldsOrFails (filter (is_of_kind kind) nodes.old) result
        (filter (is_of_kind kind) nodes.new) }
    ensures goes { IsSome result → length nodes.new < length nodes.old }
{
    while let Some(node) = nodes.next() {
        match node {
            Ok(node) => {
                if node.has_raw_kind(kind) {
                    return Some(Ok(node));
                }
            }
            Err(error) => return Some(Err(error)),
        }
    }
    None
}

/// An iterator over a node and all nodes below it, in preorder. Model: the remaining events of the
/// walk.
pub struct Descendants {
    tree: u32,
    cursors: rowan::Descendants<RustLanguage>,
}

// Not derived: a derived drop is opened field by field in each function that drops one.
impl Drop for Descendants {
    fn drop(self) {
        let Descendants {
            tree: _,
            cursors: _cursors,
        } = self;
    }
}

impl Model for Descendants {
    ghost Value = { Walk };

    ghost coded = { Prim.hlevel (codes, tree_code) };

    ghost view = { λ c. record { number = c.tree; events = c.cursors } };
}

impl Iterator for Descendants {
    type Item = Result<SyntaxNode, AllocError>;

    ghost next_gives = { λ s r t. YieldsOrFails (nodes_left s) r (nodes_left t) };

    ghost remaining = { λ s. at_most (length s.events) };

    fn next(&mut self) -> Option<Result<SyntaxNode, AllocError>> {
        let node = self.cursors.next()?;
        Some(node.map(|cursor| SyntaxNode::of(self.tree, cursor)))
    }
}

impl SyntaxNode {
    /// Returns `true` if `kind` is the raw number of its kind.
    fn has_raw_kind(&self, kind: u16) -> bool
        ensures { result ≡ is_of_kind kind self.now }
    {
        self.cursor().green().kind().0 == kind
    }

    /// Returns an iterator over the node and all nodes below it, in preorder.
    pub fn descendants(&self, alloc: Global) -> Result<Descendants, AllocError>
        ensures { IfOk result
            (λ c. c ≡ record { number = self.now.number; events = walk (Node self.now.place) }) }
    {
        Ok(Descendants {
            tree: self.tree(),
            cursors: self.cursor().descendants(alloc)?,
        })
    }

    /// Returns an iterator over the child nodes of kind `kind`, in source order.
    pub fn children_of(&self, alloc: Global, kind: SyntaxKind) -> Result<ChildrenOfKind, AllocError>
        ensures { IfOk result
            (λ c. c ≡ record { kind = raw_of kind; nodes = child_nodes self.now }) }
    {
        Ok(ChildrenOfKind {
            kind: kind.to_raw(),
            nodes: self.children(alloc)?,
        })
    }

    /// Returns the first child node of kind `kind`.
    pub fn child(&self, alloc: Global, kind: SyntaxKind) -> Result<Option<SyntaxNode>, AllocError>
        ensures { IfOk result
            (λ n. n ≡ first (filter (is_of_kind (raw_of kind)) (child_nodes self.now))) }
    {
        let mut found = self.children_of(alloc, kind)?;
        found.next().transpose()
    }

    /// Returns the first child token of kind `kind`.
    pub fn child_token(
        &self,
        alloc: Global,
        kind: SyntaxKind,
    ) -> Result<Option<SyntaxToken>, AllocError>
        ensures { IfOk result
            (λ t. t ≡ first (filter (is_of_kind (raw_of kind)) (child_tokens self.now))) }
    {
        let kind = kind.to_raw();
        for element in self.children_with_tokens(alloc)? {
            if let SyntaxElement::Token(token) = element? {
                if token.has_raw_kind(kind) {
                    return Ok(Some(token));
                }
            }
        }
        Ok(None)
    }
}

impl SyntaxToken {
    /// Returns `true` if `kind` is the raw number of its kind.
    fn has_raw_kind(&self, kind: u16) -> bool
        ensures { result ≡ is_of_kind kind self.now }
    {
        self.cursor().green().kind().0 == kind
    }
}
