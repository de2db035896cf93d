//! Functions that nodes and tokens have in common.
ghost use Rattle.std.specs.Prelude.{◌≡◌, IfOk};
ghost use Rattle.rowan_green.specs.declared.utility_types.NodeOrToken.TheVariants.{Node, Token};
ghost use Rattle.rowan.specs.Place.{above, kind_at, start_of, end_of, index_of, top_of};
ghost use Rattle.rowan.specs.Around.{Cursor, place_in, element_ancestors, siblings_after, siblings_before, first};

use crate::api::{SyntaxElement, SyntaxNode, SyntaxToken};
use crate::around::Ancestors;
use crate::language::Language;
use rowan_green::{NodeOrToken, TextRange};
use std::alloc::{AllocError, Global};

/// The functions of a `SyntaxElement`. They are in a trait since `NodeOrToken` is a type of another
/// crate.
pub trait ElementExt<L: Language> {
    /// The cursor of the element.
    ghost cursor: { Self → Cursor };

    /// Returns the kind.
    fn kind(&self) -> L::Kind
        ensures { result ≡ L.from_raw (kind_at (place_in (cursor self.now))) };

    /// Returns the range in the text of the tree, in bytes.
    fn text_range(&self) -> TextRange
        ensures start { result.start.0 ≡ start_of (place_in (cursor self.now)) }
        ensures end { result.end.0 ≡ end_of (place_in (cursor self.now)) };

    /// Returns the index among the parent's children, 0 for a root.
    fn index(&self) -> usize
        ensures { result ≡ index_of (place_in (cursor self.now)) };

    /// Returns the parent, or `None` for a root.
    ///
    /// # Errors
    ///
    /// [`AllocError`] if a reference count overflows.
    fn parent(&self) -> Result<Option<SyntaxNode<L>>, AllocError>
        ensures { IfOk result (λ r. r ≡ above (place_in (cursor self.now))) };

    /// Returns an iterator over the ancestors, up to the root. For a node, it starts with the node
    /// itself; for a token, with its parent.
    ///
    /// # Errors
    ///
    /// [`AllocError`] if a reference count overflows.
    fn ancestors(&self) -> Result<Ancestors<L>, AllocError>
        ensures { IfOk result (λ a. a ≡ element_ancestors (cursor self.now)) };

    /// Returns the root of the tree.
    ///
    /// # Errors
    ///
    /// [`AllocError`] if a reference count overflows.
    fn tree_top(&self) -> Result<SyntaxNode<L>, AllocError>
        ensures { IfOk result (λ r. r ≡ top_of (place_in (cursor self.now))) };

    /// Returns the next sibling, node or token; `None` for a root and for the last child.
    ///
    /// # Errors
    ///
    /// [`AllocError`] if an allocation fails or a reference count overflows.
    fn next_sibling_or_token(&self, alloc: Global) -> Result<Option<SyntaxElement<L>>, AllocError>
        ensures { IfOk result (λ r. r ≡ first (siblings_after (place_in (cursor self.now)))) };

    /// Returns the previous sibling, node or token; `None` for a root and for the first child.
    ///
    /// # Errors
    ///
    /// [`AllocError`] if an allocation fails or a reference count overflows.
    fn prev_sibling_or_token(&self, alloc: Global) -> Result<Option<SyntaxElement<L>>, AllocError>
        ensures { IfOk result (λ r. r ≡ first (siblings_before (place_in (cursor self.now)))) };
}

impl<L: Language> ElementExt<L> for NodeOrToken<SyntaxNode<L>, SyntaxToken<L>> {
    ghost cursor = { λ element. element };

    fn kind(&self) -> L::Kind {
        match self {
            NodeOrToken::Node(node) => node.kind(),
            NodeOrToken::Token(token) => token.kind(),
        }
    }

    fn text_range(&self) -> TextRange {
        match self {
            NodeOrToken::Node(node) => node.text_range(),
            NodeOrToken::Token(token) => token.text_range(),
        }
    }

    fn index(&self) -> usize {
        match self {
            NodeOrToken::Node(node) => node.index(),
            NodeOrToken::Token(token) => token.index(),
        }
    }

    fn parent(&self) -> Result<Option<SyntaxNode<L>>, AllocError> {
        match self {
            NodeOrToken::Node(node) => node.parent(),
            NodeOrToken::Token(token) => token.parent(),
        }
    }

    fn ancestors(&self) -> Result<Ancestors<L>, AllocError> {
        match self {
            NodeOrToken::Node(node) => node.ancestors(),
            NodeOrToken::Token(token) => token.parent_ancestors(),
        }
    }

    fn tree_top(&self) -> Result<SyntaxNode<L>, AllocError> {
        match self {
            NodeOrToken::Node(node) => node.tree_top(),
            NodeOrToken::Token(token) => token.tree_top(),
        }
    }

    fn next_sibling_or_token(&self, alloc: Global) -> Result<Option<SyntaxElement<L>>, AllocError> {
        match self {
            NodeOrToken::Node(node) => node.next_sibling_or_token(alloc),
            NodeOrToken::Token(token) => token.next_sibling_or_token(alloc),
        }
    }

    fn prev_sibling_or_token(&self, alloc: Global) -> Result<Option<SyntaxElement<L>>, AllocError> {
        match self {
            NodeOrToken::Node(node) => node.prev_sibling_or_token(alloc),
            NodeOrToken::Token(token) => token.prev_sibling_or_token(alloc),
        }
    }
}
