//! Cursors with the kinds of their language.
ghost use Rattle.std.specs.Prelude.{◌≡◌, ◌≤◌, [], reverse, IfOk, IsSome, Some};
ghost use Rattle.std.specs.Coded.{codes};
ghost use Rattle.rowan_green.specs.Forest.{Tree, tree_code};
ghost use Rattle.rowan_green.specs.declared.utility_types.NodeOrToken.TheVariants.{Node, Token};
ghost use Rattle.rowan.specs.Place.{Place, above, below, term_at, kind_at, text_at, start_of, end_of, index_of, top_of};
ghost use Rattle.rowan.specs.Ranges.{child_at_range, LeadsTo};
ghost use Rattle.rowan.specs.Leaves.{tokens_in, tokens_after, tokens_before};
ghost use Rattle.rowan.specs.Around.{Cursor, cursor_at, children, children_back, siblings_after, siblings_before, nodes, first};

use crate::cursor;
use crate::language::Language;
use rowan_green::{GreenNode, GreenToken, NodeOrToken, TextRange, TextSize};
use std::alloc::{AllocError, Global};
use std::marker::{Model, PhantomData};

/// A node at its position in a tree. Cloning does not allocate.
#[derive(Drop)]
pub struct SyntaxNode<L> {
    cursor: cursor::SyntaxNode,
    language: PhantomData<L>,
}

impl<L> Model for SyntaxNode<L> {
    ghost Value = { Place };

    ghost coded = { Prim.hlevel (codes, tree_code) };

    ghost view = { λ n. n.cursor };
}

/// A token at its position in a tree. Cloning does not allocate.
#[derive(Drop)]
pub struct SyntaxToken<L> {
    cursor: cursor::SyntaxToken,
    language: PhantomData<L>,
}

impl<L> Model for SyntaxToken<L> {
    ghost Value = { Place };

    ghost coded = { Prim.hlevel (codes, tree_code) };

    ghost view = { λ t. t.cursor };
}

/// A node or a token at its position in a tree.
pub type SyntaxElement<L> = NodeOrToken<SyntaxNode<L>, SyntaxToken<L>>;

impl<L: Language> SyntaxNode<L> {
    pub(crate) fn of(cursor: cursor::SyntaxNode) -> SyntaxNode<L>
        ensures { result ≡ cursor }
    {
        SyntaxNode {
            cursor,
            language: PhantomData,
        }
    }

    pub(crate) fn cursor(&self) -> &cursor::SyntaxNode
        ensures { result.now ≡ self.now }
    {
        &self.cursor
    }

    /// Returns the root of a tree with the green node `green`.
    ///
    /// # Errors
    ///
    /// [`AllocError`] if an allocation fails.
    pub fn new_root(alloc: Global, green: GreenNode) -> Result<SyntaxNode<L>, AllocError>
        ensures { IfOk result (λ n. n ≡ record { root = green; up = [] }) }
    {
        Ok(SyntaxNode::of(cursor::SyntaxNode::new_root(alloc, green)?))
    }

    /// Returns the kind.
    pub fn kind(&self) -> L::Kind
        ensures { result ≡ L.from_raw (kind_at self.now) }
    {
        let raw = self.cursor.kind();
        L::kind_from_raw(raw)
    }

    /// Returns the range in the text of the tree, in bytes.
    pub fn text_range(&self) -> TextRange
        ensures start { result.start.0 ≡ start_of self.now }
        ensures end { result.end.0 ≡ end_of self.now }
    {
        TextRange::new(TextSize(self.cursor.start()), TextSize(self.cursor.end()))
    }

    /// Returns the index among the parent's children, 0 for a root.
    pub fn index(&self) -> usize
        ensures { result ≡ index_of self.now }
    {
        self.cursor.index() as usize
    }

    /// Returns a reference to the green node.
    pub fn green(&self) -> &GreenNode
        ensures { term_at self.now ≡ Some (Node result.now) }
    {
        self.cursor.green()
    }

    /// Returns the parent, or `None` for a root.
    ///
    /// # Errors
    ///
    /// [`AllocError`] if a reference count overflows.
    pub fn parent(&self) -> Result<Option<SyntaxNode<L>>, AllocError>
        ensures { IfOk result (λ r. r ≡ above self.now) }
    {
        match self.cursor.parent() {
            Some(parent) => Ok(Some(SyntaxNode::of(parent.clone()?))),
            None => Ok(None),
        }
    }

    /// Returns the root of the tree.
    ///
    /// # Errors
    ///
    /// [`AllocError`] if a reference count overflows.
    pub fn tree_top(&self) -> Result<SyntaxNode<L>, AllocError>
        ensures { IfOk result (λ r. r ≡ top_of self.now) }
    {
        let top = self.cursor.tree_top();
        Ok(SyntaxNode::of(top.clone()?))
    }

    /// Returns the first child that is a node.
    ///
    /// # Errors
    ///
    /// [`AllocError`] if an allocation fails or a reference count overflows.
    pub fn first_child(&self, alloc: Global) -> Result<Option<SyntaxNode<L>>, AllocError>
        ensures { IfOk result (λ r. r ≡ first (nodes (children self.now))) }
    {
        Ok(node_of(self.cursor.first_child(alloc)?))
    }

    /// Returns the last child that is a node.
    ///
    /// # Errors
    ///
    /// [`AllocError`] if an allocation fails or a reference count overflows.
    pub fn last_child(&self, alloc: Global) -> Result<Option<SyntaxNode<L>>, AllocError>
        ensures { IfOk result (λ r. r ≡ first (nodes (children_back self.now))) }
    {
        Ok(node_of(self.cursor.last_child(alloc)?))
    }

    /// Returns the first child, node or token.
    ///
    /// # Errors
    ///
    /// [`AllocError`] if an allocation fails or a reference count overflows.
    pub fn first_child_or_token(
        &self,
        alloc: Global,
    ) -> Result<Option<SyntaxElement<L>>, AllocError>
        ensures { IfOk result (λ r. r ≡ first (children self.now)) }
    {
        Ok(element_of(self.cursor.first_child_or_token(alloc)?))
    }

    /// Returns child `number`, counted from 0, nodes and tokens alike. Creates no cursors for the
    /// children before it.
    ///
    /// # Errors
    ///
    /// [`AllocError`] if an allocation fails or a reference count overflows.
    pub fn nth_child_or_token(
        &self,
        alloc: Global,
        number: usize,
    ) -> Result<Option<SyntaxElement<L>>, AllocError>
        ensures { IfOk result (λ r. r ≡ cursor_at (below self.now number)) }
    {
        Ok(element_of(self.cursor.nth_child_or_token(alloc, number)?))
    }

    /// Returns the last child, node or token.
    ///
    /// # Errors
    ///
    /// [`AllocError`] if an allocation fails or a reference count overflows.
    pub fn last_child_or_token(&self, alloc: Global) -> Result<Option<SyntaxElement<L>>, AllocError>
        ensures { IfOk result (λ r. r ≡ first (children_back self.now)) }
    {
        Ok(element_of(self.cursor.last_child_or_token(alloc)?))
    }

    /// Returns the next sibling that is a node.
    ///
    /// # Errors
    ///
    /// [`AllocError`] if an allocation fails or a reference count overflows.
    pub fn next_sibling(&self, alloc: Global) -> Result<Option<SyntaxNode<L>>, AllocError>
        ensures { IfOk result (λ r. r ≡ first (nodes (siblings_after self.now))) }
    {
        Ok(node_of(self.cursor.next_sibling(alloc)?))
    }

    /// Returns the nearest previous sibling that is a node.
    ///
    /// # Errors
    ///
    /// [`AllocError`] if an allocation fails or a reference count overflows.
    pub fn prev_sibling(&self, alloc: Global) -> Result<Option<SyntaxNode<L>>, AllocError>
        ensures { IfOk result (λ r. r ≡ first (nodes (siblings_before self.now))) }
    {
        Ok(node_of(self.cursor.prev_sibling(alloc)?))
    }

    /// Returns the next sibling, node or token.
    ///
    /// # Errors
    ///
    /// [`AllocError`] if an allocation fails or a reference count overflows.
    pub fn next_sibling_or_token(
        &self,
        alloc: Global,
    ) -> Result<Option<SyntaxElement<L>>, AllocError>
        ensures { IfOk result (λ r. r ≡ first (siblings_after self.now)) }
    {
        Ok(element_of(self.cursor.next_sibling_or_token(alloc)?))
    }

    /// Returns the previous sibling, node or token.
    ///
    /// # Errors
    ///
    /// [`AllocError`] if an allocation fails or a reference count overflows.
    pub fn prev_sibling_or_token(
        &self,
        alloc: Global,
    ) -> Result<Option<SyntaxElement<L>>, AllocError>
        ensures { IfOk result (λ r. r ≡ first (siblings_before self.now)) }
    {
        Ok(element_of(self.cursor.prev_sibling_or_token(alloc)?))
    }

    /// Returns the first token below the node. Empty nodes before it are skipped.
    ///
    /// # Errors
    ///
    /// [`AllocError`] if an allocation fails or a reference count overflows.
    pub fn first_token(&self, alloc: Global) -> Result<Option<SyntaxToken<L>>, AllocError>
        ensures { IfOk result (λ r. r ≡ first (tokens_in self.now)) }
    {
        Ok(token_of(self.cursor.first_token(alloc)?))
    }

    /// Returns the last token below the node. Empty nodes after it are skipped.
    ///
    /// # Errors
    ///
    /// [`AllocError`] if an allocation fails or a reference count overflows.
    pub fn last_token(&self, alloc: Global) -> Result<Option<SyntaxToken<L>>, AllocError>
        ensures { IfOk result (λ r. r ≡ first (reverse (tokens_in self.now))) }
    {
        Ok(token_of(self.cursor.last_token(alloc)?))
    }

    /// Returns the first child, node or token, whose range contains `range`.
    ///
    /// # Errors
    ///
    /// [`AllocError`] if an allocation fails or a reference count overflows.
    pub fn child_or_token_at_range(
        &self,
        alloc: Global,
        range: TextRange,
    ) -> Result<Option<SyntaxElement<L>>, AllocError>
        ensures { IfOk result (λ r. r ≡ child_at_range range.start.0 range.end.0 self.now) }
    {
        let child = self
            .cursor
            .child_at_range(alloc, range.start().0, range.end().0)?;
        Ok(element_of(child))
    }

    /// Returns the innermost element that is reached by descending with
    /// [`child_or_token_at_range`](Self::child_or_token_at_range); the node itself if no child's
    /// range contains `range`. `range` is within the node's range.
    ///
    /// # Errors
    ///
    /// [`AllocError`] if an allocation fails or a reference count overflows.
    pub fn covering_element(
        &self,
        alloc: Global,
        range: TextRange,
    ) -> Result<SyntaxElement<L>, AllocError>
        requires starts { start_of self.now ≤ range.start.0 }
        requires ends { range.end.0 ≤ end_of self.now }
        ensures { IfOk result (LeadsTo range.start.0 range.end.0 self.now) }
    {
        let found = self
            .cursor
            .covering_element(alloc, range.start().0, range.end().0)?;
        Ok(element(found))
    }

    /// Returns the root of a new tree with this green node.
    ///
    /// # Errors
    ///
    /// [`AllocError`] if an allocation fails or a reference count overflows.
    pub fn clone_subtree(&self, alloc: Global) -> Result<SyntaxNode<L>, AllocError>
        ensures { IfOk result
            (λ n. (g : Tree) × (term_at self.now ≡ Some (Node g))
            × (n ≡ record { root = g; up = [] })) }
    {
        SyntaxNode::new_root(alloc, self.green().clone()?)
    }
}

/// Returns the node of a cursor, if there is one.
pub(crate) fn node_of<L: Language>(cursor: Option<cursor::SyntaxNode>) -> Option<SyntaxNode<L>>
    ensures { result ≡ cursor }
{
    cursor.map(|cursor| SyntaxNode::of(cursor))
}

/// Returns the token of a cursor, if there is one.
pub(crate) fn token_of<L: Language>(cursor: Option<cursor::SyntaxToken>) -> Option<SyntaxToken<L>>
    ensures { result ≡ cursor }
{
    cursor.map(|cursor| SyntaxToken::of(cursor))
}

/// Returns the element of a cursor.
pub(crate) fn element<L: Language>(cursor: cursor::SyntaxElement) -> SyntaxElement<L>
    ensures { result ≡ cursor }
{
    match cursor {
        NodeOrToken::Node(cursor) => NodeOrToken::Node(SyntaxNode::of(cursor)),
        NodeOrToken::Token(cursor) => NodeOrToken::Token(SyntaxToken::of(cursor)),
    }
}

/// Returns the element of a cursor, if there is one.
pub(crate) fn element_of<L: Language>(
    cursor: Option<cursor::SyntaxElement>,
) -> Option<SyntaxElement<L>>
    ensures { result ≡ cursor }
{
    cursor.map(|cursor| element(cursor))
}

impl<L: Language> SyntaxToken<L> {
    pub(crate) fn of(cursor: cursor::SyntaxToken) -> SyntaxToken<L>
        ensures { result ≡ cursor }
    {
        SyntaxToken {
            cursor,
            language: PhantomData,
        }
    }

    pub(crate) fn cursor(&self) -> &cursor::SyntaxToken
        ensures { result.now ≡ self.now }
    {
        &self.cursor
    }

    /// Returns the kind.
    pub fn kind(&self) -> L::Kind
        ensures { result ≡ L.from_raw (kind_at self.now) }
    {
        L::kind_from_raw(self.cursor.kind())
    }

    /// Returns the range in the text of the tree, in bytes.
    pub fn text_range(&self) -> TextRange
        ensures start { result.start.0 ≡ start_of self.now }
        ensures end { result.end.0 ≡ end_of self.now }
    {
        let end = TextSize(self.cursor.end());
        TextRange::new(TextSize(self.cursor.start()), end)
    }

    /// Returns the index among the parent's children, nodes and tokens alike.
    pub fn index(&self) -> usize
        ensures { result ≡ index_of self.now }
    {
        let index = self.cursor.index();
        index as usize
    }

    /// Returns the text.
    pub fn text(&self) -> &str
        ensures { result.now ≡ text_at self.now }
    {
        self.cursor.text()
    }

    /// Returns a reference to the green token.
    pub fn green(&self) -> &GreenToken
        ensures { term_at self.now ≡ Some (Token result.now) }
    {
        self.cursor.green()
    }

    /// Returns the parent. The result is never `None`.
    ///
    /// # Errors
    ///
    /// [`AllocError`] if a reference count overflows.
    pub fn parent(&self) -> Result<Option<SyntaxNode<L>>, AllocError>
        ensures ok { IfOk result (λ r. r ≡ above self.now) }
        ensures some { IfOk result IsSome }
    {
        Ok(Some(SyntaxNode::of(self.cursor.parent().clone()?)))
    }

    /// Returns the root of the tree.
    ///
    /// # Errors
    ///
    /// [`AllocError`] if a reference count overflows.
    pub fn tree_top(&self) -> Result<SyntaxNode<L>, AllocError>
        ensures { IfOk result (λ r. r ≡ top_of self.now) }
    {
        Ok(SyntaxNode::of(self.cursor.tree_top().clone()?))
    }

    /// Returns the next sibling, node or token.
    ///
    /// # Errors
    ///
    /// [`AllocError`] if an allocation fails or a reference count overflows.
    pub fn next_sibling_or_token(
        &self,
        alloc: Global,
    ) -> Result<Option<SyntaxElement<L>>, AllocError>
        ensures { IfOk result (λ r. r ≡ first (siblings_after self.now)) }
    {
        Ok(element_of(self.cursor.next_sibling_or_token(alloc)?))
    }

    /// Returns the previous sibling, node or token.
    ///
    /// # Errors
    ///
    /// [`AllocError`] if an allocation fails or a reference count overflows.
    pub fn prev_sibling_or_token(
        &self,
        alloc: Global,
    ) -> Result<Option<SyntaxElement<L>>, AllocError>
        ensures { IfOk result (λ r. r ≡ first (siblings_before self.now)) }
    {
        Ok(element_of(self.cursor.prev_sibling_or_token(alloc)?))
    }

    /// Returns the next token of the tree, in this parent or another.
    ///
    /// # Errors
    ///
    /// [`AllocError`] if an allocation fails or a reference count overflows.
    pub fn next_token(&self, alloc: Global) -> Result<Option<SyntaxToken<L>>, AllocError>
        ensures { IfOk result (λ r. r ≡ first (tokens_after self.now)) }
    {
        Ok(token_of(self.cursor.next_token(alloc)?))
    }

    /// Returns the previous token of the tree, in this parent or another.
    ///
    /// # Errors
    ///
    /// [`AllocError`] if an allocation fails or a reference count overflows.
    pub fn prev_token(&self, alloc: Global) -> Result<Option<SyntaxToken<L>>, AllocError>
        ensures { IfOk result (λ r. r ≡ first (tokens_before self.now)) }
    {
        Ok(token_of(self.cursor.prev_token(alloc)?))
    }
}

impl<L: Language> Clone for SyntaxNode<L> {
    ghost is_clone = { λ n copy. copy ≡ n };

    /// Returns another cursor to the node.
    ///
    /// # Errors
    ///
    /// [`AllocError`] if a reference count overflows.
    fn clone(&self) -> Result<SyntaxNode<L>, AllocError> {
        Ok(SyntaxNode::of(self.cursor.clone()?))
    }
}

impl<L: Language> Clone for SyntaxToken<L> {
    ghost is_clone = { λ t copy. copy ≡ t };

    /// Returns another cursor to the token.
    ///
    /// # Errors
    ///
    /// [`AllocError`] if a reference count overflows.
    fn clone(&self) -> Result<SyntaxToken<L>, AllocError> {
        Ok(SyntaxToken::of(self.cursor.clone()?))
    }
}

impl<L: Language> From<SyntaxNode<L>> for NodeOrToken<SyntaxNode<L>, SyntaxToken<L>> {
    ghost from_gives = { λ node element. element ≡ Node node };

    fn from(node: SyntaxNode<L>) -> SyntaxElement<L> {
        NodeOrToken::Node(node)
    }
}

impl<L: Language> From<SyntaxToken<L>> for NodeOrToken<SyntaxNode<L>, SyntaxToken<L>> {
    ghost from_gives = { λ token element. element ≡ Token token };

    fn from(token: SyntaxToken<L>) -> SyntaxElement<L> {
        NodeOrToken::Token(token)
    }
}
