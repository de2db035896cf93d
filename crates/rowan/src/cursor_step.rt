//! Steps from a cursor to adjacent cursors. Each step reads one or two children of one node; only
//! the search for the next child that is a node may read more.
ghost use Rattle.std.specs.Prelude.{◌≡◌, ◌+◌, ◌<◌, ◌≤◌, ◌^◌, length, IfOk, OnErr, IsSome};
ghost use Rattle.std.specs.Option.{option_copied};
ghost use Rattle.rowan.specs.Place.{above, below, terms_below, start_of, end_of, index_of, top_of};
ghost use Rattle.rowan.specs.Around.{cursor_at, place_in, children, children_back, children_before, children_from, siblings_after, siblings_before, nodes, first};

use crate::cursor::{SyntaxElement, SyntaxNode, SyntaxToken};
use rowan_green::NodeOrToken;
use std::alloc::{AllocError, Global};

impl SyntaxNode {
    /// Returns the first child, node or token.
    ///
    /// # Errors
    ///
    /// [`AllocError`] if an allocation fails or a reference count overflows.
    pub fn first_child_or_token(&self, alloc: Global) -> Result<Option<SyntaxElement>, AllocError>
        ensures { IfOk result (λ r. r ≡ first (children self.now)) }
    {
        self.child(alloc, 0, self.start())
    }

    /// Returns child `number`, if any.
    ///
    /// # Errors
    ///
    /// [`AllocError`] if an allocation fails or a reference count overflows.
    pub fn nth_child_or_token(
        &self,
        alloc: Global,
        number: usize,
    ) -> Result<Option<SyntaxElement>, AllocError>
        ensures { IfOk result (λ r. r ≡ cursor_at (below self.now number)) }
    {
        prove!(self.start() <= u32::MAX);
        let Some(start) = self.green().child_start(number) else {
            return Ok(None);
        };
        self.child(alloc, number, self.start() + start.0)
    }

    /// Returns the last child, node or token.
    ///
    /// # Errors
    ///
    /// [`AllocError`] if an allocation fails or a reference count overflows.
    pub fn last_child_or_token(&self, alloc: Global) -> Result<Option<SyntaxElement>, AllocError>
        ensures { IfOk result (λ r. r ≡ first (children_back self.now)) }
    {
        self.child_before(alloc, self.green().children().len(), self.end())
    }

    /// Returns the next sibling, node or token.
    ///
    /// # Errors
    ///
    /// [`AllocError`] if an allocation fails or a reference count overflows.
    pub fn next_sibling_or_token(&self, alloc: Global) -> Result<Option<SyntaxElement>, AllocError>
        ensures { IfOk result (λ r. r ≡ first (siblings_after self.now)) }
    {
        match self.parent() {
            None => Ok(None),
            Some(parent) => parent.child(alloc, self.index() as usize + 1, self.end()),
        }
    }

    /// Returns the previous sibling, node or token.
    ///
    /// # Errors
    ///
    /// [`AllocError`] if an allocation fails or a reference count overflows.
    pub fn prev_sibling_or_token(&self, alloc: Global) -> Result<Option<SyntaxElement>, AllocError>
        ensures { IfOk result (λ r. r ≡ first (siblings_before self.now)) }
    {
        prove!(self.green().text_len().0 <= u32::MAX);
        match self.parent() {
            None => Ok(None),
            Some(parent) => parent.child_before(alloc, self.index() as usize, self.start()),
        }
    }

    /// Returns the child before index `count`, if any. The children before that index end at `end`.
    ///
    /// # Errors
    ///
    /// [`AllocError`] if an allocation fails or a reference count overflows.
    pub fn child_before(
        &self,
        alloc: Global,
        count: usize,
        end: u32,
    ) -> Result<Option<SyntaxElement>, AllocError>
        requires at_end { end ≡ start_of (below self.now count) }
        requires within { count ≤ length (terms_below self.now) }
        ensures { IfOk result (λ r. r ≡ first (children_before self.now count)) }
    {
        let Some(index) = count.checked_sub(1) else {
            return Ok(None);
        };
        let Some(child) = self.green().child(index) else {
            return Ok(None);
        };
        self.child(alloc, index, end - child.text_len().0)
    }

    /// Returns the first node among the children from index `from` on. Child `from` starts at
    /// `offset`.
    ///
    /// # Errors
    ///
    /// [`AllocError`] if an allocation fails or a reference count overflows. Only a node that
    /// exists can cause an error.
    pub fn node_from(
        &self,
        alloc: Global,
        from: usize,
        offset: u32,
    ) -> Result<Option<SyntaxNode>, AllocError>
        requires { offset ≡ start_of (below self.now from) }
        ensures ok { IfOk result (λ r. r ≡ first (nodes (children_from self.now from))) }
        ensures refused { OnErr result (IsSome (first (nodes (children_from self.now from)))) }
    {
        let green = self.green();
        let count = green.children().len();
        prove!(self.start() <= u32::MAX);
        let mut offset = offset;
        let mut index = from;
        while index < count {
            let Some(child) = green.child(index) else {
                return Ok(None);
            };
            match child {
                NodeOrToken::Node(node) => {
                    let child = self.child_node(alloc, index as u32, offset, node.to_owned()?)?;
                    return Ok(Some(child));
                }
                NodeOrToken::Token(token) => offset += token.text_len().0,
            }
            index += 1;
        }
        Ok(None)
    }

    /// Returns the last node among the children before index `count`, which end at `end`.
    ///
    /// # Errors
    ///
    /// [`AllocError`] if an allocation fails or a reference count overflows.
    pub fn node_before(
        &self,
        alloc: Global,
        count: usize,
        end: u32,
    ) -> Result<Option<SyntaxNode>, AllocError>
        requires { end ≡ start_of (below self.now count) }
        ensures { IfOk result (λ r. r ≡ first (nodes (children_before self.now count))) }
    {
        let green = self.green();
        prove!(green.children().len() <= u32::MAX as usize);
        let mut end = end;
        let mut index = count;
        while index > 0 {
            index -= 1;
            let Some(child) = green.child(index) else {
                continue;
            };
            end -= child.text_len().0;
            if let NodeOrToken::Node(node) = child {
                let child = self.child_node(alloc, index as u32, end, node.to_owned()?)?;
                return Ok(Some(child));
            }
        }
        Ok(None)
    }
}

impl SyntaxNode {
    /// Returns the first child that is a node.
    ///
    /// # Errors
    ///
    /// [`AllocError`] if an allocation fails or a reference count overflows.
    pub fn first_child(&self, alloc: Global) -> Result<Option<SyntaxNode>, AllocError>
        ensures { IfOk result (λ r. r ≡ first (nodes (children self.now))) }
    {
        self.node_from(alloc, 0, self.start())
    }

    /// Returns the last child that is a node.
    ///
    /// # Errors
    ///
    /// [`AllocError`] if an allocation fails or a reference count overflows.
    pub fn last_child(&self, alloc: Global) -> Result<Option<SyntaxNode>, AllocError>
        ensures { IfOk result (λ r. r ≡ first (nodes (children_back self.now))) }
    {
        self.node_before(alloc, self.green().children().len(), self.end())
    }

    /// Returns the next sibling that is a node.
    ///
    /// # Errors
    ///
    /// [`AllocError`] if an allocation fails or a reference count overflows.
    pub fn next_sibling(&self, alloc: Global) -> Result<Option<SyntaxNode>, AllocError>
        ensures { IfOk result (λ r. r ≡ first (nodes (siblings_after self.now))) }
    {
        match self.parent() {
            None => Ok(None),
            Some(parent) => parent.node_from(alloc, self.index() as usize + 1, self.end()),
        }
    }

    /// Returns the nearest previous sibling that is a node.
    ///
    /// # Errors
    ///
    /// [`AllocError`] if an allocation fails or a reference count overflows.
    pub fn prev_sibling(&self, alloc: Global) -> Result<Option<SyntaxNode>, AllocError>
        ensures { IfOk result (λ r. r ≡ first (nodes (siblings_before self.now))) }
    {
        match self.parent() {
            None => Ok(None),
            Some(parent) => parent.node_before(alloc, self.index() as usize, self.start()),
        }
    }

    /// Returns the root of the tree.
    pub fn tree_top(&self) -> &SyntaxNode
        ensures { result.now ≡ top_of self.now }
    {
        let mut top = self;
        while let Some(parent) = top.parent() {
            top = parent;
        }
        top
    }
}

impl SyntaxToken {
    /// Returns the next sibling, node or token.
    ///
    /// # Errors
    ///
    /// [`AllocError`] if an allocation fails or a reference count overflows.
    pub fn next_sibling_or_token(&self, alloc: Global) -> Result<Option<SyntaxElement>, AllocError>
        ensures { IfOk result (λ r. r ≡ first (siblings_after self.now)) }
    {
        let parent = self.parent();
        parent.child(alloc, self.index() as usize + 1, self.end())
    }

    /// Returns the previous sibling, node or token.
    ///
    /// # Errors
    ///
    /// [`AllocError`] if an allocation fails or a reference count overflows.
    pub fn prev_sibling_or_token(&self, alloc: Global) -> Result<Option<SyntaxElement>, AllocError>
        ensures { IfOk result (λ r. r ≡ first (siblings_before self.now)) }
    {
        prove!(self.green().text_len().0 <= u32::MAX);
        let parent = self.parent();
        parent.child_before(alloc, self.index() as usize, self.start())
    }

    /// Returns the root of the tree.
    pub fn tree_top(&self) -> &SyntaxNode
        ensures { result.now ≡ top_of self.now }
    {
        self.parent().tree_top()
    }
}

/// Returns the next sibling of an element, node or token.
///
/// # Errors
///
/// [`AllocError`] if an allocation fails or a reference count overflows.
pub fn next_sibling_of(
    element: &SyntaxElement,
    alloc: Global,
) -> Result<Option<SyntaxElement>, AllocError>
    ensures { IfOk result (λ r. r ≡ first (siblings_after (place_in element.now))) }
{
    match element {
        NodeOrToken::Node(node) => node.next_sibling_or_token(alloc),
        NodeOrToken::Token(token) => token.next_sibling_or_token(alloc),
    }
}

/// Returns the previous sibling of an element, node or token.
///
/// # Errors
///
/// [`AllocError`] if an allocation fails or a reference count overflows.
pub fn prev_sibling_of(
    element: &SyntaxElement,
    alloc: Global,
) -> Result<Option<SyntaxElement>, AllocError>
    ensures { IfOk result (λ r. r ≡ first (siblings_before (place_in element.now))) }
{
    match element {
        NodeOrToken::Node(node) => node.prev_sibling_or_token(alloc),
        NodeOrToken::Token(token) => token.prev_sibling_or_token(alloc),
    }
}

/// Returns the parent of an element, or `None` for a root.
pub fn parent_of(element: &SyntaxElement) -> Option<&SyntaxNode>
    ensures { option_copied result ≡ above (place_in element.now) }
{
    match element {
        NodeOrToken::Node(node) => node.parent(),
        NodeOrToken::Token(token) => Some(token.parent()),
    }
}

/// Returns the index of an element among its parent's children, 0 for a root.
pub fn index_of(element: &SyntaxElement) -> u32
    ensures { result ≡ index_of (place_in element.now) }
{
    match element {
        NodeOrToken::Node(node) => node.index(),
        NodeOrToken::Token(token) => token.index(),
    }
}

/// Returns the offset at which an element's text starts, in bytes.
pub fn start_of(element: &SyntaxElement) -> u32
    ensures start { result ≡ start_of (place_in element.now) }
    ensures fits { end_of (place_in element.now) < 2 ^ 32 }
{
    match element {
        NodeOrToken::Node(node) => node.start(),
        NodeOrToken::Token(token) => token.start(),
    }
}

/// Returns the offset at which an element's text ends, in bytes.
pub fn end_of(element: &SyntaxElement) -> u32
    ensures end { result ≡ end_of (place_in element.now) }
    ensures ordered { start_of (place_in element.now) ≤ end_of (place_in element.now) }
{
    match element {
        NodeOrToken::Node(node) => node.end(),
        NodeOrToken::Token(token) => token.end(),
    }
}
