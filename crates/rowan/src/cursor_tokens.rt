//! The first, last, next and previous token of a cursor.
ghost use Rattle.std.specs.Prelude.{◌≡◌, ◌≤◌, length, reverse, IfOk};
ghost use Rattle.rowan.specs.Place.{below, start_of, terms_below};
ghost use Rattle.rowan.specs.Around.{first};
ghost use Rattle.rowan.specs.Leaves.{tokens_from, tokens_in, tokens_back, tokens_after, tokens_before};

use crate::cursor::{SyntaxNode, SyntaxToken};
use crate::cursor_step::{end_of, index_of, start_of};
use rowan_green::NodeOrToken;
use std::alloc::{AllocError, Global};

impl SyntaxNode {
    /// Returns the first token below the node.
    ///
    /// # Errors
    ///
    /// [`AllocError`] if an allocation fails or a reference count overflows.
    pub fn first_token(&self, alloc: Global) -> Result<Option<SyntaxToken>, AllocError>
        ensures { IfOk result (λ r. r ≡ first (tokens_in self.now)) }
    {
        self.token_from(alloc, 0, self.start())
    }

    /// Returns the first token at or below the children from index `index` on. Child `index` starts
    /// at `offset`.
    ///
    /// # Errors
    ///
    /// [`AllocError`] if an allocation fails or a reference count overflows.
    pub fn token_from(
        &self,
        alloc: Global,
        mut index: usize,
        mut offset: u32,
    ) -> Result<Option<SyntaxToken>, AllocError>
        requires { offset ≡ start_of (below self.now index) }
        ensures { IfOk result (λ r. r ≡ first (tokens_from self.now index)) }
    {
        while let Some(child) = self.child(alloc, index, offset)? {
            index = index_of(&child) as usize + 1;
            offset = end_of(&child);
            match child {
                NodeOrToken::Token(token) => return Ok(Some(token)),
                NodeOrToken::Node(node) => {
                    if let Some(token) = node.token_from(alloc, 0, node.start())? {
                        return Ok(Some(token));
                    }
                }
            }
        }
        Ok(None)
    }

    /// Returns the last token below the node.
    ///
    /// # Errors
    ///
    /// [`AllocError`] if an allocation fails or a reference count overflows.
    pub fn last_token(&self, alloc: Global) -> Result<Option<SyntaxToken>, AllocError>
        ensures { IfOk result (λ r. r ≡ first (reverse (tokens_in self.now))) }
    {
        self.token_before(alloc, self.green().children().len(), self.end())
    }

    /// Returns the last token at or below the children before index `count`, which end at `end`.
    ///
    /// # Errors
    ///
    /// [`AllocError`] if an allocation fails or a reference count overflows.
    pub fn token_before(
        &self,
        alloc: Global,
        mut count: usize,
        mut end: u32,
    ) -> Result<Option<SyntaxToken>, AllocError>
        requires at_end { end ≡ start_of (below self.now count) }
        requires within { count ≤ length (terms_below self.now) }
        ensures { IfOk result (λ r. r ≡ first (tokens_back self.now count)) }
    {
        while let Some(child) = self.child_before(alloc, count, end)? {
            count = index_of(&child) as usize;
            end = start_of(&child);
            match child {
                NodeOrToken::Token(token) => return Ok(Some(token)),
                NodeOrToken::Node(node) => {
                    let children = node.green().children().len();
                    if let Some(token) = node.token_before(alloc, children, node.end())? {
                        return Ok(Some(token));
                    }
                }
            }
        }
        Ok(None)
    }
}

impl SyntaxToken {
    /// Returns the next token of the tree.
    ///
    /// # Errors
    ///
    /// [`AllocError`] if an allocation fails or a reference count overflows.
    pub fn next_token(&self, alloc: Global) -> Result<Option<SyntaxToken>, AllocError>
        ensures { IfOk result (λ r. r ≡ first (tokens_after self.now)) }
    {
        let mut node = self.parent();
        let mut index = self.index() as usize + 1;
        let mut offset = self.end();
        loop {
            if let Some(token) = node.token_from(alloc, index, offset)? {
                return Ok(Some(token));
            }
            let Some(parent) = node.parent() else {
                return Ok(None);
            };
            index = node.index() as usize + 1;
            offset = node.end();
            node = parent;
        }
    }

    /// Returns the previous token of the tree.
    ///
    /// # Errors
    ///
    /// [`AllocError`] if an allocation fails or a reference count overflows.
    pub fn prev_token(&self, alloc: Global) -> Result<Option<SyntaxToken>, AllocError>
        ensures { IfOk result (λ r. r ≡ first (tokens_before self.now)) }
    {
        prove!(self.green().text_len().0 <= u32::MAX);
        let mut node = self.parent();
        let mut count = self.index() as usize;
        let mut end = self.start();
        loop {
            if let Some(token) = node.token_before(alloc, count, end)? {
                return Ok(Some(token));
            }
            prove!(node.green().text_len().0 <= u32::MAX);
            let Some(parent) = node.parent() else {
                return Ok(None);
            };
            count = node.index() as usize;
            end = node.start();
            node = parent;
        }
    }
}
