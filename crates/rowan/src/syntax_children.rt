//! Iterators over the children of a node.
ghost use Rattle.std.specs.Prelude.{◌≡◌, IfOk, List, length};
ghost use Rattle.std.specs.Coded.{codes};
ghost use Rattle.std.specs.Iterator.{at_most};
ghost use Rattle.rowan_green.specs.Forest.{tree_code};
ghost use Rattle.rowan.specs.Around.{children, nodes, Cursor};
ghost use Rattle.rowan.specs.Place.{below, start_of, Place};
ghost use Rattle.rowan.specs.Left.{children_left};
ghost use Rattle.rowan.specs.Yields.{YieldsOrFails};

use crate::api::{SyntaxElement, SyntaxNode, element};
use crate::cursor;
use crate::cursor_step::{end_of, index_of};
use crate::language::Language;
use std::alloc::{AllocError, Global};
use std::marker::{Model, PhantomData};

/// An iterator over the children of a node, nodes and tokens. Model: the remaining children.
#[derive(Drop)]
pub struct SyntaxElementChildren<L> {
    alloc: Global,
    parent: cursor::SyntaxNode,
    index: usize,
    offset: u32,
    ended: bool,
    language: PhantomData<L>,
}

impl<L> Model for SyntaxElementChildren<L> {
    ghost Value = { List Cursor };

    ghost coded = { Prim.hlevel (codes, tree_code) };

    ghost view = { λ c. children_left c.ended c.parent c.index };

    ghost invariant = { λ c. c.offset ≡ start_of (below c.parent c.index) };
}

impl<L: Language> SyntaxElementChildren<L> {
    pub(crate) fn new(alloc: Global, parent: cursor::SyntaxNode) -> SyntaxElementChildren<L>
        ensures { result ≡ children parent }
    {
        let offset = parent.start();
        SyntaxElementChildren {
            alloc,
            parent,
            index: 0,
            offset,
            ended: false,
            language: PhantomData,
        }
    }
}

impl<L: Language> Iterator for SyntaxElementChildren<L> {
    type Item = Result<SyntaxElement<L>, AllocError>;

    ghost next_gives = { YieldsOrFails };

    ghost remaining = { λ s. at_most (length s) };

    fn next(&mut self) -> Option<Result<SyntaxElement<L>, AllocError>> {
        if self.ended {
            return None;
        }
        match self.parent.child(self.alloc, self.index, self.offset) {
            Ok(Some(child)) => {
                self.index = index_of(&child) as usize + 1;
                self.offset = end_of(&child);
                Some(Ok(element(child)))
            }
            Ok(None) => {
                self.ended = true;
                None
            }
            Err(e) => {
                self.ended = true;
                Some(Err(e))
            }
        }
    }
}

/// An iterator over the children of a node that are nodes. Model: the remaining children.
#[derive(Drop)]
pub struct SyntaxNodeChildren<L> {
    alloc: Global,
    parent: cursor::SyntaxNode,
    index: usize,
    offset: u32,
    ended: bool,
    language: PhantomData<L>,
}

impl<L> Model for SyntaxNodeChildren<L> {
    ghost Value = { List Place };

    ghost coded = { Prim.hlevel (codes, tree_code) };

    ghost view = { λ c. nodes (children_left c.ended c.parent c.index) };

    ghost invariant = { λ c. c.offset ≡ start_of (below c.parent c.index) };
}

impl<L: Language> SyntaxNodeChildren<L> {
    pub(crate) fn new(alloc: Global, parent: cursor::SyntaxNode) -> SyntaxNodeChildren<L>
        ensures { result ≡ nodes (children parent) }
    {
        let offset = parent.start();
        SyntaxNodeChildren {
            alloc,
            parent,
            index: 0,
            offset,
            ended: false,
            language: PhantomData,
        }
    }
}

impl<L: Language> Iterator for SyntaxNodeChildren<L> {
    type Item = Result<SyntaxNode<L>, AllocError>;

    ghost next_gives = { YieldsOrFails };

    ghost remaining = { λ s. at_most (length s) };

    fn next(&mut self) -> Option<Result<SyntaxNode<L>, AllocError>> {
        if self.ended {
            return None;
        }
        match self.parent.node_from(self.alloc, self.index, self.offset) {
            Ok(Some(child)) => {
                self.index = child.index() as usize + 1;
                self.offset = child.end();
                Some(Ok(SyntaxNode::of(child)))
            }
            Ok(None) => {
                self.ended = true;
                None
            }
            Err(e) => {
                self.ended = true;
                Some(Err(e))
            }
        }
    }
}

impl<L: Language> SyntaxNode<L> {
    /// Returns an iterator over the children that are nodes, in order.
    ///
    /// # Errors
    ///
    /// [`AllocError`] if a reference count overflows.
    pub fn children(&self, alloc: Global) -> Result<SyntaxNodeChildren<L>, AllocError>
        ensures { IfOk result (λ c. c ≡ nodes (children self.now)) }
    {
        Ok(SyntaxNodeChildren::new(alloc, self.cursor().clone()?))
    }

    /// Returns an iterator over the children in order, nodes and tokens.
    ///
    /// # Errors
    ///
    /// [`AllocError`] if a reference count overflows.
    pub fn children_with_tokens(
        &self,
        alloc: Global,
    ) -> Result<SyntaxElementChildren<L>, AllocError>
        ensures { IfOk result (λ c. c ≡ children self.now) }
    {
        Ok(SyntaxElementChildren::new(alloc, self.cursor().clone()?))
    }
}
