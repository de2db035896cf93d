//! The text of a node, and the nodes and tokens next to a node or a token.
ghost use Rattle.std.specs.Prelude.{◌≡◌, option_map, reverse, IfOk};
ghost use Rattle.rowan.specs.Around.{children, children_back, first, nodes, siblings_after, siblings_before};
ghost use Rattle.rowan.specs.Leaves.{tokens_after, tokens_before, tokens_in};
ghost use Rattle.rowan.specs.Place.{text_at};
ghost use Rattle.syntax_tree.specs.Handle.{element_of, with_cursor, with_number, with_place};

use crate::element::SyntaxElement;
use crate::handle::{SyntaxNode, SyntaxToken, node_if};
use crate::iter::numbered_if;
use crate::language::RustLanguage;
use rowan::SyntaxText;
use std::alloc::{AllocError, Global};

/// Returns the token at `cursor`, if any, in the tree with number `tree`.
fn token_if(tree: u32, cursor: Option<rowan::SyntaxToken<RustLanguage>>) -> Option<SyntaxToken>
    ensures { result ≡ option_map (with_number tree) cursor }
{
    cursor.map(|cursor| SyntaxToken::of(tree, cursor))
}

impl SyntaxNode {
    /// Returns its text, including trivia.
    pub fn text(&self) -> Result<SyntaxText, AllocError>
        ensures { IfOk result (λ t. t ≡ text_at self.now.place) }
    {
        self.cursor().text()
    }

    /// Returns the first token below the node.
    pub fn first_token(&self, alloc: Global) -> Result<Option<SyntaxToken>, AllocError>
        ensures { IfOk result (λ t. t
            ≡ option_map (with_place self.now) (first (tokens_in self.now.place))) }
    {
        let token = self.cursor().first_token(alloc)?;
        Ok(token_if(self.tree(), token))
    }

    /// Returns the last token below the node.
    pub fn last_token(&self, alloc: Global) -> Result<Option<SyntaxToken>, AllocError>
        ensures { IfOk result (λ t. t
            ≡ option_map (with_place self.now) (first (reverse (tokens_in self.now.place)))) }
    {
        let token = self.cursor().last_token(alloc)?;
        Ok(token_if(self.tree(), token))
    }

    /// Returns the first child node.
    pub fn first_child(&self, alloc: Global) -> Result<Option<SyntaxNode>, AllocError>
        ensures { IfOk result (λ n. n
            ≡ option_map (with_place self.now) (first (nodes (children self.now.place)))) }
    {
        let child = self.cursor().first_child(alloc)?;
        Ok(node_if(self.tree(), child))
    }

    /// Returns the last child node.
    pub fn last_child(&self, alloc: Global) -> Result<Option<SyntaxNode>, AllocError>
        ensures { IfOk result (λ n. n
            ≡ option_map (with_place self.now) (first (nodes (children_back self.now.place)))) }
    {
        let child = self.cursor().last_child(alloc)?;
        Ok(node_if(self.tree(), child))
    }

    /// Returns the nearest sibling after it that is a node.
    pub fn next_sibling(&self, alloc: Global) -> Result<Option<SyntaxNode>, AllocError>
        ensures { IfOk result (λ n. n
            ≡ option_map (with_place self.now) (first (nodes (siblings_after self.now.place)))) }
    {
        let sibling = self.cursor().next_sibling(alloc)?;
        Ok(node_if(self.tree(), sibling))
    }

    /// Returns the nearest sibling before it that is a node.
    pub fn prev_sibling(&self, alloc: Global) -> Result<Option<SyntaxNode>, AllocError>
        ensures { IfOk result (λ n. n
            ≡ option_map (with_place self.now) (first (nodes (siblings_before self.now.place)))) }
    {
        let sibling = self.cursor().prev_sibling(alloc)?;
        Ok(node_if(self.tree(), sibling))
    }
}

impl SyntaxToken {
    /// Returns the token after it in the tree.
    pub fn next_token(&self, alloc: Global) -> Result<Option<SyntaxToken>, AllocError>
        ensures { IfOk result (λ t. t
            ≡ option_map (with_place self.now) (first (tokens_after self.now.place))) }
    {
        let token = self.cursor().next_token(alloc)?;
        Ok(token_if(self.tree(), token))
    }

    /// Returns the token before it in the tree.
    pub fn prev_token(&self, alloc: Global) -> Result<Option<SyntaxToken>, AllocError>
        ensures { IfOk result (λ t. t
            ≡ option_map (with_place self.now) (first (tokens_before self.now.place))) }
    {
        let token = self.cursor().prev_token(alloc)?;
        Ok(token_if(self.tree(), token))
    }
}

impl SyntaxElement {
    /// Returns the sibling right after it, a node or a token.
    pub fn next_sibling_or_token(&self, alloc: Global) -> Result<Option<SyntaxElement>, AllocError>
        ensures { IfOk result (λ e. e ≡ option_map (with_cursor (element_of self.now).number)
            (first (siblings_after (element_of self.now).place))) }
    {
        let sibling = match self {
            SyntaxElement::Node(node) => node.cursor().next_sibling_or_token(alloc)?,
            SyntaxElement::Token(token) => token.cursor().next_sibling_or_token(alloc)?,
        };
        Ok(numbered_if(self.tree(), sibling))
    }

    /// Returns the sibling right before it, a node or a token.
    pub fn prev_sibling_or_token(&self, alloc: Global) -> Result<Option<SyntaxElement>, AllocError>
        ensures { IfOk result (λ e. e ≡ option_map (with_cursor (element_of self.now).number)
            (first (siblings_before (element_of self.now).place))) }
    {
        let sibling = match self {
            SyntaxElement::Node(node) => node.cursor().prev_sibling_or_token(alloc)?,
            SyntaxElement::Token(token) => token.cursor().prev_sibling_or_token(alloc)?,
        };
        Ok(numbered_if(self.tree(), sibling))
    }
}
