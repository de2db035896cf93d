//! The tokens at an offset of the text: the search descends at most two paths.
ghost use Rattle.std.specs.Prelude.{◌≡◌, ◌≤◌, IfOk};
ghost use Rattle.rowan.specs.Place.{start_of, end_of};
ghost use Rattle.rowan.specs.Around.{first};
ghost use Rattle.rowan.specs.Touching.{listed, touching, with_byte, before_offset};

use crate::api::{SyntaxNode, SyntaxToken};
use crate::cursor;
use crate::language::Language;
use crate::utility_types::TokenAtOffset;
use rowan_green::{NodeOrToken, TextSize};
use std::alloc::{AllocError, Global};

/// Returns the token below a node that has the byte at offset `byte` of the tree's text.
fn token_with_byte(
    alloc: Global,
    node: &cursor::SyntaxNode,
    byte: u32,
) -> Result<Option<cursor::SyntaxToken>, AllocError>
    ensures { IfOk result (λ r. r ≡ first (with_byte byte node.now)) }
{
    prove!(node.start() <= u32::MAX);
    prove!(node.green().text_len().0 <= u32::MAX);
    let Some(end) = byte.checked_add(1) else {
        return Ok(None);
    };
    match node.covering_element(alloc, byte, end)? {
        NodeOrToken::Token(token) => Ok(Some(token)),
        NodeOrToken::Node(_) => Ok(None),
    }
}

/// Returns the token below a node that has the byte before `offset` of the tree's text.
fn token_before(
    alloc: Global,
    node: &cursor::SyntaxNode,
    offset: u32,
) -> Result<Option<cursor::SyntaxToken>, AllocError>
    ensures { IfOk result (λ r. r ≡ before_offset offset node.now) }
{
    match offset.checked_sub(1) {
        None => Ok(None),
        Some(byte) => token_with_byte(alloc, node, byte),
    }
}

/// Returns the tokens below a node that touch `offset` of the tree's text.
fn tokens_at(
    alloc: Global,
    node: &cursor::SyntaxNode,
    offset: u32,
) -> Result<TokenAtOffset<cursor::SyntaxToken>, AllocError>
    requires starts { start_of node.now ≤ offset }
    requires ends { offset ≤ end_of node.now }
    ensures { IfOk result (λ t. listed t ≡ touching offset node.now) }
{
    prove!(node.green().text_len().0 <= u32::MAX);
    let Some(left) = token_before(alloc, node, offset)? else {
        return match token_with_byte(alloc, node, offset)? {
            Some(right) => Ok(TokenAtOffset::Single(right)),
            None => Ok(TokenAtOffset::None),
        };
    };
    if offset < left.end() {
        return Ok(TokenAtOffset::Single(left));
    }
    match token_with_byte(alloc, node, offset)? {
        Some(right) => Ok(TokenAtOffset::Between(left, right)),
        None => Ok(TokenAtOffset::Single(left)),
    }
}

impl<L: Language> SyntaxNode<L> {
    /// Returns the tokens below the node that have text and touch `offset`, an offset in the tree's
    /// text. `offset` is within the node's range or at its end.
    ///
    /// # Errors
    ///
    /// [`AllocError`] if an allocation fails or a reference count overflows.
    pub fn token_at_offset(
        &self,
        alloc: Global,
        offset: TextSize,
    ) -> Result<TokenAtOffset<SyntaxToken<L>>, AllocError>
        requires starts { start_of self.now ≤ offset.0 }
        requires ends { offset.0 ≤ end_of self.now }
        ensures { IfOk result (λ t. listed t ≡ touching offset.0 self.now) }
    {
        Ok(match tokens_at(alloc, self.cursor(), offset.0)? {
            TokenAtOffset::None => TokenAtOffset::None,
            TokenAtOffset::Single(token) => TokenAtOffset::Single(SyntaxToken::of(token)),
            TokenAtOffset::Between(left, right) => {
                TokenAtOffset::Between(SyntaxToken::of(left), SyntaxToken::of(right))
            }
        })
    }
}
