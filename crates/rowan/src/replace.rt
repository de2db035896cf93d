//! Replacing one element of a tree.
ghost use Rattle.std.specs.Prelude.{◌≡◌, IfOk, IfErr, OnOk};
ghost use Rattle.rowan_green.specs.Refusal.{RefusesUnless};
ghost use Rattle.rowan.specs.Place.{kind_at};
ghost use Rattle.rowan.specs.Replace.{put, put_token, Fits, FitsWithToken};

use crate::api::{SyntaxNode, SyntaxToken};
use crate::cursor;
use crate::language::Language;
use rowan_green::{GreenError, GreenNode, GreenToken, NodeOrToken};
use std::alloc::Global;

/// Returns the root of the tree with the node at `place` replaced.
fn replaced(
    alloc: Global,
    place: &cursor::SyntaxNode,
    replacement: GreenNode,
) -> Result<GreenNode, GreenError>
    ensures ok { IfOk result (λ g. g ≡ put place.now.root place.now.up replacement) }
    ensures fits { OnOk result (Fits place.now.root place.now.up replacement) }
    ensures refused { IfErr result (RefusesUnless (Fits place.now.root place.now.up replacement)) }
{
    let mut replaced = replacement;
    let mut place = place;
    while let Some(parent) = place.parent() {
        prove!(place.green().text_len().0 <= u32::MAX);
        let child = NodeOrToken::Node(replaced);
        replaced = parent
            .green()
            .replace_child(alloc, place.index() as usize, child)?;
        place = parent;
    }
    Ok(replaced)
}

impl<L: Language> SyntaxNode<L> {
    /// Returns the root of the tree with this node replaced by another of its kind. The cursor is
    /// unchanged.
    ///
    /// # Errors
    ///
    /// - [`GreenError::TooLong`] if a node of the new tree would have a text of 2^32 bytes or more.
    /// - [`GreenError::NoMemory`] if an allocation fails or a reference count overflows.
    pub fn replace_with(
        &self,
        alloc: Global,
        replacement: GreenNode,
    ) -> Result<GreenNode, GreenError>
        requires { replacement.kind ≡ kind_at self.now }
        ensures ok { IfOk result (λ g. g ≡ put self.now.root self.now.up replacement) }
        ensures fits { OnOk result (Fits self.now.root self.now.up replacement) }
        ensures refused { IfErr result
            (RefusesUnless (Fits self.now.root self.now.up replacement)) }
    {
        replaced(alloc, self.cursor(), replacement)
    }
}

/// Returns the root of the tree with the token at `place` replaced.
fn token_replaced(
    alloc: Global,
    place: &cursor::SyntaxToken,
    replacement: GreenToken,
) -> Result<GreenNode, GreenError>
    ensures ok { IfOk result (λ g. g ≡ put_token place.now.root place.now.up replacement) }
    ensures fits { OnOk result (FitsWithToken place.now.root place.now.up replacement) }
    ensures refused { IfErr result
        (RefusesUnless (FitsWithToken place.now.root place.now.up replacement)) }
{
    prove!(place.green().text_len().0 <= u32::MAX);
    let parent = place.parent();
    let child = NodeOrToken::Token(replacement);
    let node = parent
        .green()
        .replace_child(alloc, place.index() as usize, child)?;
    replaced(alloc, parent, node)
}

impl<L: Language> SyntaxToken<L> {
    /// Returns the root of the tree with this token replaced by another of its kind. The cursor is
    /// unchanged.
    ///
    /// # Errors
    ///
    /// - [`GreenError::TooLong`] if a node of the new tree would have a text of 2^32 bytes or more.
    /// - [`GreenError::NoMemory`] if an allocation fails or a reference count overflows.
    pub fn replace_with(
        &self,
        alloc: Global,
        replacement: GreenToken,
    ) -> Result<GreenNode, GreenError>
        requires { replacement.kind ≡ kind_at self.now }
        ensures ok { IfOk result (λ g. g ≡ put_token self.now.root self.now.up replacement) }
        ensures fits { OnOk result (FitsWithToken self.now.root self.now.up replacement) }
        ensures refused { IfErr result
            (RefusesUnless (FitsWithToken self.now.root self.now.up replacement)) }
    {
        token_replaced(alloc, self.cursor(), replacement)
    }
}
