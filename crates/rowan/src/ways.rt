//! Up-paths, compared and hashed without allocation.
ghost use Rattle.std.specs.Prelude.{◌≡◌, fold, nat_eq};
ghost use Rattle.std.specs.Cmp.Lexicographic.{pointwise};
ghost use Rattle.rowan.specs.Same.{numbers_fed};

use crate::api::{SyntaxNode, SyntaxToken};
use crate::cursor;
use crate::language::Language;
use std::hash::{Hash, Hasher};

impl<L: Language> SyntaxNode<L> {
    /// Returns `true` if the up-path of the node, its indices among siblings up to the root, is
    /// that of `other`. The nodes may be in different trees.
    pub fn has_way_of(&self, other: &SyntaxNode<L>) -> bool
        ensures { result ≡ pointwise nat_eq self.now.up other.now.up }
    {
        cursor::same_way(self.cursor(), other.cursor())
    }

    /// Returns `true` if the up-path of the node is that of the token `other`. They may be in
    /// different trees.
    pub fn has_way_of_token(&self, other: &SyntaxToken<L>) -> bool
        ensures { result ≡ pointwise nat_eq self.now.up other.now.up }
    {
        cursor::same_way_as_token(self.cursor(), other.cursor())
    }

    /// Feeds the up-path of the node to a hasher: the indices among siblings, the innermost first.
    pub fn hash_way<H: Hasher>(&self, state: &mut H)
        ensures { state.new ≡ fold H.write state.old (numbers_fed self.now.up) }
    {
        cursor::hash_way(self.cursor(), state);
    }
}

impl<L: Language> SyntaxToken<L> {
    /// Returns `true` if the up-path of the token is that of `other`. The tokens may be in
    /// different trees.
    pub fn has_way_of(&self, other: &SyntaxToken<L>) -> bool
        ensures { result ≡ pointwise nat_eq self.now.up other.now.up }
    {
        let (one, two) = (self.cursor(), other.cursor());
        one.index() == two.index() && cursor::same_way(one.parent(), two.parent())
    }

    /// Feeds the up-path of the token to a hasher: the indices among siblings, the innermost first.
    pub fn hash_way<H: Hasher>(&self, state: &mut H)
        ensures { state.new ≡ fold H.write state.old (numbers_fed self.now.up) }
    {
        let cursor = self.cursor();
        cursor.index().hash(state);
        cursor::hash_way(cursor.parent(), state);
    }
}
