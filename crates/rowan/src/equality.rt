//! Equality and hashing of cursors with the kinds of their language.
ghost use Rattle.std.specs.Prelude.{◌≡◌, ◌++◌};
ghost use Rattle.std.specs.Cmp.{partial_equiv_from_equiv};
ghost use Rattle.std.specs.Hash as fed;
ghost use Rattle.std.proofs.Common.{ap};
ghost use Rattle.rowan.specs.Same.{same_place, same_place-equiv, hashed_node, same_place-Decides};
ghost use Rattle.rowan.specs.Place.{Place, start_of, index_of};

use crate::api::{SyntaxNode, SyntaxToken};
use crate::language::Language;
use std::hash::{Hash, Hasher};

impl<L: Language> PartialEq for SyntaxNode<L> {
    ghost eq = { same_place };

    ghost laws = { partial_equiv_from_equiv same_place-equiv };

    /// Returns `true` if the root terms and the paths are equal.
    fn eq(&self, other: &SyntaxNode<L>) -> bool {
        self.cursor() == other.cursor()
    }
}

impl<L: Language> Eq for SyntaxNode<L> {
    ghost laws = { same_place-equiv };
}

impl<L: Language> Hash for SyntaxNode<L> {
    ghost hash_input = { hashed_node };

    ghost respects_eq = { λ x y p. ap hashed_node ((same_place-Decides x y).0 p) };

    fn hash<H: Hasher>(&self, state: &mut H) {
        self.cursor().hash(state);
    }
}

impl<L: Language> PartialEq for SyntaxToken<L> {
    ghost eq = { same_place };

    ghost laws = { partial_equiv_from_equiv same_place-equiv };

    /// Returns `true` if the root terms and the paths are equal.
    fn eq(&self, other: &SyntaxToken<L>) -> bool {
        self.cursor() == other.cursor()
    }
}

impl<L: Language> Eq for SyntaxToken<L> {
    ghost laws = { same_place-equiv };
}

impl<L: Language> Hash for SyntaxToken<L> {
    ghost hash_input = { λ p. fed.u32 (start_of p) ++ fed.u32 (index_of p) };

    ghost respects_eq = { λ x y p. ap (λ (q : Place). fed.u32 (start_of q) ++ fed.u32 (index_of q)) ((same_place-Decides x y).0 p) };

    fn hash<H: Hasher>(&self, state: &mut H) {
        self.cursor().hash(state);
    }
}
