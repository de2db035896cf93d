//! Equality and hashing of nodes and tokens by tree number and up-path. Neither allocates.
ghost use Rattle.std.specs.Cmp.{partial_equiv_from_equiv};
ghost use Rattle.syntax_tree.specs.Element.{same_element};
ghost use Rattle.syntax_tree.specs.Same.{same_element-equiv, element_fed, fed_alike};

use crate::handle::{SyntaxNode, SyntaxToken};
use std::hash::{Hash, Hasher};

impl PartialEq for SyntaxNode {
    ghost eq = { same_element };

    ghost laws = { partial_equiv_from_equiv same_element-equiv };

    /// Returns `true` if both nodes have the same tree number and the same up-path.
    fn eq(&self, other: &SyntaxNode) -> bool {
        self.tree() == other.tree() && self.cursor().has_way_of(other.cursor())
    }
}

impl Eq for SyntaxNode {
    ghost laws = { same_element-equiv };
}

impl Hash for SyntaxNode {
    ghost hash_input = { element_fed };

    ghost respects_eq = { fed_alike };

    /// Hashes the tree number, then the indices of the up-path.
    fn hash<H: Hasher>(&self, state: &mut H) {
        self.tree().hash(state);
        self.cursor().hash_way(state);
    }
}

impl PartialEq for SyntaxToken {
    ghost eq = { same_element };

    ghost laws = { partial_equiv_from_equiv same_element-equiv };

    /// Returns `true` if both tokens have the same tree number and the same up-path.
    fn eq(&self, other: &SyntaxToken) -> bool {
        self.tree() == other.tree() && self.cursor().has_way_of(other.cursor())
    }
}

impl Eq for SyntaxToken {
    ghost laws = { same_element-equiv };
}

impl Hash for SyntaxToken {
    ghost hash_input = { element_fed };

    ghost respects_eq = { fed_alike };

    /// Hashes the tree number, then the indices of the up-path.
    fn hash<H: Hasher>(&self, state: &mut H) {
        self.tree().hash(state);
        self.cursor().hash_way(state);
    }
}
