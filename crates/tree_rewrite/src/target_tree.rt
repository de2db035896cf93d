//! The trees that changes apply to.
ghost use Rattle.std.specs.Prelude.{◌≡◌, is_none};
ghost use Rattle.tree_rewrite.specs.Pieces.{is_outermost};
ghost use Rattle.tree_rewrite.specs.Recorded.{target_of};
ghost use Rattle.tree_rewrite.specs.Rewrite.{same_sheet};

use crate::piece::Nesting;

/// A tree that changes apply to.
#[derive(Clone, Copy)]
pub enum TargetTree<'a> {
    /// The tree itself.
    Tree,
    /// The payload of the node at this up-path, which it replaces.
    Payload(&'a [usize]),
}

impl TargetTree<'_> {
    /// Returns `true` if both are the same.
    pub(crate) fn is_same(self, other: TargetTree<'_>) -> bool
        ensures { result ≡ same_sheet (target_of self.entry) (target_of other.entry) }
    {
        match (self, other) {
            (TargetTree::Tree, TargetTree::Tree) => true,
            (TargetTree::Payload(own), TargetTree::Payload(others)) => own == others,
            _ => false,
        }
    }

    /// Returns whether its changes are outermost or nested.
    pub(crate) fn nesting(self) -> Nesting
        ensures { is_outermost result ≡ is_none (target_of self.entry) }
    {
        match self {
            TargetTree::Tree => Nesting::Outermost,
            TargetTree::Payload(_) => Nesting::Nested,
        }
    }
}
