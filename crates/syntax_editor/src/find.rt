//! Search of the new tree for an old node.
ghost use Rattle.std.specs.Prelude.{◌≡◌, ◌==◌, ◌&&◌, option_map, IfOk};
ghost use Rattle.rowan.specs.Place.{kind_at, start_of};
ghost use Rattle.syntax_tree.specs.declared.element.SyntaxElement.TheVariants.{Node};
ghost use Rattle.syntax_editor.specs.Found.{found};

use crate::edit::SyntaxEdit;
use std::alloc::{AllocError, Global};
use syntax_tree::{SyntaxElement, SyntaxNode};

/// Returns `true` if two nodes have the same kind and start at the same byte of their texts.
fn is_like(node: &SyntaxNode, old: &SyntaxNode) -> bool
    ensures { result ≡ (kind_at node.now.place == kind_at old.now.place
        && start_of node.now.place == start_of old.now.place) }
{
    node.cursor().green().kind().0 == old.cursor().green().kind().0
        && node.text_range().start().0 == old.text_range().start().0
}

impl SyntaxEdit {
    /// Returns the first node of the new tree in preorder with the kind and the start of `old`.
    pub fn find_element(
        &self,
        alloc: Global,
        old: &SyntaxNode,
    ) -> Result<Option<SyntaxNode>, AllocError>
        ensures { IfOk result (λ r. option_map Node r ≡ found self.now.new_root old.now) }
    {
        for element in self.new_root().descendants_with_tokens(alloc)? {
            if let SyntaxElement::Node(node) = element?
                && is_like(&node, old)
            {
                return Ok(Some(node));
            }
        }
        Ok(None)
    }
}
