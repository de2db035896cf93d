//! The element at an up-path.
ghost use Rattle.std.specs.Prelude.{◌≡◌, ◌∷◌, option_map, IfOk};
ghost use Rattle.syntax_tree.specs.Handle.{element_of, standing_at};

use crate::element::SyntaxElement;
use crate::handle::SyntaxNode;
use std::alloc::{AllocError, Global};

impl SyntaxNode {
    /// Returns the child at index `number`, a node or a token.
    fn child_at(&self, alloc: Global, number: usize) -> Result<Option<SyntaxElement>, AllocError>
        ensures { IfOk result (λ r. option_map element_of r
            ≡ standing_at self.now (number ∷ self.now.place.up)) }
    {
        self.nth_child_or_token(alloc, number)
    }
}

impl SyntaxElement {
    /// Returns the child at index `number`, a node or a token. A token has none.
    fn child(&self, alloc: Global, number: usize) -> Result<Option<SyntaxElement>, AllocError>
        ensures { IfOk result (λ r. option_map element_of r ≡
            standing_at (element_of self.now) (number ∷ (element_of self.now).place.up)) }
    {
        match self {
            SyntaxElement::Node(node) => node.child_at(alloc, number),
            SyntaxElement::Token(token) => {
                let _leaf = token.cursor().green();
                Ok(None)
            }
        }
    }
}

impl SyntaxNode {
    /// Returns the element of this tree at up-path `way` (innermost index first), or `None` if
    /// there is no such element.
    pub fn element_at(
        &self,
        alloc: Global,
        way: &[usize],
    ) -> Result<Option<SyntaxElement>, AllocError>
        ensures { IfOk result (λ r. option_map element_of r ≡ standing_at self.now way.now) }
    {
        let top = SyntaxNode::of(self.tree(), self.cursor().tree_top()?);
        let mut place = SyntaxElement::Node(top);
        let mut left = way.len();
        while left > 0 {
            left -= 1;
            let Some(child) = place.child(alloc, way[left])? else {
                return Ok(None);
            };
            place = child;
        }
        Ok(Some(place))
    }
}
