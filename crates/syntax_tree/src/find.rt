//! Search for the first element with a kind and a range.
ghost use Rattle.std.specs.Prelude.{◌≡◌, ◌&&◌, ◌<◌, nat_le, IfOk};
ghost use Rattle.parser_input.specs.Kind.{raw_of};
ghost use Rattle.rowan.specs.Place.{kind_at, start_of, end_of};
ghost use Rattle.syntax_tree.specs.Handle.{element_of};
ghost use Rattle.syntax_tree.specs.Search.{is_of, first_of, child_holding};

use crate::element::SyntaxElement;
use crate::handle::SyntaxNode;
use crate::iter::{numbered, numbered_if};
use parser_input::SyntaxKind;
use rowan::WalkEvent;
use rowan_green::TextRange;
use std::alloc::{AllocError, Global};

impl SyntaxElement {
    /// Returns the raw number of its kind.
    fn raw_kind(&self) -> u16
        ensures { result ≡ kind_at (element_of self.now).place }
    {
        match self {
            SyntaxElement::Node(node) => node.cursor().green().kind().0,
            SyntaxElement::Token(token) => token.cursor().green().kind().0,
        }
    }

    /// Returns `true` if its raw kind is `kind` and its range is `range`.
    fn is_of(&self, kind: u16, range: TextRange) -> bool
        ensures { result ≡ is_of kind range.start.0 range.end.0 (element_of self.now).place }
    {
        let own = self.text_range();
        self.raw_kind() == kind && own.start().0 == range.start().0 && own.end().0 == range.end().0
    }

    /// Returns `true` if its range contains `range`.
    fn spans(&self, range: TextRange) -> bool
        ensures { result ≡ (nat_le (start_of (element_of self.now).place) range.start.0
            && nat_le range.end.0 (end_of (element_of self.now).place)) }
    {
        let own = self.text_range();
        own.start().0 <= range.start().0 && range.end().0 <= own.end().0
    }
}

impl SyntaxElement {
    /// Returns the first child whose range contains `range`.
    fn child_holding(
        &self,
        alloc: Global,
        range: TextRange,
    ) -> Result<Option<SyntaxElement>, AllocError>
        ensures { IfOk result (λ child. child ≡ child_holding range.start.0 range.end.0 self.now) }
    {
        match self {
            SyntaxElement::Node(node) => {
                let child = node.cursor().child_or_token_at_range(alloc, range)?;
                Ok(numbered_if(node.tree(), child))
            }
            SyntaxElement::Token(token) => {
                // (the proof needs the fact that this is a leaf, which has no children)
                let _leaf = token.cursor().green();
                Ok(None)
            }
        }
    }
}

impl SyntaxNode {
    /// Returns the first element in preorder, at and below this node, with kind `kind` and range
    /// `range`. Of several elements with this range, the outermost comes first.
    ///
    /// If `range` is not empty, only the elements that contain it are examined, one on each level.
    /// If it is empty, every sibling is examined, and those that touch it are searched.
    pub fn find(
        &self,
        alloc: Global,
        kind: SyntaxKind,
        range: TextRange,
    ) -> Result<Option<SyntaxElement>, AllocError>
        ensures { IfOk result
            (λ found. found ≡ first_of (raw_of kind) range.start.0 range.end.0 self.now) }
    {
        if range.is_empty() {
            return self.find_by_walk(alloc, kind, range);
        }
        self.find_downward(alloc, kind, range)
    }

    /// Variant of [`SyntaxNode::find`] for a range that is not empty: at most one child contains
    /// it.
    fn find_downward(
        &self,
        alloc: Global,
        kind: SyntaxKind,
        range: TextRange,
    ) -> Result<Option<SyntaxElement>, AllocError>
        requires { range.start.0 < range.end.0 }
        ensures { IfOk result
            (λ found. found ≡ first_of (raw_of kind) range.start.0 range.end.0 self.now) }
    {
        let kind = kind.to_raw();
        let mut element = SyntaxElement::Node(self.clone()?);
        while !element.is_of(kind, range) {
            let Some(child) = element.child_holding(alloc, range)? else {
                return Ok(None);
            };
            element = child;
        }
        Ok(Some(element))
    }

    /// Variant of [`SyntaxNode::find`] that walks the tree and skips the descendants of each
    /// element whose range does not contain `range`.
    fn find_by_walk(
        &self,
        alloc: Global,
        kind: SyntaxKind,
        range: TextRange,
    ) -> Result<Option<SyntaxElement>, AllocError>
        ensures { IfOk result
            (λ found. found ≡ first_of (raw_of kind) range.start.0 range.end.0 self.now) }
    {
        let kind = kind.to_raw();
        let mut walk = self.cursor().preorder_with_tokens(alloc)?;
        while let Some(event) = walk.next() {
            let WalkEvent::Enter(cursor) = event? else {
                continue;
            };
            let element = numbered(self.tree(), cursor);
            if element.is_of(kind, range) {
                return Ok(Some(element));
            }
            let spans = element.spans(range);
            drop(element);
            if !spans {
                walk.skip_subtree()?;
            }
        }
        Ok(None)
    }
}
