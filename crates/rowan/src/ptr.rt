//! Pointers to nodes: a kind and a range, by which a node is found again in a tree.
ghost use Rattle.std.specs.Prelude.{◌≡◌, IfOk, IfErr, IsSome};
ghost use Rattle.rowan.specs.Place.{kind_at, start_of, end_of};
ghost use Rattle.rowan.specs.Pointer.{is_at, first_in, pointed_at};
ghost use Rattle.rowan.specs.Refusal.{FindsOrRefuses};

use crate::api::{SyntaxNode, node_of};
use crate::cursor;
use crate::error::CursorError;
use crate::language::Language;
use rowan_green::TextRange;
use std::alloc::{AllocError, Global};

/// A pointer to a node: a kind and a range, by which the node is found again in its tree, or in
/// another tree of the same shape.
#[derive(Clone, PartialEq, Eq, Hash, Debug, Drop)]
pub struct SyntaxNodePtr<L: Language> {
    pub kind: L::Kind,
    pub range: TextRange,
}

impl<L: Language> SyntaxNodePtr<L> {
    /// Returns a pointer to a node: its kind and range.
    pub fn new(node: &SyntaxNode<L>) -> SyntaxNodePtr<L>
        ensures kind { result.kind ≡ L.from_raw (kind_at node.now) }
        ensures start { result.range.start.0 ≡ start_of node.now }
        ensures end { result.range.end.0 ≡ end_of node.now }
    {
        SyntaxNodePtr {
            kind: node.kind(),
            range: node.text_range(),
        }
    }

    /// Returns the kind of the node from which the pointer was created.
    pub fn kind(&self) -> L::Kind
        ensures { result ≡ self.now.kind }
    {
        self.kind
    }

    /// Returns the range of the node from which the pointer was created, in the text of its tree.
    pub fn text_range(&self) -> TextRange
        ensures { result ≡ self.now.range }
    {
        self.range
    }

    /// Returns the first node in preorder with this kind and range in the tree of `root`.
    ///
    /// # Errors
    ///
    /// - [`CursorError::NotFound`] if there is no such node, or if `root` is not a root.
    /// - [`CursorError::NoMemory`] if an allocation fails or a reference count overflows.
    pub fn to_node(&self, alloc: Global, root: &SyntaxNode<L>) -> Result<SyntaxNode<L>, CursorError>
        ensures { FindsOrRefuses (λ p. p)
            (pointed_at L.Kind.eq L.from_raw self.now.kind self.now.range.start.0 self.now.range.end.0 root.now)
            result }
    {
        self.try_to_node(alloc, root)?.ok_or(CursorError::NotFound)
    }

    /// Returns the first node in preorder with this kind and range in the tree of `root`; `None` if
    /// there is no such node, or if `root` is not a root.
    ///
    /// # Errors
    ///
    /// [`AllocError`] if an allocation fails or a reference count overflows.
    pub fn try_to_node(
        &self,
        alloc: Global,
        root: &SyntaxNode<L>,
    ) -> Result<Option<SyntaxNode<L>>, AllocError>
        ensures { IfOk result (λ r. r
            ≡ pointed_at L.Kind.eq L.from_raw self.now.kind self.now.range.start.0 self.now.range.end.0 root.now) }
    {
        let root = root.cursor();
        if root.parent().is_some() {
            return Ok(None);
        }
        Ok(node_of(node_at::<L>(alloc, root, self.kind, self.range)?))
    }
}

/// Returns `true` if a node has this kind and range.
fn is_at<L: Language>(node: &cursor::SyntaxNode, kind: L::Kind, range: TextRange) -> bool
    ensures { result ≡ is_at L.Kind.eq L.from_raw kind range.start.0 range.end.0 node.now }
{
    L::kind_from_raw(node.kind()) == kind
        && node.start() == range.start().0
        && node.end() == range.end().0
}

/// Returns the first node in preorder with this kind and range, at or below `node`.
fn node_at<L: Language>(
    alloc: Global,
    node: &cursor::SyntaxNode,
    kind: L::Kind,
    range: TextRange,
) -> Result<Option<cursor::SyntaxNode>, AllocError>
    ensures { IfOk result (λ r. r
        ≡ first_in (is_at L.Kind.eq L.from_raw kind range.start.0 range.end.0) node.now) }
{
    if is_at::<L>(node, kind, range) {
        return Ok(Some(node.clone()?));
    }
    let mut index = 0;
    let mut offset = node.start();
    while let Some(child) = node.node_spanning(alloc, index, offset, range)? {
        if let Some(found) = node_at::<L>(alloc, &child, kind, range)? {
            return Ok(Some(found));
        }
        index = child.index() as usize + 1;
        offset = child.end();
    }
    Ok(None)
}
