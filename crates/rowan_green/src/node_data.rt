//! The data of a node that is created from elements: a kind, and the children as a balanced list.
ghost use Rattle.std.specs.Prelude.{ℕ, ◌≡◌, ◌*◌, ◌↔◌, ◌+◌, ◌<◌, ◌≤◌, ◌^◌, length, take, IsSome, IfSome, MatchOption, slice_get};
ghost use Rattle.rowan_green.specs.Forest.{tree_text};
ghost use Rattle.rowan_green.specs.Term.{children_of, texts_of, tree_of, FitsNode};
ghost use Rattle.rowan_green.specs.ChildAt.{IsChildAt};

use crate::child_at::ChildAt;
use crate::element_list::{ElementList, Part};
use crate::element_ref::GreenElementRef;
use crate::list_children::ListChildren;
use crate::syntax_kind::SyntaxKind;
use crate::text_size::TextSize;
use std::marker::Model;

/// A node with its own list of children.
#[cycle(green)]
#[derive(Drop)]
pub(crate) struct NodeData {
    pub(crate) kind: u16,
    pub(crate) text_len: u32,
    pub(crate) children: ElementList,
}

// With the two counts of an `Rc` these are 56 bytes, one of the allocator's sizes.
const _: () = prove!(size_of::<NodeData>() == 40);

impl Model for NodeData {
    ghost use Rattle.std.specs.Prelude.{◌≡◌, ◌*◌};
    ghost use Rattle.rowan_green.specs.Forest.{Tree, tree_code, tree_count};

    ghost Value = { Tree };

    ghost coded = { tree_code };

    ghost use Rattle.std.specs.Prelude.{length};
    ghost use Rattle.rowan_green.specs.Term.{tree_of, texts_of, FitsNode};

    ghost view = { λ a. tree_of a.kind a.children.0 };

    ghost invariant = { λ a. FitsNode a.children.0
        × (a.text_len ≡ length (texts_of a.children.0)) };

    ghost size = { λ t. 3 * tree_count t };

    ghost use Rattle.std.proofs.Common.{arith};

    ghost size_decreases = { λ a h. Prim.omega arith };
}

impl NodeData {
    /// Returns the data of a node of this kind with these children.
    pub(crate) fn of(kind: SyntaxKind, children: Part) -> NodeData
        ensures { result ≡ tree_of kind.0 children.0 }
    {
        let (text_len, children) = children.into_list();
        NodeData {
            kind: kind.0,
            text_len,
            children,
        }
    }

    /// Returns the kind of the node.
    pub(crate) fn kind(&self) -> SyntaxKind
        ensures { result.0 ≡ self.now.kind }
    {
        SyntaxKind(self.kind)
    }

    /// Returns the length of the node's text, in bytes.
    pub(crate) fn text_len(&self) -> TextSize
        ensures { result.0 ≡ length (tree_text self.now) }
    {
        TextSize(self.text_len)
    }

    /// Returns the list of the children.
    pub(crate) fn elements(&self) -> &ElementList
        ensures children { result.now.0 ≡ children_of self.now }
        ensures fits { FitsNode (children_of self.now) }
    {
        &self.children
    }

    /// Returns the children in order, nodes and tokens.
    pub(crate) fn children(&self) -> ListChildren<'_>
        ensures children { result ≡ children_of self.now }
        ensures count { length (children_of self.now) < 2 ^ 32 }
    {
        ListChildren::of(self.elements())
    }

    /// Returns the child at `index`, counted from 0, nodes and tokens alike.
    pub(crate) fn child(&self, index: usize) -> Option<GreenElementRef<'_>>
        ensures { result ≡ slice_get (children_of self.now) index }
    {
        self.elements().get(index)
    }

    /// Returns the offset of a child's text in the node's text, in bytes; `None` if the node has no
    /// child at `index`. Descends one path.
    pub(crate) fn child_start(&self, index: usize) -> Option<TextSize>
        ensures { MatchOption result (length (children_of self.now) ≤ index)
            (λ start. start.0 ≡ length (texts_of (take index (children_of self.now)))) }
    {
        let children = self.elements();
        if index < children.len() {
            Some(TextSize(children.start_of(index)))
        } else {
            None
        }
    }

    /// Returns the child whose text has the byte at `offset` of the node's text; `None` if there is
    /// no such byte.
    pub(crate) fn child_at_offset(&self, offset: TextSize) -> Option<ChildAt>
        ensures found { IsSome result ↔ (offset.0 < length (tree_text self.now)) }
        ensures child { IfSome result
            (λ c. IsChildAt (children_of self.now) offset.0 c.index c.start.0) }
        ensures counted { IfSome result (λ c. 1 ≤ c.looks) }
        ensures looks { (digits : ℕ) → length (children_of self.now) < 2 ^ digits →
            IfSome result (λ c. c.looks ≤ 2 * digits + 2) }
    {
        let children = self.elements();
        if offset.0 >= self.text_len().0 {
            return None;
        }
        let place = children.find(offset.0);
        Some(ChildAt {
            index: place.index,
            start: TextSize(place.start),
            looks: place.looks + 1,
        })
    }
}
