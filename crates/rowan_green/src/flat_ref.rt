//! Borrowed nodes of an arena.
ghost use Rattle.std.specs.Prelude.{ℕ, ◌≡◌, ◌↔◌, ◌<◌, ◌≤◌, ◌^◌, ◌*◌, ◌+◌, [], length, take, IsSome, IfOk, IfSome, MatchOption, Some, slice_get};
ghost use Rattle.rowan_green.specs.Forest.{tree_text};
ghost use Rattle.rowan_green.specs.Term.{children_of, texts_of};
ghost use Rattle.rowan_green.specs.ChildAt.{IsChildAt};
ghost use Rattle.rowan_green.specs.Arena.{IsSound, items_in, terms_at};
ghost use Rattle.rowan_green.specs.Run.{HasHeight};

use crate::arena::{Arena, Entry};
use crate::child_at::ChildAt;
use crate::element_ref::{GreenElementRef, GreenNodeRef, GreenTokenRef};
use crate::flat_children::FlatChildren;
use crate::flat_node::FlatNode;
use crate::run::Run;
use crate::syntax_kind::SyntaxKind;
use crate::text_size::TextSize;
use crate::utility_types::NodeOrToken;
use std::alloc::AllocError;
use std::marker::Model;
use std::rc::Rc;

/// A borrowed node of an arena.
#[derive(Drop)]
pub(crate) struct FlatNodeRef<'a> {
    pub(crate) index: u32,
    pub(crate) arena: &'a Rc<Arena>,
}

impl<'a> Model for FlatNodeRef<'a> {
    ghost use Rattle.rowan_green.specs.Forest.{Tree, tree_code};

    ghost Value = { Tree };

    ghost coded = { tree_code };

    ghost use Rattle.rowan_green.specs.FlatNode.{IsNodeAt, tree_at};

    ghost view = { λ n. tree_at n.arena.now.value n.index };

    ghost invariant = { λ n. IsNodeAt n.arena.now.value n.index };
}

/// Returns the node or token at entry number `index`, borrowed.
pub(crate) fn element_at<'a>(arena: &'a Rc<Arena>, index: u32) -> GreenElementRef<'a>
    requires sound { IsSound arena.now.value [] }
    requires within { index < length arena.now.value.entries.items }
    ensures { slice_get (terms_at (items_in arena.now.value)) index ≡ Some result }
{
    match arena.entry(index) {
        Entry::Short(_, _, _) => NodeOrToken::Token(GreenTokenRef { index, arena }),
        Entry::Long(_, _) => NodeOrToken::Token(GreenTokenRef { index, arena }),
        Entry::Few(_, _, _) => NodeOrToken::Node(GreenNodeRef::at(arena, index)),
        Entry::Many(_, _) => NodeOrToken::Node(GreenNodeRef::at(arena, index)),
    }
}

impl<'a> FlatNodeRef<'a> {
    /// Returns the kind of the node.
    pub(crate) fn kind(&self) -> SyntaxKind
        ensures { result.0 ≡ self.now.kind }
    {
        let entry = self.arena.entry(self.index);
        SyntaxKind(self.arena.kind(entry))
    }

    /// Returns the length of the node's text, in bytes.
    pub(crate) fn text_len(&self) -> TextSize
        ensures { result.0 ≡ length (tree_text self.now) }
    {
        let entry = self.arena.entry(self.index);
        TextSize(self.arena.text_len(entry))
    }

    /// Returns the text of all tokens below the node, in order.
    pub(crate) fn text(&self) -> &'a str
        ensures { result.now ≡ tree_text self.now }
    {
        let entry = self.arena.entry(self.index);
        self.arena.text(entry)
    }

    /// Returns the children in order, nodes and tokens.
    pub(crate) fn children(&self) -> FlatChildren<'a>
        ensures children { result ≡ children_of self.now }
        ensures count { length (children_of self.now) < 2 ^ 32 }
    {
        let entry = self.arena.entry(self.index);
        let (first, count) = self.arena.child_range(entry);
        FlatChildren::of(self.arena, first, count)
    }

    /// Returns the child at `index`, counted from 0, nodes and tokens alike.
    pub(crate) fn child(&self, index: usize) -> Option<GreenElementRef<'a>>
        ensures { result ≡ slice_get (children_of self.now) index }
    {
        let entry = self.arena.entry(self.index);
        let (first, count) = self.arena.child_range(entry);
        if index >= count {
            return None;
        }
        Some(element_at(self.arena, (first + index) as u32))
    }

    /// Returns the offset of a child's text in the node's text, in bytes. `index` counts nodes and
    /// tokens alike, from 0.
    pub(crate) fn child_start(&self, index: usize) -> Option<TextSize>
        ensures { MatchOption result (length (children_of self.now) ≤ index)
            (λ start. start.0 ≡ length (texts_of (take index (children_of self.now)))) }
    {
        let entry = self.arena.entry(self.index);
        let children = self.arena.children(entry);
        if index >= children.len() {
            return None;
        }
        let start = self.arena.start_of(entry);
        Some(TextSize(self.arena.child_start(children, start, index)))
    }

    /// Returns the child whose text has the byte at `offset` of the node's text.
    pub(crate) fn child_at_offset(&self, offset: TextSize) -> Option<ChildAt>
        ensures found { IsSome result ↔ (offset.0 < length (tree_text self.now)) }
        ensures child { IfSome result
            (λ c. IsChildAt (children_of self.now) offset.0 c.index c.start.0) }
        ensures counted { IfSome result (λ c. 1 ≤ c.looks) }
        ensures looks { (digits : ℕ) → length (children_of self.now) < 2 ^ digits →
            IfSome result (λ c. c.looks ≤ 2 * digits + 2) }
    {
        let entry = self.arena.entry(self.index);
        if offset.0 >= self.arena.text_len(entry) {
            return None;
        }
        let children = self.arena.children(entry);
        let start = self.arena.start_of(entry);
        let place = self.arena.find_child(children, start, offset.0);
        Some(ChildAt {
            index: place.index,
            start: TextSize(place.start),
            looks: place.looks + 1,
        })
    }

    /// Returns the children as a run, which shares the arena. Does not allocate.
    ///
    /// # Errors
    ///
    /// [`AllocError`] if the reference count overflows.
    pub(crate) fn run(&self) -> Result<Run, AllocError>
        requires { 8 ≤ length (children_of self.now) }
        ensures terms { IfOk result (λ r. r.0 ≡ children_of self.now) }
        ensures height { IfOk result (λ r. HasHeight (length r.0) r.1) }
    {
        let entry = self.arena.entry(self.index);
        let (first, count) = self.arena.child_range(entry);
        Ok(Run::of(self.arena.clone()?, first, count))
    }

    /// Returns the node, which shares the arena. Does not allocate.
    ///
    /// # Errors
    ///
    /// [`AllocError`] if the reference count overflows.
    pub(crate) fn to_owned(&self) -> Result<FlatNode, AllocError>
        ensures { IfOk result (λ n. n ≡ self.now) }
    {
        Ok(FlatNode {
            index: self.index,
            arena: self.arena.clone()?,
        })
    }
}
