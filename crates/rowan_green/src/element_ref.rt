//! Borrowed nodes and tokens: the root of a tree, and the children of a node.
ghost use Rattle.std.specs.Prelude.{ℕ, ◌≡◌, ◌↔◌, ◌<◌, ◌≤◌, ◌^◌, ◌*◌, ◌+◌, length, take, IsSome, IfOk, IfSome, MatchOption, slice_get, slice_index_or};
ghost use Rattle.rowan_green.specs.Forest.{tree_text};
ghost use Rattle.rowan_green.specs.Term.{kind_of, term_len, children_of, texts_of};
ghost use Rattle.rowan_green.specs.ChildAt.{IsChildAt};
ghost use Rattle.rowan_green.specs.FlatNode.{IsNodeAt, tree_at};
ghost use Rattle.rowan_green.specs.NodeReader.{tree_read};

use crate::arena::Arena;
use crate::child_at::ChildAt;
use crate::element::GreenElement;
use crate::equality::same_node;
use crate::flat_ref::FlatNodeRef;
use crate::node::{GreenNode, NodeForm};
use crate::node_children::Children;
use crate::node_data::NodeData;
use crate::syntax_kind::SyntaxKind;
use crate::text_size::TextSize;
use crate::token::GreenToken;
use crate::utility_types::NodeOrToken;
use std::alloc::AllocError;
use std::marker::Model;
use std::rc::Rc;

/// A borrowed node in one of the two forms of [`NodeForm`].
#[derive(Clone, Copy)]
enum NodeFormRef<'a> {
    Flat(u32, &'a Rc<Arena>),
    Data(&'a Rc<NodeData>),
}

/// A borrowed node of a green tree.
#[derive(Drop)]
pub struct GreenNodeRef<'a> {
    form: NodeFormRef<'a>,
}

const _: () = prove!(size_of::<GreenNodeRef<'static>>() == 16);

impl<'a> Model for GreenNodeRef<'a> {
    ghost use Rattle.rowan_green.specs.Forest.{Tree, tree_code};

    ghost Value = { Tree };

    ghost coded = { tree_code };

    ghost use Rattle.rowan_green.specs.NodeFormRef.{ref_tree, IsNodeRef};

    ghost view = { λ a. ref_tree a.form };

    ghost invariant = { λ a. IsNodeRef a.form };
}

/// A borrowed node, as a value whose functions read its form.
#[derive(Drop)]
pub(crate) enum NodeReader<'a> {
    Flat(FlatNodeRef<'a>),
    Data(&'a Rc<NodeData>),
}

/// A borrowed token of a green tree.
#[derive(Drop)]
pub struct GreenTokenRef<'a> {
    pub(crate) index: u32,
    pub(crate) arena: &'a Rc<Arena>,
}

const _: () = prove!(size_of::<GreenTokenRef<'static>>() == 16);

impl<'a> Model for GreenTokenRef<'a> {
    ghost use Rattle.rowan_green.specs.Leaf.{Leaf};

    ghost Value = { Leaf };

    ghost use Rattle.rowan_green.specs.FlatRef.{IsTokenAt, leaf_at};

    ghost view = { λ t. leaf_at t.arena.now.value t.index };

    ghost invariant = { λ t. IsTokenAt t.arena.now.value t.index };
}

/// A borrowed node or token of a green tree.
pub type GreenElementRef<'a> = NodeOrToken<GreenNodeRef<'a>, GreenTokenRef<'a>>;

const _: () = prove!(size_of::<GreenElementRef<'static>>() == 24);

impl GreenNode {
    /// Returns the node, borrowed.
    pub fn as_ref(&self) -> GreenNodeRef<'_>
        ensures { result ≡ self.now }
    {
        match &self.form {
            NodeForm::Flat(index, arena) => GreenNodeRef {
                form: NodeFormRef::Flat(*index, arena),
            },
            NodeForm::Data(data) => GreenNodeRef {
                form: NodeFormRef::Data(data),
            },
        }
    }
}

impl GreenToken {
    /// Returns the token, borrowed.
    pub fn as_ref(&self) -> GreenTokenRef<'_>
        ensures { result ≡ self.now }
    {
        GreenTokenRef {
            index: self.index,
            arena: &self.arena,
        }
    }
}

impl<'a> GreenNodeRef<'a> {
    /// Returns the node at entry number `index`.
    pub(crate) fn at(arena: &'a Rc<Arena>, index: u32) -> GreenNodeRef<'a>
        requires { IsNodeAt arena.now.value index }
        ensures { result ≡ tree_at arena.now.value index }
    {
        GreenNodeRef {
            form: NodeFormRef::Flat(index, arena),
        }
    }

    /// Returns the node as a value whose functions read its form.
    pub(crate) fn reader(&self) -> NodeReader<'a>
        ensures { tree_read result ≡ self.now }
    {
        match self.form {
            NodeFormRef::Flat(index, arena) => NodeReader::Flat(FlatNodeRef { index, arena }),
            NodeFormRef::Data(data) => NodeReader::Data(data),
        }
    }

    /// Returns another reference to the node.
    pub(crate) fn copy(&self) -> GreenNodeRef<'a>
        ensures { result ≡ self.now }
    {
        GreenNodeRef { form: self.form }
    }

    /// Returns the kind of the node.
    pub fn kind(&self) -> SyntaxKind
        ensures { result.0 ≡ self.now.kind }
    {
        match self.reader() {
            NodeReader::Flat(node) => node.kind(),
            NodeReader::Data(data) => data.kind(),
        }
    }

    /// Returns the length of the node's text, in bytes.
    pub fn text_len(&self) -> TextSize
        ensures { result.0 ≡ length (tree_text self.now) }
    {
        match self.reader() {
            NodeReader::Flat(node) => node.text_len(),
            NodeReader::Data(data) => data.text_len(),
        }
    }

    /// Returns the text of the node as one slice if the node is in an arena.
    pub fn flat_text(&self) -> Option<&'a str>
        ensures { IfSome result (λ t. t.now ≡ tree_text self.now) }
    {
        match self.reader() {
            NodeReader::Flat(node) => Some(node.text()),
            NodeReader::Data(_) => None,
        }
    }

    /// Returns the children in order, nodes and tokens.
    pub fn children(&self) -> Children<'a>
        ensures children { result ≡ children_of self.now }
        ensures count { length (children_of self.now) < 2 ^ 32 }
    {
        match self.reader() {
            NodeReader::Flat(node) => Children::of_flat(node.children()),
            NodeReader::Data(data) => Children::of_list(data.children()),
        }
    }

    /// Returns the number of children, nodes and tokens.
    pub(crate) fn child_count(&self) -> usize
        ensures count { result ≡ length (children_of self.now) }
        ensures bound { result < 2 ^ 32 }
    {
        self.children().len()
    }

    /// Returns the child at `index`, counted from 0, nodes and tokens alike.
    pub fn child(&self, index: usize) -> Option<GreenElementRef<'a>>
        ensures { result ≡ slice_get (children_of self.now) index }
    {
        match self.reader() {
            NodeReader::Flat(node) => node.child(index),
            NodeReader::Data(data) => data.child(index),
        }
    }

    /// Returns the child at `index`, which must exist.
    pub(crate) fn child_at(&self, index: usize) -> GreenElementRef<'a>
        requires { index < length (children_of self.now) }
        ensures { result ≡ slice_index_or (children_of self.now) index result }
    {
        match self.child(index) {
            Some(child) => child,
            None => unreachable!(),
        }
    }

    /// Returns the offset of a child's text in the node's text, in bytes, as
    /// [`GreenNode::child_start`] does.
    pub fn child_start(&self, index: usize) -> Option<TextSize>
        ensures { MatchOption result (length (children_of self.now) ≤ index)
            (λ start. start.0 ≡ length (texts_of (take index (children_of self.now)))) }
    {
        match self.reader() {
            NodeReader::Flat(node) => node.child_start(index),
            NodeReader::Data(data) => data.child_start(index),
        }
    }

    /// Returns the child that has the byte at `offset`, as [`GreenNode::child_at_offset`] does.
    pub fn child_at_offset(&self, offset: TextSize) -> Option<ChildAt>
        ensures found { IsSome result ↔ (offset.0 < length (tree_text self.now)) }
        ensures child { IfSome result
            (λ c. IsChildAt (children_of self.now) offset.0 c.index c.start.0) }
        ensures counted { IfSome result (λ c. 1 ≤ c.looks) }
        ensures looks { (digits : ℕ) → length (children_of self.now) < 2 ^ digits →
            IfSome result (λ c. c.looks ≤ 2 * digits + 2) }
    {
        match self.reader() {
            NodeReader::Flat(node) => node.child_at_offset(offset),
            NodeReader::Data(data) => data.child_at_offset(offset),
        }
    }

    /// Returns an owned clone of the node. Does not allocate.
    ///
    /// # Errors
    ///
    /// [`AllocError`] if the reference count overflows.
    pub fn to_owned(&self) -> Result<GreenNode, AllocError>
        ensures { IfOk result (λ n. n ≡ self.now) }
    {
        match self.reader() {
            NodeReader::Flat(node) => Ok(GreenNode::of_flat(node.to_owned()?)),
            NodeReader::Data(data) => Ok(GreenNode {
                form: NodeForm::Data(data.clone()?),
            }),
        }
    }
}

impl<'a> GreenTokenRef<'a> {
    /// Returns the kind of the token.
    pub fn kind(&self) -> SyntaxKind
        ensures { result.0 ≡ self.now.kind }
    {
        let entry = self.arena.entry(self.index);
        SyntaxKind(self.arena.kind(entry))
    }

    /// Returns the text of the token.
    pub fn text(&self) -> &'a str
        ensures { result.now ≡ self.now.text }
    {
        let entry = self.arena.entry(self.index);
        self.arena.text(entry)
    }

    /// Returns the length of the token's text, in bytes.
    pub fn text_len(&self) -> TextSize
        ensures { result.0 ≡ length self.now.text }
    {
        let entry = self.arena.entry(self.index);
        TextSize(self.arena.text_len(entry))
    }

    /// Returns an owned clone of the token. Does not allocate.
    ///
    /// # Errors
    ///
    /// [`AllocError`] if the reference count overflows.
    pub fn to_owned(&self) -> Result<GreenToken, AllocError>
        ensures { IfOk result (λ t. t ≡ self.now) }
    {
        Ok(GreenToken {
            index: self.index,
            arena: self.arena.clone()?,
        })
    }
}

impl<'a> NodeOrToken<GreenNodeRef<'a>, GreenTokenRef<'a>> {
    /// Returns `element`, borrowed.
    pub(crate) fn of(element: &'a GreenElement) -> GreenElementRef<'a>
        ensures { result ≡ element.now }
    {
        match element {
            NodeOrToken::Node(node) => NodeOrToken::Node(node.as_ref()),
            NodeOrToken::Token(token) => NodeOrToken::Token(token.as_ref()),
        }
    }

    /// Returns the kind of the element.
    pub fn kind(&self) -> SyntaxKind
        ensures { result.0 ≡ kind_of self.now }
    {
        match self {
            NodeOrToken::Node(node) => node.kind(),
            NodeOrToken::Token(token) => token.kind(),
        }
    }

    /// Returns the length of the element's text, in bytes.
    pub fn text_len(&self) -> TextSize
        ensures { result.0 ≡ term_len self.now }
    {
        match self {
            NodeOrToken::Node(node) => node.text_len(),
            NodeOrToken::Token(token) => token.text_len(),
        }
    }

    /// Returns an owned clone of the element. Does not allocate.
    ///
    /// # Errors
    ///
    /// [`AllocError`] if the reference count overflows.
    pub fn to_owned(&self) -> Result<GreenElement, AllocError>
        ensures { IfOk result (λ e. e ≡ self.now) }
    {
        match self {
            NodeOrToken::Node(node) => Ok(NodeOrToken::Node(node.to_owned()?)),
            NodeOrToken::Token(token) => Ok(NodeOrToken::Token(token.to_owned()?)),
        }
    }
}

impl<'a> PartialEq for GreenNodeRef<'a> {
    ghost use Rattle.rowan_green.specs.Forest.{same_tree};
    ghost use Rattle.rowan_green.specs.Same.{same_tree-equiv};
    ghost use Rattle.std.specs.Cmp.{partial_equiv_from_equiv};

    ghost eq = { same_tree };

    ghost laws = { partial_equiv_from_equiv same_tree-equiv };

    fn eq(&self, other: &GreenNodeRef<'a>) -> bool {
        same_node(self.copy(), other.copy())
    }
}

impl<'a> PartialEq for GreenTokenRef<'a> {
    ghost use Rattle.rowan_green.specs.Leaf.{same_leaf};
    ghost use Rattle.rowan_green.specs.Same.{same_leaf-equiv};
    ghost use Rattle.std.specs.Cmp.{partial_equiv_from_equiv};

    ghost eq = { same_leaf };

    ghost laws = { partial_equiv_from_equiv same_leaf-equiv };

    fn eq(&self, other: &GreenTokenRef<'a>) -> bool {
        self.kind().0 == other.kind().0 && self.text() == other.text()
    }
}
