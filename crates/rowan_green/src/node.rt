//! Nodes: a kind and children, shared by all owners of the node.
ghost use Rattle.std.specs.Prelude.{ℕ, ◌≡◌, ◌*◌, ◌↔◌, ◌+◌, ◌<◌, ◌≤◌, ◌^◌, length, take, IsSome, IfSome, IfOk, IfErr, OnOk, MatchOption, List, slice_get};
ghost use Rattle.std.specs.Option.{SomeIff};
ghost use Rattle.std.specs.Iterator.{IsFinite, Drains};
ghost use Rattle.rowan_green.specs.Forest.{tree_text};
ghost use Rattle.rowan_green.specs.Term.{Term, texts_of, tree_of, children_of, FitsNode};
ghost use Rattle.rowan_green.specs.ChildAt.{IsChildAt};
ghost use Rattle.rowan_green.specs.Refusal.{RefusesUnless};

use crate::arena::Arena;
use crate::child_at::ChildAt;
use crate::element::GreenElement;
use crate::element_list::{MOST, Part};
use crate::element_ref::GreenElementRef;
use crate::equality::same_node;
use crate::error::GreenError;
use crate::flat_node::FlatNode;
use crate::node_children::Children;
use crate::node_data::NodeData;
use crate::node_hash::hash_child;
use crate::syntax_kind::SyntaxKind;
use crate::text_size::TextSize;
use std::alloc::{AllocError, Global};
use std::hash::{Hash, Hasher};
use std::marker::Model;
use std::rc::Rc;

/// A node of an arena, by its entry number; or a node with its own list of children.
#[cycle(green)]
#[derive(Drop)]
pub(crate) enum NodeForm {
    Flat(u32, Rc<Arena>),
    Data(Rc<NodeData>),
}

/// A node of a green tree. A clone shares the kind and the children; cloning does not allocate. A
/// node from a builder keeps the whole tree alive.
#[cycle(green)]
pub struct GreenNode {
    pub(crate) form: NodeForm,
}

const _: () = prove!(size_of::<GreenNode>() == 16);

// A loop continues with one child; calls drop the other children. Those have at most half of the
// node's text each, so the calls nest to the logarithm of the text's length. A node of an arena
// ends the loop: its children are entry numbers.
impl Drop for GreenNode {
    #[cycle(node_drop)]
    fn drop(mut self) {
        'down: loop {
            let GreenNode { form } = self;
            let shared = match form {
                NodeForm::Flat(_, _) => return,
                NodeForm::Data(shared) => shared,
            };
            let Some(data) = Rc::into_inner(shared) else {
                return;
            };
            let NodeData {
                kind: _,
                text_len: _,
                children,
            } = data;
            match children.into_longest() {
                Some(node) => self = node,
                None => return,
            }
        }
    }
}

impl Model for GreenNode {
    ghost use Rattle.std.specs.Prelude.{◌*◌, ◌+◌};
    ghost use Rattle.rowan_green.specs.Forest.{Tree, tree_code, tree_count};

    ghost Value = { Tree };

    ghost coded = { tree_code };

    ghost use Rattle.rowan_green.specs.NodeForm.{form_tree, IsNodeForm};

    ghost view = { λ a. form_tree a.form };

    ghost invariant = { λ a. IsNodeForm a.form };

    ghost size = { λ t. 3 * tree_count t + 1 };

    ghost use Rattle.rowan_green.specs.Falls.{form_falls};

    ghost size_decreases = { λ a h. form_falls a.form };
}

impl GreenNode {
    /// Creates a node with the elements of `children`.
    ///
    /// # Errors
    ///
    /// - [`GreenError::TooLong`] if the node would have 2^32 children or more, or a text of 2^32
    ///   bytes or more.
    /// - [`GreenError::NoMemory`] if an allocation fails or a reference count overflows.
    pub fn new<I: Iterator<Item = GreenElement> + Drop>(
        alloc: Global,
        kind: SyntaxKind,
        children: I,
    ) -> Result<GreenNode, GreenError>
        requires can { I.can_next children }
        requires ends { IsFinite (I.remaining children) }
        ensures ok { IfOk result (λ n. (es : List Term) × Drains I.next_gives children es
            × FitsNode es × (n ≡ tree_of kind.0 es)) }
        ensures refused { IfErr result
            (RefusesUnless ((es : List Term) → Drains I.next_gives children es → FitsNode es)) }
    {
        let children = collected(alloc, children)?;
        let children = trim(alloc, children)?;
        GreenNode::from_vec(alloc, kind, children)
    }

    /// Returns the node with these children.
    ///
    /// # Errors
    ///
    /// - [`GreenError::TooLong`] if the node would have 2^32 children or more, or a text of 2^32
    ///   bytes or more.
    /// - [`GreenError::NoMemory`] if an allocation fails or a reference count overflows.
    pub(crate) fn from_vec(
        alloc: Global,
        kind: SyntaxKind,
        children: Vec<GreenElement>,
    ) -> Result<GreenNode, GreenError>
        ensures ok { IfOk result (λ n. n ≡ tree_of kind.0 children.items) }
        ensures fits { OnOk result (FitsNode children.items) }
        ensures refused { IfErr result (RefusesUnless (FitsNode children.items)) }
    {
        if fitting_len(&children).is_none() {
            return Err(GreenError::TooLong);
        }
        let list = Part::from_vec(alloc, children)?;
        Ok(GreenNode::of_list(alloc, kind, list)?)
    }

    /// Returns the node with a list of children.
    ///
    /// # Errors
    ///
    /// [`AllocError`] if an allocation fails.
    pub(crate) fn of_list(
        alloc: Global,
        kind: SyntaxKind,
        children: Part,
    ) -> Result<GreenNode, AllocError>
        ensures { IfOk result (λ n. n ≡ tree_of kind.0 children.0) }
    {
        let data = Rc::new(alloc, NodeData::of(kind, children))?;
        Ok(GreenNode {
            form: NodeForm::Data(data),
        })
    }

    /// Returns a node of an arena as a green node.
    pub(crate) fn of_flat(node: FlatNode) -> GreenNode
        ensures { result ≡ node }
    {
        let FlatNode { index, arena } = node;
        GreenNode {
            form: NodeForm::Flat(index, arena),
        }
    }

    /// Returns the kind.
    pub fn kind(&self) -> SyntaxKind
        ensures { result.0 ≡ self.now.kind }
    {
        self.as_ref().kind()
    }

    /// Returns the length of the node's text, in bytes.
    pub fn text_len(&self) -> TextSize
        ensures { result.0 ≡ length (tree_text self.now) }
    {
        self.as_ref().text_len()
    }

    /// Returns the children in order, nodes and tokens.
    pub fn children(&self) -> Children<'_>
        ensures children { result ≡ children_of self.now }
        ensures count { length (children_of self.now) < 2 ^ 32 }
    {
        self.as_ref().children()
    }

    /// Returns the child at `index`, counted from 0, nodes and tokens alike.
    pub fn child(&self, index: usize) -> Option<GreenElementRef<'_>>
        ensures { result ≡ slice_get (children_of self.now) index }
    {
        self.as_ref().child(index)
    }

    /// Returns the offset, in bytes, of the text of the child at `index` in the node's text; `None`
    /// if there is no such child. Does not allocate; descends one path.
    pub fn child_start(&self, index: usize) -> Option<TextSize>
        ensures { MatchOption result (length (children_of self.now) ≤ index)
            (λ start. start.0 ≡ length (texts_of (take index (children_of self.now)))) }
    {
        self.as_ref().child_start(index)
    }

    /// Returns the child whose text has the byte at `offset` of the node's text; `None` if there is
    /// no such byte.
    ///
    /// Does not allocate. Reads at least one length, and at most `2 * d + 2` lengths, where the
    /// number of children is less than 2^`d`.
    pub fn child_at_offset(&self, offset: TextSize) -> Option<ChildAt>
        ensures found { IsSome result ↔ (offset.0 < length (tree_text self.now)) }
        ensures child { IfSome result
            (λ c. IsChildAt (children_of self.now) offset.0 c.index c.start.0) }
        ensures counted { IfSome result (λ c. 1 ≤ c.looks) }
        ensures looks { (digits : ℕ) → length (children_of self.now) < 2 ^ digits →
            IfSome result (λ c. c.looks ≤ 2 * digits + 2) }
    {
        self.as_ref().child_at_offset(offset)
    }
}

/// Returns all elements that an iterator yields.
pub(crate) fn collected<I: Iterator<Item = GreenElement> + Drop>(
    alloc: Global,
    elements: I,
) -> Result<Vec<GreenElement>, AllocError>
    requires can { I.can_next elements }
    requires ends { IsFinite (I.remaining elements) }
    ensures { IfOk result (λ v. Drains I.next_gives elements v.items) }
{
    // At most the capacity of a block, since the hint can be too high.
    let room = elements.size_hint().0.min(MOST);
    let mut all = Vec::with_capacity(alloc, room)?;
    for element in elements {
        all.push(element)?;
    }
    Ok(all)
}

/// Returns the elements without spare capacity if they fit into one block; otherwise unchanged.
fn trim(alloc: Global, mut elements: Vec<GreenElement>) -> Result<Vec<GreenElement>, AllocError>
    ensures { IfOk result (λ v. v.items ≡ elements.items) }
{
    let len = elements.len();
    if len == elements.capacity() || len > MOST {
        return Ok(elements);
    }
    let mut exact = Vec::with_capacity(alloc, len)?;
    exact.append(&mut elements)?;
    Ok(exact)
}

/// Returns the length of the children's text, in bytes; `None` if a node cannot have these
/// children.
#[tactic(auto, using(crate::proofs::Lengths::lengths))]
pub(crate) fn fitting_len(children: &[GreenElement]) -> Option<u32>
    ensures { SomeIff result (FitsNode children.now) (length (texts_of children.now)) }
{
    if children.len() > u32::MAX as usize {
        return None;
    }
    let mut text_len: u32 = 0;
    for child in children {
        text_len = text_len.checked_add(child.text_len().0)?;
    }
    Some(text_len)
}

impl Clone for GreenNode {
    ghost is_clone = { λ n copy. copy ≡ n };

    /// Returns another reference to the node.
    ///
    /// # Errors
    ///
    /// [`AllocError`] if the reference count overflows.
    fn clone(&self) -> Result<GreenNode, AllocError> {
        self.as_ref().to_owned()
    }
}

impl PartialEq for GreenNode {
    ghost use Rattle.rowan_green.specs.Forest.{same_tree};
    ghost use Rattle.rowan_green.specs.Same.{same_tree-equiv};
    ghost use Rattle.std.specs.Cmp.{partial_equiv_from_equiv};

    ghost eq = { same_tree };

    ghost laws = { partial_equiv_from_equiv same_tree-equiv };

    fn eq(&self, other: &GreenNode) -> bool {
        same_node(self.as_ref(), other.as_ref())
    }
}

impl Eq for GreenNode {
    ghost use Rattle.rowan_green.specs.Same.{same_tree-equiv};

    ghost laws = { same_tree-equiv };
}

/// Hashes the kind, the length, the number of children, and the first and the last child as
/// [`hash_child`] does.
impl Hash for GreenNode {
    ghost use Rattle.rowan_green.specs.Same.{same_tree-Decides};
    ghost use Rattle.rowan_green.specs.Hashing.{hashed_node};
    ghost use Rattle.std.proofs.Common.{ap};

    ghost hash_input = { hashed_node };

    ghost respects_eq = { λ x y p. ap hashed_node ((same_tree-Decides x y).0 p) };

    fn hash<H: Hasher>(&self, state: &mut H) {
        let node = self.as_ref();
        let count = node.child_count();
        node.kind().0.hash(state);
        node.text_len().0.hash(state);
        (count as u32).hash(state);
        hash_child(node.child(0), state);
        hash_child(node.child(count.saturating_sub(1)), state);
    }
}
