//! Edits: nodes that differ from others in their children.
ghost use Rattle.std.specs.Prelude.{◌≡◌, ◌+◌, ◌≤◌, ◌<◌, ◌++◌, length, take, drop, IfOk, IfErr, OnOk, IsOkUnless, List, [], ◌∷◌};
ghost use Rattle.std.specs.Iterator.{IsFinite, Drains};
ghost use Rattle.rowan_green.specs.Term.{Term, tree_of, children_of, spliced, FitsNode};
ghost use Rattle.rowan_green.specs.Refusal.{RefusesUnless};

use crate::element::GreenElement;
use crate::element_list::{MOST, Part};
use crate::element_list_join;
use crate::element_ref::{GreenNodeRef, NodeReader};
use crate::error::GreenError;
use crate::flat_ref::FlatNodeRef;
use crate::node::{GreenNode, collected, fitting_len};
use std::alloc::{AllocError, Global};
use std::ops::Range;
use std::rc::Rc;

impl GreenNode {
    /// Returns this node with the child at `index` replaced by `new_child`.
    ///
    /// # Errors
    ///
    /// - [`GreenError::TooLong`] if the node would have 2^32 children or more, or a text of 2^32
    ///   bytes or more.
    /// - [`GreenError::NoMemory`] if an allocation fails or a reference count overflows.
    pub fn replace_child(
        &self,
        alloc: Global,
        index: usize,
        new_child: GreenElement,
    ) -> Result<GreenNode, GreenError>
        requires { index < length (children_of self.now) }
        ensures ok { IfOk result (λ n. n ≡ tree_of self.now.kind
            (spliced (children_of self.now) index (index + 1) (new_child ∷ []))) }
        ensures fits { OnOk result
            (FitsNode (spliced (children_of self.now) index (index + 1) (new_child ∷ []))) }
        ensures refused { IfErr result (RefusesUnless
            (FitsNode (spliced (children_of self.now) index (index + 1) (new_child ∷ [])))) }
    {
        prove!(index < self.as_ref().child_count());
        let new_children = vec![in alloc; new_child]?;
        self.splice(alloc, index, index + 1, new_children)
    }

    /// Returns this node with `new_child` inserted at `index`.
    ///
    /// # Errors
    ///
    /// - [`GreenError::TooLong`] if the node would have 2^32 children or more, or a text of 2^32
    ///   bytes or more.
    /// - [`GreenError::NoMemory`] if an allocation fails or a reference count overflows.
    pub fn insert_child(
        &self,
        alloc: Global,
        index: usize,
        new_child: GreenElement,
    ) -> Result<GreenNode, GreenError>
        requires { index ≤ length (children_of self.now) }
        ensures ok { IfOk result (λ n. n ≡ tree_of self.now.kind
            (spliced (children_of self.now) index index (new_child ∷ []))) }
        ensures fits { OnOk result
            (FitsNode (spliced (children_of self.now) index index (new_child ∷ []))) }
        ensures refused { IfErr result
            (RefusesUnless (FitsNode
            (spliced (children_of self.now) index index (new_child ∷ [])))) }
    {
        let new_children = vec![in alloc; new_child]?;
        self.splice(alloc, index, index, new_children)
    }

    /// Returns this node without the child at `index`.
    ///
    /// # Errors
    ///
    /// [`GreenError::NoMemory`] if an allocation fails or a reference count overflows.
    pub fn remove_child(&self, alloc: Global, index: usize) -> Result<GreenNode, GreenError>
        requires { index < length (children_of self.now) }
        ensures ok { IfOk result
            (λ n. n ≡ tree_of self.now.kind (spliced (children_of self.now) index (index + 1) [])) }
        ensures refused { IsOkUnless result GreenError.NoMemory }
    {
        prove!(index < self.as_ref().child_count());
        // The length of the text is a `u32`: this shows that a node can have these children.
        let _text_len = self.text_len();
        self.splice(alloc, index, index + 1, Vec::new(alloc))
    }

    /// Returns this node with the children in `range` replaced by `new_children`.
    ///
    /// # Errors
    ///
    /// - [`GreenError::TooLong`] if the node would have 2^32 children or more, or a text of 2^32
    ///   bytes or more.
    /// - [`GreenError::NoMemory`] if an allocation fails or a reference count overflows.
    pub fn splice_children<I: Iterator<Item = GreenElement> + Drop>(
        &self,
        alloc: Global,
        range: Range<usize>,
        new_children: I,
    ) -> Result<GreenNode, GreenError>
        requires ordered { range.start ≤ range.end }
        requires in_bounds { range.end ≤ length (children_of self.now) }
        requires can { I.can_next new_children }
        requires ends { IsFinite (I.remaining new_children) }
        ensures ok { let old = children_of self.now in IfOk result (λ n. (es : List Term)
            × Drains I.next_gives new_children es × FitsNode (spliced old range.start range.end es)
            × (n ≡ tree_of self.now.kind (spliced old range.start range.end es))) }
        ensures refused { let old = children_of self.now in IfErr result (RefusesUnless
            ((es : List Term) → Drains I.next_gives new_children es → FitsNode
            (spliced old range.start range.end es))) }
    {
        let new_children = collected(alloc, new_children)?;
        self.splice(alloc, range.start, range.end, new_children)
    }

    fn splice(
        &self,
        alloc: Global,
        start: usize,
        end: usize,
        mut new_children: Vec<GreenElement>,
    ) -> Result<GreenNode, GreenError>
        requires ordered { start ≤ end }
        requires in_bounds { end ≤ length (children_of self.now) }
        ensures ok { IfOk result (λ n. n ≡ tree_of self.now.kind
            (spliced (children_of self.now) start end new_children.items)) }
        ensures fits { OnOk result
            (FitsNode (spliced (children_of self.now) start end new_children.items)) }
        ensures refused { IfErr result
            (RefusesUnless (FitsNode
            (spliced (children_of self.now) start end new_children.items))) }
    {
        let node = self.as_ref();
        let count = node.child_count();
        let kept = count - (end - start);
        if kept.saturating_add(new_children.len()) > MOST {
            return self.splice_many(alloc, start, end, &new_children);
        }
        let mut children = Vec::with_capacity(alloc, kept + new_children.len())?;
        push_children(&mut children, &node, 0, start)?;
        children.append(&mut new_children)?;
        push_children(&mut children, &node, end, count)?;
        GreenNode::from_vec(alloc, self.kind(), children)
    }

    /// Replaces children as `splice` does, for a result of more than 16 children. The new node
    /// shares parts of the old list.
    fn splice_many(
        &self,
        alloc: Global,
        start: usize,
        end: usize,
        new_children: &[GreenElement],
    ) -> Result<GreenNode, GreenError>
        requires ordered { start ≤ end }
        requires in_bounds { end ≤ length (children_of self.now) }
        ensures ok { IfOk result (λ n. n ≡ tree_of self.now.kind
            (spliced (children_of self.now) start end new_children.now)) }
        ensures fits { OnOk result
            (FitsNode (spliced (children_of self.now) start end new_children.now)) }
        ensures refused { IfErr result
            (RefusesUnless (FitsNode (spliced (children_of self.now) start end new_children.now))) }
    {
        if fitting_len(new_children).is_none() {
            return Err(GreenError::TooLong);
        }
        let middle = Rc::new(alloc, Part::of(alloc, new_children)?)?;
        let children = spliced_list(alloc, &self.as_ref(), start, end, &middle)?;
        Ok(GreenNode::of_list(alloc, self.kind(), children)?)
    }
}

/// Returns the list of a node's children, with those from index `start` to before `end` replaced by
/// the elements of `middle`.
fn spliced_list(
    alloc: Global,
    node: &GreenNodeRef<'_>,
    start: usize,
    end: usize,
    middle: &Rc<Part>,
) -> Result<Part, GreenError>
    requires ordered { start ≤ end }
    requires in_bounds { end ≤ length (children_of node.now) }
    ensures ok { IfOk result
        (λ l. l.0 ≡ spliced (children_of node.now) start end middle.now.value.0) }
    ensures fits { OnOk result
        (FitsNode (spliced (children_of node.now) start end middle.now.value.0)) }
    ensures refused { IfErr result
        (RefusesUnless (FitsNode (spliced (children_of node.now) start end middle.now.value.0))) }
{
    match node.reader() {
        NodeReader::Flat(flat) => {
            let list = list_of(alloc, &flat)?;
            element_list_join::splice(alloc, list.list(), start, end, middle)
        }
        NodeReader::Data(data) => {
            element_list_join::splice(alloc, data.elements(), start, end, middle)
        }
    }
}

/// Returns the children of a node of an arena as a list: up to 16 are cloned, more remain entries
/// of the arena.
fn list_of(alloc: Global, node: &FlatNodeRef<'_>) -> Result<Part, AllocError>
    ensures { IfOk result (λ l. l.0 ≡ children_of node.now) }
{
    if node.children().len() <= MOST {
        return list_of_clones(alloc, node);
    }
    // The length of the text is a `u32`: this shows that a list can have these children.
    let _text_len = node.text_len();
    Ok(Part::run(node.run()?))
}

/// Returns the list of clones of the children of a node of an arena.
fn list_of_clones(alloc: Global, node: &FlatNodeRef<'_>) -> Result<Part, AllocError>
    ensures { IfOk result (λ l. l.0 ≡ children_of node.now) }
{
    let children = node.children();
    let mut elements = Vec::with_capacity(alloc, children.len())?;
    for child in children {
        elements.push(child.to_owned()?)?;
    }
    // The length of the text is a `u32`: this shows that a list can have these children.
    let _text_len = node.text_len();
    Part::from_vec(alloc, elements)
}

/// Appends clones of a node's children from index `start` to before `end`.
fn push_children(
    to: &mut Vec<GreenElement>,
    from: &GreenNodeRef<'_>,
    start: usize,
    end: usize,
) -> Result<(), AllocError>
    requires ordered { start ≤ end }
    requires in_bounds { end ≤ length (children_of from.now) }
    ensures { OnOk result
        (to.new.items ≡ to.old.items ++ drop start (take end (children_of from.now))) }
{
    for index in start..end {
        to.push(from.child_at(index).to_owned()?)?;
    }
    Ok(())
}
