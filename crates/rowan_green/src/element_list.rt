//! The children of a node: a balanced tree over blocks of elements and runs of entries of an arena.
//! Lists share its parts.
ghost use Rattle.std.specs.Prelude.{◌≡◌, ◌≢◌, ◌+◌, ◌*◌, ◌<◌, ◌≤◌, ◌^◌, ◌++◌, max, length, slice_get, slice_index_or, take, IfOk, IfSome, OnOk, MatchOption, drop, [], ◌∷◌};
ghost use Rattle.rowan_green.specs.Forest.{tree_count, forest_count};
ghost use Rattle.rowan_green.specs.Term.{forest_of, texts_of, FitsNode};
ghost use Rattle.rowan_green.specs.ChildAt.{IsChildAt};
ghost use Rattle.rowan_green.specs.Balanced.{fewest, IsJoined};
ghost use Rattle.rowan_green.specs.Run.{HasHeight};

use crate::element::GreenElement;
use crate::element_clones::{clones, push_clones};
use crate::element_ref::GreenElementRef;
use crate::element_search::{Place, find_in_block, longest_node};
use crate::node::GreenNode;
use crate::run::Run;
use std::alloc::{AllocError, Global};
use std::marker::Model;
use std::rc::Rc;

/// The maximum number of elements of a block.
pub(crate) const MOST: usize = 16;

/// The minimum number of elements of a block below a fork.
pub(crate) const FEWEST: usize = 8;

/// A list of elements. It stores the length of the text before its middle, which a search reads.
#[cycle(green)]
#[derive(Drop)]
pub(crate) struct ElementList {
    link: Link,
}

/// The content of a list.
///
/// `half`, the first field of `Block` and `Fork`, fits beside the discriminant, so it takes no
/// extra space.
#[cycle(green)]
#[derive(Drop)]
enum Link {
    /// One element.
    One(GreenElement),
    /// `Block(half, elements)`: at most 16 elements. `half` is the length, in bytes, of the text of
    /// the first `elements.len() / 2` of them.
    Block(u32, Vec<GreenElement>),
    /// Adjacent entries of an arena.
    Run(Run),
    /// `Fork(half, left, right, count, height)`: the elements of `left`, then those of `right`.
    /// `half` is the length of `left`'s text, in bytes; `count` the number of all elements;
    /// `height` the height of the list.
    Fork(u32, Rc<Part>, Rc<Part>, u32, u8),
}

/// A list with the length of its text, in bytes; other lists may share it.
#[cycle(green)]
#[derive(Drop)]
pub(crate) struct Part {
    text_len: u32,
    list: ElementList,
}

impl Model for ElementList {
    ghost use Rattle.std.specs.Prelude.{ℕ, List, ◌*◌, ◌+◌};
    ghost use Rattle.std.specs.Coded.{codes};
    ghost use Rattle.rowan_green.specs.Forest.{tree_code, forest_count};
    ghost use Rattle.rowan_green.specs.Term.{Term, forest_of};

    ghost Value = { List Term × ℕ };

    ghost coded = { Prim.hlevel (codes, tree_code) };

    ghost use Rattle.rowan_green.specs.Balanced.{terms_in, height_of, IsSummed};

    ghost view = { λ a. (terms_in a.link, height_of a.link) };

    ghost invariant = { λ a. IsSummed a.link };

    ghost size = { λ d. 3 * forest_count (forest_of d.0) + 2 };

    ghost use Rattle.rowan_green.specs.Falls.{falls};

    ghost size_decreases = { λ a h. falls a.link h.balanced };
}

impl Model for Part {
    ghost use Rattle.std.specs.Prelude.{ℕ, List, ◌≡◌, ◌*◌, ◌+◌, length};
    ghost use Rattle.std.specs.Coded.{codes};
    ghost use Rattle.rowan_green.specs.Forest.{tree_code, forest_count};
    ghost use Rattle.rowan_green.specs.Term.{Term, forest_of, texts_of};

    ghost Value = { List Term × ℕ };

    ghost coded = { Prim.hlevel (codes, tree_code) };

    ghost view = { λ a. a.list };

    ghost invariant = { λ a. a.text_len ≡ length (texts_of a.list.0) };

    ghost size = { λ d. 3 * forest_count (forest_of d.0) + 3 };

    ghost use Rattle.std.proofs.Common.{arith};

    ghost size_decreases = { λ a h. Prim.omega arith };
}

impl ElementList {
    pub(crate) fn len(&self) -> usize
        ensures count { result ≡ length self.now.0 }
        ensures fits { FitsNode self.now.0 }
        ensures bound { result < 2 ^ 32 }
    {
        match &self.link {
            Link::One(_) => 1,
            Link::Block(_, elements) => elements.len(),
            Link::Run(run) => run.len(),
            Link::Fork(_, _, _, count, _) => *count as usize,
        }
    }

    pub(crate) fn height(&self) -> u8
        ensures height { result ≡ self.now.1 }
        ensures many { 8 ≤ length self.now.0 → fewest result ≤ length self.now.0 }
        ensures few { length self.now.0 < 16 → result ≡ 0 }
        ensures block { result ≡ 0 → length self.now.0 ≤ 16 }
        ensures low { result ≤ 56 }
    {
        match &self.link {
            Link::One(_) => 0,
            Link::Block(_, _) => 0,
            Link::Run(run) => run.height(),
            Link::Fork(_, _, _, _, height) => *height,
        }
    }

    /// Returns the two sides of a list of height 1 or more: the lists below a fork, the halves of a
    /// run. Returns `None` for a list of height 0, which has at most 16 elements.
    ///
    /// # Errors
    ///
    /// [`AllocError`] if an allocation fails.
    pub(crate) fn sides(&self, alloc: Global) -> Result<Option<(Rc<Part>, Rc<Part>)>, AllocError>
        ensures { IfOk result (λ sides. MatchOption sides
            ((self.now.1 ≡ 0) × (length self.now.0 ≤ 16))
            (λ s. IsJoined self.now s.0.value s.1.value)) }
    {
        match &self.link {
            Link::One(_) => Ok(None),
            Link::Block(_, _) => Ok(None),
            Link::Run(run) => run_sides(alloc, run),
            Link::Fork(_, left, right, _, _) => Ok(Some((left.clone()?, right.clone()?))),
        }
    }

    /// Returns the element at `index`.
    pub(crate) fn at(&self, index: usize) -> GreenElementRef<'_>
        requires { index < length self.now.0 }
        ensures { result ≡ slice_index_or self.now.0 index result }
    {
        match &self.link {
            Link::One(element) => GreenElementRef::of(element),
            Link::Block(_, elements) => GreenElementRef::of(&elements[index]),
            Link::Run(run) => run.at(index),
            Link::Fork(_, left, right, _, _) => {
                let before = left.len();
                if index < before {
                    left.list().at(index)
                } else {
                    right.list().at(index - before)
                }
            }
        }
    }

    pub(crate) fn get(&self, index: usize) -> Option<GreenElementRef<'_>>
        ensures { result ≡ slice_get self.now.0 index }
    {
        if index < self.len() {
            Some(self.at(index))
        } else {
            None
        }
    }

    /// Returns the offset, in bytes, of the text of the element at `index` in the list's text.
    pub(crate) fn start_of(&self, index: usize) -> u32
        requires { index < length self.now.0 }
        ensures { result ≡ length (texts_of (take index self.now.0)) }
    {
        match &self.link {
            Link::One(_) => 0,
            Link::Block(_, elements) => text_sum(&elements[..index]),
            Link::Run(run) => run.start_of(index),
            Link::Fork(half, left, right, _, _) => {
                let before = left.len();
                if index < before {
                    left.list().start_of(index)
                } else {
                    half + right.list().start_of(index - before)
                }
            }
        }
    }

    /// Returns the place of the element whose text has the byte at `offset`.
    pub(crate) fn find(&self, offset: u32) -> Place
        requires { offset < length (texts_of self.now.0) }
        ensures place { IsChildAt self.now.0 offset result.index result.start }
        ensures few { length self.now.0 < 8 → result.looks ≤ length self.now.0 }
        ensures looks { result.looks ≤ self.now.1 + 9 }
        ensures many { 8 ≤ length self.now.0 → fewest self.now.1 ≤ length self.now.0 }
    {
        match &self.link {
            Link::One(_) => Place {
                index: 0,
                start: 0,
                looks: 1,
            },
            Link::Block(half, elements) => find_in_block(elements, *half, offset),
            Link::Run(run) => run.place_at(offset),
            Link::Fork(half, left, right, _, _) => {
                if offset < *half {
                    left.list().find(offset).further(0, 0)
                } else {
                    right.list().find(offset - half).further(left.len(), *half)
                }
            }
        }
    }
}

impl ElementList {
    /// Drops the elements except one node, which it returns: of a fork it drops the side with the
    /// shorter text, of a block all but the node with the longest text. Returns `None` if no node
    /// is left, as of a run, or if another list shares the side that is left.
    #[cycle(node_drop)]
    pub(crate) fn into_longest(self) -> Option<GreenNode>
        ensures { IfSome result (λ n. tree_count n ≤ forest_count (forest_of self.0)) }
    {
        let mut list = self;
        'down: loop {
            let ElementList { link } = list;
            match link {
                Link::One(element) => return element.into_node(),
                Link::Block(_, elements) => return longest_node(elements),
                Link::Run(_) => return None,
                Link::Fork(_, left, right, _, _) => {
                    let (long, short) = if left.text_len() < right.text_len() {
                        (right, left)
                    } else {
                        (left, right)
                    };
                    drop(short);
                    let Part {
                        text_len: _,
                        list: inner,
                    } = Rc::into_inner(long)?;
                    list = inner;
                }
            }
        }
    }

    /// Returns a list of the same elements, which shares the sides of this one.
    pub(crate) fn copy(&self, alloc: Global) -> Result<Part, AllocError>
        ensures { IfOk result (λ l. l ≡ self.now) }
    {
        match self.sides(alloc)? {
            Some((left, right)) => Ok(Part::fork(left, right)),
            None => {
                let mut elements = Vec::with_capacity(alloc, self.len())?;
                push_clones(&mut elements, self, 0, self.len())?;
                Ok(Part::few(elements))
            }
        }
    }
}

impl Part {
    pub(crate) fn list(&self) -> &ElementList
        ensures { result.now ≡ self.now }
    {
        &self.list
    }

    pub(crate) fn text_len(&self) -> u32
        ensures { result ≡ length (texts_of self.now.0) }
    {
        self.text_len
    }

    pub(crate) fn len(&self) -> usize
        ensures count { result ≡ length self.now.0 }
        ensures fits { FitsNode self.now.0 }
        ensures bound { result < 2 ^ 32 }
    {
        self.list.len()
    }

    pub(crate) fn height(&self) -> u8
        ensures height { result ≡ self.now.1 }
        ensures many { 8 ≤ length self.now.0 → fewest result ≤ length self.now.0 }
        ensures few { length self.now.0 < 16 → result ≡ 0 }
        ensures block { result ≡ 0 → length self.now.0 ≤ 16 }
        ensures low { result ≤ 56 }
    {
        self.list.height()
    }

    /// Returns the two sides of a list of height 1 or more, as [`ElementList::sides`] does.
    pub(crate) fn sides(&self, alloc: Global) -> Result<Option<(Rc<Part>, Rc<Part>)>, AllocError>
        ensures { IfOk result (λ sides. MatchOption sides
            ((self.now.1 ≡ 0) × (length self.now.0 ≤ 16))
            (λ s. IsJoined self.now s.0.value s.1.value)) }
    {
        self.list.sides(alloc)
    }

    /// Returns the length of the text, in bytes, and the list.
    pub(crate) fn into_list(self) -> (u32, ElementList)
        ensures text { result.0 ≡ length (texts_of self.0) }
        ensures list { result.1 ≡ self }
        ensures fits { FitsNode self.0 }
    {
        (self.text_len, self.list)
    }

    /// Returns the list of one element.
    pub(crate) fn one(element: GreenElement) -> Part
        ensures { result ≡ (element ∷ [], 0) }
    {
        let text_len = element.text_len().0;
        let list = ElementList {
            link: Link::One(element),
        };
        Part { text_len, list }
    }

    /// Returns the list of at most 16 elements.
    pub(crate) fn few(mut elements: Vec<GreenElement>) -> Part
        requires few { length elements.items ≤ 16 }
        requires fits { length (texts_of elements.items) < 2 ^ 32 }
        ensures { result ≡ (elements.items, 0) }
    {
        if elements.len() != 1 {
            return Part::block(elements);
        }
        match elements.pop() {
            Some(element) => Part::one(element),
            None => unreachable!(),
        }
    }

    /// Returns the list of at most 16 elements, in one block. The number of elements is not 1.
    pub(crate) fn block(elements: Vec<GreenElement>) -> Part
        requires not_one { length elements.items ≢ 1 }
        requires few { length elements.items ≤ 16 }
        requires fits { length (texts_of elements.items) < 2 ^ 32 }
        ensures { result ≡ (elements.items, 0) }
    {
        let (front, back) = elements.split_at(elements.len() / 2);
        let half = text_sum(front);
        let text_len = half + text_sum(back);
        let list = ElementList {
            link: Link::Block(half, elements),
        };
        Part { text_len, list }
    }

    /// Returns the list of the elements of `run`.
    pub(crate) fn run(run: Run) -> Part
        requires fits { FitsNode run.0 }
        requires height { HasHeight (length run.0) run.1 }
        ensures { result ≡ run }
    {
        let text_len = run.text_len();
        let list = ElementList {
            link: Link::Run(run),
        };
        Part { text_len, list }
    }

    /// Returns the list of the elements of `left` and `right`, whose heights differ by at most 1.
    pub(crate) fn fork(left: Rc<Part>, right: Rc<Part>) -> Part
        requires left { 8 ≤ length left.value.0 }
        requires right { 8 ≤ length right.value.0 }
        requires left_low { left.value.1 ≤ right.value.1 + 1 }
        requires right_low { right.value.1 ≤ left.value.1 + 1 }
        requires fits { FitsNode (left.value.0 ++ right.value.0) }
        ensures { result ≡ (left.value.0 ++ right.value.0, max left.value.1 right.value.1 + 1) }
    {
        let half = left.text_len();
        let text_len = half + right.text_len();
        let count = left.len() + right.len();
        let height = left.height().max(right.height()) + 1;
        let list = ElementList {
            link: Link::Fork(half, left, right, count as u32, height),
        };
        Part { text_len, list }
    }

    /// Returns the list of clones of `elements`, with `height` levels of forks.
    fn built(alloc: Global, elements: &[GreenElement], height: u8) -> Result<Part, AllocError>
        requires many { 8 * 2 ^ height ≤ length elements.now }
        requires few { length elements.now ≤ 16 * 2 ^ height }
        requires fits { FitsNode elements.now }
        ensures { IfOk result (λ l. l ≡ (elements.now, height)) }
    {
        if height == 0 {
            return Ok(Part::block(clones(alloc, elements)?));
        }
        let (front, back) = elements.split_at(elements.len() / 2);
        let left = Rc::new(alloc, Part::built(alloc, front, height - 1)?)?;
        let right = Rc::new(alloc, Part::built(alloc, back, height - 1)?)?;
        Ok(Part::fork(left, right))
    }

    /// Returns the list of `elements`.
    ///
    /// # Errors
    ///
    /// [`AllocError`] if an allocation fails.
    pub(crate) fn from_vec(alloc: Global, elements: Vec<GreenElement>) -> Result<Part, AllocError>
        requires { FitsNode elements.items }
        ensures { IfOk result (λ l. l.0 ≡ elements.items) }
    {
        if elements.len() <= MOST {
            Ok(Part::few(elements))
        } else {
            Part::of_many(alloc, &elements)
        }
    }

    /// Returns the list of clones of `elements`.
    pub(crate) fn of(alloc: Global, elements: &[GreenElement]) -> Result<Part, AllocError>
        requires { FitsNode elements.now }
        ensures { IfOk result (λ l. l.0 ≡ elements.now) }
    {
        if elements.len() <= MOST {
            Ok(Part::few(clones(alloc, elements)?))
        } else {
            Part::of_many(alloc, elements)
        }
    }

    /// Returns the list of clones of 8 or more elements.
    pub(crate) fn of_many(alloc: Global, elements: &[GreenElement]) -> Result<Part, AllocError>
        requires many { 8 ≤ length elements.now }
        requires fits { FitsNode elements.now }
        ensures { IfOk result (λ l. l.0 ≡ elements.now) }
    {
        Part::built(alloc, elements, height_for(elements.len()))
    }
}

/// Returns the two sides of a run, as [`ElementList::sides`] does.
fn run_sides(alloc: Global, run: &Run) -> Result<Option<(Rc<Part>, Rc<Part>)>, AllocError>
    requires { FitsNode run.now.0 }
    ensures { IfOk result (λ sides. MatchOption sides
        ((run.now.1 ≡ 0) × (length run.now.0 ≤ 16))
        (λ s. IsJoined run.now s.0.value s.1.value)) }
{
    if run.height() == 0 {
        return Ok(None);
    }
    let (front, back) = run.halves()?;
    let left = Rc::new(alloc, Part::run(front))?;
    let right = Rc::new(alloc, Part::run(back))?;
    Ok(Some((left, right)))
}

/// Returns the number of levels of forks above the blocks of a list of `count` elements.
pub(crate) fn height_for(count: usize) -> u8
    requires many { 8 ≤ count }
    requires fits { count < 2 ^ 32 }
    ensures many { 8 * 2 ^ result ≤ count }
    ensures few { count ≤ 16 * 2 ^ result }
{
    let mut height = 0;
    let mut room = MOST;
    while room < count {
        room *= 2;
        height += 1;
    }
    height
}

/// Returns the length of the text of `elements`, in bytes.
#[tactic(auto, using(crate::proofs::Lengths::lengths))]
fn text_sum(elements: &[GreenElement]) -> u32
    requires { length (texts_of elements.now) < 2 ^ 32 }
    ensures { result ≡ length (texts_of elements.now) }
{
    let mut sum = 0;
    for element in elements {
        sum += element.text_len().0;
    }
    sum
}
