//! Searches in a block: the element at an offset in its text, and the node with the longest text.
ghost use Rattle.std.specs.Prelude.{◌≡◌, ◌+◌, ◌<◌, ◌≤◌, ◌^◌, ◌/◌, length, take, IfSome};
ghost use Rattle.rowan_green.specs.Forest.{tree_count, forest_count};
ghost use Rattle.rowan_green.specs.Term.{forest_of, texts_of};
ghost use Rattle.rowan_green.specs.ChildAt.{IsChildAt};

use crate::element::GreenElement;
use crate::element_list::FEWEST;
use crate::node::GreenNode;
use crate::utility_types::NodeOrToken;

/// The element at an offset: its index, the offset of its text, and the number of lengths read to
/// find it.
#[derive(Clone, Copy)]
pub(crate) struct Place {
    pub(crate) index: usize,
    pub(crate) start: u32,
    pub(crate) looks: u32,
}

impl Place {
    /// Returns the place with `count` more elements and `bytes` more bytes before it, and one more
    /// length read.
    pub(crate) fn further(self, count: usize, bytes: u32) -> Place
        requires index { count + self.index < 2 ^ 64 }
        requires start { bytes + self.start < 2 ^ 32 }
        requires looks { self.looks + 1 < 2 ^ 32 }
        ensures { result ≡ record { index = count + self.index; start = bytes + self.start; looks = self.looks + 1 } }
    {
        Place {
            index: count + self.index,
            start: bytes + self.start,
            looks: self.looks + 1,
        }
    }
}

/// Returns the place of the element of a block whose text has the byte at `offset`. `half` is the
/// length, in bytes, of the text of the first half of the block.
pub(crate) fn find_in_block(elements: &[GreenElement], half: u32, offset: u32) -> Place
    requires few { length elements.now ≤ 16 }
    requires fits { length (texts_of elements.now) < 2 ^ 32 }
    requires half { half ≡ length (texts_of (take (length elements.now / 2) elements.now)) }
    requires inside { offset < length (texts_of elements.now) }
    ensures place { IsChildAt elements.now offset result.index result.start }
    ensures few { length elements.now < 8 → result.looks ≤ length elements.now }
    ensures looks { result.looks ≤ 9 }
{
    if elements.len() < FEWEST {
        return find_by_scan(elements, offset);
    }
    let (front, back) = elements.split_at(elements.len() / 2);
    if offset < half {
        find_by_scan(front, offset).further(0, 0)
    } else {
        find_by_scan(back, offset - half).further(front.len(), half)
    }
}

/// Returns the place of the element whose text has the byte at `offset`. Adds the lengths of the
/// elements from the first one on.
#[tactic(auto, using(crate::proofs::Lengths::lengths))]
fn find_by_scan(elements: &[GreenElement], offset: u32) -> Place
    requires few { length elements.now ≤ 8 }
    requires fits { length (texts_of elements.now) < 2 ^ 32 }
    requires inside { offset < length (texts_of elements.now) }
    ensures place { IsChildAt elements.now offset result.index result.start }
    ensures looks { result.looks ≤ length elements.now }
{
    let mut start = 0;
    let mut looks = 0;
    for (index, element) in elements.iter().enumerate() {
        let end = start + element.text_len().0;
        looks += 1;
        if offset < end {
            return Place {
                index,
                start,
                looks,
            };
        }
        start = end;
    }
    unreachable!()
}

/// Drops the elements except the node with the longest text, and returns that node; `None` if no
/// element is a node.
#[cycle(node_drop)]
pub(crate) fn longest_node(mut elements: Vec<GreenElement>) -> Option<GreenNode>
    ensures { IfSome result (λ n. tree_count n ≤ forest_count (forest_of elements.items)) }
{
    let mut longest: Option<GreenNode> = None;
    'elements: while let Some(element) = elements.pop() {
        if let NodeOrToken::Node(node) = element {
            match longest {
                None => longest = Some(node),
                Some(other) => {
                    if other.text_len().0 < node.text_len().0 {
                        drop(other);
                        longest = Some(node);
                    } else {
                        drop(node);
                        longest = Some(other);
                    }
                }
            }
        }
    }
    longest
}
