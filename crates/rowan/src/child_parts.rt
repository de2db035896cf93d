//! The children of a node that have some bytes of a range of its text.
ghost use Rattle.std.specs.Prelude.{◌≡◌, ◌+◌, ◌^◌, ◌<◌, ◌≤◌, drop, take};
ghost use Rattle.rowan_green.specs.Forest.{tree_text, tree_count};
ghost use Rattle.rowan_green.specs.Term.{children_of, texts_of};
ghost use Rattle.rowan.specs.ChildParts.{range_of, rest_count, IsPassed, IsWithin, IsWhole};

use rowan_green::{GreenElementRef, GreenNodeRef, TextSize};
use std::marker::Model;

/// A child of a node, and a part of its text: `len` bytes from offset `start` on.
#[derive(Drop)]
pub(crate) struct ChildPart<'a> {
    pub(crate) child: GreenElementRef<'a>,
    pub(crate) start: usize,
    pub(crate) len: usize,
}

/// An iterator over the children of a node that have some of the bytes of a range of its text, in
/// order, each with the part of its text that is in the range.
#[derive(Drop)]
pub(crate) struct ChildParts<'n, 'a> {
    node: &'n GreenNodeRef<'a>,
    /// The index of the first remaining child.
    index: usize,
    /// The number of bytes of the texts of the remaining children that precede the range.
    skip: usize,
    /// The number of remaining bytes of the range.
    len: usize,
}

impl<'n, 'a> Model for ChildParts<'n, 'a> {
    ghost use Rattle.std.specs.Coded.{codes};
    ghost use Rattle.std.specs.Prelude.{drop};
    ghost use Rattle.rowan_green.specs.Forest.{tree_code};
    ghost use Rattle.rowan_green.specs.Term.{children_of};
    ghost use Rattle.rowan.specs.ChildParts.{Rest};

    ghost Value = { Rest };

    ghost coded = { Prim.hlevel (codes, tree_code) };

    ghost view = { λ p.
        record { children = drop p.index (children_of p.node.now); skip = p.skip; len = p.len } };
}

impl<'n, 'a> ChildParts<'n, 'a> {
    /// Returns an iterator over the children that have some of the `len` bytes from offset `skip`
    /// of the node's text on. Descends one path of the balanced list of children.
    pub(crate) fn of(node: &'n GreenNodeRef<'a>, skip: usize, len: usize) -> ChildParts<'n, 'a>
        ensures range { range_of result ≡ take len (drop skip (tree_text node.now)) }
        ensures len { result.len ≡ len }
        ensures below { rest_count result + 1 ≤ tree_count node.now }
        ensures whole { IsWhole (tree_text node.now) skip len result }
    {
        let (index, skip) = child_with(node, skip);
        ChildParts {
            node,
            index,
            skip,
            len,
        }
    }
}

/// Returns the index of the child whose text has the byte at offset `skip`, and the offset of that
/// byte in the child's text; 0 and `skip` if the node's text has no such byte.
fn child_with(node: &GreenNodeRef<'_>, skip: usize) -> (usize, usize)
    ensures { IsPassed (children_of node.now) skip (drop result.0 (children_of node.now)) result.1 }
{
    let Ok(byte) = u32::try_from(skip) else {
        return (0, skip);
    };
    let Some(found) = node.child_at_offset(TextSize(byte)) else {
        return (0, skip);
    };
    (found.index, skip - found.start.0 as usize)
}

/// Skips the children from index `first` on whose texts end within the next `skip` bytes. Returns
/// the index of the first other child, and the number of bytes of its text left to skip; the number
/// of children if there is no other child.
fn pass(node: &GreenNodeRef<'_>, first: usize, skip: usize) -> (usize, usize)
    ensures passed { IsPassed (drop first (children_of node.now)) skip
        (drop result.0 (children_of node.now)) result.1 }
    ensures within { IsWithin (drop result.0 (children_of node.now)) result.1 }
    ensures bounded { result.0 < 2 ^ 32 }
{
    let count = node.children().len();
    let mut left = skip;
    for index in first..count {
        let Some(child) = node.child(index) else {
            unreachable!()
        };
        let size = child.text_len().0 as usize;
        if left < size {
            return (index, left);
        }
        left -= size;
    }
    (count, left)
}

impl<'n, 'a> Iterator for ChildParts<'n, 'a> {
    type Item = ChildPart<'a>;

    ghost use Rattle.std.specs.Iterator.{at_most};
    ghost use Rattle.rowan.specs.ChildParts.{YieldsPart};

    ghost next_gives = { YieldsPart };

    ghost remaining = { λ p. at_most p.len };

    fn next(&mut self) -> Option<ChildPart<'a>> {
        if self.len == 0 {
            return None;
        }
        let (index, start) = pass(self.node, self.index, self.skip);
        let child = self.node.child(index)?;
        let len = self.len.min(child.text_len().0 as usize - start);
        self.index = index + 1;
        self.skip = 0;
        self.len -= len;
        Some(ChildPart { child, start, len })
    }
}
