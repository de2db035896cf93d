//! The search for a node by its range, only below nodes whose ranges contain it.
ghost use Rattle.std.specs.Prelude.{◌≡◌, ◌&&◌, ◌≤◌, ◌<◌, nat_le, None, cond, IfOk, IfSome, Some};
ghost use Rattle.std.specs.List.{filter};
ghost use Rattle.rowan_green.specs.Either.{node_part};
ghost use Rattle.rowan_green.specs.declared.utility_types.NodeOrToken.TheVariants.{Node};
ghost use Rattle.rowan.specs.Place.{below, start_of, index_of};
ghost use Rattle.rowan.specs.Around.{children_from, cursor_at, nodes, first};
ghost use Rattle.rowan.specs.Pointer.{spans};

use crate::cursor::SyntaxNode;
use rowan_green::{GreenElementRef, GreenNodeRef, TextRange, TextSize};
use std::alloc::{AllocError, Global};

impl SyntaxNode {
    /// Returns the index and the start offset of a child from index `from` on. All children from
    /// `from` to before it end before `end`. Child `from` starts at `offset`.
    fn reaching(&self, from: usize, offset: u32, end: u32) -> (usize, u32)
        requires { offset ≡ start_of (below self.now from) }
        ensures start { result.1 ≡ start_of (below self.now result.0) }
        ensures order { from ≤ result.0 }
        ensures early { from < result.0 → start_of (below self.now result.0) < end }
    {
        prove!(self.start() <= u32::MAX);
        let start = self.start();
        if end <= start {
            return (from, offset);
        }
        match self.green().child_at_offset(TextSize(end - start - 1)) {
            Some(found) if found.index > from => (found.index, start + found.start.0),
            _ => (from, offset),
        }
    }

    /// Returns the first node among the children from index `from` on whose range contains `range`.
    /// Child `from` starts at `offset`.
    ///
    /// # Errors
    ///
    /// [`AllocError`] if an allocation fails or a reference count overflows.
    pub fn node_spanning(
        &self,
        alloc: Global,
        from: usize,
        offset: u32,
        range: TextRange,
    ) -> Result<Option<SyntaxNode>, AllocError>
        requires { offset ≡ start_of (below self.now from) }
        ensures ok { IfOk result (λ r. r ≡ first
            (filter (spans range.start.0 range.end.0) (nodes (children_from self.now from)))) }
        ensures child { IfOk result (λ r. IfSome r
            (λ q. Some (Node q) ≡ cursor_at (below self.now (index_of q)))) }
        ensures siblings_after { IfOk result (λ r. IfSome r (λ q. from ≤ index_of q)) }
    {
        let green = self.green();
        let count = green.children().len();
        prove!(self.start() <= u32::MAX);
        let (first, start) = self.reaching(from, offset, range.end.0);
        let mut offset = start;
        let mut index = first;
        while index < count {
            if range.start.0 < offset {
                return Ok(None);
            }
            let Some(child) = green.child(index) else {
                return Ok(None);
            };
            let child_end = offset + child.text_len().0;
            if let Some(node) = spanning(child, offset, child_end, range) {
                let child = self.child_node(alloc, index as u32, offset, node.to_owned()?)?;
                return Ok(Some(child));
            }
            offset = child_end;
            index += 1;
        }
        Ok(None)
    }
}

/// Returns the node of `element` if it is a node and the bytes from `start` to before `end` contain
/// `range`.
fn spanning<'a>(
    element: GreenElementRef<'a>,
    start: u32,
    end: u32,
    range: TextRange,
) -> Option<GreenNodeRef<'a>>
    ensures { result ≡ cond (nat_le start range.start.0 && nat_le range.end.0 end)
        (node_part element.entry) None }
{
    if start <= range.start.0 && range.end.0 <= end {
        return element.into_node();
    }
    None
}
