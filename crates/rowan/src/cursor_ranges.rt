//! Elements by ranges of the text: the search descends one path.
ghost use Rattle.std.specs.Prelude.{◌≡◌, IfOk};
ghost use Rattle.rowan.specs.Ranges.{child_at_range, LeadsTo};

use crate::cursor::{SyntaxElement, SyntaxNode};
use rowan_green::{NodeOrToken, TextSize};
use std::alloc::{AllocError, Global};

impl SyntaxNode {
    /// Returns the first child whose range contains the bytes from `start` to before `end`.
    ///
    /// # Errors
    ///
    /// [`AllocError`] if an allocation fails or a reference count overflows.
    pub fn child_at_range(
        &self,
        alloc: Global,
        start: u32,
        end: u32,
    ) -> Result<Option<SyntaxElement>, AllocError>
        ensures { IfOk result (λ r. r ≡ child_at_range start end self.now) }
    {
        // No child before the first one that reaches `end` contains the range, and no child after
        // it starts early enough.
        prove!(self.start() <= u32::MAX);
        let from = self.start();
        let (index, offset) = if end <= from {
            (0, from)
        } else {
            let Some(found) = self.green().child_at_offset(TextSize(end - from - 1)) else {
                return Ok(None);
            };
            (found.index, from + found.start.0)
        };
        if start < offset {
            return Ok(None);
        }
        self.child(alloc, index, offset)
    }

    /// Returns the innermost element that is reached by descending to the first child whose range
    /// contains the bytes from `start` to before `end`, as long as there is one.
    ///
    /// # Errors
    ///
    /// [`AllocError`] if an allocation fails or a reference count overflows.
    pub fn covering_element(
        &self,
        alloc: Global,
        start: u32,
        end: u32,
    ) -> Result<SyntaxElement, AllocError>
        ensures { IfOk result (LeadsTo start end self.now) }
    {
        let mut node = self.clone()?;
        loop {
            match node.child_at_range(alloc, start, end)? {
                None => return Ok(NodeOrToken::Node(node)),
                Some(NodeOrToken::Token(token)) => return Ok(NodeOrToken::Token(token)),
                Some(NodeOrToken::Node(child)) => node = child,
            }
        }
    }
}
