//! Texts of trees, read without a copy.
ghost use Rattle.std.specs.Prelude.{◌≡◌, ◌==◌, ◌+◌, ◌<◌, ◌^◌, length, take, drop, slice_range, IfOk};
ghost use Rattle.rowan_green.specs.Forest.{tree_text};
ghost use Rattle.rowan.specs.Place.{text_at};
ghost use Rattle.rowan.specs.Text.{IsCut, IsPart};

use crate::api::SyntaxNode;
use crate::chunks::Part;
use crate::language::Language;
use rowan_green::{GreenNode, TextRange, TextSize};
use std::alloc::AllocError;
use std::marker::Model;

/// A part of the text of a tree, from one character boundary to another. Model: its bytes.
#[derive(Drop)]
pub struct SyntaxText {
    green: GreenNode,
    start: u32,
    end: u32,
}

impl Model for SyntaxText {
    ghost use Rattle.std.specs.Prelude.{ℕ, List, slice_range};
    ghost use Rattle.rowan_green.specs.Forest.{tree_text};
    ghost use Rattle.rowan.specs.Text.{IsPart};

    ghost Value = { List ℕ };

    ghost view = { λ t. slice_range (tree_text t.green) t.start t.end };

    ghost invariant = { λ t. IsPart (tree_text t.green) t.start t.end };
}

impl SyntaxText {
    /// Returns the whole text of a node.
    fn of(green: GreenNode) -> SyntaxText
        ensures { result ≡ tree_text green }
    {
        let end = green.text_len().0;
        SyntaxText {
            green,
            start: 0,
            end,
        }
    }

    /// Returns the text as a part of its node's text.
    pub(crate) fn part(&self) -> Part<'_>
        ensures within { IsPart (tree_text result.node) result.start (result.start + result.len) }
        ensures text { take result.len (drop result.start (tree_text result.node)) ≡ self.now }
        ensures len { result.len ≡ length self.now }
        ensures fits { result.start + result.len < 2 ^ 32 }
    {
        Part {
            node: self.green.as_ref(),
            start: self.start,
            len: self.end - self.start,
        }
    }

    /// Returns the length, in bytes.
    pub fn len(&self) -> TextSize
        ensures { result.0 ≡ length self.now }
    {
        TextSize(self.end - self.start)
    }

    /// Returns `true` if the text has no bytes.
    pub fn is_empty(&self) -> bool
        ensures { result ≡ (length self.now == 0) }
    {
        self.start == self.end
    }

    /// Returns the part of the text in `range`, whose ends are character boundaries. Copies no
    /// text.
    ///
    /// # Errors
    ///
    /// [`AllocError`] if a reference count overflows.
    pub fn slice(&self, range: TextRange) -> Result<SyntaxText, AllocError>
        requires begins { IsCut self.now range.start.0 }
        requires ends { IsCut self.now range.end.0 }
        ensures { IfOk result (λ t. t ≡ slice_range self.now range.start.0 range.end.0) }
    {
        prove!(self.end <= u32::MAX);
        let start = self.start + range.start.0;
        let end = self.start + range.end.0;
        let green = self.green.clone()?;
        Ok(SyntaxText { green, start, end })
    }
}

impl<L: Language> SyntaxNode<L> {
    /// Returns the text of the node. Copies no text.
    ///
    /// # Errors
    ///
    /// [`AllocError`] if a reference count overflows.
    pub fn text(&self) -> Result<SyntaxText, AllocError>
        ensures { IfOk result (λ t. t ≡ text_at self.now) }
    {
        Ok(SyntaxText::of(self.green().clone()?))
    }
}
