//! Ranges of a text.
ghost use Rattle.std.specs.Prelude.{◌≡◌, ◌+◌, ◌^◌, ◌<◌, ◌≤◌, ◌↔◌, IsTrue, IsNone, IfSome, min, max};

use crate::text_size::TextSize;

/// The bytes from `start` to before `end`. An empty range has a position too.
#[derive(Clone, Copy, Debug, PartialEq, Eq, Hash)]
pub struct TextRange {
    pub start: TextSize,
    pub end: TextSize,
    pub ghost ordered: { start.0 ≤ end.0 },
}

impl TextRange {
    /// Creates the range from `start` to before `end`. `start` is not after `end`.
    pub fn new(start: TextSize, end: TextSize) -> TextRange
        requires { start.0 ≤ end.0 }
        ensures start { result.start ≡ start }
        ensures end { result.end ≡ end }
    {
        TextRange { start, end }
    }

    /// Creates the range of `len` bytes from `offset` on.
    pub fn at(offset: TextSize, len: TextSize) -> TextRange
        requires { offset.0 + len.0 < 2 ^ 32 }
        ensures start { result.start ≡ offset }
        ensures end { result.end.0 ≡ offset.0 + len.0 }
    {
        TextRange {
            start: offset,
            end: TextSize(offset.0 + len.0),
        }
    }

    /// Creates the empty range at `offset`.
    pub fn empty(offset: TextSize) -> TextRange
        ensures start { result.start ≡ offset }
        ensures end { result.end ≡ offset }
    {
        TextRange {
            start: offset,
            end: offset,
        }
    }

    /// Returns the start offset, in bytes.
    pub fn start(self) -> TextSize
        ensures { result ≡ self.start }
    {
        let TextRange { start, .. } = self;
        start
    }

    /// Returns the end offset, in bytes. The byte at this offset is not in the range.
    pub fn end(self) -> TextSize
        ensures { result ≡ self.end }
    {
        let TextRange { end, .. } = self;
        end
    }

    /// Returns the length, in bytes.
    pub fn len(self) -> TextSize
        ensures { self.start.0 + result.0 ≡ self.end.0 }
    {
        TextSize(self.end.0 - self.start.0)
    }

    /// Returns `true` if the range has no bytes.
    pub fn is_empty(self) -> bool
        ensures { IsTrue result ↔ (self.start.0 ≡ self.end.0) }
    {
        self.start.0 == self.end.0
    }

    /// Returns `true` if the byte at `offset` is in the range.
    pub fn contains(self, offset: TextSize) -> bool
        ensures { IsTrue result ↔ ((self.start.0 ≤ offset.0) × (offset.0 < self.end.0)) }
    {
        self.start.0 <= offset.0 && offset.0 < self.end.0
    }

    /// Returns `true` if `other` neither starts before the range nor ends after it.
    pub fn contains_range(self, other: TextRange) -> bool
        ensures { IsTrue result ↔ ((self.start.0 ≤ other.start.0) × (other.end.0 ≤ self.end.0)) }
    {
        self.start.0 <= other.start.0 && other.end.0 <= self.end.0
    }

    /// Returns the smallest range that contains both.
    pub fn cover(self, other: TextRange) -> TextRange
        ensures start { result.start.0 ≡ min self.start.0 other.start.0 }
        ensures end { result.end.0 ≡ max self.end.0 other.end.0 }
    {
        TextRange {
            start: TextSize(self.start.0.min(other.start.0)),
            end: TextSize(self.end.0.max(other.end.0)),
        }
    }

    /// Returns the intersection of both ranges: an empty range if they only touch, `None` if they
    /// are apart.
    pub fn intersect(self, other: TextRange) -> Option<TextRange>
        ensures start { IfSome result (λ r. r.start.0 ≡ max self.start.0 other.start.0) }
        ensures end { IfSome result (λ r. r.end.0 ≡ min self.end.0 other.end.0) }
        ensures apart { IsNone result
            ↔ (min self.end.0 other.end.0 < max self.start.0 other.start.0) }
    {
        let start = self.start.0.max(other.start.0);
        let end = self.end.0.min(other.end.0);
        if end < start {
            return None;
        }
        Some(TextRange {
            start: TextSize(start),
            end: TextSize(end),
        })
    }
}
