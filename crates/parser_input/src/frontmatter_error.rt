//! The errors of a frontmatter.

ghost use Rattle.std.specs.Prelude.{◌≡◌};
ghost use Rattle.parser_input.specs.Spans.{refused_start, refused_end};

use std::ops::Range;

/// The error type of `ScriptSource::parse`, with the range of the opening line's dashes, in bytes.
#[derive(Clone, Copy, Debug, PartialEq, Eq)]
pub enum FrontmatterError {
    /// The opening line starts with one or two dashes: a frontmatter needs three or more.
    TooFewDashes { start: usize, end: usize },
    /// No later line has the same number of dashes and, after them, only tabs and spaces.
    Unclosed { start: usize, end: usize },
}

impl FrontmatterError {
    /// Returns the range of the opening line's dashes, in bytes.
    pub fn primary_span(&self) -> Range<usize>
        ensures start { result.start ≡ refused_start self.now }
        ensures end { result.end ≡ refused_end self.now }
    {
        match self {
            FrontmatterError::TooFewDashes { start, end } => *start..*end,
            FrontmatterError::Unclosed { start, end } => *start..*end,
        }
    }
}
