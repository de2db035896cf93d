//! An index of the lines of a text.

ghost use Rattle.std.specs.Prelude.{◌≡◌, ◌≤◌, ◌<◌, ◌+◌, ◌-◌, nat_le, IfOk, IfSome, is_some, Some, None, length, take, if◌then◌else◌};
ghost use Rattle.line_index.specs.Lines.{feeds, line_count, line_start, line_starts, line_end, line_text};
ghost use Rattle.line_index.specs.Columns.{line_col, offset};

use crate::encoding::{Encoding, reach, units};
use crate::line_col::LineCol;
use std::alloc::{AllocError, Global};
use std::marker::Model;

/// The lines of a text, found by binary search.
///
/// A line ends at `\n` alone, which is in no line; `\r` is a character of its line.
/// Model: the bytes of the text.
#[derive(Drop)]
pub struct LineIndex<'a> {
    text: &'a str,
    /// Where each line starts.
    starts: Vec<usize>,
}

impl<'a> Model for LineIndex<'a> {
    ghost use Rattle.std.specs.Prelude.{◌≡◌, List, ℕ};

    ghost Value = { List ℕ };

    ghost use Rattle.line_index.specs.Lines.{line_starts};

    ghost view = { λ index. index.text.now };

    ghost invariant = { λ index. index.starts.items ≡ line_starts index.text.now };
}

impl<'a> LineIndex<'a> {
    /// Returns an index of `text`, in time linear in its length.
    ///
    /// # Errors
    ///
    /// Out of memory.
    pub fn try_new(alloc: Global, text: &'a str) -> Result<LineIndex<'a>, AllocError>
        ensures { IfOk result (λ index. index ≡ text.now) }
    {
        let starts = line_starts(alloc, text.as_bytes())?;
        Ok(LineIndex { text, starts })
    }

    /// Returns the text.
    pub fn text(&self) -> &'a str
        ensures { result.now ≡ self.now }
    {
        self.text
    }

    /// Returns the number of lines: one more than there are line feeds.
    pub fn line_count(&self) -> usize
        ensures { result ≡ line_count self.now }
    {
        self.starts.as_slice().len()
    }

    /// Returns the offset at which `line` starts, or `None` past the last line.
    pub fn line_start(&self, line: usize) -> Option<usize>
        ensures { result
            ≡ (if nat_le line (feeds self.now) then Some (line_start line self.now) else None) }
    {
        self.starts.get(line).copied()
    }
    /// Returns the offset at which `line` ends: of its line feed, or the length of the text.
    /// `None` past the last line.
    pub fn line_end(&self, line: usize) -> Option<usize>
        ensures { result
            ≡ (if nat_le line (feeds self.now) then Some (line_end line self.now) else None) }
    {
        let starts = self.starts.as_slice();
        if line >= starts.len() {
            None
        } else if line + 1 < starts.len() {
            Some(starts[line + 1] - 1)
        } else {
            Some(self.text.len())
        }
    }

    /// Returns the text of `line`, without its line feed, or `None` past the last line.
    pub fn line(&self, line: usize) -> Option<&'a str>
        ensures some { (line ≤ feeds self.now) →
            IfSome result (λ text. text.now ≡ line_text line self.now) }
        ensures variant { is_some result ≡ nat_le line (feeds self.now) }
    {
        let start = self.line_start(line)?;
        let end = self.line_end(line)?;
        let text = self.text();
        Some(&text[start..end])
    }

    /// Returns the start of `line`.
    fn start_of(&self, line: usize) -> usize
        requires { line ≤ feeds self.now }
        ensures { result ≡ line_start line self.now }
    {
        let starts = self.starts.as_slice();
        starts[line]
    }

    /// Returns the line that the offset `at` is in.
    fn line_of(&self, at: usize) -> usize
        requires { at ≤ length self.now }
        ensures { result ≡ feeds (take at self.now) }
    {
        self.starts.partition_point(|start| *start <= at) - 1
    }

    /// Returns the line and column of `offset`.
    ///
    /// Past the end of the text it counts as the end, inside a character as the character's start.
    pub fn line_col(&self, encoding: Encoding, offset: usize) -> LineCol
        ensures { result ≡ line_col encoding self.now offset }
    {
        let text = self.text();
        let at = text.floor_char_boundary(offset);
        let line = self.line_of(at);
        let start = self.start_of(line);
        LineCol {
            line,
            col: units(encoding, &text.as_bytes()[start..at]),
        }
    }

    /// Returns the line and column of `offset`, counted on from a known place.
    ///
    /// If both are on one line, and `offset` is not before `from`, only the bytes between them are
    /// counted.
    pub fn line_col_from(
        &self,
        encoding: Encoding,
        from: usize,
        place: LineCol,
        offset: usize,
    ) -> LineCol
        requires { place ≡ line_col encoding self.now from }
        ensures { result ≡ line_col encoding self.now offset }
    {
        let text = self.text();
        let known = text.floor_char_boundary(from);
        let to = text.floor_char_boundary(offset);
        let line = self.line_of(to);
        if line != place.line || to < known {
            return self.line_col(encoding, offset);
        }
        let between = units(encoding, &text.as_bytes()[known..to]);
        LineCol {
            line,
            col: place.col + between,
        }
    }

    /// Returns the offset of a line and column.
    ///
    /// A line past the last one leads to the end of the text, a column past the end of its line to
    /// that end, and one inside a character to the character's start.
    pub fn offset(&self, encoding: Encoding, place: LineCol) -> usize
        ensures { result ≡ offset encoding self.now place }
    {
        let text = self.text();
        let Some(end) = self.line_end(place.line) else {
            return text.len();
        };
        let start = self.start_of(place.line);
        let line = &text.as_bytes()[start..end];
        text.floor_char_boundary(start + reach(encoding, place.col, line))
    }
}

/// Returns the starts of the lines of a text.
fn line_starts(alloc: Global, text: &[u8]) -> Result<Vec<usize>, AllocError>
    ensures { IfOk result (λ starts. starts.items ≡ line_starts text.now) }
{
    let mut starts = Vec::new(alloc);
    starts.push(0)?;
    for (i, byte) in text.iter().enumerate() {
        if *byte == b'\n' {
            starts.push(i + 1)?;
        }
    }
    Ok(starts)
}
