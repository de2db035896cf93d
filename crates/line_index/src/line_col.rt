//! A place by line and column.

/// A place in a text: a line and a column, both counted from 0.
#[derive(Clone, Copy, Debug, PartialEq, Eq, PartialOrd, Ord, Drop)]
pub struct LineCol {
    /// The number of line feeds before the place.
    pub line: usize,
    /// Units from the start of the line.
    pub col: usize,
}
