//! A change of lines.

/// Old lines that are replaced with new ones; either may be none. Lines are counted from 0.
#[derive(Clone, Copy, Debug, PartialEq, Eq, Drop)]
pub struct Change {
    /// The first old line.
    pub old_start: usize,
    /// The line after the last old one.
    pub old_end: usize,
    /// The first new line.
    pub new_start: usize,
    /// The line after the last new one.
    pub new_end: usize,
}
