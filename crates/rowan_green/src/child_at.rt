//! The position of a child in its node.
use crate::text_size::TextSize;

/// A child at an offset: its index, the offset of its text in the node's text, and the number of
/// lengths read to find it.
#[derive(Clone, Copy, PartialEq, Eq, Debug, Drop)]
pub struct ChildAt {
    pub index: usize,
    pub start: TextSize,
    pub looks: u32,
}
