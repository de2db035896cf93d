//! Token counts of an edit: kept and lexed.

/// The token counts of an edit. They sum to the number of tokens of the new text.
#[derive(Clone, Copy, Debug, PartialEq, Eq)]
pub struct Kept {
    /// The number of tokens kept at the front: those that end at least two characters before the
    /// edit.
    pub front: usize,

    /// The number of tokens lexed after the front.
    pub lexed: usize,

    /// The number of tokens kept at the back: those after the first boundary, not before the end of
    /// the edit, that both texts have.
    pub back: usize,
}
