//! Lines of a text, and places by line and column.
//!
//! [`LineIndex`] converts byte offsets to lines and columns, in UTF-8, UTF-16 or UTF-32, and back.
#![tactic(auto)]

mod encoding;
pub mod laws;
mod line_col;
mod line_index;

pub use encoding::Encoding;
pub use line_col::LineCol;
pub use line_index::LineIndex;
