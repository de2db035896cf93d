//! The tree of a text as lines: each element of it in preorder, with its kind and where it starts
//! and ends in bytes.
//!
//! [`Reading::new`] reads a text as what is asked of it; [`Reading::write`] writes the lines of its
//! tree and of its messages. The tree itself is not built: its elements are laid out as the steps
//! of the parser are put over the leaves of the text.
#![tactic(auto)]

pub mod names;
mod reading;
pub mod rows;

pub use reading::Reading;
