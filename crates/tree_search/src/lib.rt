//! Finds the matches of patterns in trees.
//!
//! An element matches a pattern if it is the pattern with elements in its places; whitespace, comments
//! and the commas of lists say nothing. `search` finds the matches of a tree in source order.
#![tactic(auto)]

pub mod bones;
pub mod fit;
pub mod laws;
pub mod matches;
pub mod matching;
pub mod tokens;

pub use matches::{Match, search};
pub use matching::{Binding, match_at};
