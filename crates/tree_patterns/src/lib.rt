//! Patterns: fragments of Rust with places, which stand for parts of other texts.
//!
//! A pattern is a tree of bones: without whitespace, comments and the commas of lists, and with a leaf
//! for each place. `pattern_parser` reads texts as patterns, `tree_search` finds their matches.
#![tactic(auto)]

pub mod bones;
pub mod fragment;
pub mod kinds;
pub mod leaves;
pub mod pattern;
pub mod place;

pub use fragment::Fragment;
pub use pattern::Pattern;
pub use place::Place;
