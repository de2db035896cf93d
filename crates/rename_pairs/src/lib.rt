//! The old and new names of renamings, as words of a command line.
#![tactic(auto)]

mod pairs;
mod words;

pub use pairs::{NamePair, is_wrong};
pub use words::{leading_pairs, pair_of};
