//! The commands that search files for a pattern, and replace its matches.
#![tactic(auto)]

mod replacing;
mod searching;

pub use replacing::replace_files;
pub use searching::search;
