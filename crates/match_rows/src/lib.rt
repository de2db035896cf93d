//! Rows of the matches of a pattern in a document, and the same in JSON.
#![tactic(auto)]

mod matches;
mod objects;
mod rows;

pub use matches::push_matches;
pub use objects::push_match_object;
