//! What an editor shows of a Rust text.
#![tactic(auto)]

mod listing;
mod rust;
mod wording;

pub use listing::diagnostics;
pub use rust::Rust;
