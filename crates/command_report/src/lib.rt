//! What a command says on standard error, and the status that its process ends with.
#![tactic(auto)]

mod outcome;
mod rows;

pub use outcome::{Outcome, RenameCounts, search_outcome};
pub use rows::{MAX_ROWS, place_row, push_row, rest_row, tally_row, unchanged_row};
