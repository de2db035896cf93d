//! What the commands share: the files that they read, the Rust that these are read as, and what is
//! written on standard output and standard error.
#![tactic(auto)]

mod dialects;
mod diffs;
mod editions;
mod file_ids;
mod inputs;
mod output;
mod report;
mod sources;

pub use dialects::Dialects;
pub use diffs::{print_diffs, print_paths, print_ranges};
pub use editions::Editions;
pub use file_ids::file_id;
pub use inputs::{Inputs, STANDARD_INPUT};
pub use output::{is_closed, unless_closed};
pub use report::{report_unwritten, report_written, usage_error};
pub use sources::{SourceList, files_of, path_of, source_list};
