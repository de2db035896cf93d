//! Unified diffs of two texts by lines.
//!
//! [`line_changes`] returns an edit script over lines, [`byte_changes`] the bytes of its lines,
//! [`unified_diff`] prints one as `patch` and `git apply` read it.
#![tactic(auto)]

mod byte_change;
mod change;
pub mod laws;
mod lines;
mod names;
mod rows;
mod script;
mod unified;

pub use byte_change::{ByteChange, byte_changes};
pub use change::Change;
pub use script::line_changes;
pub use unified::unified_diff;
