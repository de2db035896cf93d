//! Files behind a `Target` are rewritten by commands.
#![tactic(auto)]

mod command_file;
mod plan;
mod rewrite;
mod write;

pub use command_file::{FileCommands, commands_of_files};
pub use plan::{RewriteFailure, plan_rewrites};
pub use rewrite::{RefusedCommand, Rewrite, RewriteFault, rewrite_bytes};
pub use write::{RewriteStop, rewrite_files};
