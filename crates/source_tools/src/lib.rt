//! Commands over source files: messages, tokens, trees and renamings of files behind a `Target`.
#![tactic(auto)]

mod change_lists;
mod decode;
mod diffs;
mod json;
mod messages;
mod order;
mod plan;
mod rename;
mod renaming;
mod rows;
mod show_files;
mod source;
mod summary;
mod tokens;
mod tree;
mod view;
mod wording;
mod writes;

pub use change_lists::write_change_lists;
pub use decode::{encode, text_of};
pub use diffs::write_diffs;
pub use plan::{RenameFailure, plan_renames};
pub use rename::{RenameStop, rename_files};
pub use renaming::{RenameFault, Renaming, rename_bytes};
pub use show_files::{Stop, show};
pub use source::{Dialect, FileError, FileFault, Source};
pub use summary::Summary;
pub use view::{FileView, Format, View, view_bytes, view_file};
pub use writes::{FileChange, WriteFault, write_changes};
