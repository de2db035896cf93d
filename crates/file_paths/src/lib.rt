//! Files by their identities, and the names of files in a folder.
#![tactic(auto)]

mod file_id;
mod folder;

pub use file_id::{FileId, first_same};
pub use folder::{common_folder, name_in};
