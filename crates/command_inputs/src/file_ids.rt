//! The identities of files.

use crate::inputs::STANDARD_INPUT;
use file_paths::FileId;
use std::fs;
use std::os::unix::fs::MetadataExt;

/// Returns the identity of the file that a path leads to, if the system tells it.
pub fn file_id(rt: &HostRuntime, path: &str) -> Option<FileId> {
    if path == STANDARD_INPUT {
        return Some(FileId::input());
    }
    match fs::metadata(rt, path) {
        Ok(metadata) => Some(FileId {
            device: metadata.dev(),
            inode: metadata.ino(),
        }),
        Err(_) => None,
    }
}
