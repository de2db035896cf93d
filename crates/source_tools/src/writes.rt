//! Files are written.

ghost use Rattle.std.specs.Prelude.{◌≡◌, ◌≤◌, ◌<◌, IfErr, OnOk, length, map, slice_index_or, take};
ghost use Rattle.source_tools.specs.Writes.{FailsIfKnown, HasChanges, change_in};
ghost use Rattle.source_tools.specs.declared.writes.FileChange.{FileChange};

use file_target::{Target, TargetError, Version};
use std::alloc::Global;

/// New bytes for a file.
pub struct FileChange {
    pub path: String,
    /// The version that was read.
    pub version: Version,
    /// The bytes that were read.
    pub old: Vec<u8>,
    /// The bytes that are written.
    pub new: Vec<u8>,
}

// Not derived: a derived drop is opened field by field in each function that drops one.
impl Drop for FileChange {
    fn drop(self) {
        let FileChange {
            path: _path,
            version: _,
            old: _old,
            new: _new,
        } = self;
    }
}

impl FileChange {
    /// Returns the path.
    pub fn into_path(self) -> String
        ensures { result ≡ self.path }
    {
        let FileChange {
            path,
            version: _,
            old: _old,
            new: _new,
        } = self;
        path
    }
}

/// A file that could not be written, and why. The files of the changes before it, if there are any, are written.
#[derive(Debug, Drop)]
pub struct WriteFault {
    /// The index of the change.
    pub index: usize,
    pub error: TargetError,
}

/// Writes the files of `changes`, in order.
///
/// # Errors
///
/// The first error of a write. The changes before it are made, and no other file has changed.
pub fn write_changes<T: Target>(
    alloc: Global,
    target: &mut T,
    changes: &[FileChange],
) -> Result<(), WriteFault>
    ensures written { OnOk result (HasChanges (map change_in changes.now)
        (T.files target.old) (T.files target.new)) }
    ensures front { IfErr result (λ fault. HasChanges
        (map change_in (take fault.index changes.now))
        (T.files target.old) (T.files target.new)) }
    ensures index { IfErr result (λ fault. fault.index < length changes.now) }
    ensures failed { IfErr result (λ fault. (d : FileChange)
        → FailsIfKnown (T.files target.old) (T.files target.new)
        (change_in (slice_index_or changes.now fault.index d)) fault.error) }
{
    for (index, change) in changes.iter().enumerate() {
        let written = target.write(
            alloc,
            change.path.as_str(),
            change.version,
            change.new.as_slice(),
        );
        match written {
            Ok(()) => {}
            Err(error) => return Err(WriteFault { index, error }),
        }
    }
    Ok(())
}
