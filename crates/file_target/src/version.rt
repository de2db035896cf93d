//! Versions of a file.

ghost use Rattle.std.specs.Prelude.{◌≡◌, ◌≢◌, ◌↔◌, IsTrue};
ghost use Rattle.std.specs.Fs.{metadata_len};

use std::fs::Metadata;
use std::os::unix::fs::MetadataExt;

/// The version of a file: two versions differ if the file was written between them.
///
/// On a disk it is the file's device, inode, length and time of modification.
#[derive(Clone, Copy, Debug, PartialEq, Eq, Drop)]
pub struct Version {
    pub(crate) device: u64,
    pub(crate) inode: u64,
    pub(crate) len: u64,
    pub(crate) seconds: i64,
    pub(crate) nanoseconds: i64,
}

impl Version {
    /// Returns a version for bytes that are in no file, as those of standard input.
    pub fn none() -> Version {
        Version {
            device: 0,
            inode: 0,
            len: 0,
            seconds: 0,
            nanoseconds: 0,
        }
    }

    /// Returns `true` if this is `other`.
    pub(crate) fn is(self, other: Version) -> bool
        ensures { IsTrue result ↔ self ≡ other }
    {
        self == other
    }

    /// Returns another version, of a file with `len` bytes.
    pub(crate) fn later(self, len: u64) -> Version
        ensures { result ≢ self }
    {
        Version {
            len,
            nanoseconds: self.nanoseconds.wrapping_add(1),
            ..self
        }
    }

    /// Returns the version of a file with this metadata.
    pub(crate) fn of(metadata: &Metadata) -> Version
        ensures { result.len ≡ metadata_len metadata.now }
    {
        Version {
            device: metadata.dev(),
            inode: metadata.ino(),
            len: metadata.len(),
            seconds: metadata.mtime(),
            nanoseconds: metadata.mtime_nsec(),
        }
    }
}
