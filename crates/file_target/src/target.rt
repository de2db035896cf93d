//! What is read and written.

ghost use Rattle.std.specs.Prelude.{Option, None};
ghost use Rattle.file_target.specs.Files.{Files, ReadGives, WriteGives};

use crate::error::TargetError;
use crate::version::Version;
use std::alloc::Global;

/// The bytes of a file, and the version that was read.
#[derive(Debug, Drop)]
pub struct Contents {
    /// The bytes of the file.
    pub bytes: Vec<u8>,
    /// The version, for [`Target::write`].
    pub version: Version,
}

/// Files that are read and written whole.
///
/// Model: the file at each path, or `None` where the files are not known, as on a disk.
pub trait Target {
    ghost files: { Self → Option Files } = { λ _. None };

    /// Returns the file at `path`.
    ///
    /// # Errors
    ///
    /// - [`TargetError::NotFound`] if there is no file.
    /// - [`TargetError::Changed`] if the file changes while it is read.
    /// - [`TargetError::NoMemory`] if an allocation fails.
    /// - [`TargetError::Io`] if the system returns another error.
    fn read(&self, alloc: Global, path: &str) -> Result<Contents, TargetError>
        ensures { ReadGives (files self.now) path.now result };

    /// Replaces the bytes of the file at `path`, which is to be of this version.
    ///
    /// # Errors
    ///
    /// - [`TargetError::NotFound`] if there is no file.
    /// - [`TargetError::Changed`] if the file is of another version.
    /// - [`TargetError::NoMemory`] if an allocation fails.
    /// - [`TargetError::Io`] if the system returns another error.
    ///
    /// On error, the file has its old bytes or the new ones, whole.
    fn write(
        &mut self,
        alloc: Global,
        path: &str,
        version: Version,
        bytes: &[u8],
    ) -> Result<(), TargetError>
        ensures { WriteGives (files self.old) path.now version bytes.now (files self.new) result };
}
