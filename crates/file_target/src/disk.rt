//! Files on the disk.

use crate::error::TargetError;
use crate::replace::replace_file;
use crate::system::{Status, System};
use crate::target::{Contents, Target};
use crate::version::Version;
use std::alloc::Global;
use std::fs::{self, File, OpenFile, OpenOptions, Permissions};
use std::io::{self, ErrorKind, Read, Write};
use std::os::unix::fs::{MetadataExt, PermissionsExt, chown};
use std::path::Path;
use std::rt::Files;

/// The files of a file system.
///
/// A write makes a new file beside the old one, syncs it, renames it over the old one and syncs the
/// directory, so at each moment the path has the old bytes or the new ones. The mode is kept, owner
/// and group as far as the system allows, and a link stays a link.
pub struct Disk<'a, R: Files + AllocGlobal> {
    rt: &'a R,
}

impl<'a, R: Files + AllocGlobal> Drop for Disk<'a, R> {
    fn drop(self) {
        let Disk { rt: _ } = self;
    }
}

impl<'a, R: Files + AllocGlobal> Disk<'a, R> {
    /// Returns the files of `rt`.
    pub fn new(rt: &'a R) -> Disk<'a, R> {
        Disk { rt }
    }
}

/// The calls of one write.
struct Calls<'a, R: Files + AllocGlobal> {
    rt: &'a R,
    /// The new file, once it is made.
    file: Option<R::File>,
}

impl<'a, R: Files + AllocGlobal> Drop for Calls<'a, R> {
    fn drop(self) {
        let Calls { rt: _, file: _ } = self;
    }
}

impl<'a, R: Files + AllocGlobal> System for Calls<'a, R> {
    fn resolve(&mut self, alloc: Global, path: &str) -> io::Result<String> {
        let path = fs::canonicalize(self.rt, path)?;
        Ok(String::from_str(alloc, path.as_path().as_str())?)
    }

    fn status(&mut self, path: &str) -> io::Result<Status> {
        let metadata = fs::metadata(self.rt, path)?;
        Ok(Status {
            version: Version::of(&metadata),
            mode: metadata.permissions().mode(),
            owner: metadata.uid(),
            group: metadata.gid(),
        })
    }

    fn create(&mut self, path: &str) -> io::Result<()> {
        let mut options = OpenOptions::new();
        let options = options.write(true).create_new(true);
        self.file = Some(options.open(self.rt, path)?);
        Ok(())
    }

    fn set_owner(&mut self, path: &str, owner: Option<u32>, group: u32) -> io::Result<()> {
        chown(self.rt, path, owner, Some(group))
    }

    fn set_mode(&mut self, mode: u32) -> io::Result<()> {
        match &self.file {
            Some(file) => file.set_permissions(Permissions::from_mode(mode)),
            None => Err(io::Error::from(ErrorKind::NotFound)),
        }
    }

    fn write(&mut self, bytes: &[u8]) -> io::Result<()> {
        match &mut self.file {
            Some(file) => file.write_all(bytes),
            None => Err(io::Error::from(ErrorKind::NotFound)),
        }
    }

    fn sync(&mut self) -> io::Result<()> {
        match &self.file {
            Some(file) => file.sync_all(),
            None => Err(io::Error::from(ErrorKind::NotFound)),
        }
    }

    fn rename(&mut self, from: &str, to: &str) -> io::Result<()> {
        fs::rename(self.rt, from, to)
    }

    fn sync_directory(&mut self, path: &str) -> io::Result<()> {
        match Path::new(path).parent() {
            Some(directory) => File::open(self.rt, directory)?.sync_all(),
            None => Ok(()),
        }
    }

    fn remove(&mut self, path: &str) -> io::Result<()> {
        fs::remove_file(self.rt, path)
    }
}

impl<'a, R: Files + AllocGlobal> Target for Disk<'a, R> {
    fn read(&self, alloc: Global, path: &str) -> Result<Contents, TargetError> {
        let mut file = File::open(self.rt, path)?;
        let version = Version::of(&file.metadata()?);
        let mut bytes = Vec::new(alloc);
        file.read_to_end(&mut bytes)?;
        if Version::of(&file.metadata()?) != version {
            return Err(TargetError::Changed);
        }
        Ok(Contents { bytes, version })
    }

    fn write(
        &mut self,
        alloc: Global,
        path: &str,
        version: Version,
        bytes: &[u8],
    ) -> Result<(), TargetError> {
        let mut calls = Calls {
            rt: self.rt,
            file: None,
        };
        replace_file(alloc, &mut calls, path, version, bytes)
    }
}
