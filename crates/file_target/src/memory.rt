//! Files in memory.

ghost use Rattle.std.specs.Prelude.{◌≡◌, [], Some, None, MatchBool, MatchResult};
ghost use Rattle.file_target.specs.Files.{files_of, IsPosition, IsAdded, Permits};

use crate::error::TargetError;
use crate::target::{Contents, Target};
use crate::version::Version;
use std::alloc::{AllocError, Global};
use std::io;

/// A file in memory.
#[derive(Drop)]
struct Entry {
    path: String,
    bytes: Vec<u8>,
    version: Version,
    /// The error of each read.
    read_error: Option<io::Error>,
    /// The error of each write of this version.
    write_error: Option<io::Error>,
}

/// Files in memory, by path.
#[derive(Drop)]
pub struct Memory {
    entries: Vec<Entry>,
}

impl Memory {
    /// Returns no files.
    pub fn new(alloc: Global) -> Memory
        ensures { result.entries.items ≡ [] }
    {
        Memory {
            entries: Vec::new(alloc),
        }
    }

    /// Adds a file. A file that has this path already is left as it is, and read in place of it.
    ///
    /// # Errors
    ///
    /// Out of memory; then `self` is unchanged.
    pub fn add(&mut self, alloc: Global, path: &str, bytes: &[u8]) -> Result<(), AllocError>
        ensures { MatchResult result
            (λ _. IsAdded self.old.entries.items path.now bytes.now self.new.entries.items)
            (λ _. self.new.entries.items ≡ self.old.entries.items) }
    {
        let version = Version {
            device: 0,
            inode: self.entries.len() as u64,
            len: bytes.len() as u64,
            seconds: 0,
            nanoseconds: 0,
        };
        let path = String::from_str(alloc, path)?;
        let bytes = Vec::from_slice(alloc, bytes)?;
        self.entries.push(Entry {
            path,
            bytes,
            version,
            read_error: None,
            write_error: None,
        })?;
        Ok(())
    }

    /// From now on each read of the file at `path` fails with `read`, and each write with `write`, as far
    /// as they are errors. Returns `false` if there is no file; then `self` is unchanged.
    pub fn permit(&mut self, path: &str, read: Option<io::Error>, write: Option<io::Error>) -> bool
        ensures { MatchBool result
            (Permits (files_of self.old.entries.items) path.now read write
            (files_of self.new.entries.items))
            ((files_of self.old.entries.items path.now ≡ None)
            × (self.new.entries.items ≡ self.old.entries.items)) }
    {
        let Some(i) = position(self.entries.as_slice(), path) else {
            return false;
        };
        let entry = &mut self.entries[i];
        entry.read_error = read;
        entry.write_error = write;
        true
    }
}

/// Returns the index of the first entry at `path`.
fn position(entries: &[Entry], path: &str) -> Option<usize>
    ensures { IsPosition entries.now path.now result }
{
    for (i, entry) in entries.iter().enumerate() {
        if entry.path.as_str() == path {
            return Some(i);
        }
    }
    None
}

impl Target for Memory {
    ghost files = { λ memory. Some (files_of memory.entries.items) };

    fn read(&self, alloc: Global, path: &str) -> Result<Contents, TargetError> {
        let Some(i) = position(self.entries.as_slice(), path) else {
            return Err(TargetError::NotFound);
        };
        let entry = &self.entries[i];
        if let Some(error) = entry.read_error {
            return Err(TargetError::Io(error));
        }
        let bytes = Vec::from_slice(alloc, entry.bytes.as_slice())?;
        Ok(Contents {
            bytes,
            version: entry.version,
        })
    }

    fn write(
        &mut self,
        alloc: Global,
        path: &str,
        version: Version,
        bytes: &[u8],
    ) -> Result<(), TargetError> {
        let Some(i) = position(self.entries.as_slice(), path) else {
            return Err(TargetError::NotFound);
        };
        let entry = &self.entries[i];
        let present = entry.version;
        if !present.is(version) {
            return Err(TargetError::Changed);
        }
        if let Some(error) = entry.write_error {
            return Err(TargetError::Io(error));
        }
        let bytes = Vec::from_slice(alloc, bytes)?;
        let len = bytes.len() as u64;
        let entry = &mut self.entries[i];
        entry.version = present.later(len);
        entry.bytes = bytes;
        Ok(())
    }
}
