//! Files in memory, one that is replaced by the calls of a file system, and one on the disk.
use anyhow::bail;
use file_target::{Disk, Memory, Status, System, Target, TargetError, Version, replace_file};
use memory_table::row::{Ask, Row};
use std::alloc::Global;
use std::io::{self, ErrorKind};
use std::{fs, process};

/// The calls on files.
#[derive(Clone, Copy)]
pub(crate) enum FileCall {
    Memory,
    Replace,
}

/// A file system of one file, of which each call succeeds. It has room for the new bytes.
#[derive(Drop)]
struct OneFile {
    bytes: Vec<u8>,
    new: Vec<u8>,
}

impl System for OneFile {
    fn resolve(&mut self, alloc: Global, path: &str) -> io::Result<String> {
        Ok(String::from_str(alloc, path)?)
    }

    fn status(&mut self, _path: &str) -> io::Result<Status> {
        Ok(Status {
            version: Version::none(),
            mode: 0o640,
            owner: 7,
            group: 8,
        })
    }

    fn create(&mut self, _path: &str) -> io::Result<()> {
        self.new.clear();
        Ok(())
    }

    fn set_owner(&mut self, _path: &str, _owner: Option<u32>, _group: u32) -> io::Result<()> {
        Ok(())
    }

    fn set_mode(&mut self, _mode: u32) -> io::Result<()> {
        Ok(())
    }

    fn write(&mut self, bytes: &[u8]) -> io::Result<()> {
        self.new.extend_from_slice(bytes)?;
        Ok(())
    }

    fn sync(&mut self) -> io::Result<()> {
        Ok(())
    }

    fn rename(&mut self, _from: &str, _to: &str) -> io::Result<()> {
        self.bytes.clear();
        self.bytes.extend_from_slice(self.new.as_slice())?;
        Ok(())
    }

    fn sync_directory(&mut self, _path: &str) -> io::Result<()> {
        Ok(())
    }

    fn remove(&mut self, _path: &str) -> io::Result<()> {
        Err(io::Error::from(ErrorKind::NotFound))
    }
}

/// Returns the bytes of a file in memory that is added, read and written, and read again.
fn in_memory(alloc: Global) -> anyhow::Result<String> {
    let mut memory = Memory::new(alloc);
    memory.add(alloc, "a.rs", b"old")?;
    let version = memory.read(alloc, "a.rs")?.version;
    memory.write(alloc, "a.rs", version, b"new")?;
    let contents = memory.read(alloc, "a.rs")?;
    match str::from_utf8(contents.bytes.as_slice()) {
        Ok(text) => Ok(String::from_str(alloc, text)?),
        Err(_) => bail!("no text"),
    }
}

/// Returns the bytes of a file that is replaced. Out of memory it has its old bytes, and is replaced
/// again.
fn replaced(alloc: Global, refused: &mut u32) -> anyhow::Result<String> {
    let mut file = OneFile {
        bytes: Vec::with_capacity(alloc, 8)?,
        new: Vec::with_capacity(alloc, 8)?,
    };
    file.bytes.extend_from_slice(b"old")?;
    match replace_file(alloc, &mut file, "a.rs", Version::none(), b"new") {
        Ok(()) => {}
        Err(TargetError::NoMemory) => {
            *refused = refused.saturating_add(1);
            if file.bytes.as_slice() != b"old".as_slice() {
                bail!("the file has changed");
            }
            replace_file(alloc, &mut file, "a.rs", Version::none(), b"new")?;
        }
        Err(error) => bail!("{error}"),
    }
    match str::from_utf8(file.bytes.as_slice()) {
        Ok(text) => Ok(String::from_str(alloc, text)?),
        Err(_) => bail!("no text"),
    }
}

/// The calls on a file on the disk.
#[derive(Clone, Copy)]
pub(crate) struct DiskCall<'a> {
    pub(crate) rt: &'a HostRuntime,
}

impl<'a> Ask for DiskCall<'a> {
    /// Returns the bytes of a file on the disk that is read and written, and read again. It is one of
    /// this process, and is removed.
    fn answer(self, alloc: Global, _refused: &mut u32) -> anyhow::Result<String> {
        let rt = self.rt;
        let id = process::id(rt.process());
        let path = format!(in alloc; "file_memory_suite.{id}")?;
        let path = path.as_str();
        fs::write(rt, path, "old")?;
        let mut disk = Disk::new(rt);
        let version = disk.read(alloc, path)?.version;
        disk.write(alloc, path, version, b"new")?;
        let contents = disk.read(alloc, path)?;
        fs::remove_file(rt, path)?;
        match str::from_utf8(contents.bytes.as_slice()) {
            Ok(text) => Ok(String::from_str(alloc, text)?),
            Err(_) => bail!("no text"),
        }
    }
}

impl Ask for FileCall {
    fn answer(self, alloc: Global, refused: &mut u32) -> anyhow::Result<String> {
        match self {
            FileCall::Memory => in_memory(alloc),
            FileCall::Replace => replaced(alloc, refused),
        }
    }
}

pub(crate) const ROWS: &[Row<FileCall>] = &[
    (
        "file_target::Memory::{add, read, write}",
        FileCall::Memory,
        "new",
    ),
    ("file_target::replace_file", FileCall::Replace, "new"),
];
