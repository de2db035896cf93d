//! Reading and writing files, in memory and on the disk.

use file_target::{Disk, Memory, Target, TargetError};
use std::alloc::Global;
use std::fs;
use std::io::{self, ErrorKind};
use std::test::Fail;

/// Replaces `old` with `new` in the file at `path`, if it has that text.
fn replace<T: Target>(
    target: &mut T,
    alloc: Global,
    path: &str,
    old: &[u8],
    new: &[u8],
) -> Result<bool, TargetError> {
    let contents = target.read(alloc, path)?;
    if contents.bytes.as_slice() != old {
        return Ok(false);
    }
    target.write(alloc, path, contents.version, new)?;
    Ok(true)
}

/// Returns `true` if a write with the version from before another write fails as changed.
fn is_refused<T: Target>(target: &mut T, alloc: Global, path: &str) -> Result<bool, TargetError> {
    let before = target.read(alloc, path)?;
    target.write(alloc, path, before.version, b"first, longer")?;
    let is_refused = match target.write(alloc, path, before.version, b"second") {
        Err(TargetError::Changed) => true,
        Err(TargetError::NoMemory) => return Err(TargetError::NoMemory),
        _ => false,
    };
    let after = target.read(alloc, path)?;
    Ok(is_refused & (after.bytes.as_slice() == b"first, longer".as_slice()))
}

/// Replaces files in memory, and tries to write one that has changed and one that does not exist.
fn in_memory(alloc: Global) -> Result<bool, TargetError> {
    let mut memory = Memory::new(alloc);
    memory.add(alloc, "a.rs", b"old")?;
    memory.add(alloc, "b.rs", b"other")?;
    let replaced = replace(&mut memory, alloc, "a.rs", b"old", b"new")?;
    let other = replace(&mut memory, alloc, "b.rs", b"old", b"new")?;
    let missing = replace(&mut memory, alloc, "c.rs", b"", b"");
    let refused = is_refused(&mut memory, alloc, "a.rs")?;
    let kept = memory.read(alloc, "b.rs")?;
    let is_kept = kept.bytes.as_slice() == b"other".as_slice();
    let is_missing = matches!(missing, Err(TargetError::NotFound));
    Ok(replaced & !other & is_missing & refused & is_kept)
}

/// Does the same with one file on the disk.
fn on_disk(rt: &HostRuntime) -> Result<bool, TargetError> {
    let alloc = rt.alloc();
    let path = "file_target test.txt";
    fs::write(rt, path, "old")?;
    let mut disk = Disk::new(rt);
    let replaced = replace(&mut disk, alloc, path, b"old", b"new")?;
    let refused = is_refused(&mut disk, alloc, path)?;
    let missing = replace(&mut disk, alloc, "file_target none.txt", b"", b"");
    let is_left = fs::exists(rt, "file_target test.txt.0.new")?;
    fs::remove_file(rt, path)?;
    let is_missing = matches!(missing, Err(TargetError::NotFound));
    Ok(replaced & refused & !is_left & is_missing)
}

/// With `rt try --test --fail-alloc N` one allocation fails; the second time all succeed.
#[test]
fn memory_replaces_and_refuses(rt: HostRuntime) -> Result<(), Fail> {
    let is_right = match in_memory(rt.alloc()) {
        Err(TargetError::NoMemory) => in_memory(rt.alloc())?,
        answer => answer?,
    };
    assert!(rt; is_right);
    Ok(())
}

#[test]
fn disk_replaces_and_refuses(rt: HostRuntime) -> Result<(), Fail> {
    let is_right = match on_disk(&rt) {
        Err(TargetError::NoMemory) => on_disk(&rt)?,
        answer => answer?,
    };
    assert!(rt; is_right);
    Ok(())
}

/// A write that runs out of memory leaves the file and its version as they are.
#[test]
fn a_failed_write_changes_nothing(rt: HostRuntime) -> Result<(), Fail> {
    let alloc = rt.alloc();
    let mut memory = Memory::new(alloc);
    if memory.add(alloc, "a.rs", b"old").is_err() {
        memory.add(alloc, "a.rs", b"old")?;
    }
    let contents = match memory.read(alloc, "a.rs") {
        Err(TargetError::NoMemory) => memory.read(alloc, "a.rs")?,
        answer => answer?,
    };
    let written = match memory.write(alloc, "a.rs", contents.version, b"new") {
        Err(TargetError::NoMemory) => memory.write(alloc, "a.rs", contents.version, b"new"),
        answer => answer,
    };
    assert!(rt; written.is_ok());
    Ok(())
}

/// Returns `true` if a read or write failed with the system's error.
fn is_denied<T>(made: &Result<T, TargetError>) -> bool {
    match made {
        Err(TargetError::Io(error)) => error.kind() == ErrorKind::PermissionDenied,
        _ => false,
    }
}

/// A file that the system does not read, or does not write, in memory.
fn denied(alloc: Global) -> Result<bool, TargetError> {
    let error = Some(io::Error::from(ErrorKind::PermissionDenied));
    let mut memory = Memory::new(alloc);
    memory.add(alloc, "a.rs", b"old")?;
    memory.add(alloc, "b.rs", b"other")?;
    let version = memory.read(alloc, "a.rs")?.version;
    let is_missing = !memory.permit("c.rs", error, error);
    let is_there = memory.permit("a.rs", error, None);
    let is_unread = is_denied(&memory.read(alloc, "a.rs"));
    let is_again = memory.permit("a.rs", None, error);
    let is_unwritten = is_denied(&memory.write(alloc, "a.rs", version, b"new"));
    let a = memory.read(alloc, "a.rs")?.bytes;
    let b = memory.read(alloc, "b.rs")?.bytes;
    let are_kept = (a.as_slice() == b"old".as_slice()) & (b.as_slice() == b"other".as_slice());
    Ok(is_missing & is_there & is_unread & is_again & is_unwritten & are_kept)
}

#[test]
fn memory_may_deny_a_file(rt: HostRuntime) -> Result<(), Fail> {
    let is_right = match denied(rt.alloc()) {
        Err(TargetError::NoMemory) => denied(rt.alloc())?,
        answer => answer?,
    };
    assert!(rt; is_right);
    Ok(())
}
