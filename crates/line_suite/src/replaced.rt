//! Calls of a file system that replace a file, each of them failing in turn.

use file_target::{Status, System, TargetError, Version, replace_file};
use std::alloc::Global;
use std::io::{self, ErrorKind};
use std::test::Fail;

/// A file system that notes its calls by a letter each, and fails at one of them.
#[derive(Drop)]
struct Noted {
    notes: Vec<u8>,
    failed: usize,
    kind: ErrorKind,
    /// The owner of each file.
    owner: u32,
}

impl Noted {
    /// Notes a call. Returns an error if it is the one that fails.
    fn note(&mut self, letter: u8) -> io::Result<()> {
        let number = self.notes.len();
        self.notes.push(letter)?;
        if number == self.failed {
            return Err(io::Error::from(self.kind));
        }
        Ok(())
    }
}

impl System for Noted {
    fn resolve(&mut self, alloc: Global, path: &str) -> io::Result<String> {
        self.note(b'l')?;
        Ok(String::from_str(alloc, path)?)
    }

    fn status(&mut self, path: &str) -> io::Result<Status> {
        self.note(b'v')?;
        let owner = if path.ends_with(".new") {
            self.owner
        } else {
            7
        };
        Ok(Status {
            version: Version::none(),
            mode: 0o640,
            owner,
            group: 8,
        })
    }

    fn create(&mut self, path: &str) -> io::Result<()> {
        beside_the_file(path)?;
        self.note(b'c')
    }

    fn set_owner(&mut self, _path: &str, owner: Option<u32>, _group: u32) -> io::Result<()> {
        self.note(if owner.is_some() { b'o' } else { b'g' })
    }

    fn set_mode(&mut self, mode: u32) -> io::Result<()> {
        self.note(if mode == 0o640 { b'm' } else { b'?' })
    }

    fn write(&mut self, bytes: &[u8]) -> io::Result<()> {
        self.note(if bytes == b"new".as_slice() {
            b'w'
        } else {
            b'?'
        })
    }

    fn sync(&mut self) -> io::Result<()> {
        self.note(b's')
    }

    fn rename(&mut self, from: &str, to: &str) -> io::Result<()> {
        let is_right = from.ends_with(".new") && to == "a.rs";
        self.note(if is_right { b'r' } else { b'?' })
    }

    fn sync_directory(&mut self, _path: &str) -> io::Result<()> {
        self.note(b'd')
    }

    fn remove(&mut self, path: &str) -> io::Result<()> {
        self.note(if path.ends_with(".new") { b'x' } else { b'?' })
    }
}

/// Returns an error unless `path` is beside the file.
fn beside_the_file(path: &str) -> io::Result<()> {
    if path.starts_with("a.rs.") && path.ends_with(".new") {
        return Ok(());
    }
    Err(io::Error::from(ErrorKind::InvalidInput))
}

/// The call that fails, what is noted, and whether the file is replaced.
const NOTES: [(usize, &[u8], bool); 11] = [
    (99, b"lvcvmwsvrd", true),
    (0, b"l", false),
    (1, b"lv", false),
    (2, b"lvc", false),
    (3, b"lvcvomwsvrd", true),
    (4, b"lvcvmx", false),
    (5, b"lvcvmwx", false),
    (6, b"lvcvmwsx", false),
    (7, b"lvcvmwsvx", false),
    (8, b"lvcvmwsvrx", false),
    (9, b"lvcvmwsvrd", true),
];

#[test]
fn each_call_fails_in_turn(rt: HostRuntime) -> Result<(), Fail> {
    for (failed, wanted, is_replaced) in NOTES.iter() {
        let mut system = Noted {
            notes: Vec::new(rt.alloc()),
            failed: *failed,
            kind: ErrorKind::Other,
            owner: 7,
        };
        let replaced = replace_file(rt.alloc(), &mut system, "a.rs", Version::none(), b"new");
        let is_right = replaced.is_ok() == *is_replaced && system.notes.as_slice() == *wanted;
        assert!(rt; is_right);
    }
    Ok(())
}

#[test]
fn next_free_name_is_taken(rt: HostRuntime) -> Result<(), Fail> {
    let mut system = Noted {
        notes: Vec::new(rt.alloc()),
        failed: 2,
        kind: ErrorKind::AlreadyExists,
        owner: 0,
    };
    let replaced = replace_file(rt.alloc(), &mut system, "a.rs", Version::none(), b"new");
    let is_right = replaced.is_ok() && system.notes.as_slice() == b"lvccvomwsvrd".as_slice();
    assert!(rt; is_right);
    Ok(())
}

#[test]
fn missing_file_is_not_found(rt: HostRuntime) -> Result<(), Fail> {
    let mut system = Noted {
        notes: Vec::new(rt.alloc()),
        failed: 0,
        kind: ErrorKind::NotFound,
        owner: 7,
    };
    let replaced = replace_file(rt.alloc(), &mut system, "a.rs", Version::none(), b"new");
    let is_right = matches!(replaced, Err(TargetError::NotFound));
    assert!(rt; is_right);
    Ok(())
}
