//! The identities of files, and their names in folders.

use file_paths::{FileId, common_folder, first_same, name_in};
use std::alloc::{AllocError, Global};
use std::test::Fail;

/// Returns a file of device 1.
fn file(inode: u64) -> Option<FileId> {
    Some(FileId { device: 1, inode })
}

#[test]
fn files_are_told_by_device_and_number(rt: HostRuntime) -> Result<(), Fail> {
    let other = Some(FileId {
        device: 2,
        inode: 7,
    });
    let ids = [
        file(7),
        None,
        other,
        file(8),
        file(7),
        None,
        Some(FileId::input()),
    ];
    let expected: [usize; 7] = [0, 1, 2, 3, 0, 5, 6];
    for (index, first) in expected.iter().enumerate() {
        assert!(rt; first_same(ids.as_slice(), index) == *first);
    }
    Ok(())
}

/// A folder, a path, and the name of its file there.
const NAMES: [(&str, &str, Option<&str>); 6] = [
    ("/a/b", "/a/b/c.rs", Some("c.rs")),
    ("/a/b", "/a/b/d/c.rs", Some("d/c.rs")),
    ("", "/a/b.rs", Some("a/b.rs")),
    ("/a/b", "/a/bc.rs", None),
    ("/a/b", "/a/b", None),
    ("/a/b", "/a/c.rs", None),
];

#[test]
fn names_are_below_their_folder(rt: HostRuntime) -> Result<(), Fail> {
    for (folder, path, expected) in NAMES.iter() {
        assert!(rt; name_in(folder, path) == *expected, "{folder} {path}");
    }
    Ok(())
}

/// Returns the common folder of two paths and the folder `/a/b`.
fn common(alloc: Global, first: &str, second: &str) -> Result<String, AllocError> {
    let paths = [
        String::from_str(alloc, first)?,
        String::from_str(alloc, second)?,
    ];
    String::from_str(alloc, common_folder("/a/b", paths.as_slice()))
}

/// Two paths, and the innermost folder of `/a/b`, `/a` and the root that has both files.
const FOLDERS: [(&str, &str, &str); 4] = [
    ("/a/b/c.rs", "/a/b/d/e.rs", "/a/b"),
    ("/a/b/c.rs", "/a/d.rs", "/a"),
    ("/a/d.rs", "/a/b/c.rs", "/a"),
    ("/x/c.rs", "/a/b/c.rs", ""),
];

#[test]
fn folders_have_all_files(rt: HostRuntime) -> Result<(), Fail> {
    for (first, second, expected) in FOLDERS.iter() {
        let folder = match common(rt.alloc(), first, second) {
            Ok(folder) => folder,
            Err(AllocError) => common(rt.alloc(), first, second)?,
        };
        assert!(rt; folder.as_str() == *expected, "{first} {second}");
    }
    Ok(())
}
