//! Diffs worked by hand, as `diff -u` prints them.

use std::alloc::{AllocError, Global};
use std::test::Fail;
use text_diff::{ByteChange, Change, byte_changes, line_changes, unified_diff};

/// An old text, a new one, and the hunks between.
const CASES: [(&str, &str, &str); 5] = [
    ("a\nb\n", "a\nb\n", ""),
    (
        "",
        "a",
        "@@ -0,0 +1,1 @@\n+a\n\\ No newline at end of file\n",
    ),
    (
        "a\nb",
        "a\nb\n",
        "@@ -1,2 +1,2 @@\n a\n-b\n\\ No newline at end of file\n+b\n",
    ),
    (
        "1\n2\n3\n4\n5\n6\n7\n8\n9\n",
        "1\n2\n3\n4\nfive\n6\n7\n8\n9\n",
        "@@ -2,7 +2,7 @@\n 2\n 3\n 4\n-5\n+five\n 6\n 7\n 8\n",
    ),
    (
        "1\n2\n3\n4\n5\n6\n7\n8\n9\n10\n",
        "2\n3\n4\n5\n6\n7\n8\n9\n10\n11\n",
        "@@ -1,4 +1,3 @@\n-1\n 2\n 3\n 4\n@@ -8,3 +7,4 @@\n 8\n 9\n 10\n+11\n",
    ),
];

/// With `rt try --test --fail-alloc N` one allocation fails; a second call then succeeds.
fn diff_of(alloc: Global, old: &str, new: &str) -> Result<Vec<u8>, AllocError> {
    match unified_diff(alloc, "x y.rs", old.as_bytes(), new.as_bytes()) {
        Ok(text) => Ok(text),
        Err(AllocError) => unified_diff(alloc, "x y.rs", old.as_bytes(), new.as_bytes()),
    }
}

fn is_diff(text: &[u8], hunks: &str) -> bool {
    let names = b"--- a/x y.rs\t\n+++ b/x y.rs\t\n";
    if hunks.is_empty() {
        return text.is_empty();
    }
    match text.strip_prefix(names) {
        None => false,
        Some(rest) => rest == hunks.as_bytes(),
    }
}

#[test]
fn diffs_are_as_worked_by_hand(rt: HostRuntime) -> Result<(), Fail> {
    for (old, new, hunks) in CASES {
        let text = diff_of(rt.alloc(), old, new)?;
        let is_right = is_diff(text.as_slice(), hunks);
        assert!(rt; is_right, "{old:?} {new:?}");
    }
    Ok(())
}

/// Paths, and the first line of their diffs.
const NAMES: [(&str, &str); 5] = [
    ("a/b.rs", "--- a/a/b.rs\t\n"),
    ("caf\u{e9}.rs", "--- a/caf\u{e9}.rs\t\n"),
    ("a\nb.rs", "--- \"a/a\\012b.rs\"\t\n"),
    ("q\".rs", "--- \"a/q\\\".rs\"\t\n"),
    ("b\\\u{7f}.rs", "--- \"a/b\\\\\\177.rs\"\t\n"),
];

#[test]
fn names_are_quoted_as_git_does(rt: HostRuntime) -> Result<(), Fail> {
    for (path, line) in NAMES {
        let text = match unified_diff(rt.alloc(), path, b"a\n", b"b\n") {
            Ok(text) => text,
            Err(AllocError) => unified_diff(rt.alloc(), path, b"a\n", b"b\n")?,
        };
        assert!(rt; text.as_slice().starts_with(line.as_bytes()), "{path:?}");
    }
    Ok(())
}

#[test]
fn changes_are_by_line(rt: HostRuntime) -> Result<(), Fail> {
    let changes = match line_changes(rt.alloc(), b"a\nb\nc\n", b"a\nx\ny\nc\n") {
        Ok(changes) => changes,
        Err(AllocError) => line_changes(rt.alloc(), b"a\nb\nc\n", b"a\nx\ny\nc\n")?,
    };
    let expected = Change {
        old_start: 1,
        old_end: 2,
        new_start: 1,
        new_end: 3,
    };
    let is_right = changes.as_slice() == [expected].as_slice();
    assert!(rt; is_right);
    Ok(())
}

#[test]
fn bytes_are_of_whole_lines(rt: HostRuntime) -> Result<(), Fail> {
    let (old, new) = (b"one\ntwo\n\nfour", b"one\n2\n2\n\nfour\n");
    let changes = match byte_changes(rt.alloc(), old, new) {
        Ok(changes) => changes,
        Err(AllocError) => byte_changes(rt.alloc(), old, new)?,
    };
    let expected = [
        ByteChange {
            old_start: 4,
            old_end: 8,
            new_start: 4,
            new_end: 8,
        },
        ByteChange {
            old_start: 9,
            old_end: 13,
            new_start: 9,
            new_end: 14,
        },
    ];
    let is_right = changes.as_slice() == expected.as_slice();
    assert!(rt; is_right);
    Ok(())
}
