//! Renamings of files.
use crate::files::{DIALECT, memory, sources};
use crate::outcome::{
    DENIED, Outcome, Writing, denied_in_turn, failing_in_turn, of_rename, written_twice,
};
use anyhow::bail;
use file_target::Target;
use memory_table::row::{Ask, Row};
use source_tools::{
    RenameFault, Renaming, plan_renames, rename_bytes, rename_files, write_change_lists,
    write_diffs,
};
use std::alloc::Global;

/// The calls that rename.
#[derive(Clone, Copy)]
pub(crate) enum RenameCall {
    Files,
    Failing,
    Denied,
    Diffs,
    Bytes,
    Pairs,
    Lists,
    Taken,
}

/// `old` to `new`. A second renaming of a file finds `new` there.
const RENAMING: Renaming<'static> = Renaming {
    old: "old",
    new: "new",
    merge: true,
};

/// `a` to `b`, after [`RENAMING`].
const OTHER: Renaming<'static> = Renaming {
    old: "a",
    new: "b",
    merge: false,
};

/// Renames in the files.
pub(crate) fn rename<T: Target>(alloc: Global, target: &mut T) -> anyhow::Result<Outcome> {
    let sources = sources(alloc)?;
    let result = rename_files(alloc, [RENAMING].as_slice(), target, sources.as_slice());
    Ok(of_rename(result))
}

/// Returns the diffs of a renaming. The output has its room before.
fn diffs(alloc: Global) -> anyhow::Result<String> {
    let memory = memory(alloc)?;
    let sources = sources(alloc)?;
    let changes = match plan_renames(alloc, [RENAMING].as_slice(), &memory, sources.as_slice()) {
        Ok(changes) => changes,
        Err(failure) => bail!("{}", failure.fault),
    };
    let mut output = Vec::with_capacity(alloc, 512)?;
    write_diffs(alloc, changes.as_slice(), &mut output)?;
    text(alloc, output.as_slice())
}

/// Returns the changed bytes of a renaming, in JSON. The output has its room before.
fn lists(alloc: Global) -> anyhow::Result<String> {
    let memory = memory(alloc)?;
    let sources = sources(alloc)?;
    let changes = match plan_renames(alloc, [RENAMING].as_slice(), &memory, sources.as_slice()) {
        Ok(changes) => changes,
        Err(failure) => bail!("{}", failure.fault),
    };
    let mut output = Vec::with_capacity(alloc, 512)?;
    write_change_lists(alloc, changes.as_slice(), &mut output)?;
    text(alloc, output.as_slice())
}

/// Returns bytes as text.
fn text(alloc: Global, bytes: &[u8]) -> anyhow::Result<String> {
    match str::from_utf8(bytes) {
        Ok(text) => Ok(String::from_str(alloc, text)?),
        Err(_) => bail!("no text"),
    }
}

/// Returns the bytes of a file after a renaming.
fn bytes(alloc: Global, renamings: &[Renaming<'_>]) -> anyhow::Result<String> {
    match rename_bytes(alloc, renamings, DIALECT, b"fn old(a: old) { new!(old) }") {
        Ok(bytes) => text(alloc, bytes.as_slice()),
        Err(RenameFault::NameTaken) => Ok(String::from_str(alloc, "taken")?),
        Err(fault) => bail!("{fault}"),
    }
}

impl Ask for RenameCall {
    fn answer(self, alloc: Global, refused: &mut u32) -> anyhow::Result<String> {
        match self {
            RenameCall::Files => written_twice(alloc, Writing::Rename, refused),
            RenameCall::Failing => failing_in_turn(alloc, Writing::Rename),
            RenameCall::Denied => denied_in_turn(alloc, Writing::Rename),
            RenameCall::Diffs => diffs(alloc),
            RenameCall::Lists => lists(alloc),
            RenameCall::Bytes => bytes(alloc, [RENAMING].as_slice()),
            RenameCall::Pairs => bytes(alloc, [RENAMING, OTHER].as_slice()),
            RenameCall::Taken => bytes(
                alloc,
                [Renaming {
                    old: "old",
                    new: "new",
                    merge: false,
                }]
                .as_slice(),
            ),
        }
    }
}

/// The first three calls read, the next two write.
const FAILURES: &str = "refused 0 0\nrefused 1 0\nrefused 2 0\nunwritten a.rs 0\nunwritten c.rs 1\n\
    written 2 2\n";

/// The diffs of both files that change.
const DIFFS: &str = "--- a/a.rs\t\n+++ b/a.rs\t\n@@ -1,1 +1,1 @@\n-fn old() {}\n\
    \\ No newline at end of file\n+fn new() {}\n\\ No newline at end of file\n\
    --- a/c.rs\t\n+++ b/c.rs\t\n@@ -1,1 +1,1 @@\n-mod old;\n\
    \\ No newline at end of file\n+mod new;\n\\ No newline at end of file\n";

pub(crate) const ROWS: &[Row<RenameCall>] = &[
    ("source_tools::rename_files", RenameCall::Files, "2"),
    (
        "source_tools::rename_files over failing files",
        RenameCall::Failing,
        FAILURES,
    ),
    (
        "source_tools::rename_files over files that the system does not read or write",
        RenameCall::Denied,
        DENIED,
    ),
    (
        "source_tools::plan_renames, source_tools::write_diffs",
        RenameCall::Diffs,
        DIFFS,
    ),
    (
        "source_tools::write_change_lists",
        RenameCall::Lists,
        "{\"path\":\"a.rs\",\"changes\":[{\"start\":0,\"end\":11,\"new_start\":0,\"new_end\":11}]}\n\
        {\"path\":\"c.rs\",\"changes\":[{\"start\":0,\"end\":8,\"new_start\":0,\"new_end\":8}]}\n",
    ),
    (
        "source_tools::rename_bytes",
        RenameCall::Bytes,
        "fn new(a: new) { new!(new) }",
    ),
    (
        "source_tools::rename_bytes by two renamings",
        RenameCall::Pairs,
        "fn new(b: new) { new!(new) }",
    ),
    (
        "source_tools::rename_bytes to a name that is there",
        RenameCall::Taken,
        "taken",
    ),
];
