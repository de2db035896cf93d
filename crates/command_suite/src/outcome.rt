//! What became of a renaming or a rewrite of files.
use crate::failing::Failing;
use crate::files::{FILES, memory, written};
use anyhow::bail;
use file_target::{Memory, TargetError};
use source_rewrites::{RewriteFault, RewriteStop};
use source_tools::{FileError, RenameFault, RenameStop};
use std::alloc::Global;
use std::io::{self, ErrorKind};

/// What became of a call over files.
#[derive(Drop)]
pub(crate) enum Outcome {
    /// The number of files that were written.
    Written(usize),
    /// The file with this index was refused.
    Refused(usize),
    /// The file at the path could not be written.
    Unwritten(String),
    NoMemory,
}

/// Returns the outcome of a write that failed.
fn unwritten(path: String, error: &TargetError) -> Outcome {
    match error {
        TargetError::NoMemory => Outcome::NoMemory,
        _ => Outcome::Unwritten(path),
    }
}

/// Returns the outcome of a renaming.
pub(crate) fn of_rename(made: Result<usize, RenameStop>) -> Outcome {
    match made {
        Ok(count) => Outcome::Written(count),
        Err(RenameStop::Unwritten(path, error)) => unwritten(path, &error),
        Err(RenameStop::RefusedFile(failure)) => match &failure.fault {
            RenameFault::File(FileError::NoMemory) => Outcome::NoMemory,
            RenameFault::Refused(error) if is_out_of_memory(error) => Outcome::NoMemory,
            _ => Outcome::Refused(failure.index),
        },
    }
}

/// Returns `true` if a renaming ran out of memory.
fn is_out_of_memory(error: &renamer::RenameError) -> bool {
    match error {
        renamer::RenameError::NoToken(error) => {
            matches!(error, rust_document::PayloadError::NoMemory)
        }
        renamer::RenameError::NotRecorded(error) => {
            matches!(error, rust_document::RecordError::NoMemory)
        }
        renamer::RenameError::Refused(error) => {
            matches!(error, rust_document::CommitError::NoMemory)
        }
        renamer::RenameError::NoMemory => true,
    }
}

/// Returns the outcome of a rewrite.
pub(crate) fn of_rewrite(made: Result<usize, RewriteStop>) -> Outcome {
    match made {
        Ok(count) => Outcome::Written(count),
        Err(RewriteStop::Unwritten(path, error)) => unwritten(path, &error),
        Err(RewriteStop::RefusedFile(failure)) => match failure.fault {
            RewriteFault::File(FileError::NoMemory) => Outcome::NoMemory,
            _ => Outcome::Refused(failure.index),
        },
    }
}

/// A call over files that writes them.
#[derive(Clone, Copy)]
pub(crate) enum Writing {
    Rename,
    Rewrite,
}

/// Appends the outcome, and how many files are written.
fn push_outcome(
    alloc: Global,
    outcome: &Outcome,
    memory: &Memory,
    out: &mut String,
) -> anyhow::Result<()> {
    let count = written(alloc, memory)?;
    let text = match outcome {
        Outcome::Written(told) => format!(in alloc; "written {told} {count}\n")?,
        Outcome::Refused(index) => format!(in alloc; "refused {index} {count}\n")?,
        Outcome::Unwritten(path) => format!(in alloc; "unwritten {path} {count}\n")?,
        Outcome::NoMemory => bail!("out of memory"),
    };
    out.push_str(text.as_str())?;
    Ok(())
}

/// Makes the call over the files, and again if it runs out of memory: then each file has its old bytes or
/// the new ones.
pub(crate) fn written_twice(
    alloc: Global,
    writing: Writing,
    refused: &mut u32,
) -> anyhow::Result<String> {
    let mut memory = memory(alloc)?;
    let mut outcome = call(alloc, writing, &mut memory)?;
    if let Outcome::NoMemory = outcome {
        *refused = refused.saturating_add(1);
        written(alloc, &memory)?;
        outcome = call(alloc, writing, &mut memory)?;
    }
    let Outcome::Written(_) = outcome else {
        bail!("not written");
    };
    Ok(format!(in alloc; "{}", written(alloc, &memory)?)?)
}

/// Makes the call over the files.
fn call<T: file_target::Target>(
    alloc: Global,
    writing: Writing,
    target: &mut T,
) -> anyhow::Result<Outcome> {
    match writing {
        Writing::Rename => crate::renames::rename(alloc, target),
        Writing::Rewrite => crate::rewrites::rewrite(alloc, target),
    }
}

/// Makes the call over files of which one read or write fails, each in turn, up to the run in which none
/// does.
pub(crate) fn failing_in_turn(alloc: Global, writing: Writing) -> anyhow::Result<String> {
    let mut out = String::new(alloc);
    for number in 1..7u32 {
        let mut target = Failing::new(memory(alloc)?, number);
        let outcome = call(alloc, writing, &mut target)?;
        push_outcome(alloc, &outcome, &target.memory, &mut out)?;
    }
    Ok(out)
}

/// What the system does not do with a file.
#[derive(Clone, Copy)]
enum Denied {
    Read,
    Write,
}

/// Makes the call over files of which the system does not read, or write, the one at `path`.
fn call_denied(
    alloc: Global,
    writing: Writing,
    path: &str,
    denied: Denied,
    out: &mut String,
) -> anyhow::Result<()> {
    let error = Some(io::Error::from(ErrorKind::PermissionDenied));
    let mut memory = memory(alloc)?;
    match denied {
        Denied::Read => memory.permit(path, error, None),
        Denied::Write => memory.permit(path, None, error),
    };
    let outcome = call(alloc, writing, &mut memory)?;
    memory.permit(path, None, None);
    push_outcome(alloc, &outcome, &memory, out)
}

/// Makes the call over files of which the system does not read one, each in turn, and then of which it does
/// not write one.
pub(crate) fn denied_in_turn(alloc: Global, writing: Writing) -> anyhow::Result<String> {
    let mut out = String::new(alloc);
    for denied in [Denied::Read, Denied::Write] {
        for (path, _, _) in FILES {
            call_denied(alloc, writing, path, denied, &mut out)?;
        }
    }
    Ok(out)
}

/// The answer of [`denied_in_turn`]: the second file stays as it is, so it is not written.
pub(crate) const DENIED: &str = "refused 0 0\nrefused 1 0\nrefused 2 0\nunwritten a.rs 0\n\
    written 2 2\nunwritten c.rs 1\n";
