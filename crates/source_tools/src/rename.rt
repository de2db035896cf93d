//! Files are renamed in and written.

ghost use Rattle.std.specs.Prelude.{IfErr, IfOk};
ghost use Rattle.source_tools.specs.Renames.{RefusesRename, Renames, StopsRename};

use crate::plan::{RenameFailure, plan_renames};
use crate::renaming::Renaming;
use crate::source::Source;
use crate::writes::{WriteFault, write_changes};
use file_target::{Target, TargetError};
use std::alloc::Global;

/// Why a renaming stopped.
#[derive(Debug, Drop)]
pub enum RenameStop {
    /// A file cannot be renamed in. No file is written.
    RefusedFile(RenameFailure),
    /// The file at the path could not be written. Those before it, if there are any, are written.
    Unwritten(String, TargetError),
}

/// Renames identifiers in the files, by one renaming after another, and writes those whose bytes change, in order. Returns how many
/// are written.
///
/// # Errors
///
/// - [`RenameStop::RefusedFile`] for the first file that cannot be renamed in; then no file is written.
/// - [`RenameStop::Unwritten`] for the first file that cannot be written; those before it, if there are
///   any, are written.
pub fn rename_files<T: Target>(
    alloc: Global,
    renamings: &[Renaming<'_>],
    target: &mut T,
    sources: &[Source],
) -> Result<usize, RenameStop>
    ensures renamed { IfOk result
        (Renames renamings.now sources.now (T.files target.old) (T.files target.new)) }
    ensures stopped { IfErr result
        (StopsRename renamings.now sources.now T.files target.old target.new) }
    ensures refused { IfErr result (RefusesRename renamings.now sources.now (T.files target.old)) }
{
    let mut changes = match plan_renames(alloc, renamings, &*target, sources) {
        Ok(changes) => changes,
        Err(failure) => return Err(RenameStop::RefusedFile(failure)),
    };
    match write_changes(alloc, target, changes.as_slice()) {
        Ok(()) => Ok(changes.len()),
        Err(WriteFault { index, error }) => {
            let path = changes.swap_remove(index).into_path();
            Err(RenameStop::Unwritten(path, error))
        }
    }
}
