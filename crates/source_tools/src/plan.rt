//! Renamings of files are planned.

ghost use Rattle.std.specs.Prelude.{◌≡◌, ◌++◌, IfErr, IfSome, Ok, OnOk};
ghost use Rattle.std.specs.Option.{option_to_list};
ghost use Rattle.source_tools.specs.declared.source.FileError.TheVariants.{NoMemory};
ghost use Rattle.source_tools.specs.declared.renaming.RenameFault.TheVariants.{File};
ghost use Rattle.source_tools.specs.Renames.{IsPlan, IsRenamedFile, IsRenamedRead};

use crate::renaming::{RenameFault, Renaming, rename_bytes};
use crate::source::{FileError, Source};
use crate::writes::FileChange;
use file_target::{Contents, Target};
use std::alloc::Global;

/// A file that is not renamed in, and why.
#[derive(Debug, Drop)]
pub struct RenameFailure {
    /// The index of the file in the list.
    pub index: usize,
    pub fault: RenameFault,
}

/// Returns the change that the renamings make of a file with these contents, or `None` if its bytes
/// stay.
fn change_of(
    alloc: Global,
    renamings: &[Renaming<'_>],
    source: &Source,
    contents: Contents,
) -> Result<Option<FileChange>, RenameFault>
    ensures { IsRenamedRead renamings.now source.now (Ok (contents.bytes.items, contents.version))
        result }
{
    let Contents {
        bytes: old,
        version,
    } = contents;
    let new = match rename_bytes(alloc, renamings, source.dialect, old.as_slice()) {
        Ok(new) => new,
        Err(fault) => return Err(fault),
    };
    if new.as_slice() == old.as_slice() {
        return Ok(None);
    }
    let Ok(path) = source.path.clone() else {
        return Err(RenameFault::File(FileError::NoMemory));
    };
    Ok(Some(FileChange {
        path,
        version,
        old,
        new,
    }))
}

/// Returns the change that the renamings make of a file, or `None` if its bytes stay.
fn rename_file<T: Target>(
    alloc: Global,
    renamings: &[Renaming<'_>],
    target: &T,
    source: &Source,
) -> Result<Option<FileChange>, RenameFault>
    ensures { IfSome (T.files target.now)
        (λ files. IsRenamedFile renamings.now files source.now result) }
{
    match target.read(alloc, source.path.as_str()) {
        Ok(contents) => change_of(alloc, renamings, source, contents),
        Err(error) => Err(RenameFault::File(FileError::from(error))),
    }
}

/// Appends a change, if there is one.
fn push_change(change: Option<FileChange>, changes: &mut Vec<FileChange>) -> Result<(), RenameFault>
    ensures pushed { OnOk result (changes.new.items ≡ changes.old.items ++ option_to_list change) }
    ensures memory { IfErr result (λ fault. fault ≡ File NoMemory) }
{
    match change {
        None => Ok(()),
        Some(change) => match changes.push(change) {
            Ok(()) => Ok(()),
            Err(_) => Err(RenameFault::File(FileError::NoMemory)),
        },
    }
}

/// Returns the changes that the renamings make of the files, each on what the one before it left, in
/// order. Nothing is written.
///
/// # Errors
///
/// The first file that the target does not read, or that cannot be renamed in.
pub fn plan_renames<T: Target>(
    alloc: Global,
    renamings: &[Renaming<'_>],
    target: &T,
    sources: &[Source],
) -> Result<Vec<FileChange>, RenameFailure>
    ensures { IfSome (T.files target.now)
        (λ files. IsPlan renamings.now files sources.now result) }
{
    let mut changes = Vec::new(alloc);
    for (index, source) in sources.iter().enumerate() {
        let change = match rename_file(alloc, renamings, target, source) {
            Ok(change) => change,
            Err(fault) => return Err(RenameFailure { index, fault }),
        };
        match push_change(change, &mut changes) {
            Ok(()) => {}
            Err(fault) => return Err(RenameFailure { index, fault }),
        }
    }
    Ok(changes)
}
