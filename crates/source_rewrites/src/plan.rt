//! Rewrites of files are planned.

ghost use Rattle.std.specs.Prelude.{◌≡◌, ◌++◌, IfErr, IfSome, Ok, OnOk};
ghost use Rattle.std.specs.Option.{option_to_list};
ghost use Rattle.source_tools.specs.declared.source.FileError.TheVariants.{NoMemory};
ghost use Rattle.source_rewrites.specs.declared.rewrite.RewriteFault.TheVariants.{File};
ghost use Rattle.source_rewrites.specs.Rewrites.{IsPlan, IsRewrittenFile, IsRewrittenRead};

use crate::rewrite::{Rewrite, RewriteFault, rewrite_bytes};
use document_requests::CommitRule;
use file_target::{Contents, Target};
use source_tools::{FileChange, FileError};
use std::alloc::Global;

/// A file that is not rewritten, and why.
#[derive(Debug, Drop)]
pub struct RewriteFailure {
    /// The index of the file in the list.
    pub index: usize,
    pub fault: RewriteFault,
}

/// Returns the change that the commands make of a file with these contents, or `None` if its bytes
/// stay.
fn change_of(
    alloc: Global,
    rule: CommitRule,
    rewrite: &Rewrite<'_>,
    contents: Contents,
) -> Result<Option<FileChange>, RewriteFault>
    ensures { IsRewrittenRead rule rewrite.now (Ok (contents.bytes.items, contents.version))
        result }
{
    let Contents {
        bytes: old,
        version,
    } = contents;
    let new = match rewrite_bytes(alloc, rule, rewrite, old.as_slice()) {
        Ok(new) => new,
        Err(fault) => return Err(fault),
    };
    if new.as_slice() == old.as_slice() {
        return Ok(None);
    }
    let Ok(path) = rewrite.source.path.clone() else {
        return Err(RewriteFault::File(FileError::NoMemory));
    };
    Ok(Some(FileChange {
        path,
        version,
        old,
        new,
    }))
}

/// Returns the change that the commands make of a file, or `None` if its bytes stay.
fn rewrite_file<T: Target>(
    alloc: Global,
    rule: CommitRule,
    target: &T,
    rewrite: &Rewrite<'_>,
) -> Result<Option<FileChange>, RewriteFault>
    ensures { IfSome (T.files target.now)
        (λ files. IsRewrittenFile rule files rewrite.now result) }
{
    match target.read(alloc, rewrite.source.path.as_str()) {
        Ok(contents) => change_of(alloc, rule, rewrite, contents),
        Err(error) => Err(RewriteFault::File(FileError::from(error))),
    }
}

/// Appends a change, if there is one.
fn push_change(
    change: Option<FileChange>,
    changes: &mut Vec<FileChange>,
) -> Result<(), RewriteFault>
    ensures pushed { OnOk result (changes.new.items ≡ changes.old.items ++ option_to_list change) }
    ensures memory { IfErr result (λ fault. fault ≡ File NoMemory) }
{
    match change {
        None => Ok(()),
        Some(change) => match changes.push(change) {
            Ok(()) => Ok(()),
            Err(_) => Err(RewriteFault::File(FileError::NoMemory)),
        },
    }
}

/// Returns the changes that the commands make of the files, in order. Nothing is written.
///
/// # Errors
///
/// The first file that the target does not read, or that cannot be rewritten.
pub fn plan_rewrites<T: Target>(
    alloc: Global,
    rule: CommitRule,
    target: &T,
    rewrites: &[Rewrite<'_>],
) -> Result<Vec<FileChange>, RewriteFailure>
    ensures { IfSome (T.files target.now)
        (λ files. IsPlan rule files rewrites.now result) }
{
    let mut changes = Vec::new(alloc);
    for (index, rewrite) in rewrites.iter().enumerate() {
        let change = match rewrite_file(alloc, rule, target, rewrite) {
            Ok(change) => change,
            Err(fault) => return Err(RewriteFailure { index, fault }),
        };
        match push_change(change, &mut changes) {
            Ok(()) => {}
            Err(fault) => return Err(RewriteFailure { index, fault }),
        }
    }
    Ok(changes)
}
