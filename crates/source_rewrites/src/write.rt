//! Files are rewritten and written.

ghost use Rattle.std.specs.Prelude.{IfErr, IfOk};
ghost use Rattle.source_rewrites.specs.Rewrites.{RefusesRewrite, Rewrites, StopsRewrite};

use crate::plan::{RewriteFailure, plan_rewrites};
use crate::rewrite::Rewrite;
use document_requests::CommitRule;
use file_target::{Target, TargetError};
use source_tools::{WriteFault, write_changes};
use std::alloc::Global;

/// Why a rewrite stopped.
#[derive(Debug, Drop)]
pub enum RewriteStop {
    /// A file cannot be rewritten. No file is written.
    RefusedFile(RewriteFailure),
    /// The file at the path could not be written. Those before it, if there are any, are written.
    Unwritten(String, TargetError),
}

/// Rewrites the files by their commands, and writes those whose bytes change, in order. Returns how many
/// are written.
///
/// # Errors
///
/// - [`RewriteStop::RefusedFile`] for the first file that cannot be rewritten; then no file is written.
/// - [`RewriteStop::Unwritten`] for the first file that cannot be written; those before it, if there are
///   any, are written.
pub fn rewrite_files<T: Target>(
    alloc: Global,
    rule: CommitRule,
    target: &mut T,
    rewrites: &[Rewrite<'_>],
) -> Result<usize, RewriteStop>
    ensures rewritten { IfOk result
        (Rewrites rule rewrites.now (T.files target.old) (T.files target.new)) }
    ensures stopped { IfErr result
        (StopsRewrite rule rewrites.now T.files target.old target.new) }
    ensures refused { IfErr result (RefusesRewrite rule rewrites.now (T.files target.old)) }
{
    let mut changes = match plan_rewrites(alloc, rule, &*target, rewrites) {
        Ok(changes) => changes,
        Err(failure) => return Err(RewriteStop::RefusedFile(failure)),
    };
    match write_changes(alloc, target, changes.as_slice()) {
        Ok(()) => Ok(changes.len()),
        Err(WriteFault { index, error }) => {
            let path = changes.swap_remove(index).into_path();
            Err(RewriteStop::Unwritten(path, error))
        }
    }
}
