//! Diffs of files, named so that `git apply` and `patch -p1` take them.

use crate::output::{is_closed, unless_closed};
use anyhow::{Result, anyhow};
use file_paths::{common_folder, name_in};
use source_tools::{FileChange, write_change_lists, write_diffs};
use std::alloc::AllocError;
use std::io::Write;
use std::{env, fs};

/// Returns the current folder without links and without a slash at its end; `None` if the system does
/// not tell it.
fn current_folder(rt: &HostRuntime) -> Option<String> {
    let Ok(folder) = env::current_dir(rt) else {
        return None;
    };
    match fs::canonicalize(rt, folder.as_path()) {
        Ok(folder) => {
            let mut folder = folder.into_string();
            if folder.as_str() == "/" {
                folder.clear();
            }
            Some(folder)
        }
        Err(_) => None,
    }
}

/// Returns the paths of the files that change, without links.
fn real_paths(rt: &HostRuntime, changes: &[FileChange]) -> Option<Vec<String>> {
    let mut paths = Vec::new(rt.alloc());
    for change in changes {
        let Ok(path) = fs::canonicalize(rt, change.path.as_str()) else {
            return None;
        };
        if paths.push(path.into_string()).is_err() {
            return None;
        }
    }
    Some(paths)
}

/// Names each change as its file is named in the innermost folder that has all of them: the current one,
/// or one around it, which standard error names.
fn name_changes(rt: &HostRuntime, changes: &mut [FileChange]) -> Result<(), AllocError> {
    let Some(current) = current_folder(rt) else {
        return Ok(());
    };
    let Some(paths) = real_paths(rt, changes) else {
        return Ok(());
    };
    let folder = common_folder(current.as_str(), paths.as_slice());
    for (change, path) in changes.iter_mut().zip(paths.as_slice()) {
        if let Some(name) = name_in(folder, path.as_str()) {
            change.path = String::from_str(rt.alloc(), name)?;
        }
    }
    if folder != current.as_str() {
        let shown = if folder.is_empty() { "/" } else { folder };
        let _ = eprintln!(rt;
            "tevondimby: the diff names files in {shown}: `git apply` and `patch -p1` take it there"
        );
    }
    Ok(())
}

/// Prints the diffs of the changes. If no reader is left, nothing more is printed.
///
/// # Errors
///
/// That the output could not be written, or that an allocation failed.
pub fn print_diffs(rt: &HostRuntime, changes: Vec<FileChange>) -> Result<()> {
    let mut changes = changes;
    name_changes(rt, changes.as_mut_slice())?;
    let _written = unless_closed(write_diffs(rt.alloc(), changes.as_slice(), &mut rt.stdout()))?;
    Ok(())
}

/// Prints the changes as ranges of bytes, in JSON. If no reader is left, nothing more is printed.
///
/// # Errors
///
/// That the output could not be written, or that an allocation failed.
pub fn print_ranges(rt: &HostRuntime, changes: &[FileChange]) -> Result<()> {
    let written = write_change_lists(rt.alloc(), changes, &mut rt.stdout());
    let _written = unless_closed(written)?;
    Ok(())
}

/// Prints the paths of the files that would change. If no reader is left, nothing more is printed.
///
/// # Errors
///
/// That the output could not be written, or that an allocation failed.
pub fn print_paths(rt: &HostRuntime, changes: &[FileChange]) -> Result<()> {
    let mut output = rt.stdout();
    for change in changes {
        let line = format!(in rt.alloc(); "{}\n", change.path)?;
        match output.write_all(line.as_str().as_bytes()) {
            Ok(()) => {}
            Err(error) if is_closed(&error) => break,
            Err(error) => return Err(anyhow!("the output could not be written: {error}")),
        }
    }
    Ok(())
}
