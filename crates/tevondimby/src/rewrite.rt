//! Files are rewritten by commands.

use anyhow::{Result, anyhow};
use clap::ArgMatches;
use command_inputs::{
    Dialects, Inputs, STANDARD_INPUT, file_id, print_diffs, print_paths, print_ranges,
    report_unwritten, report_written, usage_error,
};
use command_reasons::why_no_command;
use command_report::Outcome;
use document_requests::{CommitRule, commands_of};
use file_paths::{FileId, first_same};
use file_target::Target;
use rust_document::Grammar;
use serde_json::Value;
use source_rewrites::{
    FileCommands, Rewrite, RewriteFailure, RewriteStop, commands_of_files, plan_rewrites,
    rewrite_files,
};
use source_tools::Source;
use std::alloc::AllocError;

/// Returns the identities of the files, as far as the system tells them.
fn ids_of(rt: &HostRuntime, files: &[FileCommands<'_>]) -> Result<Vec<Option<FileId>>, AllocError> {
    let mut ids = Vec::new(rt.alloc());
    for file in files {
        ids.push(file_id(rt, file.path))?;
    }
    Ok(ids)
}

/// Returns the rewrites of the files, each read as its own Rust. Of paths that lead to one file the
/// commands are done one after another.
fn rewrites_of<'a>(
    rt: &HostRuntime,
    dialects: &mut Dialects<'_>,
    files: Vec<FileCommands<'a>>,
) -> Result<Vec<Rewrite<'a>>, AllocError> {
    let ids = ids_of(rt, files.as_slice())?;
    let mut rewrites: Vec<Rewrite<'a>> = Vec::new(rt.alloc());
    // The index in `rewrites` of each file so far.
    let mut places: Vec<usize> = Vec::new(rt.alloc());
    for (index, file) in files.into_iter().enumerate() {
        let mut commands = file.commands;
        let first = if index < ids.len() {
            first_same(ids.as_slice(), index)
        } else {
            index
        };
        let place = places.get(first).copied().unwrap_or(rewrites.len());
        match rewrites.get_mut(place) {
            Some(rewrite) => rewrite.commands.append(&mut commands)?,
            None => {
                let dialect = dialects.dialect(file.path)?;
                let path = String::from_str(rt.alloc(), file.path)?;
                let source = Source { path, dialect };
                rewrites.push(Rewrite { source, commands })?;
            }
        }
        places.push(place)?;
    }
    Ok(rewrites)
}

/// Names the file that stopped a rewrite.
fn report_stop(rt: &HostRuntime, rewrites: &[Rewrite<'_>], stop: &RewriteStop) -> Outcome {
    match stop {
        RewriteStop::RefusedFile(RewriteFailure { index, fault }) => {
            let path = match rewrites.get(*index) {
                Some(rewrite) => rewrite.source.path.as_str(),
                None => "",
            };
            let _ = eprintln!(rt; "tevondimby: {path}: {fault}; no file is written");
        }
        RewriteStop::Unwritten(path, error) => report_unwritten(rt, path.as_str(), error),
    }
    Outcome::Fault
}

/// Rewrites files, and writes them or prints a diff.
fn run_rewrites(
    rt: &HostRuntime,
    matches: &ArgMatches<'_>,
    rewrites: &[Rewrite<'_>],
) -> Result<Outcome> {
    let rule = if matches.get_flag("allow-messages") {
        CommitRule::Faithful
    } else {
        CommitRule::WithoutMessages
    };
    let mut inputs = Inputs::new(rt);
    if matches.get_flag("write") {
        return Ok(
            match rewrite_files(rt.alloc(), rule, &mut inputs, rewrites) {
                Ok(count) => {
                    if !matches.get_flag("quiet") {
                        report_written(rt, count);
                    }
                    Outcome::Done
                }
                Err(stop) => report_stop(rt, rewrites, &stop),
            },
        );
    }
    let changes = match plan_rewrites(rt.alloc(), rule, &inputs, rewrites) {
        Ok(changes) => changes,
        Err(failure) => return Ok(report_stop(rt, rewrites, &RewriteStop::RefusedFile(failure))),
    };
    if matches.get_flag("json") {
        print_ranges(rt, changes.as_slice())?;
        return Ok(Outcome::Done);
    }
    if !matches.get_flag("check") {
        print_diffs(rt, changes)?;
        return Ok(Outcome::Done);
    }
    print_paths(rt, changes.as_slice())?;
    Ok(if changes.is_empty() {
        Outcome::Done
    } else {
        Outcome::Found
    })
}

/// Returns `true` if standard input is one of the files.
fn names_input(files: &[FileCommands<'_>]) -> bool {
    for file in files {
        if file.path == STANDARD_INPUT {
            return true;
        }
    }
    false
}

/// Returns the index of the first value that is no command, if there is one.
fn no_command(
    rt: &HostRuntime,
    grammar: Grammar,
    values: &[Value],
) -> Result<Option<usize>, AllocError> {
    for (index, value) in values.iter().enumerate() {
        let mut one = Vec::new(rt.alloc());
        one.push(value.clone()?)?;
        if commands_of(rt.alloc(), grammar, &Value::Array(one))?.is_none() {
            return Ok(Some(index));
        }
    }
    Ok(None)
}

/// Returns why a value is no object of lists of commands.
fn why_no_commands(
    rt: &HostRuntime,
    grammar: Grammar,
    path: &str,
    value: &Value,
) -> Result<anyhow::Error, AllocError> {
    let Some(members) = value.as_object() else {
        return Ok(anyhow!("{path}: is no object of lists of commands"));
    };
    for (name, list) in members.iter() {
        let Some(values) = list.as_array() else {
            return Ok(anyhow!("{path}: {name}: is no list of commands"));
        };
        if let Some(index) = no_command(rt, grammar, values.as_slice())? {
            let why = match values.as_slice().get(index) {
                Some(value) => why_no_command(rt.alloc(), value)?,
                None => String::new(rt.alloc()),
            };
            return Ok(anyhow!("{path}: {name}, command {index}: {why}"));
        }
    }
    Ok(anyhow!("{path}: is no object of lists of commands"))
}

/// Rewrites files by the commands in a file.
pub(crate) fn rewrite(rt: &HostRuntime, matches: &ArgMatches<'_>) -> Result<Outcome> {
    let path = matches.get_str("commands").unwrap_or("");
    let contents = match Inputs::new(rt).read(rt.alloc(), path) {
        Ok(contents) => contents,
        Err(error) => return Err(anyhow!("{path}: {error}")),
    };
    let Ok(text) = str::from_utf8(contents.bytes.as_slice()) else {
        return Err(anyhow!("{path}: is not UTF-8"));
    };
    let value = match Value::from_str(rt.alloc(), text) {
        Ok(value) => value,
        Err(error) => return Err(anyhow!("{path}: {error}")),
    };
    let mut dialects = Dialects::new(rt, matches);
    let Some(files) = commands_of_files(rt.alloc(), dialects.grammar, &value)? else {
        return Err(why_no_commands(rt, dialects.grammar, path, &value)?);
    };
    if matches.get_flag("write") && names_input(files.as_slice()) {
        return Ok(usage_error(
            rt,
            "`-` is standard input, which is not written: leave out --write",
        ));
    }
    let rewrites = rewrites_of(rt, &mut dialects, files)?;
    run_rewrites(rt, matches, rewrites.as_slice())
}
