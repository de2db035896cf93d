//! A command is run.

use crate::rewrite::rewrite;
use crate::serve::serve;
use crate::version::version_of;
use crate::view::view;
use anyhow::{Result, anyhow};
use clap::ArgMatches;
use command_inputs::is_closed;
use command_options::command;
use command_patterns::{replace_files, search};
use command_renames::rename;
use command_report::Outcome;
use lsp_command::serve_editor;
use source_tools::{Format, View};
use std::env;
use std::io::ErrorKind;

/// Returns the format that the flags ask for.
fn format_of(matches: &ArgMatches<'_>) -> Format {
    if matches.get_flag("json") {
        Format::Json
    } else {
        Format::Text
    }
}

/// Returns the words of the command line.
fn arguments(rt: &HostRuntime) -> Result<Vec<String>> {
    let words = match env::args(rt) {
        Ok(words) => words,
        Err(error) if error.kind() == ErrorKind::OutOfMemory => {
            return Err(anyhow::Error::from(error));
        }
        Err(error) => return Err(anyhow!("an argument is not UTF-8: {error}")),
    };
    let words: Vec<String> = words.collect(rt.alloc())?;
    Ok(words)
}

/// Runs the command of the command line.
pub(crate) fn run(rt: &HostRuntime) -> Result<Outcome> {
    let alloc = rt.alloc();
    let words = arguments(rt)?;
    let version = version_of(rt, words.as_slice())?;
    let matches = match command(alloc, version.as_str())?.try_get_matches_from(words.as_slice()) {
        Ok(matches) => matches,
        Err(error) => {
            let outcome = if error.exit_code() == 0 {
                Outcome::Done
            } else {
                Outcome::Fault
            };
            return match error.print(rt) {
                Ok(()) => Ok(outcome),
                Err(error) if is_closed(&error) => Ok(outcome),
                Err(error) => Err(anyhow::Error::from(error)),
            };
        }
    };
    match matches.subcommand() {
        Some(("check", matches)) => view(rt, View::Messages(format_of(matches)), matches),
        Some(("tokens", matches)) => view(rt, View::Tokens(format_of(matches)), matches),
        Some(("tree", matches)) => view(rt, View::Tree(format_of(matches)), matches),
        Some(("search", matches)) => search(rt, matches),
        Some(("rename", matches)) => rename(rt, matches),
        Some(("replace", matches)) => replace_files(rt, matches),
        Some(("rewrite", matches)) => rewrite(rt, matches),
        Some(("serve", _)) => serve(rt),
        Some(("lsp", matches)) => Ok(serve_editor(rt, matches)),
        _ => Ok(Outcome::Fault),
    }
}
