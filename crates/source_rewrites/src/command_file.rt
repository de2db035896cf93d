//! The commands of files.

ghost use Rattle.std.specs.Prelude.{◌≡◌, IfOk, map, option_map};
ghost use Rattle.serde_json.specs.View.{view};
ghost use Rattle.source_rewrites.specs.CommandFile.{asked, asked_of};

use document_requests::{Command, commands_of};
use rust_document::Grammar;
use serde_json::Value;
use std::alloc::{AllocError, Global};

/// The path of a file, and its commands.
#[derive(Drop)]
pub struct FileCommands<'a> {
    pub path: &'a str,
    pub commands: Vec<Command<'a>>,
}

/// Returns the commands of each file that an object lists by path, in order of path; `None` if `value`
/// is no object of lists of commands on documents that are read by `grammar`.
///
/// # Errors
///
/// Out of memory.
pub fn commands_of_files(
    alloc: Global,
    grammar: Grammar,
    value: &Value,
) -> Result<Option<Vec<FileCommands<'_>>>, AllocError>
    ensures { IfOk result (λ found. option_map (λ files. map asked files.items) found
        ≡ asked_of grammar (view value.now)) }
{
    let Some(members) = value.as_object() else {
        return Ok(None);
    };
    let mut files = Vec::new(alloc);
    for (path, list) in members.iter() {
        let Some(commands) = commands_of(alloc, grammar, list)? else {
            return Ok(None);
        };
        files.push(FileCommands {
            path: path.as_str(),
            commands,
        })?;
    }
    Ok(Some(files))
}
