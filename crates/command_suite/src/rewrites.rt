//! Rewrites of files by commands.
use crate::files::source;
use crate::outcome::{
    DENIED, Outcome, Writing, denied_in_turn, failing_in_turn, of_rewrite, written_twice,
};
use anyhow::bail;
use document_requests::CommitRule;
use file_target::{Memory, Target};
use memory_table::row::{Ask, Row};
use rust_document::Grammar;
use serde_json::Value;
use source_rewrites::{
    FileCommands, Rewrite, RewriteFault, commands_of_files, plan_rewrites, rewrite_files,
};
use std::alloc::Global;

/// The calls that rewrite.
#[derive(Clone, Copy)]
pub(crate) enum RewriteCall {
    Files,
    Failing,
    Denied,
    Reason,
}

/// What `RENAMED` renames is renamed by commands: a name by an edit, one by a commit, and a name
/// that stays.
const COMMANDS: &str =
    r#"{"a.rs":[{"do":"edit","start":3,"end":6,"text":"new"}],"b.rs":[{"do":"tree"}],"c.rs":[{"do":"commit","changes":[{"op":"replace","at":["IDENT",4,7],"with":["token","new"]}]}]}"#;

/// A commit that puts a sum for a factor.
const UNFAITHFUL: &str =
    r#"{"a.rs":[{"do":"commit","changes":[{"op":"replace","at":["PATH_EXPR",9,10],"with":["expr","1 + 2"]}]}]}"#;

/// Returns the rewrites of files.
fn rewrites(alloc: Global, files: Vec<FileCommands<'_>>) -> anyhow::Result<Vec<Rewrite<'_>>> {
    let mut rewrites = Vec::new(alloc);
    for file in files {
        rewrites.push(Rewrite {
            source: source(alloc, file.path)?,
            commands: file.commands,
        })?;
    }
    Ok(rewrites)
}

/// Rewrites the files.
pub(crate) fn rewrite<T: Target>(alloc: Global, target: &mut T) -> anyhow::Result<Outcome> {
    let value = Value::from_str(alloc, COMMANDS)?;
    let Some(files) = commands_of_files(alloc, Grammar::Whole, &value)? else {
        bail!("no commands");
    };
    let rewrites = rewrites(alloc, files)?;
    let rule = CommitRule::WithoutMessages;
    let result = rewrite_files(alloc, rule, target, rewrites.as_slice());
    Ok(of_rewrite(result))
}

/// Returns why a commit is refused.
fn reason(alloc: Global) -> anyhow::Result<String> {
    let mut memory = Memory::new(alloc);
    memory.add(alloc, "a.rs", b"fn f() { a * 2 }")?;
    let value = Value::from_str(alloc, UNFAITHFUL)?;
    let Some(files) = commands_of_files(alloc, Grammar::Whole, &value)? else {
        bail!("no commands");
    };
    let rewrites = rewrites(alloc, files)?;
    match plan_rewrites(alloc, CommitRule::Faithful, &memory, rewrites.as_slice()) {
        Ok(_) => bail!("not refused"),
        Err(failure) => match &failure.fault {
            RewriteFault::File(error) => bail!("{error}"),
            RewriteFault::Refused(_) => Ok(format!(in alloc; "{}", failure.fault)?),
        },
    }
}

impl Ask for RewriteCall {
    fn answer(self, alloc: Global, refused: &mut u32) -> anyhow::Result<String> {
        match self {
            RewriteCall::Files => written_twice(alloc, Writing::Rewrite, refused),
            RewriteCall::Failing => failing_in_turn(alloc, Writing::Rewrite),
            RewriteCall::Denied => denied_in_turn(alloc, Writing::Rewrite),
            RewriteCall::Reason => reason(alloc),
        }
    }
}

/// The first three calls read, the next two write.
const FAILURES: &str = "refused 0 0\nrefused 1 0\nrefused 2 0\nunwritten a.rs 0\nunwritten c.rs 1\n\
    written 2 2\n";

pub(crate) const ROWS: &[Row<RewriteCall>] = &[
    ("source_rewrites::rewrite_files", RewriteCall::Files, "2"),
    (
        "source_rewrites::rewrite_files over failing files",
        RewriteCall::Failing,
        FAILURES,
    ),
    (
        "source_rewrites::rewrite_files over files that the system does not read or write",
        RewriteCall::Denied,
        DENIED,
    ),
    (
        "source_rewrites::plan_rewrites, document_requests::first_difference",
        RewriteCall::Reason,
        "1:10: command 0 is refused: Unfaithful: bytes 9..14 of the new text are BIN_EXPR, but read as LITERAL",
    ),
];
