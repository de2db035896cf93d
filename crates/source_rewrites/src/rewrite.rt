//! The bytes of a file are rewritten by commands.

ghost use Rattle.std.specs.Prelude.{◌≡◌, ◌+◌, ◌<◌, ◌^◌, ℕ, MatchResult, OnOk, IfErr, IfOk, Some, map, length, option_map};
ghost use Rattle.document_requests.specs.Answered.{reply as answered};
ghost use Rattle.document_requests.specs.Applied.{session};
ghost use Rattle.document_requests.specs.Asked.{change as change_in, command as command_in};
ghost use Rattle.document_requests.specs.declared.reply.Reply.{Reply};
ghost use Rattle.rust_document.specs.Difference.{told_of};
ghost use Rattle.source_rewrites.specs.Rewriting.{difference_of, refusal_of, rewriting, start_of, start_of_change, start_of_first, Rewritten};
ghost use Rattle.source_rewrites.specs.Rewrites.{IsRewritable, RefusesBytes, StopsCommands, rewritten_bytes};

use document_requests::{Change, Command, CommitRule, Refusal, Reply, answer_by, first_difference};
use line_index::{Encoding, LineCol, LineIndex};
use rust_document::{Difference, Document, OpenError};
use source_tools::{Dialect, FileError, Source, encode, text_of};
use std::alloc::{AllocError, Global};
use std::fmt;
use syntax_tree::TreeIds;

/// A file, and the commands that rewrite it.
#[derive(Drop)]
pub struct Rewrite<'a> {
    pub source: Source,
    pub commands: Vec<Command<'a>>,
}

/// A command that is refused.
#[derive(Clone, Copy, Debug, PartialEq, Eq, Drop)]
pub struct RefusedCommand {
    /// The index of the command in its list.
    pub index: usize,
    pub refusal: Refusal,
    /// The line and column of its start, in characters.
    pub place: LineCol,
    /// Of an unfaithful commit, the first difference between the rewritten tree and the reading of
    /// its text.
    pub difference: Option<Difference>,
}

/// Why a file is not rewritten.
#[derive(Debug, Drop)]
pub enum RewriteFault {
    /// The file cannot be read.
    File(FileError),
    /// A command is refused.
    Refused(RefusedCommand),
}

impl From<AllocError> for RewriteFault {
    ghost use Rattle.source_tools.specs.declared.source.FileError.TheVariants.{NoMemory};
    ghost use Rattle.source_rewrites.specs.declared.rewrite.RewriteFault.TheVariants.{File};
    ghost use Rattle.std.specs.Prelude.{◌≡◌};

    ghost from_gives = { λ _ fault. fault ≡ File NoMemory };

    fn from(_error: AllocError) -> RewriteFault {
        RewriteFault::File(FileError::NoMemory)
    }
}

/// Writes where the new text is not read as the rewritten tree.
fn write_difference<W: fmt::Write>(
    f: &mut fmt::Formatter<W>,
    difference: &Difference,
) -> fmt::Result {
    let start = difference.range.start().0;
    let end = difference.range.end().0;
    write!(f, ": bytes {start}..{end} of the new text are ")?;
    match (difference.wanted, difference.read) {
        (Some(wanted), Some(read)) => write!(f, "{wanted:?}, but read as {read:?}"),
        (Some(wanted), None) => write!(f, "{wanted:?}, but not read as a part of that node"),
        (None, Some(read)) => write!(f, "no part of that node, but read as {read:?}"),
        (None, None) => Ok(()),
    }
}

impl fmt::Display for RewriteFault {
    fn fmt<W: fmt::Write>(&self, f: &mut fmt::Formatter<W>) -> fmt::Result {
        match self {
            RewriteFault::File(error) => write!(f, "{error}"),
            RewriteFault::Refused(refused) => {
                let line = refused.place.line.saturating_add(1);
                let column = refused.place.col.saturating_add(1);
                let index = refused.index;
                let name = refused.refusal.name();
                write!(f, "{line}:{column}: command {index} is refused: {name}")?;
                match &refused.difference {
                    Some(difference) => write_difference(f, difference),
                    None => Ok(()),
                }
            }
        }
    }
}

/// Returns the refusal that a reply is, if it is one.
fn refusal_of(reply: &Reply) -> Option<Refusal>
    ensures { result ≡ refusal_of (answered reply.now) }
{
    match reply {
        Reply::Refused(refusal) => Some(*refusal),
        Reply::Edit => None,
        Reply::Commit { changed: _ } => None,
        Reply::Tree { lines: _ } => None,
        Reply::Errors { list: _ } => None,
    }
}

/// Returns the byte that a change starts at.
fn change_start(change: Change<'_>) -> u64
    ensures { result ≡ start_of_change (change_in change.entry) }
{
    match change {
        Change::Put {
            op: _,
            target,
            entry: _,
            text: _,
        } => target.start,
        Change::Delete { target } => target.start,
    }
}

/// Returns the byte that the first change starts at, or 0 if there is none.
fn first_start(changes: &[Change<'_>]) -> u64
    ensures { result ≡ start_of_first (map change_in changes.now) }
{
    match changes {
        [] => 0,
        [first, ..] => change_start(*first),
    }
}

/// Returns the byte that a command begins with.
fn command_start(command: &Command<'_>) -> u64
    ensures { result ≡ start_of (command_in command.now) }
{
    match command {
        Command::Edit {
            start,
            stop: _,
            text: _,
        } => *start,
        Command::Commit { changes } => first_start(changes),
        Command::Tree => 0,
        Command::Errors => 0,
    }
}

/// Returns the first difference between the rewritten tree of a commit and the reading of its text,
/// if the commit is unfaithful.
fn difference_of(
    alloc: Global,
    document: &Document,
    command: &Command<'_>,
    ids: &mut TreeIds,
) -> Result<Option<Difference>, AllocError>
    ensures { IfOk result (λ found. option_map told_of found
        ≡ difference_of (command_in command.now) (session document.now ids.old)) }
{
    match command {
        Command::Commit { changes } => first_difference(alloc, document, changes, ids),
        Command::Edit {
            start: _,
            stop: _,
            text: _,
        } => Ok(None),
        Command::Tree => Ok(None),
        Command::Errors => Ok(None),
    }
}

/// Does the commands in order, up to the first that is refused.
fn run_commands(
    alloc: Global,
    rule: CommitRule,
    document: &mut Document,
    commands: &[Command<'_>],
    ids: &mut TreeIds,
) -> Result<(), RewriteFault>
    ensures done { OnOk result
        (rewriting rule 0 (map command_in commands.now) (session document.old ids.old)
        ≡ Rewritten document.new.text) }
    ensures stopped { IfErr result (StopsCommands
        (rewriting rule 0 (map command_in commands.now) (session document.old ids.old))) }
{
    for (index, command) in commands.iter().enumerate() {
        let reply = answer_by(alloc, rule, document, command, ids)?;
        if let Some(refusal) = refusal_of(&reply) {
            let lines = LineIndex::try_new(alloc, document.text())?;
            let place = lines.line_col(Encoding::Utf32, command_start(command) as usize);
            let difference = difference_of(alloc, document, command, ids)?;
            return Err(RewriteFault::Refused(RefusedCommand {
                index,
                refusal,
                place,
                difference,
            }));
        }
    }
    Ok(())
}

/// Returns the bytes of a file after its commands. `rewrite.source.path` is not read.
///
/// # Errors
///
/// - [`RewriteFault::File`] if the bytes are not UTF-8, the text is too long, or out of memory.
/// - [`RewriteFault::Refused`] if a command is refused.
pub fn rewrite_bytes(
    alloc: Global,
    rule: CommitRule,
    rewrite: &Rewrite<'_>,
    bytes: &[u8],
) -> Result<Vec<u8>, RewriteFault>
    ensures { MatchResult result
        (λ new. rewritten_bytes rule rewrite.now bytes.now ≡ Some new.items)
        (RefusesBytes rule rewrite.now bytes.now) }
{
    let Some(text) = text_of(bytes) else {
        return Err(RewriteFault::File(FileError::NotUtf8));
    };
    let mut ids = TreeIds::new();
    let Dialect { edition, grammar } = rewrite.source.dialect;
    let mut document = match Document::open_by(alloc, edition, grammar, text, &mut ids) {
        Ok(document) => document,
        Err(OpenError::TooLong) => return Err(RewriteFault::File(FileError::TooLong)),
        Err(OpenError::NoTreeNumber) => unreachable!(),
        Err(OpenError::NoMemory) => return Err(RewriteFault::File(FileError::NoMemory)),
    };
    run_commands(
        alloc,
        rule,
        &mut document,
        rewrite.commands.as_slice(),
        &mut ids,
    )?;
    let new = encode(alloc, bytes, document.text())?;
    Ok(new)
}
