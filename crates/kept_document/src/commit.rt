//! Commits of a kept document, given as JSON.
ghost use Rattle.std.specs.Prelude.{◌≡◌, ◌⊎◌, None, Some, map, option_map, IfErr, IfOk, IfSome, MatchOption, MatchResult, OnErr, OnOk};
ghost use Rattle.std.specs.Str.{IsUtf8};
ghost use Rattle.serde_json.specs.Read.{read};
ghost use Rattle.serde_json.specs.View.{view};
ghost use Rattle.document_requests.specs.Answered.{ends_of, reply as answered};
ghost use Rattle.document_requests.specs.Asked.{change as change_in, command as command_in};
ghost use Rattle.document_requests.specs.Reply.{Changed};
ghost use Rattle.kept_document.specs.Commits.{IsCommitted, RefusesCommand, RefusesCommit, RefusesReply, commit_in, only_commit};

use crate::commit_levels::test_levels;
use crate::kept::{Kept, text_of};
use crate::reason::Reason;
use document_requests::{Change, Command, CommitRule, Reply, answer_by, commands_of};
use rowan_green::TextRange;
use serde_json::{Category, Value};
use std::alloc::{AllocError, Global};

/// Returns the value of a text, if it is JSON.
pub(crate) fn value_of(alloc: Global, text: &str) -> Result<Option<Value>, AllocError>
    ensures { IfOk result (λ found. option_map view found ≡ read text.now) }
{
    match Value::from_str(alloc, text) {
        Ok(value) => Ok(Some(value)),
        Err(error) => match error.classify() {
            Category::Memory => Err(AllocError),
            _ => Ok(None),
        },
    }
}

/// Returns the changes of a list of commands that is one commit.
fn only_commit<'c, 'v>(commands: &'c [Command<'v>]) -> Option<&'c [Change<'v>]>
    ensures { option_map (λ changes. map change_in changes.now) result
        ≡ only_commit (map command_in commands.now) }
{
    match commands {
        [command] => match command {
            Command::Commit { changes } => Some(changes.as_slice()),
            _ => None,
        },
        _ => None,
    }
}

/// Returns the ranges that an accepted commit inserted.
fn ranges_of(reply: Reply) -> Result<Vec<TextRange>, Reason>
    ensures ranges { IfOk result
        (λ ranges. answered reply ≡ Changed (map ends_of ranges.items)) }
    ensures refused { IfErr result (RefusesReply (answered reply)) }
{
    match reply {
        Reply::Commit { changed } => Ok(changed),
        Reply::Refused(refusal) => Err(Reason::from(refusal)),
        Reply::Edit => Err(Reason::NoCommand),
        Reply::Tree { lines: _lines } => Err(Reason::NoCommand),
        Reply::Errors { list: _list } => Err(Reason::NoCommand),
    }
}

impl Kept {
    /// Makes the changes of a list of commands that is one commit.
    fn commit_only(&mut self, alloc: Global, commands: &[Command<'_>]) -> Result<(), Reason>
        ensures done { OnOk result
            (IsCommitted (only_commit (map command_in commands.now)) self.old self.new) }
        ensures refused { IfErr result
            (RefusesCommand (only_commit (map command_in commands.now)) self.old self.new) }
        ensures document { OnErr result (self.new.document ≡ self.old.document) }
        ensures ranges { OnErr result (self.new.changed ≡ self.old.changed) }
    {
        let Some(changes) = only_commit(commands) else {
            return Err(Reason::NoCommand);
        };
        test_levels(alloc, &self.document, changes)?;
        let rule = CommitRule::Faithful;
        let reply = answer_by(alloc, rule, &mut self.document, &commands[0], &mut self.ids)?;
        // The document may have changed: nothing is allocated from here on.
        self.changed = ranges_of(reply)?;
        Ok(())
    }

    /// Makes the changes of one commit, given as JSON in the form of `document_requests`: a list of one
    /// command.
    ///
    /// # Errors
    ///
    /// - [`Reason::NotUtf8`] if `command` is not UTF-8.
    /// - [`Reason::NoCommand`] if `command` is not such a list.
    /// - [`Reason::TooDeep`] if a text that is to be read has more than
    ///   [`LEVELS`](text_levels::LEVELS) levels.
    /// - [`Reason::NoMemory`] if an allocation fails.
    /// - The reason of the [`Refusal`](document_requests::Refusal) of the command.
    ///
    /// On error, the text is unchanged, and tree numbers may be used up.
    pub(crate) fn commit(&mut self, alloc: Global, command: &[u8]) -> Result<(), Reason>
        ensures is_text { OnOk result (IsUtf8 command.now) }
        ensures done { OnOk result
            (IsCommitted (commit_in self.old.document.grammar command.now) self.old self.new) }
        ensures refused { IfErr result (RefusesCommit command.now self.old self.new) }
        ensures document { OnErr result (self.new.document ≡ self.old.document) }
        ensures ranges { OnErr result (self.new.changed ≡ self.old.changed) }
    {
        let text = text_of(command)?;
        let Some(value) = value_of(alloc, text)? else {
            return Err(Reason::NoCommand);
        };
        let Some(commands) = commands_of(alloc, self.document.grammar(), &value)? else {
            return Err(Reason::NoCommand);
        };
        self.commit_only(alloc, &commands)
    }
}
