//! Commands under a rule for commits.
ghost use Rattle.std.specs.Prelude.{◌≡◌, map, IfErr, IfOk, OnErr};
ghost use Rattle.document_requests.specs.Answered.{reply as answered};
ghost use Rattle.document_requests.specs.Applied.{session, IsStopped, TakesSome};
ghost use Rattle.document_requests.specs.Asked.{change as change_in, command as command_in};
ghost use Rattle.document_requests.specs.Rules.{answer_by, clean_answer, clean_committed};

use crate::apply::{answer, prepare_all};
use crate::reply::Reply;
use crate::request::{Change, Command};
use crate::stop::Stop;
use rust_document::Document;
use std::alloc::{AllocError, Global};
use syntax_tree::TreeIds;

/// A rule for commits.
#[derive(Clone, Copy, Debug, PartialEq, Eq, Drop)]
pub enum CommitRule {
    /// The new text reads as the rewritten tree.
    Faithful,
    /// It does, and neither the present nor the new text has messages.
    WithoutMessages,
}

/// Commits changes, where neither text has messages.
fn commit_clean(
    alloc: Global,
    document: &mut Document,
    changes: &[Change<'_>],
    ids: &mut TreeIds,
) -> Result<Reply, Stop>
    ensures done { IfOk result (λ reply.
        clean_committed (map change_in changes.now) (session document.old ids.old)
        ≡ record { reply = answered reply; after = session document.new ids.new }) }
    ensures stopped { IfErr result (IsStopped
        (clean_committed (map change_in changes.now) (session document.old ids.old))
        (session document.new ids.new)) }
    ensures numbers { OnErr result (TakesSome ids.old ids.new
        (clean_committed (map change_in changes.now) (session document.old ids.old)).after.next) }
    ensures kept { OnErr result (document.new ≡ document.old) }
{
    let mut editor = document.editor(alloc)?;
    prepare_all(alloc, document, &mut editor, changes, ids)?;
    let committed = document.commit_without_messages(alloc, editor, ids)?;
    prove!(document.root().tree() <= u32::MAX);
    Ok(Reply::Commit {
        changed: committed.changed,
    })
}

/// Answers a commit, where neither text has messages.
fn answer_commit(
    alloc: Global,
    document: &mut Document,
    changes: &[Change<'_>],
    ids: &mut TreeIds,
) -> Result<Reply, AllocError>
    ensures done { IfOk result (λ reply.
        clean_committed (map change_in changes.now) (session document.old ids.old)
        ≡ record { reply = answered reply; after = session document.new ids.new }) }
    ensures numbers { OnErr result (TakesSome ids.old ids.new
        (clean_committed (map change_in changes.now) (session document.old ids.old)).after.next) }
    ensures kept { OnErr result (document.new ≡ document.old) }
{
    match commit_clean(alloc, document, changes, ids) {
        Ok(reply) => Ok(reply),
        Err(Stop::Refused(refusal)) => Ok(Reply::Refused(refusal)),
        Err(Stop::NoMemory) => Err(AllocError),
    }
}

/// Answers a command, where a commit is to leave no messages.
fn answer_clean(
    alloc: Global,
    document: &mut Document,
    command: &Command<'_>,
    ids: &mut TreeIds,
) -> Result<Reply, AllocError>
    ensures done { IfOk result (λ reply.
        clean_answer (command_in command.now) (session document.old ids.old)
        ≡ record { reply = answered reply; after = session document.new ids.new }) }
    ensures numbers { OnErr result (TakesSome ids.old ids.new
        (clean_answer (command_in command.now) (session document.old ids.old)).after.next) }
    ensures kept { OnErr result (document.new ≡ document.old) }
{
    match command {
        Command::Commit { changes } => answer_commit(alloc, document, changes, ids),
        Command::Edit {
            start: _,
            stop: _,
            text: _,
        } => answer(alloc, document, command, ids),
        Command::Tree => answer(alloc, document, command, ids),
        Command::Errors => answer(alloc, document, command, ids),
    }
}

/// Does a command under a rule for commits, and returns its answer.
///
/// # Errors
///
/// [`AllocError`] if an allocation fails. Then `document` is unchanged, and of the tree numbers that
/// the command takes some may be used up.
pub fn answer_by(
    alloc: Global,
    rule: CommitRule,
    document: &mut Document,
    command: &Command<'_>,
    ids: &mut TreeIds,
) -> Result<Reply, AllocError>
    ensures done { IfOk result (λ reply.
        answer_by rule (command_in command.now) (session document.old ids.old)
        ≡ record { reply = answered reply; after = session document.new ids.new }) }
    ensures numbers { OnErr result (TakesSome ids.old ids.new
        (answer_by rule (command_in command.now) (session document.old ids.old)).after.next) }
    ensures kept { OnErr result (document.new ≡ document.old) }
{
    match rule {
        CommitRule::Faithful => answer(alloc, document, command, ids),
        CommitRule::WithoutMessages => answer_clean(alloc, document, command, ids),
    }
}
