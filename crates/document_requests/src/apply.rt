//! Commands are done one after another.
ghost use Rattle.std.specs.Prelude.{◌≡◌, ℕ, map, option_map, is_some, IfOk, IfErr, OnOk, OnErr, IfSome};
ghost use Rattle.syntax_tree.specs.Handle.{element_of};
ghost use Rattle.rust_document.specs.Edit.{can_edit};
ghost use Rattle.document_requests.specs.Answered.{reply as answered};
ghost use Rattle.document_requests.specs.Applied.{session, IsStopped, IsUnprepared, IsWithheld, Runs, RunsFront, TakesSome};
ghost use Rattle.document_requests.specs.Asked.{change as change_in, command as command_in};
ghost use Rattle.document_requests.specs.Session.{Given, Ready, answer, committed, edited_by, found, is_only_child, number_after_preparing, number_after_taking, only_child, payload_entry, prepared, prepared_by, put_element, run, taken};

use crate::lines::tree_lines;
use crate::reply::{Refusal, Reply};
use crate::request::{Change, Command, Entry, Op, Target};
use crate::stop::Stop;
use ra_parser::TopEntryPoint;
use rowan_green::{TextRange, TextSize};
use rust_document::{Document, PayloadEntry, SyntaxEditor};
use std::alloc::{AllocError, Global};
use syntax_tree::{Position, SyntaxElement, SyntaxNode, TreeIds};

/// The element of the present tree that a target names. None where the target's start is not before
/// its end, or its end lies after the text.
fn find(
    alloc: Global,
    document: &Document,
    target: Target,
) -> Result<Option<SyntaxElement>, AllocError>
    ensures { IfOk result (λ element. option_map element_of element ≡ found document.now target) }
{
    if target.start >= target.stop || target.stop > document.text().len() as u64 {
        return Ok(None);
    }
    let start = TextSize::new(target.start as u32);
    let stop = TextSize::new(target.stop as u32);
    document.find(alloc, target.kind, TextRange::new(start, stop))
}

/// What a change has its text read as.
fn payload_entry(entry: Entry) -> PayloadEntry
    ensures { result ≡ payload_entry entry }
{
    match entry {
        Entry::Token => PayloadEntry::Token,
        Entry::Expr => PayloadEntry::Top(TopEntryPoint::Expr),
        Entry::Ty => PayloadEntry::Top(TopEntryPoint::Ty),
        Entry::Pattern => PayloadEntry::Top(TopEntryPoint::Pattern),
        Entry::Item => PayloadEntry::Top(TopEntryPoint::SourceFile),
        Entry::Stmt => PayloadEntry::Top(TopEntryPoint::MacroStmts),
    }
}

/// Whether a change puts the only child of what its text is read as.
fn is_only_child(entry: Entry) -> bool
    ensures { result ≡ is_only_child entry }
{
    matches!(entry, Entry::Item | Entry::Stmt)
}

/// The only child of a node, tokens counted too.
fn only_child_of(alloc: Global, node: &SyntaxNode) -> Result<Option<SyntaxElement>, AllocError>
    ensures { IfOk result (λ child. option_map element_of child ≡ only_child node.now) }
{
    if node.cursor().green().children().len() != 1 {
        return Ok(None);
    }
    let mut way = node.way(alloc)?;
    way.insert(0, 0)?;
    node.element_at(alloc, &way)
}

/// The only child of an element; a token has none.
fn only_child(alloc: Global, element: &SyntaxElement) -> Result<Option<SyntaxElement>, AllocError>
    ensures { IfOk result
        (λ child. option_map element_of child ≡ only_child (element_of element.now)) }
{
    match element {
        SyntaxElement::Node(node) => only_child_of(alloc, node),
        SyntaxElement::Token(token) => {
            let _leaf = token.cursor().green();
            Ok(None)
        }
    }
}

/// What a text is, read as an entry.
fn taken(
    alloc: Global,
    document: &Document,
    entry: Entry,
    text: &str,
    ids: &mut TreeIds,
) -> Result<SyntaxElement, Stop>
    ensures given { IfOk result (λ element. taken entry document.now text.now ids.old
        ≡ Given (element_of element) ids.new) }
    ensures stopped { IfErr result
        (IsWithheld (taken entry document.now text.now ids.old) ids.new) }
    ensures numbers { OnErr result (TakesSome ids.old ids.new
        (number_after_taking (taken entry document.now text.now ids.old))) }
{
    let payload = document.payload(alloc, payload_entry(entry), text, ids)?;
    prove!(payload.tree() <= u32::MAX);
    if !is_only_child(entry) {
        return Ok(payload);
    }
    match only_child(alloc, &payload)? {
        Some(child) => Ok(child),
        None => Err(Stop::Refused(Refusal::Payload)),
    }
}

/// Records that an element comes to another one.
fn put_element(
    alloc: Global,
    editor: &mut SyntaxEditor,
    op: Op,
    old: &SyntaxElement,
    new: &SyntaxElement,
) -> Result<(), Stop>
    ensures done { OnOk result ((next : ℕ)
        → put_element op (element_of old.now) editor.old next (element_of new.now)
        ≡ Ready editor.new next) }
    ensures stopped { IfErr result (λ stop. (next : ℕ)
        → IsUnprepared (put_element op (element_of old.now) editor.old next
        (element_of new.now)) next stop) }
{
    match op {
        Op::Replace => Ok(editor.replace(alloc, old, new)?),
        Op::Before => Ok(editor.insert(alloc, Position::before(old)?, new)?),
        Op::After => Ok(editor.insert(alloc, Position::after(old)?, new)?),
    }
}

/// Records a change of a commit.
fn prepare(
    alloc: Global,
    document: &Document,
    editor: &mut SyntaxEditor,
    change: Change<'_>,
    ids: &mut TreeIds,
) -> Result<(), Stop>
    ensures done { OnOk result (prepared_by (change_in change.entry) document.now editor.old ids.old
        ≡ Ready editor.new ids.new) }
    ensures stopped { IfErr result (IsUnprepared
        (prepared_by (change_in change.entry) document.now editor.old ids.old) ids.new) }
    ensures numbers { OnErr result (TakesSome ids.old ids.new (number_after_preparing
        (prepared_by (change_in change.entry) document.now editor.old ids.old))) }
{
    match change {
        Change::Put {
            op,
            target,
            entry,
            text,
        } => {
            let Some(old) = find(alloc, document, target)? else {
                return Err(Stop::Refused(Refusal::NoTarget));
            };
            let new = taken(alloc, document, entry, text, ids)?;
            put_element(alloc, editor, op, &old, &new)
        }
        Change::Delete { target } => {
            let Some(old) = find(alloc, document, target)? else {
                return Err(Stop::Refused(Refusal::NoTarget));
            };
            editor.delete(alloc, &old)?;
            Ok(())
        }
    }
}

/// Records the changes of a commit in order, up to the first that is refused.
pub(crate) fn prepare_all(
    alloc: Global,
    document: &Document,
    editor: &mut SyntaxEditor,
    changes: &[Change<'_>],
    ids: &mut TreeIds,
) -> Result<(), Stop>
    ensures done { OnOk result (prepared (map change_in changes.now) document.now editor.old ids.old
        ≡ Ready editor.new ids.new) }
    ensures stopped { IfErr result (IsUnprepared
        (prepared (map change_in changes.now) document.now editor.old ids.old) ids.new) }
    ensures numbers { OnErr result (TakesSome ids.old ids.new (number_after_preparing
        (prepared (map change_in changes.now) document.now editor.old ids.old))) }
{
    for change in changes {
        prepare(alloc, document, editor, *change, ids)?;
    }
    Ok(())
}

/// Makes the changes of a commit at once.
fn commit(
    alloc: Global,
    document: &mut Document,
    changes: &[Change<'_>],
    ids: &mut TreeIds,
) -> Result<Reply, Stop>
    ensures done { IfOk result
        (λ reply. committed (map change_in changes.now) (session document.old ids.old)
        ≡ record { reply = answered reply; after = session document.new ids.new }) }
    ensures stopped { IfErr result (IsStopped
        (committed (map change_in changes.now) (session document.old ids.old))
        (session document.new ids.new)) }
    ensures numbers { OnErr result (TakesSome ids.old ids.new
        (committed (map change_in changes.now) (session document.old ids.old)).after.next) }
    ensures kept { OnErr result (document.new ≡ document.old) }
{
    let mut editor = document.editor(alloc)?;
    prepare_all(alloc, document, &mut editor, changes, ids)?;
    let committed = document.commit(alloc, editor, ids)?;
    prove!(document.root().tree() <= u32::MAX);
    Ok(Reply::Commit {
        changed: committed.changed,
    })
}

/// The bytes from `start` to just before `stop`, where these can be edited.
fn range_of(document: &Document, start: u64, stop: u64) -> Option<TextRange>
    ensures start { IfSome result (λ range. range.start.0 ≡ start) }
    ensures end { IfSome result (λ range. range.end.0 ≡ stop) }
    ensures decided { is_some result ≡ can_edit document.now.text start stop }
{
    if start > stop || stop > document.text().len() as u64 {
        return None;
    }
    let range = TextRange::new(TextSize::new(start as u32), TextSize::new(stop as u32));
    document.can_edit(range).then_some(range)
}

/// Replaces the bytes from `start` to just before `stop` with `text`.
fn edit(
    alloc: Global,
    document: &mut Document,
    start: u64,
    stop: u64,
    text: &str,
    ids: &mut TreeIds,
) -> Result<Reply, Stop>
    ensures done { IfOk result
        (λ reply. edited_by start stop text.now (session document.old ids.old)
        ≡ record { reply = answered reply; after = session document.new ids.new }) }
    ensures stopped { IfErr result (IsStopped
        (edited_by start stop text.now (session document.old ids.old))
        (session document.new ids.new)) }
    ensures numbers { OnErr result (TakesSome ids.old ids.new
        (edited_by start stop text.now (session document.old ids.old)).after.next) }
    ensures kept { OnErr result (document.new ≡ document.old) }
{
    let Some(range) = range_of(document, start, stop) else {
        return Err(Stop::Refused(Refusal::Range));
    };
    document.edit(alloc, range, text, ids)?;
    prove!(document.root().tree() <= u32::MAX);
    Ok(Reply::Edit)
}

/// Does a command.
fn done(
    alloc: Global,
    document: &mut Document,
    command: &Command<'_>,
    ids: &mut TreeIds,
) -> Result<Reply, Stop>
    ensures done { IfOk result
        (λ reply. answer (command_in command.now) (session document.old ids.old)
        ≡ record { reply = answered reply; after = session document.new ids.new }) }
    ensures stopped { IfErr result (IsStopped
        (answer (command_in command.now) (session document.old ids.old))
        (session document.new ids.new)) }
    ensures numbers { OnErr result (TakesSome ids.old ids.new
        (answer (command_in command.now) (session document.old ids.old)).after.next) }
    ensures kept { OnErr result (document.new ≡ document.old) }
{
    match command {
        Command::Edit { start, stop, text } => edit(alloc, document, *start, *stop, text, ids),
        Command::Commit { changes } => commit(alloc, document, changes, ids),
        Command::Tree => {
            let lines = tree_lines(alloc, document.root().cursor().green())?;
            Ok(Reply::Tree { lines })
        }
        Command::Errors => {
            let list = Vec::from_slice(alloc, document.errors())?;
            Ok(Reply::Errors { list })
        }
    }
}

/// Does a command, and gives its answer.
pub(crate) fn answer(
    alloc: Global,
    document: &mut Document,
    command: &Command<'_>,
    ids: &mut TreeIds,
) -> Result<Reply, AllocError>
    ensures done { IfOk result (λ reply. answer (command_in command.now)
        (session document.old ids.old) ≡
        record { reply = answered reply; after = session document.new ids.new }) }
    ensures numbers { OnErr result (TakesSome ids.old ids.new
        (answer (command_in command.now) (session document.old ids.old)).after.next) }
    ensures kept { OnErr result (document.new ≡ document.old) }
{
    match done(alloc, document, command, ids) {
        Ok(reply) => Ok(reply),
        Err(Stop::Refused(refusal)) => Ok(Reply::Refused(refusal)),
        Err(Stop::NoMemory) => Err(AllocError),
    }
}

/// Does commands in order, and appends a reply for each.
///
/// # Errors
///
/// [`AllocError`] if an allocation fails. Then not all commands were done: the document is as after
/// those whose replies were appended, and the next command may have taken some of the tree numbers
/// that it takes.
pub fn apply(
    alloc: Global,
    document: &mut Document,
    commands: &[Command<'_>],
    replies: &mut Vec<Reply>,
    ids: &mut TreeIds,
) -> Result<(), AllocError>
    ensures done { OnOk result (Runs (map command_in commands.now) (session document.old ids.old)
        (map answered replies.old.items) (map answered replies.new.items)
        (session document.new ids.new)) }
    ensures stopped { OnErr result (RunsFront (map command_in commands.now)
        (session document.old ids.old) (map answered replies.old.items)
        (map answered replies.new.items) (session document.new ids.new)) }
{
    for command in commands {
        replies.reserve(1)?;
        let reply = answer(alloc, document, command, ids)?;
        replies.push(reply)?;
    }
    Ok(())
}
