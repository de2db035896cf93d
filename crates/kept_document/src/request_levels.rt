//! Tests that the texts which a request makes take few levels, before they are read.
ghost use Rattle.std.specs.Prelude.{◌≡◌, false, map, option_map, IfOk};
ghost use Rattle.serde_json.specs.View.{view};
ghost use Rattle.ra_parser.specs.declared.grammar.Grammar.TheVariants.{Profile};
ghost use Rattle.document_requests.specs.Applied.{session};
ghost use Rattle.document_requests.specs.Asked.{command as command_in, request as request_asked};
ghost use Rattle.document_requests.specs.Request.{request_by};
ghost use Rattle.document_requests.specs.Session.{answer, edited_by};
ghost use Rattle.kept_document.specs.DeepRequests.{is_deep_command, is_deep_edit, is_deep_request, is_deep_run, is_depth, runs_deep};
ghost use Rattle.kept_document.specs.declared.reason.Reason.TheVariants.{NoMemory};

use crate::commit::value_of;
use crate::commit_levels::test_levels;
use crate::kept::Kept;
use crate::reason::Reason;
use document_requests::{Command, CommitRule, Request, answer_by, commands_of};
use rust_document::{Edition, Grammar};
use serde_json::Value;
use std::alloc::{AllocError, Global};
use text_levels::LEVELS;

/// Returns `true` if the reason is that a text is too deep.
///
/// # Errors
///
/// [`AllocError`] if the reason is that memory lacks.
fn is_depth(reason: Reason) -> Result<bool, AllocError>
    ensures { IfOk result (λ deep. (deep ≡ is_depth reason) × (reason ≡ NoMemory → ⊥)) }
{
    match reason {
        Reason::TooDeep => Ok(true),
        Reason::NoMemory => Err(AllocError),
        Reason::Short => Ok(false),
        Reason::NotUtf8 => Ok(false),
        Reason::NoSuch => Ok(false),
        Reason::TooLong => Ok(false),
        Reason::Range => Ok(false),
        Reason::NotOpen => Ok(false),
        Reason::IsOpen => Ok(false),
        Reason::NoNumber => Ok(false),
        Reason::NoCommand => Ok(false),
        Reason::Unfaithful => Ok(false),
        Reason::NoTarget => Ok(false),
        Reason::Payload => Ok(false),
        Reason::NoParent => Ok(false),
        Reason::BadTarget => Ok(false),
        Reason::Intersecting => Ok(false),
        Reason::MissingMapping => Ok(false),
    }
}

/// Returns the request that a value holds, if it holds one. It is read by the profile.
fn request_in(alloc: Global, value: &Value) -> Result<Option<Request<'_>>, AllocError>
    ensures { IfOk result
        (λ found. option_map request_asked found ≡ request_by Profile (view value.now)) }
{
    let grammar = Grammar::Profile;
    let word = value.get("edition").and_then(Value::as_str);
    let Some(edition) = word.and_then(Edition::from_name) else {
        return Ok(None);
    };
    let Some(text) = value.get("text").and_then(Value::as_str) else {
        return Ok(None);
    };
    let Some(list) = value.get("commands") else {
        return Ok(None);
    };
    match commands_of(alloc, grammar, list)? {
        Some(commands) => Ok(Some(Request {
            grammar,
            edition,
            text,
            commands,
        })),
        None => Ok(None),
    }
}

/// Makes an edit, unless its text is too deep: then returns `true`.
fn edits_deep(
    alloc: Global,
    kept: &mut Kept,
    start: u64,
    stop: u64,
    text: &str,
) -> Result<bool, AllocError>
    ensures deep { IfOk result (λ deep. deep ≡ is_deep_edit kept.old.document start stop text.now) }
    ensures after { IfOk result (λ deep. deep ≡ false → session kept.new.document kept.new.ids
        ≡ (edited_by start stop text.now (session kept.old.document kept.old.ids)).after) }
{
    let done = kept.edit(alloc, start as usize, stop as usize, text.as_bytes());
    // (this shows that the number of its tree fits)
    prove!(kept.document.root().tree() <= u32::MAX);
    match done {
        Ok(()) => Ok(false),
        Err(reason) => is_depth(reason),
    }
}

/// Does a command, unless one of its texts is too deep: then returns `true`.
fn goes_deep(alloc: Global, kept: &mut Kept, command: &Command<'_>) -> Result<bool, AllocError>
    ensures deep { IfOk result
        (λ deep. deep ≡ is_deep_command (command_in command.now) kept.old.document) }
    ensures after { IfOk result (λ deep. deep ≡ false → session kept.new.document kept.new.ids
        ≡ (answer (command_in command.now) (session kept.old.document kept.old.ids)).after) }
{
    match command {
        Command::Edit { start, stop, text } => edits_deep(alloc, kept, *start, *stop, text),
        Command::Commit { changes } => match test_levels(alloc, &kept.document, changes) {
            Ok(()) => {
                let rule = CommitRule::Faithful;
                let _reply = answer_by(alloc, rule, &mut kept.document, command, &mut kept.ids)?;
                Ok(false)
            }
            Err(reason) => is_depth(reason),
        },
        Command::Tree => Ok(false),
        Command::Errors => Ok(false),
    }
}

/// Does commands in order, up to one of which a text is too deep: then returns `true`.
fn run_deep(alloc: Global, kept: &mut Kept, commands: &[Command<'_>]) -> Result<bool, AllocError>
    ensures { IfOk result (λ deep. deep ≡ runs_deep (map command_in commands.now)
        (session kept.old.document kept.old.ids)) }
{
    for command in commands {
        if goes_deep(alloc, kept, command)? {
            return Ok(true);
        }
    }
    Ok(false)
}

/// Runs a request, up to the first text that is too deep: then returns `true`.
fn is_deep_run(alloc: Global, request: &Request<'_>) -> Result<bool, AllocError>
    ensures { IfOk result (λ deep. deep ≡ is_deep_run (request_asked request.now)) }
{
    // (this shows that it is UTF-8)
    let _bytes = request.text.as_bytes();
    match Kept::open_text(alloc, request.edition, request.grammar, request.text) {
        Ok(mut kept) => run_deep(alloc, &mut kept, &request.commands),
        Err(reason) => is_depth(reason),
    }
}

/// Returns `true` if a text that the request asks to be read takes more than [`LEVELS`] levels.
///
/// Each level takes a byte of the request, so a short one has no such text.
pub(crate) fn is_deep_request(alloc: Global, request: &[u8]) -> Result<bool, AllocError>
    ensures { IfOk result (λ deep. deep ≡ is_deep_request request.now) }
{
    if request.len() as u64 <= LEVELS {
        return Ok(false);
    }
    let Ok(text) = str::from_utf8(request) else {
        return Ok(false);
    };
    let Some(value) = value_of(alloc, text)? else {
        return Ok(false);
    };
    match request_in(alloc, &value)? {
        Some(request) => is_deep_run(alloc, &request),
        None => Ok(false),
    }
}
