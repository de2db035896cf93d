//! Messages of the client.

ghost use Rattle.std.specs.Prelude.{◌≡◌, ◌++◌, IfOk, None, OnOk, option_map};
ghost use Rattle.session_words.specs.Asked.{id_of, message_of};
ghost use Rattle.language_session.specs.Sessions.{session_of};
ghost use Rattle.language_session.specs.Steps.{refusing, step as step_of, step_message, written};

use crate::language::Language;
use crate::losses::lose_all;
use crate::notices::{Notice, apply_notice};
use crate::requests::{Request, answer};
use crate::session::Session;
use crate::telling::tell;
use session_words::{Id, Message, Refusal, Reply, body_value, message_in};
use std::alloc::{AllocError, Global};

/// Answers bytes that are no message, and tells the client that all texts are lost.
fn refuse(
    alloc: Global,
    session: &mut Session,
    id: Option<Id<'_>>,
    refusal: Refusal,
    out: &mut Vec<u8>,
) -> Result<(), AllocError>
    ensures session { OnOk result (session_of session.new
        ≡ (refusing (session_of session.old) (option_map id_of id.entry) refusal).after) }
    ensures told { OnOk result (out.new.items ≡ out.old.items
        ++ written (refusing (session_of session.old) (option_map id_of id.entry) refusal).replies) }
{
    tell(alloc, Reply::Refused(id, refusal), out)?;
    lose_all(alloc, session, out)
}

/// Does what a message asks for.
fn step_message<L: Language>(
    alloc: Global,
    language: &L,
    session: &mut Session,
    message: Message<'_>,
    out: &mut Vec<u8>,
) -> Result<Option<u8>, AllocError>
    ensures session { OnOk result (session_of session.new
        ≡ (step_message (L.messages language.now) (session_of session.old)
        (message_of message.entry)).after) }
    ensures told { OnOk result (out.new.items ≡ out.old.items
        ++ written (step_message (L.messages language.now) (session_of session.old)
        (message_of message.entry)).replies) }
    ensures status { IfOk result (λ status. status
        ≡ (step_message (L.messages language.now) (session_of session.old)
        (message_of message.entry)).status) }
{
    match message {
        Message::Notice { method, params } => {
            if method == "exit" {
                return Ok(Some(session.exit_status()));
            }
            let told = Notice { method, params };
            apply_notice(alloc, language, session, told, out)?;
        }
        Message::Request { id, method, params } => {
            let request = Request { id, method, params };
            answer(alloc, session, request, out)?;
        }
        Message::Answer => {}
        Message::Invalid { id } => refuse(alloc, session, id, Refusal::Message, out)?,
    }
    Ok(None)
}

/// Does what the body of a message asks for, and appends to `out` what the client is told. Returns the exit status if
/// the message ends the server.
///
/// # Errors
///
/// Out of memory: the session is not to be used again.
pub fn step<L: Language>(
    alloc: Global,
    language: &L,
    session: &mut Session,
    body: &[u8],
    out: &mut Vec<u8>,
) -> Result<Option<u8>, AllocError>
    ensures session { OnOk result (session_of session.new
        ≡ (step_of (L.messages language.now) (session_of session.old) body.now).after) }
    ensures told { OnOk result (out.new.items ≡ out.old.items
        ++ written (step_of (L.messages language.now) (session_of session.old) body.now).replies) }
    ensures status { IfOk result (λ status. status
        ≡ (step_of (L.messages language.now) (session_of session.old) body.now).status) }
{
    match body_value(alloc, body)? {
        Some(value) => step_message(alloc, language, session, message_in(&value), out),
        None => {
            refuse(alloc, session, None, Refusal::Json, out)?;
            Ok(None)
        }
    }
}
