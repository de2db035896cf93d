//! Requests, which are answered.

ghost use Rattle.std.specs.Prelude.{◌≡◌, ◌++◌, OnOk, option_and_then, option_map, map};
ghost use Rattle.serde_json.specs.View.{view};
ghost use Rattle.message_frames.specs.Messages.{message};
ghost use Rattle.session_words.specs.Asked.{id_of};
ghost use Rattle.session_words.specs.Members.{uri_of};
ghost use Rattle.session_words.specs.Replies.{reply_body};
ghost use Rattle.language_session.specs.Sessions.{found, open_of, session_of};
ghost use Rattle.language_session.specs.Steps.{begins, refusal, request_fresh, request_in, request_running, tells, told, written};

use crate::documents::document_named;
use crate::session::{OpenText, Phase, Session};
use crate::telling::tell;
use serde_json::Value;
use session_words::{Id, Refusal, Reply, facts_in, uri_of};
use std::alloc::{AllocError, Global};

/// A request with its id.
#[derive(Clone, Copy, Drop)]
pub(crate) struct Request<'a> {
    pub(crate) id: Id<'a>,
    pub(crate) method: &'a str,
    pub(crate) params: Option<&'a Value>,
}

/// Refuses a request.
fn refuse(
    alloc: Global,
    session: &Session,
    request: Request<'_>,
    why: Refusal,
    out: &mut Vec<u8>,
) -> Result<(), AllocError>
    ensures { OnOk result (out.new.items ≡ out.old.items
        ++ written (refusal (session_of session.now) (id_of request.entry.id) why).replies) }
{
    tell(alloc, Reply::Refused(Some(request.id), why), out)
}

/// Begins a session.
fn begin(
    alloc: Global,
    session: &mut Session,
    request: Request<'_>,
    out: &mut Vec<u8>,
) -> Result<(), AllocError>
    ensures session { OnOk result (session_of session.new
        ≡ (begins (session_of session.old) (id_of request.entry.id)
        (option_map (λ v. view v.now) request.entry.params)).after) }
    ensures told { OnOk result (out.new.items ≡ out.old.items
        ++ written (begins (session_of session.old) (id_of request.entry.id)
        (option_map (λ v. view v.now) request.entry.params)).replies) }
{
    let facts = facts_in(request.params);
    session.phase = Phase::Running;
    session.facts = facts;
    tell(alloc, Reply::Begun(request.id, facts.encoding), out)
}

/// Returns the text of a document.
fn text_of(document: &OpenText) -> Option<&str>
    ensures { option_map (λ t. t.now) result ≡ (open_of document.now).text }
{
    match &document.text {
        Some(text) => Some(text.as_str()),
        None => None,
    }
}

/// Tells the text of a document.
fn tell_open(
    alloc: Global,
    id: Id<'_>,
    document: &OpenText,
    out: &mut Vec<u8>,
) -> Result<(), AllocError>
    ensures { OnOk result (out.new.items ≡ out.old.items
        ++ message (reply_body (told (id_of id.entry) (open_of document.now)))) }
{
    tell(
        alloc,
        Reply::Told(id, document.version, text_of(document)),
        out,
    )
}

/// Tells the text of the document that a request names.
fn tell_text(
    alloc: Global,
    session: &Session,
    request: Request<'_>,
    out: &mut Vec<u8>,
) -> Result<(), AllocError>
    ensures { OnOk result (out.new.items ≡ out.old.items
        ++ written (tells (session_of session.now) (id_of request.entry.id)
        (option_and_then (λ uri. found uri (session_of session.now).documents)
        (uri_of (option_map (λ v. view v.now) request.entry.params)))).replies) }
{
    let Some(uri) = uri_of(request.params) else {
        return refuse(alloc, session, request, Refusal::Document, out);
    };
    match document_named(session.documents.as_slice(), uri) {
        Some(document) => tell_open(alloc, request.id, document, out),
        None => refuse(alloc, session, request, Refusal::Document, out),
    }
}

/// Answers a request in a session that has begun.
fn answer_running(
    alloc: Global,
    session: &mut Session,
    request: Request<'_>,
    out: &mut Vec<u8>,
) -> Result<(), AllocError>
    ensures session { OnOk result (session_of session.new
        ≡ (request_running (session_of session.old) (id_of request.entry.id)
        request.entry.method.now (option_map (λ v. view v.now) request.entry.params)).after) }
    ensures told { OnOk result (out.new.items ≡ out.old.items
        ++ written (request_running (session_of session.old) (id_of request.entry.id)
        request.entry.method.now (option_map (λ v. view v.now) request.entry.params)).replies) }
{
    match request.method {
        "initialize" => refuse(alloc, session, request, Refusal::Initialized, out),
        "shutdown" => {
            session.phase = Phase::Down;
            tell(alloc, Reply::Done(request.id), out)
        }
        "tevondimby/text" => tell_text(alloc, session, request, out),
        _ => refuse(alloc, session, request, Refusal::Method, out),
    }
}

/// Answers a request before `initialize`.
fn answer_fresh(
    alloc: Global,
    session: &mut Session,
    request: Request<'_>,
    out: &mut Vec<u8>,
) -> Result<(), AllocError>
    ensures session { OnOk result (session_of session.new
        ≡ (request_fresh (session_of session.old) (id_of request.entry.id)
        request.entry.method.now (option_map (λ v. view v.now) request.entry.params)).after) }
    ensures told { OnOk result (out.new.items ≡ out.old.items
        ++ written (request_fresh (session_of session.old) (id_of request.entry.id)
        request.entry.method.now (option_map (λ v. view v.now) request.entry.params)).replies) }
{
    match request.method {
        "initialize" => begin(alloc, session, request, out),
        _ => refuse(alloc, session, request, Refusal::NotInitialized, out),
    }
}

/// Answers a request.
pub(crate) fn answer(
    alloc: Global,
    session: &mut Session,
    request: Request<'_>,
    out: &mut Vec<u8>,
) -> Result<(), AllocError>
    ensures session { OnOk result (session_of session.new
        ≡ (request_in session.old.phase (session_of session.old) (id_of request.entry.id)
        request.entry.method.now (option_map (λ v. view v.now) request.entry.params)).after) }
    ensures told { OnOk result (out.new.items ≡ out.old.items
        ++ written (request_in session.old.phase (session_of session.old) (id_of request.entry.id)
        request.entry.method.now (option_map (λ v. view v.now) request.entry.params)).replies) }
{
    match session.phase {
        Phase::Fresh => answer_fresh(alloc, session, request, out),
        Phase::Running => answer_running(alloc, session, request, out),
        Phase::Down => refuse(alloc, session, request, Refusal::ShutDown, out),
    }
}
