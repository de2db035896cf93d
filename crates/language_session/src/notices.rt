//! Notices, which are not answered.

ghost use Rattle.std.specs.Prelude.{[], ◌≡◌, ◌≤◌, ◌++◌, IfOk, IfSome, OnOk, length, option_and_then, option_map, string_bytes};
ghost use Rattle.serde_json.specs.View.{view};
ghost use Rattle.session_words.specs.Changes.{MAX_TEXT};
ghost use Rattle.language_session.specs.Sessions.{open_of, session_of};
ghost use Rattle.language_session.specs.Steps.{changed, changes, closes, if_fits, notice_in, notice_running, opened, opens, text_changed, written};

use crate::documents::{publish, take};
use crate::language::Language;
use crate::losses::lose_all;
use crate::session::{OpenText, Phase, Session};
use crate::telling::tell;
use serde_json::Value;
use session_words::{
    Facts, Reply, changed_text, document_of, member_of, uri_of, version_of, word_of,
};
use std::alloc::{AllocError, Global};

/// The most bytes of a text.
const MAX_TEXT: usize = 16_777_216;

/// A notice of the client.
#[derive(Clone, Copy, Drop)]
pub(crate) struct Notice<'a> {
    pub(crate) method: &'a str,
    pub(crate) params: Option<&'a Value>,
}

/// Returns the text of the document that `params` open, if it is not too long.
fn opened_text(alloc: Global, params: Option<&Value>) -> Result<Option<String>, AllocError>
    ensures text { IfOk result (λ text. option_map string_bytes text
        ≡ (opened [] (option_map (λ v. view v.now) params.entry)).text) }
    ensures fits { IfOk result
        (λ text. IfSome text (λ t. length (string_bytes t) ≤ MAX_TEXT)) }
{
    match word_of("text", document_of(params)) {
        Some(text) if text.len() <= MAX_TEXT => Ok(Some(String::from_str(alloc, text)?)),
        _ => Ok(None),
    }
}

/// Returns the document that the client opens.
fn opened(alloc: Global, uri: &str, params: Option<&Value>) -> Result<OpenText, AllocError>
    ensures document { IfOk result (λ d. open_of d
        ≡ opened uri.now (option_map (λ v. view v.now) params.entry)) }
    ensures fits { IfOk result
        (λ d. IfSome d.text (λ t. length (string_bytes t) ≤ MAX_TEXT)) }
{
    Ok(OpenText {
        uri: String::from_str(alloc, uri)?,
        version: version_of(params),
        text: opened_text(alloc, params)?,
    })
}

/// Opens a document. One that is open is replaced.
fn open<L: Language>(
    alloc: Global,
    language: &L,
    session: &mut Session,
    params: Option<&Value>,
    out: &mut Vec<u8>,
) -> Result<(), AllocError>
    ensures session { OnOk result (session_of session.new
        ≡ (opens (L.messages language.now) (session_of session.old)
        (option_map (λ v. view v.now) params.entry)).after) }
    ensures told { OnOk result (out.new.items ≡ out.old.items
        ++ written (opens (L.messages language.now) (session_of session.old)
        (option_map (λ v. view v.now) params.entry)).replies) }
{
    let Some(uri) = uri_of(params) else {
        return lose_all(alloc, session, out);
    };
    let document = opened(alloc, uri, params)?;
    publish(alloc, language, &session.facts, &document, out)?;
    let _ = take(&mut session.documents, uri);
    session.documents.push(document)?;
    Ok(())
}

/// Returns a text after the changes that `params` tell, if it is not too long.
fn text_after(
    alloc: Global,
    facts: &Facts,
    text: Option<String>,
    params: Option<&Value>,
) -> Result<Option<String>, AllocError>
    ensures text { IfOk result (λ new. option_map string_bytes new
        ≡ text_changed facts.now (option_map string_bytes text)
        (option_map (λ v. view v.now) params.entry)) }
    ensures fits { IfOk result (λ new. IfSome new (λ t. length (string_bytes t) ≤ MAX_TEXT)) }
{
    let Some(changes) = member_of("contentChanges", params).and_then(Value::as_array) else {
        return Ok(None);
    };
    match changed_text(alloc, facts.encoding, text, changes)? {
        Some(text) if text.len() <= MAX_TEXT => Ok(Some(text)),
        _ => Ok(None),
    }
}

/// Returns a document after the changes that `params` tell.
fn changed(
    alloc: Global,
    facts: &Facts,
    document: OpenText,
    params: Option<&Value>,
) -> Result<OpenText, AllocError>
    ensures document { IfOk result (λ d. open_of d
        ≡ changed facts.now (option_map (λ v. view v.now) params.entry) (open_of document)) }
    ensures fits { IfOk result
        (λ d. IfSome d.text (λ t. length (string_bytes t) ≤ MAX_TEXT)) }
{
    let OpenText { uri, text, .. } = document;
    Ok(OpenText {
        uri,
        version: version_of(params),
        text: text_after(alloc, facts, text, params)?,
    })
}

/// Changes a document.
fn change<L: Language>(
    alloc: Global,
    language: &L,
    session: &mut Session,
    params: Option<&Value>,
    out: &mut Vec<u8>,
) -> Result<(), AllocError>
    ensures session { OnOk result (session_of session.new
        ≡ (changes (L.messages language.now) (session_of session.old)
        (option_map (λ v. view v.now) params.entry)).after) }
    ensures told { OnOk result (out.new.items ≡ out.old.items
        ++ written (changes (L.messages language.now) (session_of session.old)
        (option_map (λ v. view v.now) params.entry)).replies) }
{
    let Some(uri) = uri_of(params) else {
        return lose_all(alloc, session, out);
    };
    let Some(document) = take(&mut session.documents, uri) else {
        return Ok(());
    };
    let was_held = document.text.is_some();
    let document = changed(alloc, &session.facts, document, params)?;
    if was_held || document.text.is_some() {
        publish(alloc, language, &session.facts, &document, out)?;
    }
    session.documents.push(document)?;
    Ok(())
}

/// Closes a document.
fn close(
    alloc: Global,
    session: &mut Session,
    params: Option<&Value>,
    out: &mut Vec<u8>,
) -> Result<(), AllocError>
    ensures session { OnOk result (session_of session.new
        ≡ (closes (session_of session.old) (option_map (λ v. view v.now) params.entry)).after) }
    ensures told { OnOk result (out.new.items ≡ out.old.items
        ++ written (closes (session_of session.old)
        (option_map (λ v. view v.now) params.entry)).replies) }
{
    let Some(uri) = uri_of(params) else {
        return lose_all(alloc, session, out);
    };
    match take(&mut session.documents, uri) {
        Some(_) => tell(alloc, Reply::Withdrawn(uri), out),
        None => Ok(()),
    }
}

/// Does what a notice other than `exit` asks for in a session that has begun.
fn notice_running<L: Language>(
    alloc: Global,
    language: &L,
    session: &mut Session,
    notice: Notice<'_>,
    out: &mut Vec<u8>,
) -> Result<(), AllocError>
    ensures session { OnOk result (session_of session.new
        ≡ (notice_running (L.messages language.now) (session_of session.old)
        notice.entry.method.now (option_map (λ v. view v.now) notice.entry.params)).after) }
    ensures told { OnOk result (out.new.items ≡ out.old.items
        ++ written (notice_running (L.messages language.now) (session_of session.old)
        notice.entry.method.now (option_map (λ v. view v.now) notice.entry.params)).replies) }
{
    let Notice { method, params } = notice;
    match method {
        "textDocument/didOpen" => open(alloc, language, session, params, out),
        "textDocument/didChange" => change(alloc, language, session, params, out),
        "textDocument/didClose" => close(alloc, session, params, out),
        _ => Ok(()),
    }
}

/// Does what a notice other than `exit` asks for.
pub(crate) fn apply_notice<L: Language>(
    alloc: Global,
    language: &L,
    session: &mut Session,
    notice: Notice<'_>,
    out: &mut Vec<u8>,
) -> Result<(), AllocError>
    ensures session { OnOk result (session_of session.new
        ≡ (notice_in session.old.phase (L.messages language.now) (session_of session.old)
        notice.entry.method.now (option_map (λ v. view v.now) notice.entry.params)).after) }
    ensures told { OnOk result (out.new.items ≡ out.old.items
        ++ written (notice_in session.old.phase (L.messages language.now) (session_of session.old)
        notice.entry.method.now (option_map (λ v. view v.now) notice.entry.params)).replies) }
{
    match session.phase {
        Phase::Running => notice_running(alloc, language, session, notice, out),
        Phase::Fresh | Phase::Down => Ok(()),
    }
}
