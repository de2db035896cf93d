//! What a message is.

ghost use Rattle.std.specs.Prelude.{◌≡◌, codes, option_map};
ghost use Rattle.serde_json.specs.Find.{get};
ghost use Rattle.serde_json.specs.View.{view};
ghost use Rattle.session_words.specs.Asked.{id_of, message_of};
ghost use Rattle.session_words.specs.Messages.{asked_by, has_outcome, id_in, is_notice, message_in, unasked};

use serde_json::Value;

/// What a request is called.
#[derive(Clone, Copy, Drop)]
pub enum Id<'a> {
    /// A number.
    Number(i64),
    /// A word.
    Word(&'a str),
}

/// A message of the client.
#[derive(Clone, Copy, Drop)]
pub enum Message<'a> {
    /// A request, which is answered.
    Request {
        id: Id<'a>,
        method: &'a str,
        params: Option<&'a Value>,
    },
    /// A notification, which is not answered.
    Notice {
        method: &'a str,
        params: Option<&'a Value>,
    },
    /// An answer to a request of the server.
    Answer,
    /// No message, with its id if it has one.
    Invalid {
        id: Option<Id<'a>>,
    },
}

/// Returns the id that a value is.
fn id_in(value: &Value) -> Option<Id<'_>>
    ensures { option_map id_of result ≡ id_in (view value.now) }
{
    if let Some(word) = value.as_str() {
        return Some(Id::Word(word));
    }
    Some(Id::Number(value.as_i64()?))
}

/// Returns `true` for a method that a request must not have.
fn is_notice(method: &str) -> bool
    ensures { result ≡ is_notice method.now }
{
    matches!(
        method,
        "textDocument/didOpen" | "textDocument/didChange" | "textDocument/didClose" | "exit"
    )
}

/// Returns the message with this method.
fn asked_by<'a>(method: &'a str, params: Option<&'a Value>, id: Option<&'a Value>) -> Message<'a>
    ensures { message_of result ≡ asked_by method.now (option_map (λ v. view v.now) params.entry)
        (option_map (λ v. view v.now) id.entry) }
{
    let Some(value) = id else {
        return Message::Notice { method, params };
    };
    let Some(id) = id_in(value) else {
        return Message::Invalid { id: None };
    };
    if is_notice(method) {
        Message::Invalid { id: Some(id) }
    } else {
        Message::Request { id, method, params }
    }
}

/// Returns `true` if a value has a member that answers have.
fn has_outcome(value: &Value) -> bool
    ensures { result ≡ has_outcome (view value.now) }
{
    value.get("result").is_some() || value.get("error").is_some()
}

/// Returns the message that a value without a method is.
fn unasked(value: &Value) -> Message<'_>
    ensures { message_of result
        ≡ unasked (has_outcome (view value.now)) (get (codes "id") (view value.now)) }
{
    match value.get("id") {
        Some(_) if has_outcome(value) => Message::Answer,
        Some(id) => Message::Invalid { id: id_in(id) },
        None => Message::Invalid { id: None },
    }
}

/// Returns the message that a value is.
pub fn message_in(value: &Value) -> Message<'_>
    ensures { message_of result ≡ message_in (view value.now) }
{
    let Some(method) = value.get("method") else {
        return unasked(value);
    };
    match method.as_str() {
        Some(method) => asked_by(method, value.get("params"), value.get("id")),
        None => Message::Invalid {
            id: value.get("id").and_then(id_in),
        },
    }
}
