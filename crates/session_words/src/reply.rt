//! What the client is told, in JSON.

ghost use Rattle.std.specs.Prelude.{◌≡◌, IfOk, map, option_map, string_bytes};
ghost use Rattle.serde_json.specs.Data.{item, no_items};
ghost use Rattle.serde_json.specs.View.{items_view, view};
ghost use Rattle.session_words.specs.Asked.{id_of};
ghost use Rattle.session_words.specs.Replies.{answer, begun, capabilities, encoding_name, error, id_data, id_data_if_any, list_data, lost_data, place_data, publication, range_data, refusal_code, refusal_words, reply_body, reply_data, reply_of, shown_data, shown_of, told, version_data};

use crate::message::Id;
use line_index::{Encoding, LineCol};
use serde_json::{Value, json};
use std::alloc::{AllocError, Global};

/// A message about a text, with its places.
#[derive(Drop)]
pub struct Diagnostic {
    pub start: LineCol,
    pub end: LineCol,
    pub message: String,
}

/// Why a message of the client is answered with an error.
#[derive(Clone, Copy, Drop)]
pub enum Refusal {
    /// The header of a message could not be read.
    Header,
    /// The body of a message is no JSON.
    Json,
    /// The body of a message is none of the protocol.
    Message,
    /// A request came before `initialize`.
    NotInitialized,
    /// `initialize` came again.
    Initialized,
    /// A request came after `shutdown`.
    ShutDown,
    /// There is no such method.
    Method,
    /// No such document is open.
    Document,
}

/// What the client is told.
#[derive(Clone, Copy, Drop)]
pub enum Reply<'a> {
    /// The answer to `initialize`.
    Begun(Id<'a>, Encoding),
    /// The answer to `shutdown`.
    Done(Id<'a>),
    /// The answer to `tevondimby/text`: the version, and the text if it is not lost.
    Told(Id<'a>, Option<i64>, Option<&'a str>),
    /// An error.
    Refused(Option<Id<'a>>, Refusal),
    /// The messages about a text, of which this is the version.
    Published(&'a str, Option<i64>, &'a [Diagnostic]),
    /// A text is lost.
    Lost(&'a str, Option<i64>),
    /// There are no messages any more, since the document is closed.
    Withdrawn(&'a str),
}

impl Refusal {
    /// Returns the code of the error.
    fn code(self) -> i64
        ensures { result ≡ refusal_code self }
    {
        match self {
            Refusal::Header | Refusal::Json => -32700,
            Refusal::Message | Refusal::Initialized | Refusal::ShutDown => -32600,
            Refusal::NotInitialized => -32002,
            Refusal::Method => -32601,
            Refusal::Document => -32602,
        }
    }

    /// Returns the words of the error.
    fn words(self) -> &'static str
        ensures { result.now ≡ refusal_words self }
    {
        match self {
            Refusal::Header => "the header of a message could not be read",
            Refusal::Json => "the message is no JSON",
            Refusal::Message => "this is no message",
            Refusal::NotInitialized => "the server is not initialized",
            Refusal::Initialized => "the server is initialized already",
            Refusal::ShutDown => "the server is shut down",
            Refusal::Method => "there is no such method",
            Refusal::Document => "no such document is open",
        }
    }
}

fn id_value(alloc: Global, id: Id<'_>) -> Result<Value, AllocError>
    ensures { IfOk result (λ value. view value ≡ id_data (id_of id.entry)) }
{
    match id {
        Id::Number(number) => Ok(Value::from(number)),
        Id::Word(word) => Ok(Value::String(String::from_str(alloc, word)?)),
    }
}

fn version_value(version: Option<i64>) -> Value
    ensures { view result ≡ version_data version }
{
    match version {
        Some(version) => Value::from(version),
        None => Value::Null,
    }
}

fn encoding_name(encoding: Encoding) -> &'static str
    ensures { result.now ≡ encoding_name encoding }
{
    match encoding {
        Encoding::Utf8 => "utf-8",
        Encoding::Utf16 => "utf-16",
        Encoding::Utf32 => "utf-32",
    }
}

fn place_value(alloc: Global, place: LineCol) -> Result<Value, AllocError>
    ensures { IfOk result (λ value. view value ≡ place_data place) }
{
    let LineCol { line, col } = place;
    json!(in alloc; {"character": col, "line": line})
}

fn range_value(alloc: Global, start: LineCol, end: LineCol) -> Result<Value, AllocError>
    ensures { IfOk result (λ value. view value ≡ range_data start end) }
{
    let start = place_value(alloc, start)?;
    let end = place_value(alloc, end)?;
    json!(in alloc; {"end": end, "start": start})
}

fn shown_value(alloc: Global, shown: &Diagnostic) -> Result<Value, AllocError>
    ensures { IfOk result (λ value. view value ≡ shown_data (shown_of shown.now)) }
{
    let range = range_value(alloc, shown.start, shown.end)?;
    let words = Value::String(shown.message.clone()?);
    json!(in alloc; {"message": words, "range": range, "severity": 1, "source": "tevondimby"})
}

fn list_values(alloc: Global, list: &[Diagnostic]) -> Result<Vec<Value>, AllocError>
    ensures { IfOk result
        (λ values. items_view values.items ≡ list_data (map shown_of list.now)) }
{
    let mut values = Vec::with_capacity(alloc, list.len())?;
    for shown in list {
        values.push(shown_value(alloc, shown)?)?;
    }
    Ok(values)
}

fn lost_value(alloc: Global) -> Result<Value, AllocError>
    ensures { IfOk result (λ value. view value ≡ lost_data) }
{
    let origin = LineCol { line: 0, col: 0 };
    let range = range_value(alloc, origin, origin)?;
    let words = "the server has lost this text: close it and open it again";
    json!(in alloc; {
        "code": "lost", "message": words, "range": range, "severity": 1, "source": "tevondimby"
    })
}

fn lost_values(alloc: Global) -> Result<Vec<Value>, AllocError>
    ensures { IfOk result (λ values. items_view values.items ≡ item lost_data no_items) }
{
    let mut values = Vec::with_capacity(alloc, 1)?;
    values.push(lost_value(alloc)?)?;
    Ok(values)
}

/// Returns the list of messages of a text.
fn publication(
    alloc: Global,
    uri: &str,
    version: Option<i64>,
    list: Vec<Value>,
) -> Result<Value, AllocError>
    ensures { IfOk result
        (λ value. view value ≡ publication uri.now version (items_view list.items)) }
{
    let list = Value::Array(list);
    let params = match version {
        Some(version) => { json!(in alloc; {"diagnostics": list, "uri": uri, "version": version})? }
        None => json!(in alloc; {"diagnostics": list, "uri": uri})?,
    };
    let method = "textDocument/publishDiagnostics";
    json!(in alloc; {"jsonrpc": "2.0", "method": method, "params": params})
}

fn answer(alloc: Global, id: Id<'_>, found: Value) -> Result<Value, AllocError>
    ensures { IfOk result (λ value. view value ≡ answer (id_data (id_of id.entry)) (view found)) }
{
    let id = id_value(alloc, id)?;
    json!(in alloc; {"id": id, "jsonrpc": "2.0", "result": found})
}

fn error(alloc: Global, id: Option<Id<'_>>, refusal: Refusal) -> Result<Value, AllocError>
    ensures { IfOk result
        (λ value. view value ≡ error (id_data_if_any (option_map id_of id.entry)) refusal) }
{
    let id = match id {
        Some(id) => id_value(alloc, id)?,
        None => Value::Null,
    };
    let code = refusal.code();
    let words = refusal.words();
    json!(in alloc; {"error": {"code": code, "message": words}, "id": id, "jsonrpc": "2.0"})
}

fn begun(alloc: Global, encoding: Encoding) -> Result<Value, AllocError>
    ensures { IfOk result (λ value. view value ≡ begun encoding) }
{
    let encoding = encoding_name(encoding);
    json!(in alloc; {
        "capabilities": {
            "experimental": {"tevondimby": ["text"]},
            "positionEncoding": encoding,
            "textDocumentSync": {"change": 2, "openClose": true}
        },
        "serverInfo": {"name": "tevondimby", "version": "0.1.0"}
    })
}

fn told(alloc: Global, version: Option<i64>, text: Option<&str>) -> Result<Value, AllocError>
    ensures { IfOk result
        (λ value. view value ≡ told version (option_map (λ t. t.now) text.entry)) }
{
    let version = version_value(version);
    match text {
        Some(text) => json!(in alloc; {"lost": false, "text": text, "version": version}),
        None => json!(in alloc; {"lost": true, "version": version}),
    }
}

fn reply_value(alloc: Global, reply: Reply<'_>) -> Result<Value, AllocError>
    ensures { IfOk result (λ value. view value ≡ reply_data (reply_of reply.entry)) }
{
    match reply {
        Reply::Begun(id, encoding) => answer(alloc, id, begun(alloc, encoding)?),
        Reply::Done(id) => answer(alloc, id, Value::Null),
        Reply::Told(id, version, text) => answer(alloc, id, told(alloc, version, text)?),
        Reply::Refused(id, refusal) => error(alloc, id, refusal),
        Reply::Published(uri, version, list) => {
            publication(alloc, uri, version, list_values(alloc, list)?)
        }
        Reply::Lost(uri, version) => publication(alloc, uri, version, lost_values(alloc)?),
        Reply::Withdrawn(uri) => publication(alloc, uri, None, Vec::new(alloc)),
    }
}

/// Returns the body of a message that tells the client this.
///
/// # Errors
///
/// Out of memory.
pub fn reply_body(alloc: Global, reply: Reply<'_>) -> Result<String, AllocError>
    ensures { IfOk result (λ text. string_bytes text ≡ reply_body (reply_of reply.entry)) }
{
    reply_value(alloc, reply)?.to_string(alloc)
}
