//! Replies as lines of JSON.
ghost use Rattle.std.specs.Prelude.{◌≡◌, ◌++◌, map, string_bytes, IfOk};
ghost use Rattle.serde_json.specs.View.{view, items_of, items_view};
ghost use Rattle.rust_document.specs.Seen.{message_of_error};
ghost use Rattle.document_requests.specs.Messages.{worded};
ghost use Rattle.document_requests.specs.Answered.{ends_of, reply as answered};
ghost use Rattle.document_requests.specs.Reply.{Changed, Tree, Errors, Refused, range_data, ranges_data, lines_data, message_data, messages_data, reply_data, line, lines};

use crate::reply::{Refusal, Reply};
use rowan_green::TextRange;
use rust_document::SyntaxError;
use serde_json::{Value, json};
use std::alloc::{AllocError, Global};

fn range_value(alloc: Global, range: TextRange) -> Result<Value, AllocError>
    ensures { IfOk result (λ value. view value ≡ range_data (ends_of range)) }
{
    let start = u32::from(range.start());
    let end = u32::from(range.end());
    json!(in alloc; [start, end])
}

fn range_values(alloc: Global, ranges: &[TextRange]) -> Result<Vec<Value>, AllocError>
    ensures { IfOk result
        (λ values. items_view values.items ≡ ranges_data (map ends_of ranges.now)) }
{
    let mut values = Vec::with_capacity(alloc, ranges.len())?;
    for range in ranges {
        values.push(range_value(alloc, *range)?)?;
    }
    Ok(values)
}

fn line_values(alloc: Global, lines: &[String]) -> Result<Vec<Value>, AllocError>
    ensures { IfOk result
        (λ values. items_view values.items ≡ lines_data (map string_bytes lines.now)) }
{
    let mut values = Vec::with_capacity(alloc, lines.len())?;
    for line in lines {
        values.push(Value::String(line.clone()?))?;
    }
    Ok(values)
}

fn message_value(alloc: Global, error: SyntaxError) -> Result<Value, AllocError>
    ensures { IfOk result (λ value. view value ≡ message_data (worded (message_of_error error))) }
{
    let offset = Value::from(error.offset);
    let words = Value::String(format!(in alloc; "{error}")?);
    Ok(Value::Array(vec![in alloc; offset, words]?))
}

fn message_values(alloc: Global, errors: &[SyntaxError]) -> Result<Vec<Value>, AllocError>
    ensures { IfOk result (λ values. items_view values.items
        ≡ messages_data (map worded (map message_of_error errors.now))) }
{
    let mut values = Vec::with_capacity(alloc, errors.len())?;
    for error in errors {
        values.push(message_value(alloc, *error)?)?;
    }
    Ok(values)
}

fn commit_value(alloc: Global, changed: &[TextRange]) -> Result<Value, AllocError>
    ensures { IfOk result (λ value. view value ≡ reply_data (Changed (map ends_of changed.now))) }
{
    let ranges = Value::Array(range_values(alloc, changed)?);
    json!(in alloc; {"changed": ranges, "ok": "commit"})
}

fn tree_value(alloc: Global, lines: &[String]) -> Result<Value, AllocError>
    ensures { IfOk result (λ value. view value ≡ reply_data (Tree (map string_bytes lines.now))) }
{
    let lines = Value::Array(line_values(alloc, lines)?);
    json!(in alloc; {"ok": "tree", "tree": lines})
}

fn errors_value(alloc: Global, errors: &[SyntaxError]) -> Result<Value, AllocError>
    ensures { IfOk result (λ value. view value
        ≡ reply_data (Errors (map worded (map message_of_error errors.now)))) }
{
    let messages = Value::Array(message_values(alloc, errors)?);
    json!(in alloc; {"errors": messages, "ok": "errors"})
}

fn refusal_value(alloc: Global, refusal: Refusal) -> Result<Value, AllocError>
    ensures { IfOk result (λ value. view value ≡ reply_data (Refused refusal)) }
{
    let name = refusal.name();
    json!(in alloc; {"err": name})
}

fn reply_value(alloc: Global, reply: &Reply) -> Result<Value, AllocError>
    ensures { IfOk result (λ value. view value ≡ reply_data (answered reply.now)) }
{
    match reply {
        Reply::Edit => json!(in alloc; {"ok": "edit"}),
        Reply::Commit { changed } => commit_value(alloc, changed),
        Reply::Tree { lines } => tree_value(alloc, lines),
        Reply::Errors { list } => errors_value(alloc, list),
        Reply::Refused(refusal) => refusal_value(alloc, *refusal),
    }
}

/// Returns the values of replies.
pub fn reply_values(alloc: Global, replies: &[Reply]) -> Result<Vec<Value>, AllocError>
    ensures { IfOk result (λ values. items_view values.items
        ≡ items_of (map reply_data (map answered replies.now))) }
{
    let mut values = Vec::with_capacity(alloc, replies.len())?;
    for reply in replies {
        values.push(reply_value(alloc, reply)?)?;
    }
    Ok(values)
}

/// The line of a reply, with its line feed.
pub fn line(alloc: Global, reply: &Reply) -> Result<String, AllocError>
    ensures { IfOk result (λ text. string_bytes text ≡ line (answered reply.now)) }
{
    let mut text = reply_value(alloc, reply)?.to_string(alloc)?;
    text.push('\n')?;
    Ok(text)
}

/// The lines of all replies.
pub fn lines(alloc: Global, replies: &[Reply]) -> Result<String, AllocError>
    ensures { IfOk result (λ text. string_bytes text ≡ lines (map answered replies.now)) }
{
    let mut text = String::new(alloc);
    for reply in replies {
        text.push_str(&line(alloc, reply)?)?;
    }
    Ok(text)
}
