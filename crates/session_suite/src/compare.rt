//! What a client was told, and what it is to be told.

use anyhow::Result;
use message_frames::{HeaderRead, header_in};
use serde_json::Value;
use std::alloc::Global;

/// Returns the first message of some bytes, and the number of its bytes.
fn message_in(alloc: Global, bytes: &[u8]) -> Result<Option<(Value, usize)>> {
    let HeaderRead::Whole { len, body } = header_in(bytes) else {
        return Ok(None);
    };
    let end = len.saturating_add(usize::try_from(body)?);
    if end > bytes.len() {
        return Ok(None);
    }
    let text = str::from_utf8(&bytes[len..end])?;
    Ok(Some((Value::from_str(alloc, text)?, end)))
}

/// Returns the messages that a client was told, or `None` if they are no messages.
pub(crate) fn messages_in(alloc: Global, bytes: &[u8]) -> Result<Option<Vec<Value>>> {
    let mut messages = Vec::new(alloc);
    let mut rest = bytes;
    while !rest.is_empty() {
        let Some((message, end)) = message_in(alloc, rest)? else {
            return Ok(None);
        };
        messages.push(message)?;
        rest = &rest[end..];
    }
    Ok(Some(messages))
}

/// Returns `true` if each member of `wanted` matches one of `told`, or in an exact comparison is one.
fn members_match(wanted: &Value, told: &Value, is_exact: bool) -> bool {
    let Some(members) = wanted.as_object() else {
        return false;
    };
    for (name, member) in members.iter() {
        match told.get(name.as_str()) {
            Some(found) if is_exact && matches(member, found) => {}
            Some(found) if !is_exact && has(member, found) => {}
            _ => return false,
        }
    }
    true
}

/// Returns `true` if `told` has at least the members of `wanted`.
fn has(wanted: &Value, told: &Value) -> bool {
    let is_pattern = wanted.get("$any").is_some() || wanted.get("$has").is_some();
    if !is_pattern && wanted.is_object() && told.is_object() {
        return members_match(wanted, told, false);
    }
    matches(wanted, told)
}

/// Returns `true` if two lists have as many entries, and each matches.
fn all_match(wanted: &[Value], told: &[Value]) -> bool {
    if wanted.len() != told.len() {
        return false;
    }
    for (i, entry) in wanted.iter().enumerate() {
        if !matches(entry, &told[i]) {
            return false;
        }
    }
    true
}

/// Returns `true` if `told` is what is wanted. `{"$any": true}` stands for any value, `{"$has": VALUE}` for an object
/// with at least the members of VALUE.
pub(crate) fn matches(wanted: &Value, told: &Value) -> bool {
    if wanted.get("$any").is_some() {
        return true;
    }
    if let Some(least) = wanted.get("$has") {
        return has(least, told);
    }
    match (wanted, told) {
        (Value::Array(wanted), Value::Array(told)) => {
            all_match(wanted.as_slice(), told.as_slice())
        }
        (Value::Object(members), Value::Object(found)) => {
            members.len() == found.len() && members_match(wanted, told, true)
        }
        (Value::String(wanted), Value::String(told)) => wanted.as_str() == told.as_str(),
        (Value::Number(_), Value::Number(_)) => wanted.as_i64() == told.as_i64(),
        (Value::Bool(wanted), Value::Bool(told)) => wanted == told,
        (Value::Null, Value::Null) => true,
        _ => false,
    }
}
